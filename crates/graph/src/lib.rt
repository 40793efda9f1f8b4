// Graphs (document 01, map `LPM`): judged on their bytes, read into a typed form, and written from it.
#![tactic(auto)]

ghost use Rattle.wire.specs.Refusal.{code, number_of};
ghost use Rattle.std.specs.Prelude.{◌≡◌, IfOk, map, ◌+◌, ◌*◌, ◌<◌, ◌≤◌, length, take};
ghost use Rattle.std.proofs.lemmas.List.Edits.{sets};
ghost use Rattle.wire.specs.Wire.{at16, le16, Returned};
ghost use Rattle.graph.specs.Graph.{
  edge_in,
  edges_in,
  edge_code,
  edges_code,
  counts_code,
  graph_code,
  graph_of,
  row_of,
  table_of,
  graph_reading,
};
ghost use Rattle.graph.specs.Encode.{row_edge, edge_bytes, edges_bytes, head_bytes, table_bytes, write_reply};

use wire::Refusal;

// An edge: "from, to, seconds, crate size".
#[derive(Clone, Copy, Debug, Default, PartialEq, Eq)]
pub struct EdgeRow {
    pub from: u16,
    pub to: u16,
    pub weight: u16,
    pub capacity: u16,
}

// The typed form of a graph: how many vertices it has, and its edges, the first `count` rows.
// Kept: an array with a count beside it, in place of a Vec: no heap, fixed memory.
#[derive(Clone, Copy, Debug, PartialEq, Eq)]
pub struct EdgeTable {
    pub vertices: u16,
    pub count: u16,
    pub rows: [EdgeRow; 1024],
}

// A 16-bit number, low byte first.
// Kept: not `wire::half`, which asks of each byte whether it is there: judging a map of 1,024 rows took four times the instructions by it.
fn read16(s: &[u8], i: usize) -> u16
    requires { i + 1 < length s.now }
    ensures { result ≡ at16 s.now i }
{
    u16::from(s[i]) + 256 * u16::from(s[i + 1])
}

// Row i of the bytes.
fn edge_at(s: &[u8], i: usize) -> EdgeRow
    requires { 17 + 8 * i ≤ length s.now }
    ensures { result ≡ row_of (edge_in s.now i) }
{
    let at = 9 + 8 * i;
    EdgeRow {
        from: read16(s, at),
        to: read16(s, at + 2),
        weight: read16(s, at + 4),
        capacity: read16(s, at + 6),
    }
}

// A row of a graph of n vertices.
#[tactic(auto, unfolding(crate::specs::Graph::edge_code))]
fn judge_edge(n: u16, row: &EdgeRow) -> Result<(), Refusal>
    ensures { code result ≡ edge_code n (row_edge row.now) }
{
    if n <= row.from || n <= row.to {
        return Err(Refusal::NoVertex);
    }
    if row.capacity == 0 || row.capacity == 65535 {
        return Err(Refusal::Capacity);
    }
    Ok(())
}

// The numbers of vertices and of edges.
#[tactic(auto, unfolding(crate::specs::Graph::counts_code))]
fn judge_counts(n: u16, m: u16) -> Result<(), Refusal>
    ensures { code result ≡ counts_code n m }
{
    if n == 0 || 256 < n {
        return Err(Refusal::Vertices);
    }
    if 1024 < m {
        return Err(Refusal::Edges);
    }
    Ok(())
}

// The rows of the bytes, in turn.
fn judge_rows_in(s: &[u8], n: u16, m: usize) -> Result<(), Refusal>
    requires { (9 + 8 * m ≤ length s.now) × (m ≡ at16 s.now 7) }
    ensures { code result ≡ edges_code n (edges_in s.now) }
{
    for i in 0..m {
        judge_edge(n, &edge_at(s, i))?;
    }
    Ok(())
}

// The first refusal of a graph's bytes.
#[tactic(auto, unfolding(crate::specs::Graph::graph_code))]
pub fn judge(s: &[u8]) -> Result<(), Refusal>
    ensures { code result ≡ graph_code s.now }
{
    wire::judge_header(s, 0x4d, 1, 9)?;
    let n = wire::half(s, 5) as u16;
    let m = wire::half(s, 7) as u16;
    judge_counts(n, m)?;
    let count = m as usize;
    if s.len() != 9 + 8 * count {
        return Err(Refusal::Length);
    }
    judge_rows_in(s, n, count)
}

// The typed form of accepted bytes.
fn load(s: &[u8]) -> EdgeTable
    requires { graph_code s.now ≡ 0 }
    ensures { result ≡ table_of (graph_of s.now) }
{
    let count = wire::half(s, 7) as u16;
    let mut rows = [EdgeRow::default(); 1024];
    for i in 0..count as usize {
        rows[i] = edge_at(s, i);
    }
    EdgeTable {
        vertices: wire::half(s, 5) as u16,
        count,
        rows,
    }
}

// The reader of graphs: the typed form, or the refusal.
pub fn read(s: &[u8]) -> Result<EdgeTable, Refusal>
    ensures code { code result ≡ graph_code s.now }
    ensures ok { IfOk result (λ t. t ≡ graph_reading s.now) }
{
    judge(s)?;
    Ok(load(s))
}

impl EdgeTable {
    // The edges: the rows that count.
    pub fn edges(&self) -> &[EdgeRow]
        ensures rows { result.now ≡ take self.now.count self.now.rows }
        ensures few { length result.now ≤ 1024 }
    {
        &self.rows[..(self.count as usize).min(1024)]
    }
}

// The rows of a typed form, in turn.
fn judge_rows(n: u16, rows: &[EdgeRow]) -> Result<(), Refusal>
    ensures { code result ≡ edges_code n (map row_edge rows.now) }
{
    for row in rows {
        judge_edge(n, row)?;
    }
    Ok(())
}

// How many bytes a typed form has; or the first refusal of these bytes, without writing them.
#[tactic(auto, using(crate::proofs::Accepted::counts))]
fn judged_size(graph: &EdgeTable) -> Result<u16, Refusal>
    ensures code { code result ≡ graph_code (table_bytes graph.now) }
    ensures ok { IfOk result (λ size. (size ≡ 9 + 8 * graph.now.count) × (size ≡ length (table_bytes graph.now))) }
{
    let n = graph.vertices;
    judge_counts(n, graph.count)?;
    judge_rows(n, graph.edges())?;
    Ok(9 + 8 * graph.count)
}

// The first refusal of a typed form: that of its bytes, without writing them.
pub fn judge_table(graph: &EdgeTable) -> Result<(), Refusal>
    ensures { code result ≡ graph_code (table_bytes graph.now) }
{
    judged_size(graph)?;
    Ok(())
}

// 16 bits, low byte first.
fn put16(out: &mut [u8], at: usize, x: u16)
    requires { at + 2 ≤ length out.old }
    ensures { out.new ≡ sets out.old at (le16 x) }
{
    out[at..at + 2].copy_from_slice(&x.to_le_bytes());
}

// A row: four times 16 bits.
fn put_edge(out: &mut [u8], at: usize, row: &EdgeRow)
    requires { at + 8 ≤ length out.old }
    ensures { out.new ≡ sets out.old at (edge_bytes (row_edge row.now)) }
{
    put16(out, at, row.from);
    put16(out, at + 2, row.to);
    put16(out, at + 4, row.weight);
    put16(out, at + 6, row.capacity);
}

// The nine bytes before the rows.
fn put_head(out: &mut [u8], n: u16, m: u16)
    requires { 9 ≤ length out.old }
    ensures { out.new ≡ sets out.old 0 (head_bytes n m) }
{
    out[..5].copy_from_slice(&[0x4c, 0x50, 0x4d, 1, 0]);
    put16(out, 5, n);
    put16(out, 7, m);
}

// The rows, behind nine bytes.
// Kept: a loop of its own, as answer::put_rows has: a trait for what is put, with its laws, would be longer than the two loops.
#[tactic(auto, unfolding(crate::specs::Encode::edges_bytes))]
fn put_rows(out: &mut [u8], rows: &[EdgeRow])
    requires { 9 + 8 * length rows.now ≤ length out.old }
    ensures { out.new ≡ sets out.old 9 (edges_bytes (map row_edge rows.now)) }
{
    for (i, row) in rows.iter().enumerate() {
        put_edge(out, 9 + 8 * i, row);
    }
}

// The writer of graphs: it judges what it is handed as the reader of its bytes would, then 15.
pub fn write(graph: &EdgeTable, out: &mut [u8]) -> Result<u16, Refusal>
    ensures { Returned (write_reply graph.now (length out.old)) (number_of result) out.old out.new }
{
    let size = judged_size(graph)?;
    if out.len() < size as usize {
        return Err(Refusal::Room);
    }
    put_head(out, graph.vertices, graph.count);
    put_rows(out, graph.edges());
    Ok(size)
}
