// One path reduction on the table of figures: its initial values (document 01: start values), and a round of it vertex by vertex.
//
// The table's first 32 words are eight sets of vertices (crate vertex_set), one for each path reduction: the vertices that its last round changed, before the
// first those with an initial value. Behind them a vertex has eight words, one for each path reduction: its figures in one word (crate packed_figures). Behind
// these a vertex has one word more, which it lends to the edges from it in a round: its word of the round before with one more edge, or ABSENT where its edges
// do not count. So no edge needs a test, and the table can be changed while former words are read. Between rounds all of these are ABSENT.
// `work` has two sets, 0 the vertices that a round walks, 1 those that it changes.
// Kept: one flat table, which callers lend, since memory is fixed (no heap).
#![tactic(auto)]

ghost use Rattle.std.specs.Prelude.{◌≡◌, false, ℕ, ◌+◌, ◌*◌, ◌<◌, ◌≤◌, ltb, length};
ghost use Rattle.wire.specs.Wire.{at16};
ghost use Rattle.vertex_set.specs.Sets.{emptied, joined, member, next_member};
ghost use Rattle.packed_figures.specs.Packed.{Sound, absent};
ghost use Rattle.packed_path.specs.Packed.{sources_of};
ghost use Rattle.packed_path.specs.Steps.{begins};
ghost use Rattle.table.specs.Table.{Idle, lent};
ghost use Rattle.table.specs.Steps.{Began, Blank, Lends, Quiet, Ready, Relent, Stepped, Touched, Valued, Walked, brings, lent_in, reduced_word};
ghost use Rattle.table.specs.Steps.{started, value_word, walked_mark, walked_word, word_in};

use incoming::{Accepted, IndexedGraph};
use packed_figures::PathConstants;
use packed_path::PackedPath;

// ---- initial values

// The word of vertex v before the first round: of the empty walk where one may begin there.
fn start_word(c: PathConstants, here: bool, v: usize) -> u64
    requires { Sound c × (v < 256) }
    ensures { result ≡ started c here v }
{
    if here {
        packed_figures::base_at(c, v as u64)
    } else {
        packed_figures::ABSENT
    }
}

// The initial values of path reduction j, on n vertices.
pub fn initialize(path: PackedPath, c: PathConstants, n: usize, j: usize, figures: &mut [u64])
    requires { Sound c × (n ≤ 256) × (j < 8) × (32 + 8 * n ≤ length figures.old) }
    ensures { Began (begins (sources_of path)) c n j figures.old figures.new }
{
    vertex_set::clear(figures, j);
    for v in 0..n {
        let here = packed_path::starts_at(path, v as u64);
        figures[32 + 8 * v + j] = start_word(c, here, v);
        vertex_set::insert_if(figures, j, v, here);
    }
}

// ---- the words lent

// No vertex lends: ABSENT for each of n.
pub fn idle(n: usize, figures: &mut [u64])
    requires { (n ≤ 256) × (32 + 9 * n ≤ length figures.old) }
    ensures { Relent n (λ u. absent) figures.old figures.new }
{
    let first = 32 + 8 * n;
    for u in 0..n {
        figures[first + u] = packed_figures::ABSENT;
    }
}

// The vertices of set j lend their word with one more edge, and those that the edges from them lead to are set 0 of `work`.
fn touch(
    c: PathConstants,
    j: usize,
    n: usize,
    successors: &[u64],
    figures: &mut [u64],
    work: &mut [u64],
)
    requires { Sound c × (j < 8) × (n ≤ 256) × (4 * n ≤ length successors.now) × (32 + 9 * n ≤ length figures.old) × (8 ≤ length work.old)
        × Idle n figures.old × ((u : ℕ) → u < n → word_in figures.old j u ≤ absent) }
    ensures { Touched c n j successors.now figures.old work.old figures.new work.new }
{
    let first = 32 + 8 * n;
    let mut touched = vertex_set::empty();
    let mut m = vertex_set::first(figures, j);
    while m.vertex < n {
        let u = m.vertex;
        figures[first + u] = figures[32 + 8 * u + j] + c.edges;
        touched = vertex_set::with(touched, successors, u);
        m = vertex_set::after(figures, j, m);
    }
    vertex_set::store(work, 0, touched);
}

// The vertices of set j lend no more, where no other does. Kept: here, in `touch` and in `walk` a while over the members, since an iterator would hold the
// table that its body writes to.
fn unlend(j: usize, n: usize, figures: &mut [u64])
    requires { (j < 8) × (n ≤ 256) × (32 + 9 * n ≤ length figures.old)
        × ((u : ℕ) → u < n → member figures.old j u ≡ false → lent n figures.old u ≡ absent) }
    ensures { Relent n (λ u. absent) figures.old figures.new }
{
    let first = 32 + 8 * n;
    let mut m = vertex_set::first(figures, j);
    while m.vertex < n {
        let u = m.vertex;
        figures[first + u] = packed_figures::ABSENT;
        m = vertex_set::after(figures, j, m);
    }
}

// ---- a round of one path reduction

// What edge i brings to its end: the word that its start lends, by its weight and its capacity.
fn brought(c: PathConstants, i: usize, graph: &Accepted, figures: &[u64]) -> u64
    requires { Lends graph.now.bytes.now c figures.now × (i < at16 graph.now.bytes.now 7) }
    ensures { result ≡ brings graph.now.bytes.now c (lent_in graph.now.bytes.now figures.now) i }
{
    let from = graph.ends(i).from;
    let weight = graph.field_at(i, 4) as u64;
    let capacity = graph.field_at(i, 6) as u64;
    packed_figures::through(
        c,
        figures[32 + 8 * graph.vertices() + from],
        weight,
        capacity,
    )
}

// Definition 3, at the vertex v: what the edges into it bring, one after the other, reduced into the word that it had. Kept: a while, since the next row is
// read from the index.
fn reduced(c: PathConstants, v: usize, word: u64, indexed: &IndexedGraph, figures: &[u64]) -> u64
    requires { Lends indexed.now.graph.bytes.now c figures.now × (v < at16 indexed.now.graph.bytes.now 5) }
    ensures { result ≡ reduced_word indexed.now.graph.bytes.now c (lent_in indexed.now.graph.bytes.now figures.now) word v }
{
    let m = indexed.graph.rows();
    let mut best = word;
    let mut i = indexed.first_into(v);
    while i < m {
        best = brought(c, i, &indexed.graph, figures).min(best);
        i = indexed.next_into(i);
    }
    best
}

// The vertex v: it has that word from here on, and is put into set 1 where it is another.
#[tactic(auto, using(incoming::proofs::Sizes::few_vertices), unfolding(crate::specs::Steps::walked_word, crate::specs::Steps::walked_mark))]
fn walk_at(
    c: PathConstants,
    j: usize,
    v: usize,
    indexed: &IndexedGraph,
    figures: &mut [u64],
    work: &mut [u64],
)
    requires { Ready indexed.now.graph.bytes.now c j figures.old work.old × (v < at16 indexed.now.graph.bytes.now 5) }
    ensures { (figures.new ≡ walked_word indexed.now.graph.bytes.now c j figures.old v)
        × (work.new ≡ walked_mark indexed.now.graph.bytes.now c j figures.old work.old v) }
{
    let at = 32 + 8 * v + j;
    let word = figures[at];
    let best = reduced(c, v, word, indexed, figures);
    figures[at] = best;
    vertex_set::insert_if(work, 1, v, best != word);
}

// The vertices of set 0 in rising order. Set 1 is empty before.
fn walk(c: PathConstants, j: usize, indexed: &IndexedGraph, figures: &mut [u64], work: &mut [u64])
    requires { Ready indexed.now.graph.bytes.now c j figures.old work.old × Blank work.old }
    ensures { Walked indexed.now.graph.bytes.now c j figures.old work.old figures.new work.new 256 }
{
    let mut m = vertex_set::first(work, 0);
    while m.vertex < 256 {
        walk_at(c, j, m.vertex, indexed, figures, work);
        m = vertex_set::after(work, 0, m);
    }
}

// Set 1 of `work` becomes set j. Whether it has a vertex.
fn mark(j: usize, figures: &mut [u64], work: &[u64]) -> bool
    requires { (4 * j + 4 ≤ length figures.old) × (8 ≤ length work.now) }
    ensures { (figures.new ≡ joined (emptied figures.old j) j work.now 1) × (result ≡ ltb (next_member work.now 1 0) 256) }
{
    vertex_set::clear(figures, j);
    vertex_set::join(figures, j, work, 1);
    let m = vertex_set::first(work, 1);
    m.vertex < 256
}

// A round of path reduction j over the edges from the vertices of its set: the vertices that these lead to are walked, by the words that those have; the others
// keep their word and are not walked. Whether a vertex changed.
pub fn step(
    c: PathConstants,
    j: usize,
    indexed: &IndexedGraph,
    figures: &mut [u64],
    work: &mut [u64],
) -> bool
    requires { Quiet indexed.now.graph.bytes.now c j figures.old work.old }
    ensures { Stepped indexed.now.graph.bytes.now c j indexed.now.successors.now figures.old figures.new result
        × (length work.new ≡ length work.old) }
{
    let n = indexed.graph.vertices();
    touch(c, j, n, indexed.successors, figures, work);
    vertex_set::clear(work, 1);
    walk(c, j, indexed, figures, work);
    unlend(j, n, figures);
    mark(j, figures, work)
}

// ---- values

// One more than the last key's figure in a word, 0 where there is no walk.
#[tactic(auto, using(packed_figures::proofs::Legal::figure_small))]
fn value_word(c: PathConstants, x: u64) -> u64
    requires { Sound c }
    ensures { result ≡ value_word c x }
{
    if x == packed_figures::ABSENT {
        0
    } else {
        packed_figures::value_of(c, x) + 1
    }
}

// The values of path reduction j at n vertices, in place of its words.
pub fn read_values(c: PathConstants, n: usize, j: usize, figures: &mut [u64])
    requires { Sound c × (j < 8) × (32 + 8 * n ≤ length figures.old) }
    ensures { Valued c n j figures.old figures.new }
{
    for v in 0..n {
        let at = 32 + 8 * v + j;
        figures[at] = value_word(c, figures[at]);
    }
}
