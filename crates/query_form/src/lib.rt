// Queries in their typed form (document 01, question `LPQ`): read from bytes, and written to a lent buffer.
#![tactic(auto)]

ghost use Rattle.query.specs.Query.{query_code};
ghost use Rattle.wire.specs.Refusal.{code, number_of};
ghost use Rattle.std.specs.Prelude.{◌≡◌, IfOk, ◌≤◌, length, take};
ghost use Rattle.wire.specs.Wire.{Returned};
ghost use Rattle.query_form.specs.Form.{form_bytes, write_reply, query_reading};

use nodes::Term;
use packed_path::PackedPath;
use wire::Refusal;

// A query: its kind and the first `count` of its terms in written order.
// Kept: an array with a count beside it (no heap), and the kind as a byte, since `write` promises `write_reply` of any kind, legal or not.
#[derive(Clone, Copy)]
pub struct Form {
    pub kind: u8,
    pub count: usize,
    pub nodes: [Term; 72],
}

// What was read: the query, the table of its different path reductions, the first `paths`, and how many reductions it has.
// Kept: an array with a count beside it (no heap).
#[derive(Clone, Copy)]
pub struct Reading {
    pub form: Form,
    pub paths: usize,
    pub table: [PackedPath; 8],
    pub reductions: usize,
}

// The reader of queries: the typed form, or the refusal.
#[tactic(auto, unfolding(progress::specs::Progress::blank))]
pub fn read(s: &[u8]) -> Result<Reading, Refusal>
    ensures code { code result ≡ query_code s.now }
    ensures ok { IfOk result (λ r. r ≡ query_reading s.now) }
{
    let found = query::scan(s)?;
    let table = found.table;
    let nodes = nodes::read_nodes(s, 6, found.terms);
    let form = Form {
        kind: wire::byte(s, 5),
        count: found.terms,
        nodes,
    };
    Ok(Reading {
        form,
        paths: found.paths,
        table,
        reductions: found.reductions,
    })
}

// The bytes of the form, put into the buffer: 6, and at most 38 for each of 72 terms. How many they are.
fn put_form(form: &Form, d: &mut [u8]) -> usize
    requires { length d.old ≡ 3072 }
    ensures { (take result d.new ≡ form_bytes form.now) × (length (form_bytes form.now) ≤ 2742) }
{
    let fifth = draft::header(d, 0x51, 1);
    let start = draft::put(d, fifth, form.kind);
    nodes::put_nodes(d, start, form.nodes, form.count)
}

// The writer of queries: what it is handed is judged by the reader of its bytes, then 15.
pub fn write(form: &Form, out: &mut [u8]) -> Result<u16, Refusal>
    ensures { Returned (write_reply form.now (length out.old)) (number_of result) out.old out.new }
{
    let mut bytes = [0u8; 3072];
    let n = put_form(form, &mut bytes);
    let text = draft::front(&bytes, n);
    draft::deliver_judged(text, query::judge(text), out)
}
