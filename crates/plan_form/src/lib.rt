// Plans in their typed form (document 01, worksheet `LPW`): read from bytes as a run needs them, and written to a lent buffer.
#![tactic(auto)]

ghost use Rattle.plan.specs.Plan.{plan_code};
ghost use Rattle.wire.specs.Refusal.{code, number_of};
ghost use Rattle.std.specs.Prelude.{◌≡◌, IfOk, ◌≤◌, length, take};
ghost use Rattle.draft.specs.Steps.{draft, put_list};
ghost use Rattle.wire.specs.Wire.{Returned};
ghost use Rattle.plan_form.specs.Form.{listed_text, all_listed_text, any_set, held_code, form_bytes, write_reply, plan_reading};

use nodes::Term;
use packed_path::PackedPath;
use wire::Refusal;

// A plan: its version and its kind; the first `paths` of its path reductions; how many entries it has; and the first `count` of its nodes: for each entry its
// reduction byte, the terms of its condition where that byte has 128 added, and those of its value; then the terms of the final expression.
// Kept: arrays with a count beside them (no heap), version and kind as bytes, since `write` promises `write_reply` of any version and kind, legal or not.
#[derive(Clone, Copy)]
pub struct Form {
    pub version: u8,
    pub kind: u8,
    pub paths: u8,
    pub table: [PackedPath; 8],
    pub entries: u8,
    pub count: usize,
    pub nodes: [Term; 72],
}

// The reader of plans: the typed form, or the refusal.
#[tactic(auto, unfolding(progress::specs::Progress::blank))]
pub fn read(s: &[u8]) -> Result<Form, Refusal>
    ensures code { code result ≡ plan_code s.now }
    ensures ok { IfOk result (λ r. r ≡ plan_reading s.now) }
{
    let found = plan::scan(s)?;
    let table = found.table;
    let entries = found.reductions.min(8);
    let count = found.terms.min(64) + entries;
    let nodes = nodes::read_nodes(s, plan::count_at(s) + 1, count);
    Ok(Form {
        version: wire::byte(s, 3),
        kind: wire::byte(s, 5),
        paths: found.paths.min(8) as u8,
        table,
        entries: entries as u8,
        count,
        nodes,
    })
}

// A path reduction in a plan of this version.
#[tactic(auto, unfolding(crate::specs::Form::listed_text, draft::specs::Steps::put_list))]
fn put_row(d: &mut [u8], at: usize, version: u8, p: PackedPath) -> usize
    ensures { draft d.new result ≡ put_list (draft d.old at) (listed_text version p) }
{
    let sources = draft::put32(d, at, p.keys);
    if version == 1 {
        nodes::put_start(d, sources, p)
    } else {
        nodes::put_set(d, sources, p)
    }
}

// The first `paths` path reductions, at most 8.
#[tactic(auto, unfolding(draft::specs::Steps::put_list, draft::specs::Texts::texts))]
fn put_rows(d: &mut [u8], at: usize, version: u8, table: [PackedPath; 8], paths: u8) -> usize
    ensures { (draft d.new result ≡ put_list (draft d.old at) (all_listed_text version (take paths table)))
        × (length (all_listed_text version (take paths table)) ≤ 296) }
{
    let mut next = at;
    for p in &table[..usize::from(paths).min(8)] {
        next = put_row(d, next, version, *p);
    }
    next
}

// The bytes of the form, put into the buffer: 8, at most 37 for each of 8 path reductions, and at most 38 for each of 72 nodes. How many they are.
fn put_form(form: &Form, d: &mut [u8]) -> usize
    requires { length d.old ≡ 3072 }
    ensures { (take result d.new ≡ form_bytes form.now) × (length (form_bytes form.now) ≤ 3040) }
{
    let fifth = draft::header(d, 0x57, form.version);
    let seventh = draft::put_two(d, fifth, form.kind, form.paths);
    let behind = put_rows(d, seventh, form.version, form.table, form.paths);
    let first = draft::put(d, behind, form.entries);
    nodes::put_nodes(d, first, form.nodes, form.count)
}

// Has any of the first `paths` path reductions, at most 8, two sources or more?
#[tactic(auto, using(draft::proofs::Texts::take_least))]
pub fn has_set(table: [PackedPath; 8], paths: usize) -> bool
    ensures { result ≡ any_set (take paths table) }
{
    any_set(&table[..paths.min(8)])
}

// Has any of the path reductions two sources or more?
fn any_set(rows: &[PackedPath]) -> bool
    ensures { result ≡ any_set rows.now }
{
    rows.iter().any(|p| 2 <= p.count)
}

// What the version has no bytes for is refused by 3: a set of two sources or more by version 1.
fn judge_held(version: u8, table: [PackedPath; 8], paths: u8) -> Result<(), Refusal>
    ensures { code result ≡ held_code version (take paths table) }
{
    if version == 1 && has_set(table, usize::from(paths)) {
        return Err(Refusal::Version);
    }
    Ok(())
}

// The writer of plans: what the version has no bytes for is refused; then what it is handed is judged by the reader of its bytes, then 15.
#[tactic(auto, unfolding(crate::specs::Form::write_reply))]
pub fn write(form: &Form, out: &mut [u8]) -> Result<u16, Refusal>
    ensures { Returned (write_reply form.now (length out.old)) (number_of result) out.old out.new }
{
    judge_held(form.version, form.table, form.paths)?;
    let mut bytes = [0u8; 3072];
    let n = put_form(form, &mut bytes);
    let text = draft::front(&bytes, n);
    draft::deliver_judged(text, plan::judge(text), out)
}
