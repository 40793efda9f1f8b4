// Fusing, bytes to bytes (document 01: "Fusing puts equal chains together, in order of first writing, and reductions in order of writing"; "Fusing judges the
// question, then 15"). The nodes of the query are gone through twice, for the two parts of the plan, each in written order.
#![tactic(auto)]

ghost use Rattle.wire.specs.Refusal.{number_of};
ghost use Rattle.std.specs.Prelude.{◌≡◌, ◌≤◌, cond, length, take};
ghost use Rattle.plan_form.specs.Form.{any_set};
ghost use Rattle.wire.specs.Wire.{Returned};
ghost use Rattle.fusion.specs.Fusion.{fuse_reply};
ghost use Rattle.fusion.specs.Steps.{PutsPart, entries_of, entry_term, final_term, first_written, fused_form, index_of, reduces, size};

use nodes::Term;
use packed_path::PackedPath;
use plan_form::Form;
use query_form::Reading;
use wire::Refusal;

// The nodes of a plan as far as they are written: the first `len`.
// Kept: an array with a count beside it in place of a Vec (no heap).
#[derive(Clone, Copy)]
pub struct Written {
    pub list: [Term; 72],
    pub len: usize,
}

// Where the path reduction stands in the table; 8 where it does not.
// Kept: a number and no Option, since `index_of` is promised, which is 8 there and stands in the laws of boards (`slots_in`).
pub fn position_of(table: [PackedPath; 8], p: PackedPath) -> usize
    ensures { (result ≡ index_of p table) × (result ≤ 8) }
{
    for (i, other) in table.iter().enumerate() {
        if packed_path::same(*other, p) {
            return i;
        }
    }
    8
}

// What a node of a query is in the entries of its plan: a reduction is the byte of its entry, 128 added with a condition; empty for a literal or an operator of
// a result term, which is in none.
#[tactic(auto, unfolding(crate::specs::Steps::entry_term))]
fn entry_term_of(t: Term, table: [PackedPath; 8]) -> Term
    ensures { result ≡ entry_term table t }
{
    match t {
        Term::Path(p) | Term::PathSet(p) => Term::PathIndex(position_of(table, p) as u8),
        Term::Literal(x) => Term::Literal(x),
        Term::Apply(o) => Term::Apply(o),
        Term::Reduce(o) => Term::Entry(o),
        Term::ReduceWhere(o) => Term::Entry(o % 128 + 128),
        _ => Term::Empty,
    }
}

// What it is in the final expression, where k reductions were written before it; empty for one of a vertex term.
#[tactic(auto, unfolding(crate::specs::Steps::final_term))]
fn final_term_of(t: Term, k: u8) -> Term
    ensures { result ≡ final_term k t }
{
    match t {
        Term::Reduce(_) | Term::ReduceWhere(_) => Term::EntryIndex(k),
        Term::ResultLiteral(x) => Term::ResultLiteral(x),
        Term::ResultApply(o) => Term::ResultApply(o),
        _ => Term::Empty,
    }
}

// How many nodes it takes: an empty one none.
#[tactic(auto, unfolding(crate::specs::Steps::size))]
fn size_of(t: Term) -> usize
    ensures { (result ≡ size t) × (result ≤ 1) }
{
    match t {
        Term::Empty => 0,
        _ => 1,
    }
}

// How many reductions it is.
#[tactic(auto, unfolding(crate::specs::Steps::reduces))]
fn reduces_of(t: Term) -> u8
    ensures { (result ≡ reduces t) × (result ≤ 1) }
{
    match t {
        Term::Reduce(_) | Term::ReduceWhere(_) => 1,
        _ => 0,
    }
}

// The nodes of one part of the plan, made of the first `count` nodes of the query, behind those of `start`. `part` says what a node is there, where k
// reductions were written before it.
fn put_part<F: Fn(Term, u8) -> Term>(
    start: Written,
    part: F,
    nodes: [Term; 72],
    count: usize,
) -> Written
    requires { F.IsAlwaysCallable part }
    ensures { PutsPart (F.post part) start (take count nodes) result }
{
    let mut list = start.list;
    let mut len = start.len;
    let mut k: u8 = 0;
    for node in &nodes[..count.min(72)] {
        if 72 <= len {
            return Written { list, len };
        }
        let t = part(*node, k);
        list[len] = t;
        len += size_of(t);
        k += reduces_of(*node);
    }
    Written { list, len }
}

// What stands before the entries: nothing, or for kind 0 the reduction byte of its one entry.
#[tactic(auto, unfolding(crate::specs::Steps::first_written))]
fn start_of(kind: u8) -> Written
    ensures { result ≡ first_written kind }
{
    let mut list = [Term::Empty; 72];
    if kind != 0 {
        return Written { list, len: 0 };
    }
    list[0] = Term::Entry(0);
    Written { list, len: 1 }
}

// How many entries: one for kind 0, for kind 1 the reductions of the query.
#[tactic(auto, unfolding(crate::specs::Steps::entries_of))]
fn entries_of_kind(kind: u8, reductions: usize) -> u8
    ensures { result ≡ entries_of kind reductions }
{
    if kind == 0 {
        1
    } else {
        reductions.min(8) as u8
    }
}

// The version of the plan: 2 where a path reduction has two sources or more.
fn version_of(table: [PackedPath; 8], paths: usize) -> u8
    ensures { result ≡ cond (any_set (take paths table)) 2 1 }
{
    if plan_form::has_set(table, paths) {
        2
    } else {
        1
    }
}

// The typed form of the plan, from what was read of the query.
#[tactic(auto, unfolding(crate::specs::Steps::fused_form))]
fn fused_form_of(r: &Reading) -> Form
    ensures { result ≡ fused_form r.now }
{
    let table = r.table;
    let list = r.form.nodes;
    let kind = r.form.kind;
    let count = r.form.count;
    let entries = put_part(start_of(kind), |t, _| entry_term_of(t, table), list, count);
    let whole = put_part(entries, final_term_of, list, count);
    let nodes = whole.list;
    Form {
        version: version_of(table, r.paths),
        kind,
        paths: r.paths.min(8) as u8,
        table,
        entries: entries_of_kind(kind, r.reductions),
        count: whole.len,
        nodes,
    }
}

// `fuse`: judges the query, then 15; writes the plan.
#[tactic(auto, unfolding(crate::specs::Fusion::fuse_reply))]
pub fn fuse(query: &[u8], out: &mut [u8]) -> Result<u16, Refusal>
    ensures { Returned (fuse_reply query.now (length out.old)) (number_of result) out.old out.new }
{
    let read = query_form::read(query)?;
    plan_form::write(&fused_form_of(&read), out)
}
