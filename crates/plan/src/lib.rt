// Plans (document 01, worksheet `LPW`): judged and read.
#![tactic(auto)]

ghost use Rattle.std.specs.Prelude.{◌≡◌, ◌+◌, ◌≤◌, ◌<◌, length};
ghost use Rattle.wire.specs.Refusal.{code};
ghost use Rattle.progress.specs.Progress.{going, scanned, scan_of};
ghost use Rattle.plan.specs.Plan.{filler_code, slot_code, listed_keys_code, set_count_code, listed_starts_code, listed_code, listed_at, listed_end};
ghost use Rattle.plan.specs.Plan.{listed_step, listed_scan, count_at};
ghost use Rattle.plan.specs.Plan.{reduction_code, expressions_scan, entry_scan, entries_scan, count_code, final_scan, body_scan, plan_scan, plan_code};
ghost use Rattle.plan.specs.Steps.{kind_byte};

use packed_path::PackedPath;
use progress::Progress;
use terms::TermKind;
use wire::Refusal;

// What a worksheet computes, by its kind byte: 0 a value for each vertex, 1 one result.
#[derive(Clone, Copy)]
enum Kind {
    EachVertex,
    OneResult,
}

// The kind of a worksheet whose kind byte is b.
// Kept: no TryFrom, since `fields::opening_code` has refused every other byte before: it would have an error that never comes.
fn kind_of(b: u16) -> Kind
    ensures { b ≤ 1 → kind_byte result ≡ b }
{
    if b == 0 {
        Kind::EachVertex
    } else {
        Kind::OneResult
    }
}

// An unused key byte: 1 missing, 9 other than 0.
// Kept: a byte as a u16, 256 where none is left: `fields::byte` answers so, and `fields::key_code` and `code_of` take it so (their clauses may not change).
fn judge_filler(b: u16) -> Result<(), Refusal>
    ensures { code result ≡ filler_code b }
{
    if 255 < b {
        return Err(Refusal::Short);
    }
    if b != 0 {
        return Err(Refusal::Code);
    }
    Ok(())
}

// Key byte j of a path reduction of n keys.
fn judge_slot(n: u16, j: u16, b: u16) -> Result<(), Refusal>
    requires { j < 3 }
    ensures { code result ≡ slot_code n j b }
{
    if j < n {
        return fields::key_code(b, j + 1 == n);
    }
    judge_filler(b)
}

// The key count and the three key bytes of a path reduction at `at`.
#[tactic(auto, unfolding(crate::specs::Plan::listed_keys_code))]
fn judge_keys(s: &[u8], at: usize) -> Result<(), Refusal>
    requires { at ≤ length s.now }
    ensures { code result ≡ listed_keys_code s.now at }
{
    let n = fields::byte(s, at);
    fields::code_of(n, 3)?;
    judge_slot(n, 0, fields::byte(s, at + 1))?;
    judge_slot(n, 1, fields::byte(s, at + 2))?;
    judge_slot(n, 2, fields::byte(s, at + 3))
}

// A set count: 0 for anywhere, at most 16.
fn judge_set_count(k: u16) -> Result<(), Refusal>
    ensures { code result ≡ set_count_code k }
{
    if 255 < k {
        return Err(Refusal::Short);
    }
    if 16 < k {
        return Err(Refusal::Code);
    }
    Ok(())
}

// Its starts at `at`: one start in version 1, a set count and as many starts in version 2.
// Kept: s, at and version as parameters, here and below: no plainer in a struct, since each definition of specs takes these three, and the callers hold s and
// a place that moves.
#[tactic(auto, unfolding(crate::specs::Plan::listed_starts_code))]
fn judge_starts(s: &[u8], at: usize, version: u8) -> Result<(), Refusal>
    requires { at ≤ length s.now + 4 }
    ensures { code result ≡ listed_starts_code version s.now at }
{
    let first = fields::byte(s, at);
    if version == 1 {
        return fields::source_code(first, fields::byte(s, at + 1));
    }
    judge_set_count(first)?;
    path_fields::starts_code(s, at + 1, usize::from(first))
}

// A path reduction at `at`: its keys, then its starts.
#[tactic(auto, unfolding(crate::specs::Plan::listed_code))]
fn judge_listed(s: &[u8], at: usize, version: u8) -> Result<(), Refusal>
    requires { at ≤ length s.now }
    ensures { code result ≡ listed_code version s.now at }
{
    judge_keys(s, at)?;
    judge_starts(s, at + 4, version)
}

// The path reduction at `at`.
#[tactic(auto, unfolding(crate::specs::Plan::listed_at))]
fn listed_at(s: &[u8], at: usize, version: u8) -> PackedPath
    requires { at ≤ length s.now }
    ensures { result ≡ listed_at version s.now at }
{
    let first = wire::byte(s, at + 1);
    let second = wire::byte(s, at + 2);
    let third = wire::byte(s, at + 3);
    let keys = path_fields::pack_keys(wire::byte(s, at), first, second, third);
    if version == 1 {
        return path_fields::one_source(keys, wire::half(s, at + 4));
    }
    path_fields::counted_sources(keys, s, at + 4)
}

// Where it ends.
#[tactic(auto, unfolding(crate::specs::Plan::listed_end))]
fn listed_end(s: &[u8], at: usize, version: u8) -> usize
    requires { at ≤ length s.now + 150000 }
    ensures { (result ≡ listed_end version s.now at) × (result ≤ at + 515) }
{
    if version == 1 {
        return at + 6;
    }
    at + 5 + 2 * usize::from(wire::byte(s, at + 4))
}

// Where the entry count of a worksheet stands, behind its path reductions.
#[tactic(auto, using(crate::proofs::Laws::chains_more), unfolding(crate::specs::Plan::chains_end, crate::specs::Plan::count_at))]
pub fn count_at(s: &[u8]) -> usize
    ensures { (result ≡ count_at s.now) × (result ≤ 140000) }
{
    let version = wire::byte(s, 3);
    let mut at: usize = 7;
    for _ in 0..wire::byte(s, 6) {
        at = listed_end(s, at, version);
    }
    at
}

// One path reduction more, put into the table behind those that stand there.
// Kept: s and w as parameters, here and below: no plainer in a struct, which each call of `terms::read_term` would take apart.
#[tactic(auto, unfolding(crate::specs::Plan::listed_step))]
fn read_listed(s: &[u8], w: &mut Progress, version: u8) -> Result<(), Refusal>
    ensures { scanned result w.new ≡ listed_step version s.now (going w.old) }
{
    if s.len() <= w.at {
        return Err(Refusal::Short);
    }
    judge_listed(s, w.at, version)?;
    if 8 <= w.paths {
        return Err(Refusal::Full);
    }
    w.table[w.paths] = listed_at(s, w.at, version);
    w.at = listed_end(s, w.at, version);
    w.paths += 1;
    Ok(())
}

// The path reductions, k of them.
#[tactic(auto, using(crate::proofs::Laws::listed_more, crate::proofs::Laws::listed_refused), unfolding(crate::specs::Plan::listed_scan))]
fn read_paths(s: &[u8], w: &mut Progress, k: u8, version: u8) -> Result<(), Refusal>
    ensures { scanned result w.new ≡ listed_scan k version s.now (going w.old) }
{
    for _ in 0..k {
        read_listed(s, w, version)?;
    }
    Ok(())
}

// An entry's reduction byte: 0 for kind 0; for kind 1 one of the five, 128 added where a condition follows.
fn judge_reduction(kind: Kind, b: u8) -> Result<(), Refusal>
    ensures { code result ≡ reduction_code (kind_byte kind) b }
{
    match kind {
        Kind::EachVertex => judge_filler(u16::from(b)),
        Kind::OneResult => fields::code_of(u16::from(b % 128), 5),
    }
}

// The expressions behind the reduction byte b: the condition's, where there is one, then the value's.
#[tactic(auto, using(crate::proofs::Laws::read_refused), unfolding(crate::specs::Plan::expressions_scan))]
fn expressions(s: &[u8], w: &mut Progress, b: u8) -> Result<(), Refusal>
    ensures { scanned result w.new ≡ expressions_scan b s.now (going w.old) }
{
    if 128 <= b {
        terms::read_term(s, w, TermKind::OfEntry, 16)?;
    }
    terms::read_term(s, w, TermKind::OfEntry, 16)
}

// An entry: its reduction byte and its expressions. One more is met.
#[tactic(auto, unfolding(crate::specs::Plan::entry_scan, crate::specs::Plan::moved))]
fn entry(s: &[u8], w: &mut Progress, kind: Kind) -> Result<(), Refusal>
    ensures { scanned result w.new ≡ entry_scan (kind_byte kind) s.now (going w.old) }
{
    let b = *s.get(w.at).ok_or(Refusal::Short)?;
    judge_reduction(kind, b)?;
    if 8 <= w.reductions {
        return Err(Refusal::Full);
    }
    w.at += 1;
    w.reductions += 1;
    expressions(s, w, b)
}

// The entries, k of them.
#[tactic(auto, using(crate::proofs::Laws::entries_more, crate::proofs::Laws::entries_refused), unfolding(crate::specs::Plan::entries_scan))]
fn entries(s: &[u8], w: &mut Progress, kind: Kind, k: u8) -> Result<(), Refusal>
    ensures { scanned result w.new ≡ entries_scan k (kind_byte kind) s.now (going w.old) }
{
    for _ in 0..k {
        entry(s, w, kind)?;
    }
    Ok(())
}

// The entry count: "for kind 0 every e other than 1 is 9", above 8 is 14.
fn judge_count(kind: Kind, e: u8) -> Result<(), Refusal>
    ensures { code result ≡ count_code (kind_byte kind) e }
{
    match kind {
        Kind::EachVertex if e != 1 => Err(Refusal::Code),
        Kind::OneResult if 8 < e => Err(Refusal::Full),
        _ => Ok(()),
    }
}

// The final expression of kind 1.
#[tactic(auto, unfolding(crate::specs::Plan::final_scan))]
fn final_expression(s: &[u8], w: &mut Progress, kind: Kind) -> Result<(), Refusal>
    ensures { scanned result w.new ≡ final_scan (kind_byte kind) s.now (going w.old) }
{
    match kind {
        Kind::EachVertex => Ok(()),
        Kind::OneResult => terms::read_term(s, w, TermKind::OfFinal, 16),
    }
}

// The entries and the final expression, from the entry count on.
#[tactic(auto, using(crate::proofs::Laws::final_refused), unfolding(crate::specs::Plan::body_scan, crate::specs::Plan::moved))]
fn body(s: &[u8], w: &mut Progress, kind: Kind) -> Result<(), Refusal>
    ensures { scanned result w.new ≡ body_scan (kind_byte kind) s.now (going w.old) }
{
    let e = *s.get(w.at).ok_or(Refusal::Short)?;
    judge_count(kind, e)?;
    w.at += 1;
    entries(s, w, kind, e)?;
    final_expression(s, w, kind)
}

// The reading of a whole worksheet: its path reductions in the table, its terms and entries counted; or a refusal.
#[tactic(auto, using(crate::proofs::Laws::whole_reading), unfolding(crate::specs::Plan::plan_scan))]
pub fn scan(s: &[u8]) -> Result<Progress, Refusal>
    ensures { scan_of result ≡ plan_scan s.now }
{
    fields::opening_code(s, 0x57, 2)?;
    let kind = kind_of(fields::byte(s, 5));
    let count = *s.get(6).ok_or(Refusal::Short)?;
    if 8 < count {
        return Err(Refusal::Full);
    }
    let mut w = progress::start(7);
    read_paths(s, &mut w, count, wire::byte(s, 3))?;
    body(s, &mut w, kind)?;
    progress::finish(s, Ok(w))
}

// The first refusal, where there is one.
#[tactic(auto, unfolding(progress::specs::Progress::blank))]
pub fn judge(s: &[u8]) -> Result<(), Refusal>
    ensures { code result ≡ plan_code s.now }
{
    scan(s).map(|_| ())
}
