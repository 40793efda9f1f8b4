// The reader of terms, of questions and worksheets alike (document 01, "Layouts"): bytes judged left to right, each term by the
// numbers 1, 12, 11, 9 and then its fields. It moves a reading on, or gives the refusal.
#![tactic(auto)]

ghost use Rattle.std.specs.Prelude.{◌≡◌, ◌+◌, ◌<◌, ◌≤◌, IfOk, MatchOption, OnErr, length};
ghost use Rattle.progress.specs.Progress.{going, scanned};
ghost use Rattle.terms.specs.Terms.{kept_path, slot_of, path_step, set_step, reduce_step, index_step};
ghost use Rattle.terms.specs.Terms.{literal_step, apply_step, stepped, tagged_step, read};

use packed_path::PackedPath;
use progress::Progress;
use wire::Refusal;

// The four kinds of terms: place terms and result terms of a question, entries' expressions and final expressions of a worksheet.
#[derive(Clone, Copy)]
pub enum TermKind {
    OfVertex,
    OfResult,
    OfEntry,
    OfFinal,
}

// A term without those that it contains: the byte behind it, how many terms follow and of what kind they are.
// Kept: a count with the kind beside it, as the definition `Step` has them: a loop over the count needs no case for none.
#[derive(Clone, Copy)]
struct Head {
    end: usize,
    follow: u8,
    inner: TermKind,
}

// The first of the eight slots of the table that is free or holds the path reduction.
#[tactic(auto, using(crate::proofs::Laws::slots), unfolding(crate::specs::Terms::slot_of))]
fn slot(w: &Progress, path: PackedPath) -> Option<usize>
    ensures { MatchOption result (slot_of 8 w.now.paths w.now.table path 0 ≡ 8) (λ i. (slot_of 8 w.now.paths w.now.table path 0 ≡ i) × (i < 8)) }
{
    for i in 0..8 {
        if w.paths <= i || packed_path::same(w.table[i], path) {
            return Some(i);
        }
    }
    None
}

// The path reduction put into the table: 14 where it is a ninth, and the reading is as it was.
#[tactic(auto, unfolding(crate::specs::Terms::kept_path))]
pub fn keep_path(w: &mut Progress, path: PackedPath) -> Result<(), Refusal>
    ensures kept { scanned result w.new ≡ kept_path (going w.old) path }
    ensures refused { OnErr result (w.new ≡ w.old) }
{
    let i = slot(w, path).ok_or(Refusal::Full)?;
    w.table[i] = path;
    w.paths = w.paths.max(i + 1);
    Ok(())
}

// A term that contains no other.
fn alone(end: usize) -> Head
    ensures { result ≡ record { end = end; follow = 0; inner = TermKind.OfVertex } }
{
    Head {
        end,
        follow: 0,
        inner: TermKind::OfVertex,
    }
}

// Kept: each head asks that its first byte is there. A struct of the text and the reading would hold the reading by &mut, and each contract would speak of the
// reading through it: no plainer than the clause `w.at < length s`.

// "0x10, key count 1 to 3, the keys, a 16-bit start"; "In a chain, 14 comes after 13."
#[tactic(auto, using(crate::proofs::Reading::keeping), unfolding(crate::specs::Terms::path_step))]
fn path_head(s: &[u8], w: &mut Progress) -> Result<Head, Refusal>
    requires { w.old.at < length s.now }
    ensures { stepped result w.new ≡ path_step s.now (going w.old) }
{
    let at = w.at + 1;
    path_fields::path_code(s, at)?;
    keep_path(w, path_fields::path_at(s, at))?;
    Ok(alone(at + 3 + usize::from(fields::byte(s, at))))
}

// "A place term 0x13 is a chain whose start is a set: key count, keys, a set count 1 to 16, the 16-bit starts strictly rising." (document 02, b)
#[tactic(auto, using(crate::proofs::Reading::keeping), unfolding(crate::specs::Terms::set_step))]
fn set_head(s: &[u8], w: &mut Progress) -> Result<Head, Refusal>
    requires { w.old.at < length s.now }
    ensures { stepped result w.new ≡ set_step s.now (going w.old) }
{
    let at = w.at + 1;
    path_fields::set_code(s, at)?;
    keep_path(w, path_fields::set_at(s, at))?;
    let count = at + 1 + usize::from(fields::byte(s, at));
    Ok(alone(count + 1 + 2 * usize::from(fields::byte(s, count))))
}

// "0x20, reduction, a place term", and 0x23 with two, condition and value; "A reduction's 14 follows its byte."
#[tactic(auto, unfolding(crate::specs::Terms::reduce_step, crate::specs::Terms::advanced))]
fn reduce_head(s: &[u8], w: &mut Progress, follow: u8) -> Result<Head, Refusal>
    requires { w.old.at < length s.now }
    ensures { stepped result w.new ≡ reduce_step follow s.now (going w.old) }
{
    let at = w.at + 1;
    fields::code_of(fields::byte(s, at), 5)?;
    if 8 <= w.reductions {
        return Err(Refusal::Full);
    }
    w.reductions += 1;
    Ok(Head {
        end: at + 1,
        follow,
        inner: TermKind::OfVertex,
    })
}

// "0x30 and a chain's index for a chain, 0x31 and an entry's index for a reduction": 16 where it is not below `count`.
#[tactic(auto, unfolding(crate::specs::Terms::index_step))]
fn index_head(s: &[u8], w: &Progress, count: usize) -> Result<Head, Refusal>
    requires { w.now.at < length s.now }
    ensures { stepped result w.now ≡ index_step s.now (going w.now) count }
{
    let at = w.at + 1;
    let index = fields::byte(s, at);
    if 255 < index {
        return Err(Refusal::Short);
    }
    if count <= usize::from(index) {
        return Err(Refusal::NoRow);
    }
    Ok(alone(at + 1))
}

// "0x11 and a 32-bit literal", "0x21 and a 32-bit literal".
#[tactic(auto, unfolding(crate::specs::Terms::literal_step))]
fn literal_head(s: &[u8], w: &Progress) -> Result<Head, Refusal>
    requires { w.now.at < length s.now }
    ensures { stepped result w.now ≡ literal_step s.now (going w.now) }
{
    let last = w.at + 4;
    if 255 < fields::byte(s, last) {
        return Err(Refusal::Short);
    }
    Ok(alone(last + 1))
}

// "0x12, operator, two place terms", "0x22, operator, two result terms".
#[tactic(auto, unfolding(crate::specs::Terms::apply_step))]
fn apply_head(s: &[u8], w: &Progress, kind: TermKind) -> Result<Head, Refusal>
    requires { w.now.at < length s.now }
    ensures { stepped result w.now ≡ apply_step kind s.now (going w.now) }
{
    let at = w.at + 1;
    fields::code_of(fields::byte(s, at), 11)?;
    Ok(Head {
        end: at + 1,
        follow: 2,
        inner: kind,
    })
}

// What a first byte says in a term of each kind; any other byte is 9.
#[tactic(auto, unfolding(crate::specs::Terms::leaf_step, crate::specs::Terms::literal_tag))]
fn head_of(s: &[u8], w: &mut Progress, kind: TermKind, tag: u8) -> Result<Head, Refusal>
    requires { w.old.at < length s.now }
    ensures { stepped result w.new ≡ tagged_step kind tag s.now (going w.old) }
{
    match (kind, tag) {
        (TermKind::OfVertex | TermKind::OfEntry, 0x11)
        | (TermKind::OfResult | TermKind::OfFinal, 0x21) => literal_head(s, w),
        (TermKind::OfVertex | TermKind::OfEntry, 0x12)
        | (TermKind::OfResult | TermKind::OfFinal, 0x22) => apply_head(s, w, kind),
        (TermKind::OfVertex, 0x10) => path_head(s, w),
        (TermKind::OfVertex, 0x13) => set_head(s, w),
        (TermKind::OfResult, 0x20) => reduce_head(s, w, 1),
        (TermKind::OfResult, 0x23) => reduce_head(s, w, 2),
        (TermKind::OfEntry, 0x30) => index_head(s, w, w.paths),
        (TermKind::OfFinal, 0x31) => index_head(s, w, w.reductions),
        _ => Err(Refusal::Code),
    }
}

// A term and all that it contains, from w on, with `left` levels of depth left: "for a term 1, 12, 11, 9, then each field". A refusal leaves w where it was
// met.
#[tactic(auto, using(crate::proofs::Reading::reading))]
fn read_on(s: &[u8], w: &mut Progress, kind: TermKind, left: usize) -> Result<(), Refusal>
    ensures { scanned result w.new ≡ read kind left s.now (going w.old) }
{
    if s.len() <= w.at {
        return Err(Refusal::Short);
    }
    if 64 <= w.terms {
        return Err(Refusal::Terms);
    }
    if left == 0 {
        return Err(Refusal::Deep);
    }
    let term = head_of(s, w, kind, s[w.at])?;
    w.at = term.end;
    w.terms += 1;
    for _ in 0..term.follow {
        read_on(s, w, term.inner, left - 1)?;
    }
    Ok(())
}

// The same for a caller's reading, which a refusal leaves as it was: it is copied once, and not at each term.
pub fn read_term(s: &[u8], w: &mut Progress, kind: TermKind, left: usize) -> Result<(), Refusal>
    ensures read { scanned result w.new ≡ read kind left s.now (going w.old) }
    ensures refused { OnErr result (w.new ≡ w.old) }
{
    let mut next = *w;
    read_on(s, &mut next, kind, left)?;
    *w = next;
    Ok(())
}
