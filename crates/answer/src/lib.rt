// Answers (document 01, answer `LPA`): judged by their fields and the room, and written.
#![tactic(auto)]

ghost use Rattle.wire.specs.Refusal.{code, number_of};
ghost use Rattle.std.specs.Prelude.{◌≡◌, min, ◌∷◌, ◌+◌, ◌*◌, ◌≤◌, length};
ghost use Rattle.std.proofs.lemmas.List.Edits.{sets};
ghost use Rattle.value.specs.Value.{values};
ghost use Rattle.wire.specs.Wire.{le64, Returned};
ghost use Rattle.answer.specs.Answer.{row_bytes, rows_bytes, head_bytes, row_count, fields_code, answer_size, answer_code, answer_reply};

use value::{Row, Value};
use wire::Refusal;

// "n rows for kind 0 or one row for kind 1"
fn row_count(n: u16, kind: u8) -> usize
    ensures { result ≡ row_count n kind }
{
    if kind == 0 {
        return n as usize;
    }
    1
}

// How many bytes an answer has (of any n and kind, illegal ones too: one row for a kind above 0).
pub fn size(n: u16, kind: u8) -> usize
    ensures { result ≡ answer_size n kind }
{
    10 + 9 * row_count(n, kind)
}

// n and the kind.
#[tactic(auto, unfolding(crate::specs::Answer::fields_code))]
fn judge_fields(n: u16, kind: u8) -> Result<(), Refusal>
    ensures { code result ≡ fields_code n kind }
{
    if n == 0 || 256 < n {
        return Err(Refusal::Vertices);
    }
    if 1 < kind {
        return Err(Refusal::Code);
    }
    Ok(())
}

// The first refusal of an answer: known before any of its values is.
#[tactic(auto, unfolding(crate::specs::Answer::answer_code))]
pub fn judge(n: u16, kind: u8, room: usize) -> Result<(), Refusal>
    ensures { code result ≡ answer_code n kind room }
{
    judge_fields(n, kind)?;
    if room < size(n, kind) {
        return Err(Refusal::Room);
    }
    Ok(())
}

// A row's byte, and 64 bits.
fn put_marked(out: &mut [u8], at: usize, mark: u8, x: u64)
    requires { at + 9 ≤ length out.old }
    ensures { out.new ≡ sets out.old at (mark ∷ le64 x) }
{
    out[at] = mark;
    out[at + 1..at + 9].copy_from_slice(&x.to_le_bytes());
}

// "a byte, 1 for a number and 0 for absent, and 64 bits, 0 when absent"
fn put_row(out: &mut [u8], at: usize, row: &Row)
    requires { at + 9 ≤ length out.old }
    ensures { out.new ≡ sets out.old at (row_bytes row.now.value) }
{
    match row.value {
        Value::Absent => put_marked(out, at, 0, 0),
        Value::Number(x) => put_marked(out, at, 1, x),
    }
}

// The ten bytes before the rows.
fn put_head(out: &mut [u8], n: u16, rounds: u16, kind: u8)
    requires { 10 ≤ length out.old }
    ensures { out.new ≡ sets out.old 0 (head_bytes n rounds kind) }
{
    out[..5].copy_from_slice(&[0x4c, 0x50, 0x41, 1, 0]);
    out[5..7].copy_from_slice(&n.to_le_bytes());
    out[7..9].copy_from_slice(&rounds.to_le_bytes());
    out[9] = kind;
}

// The rows, behind ten bytes.
// Kept: a loop of its own, as graph::put_rows has: a trait for what is put, with its laws, would be longer than the two loops.
#[tactic(auto, unfolding(crate::specs::Answer::rows_bytes))]
fn put_rows(out: &mut [u8], rows: &[Row])
    requires { 10 + 9 * length rows.now ≤ length out.old }
    ensures { out.new ≡ sets out.old 10 (rows_bytes (values rows.now)) }
{
    for (i, row) in rows.iter().enumerate() {
        put_row(out, 10 + 9 * i, row);
    }
}

// The writer of answers: it judges n (4), the kind (9), then 15. Kind 0 writes the first n rows, kind 1 the first.
pub fn write(n: u16, rounds: u16, kind: u8, rows: &[Row], out: &mut [u8]) -> Result<u16, Refusal>
    requires { min (row_count n kind) 256 ≤ length rows.now }
    ensures { Returned (answer_reply n rounds kind (values rows.now) (length out.old)) (number_of result) out.old out.new }
{
    judge(n, kind, out.len())?;
    put_head(out, n, rounds, kind);
    put_rows(out, &rows[..row_count(n, kind)]);
    Ok(size(n, kind) as u16)
}
