// Fields of terms, judged one by one (document 01, "Layouts"): "missing (1) before wrong". A byte past the end reads as 256.
#![tactic(auto)]

ghost use Rattle.std.specs.Prelude.{◌≡◌, ◌≤◌, get_or};
ghost use Rattle.fields.specs.Fields.{opening_code, code_of, key_code, source_code};
ghost use Rattle.wire.specs.Refusal.{code};

use wire::Refusal;

// The byte at i, or 256 past the end.
// Kept: a number in place of an Option, since the definitions of specs judge a missing byte as 256, and the functions below promise an answer for every u16.
pub fn byte(s: &[u8], i: usize) -> u16
    ensures { (result ≡ get_or s.now i 256) × (result ≤ 256) }
{
    s.get(i).map_or(256, |b| u16::from(*b))
}

// Judges how a question or worksheet begins: its header and its kind.
pub fn opening_code(s: &[u8], letter: u8, newest: u8) -> Result<(), Refusal>
    ensures { code result ≡ opening_code letter newest s.now }
{
    wire::judge_header(s, letter, newest, 5)?;
    let kind = byte(s, 5);
    if 255 < kind {
        return Err(Refusal::Short);
    }
    if 1 < kind {
        return Err(Refusal::Code);
    }
    Ok(())
}

// A byte from 1 to `most`: 1 missing, 9 another.
pub fn code_of(b: u16, most: u16) -> Result<(), Refusal>
    ensures { code result ≡ code_of b most }
{
    if 255 < b {
        return Err(Refusal::Short);
    }
    if b == 0 || most < b {
        return Err(Refusal::Code);
    }
    Ok(())
}

// A key: 1 missing, 9 no such key, 10 where it may stand last only and does not.
pub fn key_code(b: u16, last: bool) -> Result<(), Refusal>
    ensures { code result ≡ key_code b last }
{
    if 255 < b {
        return Err(Refusal::Short);
    }
    let key = b as u8;
    if !walks::known_key(key) {
        return Err(Refusal::Code);
    }
    if !last && !walks::key_row(key).early {
        return Err(Refusal::KeyOrder);
    }
    Ok(())
}

// A start: 1 missing, 13 for 256 to 65,534.
pub fn source_code(low: u16, high: u16) -> Result<(), Refusal>
    ensures { code result ≡ source_code low high }
{
    if 255 < high {
        return Err(Refusal::Short);
    }
    let source = u32::from(low) + 256 * u32::from(high);
    if 256 <= source && source != 65535 {
        return Err(Refusal::Source);
    }
    Ok(())
}
