// What every format shares: the first five bytes, the reply to a call, and bytes laid into a lent buffer (document 01, "Layouts" and
// "Numbers at the desk").
#![tactic(auto)]

ghost use Rattle.std.specs.Prelude.{◌≡◌, ◌≤◌, length, get_or, take};
ghost use Rattle.wire.specs.Header.{header_code, version_code};
ghost use Rattle.wire.specs.Refusal.{code, number_of};
ghost use Rattle.wire.specs.Wire.{at16, at32, fitted, Returned};

// Why a call refuses: its numbers are those of document 01, "Numbers at the desk", and 17 of document 02, b.
#[derive(Clone, Copy, Debug, PartialEq, Eq)]
pub enum Refusal {
    Short = 1,
    Mark = 2,
    Version = 3,
    Vertices = 4,
    Edges = 5,
    Length = 6,
    NoVertex = 7,
    Capacity = 8,
    Code = 9,
    KeyOrder = 10,
    Deep = 11,
    Terms = 12,
    Source = 13,
    Full = 14,
    Room = 15,
    NoRow = 16,
    SourceOrder = 17,
}

// How a call ends, as the one number that C is given: the bytes written, or 65,536 and the number of the refusal.
pub fn number_of(end: Result<u16, Refusal>) -> u32
    ensures { result ≡ number_of end }
{
    match end {
        Ok(n) => u32::from(n),
        Err(refusal) => 65536 + refusal as u32,
    }
}

// A version that is not known is refused.
fn judge_version(version: u32, newest: u8) -> Result<(), Refusal>
    ensures { code result ≡ version_code newest version }
{
    if version == 0 || u32::from(newest) < version {
        return Err(Refusal::Version);
    }
    Ok(())
}

// Judges a file's first five bytes: short (under five bytes, or under `least`), other letters, a version other than 1 to `newest`.
#[tactic(auto, unfolding(crate::specs::Header::header_code))]
pub fn judge_header(s: &[u8], letter: u8, newest: u8, least: usize) -> Result<(), Refusal>
    ensures { code result ≡ header_code letter newest least s.now }
{
    if s.len() < 5 || s.len() < least {
        return Err(Refusal::Short);
    }
    if s[0] != 0x4c || s[1] != 0x50 || s[2] != letter {
        return Err(Refusal::Mark);
    }
    judge_version(half(s, 3), newest)
}

// The byte at i, or 0 past the end.
pub fn byte(s: &[u8], i: usize) -> u8
    ensures { result ≡ get_or s.now i 0 }
{
    s.get(i).copied().unwrap_or(0)
}

// 16 bits at i; bytes past the end read as 0.
pub fn half(s: &[u8], i: usize) -> u32
    ensures { (result ≡ at16 s.now i) × (result ≤ 65535) }
{
    if s.len() <= i {
        return 0;
    }
    u32::from(s[i]) + 256 * u32::from(byte(s, i + 1))
}

// 32 bits at i.
pub fn word(s: &[u8], i: usize) -> u32
    ensures { result ≡ at32 s.now i }
{
    if s.len() <= i {
        return 0;
    }
    half(s, i) + 65536 * half(s, i + 2)
}

// The first n bytes of src (all, where it has fewer) at the front of out, or 15 where they exceed it. How many they are.
pub fn lay(src: &[u8], n: u16, out: &mut [u8]) -> Result<u16, Refusal>
    ensures { Returned (fitted (take n src.now) (length out.old)) (number_of result) out.old out.new }
{
    let count = src.len().min(n as usize);
    if out.len() < count {
        return Err(Refusal::Room);
    }
    out[..count].copy_from_slice(&src[..count]);
    Ok(count as u16)
}
