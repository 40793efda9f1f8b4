// A draft of bytes to be written: a lent buffer, and how many of its bytes have been put. Bytes are put in place.
// Kept: buffer and count beside each other, as fixed memory and what may not change need it: `put` and the others promise this of any lent buffer.
#![tactic(auto)]

ghost use Rattle.wire.specs.Refusal.{code, number_of};
ghost use Rattle.std.specs.Prelude.{◌≡◌, ◌∷◌, [], length, take};
ghost use Rattle.wire.specs.Header.{header_bytes};
ghost use Rattle.wire.specs.Wire.{Returned, fitted, le16, le32, unless};
ghost use Rattle.draft.specs.Steps.{draft, put_byte, put_list};

use wire::Refusal;

// One byte at `at`, and where the next one comes; no change where there is no room.
#[tactic(auto, unfolding(crate::specs::Steps::put_byte))]
pub fn put(d: &mut [u8], at: usize, b: u8) -> usize
    ensures { draft d.new result ≡ put_byte (draft d.old at) b }
{
    if d.len() <= at {
        return at;
    }
    d[at] = b;
    at + 1
}

// Two bytes.
#[tactic(auto, unfolding(crate::specs::Steps::put_list))]
pub fn put_two(d: &mut [u8], at: usize, a: u8, b: u8) -> usize
    ensures { draft d.new result ≡ put_list (draft d.old at) (a ∷ b ∷ []) }
{
    let second = put(d, at, a);
    put(d, second, b)
}

// The low 16 bits of x, low byte first.
pub fn put16(d: &mut [u8], at: usize, x: u64) -> usize
    ensures { draft d.new result ≡ put_list (draft d.old at) (le16 x) }
{
    put_two(d, at, (x % 256) as u8, (x / 256 % 256) as u8)
}

// 32 bits, low byte first.
#[tactic(auto, unfolding(crate::specs::Steps::put_list))]
pub fn put32(d: &mut [u8], at: usize, x: u32) -> usize
    ensures { draft d.new result ≡ put_list (draft d.old at) (le32 x) }
{
    let high = put16(d, at, u64::from(x));
    put16(d, high, u64::from(x / 65536))
}

// The first five bytes of a query or plan, from the buffer's front on: "three letters and a 16-bit version".
#[tactic(auto, unfolding(crate::specs::Steps::put_list))]
pub fn header(d: &mut [u8], letter: u8, version: u8) -> usize
    ensures { draft d.new result ≡ put_list (draft d.old 0) (header_bytes letter version) }
{
    let third = put_two(d, 0, 0x4c, 0x50);
    let fifth = put_two(d, third, letter, version);
    put(d, fifth, 0)
}

// The first `len` bytes, all where there are fewer.
pub fn front(s: &[u8], len: usize) -> &[u8]
    ensures { result.now ≡ take len s.now }
{
    &s[..len.min(s.len())]
}

// The end of a writer by draft: refuses by the number that its bytes were judged by, 0 for none, or lays them (no layout has more than 65,535).
// Kept: a number, any byte, and a number as result, since no refusal has the numbers above 17 and the promise is of each (DECISIONS 126).
pub fn deliver(bytes: &[u8], code: u8, out: &mut [u8]) -> u32
    ensures { Returned (unless code (fitted (take 65535 bytes.now) (length out.old))) result out.old out.new }
{
    if code != 0 {
        return 65536 + u32::from(code);
    }
    wire::number_of(wire::lay(bytes, 65535, out))
}

// The same by what the bytes were judged as.
pub fn deliver_judged(
    bytes: &[u8],
    judged: Result<(), Refusal>,
    out: &mut [u8],
) -> Result<u16, Refusal>
    ensures { Returned (unless (code judged) (fitted (take 65535 bytes.now) (length out.old))) (number_of result) out.old out.new }
{
    judged?;
    wire::lay(bytes, 65535, out)
}
