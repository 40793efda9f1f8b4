// The fields of a path reduction (document 01, "Layouts": key count, keys, start; document 02, b: a set of starts), judged in turn, and the path reduction read
// from them.
#![tactic(auto)]

ghost use Rattle.std.specs.Prelude.{◌≡◌, ◌+◌, ◌*◌, ◌≤◌, length};
ghost use Rattle.packed_path.specs.Packed.{keys_number};
ghost use Rattle.path_fields.specs.Paths.{counted_sources, key_fields_code, keys_at, keys_code, one_source, path_at, path_code};
ghost use Rattle.path_fields.specs.Paths.{set_at, set_code, sources_at, start_code, starts_code, used};
ghost use Rattle.wire.specs.Refusal.{code};

use packed_path::PackedPath;
use wire::Refusal;

// Kept: text and place stay two parameters, with `at ≤ length s` in each contract, since these functions are public and docs/PROOFS.md names them.

// Judges n keys from `at` on.
#[tactic(auto, using(crate::proofs::Laws::keys_next), unfolding(crate::specs::Paths::keys_code))]
fn keys_code(s: &[u8], at: usize, n: usize) -> Result<(), Refusal>
    requires { at + n ≤ length s.now + 300 }
    ensures { code result ≡ keys_code n s.now at }
{
    for i in 0..n {
        fields::key_code(fields::byte(s, at + i), i + 1 == n)?;
    }
    Ok(())
}

// Judges the key count at `at`, and the keys.
#[tactic(auto, unfolding(crate::specs::Paths::key_fields_code))]
fn key_fields_code(s: &[u8], at: usize) -> Result<(), Refusal>
    requires { at ≤ length s.now }
    ensures { code result ≡ key_fields_code s.now at }
{
    let n = fields::byte(s, at);
    fields::code_of(n, 3)?;
    keys_code(s, at + 1, usize::from(n))
}

// Judges a path reduction with one start, or from anywhere, whose key count stands at `at`.
#[tactic(auto, unfolding(crate::specs::Paths::path_code))]
pub fn path_code(s: &[u8], at: usize) -> Result<(), Refusal>
    requires { at ≤ length s.now }
    ensures { code result ≡ path_code s.now at }
{
    key_fields_code(s, at)?;
    let i = at + 1 + usize::from(fields::byte(s, at));
    fields::source_code(fields::byte(s, i), fields::byte(s, i + 1))
}

// A start of a set: 1 missing, 13 from 256 on, 17 below `least`.
fn start_code(least: u16, low: u16, high: u16) -> Result<(), Refusal>
    ensures { code result ≡ start_code least low high }
{
    if 255 < high {
        return Err(Refusal::Short);
    }
    if 256 <= u32::from(low) + 256 * u32::from(high) {
        return Err(Refusal::Source);
    }
    if low < least {
        return Err(Refusal::SourceOrder);
    }
    Ok(())
}

// Judges k starts of a set from `at` on.
#[tactic(auto, using(crate::proofs::Laws::starts_next), unfolding(crate::specs::Paths::starts_code))]
pub fn starts_code(s: &[u8], at: usize, k: usize) -> Result<(), Refusal>
    requires { at + 2 * k ≤ length s.now + 900 }
    ensures { code result ≡ starts_code k 0 s.now at }
{
    let mut least = 0;
    for i in 0..k {
        let low = fields::byte(s, at + 2 * i);
        start_code(least, low, fields::byte(s, at + 2 * i + 1))?;
        least = low + 1;
    }
    Ok(())
}

// Judges a path reduction with a set of starts.
#[tactic(auto, unfolding(crate::specs::Paths::set_code))]
pub fn set_code(s: &[u8], at: usize) -> Result<(), Refusal>
    requires { at ≤ length s.now }
    ensures { code result ≡ set_code s.now at }
{
    key_fields_code(s, at)?;
    let i = at + 1 + usize::from(fields::byte(s, at));
    let k = fields::byte(s, i);
    fields::code_of(k, 16)?;
    starts_code(s, i + 1, usize::from(k))
}

// A key count and three keys as one number.
pub fn pack_keys(n: u8, a: u8, b: u8, c: u8) -> u32
    ensures { result ≡ keys_number n a b c }
{
    u32::from_le_bytes([n, a, b, c])
}

// A byte that is used where there are more than j keys; 0 where it is not.
fn used_of(n: u8, j: u8, b: u8) -> u8
    ensures { result ≡ used n j b }
{
    if j < n { b } else { 0 }
}

// The keys whose count stands at `at`, as one number.
#[tactic(auto, unfolding(crate::specs::Paths::keys_at))]
fn keys_at(s: &[u8], at: usize) -> u32
    requires { at ≤ length s.now }
    ensures { result ≡ keys_at s.now at }
{
    let n = wire::byte(s, at);
    let second = used_of(n, 1, wire::byte(s, at + 2));
    let third = used_of(n, 2, wire::byte(s, at + 3));
    pack_keys(n, wire::byte(s, at + 1), second, third)
}

// A path reduction with one start, or from anywhere (65,535).
// Kept: a number in place of an Option, since the contract speaks of every u32, as the two bytes of a start have it.
#[tactic(auto, unfolding(crate::specs::Paths::one_source))]
pub fn one_source(keys: u32, source: u32) -> PackedPath
    ensures { result ≡ one_source keys source }
{
    if source == 65535 {
        return PackedPath {
            keys,
            ..packed_path::none()
        };
    }
    PackedPath {
        keys,
        count: 1,
        low: u64::from(source),
        high: 0,
    }
}

// The path reduction with one start, or from anywhere, whose key count stands at `at`.
#[tactic(auto, unfolding(crate::specs::Paths::path_at))]
pub fn path_at(s: &[u8], at: usize) -> PackedPath
    requires { at ≤ length s.now }
    ensures { result ≡ path_at s.now at }
{
    let i = at + 1 + usize::from(wire::byte(s, at));
    one_source(keys_at(s, at), wire::half(s, i))
}

// k starts of a set from `at` on, at most 16, the last one first.
#[tactic(auto, using(crate::proofs::Laws::sources_next, crate::proofs::Laws::sources_count), unfolding(crate::specs::Paths::sources_at))]
fn sources_at(keys: u32, s: &[u8], at: usize, k: usize) -> PackedPath
    requires { (k ≤ 16) × (at ≤ length s.now + 300) }
    ensures { result ≡ sources_at keys k s.now at }
{
    let mut path = PackedPath {
        keys,
        ..packed_path::none()
    };
    for i in (0..k).rev() {
        path = packed_path::with_first(u64::from(wire::byte(s, at + 2 * i)), path);
    }
    path
}

// The starts behind the set count at `at`.
#[tactic(auto, unfolding(crate::specs::Paths::counted_sources))]
pub fn counted_sources(keys: u32, s: &[u8], at: usize) -> PackedPath
    requires { at ≤ length s.now + 256 }
    ensures { result ≡ counted_sources keys s.now at }
{
    let k = usize::from(wire::byte(s, at)).min(16);
    sources_at(keys, s, at + 1, k)
}

// The path reduction with a set of starts whose key count stands at `at`.
#[tactic(auto, unfolding(crate::specs::Paths::set_at))]
pub fn set_at(s: &[u8], at: usize) -> PackedPath
    requires { at ≤ length s.now }
    ensures { result ≡ set_at s.now at }
{
    let i = at + 1 + usize::from(wire::byte(s, at));
    counted_sources(keys_at(s, at), s, i)
}
