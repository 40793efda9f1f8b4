// A path reduction (document 01: chain) as a small struct of numbers, one for questions, worksheets and runs.
#![tactic(auto)]

ghost use Rattle.std.specs.Prelude.{◌≡◌, ◌<◌, ◌≤◌};
ghost use Rattle.packed_path.specs.Packed.{no_path, same_packed, sources_of, with_first};
ghost use Rattle.packed_path.specs.Steps.{begins, first_of, rest_of};

// `keys` is the key count and three keys, a byte each, the count lowest and unused ones 0; `count` is how many sources there are, 0 for anywhere; the sources
// are a byte each, the first lowest: eight in `low`, eight in `high`.
// Kept: a count beside two numbers in place of a list, since there is no heap and the struct is copied and compared as four numbers.
#[derive(Clone, Copy, Debug, Default, PartialEq, Eq)]
pub struct PackedPath {
    pub keys: u32,
    pub count: u8,
    pub low: u64,
    pub high: u64,
}

// What stands in a table where no path reduction does.
pub fn none() -> PackedPath
    ensures { result ≡ no_path }
{
    PackedPath::default()
}

// Are they the same?
#[tactic(auto, unfolding(crate::specs::Packed::same_packed))]
pub fn same(a: PackedPath, b: PackedPath) -> bool
    ensures { result ≡ same_packed a b }
{
    a == b
}

// The first source.
pub fn first(p: PackedPath) -> u64
    ensures { (result ≡ first_of p) × (result ≤ 255) }
{
    p.low % 256
}

// Without the first source.
#[tactic(auto, unfolding(crate::specs::Steps::rest_of))]
pub fn rest(p: PackedPath) -> PackedPath
    requires { 0 < p.count }
    ensures { result ≡ rest_of p }
{
    PackedPath {
        keys: p.keys,
        count: p.count - 1,
        low: p.low / 256 + 72057594037927936 * (p.high % 256),
        high: p.high / 256,
    }
}

// With one source more, before the others.
#[tactic(auto, unfolding(crate::specs::Packed::with_first))]
pub fn with_first(source: u64, p: PackedPath) -> PackedPath
    requires { (source < 256) × (p.count < 255) }
    ensures { result ≡ with_first source p }
{
    PackedPath {
        keys: p.keys,
        count: p.count + 1,
        low: source + 256 * (p.low % 72057594037927936),
        high: p.low / 72057594037927936 + 256 * (p.high % 72057594037927936),
    }
}

// May a walk start at v? With no sources it may anywhere.
pub fn starts_at(p: PackedPath, v: u64) -> bool
    ensures { result ≡ begins (sources_of p) v }
{
    let mut left = p;
    for _ in 0..p.count {
        if first(left) == v {
            return true;
        }
        left = rest(left);
    }
    p.count == 0
}
