// A path reduction's figures at a vertex as one 64-bit word, of which less is better: each figure in bits of its own, the first key's highest,
// complemented where the greatest is kept, a repeated key dropped. So the better of two is the lesser word, and one more edge is an addition and
// a bound on the low 16 bits.
#![tactic(auto)]

ghost use Rattle.std.specs.Prelude.{◌≡◌, cond, [], ◌∷◌, ◌+◌, ◌*◌, ◌^◌, ◌<◌, ◌≤◌, min, max, eqb};
ghost use Rattle.walks.specs.Keys.{measure, kept};
ghost use Rattle.packed_figures.specs.Packed.{Extends, Sound, Starts, along, base_word, constants, figure_of, flip_of, width};
ghost use Rattle.packed_figures.specs.Steps.{SmallUnits, key_or_before, last_shift, path_keys, second_bits, third_bits, unit_among, units_of};

// What is fixed for a path reduction: what one more edge adds to a word and whether a weight counts, the last key, by which an edge bounds the low 16 bits,
// what the empty walk has, where the value stands.
// Kept: `last` and the keys below are numbers, as the table of keys has them (`measure`, `kept` of walks/specs/Keys, of which the theorems speak), and a `flip`
// of 0 says that the least is kept (`flip_of`, `figure_of` of specs/Packed).
#[derive(Clone, Copy)]
pub struct PathConstants {
    pub edges: u64,
    pub weight: u64,
    pub weighs: bool,
    pub up: u64,
    pub down: u64,
    pub last: u8,
    pub base: u64,
    pub shift: u64,
    pub mask: u64,
    pub flip: u64,
}

// The units of three keys: what one more of a figure adds to a word.
#[derive(Clone, Copy)]
struct Units {
    pub first: u64,
    pub second: u64,
    pub third: u64,
}

// The word where there is no walk, above every other.
// Kept: it stands in the table of 64-bit words that callers lend (`word_of` of specs/Packed); that it is above all words is what makes the lesser the better.
pub const ABSENT: u64 = 4611686018427387904;

// ---- on words

// A word with an edge's weight added, where a key counts it: a loop over edges asks that once.
// Kept: by the unit, and not by `weighs`, which says the same (`weighs_right`): by the flag the compiler asked it at each edge, some 15 instructions for 12.
fn weighed(c: PathConstants, x: u64, weight: u64) -> u64
    requires { Extends c x weight 0 }
    ensures { result ≡ x + c.weight * weight }
{
    if c.weight == 0 {
        x
    } else {
        x + c.weight * weight
    }
}

// What an edge's weight and capacity make of a word that counts the edge already. ABSENT stays at least ABSENT.
#[tactic(auto, unfolding(crate::specs::Packed::along))]
pub fn through(c: PathConstants, x: u64, weight: u64, capacity: u64) -> u64
    requires { Extends c x weight capacity }
    ensures { result ≡ along c x weight capacity }
{
    if c.last == 5 {
        let y = weighed(c, x, weight);
        return y.max(y - y % 65536 + (65535 - capacity));
    }
    if c.last == 6 {
        let z = weighed(c, x, weight);
        return z.min(z - z % 65536 + capacity);
    }
    weighed(c, x, weight)
}

// The word of the empty walk at v.
#[tactic(auto, unfolding(crate::specs::Packed::base_word))]
pub fn base_at(c: PathConstants, v: u64) -> u64
    requires { Starts c v }
    ensures { result ≡ base_word c v }
{
    c.base + c.up * v + c.down * (255 - v)
}

// The last key's figure in a word that is not ABSENT.
#[tactic(auto, unfolding(crate::specs::Packed::figure_of))]
pub fn value_of(c: PathConstants, x: u64) -> u64
    requires { Sound c }
    ensures { result ≡ figure_of c x }
{
    let f = (x >> c.shift) & c.mask;
    if c.flip == 0 {
        return f;
    }
    c.flip - f
}

// ---- the constants

// The bits of a key's figure.
#[tactic(auto, using(crate::proofs::Legal::other_width), unfolding(walks::specs::Keys::key_row))]
fn bits_of(key: u8) -> u64
    ensures { (result ≡ width (measure key)) × (result ≤ 26) }
{
    match key {
        2 => 26,
        3 | 4 => 8,
        5 | 6 => 16,
        _ => 10,
    }
}

// The greatest figure, where the greatest is kept.
#[tactic(auto, using(crate::proofs::Legal::other_kept), unfolding(walks::specs::Keys::key_row))]
fn flip_for(key: u8, top: u64) -> u64
    ensures { result ≡ flip_of (kept key) top }
{
    match key {
        4 | 5 => top,
        _ => 0,
    }
}

// One of two numbers, by whether two keys are one.
fn if_same(a: u8, b: u8, x: u64, y: u64) -> u64
    ensures { (result ≡ cond (eqb a b) x y) × (result ≤ max x y) }
{
    if a == b { x } else { y }
}

// Two to the n.
fn power(n: u64) -> u64
    requires { n ≤ 52 }
    ensures { (result ≡ 2 ^ n) × (0 < result) × (result ≤ 4503599627370496) }
{
    1u64 << n
}

// The three keys of a path reduction. One of fewer has its last key again: it has the same constants (`path_constants_are`).
#[derive(Clone, Copy)]
struct ThreeKeys {
    a: u8,
    b: u8,
    c: u8,
}

impl ThreeKeys {
    // The bits of the second, none where it is the first again.
    fn bits_of_second(self) -> u64
        ensures { (result ≡ second_bits self.a self.b) × (result ≤ 26) }
    {
        if_same(self.a, self.b, 0, bits_of(self.b))
    }

    // The bits of the third, none where it is the first or the second again.
    fn bits_of_third(self) -> u64
        ensures { (result ≡ third_bits self.a self.b self.c) × (result ≤ 26) }
    {
        if_same(
            self.a,
            self.c,
            0,
            if_same(self.b, self.c, 0, bits_of(self.c)),
        )
    }

    // What one more of each key's figure adds, 0 for one that is a key before.
    #[tactic(auto, unfolding(crate::specs::Steps::units_of))]
    fn units(self) -> Units
        ensures { (result ≡ units_of self.a self.b self.c) × SmallUnits result }
    {
        let second = self.bits_of_second();
        let third = self.bits_of_third();
        Units {
            first: power(second + third),
            second: if_same(self.a, self.b, 0, power(third)),
            third: if_same(self.a, self.c, 0, if_same(self.b, self.c, 0, 1)),
        }
    }

    // The unit of the key j among them.
    fn unit_of(self, j: u8, u: Units) -> u64
        requires { SmallUnits u }
        ensures { result ≡ unit_among j self.a self.b self.c u }
    {
        if_same(self.a, j, u.first, 0)
            + if_same(self.b, j, u.second, 0)
            + if_same(self.c, j, u.third, 0)
    }

    // The bits after the third, where it stands first.
    #[tactic(auto, unfolding(crate::specs::Steps::last_shift))]
    fn shift_of_third(self) -> u64
        ensures { result ≡ last_shift self.a self.b self.c }
    {
        let second = self.bits_of_second();
        let third = self.bits_of_third();
        if_same(
            self.a,
            self.c,
            second + third,
            if_same(self.b, self.c, third, 0),
        )
    }

    // The constants of a path reduction with these keys.
    fn constants(self) -> PathConstants
        ensures { result ≡ constants (self.a ∷ self.b ∷ self.c ∷ []) }
    {
        let u = self.units();
        let weight = self.unit_of(2, u);
        let top = power(bits_of(self.c)) - 1;
        PathConstants {
            edges: self.unit_of(1, u),
            weight,
            weighs: weight != 0,
            up: self.unit_of(3, u),
            down: self.unit_of(4, u),
            last: self.c,
            base: if_same(self.c, 6, 65535, 0),
            shift: self.shift_of_third(),
            mask: top,
            flip: flip_for(self.c, top),
        }
    }
}

// A key, or the one before it where there are fewer keys.
fn key_or_before(count: u32, at: u32, key: u8, before: u8) -> u8
    ensures { result ≡ key_or_before count at key before }
{
    if count < at { before } else { key }
}

// The constants of a path reduction by the number of its keys: the key count and three keys, a byte each, the count lowest.
pub fn path_constants(keys: u32) -> PathConstants
    ensures { result ≡ constants (path_keys keys) }
{
    let count = keys % 256;
    let a = (keys / 256 % 256) as u8;
    let b = key_or_before(count, 2, (keys / 65536 % 256) as u8, a);
    let c = key_or_before(count, 3, (keys / 16777216 % 256) as u8, b);
    ThreeKeys { a, b, c }.constants()
}
