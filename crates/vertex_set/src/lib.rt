// Sets of vertices below 256, four words of 64 bits each. A lent table of words holds sets in turn: set f is the four words from 4 f on. A lone set is set 0 of
// four words. Members come in rising order by `first` and `after`.
// Kept: a table of words and the number of a set as two arguments. A table has other words too, which are written while its sets are read (crate table), so
// that a struct that borrows it would be made anew for each call.
#![tactic(auto)]

ghost use Rattle.std.specs.Prelude.{◌≡◌, ◌+◌, ◌*◌, ◌-◌, ◌/◌, ◌^◌, ◌≤◌, ◌<◌, [], ◌∷◌, cond, length, get_or};
ghost use Rattle.std.specs.Int.Count.{count_trailing_zeros};
ghost use Rattle.std.proofs.lemmas.List.Edits.{sets};
ghost use Rattle.vertex_set.specs.Sets.{Met, above, emptied, filled, four, inserted, joined, ones, replaced};

// A member, and the digits above it in its word: so the next one in the word is found without reading it again. No member is 256.
// Kept: 256 for none. A loop over the members below n ends by the one test `vertex < n`; with an Option each (`touch`, `unlend` of table) would have two.
#[derive(Clone, Copy)]
pub struct Member {
    pub vertex: usize,
    pub above: u64,
}

// v into set f.
#[tactic(auto, unfolding(crate::specs::Sets::inserted))]
pub fn insert(words: &mut [u64], f: usize, v: usize)
    requires { (v < 256) × (4 * f + 4 ≤ length words.old) }
    ensures { words.new ≡ inserted words.old f v }
{
    let k = 4 * f + v / 64;
    words[k] |= 1u64 << (v % 64);
}

// v into set f where the test holds: a store either way, no branch to predict.
#[tactic(auto, unfolding(crate::specs::Sets::inserted))]
pub fn insert_if(words: &mut [u64], f: usize, v: usize, test: bool)
    requires { (v < 256) × (4 * f + 4 ≤ length words.old) }
    ensures { words.new ≡ cond test (inserted words.old f v) words.old }
{
    let k = 4 * f + v / 64;
    words[k] |= u64::from(test) << (v % 64);
}

// The four words of set f.
fn put(words: &mut [u64], f: usize, a: u64, b: u64, c: u64, d: u64)
    requires { 4 * f + 4 ≤ length words.old }
    ensures { words.new ≡ sets words.old (4 * f) (a ∷ b ∷ c ∷ d ∷ []) }
{
    let at = 4 * f;
    words[at] = a;
    words[at + 1] = b;
    words[at + 2] = c;
    words[at + 3] = d;
}

// Set f without members.
#[tactic(auto, unfolding(crate::specs::Sets::replaced))]
pub fn clear(words: &mut [u64], f: usize)
    requires { 4 * f + 4 ≤ length words.old }
    ensures { words.new ≡ emptied words.old f }
{
    put(words, f, 0, 0, 0, 0);
}

// The first n digits of a word, at most 64.
fn low_digits(n: usize) -> u64
    ensures { result ≡ ones n }
{
    if n < 64 { (1u64 << n) - 1 } else { u64::MAX }
}

// All vertices below n into set f, and no other.
#[tactic(auto, unfolding(crate::specs::Sets::replaced))]
pub fn fill(words: &mut [u64], f: usize, n: usize)
    requires { 4 * f + 4 ≤ length words.old }
    ensures { words.new ≡ filled words.old f n }
{
    let a = low_digits(n);
    let b = low_digits(n.saturating_sub(64));
    let c = low_digits(n.saturating_sub(128));
    let d = low_digits(n.saturating_sub(192));
    put(words, f, a, b, c, d);
}

// The members of set g of another table into set f.
#[tactic(auto, unfolding(crate::specs::Sets::replaced))]
pub fn join(words: &mut [u64], f: usize, others: &[u64], g: usize)
    requires { (4 * f + 4 ≤ length words.old) × (4 * g + 4 ≤ length others.now) }
    ensures { words.new ≡ joined words.old f others.now g }
{
    let at = 4 * f;
    let from = 4 * g;
    let a = words[at] | others[from];
    let b = words[at + 1] | others[from + 1];
    let c = words[at + 2] | others[from + 2];
    let d = words[at + 3] | others[from + 3];
    put(words, f, a, b, c, d);
}

// ---- a set by itself

// Its four words: a loop that joins sets keeps them at hand.
#[derive(Clone, Copy)]
pub struct Four {
    pub a: u64,
    pub b: u64,
    pub c: u64,
    pub d: u64,
}

// No member.
pub fn empty() -> Four
    ensures { four result ≡ 0 ∷ 0 ∷ 0 ∷ 0 ∷ [] }
{
    Four {
        a: 0,
        b: 0,
        c: 0,
        d: 0,
    }
}

// The members of set g of a table besides its own.
#[tactic(auto, unfolding(crate::specs::Sets::replaced))]
pub fn with(s: Four, others: &[u64], g: usize) -> Four
    requires { 4 * g + 4 ≤ length others.now }
    ensures { four result ≡ joined (four s) 0 others.now g }
{
    let from = 4 * g;
    Four {
        a: s.a | others[from],
        b: s.b | others[from + 1],
        c: s.c | others[from + 2],
        d: s.d | others[from + 3],
    }
}

// It becomes set f of a table.
#[tactic(auto, unfolding(crate::specs::Sets::replaced))]
pub fn store(words: &mut [u64], f: usize, s: Four)
    requires { 4 * f + 4 ≤ length words.old }
    ensures { words.new ≡ replaced words.old f (λ k. get_or (four s) k 0) }
{
    put(words, f, s.a, s.b, s.c, s.d);
}

// ---- the members, in rising order

// The lowest digit of a word that has one; its first stands for the vertex `base`.
fn lowest(base: usize, word: u64) -> Member
    requires { (base ≤ 256) × (word ≡ 0 → ⊥) }
    ensures { (result.vertex ≡ base + count_trailing_zeros 64 word) × (result.above ≡ word / 2 ^ (count_trailing_zeros 64 word + 1)) }
{
    let t = word.trailing_zeros() as usize;
    Member {
        vertex: base + t,
        above: (word >> t) / 2,
    }
}

// The least member of set f in the words from k on; 256 where there is none.
fn from_word(words: &[u64], f: usize, k: usize) -> Member
    requires { (k ≤ 4) × (4 * f + 4 ≤ length words.now) }
    ensures { Met words.now f (64 * k) result }
{
    for j in k..4 {
        let word = words[4 * f + j];
        if word != 0 {
            return lowest(64 * j, word);
        }
    }
    Member {
        vertex: 256,
        above: 0,
    }
}

// The least member of set f; 256 where there is none.
pub fn first(words: &[u64], f: usize) -> Member
    requires { 4 * f + 4 ≤ length words.now }
    ensures { Met words.now f 0 result }
{
    from_word(words, f, 0)
}

// The least member of set f after m; 256 where there is none.
pub fn after(words: &[u64], f: usize, m: Member) -> Member
    requires { (m.vertex < 256) × (m.above ≡ above words.now f m.vertex) × (4 * f + 4 ≤ length words.now) }
    ensures { Met words.now f (m.vertex + 1) result }
{
    let rest = m.above;
    if rest != 0 {
        return lowest(m.vertex + 1, rest);
    }
    from_word(words, f, m.vertex / 64 + 1)
}
