// The value of a plan's expression (document 01, worksheet), read straight from its accepted bytes: of an entry, over the values of
// the path reductions at a vertex; of the final expression, over the results of the entries.
#![tactic(auto)]

ghost use Rattle.std.specs.Prelude.{◌≡◌, true, ◌<◌, length};
ghost use Rattle.eval.specs.Steps.{entry_end, entry_found, evaluated, found, head, leaf_found, leaf_in, lone_in, named, rows_in, rows_of, slot_number};

use value::Value;

// The value of a term, and where the term behind it starts.
#[derive(Clone, Copy)]
pub struct Found {
    pub value: Value,
    pub next: usize,
}

// A term without those that it contains: a leaf's value, or an operator and where its two terms start.
#[derive(Clone, Copy)]
pub enum Head {
    Leaf(Found),
    Apply(u8, usize),
}

// No term stands at `at`.
fn absent(at: usize) -> Found
    ensures { result ≡ found Value.Absent at }
{
    Found {
        value: Value::Absent,
        next: at,
    }
}

// The bytes of a plan, and the leaves of its expressions, lent as words, so that nothing is copied on the way down: the word that `slots` names for leaf k
// stands for a number from `least` on, `least` for 0.
// Kept: words with slots beside, 8 for none, as `evaluate` and `entry` are lent them and promise of them (`rows_in`).
#[derive(Clone, Copy)]
struct Expressions<'a> {
    s: &'a [u8],
    leaves: &'a [u64],
    slots: &'a [usize; 8],
    least: u64,
}

impl Expressions<'_> {
    // Leaf k: absent where its word is less than `least`, and where there is no such word.
    #[tactic(auto, unfolding(crate::specs::Steps::leaf_in))]
    fn leaf(&self, k: u8) -> Value
        ensures { result ≡ leaf_in self.now.leaves.now self.now.slots.now self.now.least k }
    {
        let i = usize::from(k);
        if 8 <= i || self.leaves.len() <= self.slots[i] {
            return Value::Absent;
        }
        let word = self.leaves[self.slots[i]];
        if word < self.least {
            return Value::Absent;
        }
        Value::Number(word - self.least)
    }

    // A leaf that names its word by the byte behind its tag.
    #[tactic(auto, using(crate::proofs::Laws::leaf_row))]
    fn named_leaf(&self, at: usize) -> Found
        requires { at < length self.now.s.now }
        ensures { result ≡ leaf_found self.now.s.now (rows_of self.now) at }
    {
        Found {
            value: self.leaf(wire::byte(self.s, at + 1)),
            next: at + 2,
        }
    }

    // What stands at a position, by its tag.
    #[tactic(auto, unfolding(crate::specs::Steps::head))]
    fn head(&self, at: usize) -> Head
        ensures { result ≡ head self.now.s.now (rows_of self.now) at }
    {
        if self.s.len() <= at {
            return Head::Leaf(absent(at));
        }
        match self.s[at] {
            0x30 | 0x31 => Head::Leaf(self.named_leaf(at)),
            0x11 | 0x21 => Head::Leaf(Found {
                value: Value::Number(u64::from(wire::word(self.s, at + 1))),
                next: at + 5,
            }),
            0x12 | 0x22 => Head::Apply(wire::byte(self.s, at + 1), at + 2),
            _ => Head::Leaf(absent(at)),
        }
    }

    // The value of a term with no call where it is a leaf that names its word.
    #[cycle(term_walk)]
    #[tactic(auto, using(crate::proofs::Laws::levels), unfolding(crate::specs::Steps::joined))]
    fn term(&self, at: usize, left: usize) -> Found
        ensures { result ≡ evaluated left self.now.s.now (rows_of self.now) at }
    {
        if left == 0 {
            return absent(at);
        }
        if is_named(self.s, at) {
            return self.named_leaf(at);
        }
        self.evaluate(at, left)
    }

    // The value of the term at `at`, with so many levels of depth left.
    #[cycle(term_walk)]
    #[tactic(auto, using(crate::proofs::Laws::levels), unfolding(crate::specs::Steps::joined))]
    fn evaluate(&self, at: usize, left: usize) -> Found
        ensures { result ≡ evaluated left self.now.s.now (rows_of self.now) at }
    {
        if left == 0 {
            return absent(at);
        }
        match self.head(at) {
            Head::Leaf(found) => found,
            Head::Apply(operator, next) => {
                let first = self.term(next, left - 1);
                let second = self.term(first.next, left - 1);
                Found {
                    value: value::operate_on(operator, first.value, second.value),
                    next: second.next,
                }
            }
        }
    }
}

// Is the term at `at` a leaf that names its word?
fn is_named(s: &[u8], at: usize) -> bool
    ensures { (result ≡ named s.now at) × (result ≡ true → at < length s.now) }
{
    at < s.len() && (s[at] == 0x30 || s[at] == 0x31)
}

// The value of the term at `at`, with so many levels of depth left; absent where no term of an expression stands there.
pub fn evaluate(
    s: &[u8],
    leaves: &[u64],
    slots: &[usize; 8],
    least: u64,
    at: usize,
    left: usize,
) -> Found
    ensures { result ≡ evaluated left s.now (rows_in leaves.now slots.now least) at }
{
    Expressions {
        s,
        leaves,
        slots,
        least,
    }
    .evaluate(at, left)
}

// The entry whose reduction byte stands at `at`: its value at a vertex whose figures are the leaves, each one more than the number, and where it ends. With 128
// added to the reduction byte a condition precedes the value: absent where the vertex does not count.
#[tactic(auto, using(crate::proofs::Laws::end_found), unfolding(crate::specs::Steps::entry_found, crate::specs::Steps::entry_end))]
pub fn entry(s: &[u8], leaves: &[u64], slots: &[usize; 8], at: usize) -> Found
    ensures { (result.value ≡ entry_found s.now (rows_in leaves.now slots.now 1) at)
        × (result.next ≡ entry_end s.now at) }
{
    if s.len() <= at {
        return absent(at);
    }
    let expressions = Expressions {
        s,
        leaves,
        slots,
        least: 1,
    };
    let first = expressions.evaluate(at + 1, 16);
    if s[at] < 128 {
        return first;
    }
    let second = expressions.evaluate(first.next, 16);
    Found {
        value: value::where_counts(first.value, second.value),
        next: second.next,
    }
}

// The slot of the entry at `at` where it is one leaf with no condition, so that its caller may read each vertex's word itself; none where it is more.
#[tactic(auto, unfolding(crate::specs::Steps::lone_in))]
pub fn lone_slot(s: &[u8], slots: &[usize; 8], at: usize) -> Option<usize>
    ensures { slot_number result ≡ lone_in s.now slots.now at }
{
    if s.len() <= at || 128 <= s[at] || !is_named(s, at + 1) {
        return None;
    }
    slots.get(usize::from(wire::byte(s, at + 2))).copied()
}
