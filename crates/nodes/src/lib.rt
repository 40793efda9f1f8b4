// The typed form of terms (document 01, "Layouts"): one after the other in written order, read from bytes and put into a draft.
#![tactic(auto)]

ghost use Rattle.std.specs.Prelude.{◌≡◌, ◌≤◌, ◌<◌, length, take, ◌∷◌};
ghost use Rattle.wire.specs.Wire.{le32};
ghost use Rattle.nodes.specs.Steps.{behind_set, entry_tagged, reduction_tag, term_at, next_at, nodes_read};
ghost use Rattle.nodes.specs.Text.{key_text, keys_text, nodes_text, set_text, start_field, start_text, term_text};
ghost use Rattle.draft.specs.Steps.{draft, put_list};

use packed_path::PackedPath;

// A term without those that it contains, or the reduction byte before an entry of a plan. A path reduction with one source or from anywhere (0x10) and one with
// a set of sources (0x13) are different terms.
// Kept: operators and reductions as bytes, since `put_term` promises `term_text` of any byte, also of one that is no operator.
#[derive(Clone, Copy)]
pub enum Term {
    Empty,
    Path(PackedPath),
    PathSet(PackedPath),
    Literal(u32),
    Apply(u8),
    Reduce(u8),
    ReduceWhere(u8),
    ResultLiteral(u32),
    ResultApply(u8),
    PathIndex(u8),
    EntryIndex(u8),
    Entry(u8),
}

// Is it the reduction byte of an entry? No term starts with a byte below 0x10 or from 128 on.
fn reduction_byte(tag: u8) -> bool
    ensures { result ≡ reduction_tag tag }
{
    tag < 0x10 || 128 <= tag
}

// What another byte is than a term's first: an entry's reduction byte, or nothing.
fn entry_of(tag: u8) -> Term
    ensures { result ≡ entry_tagged tag }
{
    if reduction_byte(tag) {
        Term::Entry(tag)
    } else {
        Term::Empty
    }
}

// The term that starts at i, by its tag.
#[tactic(auto, unfolding(crate::specs::Steps::term_at))]
fn term_of(s: &[u8], i: usize) -> Term
    ensures { result ≡ term_at s.now i }
{
    if s.len() <= i {
        return Term::Empty;
    }
    match s[i] {
        0x10 => Term::Path(path_fields::path_at(s, i + 1)),
        0x11 => Term::Literal(wire::word(s, i + 1)),
        0x12 => Term::Apply(wire::byte(s, i + 1)),
        0x13 => Term::PathSet(path_fields::set_at(s, i + 1)),
        0x20 => Term::Reduce(wire::byte(s, i + 1)),
        0x21 => Term::ResultLiteral(wire::word(s, i + 1)),
        0x22 => Term::ResultApply(wire::byte(s, i + 1)),
        0x23 => Term::ReduceWhere(wire::byte(s, i + 1)),
        0x30 => Term::PathIndex(wire::byte(s, i + 1)),
        0x31 => Term::EntryIndex(wire::byte(s, i + 1)),
        tag => entry_of(tag),
    }
}

// Where the term after a path reduction with a set of sources starts, whose tag stands at i.
fn set_end(s: &[u8], i: usize) -> usize
    requires { i < length s.now }
    ensures { result ≡ behind_set s.now i }
{
    let keys = usize::from(wire::byte(s, i + 1));
    let sources = usize::from(wire::byte(s, i + 2 + keys));
    i + 3 + keys + 2 * sources
}

// Where the term after the one at i starts.
#[tactic(auto, unfolding(crate::specs::Steps::next_at))]
fn next_of(s: &[u8], i: usize) -> usize
    ensures { result ≡ next_at s.now i }
{
    if s.len() <= i {
        return i;
    }
    match s[i] {
        0x10 => i + 4 + usize::from(wire::byte(s, i + 1)),
        0x13 => set_end(s, i),
        0x11 | 0x21 => i + 5,
        tag if reduction_byte(tag) => i + 1,
        _ => i + 2,
    }
}

// The first `count` terms from `at` on, one after the other as written; at most 72 (64 terms, and 8 entries), and empty ones after them.
// Kept: an array with a count beside it in place of a Vec (no heap).
pub fn read_nodes(s: &[u8], at: usize, count: usize) -> [Term; 72]
    ensures { result ≡ nodes_read count s.now at }
{
    let mut nodes = [Term::Empty; 72];
    let mut next = at;
    for i in 0..count.min(72) {
        nodes[i] = term_of(s, next);
        next = next_of(s, next);
    }
    nodes
}

// Key byte j of a path reduction of n keys.
#[tactic(auto, unfolding(draft::specs::Steps::put_list))]
fn put_key(d: &mut [u8], at: usize, n: u32, j: u32, b: u8) -> usize
    ensures { draft d.new result ≡ put_list (draft d.old at) (key_text n j b) }
{
    if j < n { draft::put(d, at, b) } else { at }
}

// A tag, the key count, and as many keys as that says.
#[tactic(auto, using(draft::proofs::Drafts::put_append), unfolding(crate::specs::Text::keys_text, draft::specs::Steps::put_list))]
fn put_keys(d: &mut [u8], at: usize, tag: u8, keys: u32) -> usize
    ensures { draft d.new result ≡ put_list (draft d.old at) (tag ∷ keys_text keys) }
{
    let n = keys % 256;
    let first = draft::put_two(d, at, tag, n as u8);
    let second = put_key(d, first, n, 0, (keys / 256 % 256) as u8);
    let third = put_key(d, second, n, 1, (keys / 65536 % 256) as u8);
    put_key(d, third, n, 2, (keys / 16777216 % 256) as u8)
}

// The one source, 65,535 for anywhere; 256, which no reader accepts, where there are more.
#[tactic(auto, unfolding(crate::specs::Text::start_field))]
fn start_of(p: PackedPath) -> u64
    ensures { result ≡ start_field p }
{
    match p.count {
        0 => 65535,
        1 => p.low,
        _ => 256,
    }
}

// The source of a path reduction that has one or starts anywhere: 16 bits.
pub fn put_start(d: &mut [u8], at: usize, p: PackedPath) -> usize
    ensures { draft d.new result ≡ put_list (draft d.old at) (start_text p) }
{
    draft::put16(d, at, start_of(p))
}

// How many sources a path reduction has, and these, 16 bits each: at most 16, for a greater count is refused.
pub fn put_set(d: &mut [u8], at: usize, p: PackedPath) -> usize
    ensures { draft d.new result ≡ put_list (draft d.old at) (set_text p) }
{
    let mut next = draft::put(d, at, p.count);
    let mut rest = p;
    for _ in 0..p.count.min(16) {
        next = draft::put16(d, next, packed_path::first(rest));
        rest = packed_path::rest(rest);
    }
    next
}

// A tag and 32 bits, low byte first.
#[tactic(auto, unfolding(draft::specs::Steps::put_list))]
fn put_literal(d: &mut [u8], at: usize, tag: u8, x: u32) -> usize
    ensures { draft d.new result ≡ put_list (draft d.old at) (tag ∷ le32 x) }
{
    let literal = draft::put(d, at, tag);
    draft::put32(d, literal, x)
}

// A term without those that it contains. An empty one is a byte that no term starts with.
#[tactic(auto, using(draft::proofs::Drafts::put_append), unfolding(crate::specs::Text::term_text, draft::specs::Steps::put_list))]
fn put_term(d: &mut [u8], at: usize, t: Term) -> usize
    ensures { draft d.new result ≡ put_list (draft d.old at) (term_text t) }
{
    match t {
        Term::Empty => draft::put(d, at, 0),
        Term::Path(p) => {
            let source = put_keys(d, at, 0x10, p.keys);
            put_start(d, source, p)
        }
        Term::PathSet(p) => {
            let set = put_keys(d, at, 0x13, p.keys);
            put_set(d, set, p)
        }
        Term::Literal(x) => put_literal(d, at, 0x11, x),
        Term::Apply(o) => draft::put_two(d, at, 0x12, o),
        Term::Reduce(o) => draft::put_two(d, at, 0x20, o),
        Term::ReduceWhere(o) => draft::put_two(d, at, 0x23, o),
        Term::ResultLiteral(x) => put_literal(d, at, 0x21, x),
        Term::ResultApply(o) => draft::put_two(d, at, 0x22, o),
        Term::PathIndex(i) => draft::put_two(d, at, 0x30, i),
        Term::EntryIndex(i) => draft::put_two(d, at, 0x31, i),
        Term::Entry(b) => draft::put(d, at, b),
    }
}

// The first `count` terms, in written order: at most 38 bytes each.
#[tactic(auto, unfolding(draft::specs::Steps::put_list, draft::specs::Texts::texts))]
pub fn put_nodes(d: &mut [u8], at: usize, nodes: [Term; 72], count: usize) -> usize
    ensures { (draft d.new result ≡ put_list (draft d.old at) (nodes_text (take count nodes)))
        × (length (nodes_text (take count nodes)) ≤ 2736) }
{
    let mut next = at;
    for term in &nodes[..count.min(72)] {
        next = put_term(d, next, *term);
    }
    next
}
