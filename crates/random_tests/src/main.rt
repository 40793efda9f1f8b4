// Random plans of both versions and random queries on random tiny graphs, from a fixed seed. A plan is run by pull, by push, and stopped
// after a random number of rounds; a query is fused, and its plan is run the same way. The answers expected are worked out on the file's
// own bytes: a path reduction's value from walking every walk outright (crate `walked`), from any of its sources, an operator joins the
// values of its two terms, a vertex reduction goes over all vertices, with a condition over those where it is a number other than 0. So
// a query is compared UNFUSED, as document 01 has it: "each chain where it is written". Some files are damaged instead: they are
// refused, or the reader of plans takes what is run or written. Prints what the cases were like, and how many calls differ.
#![tactic(auto)]

ghost use Rattle.std.specs.Prelude.{◌<◌, ◌≤◌};

use engine::Limit;
use value::{Row, Value};
use walked::PathReduction;
use wire::Refusal;

const CASES: u64 = 50000;

const SEED: u64 = 20261115;

const FILL: u8 = 0xa5;

// "65,535 for anywhere"
const ANYWHERE: u64 = 65535;

// The three letters and the version of each format: five bytes, the lowest first.
const GRAPH: u64 = 0x014d504c;

const QUERY: u64 = 0x0151504c;

// Without the version.
const PLAN: u64 = 0x57504c;

const ANSWER: u64 = 0x0141504c;

// The weight of a fourth byte, and of a sixth.
const FOURTH: u64 = 16777216;

const SIXTH: u64 = 1099511627776;

// The weight of the sources in a path reduction.
const SOURCE: u64 = 4294967296;

// All operators; minus (4) and divide (6), which often give absent, are seldom.
const OPERATORS: [u8; 16] = [1, 2, 3, 4, 5, 6, 7, 8, 9, 10, 11, 1, 2, 3, 5, 9];

// Those of a condition that compares: minus (absent where the first is less), equal, less, greater.
const COMPARING: [u8; 4] = [4, 7, 8, 9];

// A file or a buffer, longer than any that is written: 560 bytes are enough for a plan.
type File = [u8; 560];

// A path reduction is a number here. Its low four bytes: "key count, three key bytes with unused ones 0". Above them up to four sources,
// a byte each and the least lowest: one more than the source. With none, which is anywhere, they are 0.
type Table = [u64; 8];

#[derive(Clone, Copy)]
struct Paths {
    count: usize,
    list: Table,
}

// The numbers of up to six edges, four an edge: from, to, weight, capacity. An edge that is not there leads to no vertex.
type Rows = [u16; 24];

// A case. What it may be like: whether its file is a query, the version of a plan, how many vertices and at most how many rounds, the
// kind, how many path reductions its terms are chosen from, how many entries a plan of kind 1 has, how many terms more than its root
// each expression may have, the deepest depth, of eight terms how many are operators. Its file as far as it is written: where the next
// byte goes, how many terms may still be added to those that are due, how many terms, path reductions and vertex reductions are written,
// the least depth left that was met, the last term's tag or the byte of an entry just begun, where the last expression starts, and the
// last condition (0 for none).
#[derive(Clone, Copy)]
struct Case {
    seed: u64,
    query: bool,
    version: u64,
    n: u16,
    most: u16,
    kind: u64,
    paths: u64,
    entries: u64,
    share: u64,
    depth: u64,
    odds: u64,
    at: usize,
    free: u64,
    terms: u64,
    path_terms: u64,
    reductions: u64,
    least: u64,
    tag: u8,
    root: usize,
    condition: usize,
}

// What a call should return for the lengths of its files and the length lent, and the rounds: of the run to the end, and those at which
// it is stopped.
#[derive(Clone, Copy)]
struct Expected {
    code: u32,
    file: usize,
    graph: usize,
    lent: usize,
    rounds: u16,
    stop: u16,
}

#[derive(Clone, Copy)]
struct Score {
    seed: u64,
    cases: u64,
    refused: u64,
    damaged: u64,
    read: u64,
    numbers: u64,
    long: u64,
    shared: u64,
    several: u64,
    eight: u64,
    full: u64,
    deep: u64,
    conditions: u64,
    absent: u64,
    zero: u64,
    above: u64,
    second: u64,
    sets: u64,
    long_sets: u64,
    outside: u64,
    differences: u64,
}

// ---- numbers

// The next random number, of 1 to 2,147,483,646 from any of these.
fn next(seed: u64) -> u64
    ensures { result < 2147483647 }
{
    seed % 2147483647 * 48271 % 2147483647
}

// A number below k, which is small.
fn below(seed: u64, k: u64) -> u64
    ensures { result < 1000 }
{
    if k == 0 {
        return 0;
    }
    let x = seed % k;
    if x < 1000 { x } else { 0 }
}

// One more, if it is so.
fn count(x: u64, yes: bool) -> u64 {
    x.wrapping_add(u64::from(yes))
}

fn pick(yes: bool, x: u8, y: u8) -> u8 {
    if yes { x } else { y }
}

// A sum of two small numbers, else 0: a position in a file.
fn plus(at: usize, i: usize) -> usize {
    if at < 1000 && i < 1000 { at + i } else { 0 }
}

// ---- bytes

// So many bytes of a number, the lowest first. Returns where the next byte goes.
fn put(out: &mut File, at: usize, x: u64, size: usize) -> usize {
    let end = plus(at, size).min(560);
    let mut rest = x;
    for a in at..end {
        out[a] = (rest % 256) as u8;
        rest /= 256;
    }
    at.max(end)
}

// "a byte, 1 for a number and 0 for absent, and 64 bits, 0 when absent"
fn put_row(out: &mut File, at: usize, v: Value) -> usize {
    let Value::Number(x) = v else {
        return put(out, at, 0, 9);
    };
    let a = put(out, at, 1, 1);
    put(out, a, x, 8)
}

fn byte(q: &File, i: usize) -> u8 {
    q.get(i).copied().unwrap_or(0)
}

// The number that so many bytes have, up to six.
fn number_at(q: &File, at: usize, size: usize) -> u64 {
    let mut x: u64 = 0;
    for i in (0..size).rev() {
        x = x % SIXTH * 256 + u64::from(byte(q, plus(at, i)));
    }
    x
}

// A path reduction of the number of its keys and the number of its sources.
fn with_keys(keys: u64, set: u64) -> u64 {
    keys % SOURCE + SOURCE * (set % SOURCE)
}

// How many sources there are.
fn set_size(set: u64) -> u64
    ensures { result ≤ 4 }
{
    if set == 0 {
        return 0;
    }
    if set < 65536 {
        return if set < 256 { 1 } else { 2 };
    }
    if set < FOURTH { 3 } else { 4 }
}

// The source that the lowest byte stands for.
fn source(set: u64) -> u16 {
    (set % 256).saturating_sub(1) as u16
}

// "a 16-bit start (0 to 255, or 65,535 for anywhere)"
fn start_at(q: &File, at: usize) -> u64
    ensures { result ≤ 255 }
{
    let x = number_at(q, at, 2);
    if x == ANYWHERE { 0 } else { 1 + x % 255 }
}

// So many starts, as the sources of a path reduction.
fn starts_at(q: &File, at: usize, count: u8) -> u64 {
    let mut set: u64 = 0;
    for i in (0..count as usize).rev() {
        set = set % FOURTH * 256 + start_at(q, plus(at, 2 * i));
    }
    set
}

fn put_starts(out: &mut File, at: usize, set: u64) -> usize {
    let mut a = at;
    let mut rest = set;
    for _ in 0..set_size(set) {
        a = put(out, a, u64::from(source(rest)), 2);
        rest /= 256;
    }
    a
}

// The path reduction at a position in a plan: its keys, then in version 1 a start, in version 2 "a set count (0 for anywhere) and its
// starts". How many bytes it takes.
fn listed_at(q: &File, at: usize) -> u64 {
    let a = plus(at, 4);
    let set = if byte(q, 3) == 1 {
        start_at(q, a)
    } else {
        starts_at(q, plus(a, 1), byte(q, a))
    };
    with_keys(number_at(q, at, 4), set)
}

fn listed_size(q: &File, at: usize) -> usize {
    if byte(q, 3) == 1 {
        return 6;
    }
    5 + 2 * byte(q, plus(at, 4)) as usize
}

fn put_listed(out: &mut File, at: usize, version: u64, path: u64) -> usize {
    let a = put(out, at, path % SOURCE, 4);
    let set = path / SOURCE;
    if version != 1 {
        let b = put(out, a, set_size(set), 1);
        return put_starts(out, b, set);
    }
    if set == 0 {
        return put(out, a, ANYWHERE, 2);
    }
    put_starts(out, a, set)
}

// The position of path reduction j of a plan.
fn slot(q: &File, j: u8) -> usize {
    let mut at: usize = 7;
    for _ in 0..j {
        at = plus(at, listed_size(q, at));
    }
    at
}

// The path reduction of the term at a position in a query, without the unused keys: 0x10 with a start, 0x13 with a set count and its
// starts.
fn path_at(q: &File, at: usize) -> u64 {
    let a = plus(at, 1);
    let size = 1 + byte(q, a) as usize;
    let b = plus(a, size);
    let set = if byte(q, at) == 0x10 {
        start_at(q, b)
    } else {
        starts_at(q, plus(b, 1), byte(q, b))
    };
    with_keys(number_at(q, a, size), set)
}

// From anywhere it is written as 0x10, from two sources or more as 0x13, from one as either.
fn put_path(out: &mut File, at: usize, path: u64, as_set: bool) -> usize {
    let set = path / SOURCE;
    let keys = 256 * (path % SOURCE);
    let size = 2 + (path % 256) as usize;
    if set == 0 {
        let a = put(out, at, 0x10 + keys, size);
        return put(out, a, ANYWHERE, 2);
    }
    if as_set || 256 <= set {
        let a = put(out, at, 0x13 + keys, size);
        let b = put(out, a, set_size(set), 1);
        return put_starts(out, b, set);
    }
    let a = put(out, at, 0x10 + keys, size);
    put_starts(out, a, set)
}

fn path_of(x: u64) -> PathReduction {
    let set = x / SOURCE;
    let mut sources = [0u16; 16];
    sources[0] = source(set);
    sources[1] = source(set / 256);
    sources[2] = source(set / 65536);
    sources[3] = source(set / FOURTH);
    PathReduction {
        keys: [
            (x / 256 % 256) as u8,
            (x / 65536 % 256) as u8,
            (x / FOURTH % 256) as u8,
        ],
        count: (x % 256) as usize,
        sources,
        starts: set_size(set) as usize,
    }
}

// Has a reduction of a query, or an entry by its reduction byte, a condition?
fn has_condition(tag: u8) -> bool {
    tag == 0x23 || 128 <= tag
}

// How many terms there are below a term, or behind the reduction byte of an entry: below 0x10 without, from 128 on with a condition.
fn arity(tag: u8) -> u8
    ensures { result ≤ 2 }
{
    if tag < 0x10 {
        return 1;
    }
    if has_condition(tag) {
        return 2;
    }
    match tag {
        0x12 | 0x22 => 2,
        0x20 => 1,
        _ => 0,
    }
}

// How many bytes the term at a position takes without those below it.
fn term_size(q: &File, at: usize) -> usize {
    let tag = byte(q, at);
    if tag % 128 < 0x10 {
        return 1;
    }
    let keys = byte(q, plus(at, 1)) as usize;
    match tag {
        0x10 => 4 + keys,
        0x13 => 3 + keys + 2 * byte(q, plus(at, 2 + keys)) as usize,
        0x11 | 0x21 => 5,
        _ => 2,
    }
}

// The position behind so many terms and all that they contain.
fn behind(q: &File, at: usize, terms: u8) -> usize {
    let mut p = at;
    let mut due = terms as usize;
    for _ in 0..80 {
        if due == 0 {
            return p;
        }
        due = (due - 1).saturating_add(arity(byte(q, p)) as usize);
        p = plus(p, term_size(q, p));
    }
    p
}

// ---- random cases

// A quarter may go to the limits of 64 terms and depth 16; the others have a half, a third or a quarter of them.
fn random_case(seed: u64, query: bool) -> Case {
    let a = next(seed);
    let b = next(a);
    let kind = a / 4 % 8;
    let entries = kind.saturating_sub(if query { 8 } else { 4 });
    let part = 1 + a / 32 % 4;
    let n = 1 + (a % 4) as u16;
    Case {
        seed: b,
        query,
        version: if b / 8 % 4 == 0 { 1 } else { 2 },
        n,
        most: 2 * n,
        kind: kind / 4,
        paths: a / 128 % 9,
        entries,
        share: (64 / (1 + entries)).saturating_sub(1) / part,
        depth: 16 / part,
        odds: 1 + b % 8,
        at: 0,
        free: 0,
        terms: 0,
        path_terms: 0,
        reductions: 0,
        least: 16,
        tag: 0,
        root: 0,
        condition: 0,
    }
}

// Number i of the edges: from, to, small weights and capacities with ties, seldom the largest.
fn random_number(i: usize, n: u16, seed: u64) -> u16 {
    let j = (i % 4) as u16;
    if j < 2 {
        return below(seed / 16, u64::from(n)) as u16;
    }
    if seed % 16 == 0 {
        return 65535 - (j - 2);
    }
    (seed / 16 % 4) as u16 + (j - 2)
}

// A graph of up to six edges: its numbers and its file. Returns the seed.
fn random_graph(graph: &mut File, rows: &mut Rows, n: u16, seed: u64) -> u64 {
    let edges = seed % 7;
    let count = 4 * edges as usize;
    put(graph, 0, GRAPH + SIXTH * (u64::from(n) + 65536 * edges), 8);
    let mut s = seed;
    for i in 0..count {
        s = next(s);
        let x = random_number(i, n, s);
        rows[i] = x;
        put(graph, 9 + 2 * i, u64::from(x), 2);
    }
    s
}

// With a lesser source before those there, where the bit is 1.
fn with_source(set: u64, v: u8, bit: u64) -> u64 {
    if bit == 0 {
        return set;
    }
    set % FOURTH * 256 + u64::from(v) + 1
}

// Any of the vertices, one at least; seldom with one more that is no vertex.
fn random_set(seed: u64, n: u16) -> u64 {
    let all = match n {
        1 => 1,
        2 => 3,
        3 => 7,
        _ => 15,
    };
    let bits = 1 + below(seed / 64, all);
    let none = if seed % 64 == 0 { u64::from(n) + 1 } else { 0 };
    let a = with_source(none, 3, bits / 8 % 2);
    let b = with_source(a, 2, bits / 4 % 2);
    let c = with_source(b, 1, bits / 2 % 2);
    with_source(c, 0, bits % 2)
}

// Anywhere in a quarter and any vertices in half, where there may be several; else anywhere in three quarters. Of the rest one in sixteen
// is no vertex.
fn random_sources(seed: u64, n: u16, several: bool) -> u64 {
    let x = seed % 64;
    if 48 < x {
        return 1 + below(seed / 64, u64::from(n));
    }
    if x == 48 {
        return u64::from(n) + 1;
    }
    if several {
        return if x < 16 { 0 } else { random_set(seed / 64, n) };
    }
    0
}

// One to three keys: before the last one of 1 to 4, the last of 1 to 6.
fn random_path(seed: u64, n: u16, several: bool) -> u64 {
    let last = 1 + seed / 3 % 6;
    let first = 1 + seed / 18 % 4;
    let second = 1 + seed / 72 % 4;
    let keys = match seed % 3 {
        0 => 1 + 256 * last,
        1 => 2 + 256 * first + 65536 * last,
        _ => 3 + 256 * first + 65536 * second + FOURTH * last,
    };
    with_keys(keys, random_sources(seed / 288, n, several))
}

// The path reductions that terms are chosen from; in a plan of version 1 none has several sources. Returns the seed.
fn random_paths(table: &mut Table, c: Case, seed: u64) -> u64 {
    let count = (c.paths % 9) as usize;
    let mut s = seed;
    for path in &mut table[..count] {
        s = next(s);
        *path = random_path(s, c.n, c.query || c.version == 2);
    }
    s
}

// As many of them as there are.
fn drawn(table: &Table, c: Case) -> Paths {
    Paths {
        count: (c.paths % 9) as usize,
        list: *table,
    }
}

// A plan as far as its path reductions. Returns where the next byte goes.
fn put_paths(out: &mut File, p: Paths, version: u64, kind: u64) -> usize {
    let list = p.list;
    let count = p.count.min(8);
    let head = PLAN + FOURTH * (version % 256);
    let mut at = put(out, 0, head + SIXTH * (kind % 2 + 256 * count as u64), 7);
    for path in &list[..count] {
        at = put_listed(out, at, version, *path);
    }
    at
}

// And as far as the count of its entries; "Kind 0 has e = 1", with no reduction.
fn put_counted(out: &mut File, p: Paths, c: Case) -> usize {
    let kind = c.kind % 2;
    let at = put_paths(out, p, c.version, kind);
    put(out, at, c.entries % 4 + (1 - kind), 2 - kind as usize)
}

// Mostly small, else at the end of 32 bits or anywhere.
fn random_literal(seed: u64) -> u64 {
    if seed % 8 == 0 {
        return 4294967295;
    }
    if seed % 8 == 1 {
        return seed;
    }
    seed % 8 - 2
}

// ---- random terms

// How many terms may be added, with so much depth left.
fn room(c: Case, left: u64) -> u64 {
    if left == 1 { 0 } else { c.free }
}

// A reduction of a query, if there is room for one: in two of five with a condition, which takes a term more.
fn reduction_tag(seed: u64, room: u64) -> u8 {
    if room == 0 {
        return 0x21;
    }
    if room == 1 {
        return 0x20;
    }
    pick(seed % 5 < 2, 0x23, 0x20)
}

// A term that is no operator and no literal, if there may be one: a reduction, of which a query has up to eight, an entry, or a path
// reduction.
fn leaf_tag(seed: u64, c: Case, res: bool, room: u64) -> u8 {
    if !res {
        return pick(c.paths == 0, 0x11, pick(c.query, 0x10, 0x30));
    }
    if !c.query {
        return pick(c.entries == 0, 0x21, 0x31);
    }
    if 8 <= c.reductions {
        return 0x21;
    }
    reduction_tag(seed, room)
}

// What the next term is, with so much depth left: an operator in so many of eight, where it may; a literal in an eighth of the rest.
fn random_tag(c: Case, res: bool, left: u64) -> u8 {
    let seed = c.seed;
    let most = room(c, left);
    if 2 <= most && seed % 8 < c.odds {
        return pick(res, 0x22, 0x12);
    }
    if seed / 8 % 8 == 0 {
        return pick(res, 0x21, 0x11);
    }
    leaf_tag(seed / 1024, c, res, most)
}

// A literal's number, a reduction, the index of an entry or of a path reduction (in a query with 8 more where a set of one is written as
// a set), or an operator, by the term's tag.
fn random_code(seed: u64, c: Case, tag: u8) -> u64 {
    match tag {
        0x11 | 0x21 => random_literal(seed),
        0x20 | 0x23 => 1 + seed % 5,
        0x31 => below(seed, c.entries),
        0x30 => below(seed, c.paths),
        0x10 => below(seed, c.paths) + 8 * (seed / 1024 % 2),
        _ => u64::from(OPERATORS[(seed % 16) as usize]),
    }
}

// A term of this tag and code, without those below it; a path reduction is from the table. Returns where the next byte goes.
fn put_term(out: &mut File, table: &Table, at: usize, tag: u8, code: u64) -> usize {
    if tag == 0x10 {
        let path = table[(code % 8) as usize];
        return put_path(out, at, path, 8 <= code);
    }
    let size = match tag {
        0x11 | 0x21 => 5,
        _ => 2,
    };
    put(out, at, u64::from(tag) + 256 * (code % SOURCE), size)
}

// Behind a tag and its code, or behind the byte of an entry: its terms, the condition first, are due here.
fn begun(c: Case, tag: u8, at: usize) -> Case {
    let mut r = c;
    r.at = at;
    r.tag = tag;
    r.free = c.free.saturating_sub(u64::from(arity(tag)));
    if has_condition(tag) {
        r.condition = at;
    }
    r
}

// Is it a reduction, or an entry?
fn reduces(tag: u8) -> bool {
    matches!(tag, 0x20 | 0x23 | 0x31)
}

// One term more, with so much depth left, without those below it.
fn put_one(out: &mut File, table: &Table, c: Case, tag: u8, code: u64, left: u64) -> Case {
    let mut r = begun(c, tag, put_term(out, table, c.at, tag, code));
    r.terms = count(c.terms, true);
    r.path_terms = count(c.path_terms, tag % 32 == 16);
    r.reductions = count(c.reductions, reduces(tag));
    r.least = c.least.min(left);
    r
}

// A condition that compares a path reduction with a literal.
fn put_comparison(out: &mut File, table: &Table, c: Case, left: u64) -> Case {
    let inner = left.saturating_sub(1);
    let seed = next(c.seed);
    let operator = COMPARING[(c.seed / 64 % 4) as usize];
    let mut r = put_one(out, table, c, 0x12, u64::from(operator), left);
    let tag = leaf_tag(seed, c, false, 0);
    r = put_one(out, table, r, tag, random_code(seed / 64, c, tag), inner);
    r.seed = next(seed);
    put_one(out, table, r, 0x11, random_literal(r.seed / 64), inner)
}

// Does a condition start here that is to compare? Half of them, where there is room.
fn compares(c: Case, left: u64) -> bool {
    has_condition(c.tag) && 2 <= room(c, left) && c.seed / 1024 % 2 == 0
}

// One term more, with so much depth left, without those below it, or a whole condition.
fn put_next(out: &mut File, table: &Table, c: Case, res: bool, left: u64) -> Case {
    let mut r = c;
    r.seed = next(c.seed);
    if compares(r, left) {
        return put_comparison(out, table, r, left);
    }
    let tag = random_tag(r, res, left);
    put_one(out, table, r, tag, random_code(r.seed / 64, c, tag), left)
}

// A term and all that it contains, with so much depth left; only an operator on results contains results.
fn make(out: &mut File, table: &Table, c: Case, res: bool, left: u64) -> Case {
    if left == 0 {
        return c;
    }
    let r = put_next(out, table, c, res, left);
    let terms = arity(r.tag);
    if terms == 0 {
        return r;
    }
    let inner = r.tag == 0x22;
    if terms == 1 {
        return make(out, table, r, inner, left - 1);
    }
    let a = make(out, table, r, inner, left - 1);
    make(out, table, a, inner, left - 1)
}

// With a share of terms: one, and those that may be added.
fn with_share(c: Case) -> Case {
    let mut r = c;
    r.free = count(c.free.wrapping_add(c.share), true);
    r
}

// The byte of an entry: a reduction, in a third with 128 added.
fn random_reduction(seed: u64) -> u8 {
    let reduction = (1 + seed % 5) as u8;
    if seed / 8 % 3 == 0 {
        return 128 + reduction;
    }
    reduction
}

// An entry more, with its share of terms: its byte, the condition's expression where it has one, then the value's.
fn make_entry(out: &mut File, table: &Table, c: Case) -> Case {
    let tag = random_reduction(c.seed);
    let mut r = begun(with_share(c), tag, put(out, c.at, u64::from(tag), 1));
    if has_condition(tag) {
        r = make(out, table, r, false, c.depth);
    }
    make(out, table, r, false, c.depth)
}

// The expression whose values are asked for, with its share of terms.
fn make_last(out: &mut File, table: &Table, c: Case, res: bool) -> Case {
    let mut r = with_share(c);
    r.free = r.free.saturating_sub(1);
    r.root = c.at;
    make(out, table, r, res, c.depth)
}

// Where the first expression goes: behind the head of a query, or behind the path reductions of a plan and the count of its entries.
fn put_head(out: &mut File, table: &Table, c: Case) -> usize {
    if c.query {
        return put(out, 0, QUERY + SIXTH * (c.kind % 2), 6);
    }
    put_counted(out, drawn(table, c), c)
}

// A query, or a plan: its head, the entries of a plan of kind 1, then the expression whose values are asked for.
fn make_file(out: &mut File, table: &Table, c: Case) -> Case {
    let count = c.entries % 4;
    let mut r = c;
    r.at = put_head(out, table, c);
    for _ in 0..count {
        r = make_entry(out, table, r);
    }
    make_last(out, table, r, c.kind == 1)
}

// ---- what is expected

// Is one of the sources none of the n vertices? The greatest comes last.
fn no_vertex(set: u64, n: u16) -> bool {
    let last = match set_size(set) {
        4 => set / FOURTH,
        3 => set / 65536,
        2 => set / 256,
        _ => set,
    };
    u64::from(n) < last % 256
}

// Do walks of one edge more than x change a figure of a path reduction?
fn changes(path: u64, x: u16, rows: &Rows, n: u16) -> bool {
    !walked::unchanged(rows, n, path_of(path), x as usize)
}

// Has it two sources or more?
fn several(path: u64) -> bool {
    256 <= path / SOURCE
}

// Is it so of one of them?
fn any<F: Fn(u64) -> bool>(p: Paths, is_so: F) -> bool
    requires { F.IsAlwaysCallable is_so }
{
    let list = p.list;
    for path in &list[..p.count.min(8)] {
        if is_so(*path) {
            return true;
        }
    }
    false
}

// With the path reduction of a term of a query, if it is not there.
fn with_path(p: Paths, q: &File, at: usize) -> Paths {
    if !matches!(byte(q, at), 0x10 | 0x13) {
        return p;
    }
    let path = path_at(q, at);
    if any(p, |other| other == path) {
        return p;
    }
    let i = p.count;
    let mut list = p.list;
    if i < 8 {
        list[i] = path;
        return Paths { count: i + 1, list };
    }
    p
}

// The path reductions of a plan: as it is written, or for a query from term to term. "Fusing puts equal chains together, in order of
// first writing".
fn gathered(table: &Table, c: Case, q: &File) -> Paths {
    let mut r = drawn(table, c);
    if !c.query {
        return r;
    }
    r.count = 0;
    let count = c.terms % 65;
    let mut at: usize = 6;
    for _ in 0..count {
        r = with_path(r, q, at);
        at = plus(at, term_size(q, at));
    }
    r
}

// A plan as far as they go. "Fusing writes version 2 .. when some set has two or more; else version 1."
fn fused_head(p: Paths, c: Case) -> File {
    let mut out = [0u8; 560];
    let version = if any(p, several) { 2 } else { 1 };
    put_paths(&mut out, p, version, c.kind);
    out
}

// The value of a path reduction or a literal at a vertex.
fn leaf(q: &File, at: usize, rows: &Rows, vertex: usize, most: u16) -> Value {
    let a = plus(at, 1);
    let path = match byte(q, at) {
        0x10 | 0x13 => path_at(q, at),
        0x30 => listed_at(q, slot(q, byte(q, a))),
        _ => {
            return Value::Number(number_at(q, a, 4));
        }
    };
    walked::value_at(rows, path_of(path), (vertex % 4) as u16, most as usize)
}

// Where the entry starts that a term is or names: behind the byte of a reduction, or at its index; 0 for any other term.
fn entry_of(q: &File, at: usize) -> usize {
    let a = plus(at, 1);
    match byte(q, at) {
        0x20 | 0x23 => a,
        0x31 => behind(q, plus(slot(q, byte(q, 6)), 1), byte(q, a)),
        _ => 0,
    }
}

// How many conditions the entry has that a term is or names.
fn conditions(q: &File, at: usize, entry: usize) -> u8 {
    if byte(q, at) == 0x23 {
        return 1;
    }
    byte(q, entry) / 128
}

// "A place counts where the condition is a number other than 0; an absent condition leaves the place out."
fn counts(condition: Value) -> bool {
    match condition {
        Value::Number(x) => x != 0,
        Value::Absent => false,
    }
}

// With one operand absent: the other one, x, by min and max; absent by any other operator.
fn other_operand(operator: u8, x: Value) -> Value {
    if operator < 3 { x } else { Value::Absent }
}

// An operator on two values. What an absent one does is written out once more: "operators min and max with one absent operand give the
// other operand", any other gives absent.
fn joined(operator: u8, x: Value, y: Value) -> Value {
    let Value::Number(_) = x else {
        return other_operand(operator, y);
    };
    let Value::Number(_) = y else {
        return other_operand(operator, x);
    };
    value::operate_on(operator, x, y)
}

// The value of a term at a vertex of n, over walks of at most so many edges: "an operator joins the values of its two terms, at the same
// place in a place term; a reduction goes over all n places", with a condition over those that count: the rows of the others stay
// absent. An entry of a plan is worked out where it is named.
fn worth(q: &File, at: usize, rows: &Rows, n: usize, vertex: usize, most: u16, left: u64) -> Value {
    if left == 0 {
        return Value::Absent;
    }
    let entry = entry_of(q, at);
    if entry == 0 {
        if arity(byte(q, at)) == 0 {
            return leaf(q, at, rows, vertex, most);
        }
        let a = plus(at, 2);
        let x = worth(q, a, rows, n, vertex, most, left - 1);
        let y = worth(q, behind(q, a, 1), rows, n, vertex, most, left - 1);
        return joined(byte(q, plus(at, 1)), x, y);
    }
    let first = plus(entry, 1);
    let last = behind(q, first, conditions(q, at, entry));
    let mut found = [Row {
        value: Value::Absent,
    }; 256];
    let count = n.min(4);
    for v in 0..count {
        let condition = if first == last {
            Value::Number(1)
        } else {
            worth(q, first, rows, n, v, most, left - 1)
        };
        if counts(condition) {
            let x = worth(q, last, rows, n, v, most, left - 1);
            found[v] = Row { value: x };
        }
    }
    value::reduce_rows(byte(q, entry) % 128, &found, count)
}

// "n rows for kind 0 or one row for kind 1"
fn row_count(c: Case) -> usize
    ensures { result ≤ 4 }
{
    if c.kind != 0 {
        return 1;
    }
    (c.n as usize).min(4)
}

// The buffer after a run: the answer over walks of at most so many edges, or nothing where it is refused.
fn wanted(code: u32, c: Case, rounds: u16, most: u16, q: &File, rows: &Rows) -> File {
    let mut out = [FILL; 560];
    if 65536 <= code {
        return out;
    }
    put(&mut out, 0, ANSWER, 5);
    let mut at = put(
        &mut out,
        5,
        u64::from(c.n) + 65536 * u64::from(rounds) + SOURCE * (c.kind % 2),
        5,
    );
    let count = row_count(c);
    for v in 0..count {
        let x = worth(q, c.root, rows, c.n as usize, v, most, 40);
        at = put_row(&mut out, at, x);
    }
    out
}

// "the smallest r, one or more, for which each figure of each chain at each place is the same over walks of at most r passages as
// over walks of at most r - 1"; 0, which no run reports, if there is none up to 2n.
fn rounds_of(p: Paths, rows: &Rows, n: u16, most: u16) -> u16 {
    for r in 0..most {
        if !any(p, |path| changes(path, r, rows, n)) {
            return r + 1;
        }
    }
    0
}

// 13 comes before 15.
fn expected_code(p: Paths, rows: &Rows, n: u16, size: usize, lent: usize) -> u32
    requires { size ≤ 46 }
{
    if any(p, |path| no_vertex(path / SOURCE, n)) {
        return 65549;
    }
    if lent < size {
        return 65551;
    }
    size as u32
}

// What the runs of a file should return. Seldom a byte less is lent than the answer takes, else up to three bytes more.
fn expect(c: Case, graph: &File, rows: &Rows, p: Paths) -> Expected {
    let size = 10 + 9 * row_count(c);
    let lent = size - 1 + ((c.seed % 16) as usize).min(4);
    Expected {
        code: expected_code(p, rows, c.n, size, lent),
        file: c.at,
        graph: 9 + 8 * byte(graph, 7) as usize,
        lent,
        rounds: rounds_of(p, rows, c.n, c.most),
        stop: below(c.seed / 16, u64::from(c.most) + 1) as u16,
    }
}

// ---- calls

#[derive(Clone, Copy)]
enum Call {
    Pull,
    Push,
    PullRounds,
    PushRounds,
    Fuse,
    Judge,
    Sort,
}

// A judged file has written nothing.
fn judge(file: &[u8]) -> Result<u16, Refusal> {
    plan::judge(file)?;
    Ok(0)
}

fn run(call: Call, rounds: u16, file: &[u8], graph: &[u8], out: &mut [u8]) -> Result<u16, Refusal> {
    match call {
        Call::Pull => engine::pull(file, graph, Limit::Quiet, out),
        Call::Push => engine::push(file, graph, Limit::Quiet, out),
        Call::PullRounds => engine::pull(file, graph, Limit::Rounds(rounds), out),
        Call::PushRounds => engine::push(file, graph, Limit::Rounds(rounds), out),
        Call::Fuse => fusion::fuse(file, out),
        Call::Judge => judge(file),
        Call::Sort => sorted_graph::sort(file, out),
    }
}

// What a call returned, and the buffer after it.
#[derive(Clone, Copy)]
struct Ran {
    code: u32,
    out: File,
}

// The files are cut to what was written, and the first bytes of a buffer are lent.
fn lend(call: Call, e: Expected, file: File, graph: File) -> Ran {
    let p = e.file.min(560);
    let g = e.graph.min(560);
    let lent = e.lent.min(560);
    let mut out = [FILL; 560];
    let ended = run(call, e.stop, &file[..p], &graph[..g], &mut out[..lent]);
    let code = wire::number_of(ended);
    Ran { code, out }
}

// Do the first bytes differ? 1 where they do.
fn differ(x: &File, y: &File, len: usize) -> u64
    ensures { result ≤ 1 }
{
    let n = len.min(560);
    u64::from(x[..n] != y[..n])
}

// 1 where a call returns something else, or leaves other bytes.
fn differs(call: Call, e: Expected, file: File, graph: File, want: File) -> u64
    ensures { result ≤ 1 }
{
    let ran = lend(call, e, file, graph);
    if ran.code != e.code {
        return 1;
    }
    let out = ran.out;
    differ(&out, &want, 560)
}

// How many of the four runs differ.
fn runs_differ(e: Expected, file: File, graph: File, whole: File, stopped: File) -> u64
    ensures { result ≤ 4 }
{
    let a = differs(Call::Pull, e, file, graph, whole);
    let b = differs(Call::Push, e, file, graph, whole);
    let c = differs(Call::PullRounds, e, file, graph, stopped);
    let d = differs(Call::PushRounds, e, file, graph, stopped);
    a + b + c + d
}

// The map sorted has as many bytes; sorted again it has the same ones; and so many of the four runs differ on it.
fn sorted_differ(e: Expected, file: File, graph: File, whole: File, stopped: File) -> u64
    ensures { result ≤ 6 }
{
    let mut f = e;
    f.code = e.graph.min(560) as u32;
    f.file = e.graph;
    f.lent = 560;
    let ran = lend(Call::Sort, f, graph, graph);
    let made = ran.out;
    let a = differs(Call::Sort, f, graph, graph, made);
    let b = differs(Call::Sort, f, made, made, made);
    a + b + runs_differ(e, file, made, whole, stopped)
}

// The runs on the map and on the map sorted, whose rows the expected values do not know.
fn both_differ(e: Expected, file: File, graph: File, whole: File, stopped: File) -> u64
    ensures { result ≤ 10 }
{
    let a = runs_differ(e, file, graph, whole, stopped);
    a + sorted_differ(e, file, graph, whole, stopped)
}

// A query is fused: into a long buffer, into one as long as the plan, into one a byte short. The plan starts as gathered, and is run.
fn fused_differ(e: Expected, q: File, head: File, graph: File, whole: File, stopped: File) -> u64 {
    let mut f = e;
    f.lent = 560;
    let ran = lend(Call::Fuse, f, q, graph);
    let made = ran.out;
    let size = ran.code as usize;
    let a = differ(&made, &head, slot(&head, byte(&head, 6)));
    f.code = ran.code;
    f.lent = size;
    let b = differs(Call::Fuse, f, q, graph, made);
    f.code = 65551;
    f.lent = (size as u64).saturating_sub(1) as usize;
    let c = differs(Call::Fuse, f, q, graph, [FILL; 560]);
    let mut g = e;
    g.file = size;
    a + b + c + both_differ(g, made, graph, whole, stopped)
}

// ---- damaged files

// A quarter are cut, the rest have a byte changed, half of these by 1. Returns the length.
fn damage(file: &mut File, len: usize, seed: u64) -> usize {
    let i = below(seed, len as u64) as usize;
    let s = next(seed);
    if s % 4 == 0 {
        return i;
    }
    let by = 1 + below(s / 8, 1 + s / 4 % 2 * 254);
    put(file, i, u64::from(byte(file, i)) + by, 1);
    len
}

// May a reader refuse by this number? Each but 15, of a query also but 16.
fn may_refuse(query: bool, number: u32) -> bool {
    matches!(number, 1..=14 | 17) || number == 16 && !query
}

// 1 where a refusal is by no number of those that may be or changes the buffer; or where the reader of plans does not take what was
// fused or run.
fn damaged_differ(e: Expected, query: bool, ran: Ran, file: File, graph: File) -> u64 {
    let code = ran.code;
    let out = ran.out;
    let blank = [FILL; 560];
    if 65536 <= code {
        if !may_refuse(query, code.wrapping_sub(65536)) {
            return 1;
        }
        return differ(&out, &blank, 560);
    }
    if !query {
        return differs(Call::Judge, e, file, graph, blank);
    }
    let mut f = e;
    f.file = code as usize;
    differs(Call::Judge, f, out, graph, blank)
}

// ---- counts

// The first cases that differ are named.
fn with_differences(rt: &impl Print, score: Score, differences: u64) -> Score {
    let mut r = score;
    if differences == 0 {
        return r;
    }
    if score.differences < 10 {
        line(
            rt,
            "differs in case, by so many calls, after so many, seed",
            [score.cases, differences, score.differences, score.seed],
        );
    }
    r.differences = score.differences.wrapping_add(differences);
    r
}

// What the file of a case is like, with so many different path reductions, and its answer, whose first row starts with the byte `first`.
fn scored(score: Score, c: Case, e: Expected, paths: u64, first: u8) -> Score {
    let mut r = score;
    r.refused = count(score.refused, 65536 <= e.code);
    r.numbers = count(score.numbers, first == 1);
    r.long = count(score.long, c.n < e.rounds);
    r.shared = count(score.shared, paths < c.path_terms);
    r.several = count(score.several, 1 < c.reductions);
    r.eight = count(score.eight, paths == 8);
    r.full = count(score.full, c.terms == 64);
    r.deep = count(score.deep, c.least == 17u64.saturating_sub(c.depth));
    r
}

// What the last condition of a file, if it has one, is at vertex 0.
fn with_condition(score: Score, c: Case, q: &File, rows: &Rows) -> Score {
    if c.condition == 0 {
        return score;
    }
    let mut r = score;
    r.conditions = count(score.conditions, true);
    match worth(q, c.condition, rows, c.n as usize, 0, c.most, 40) {
        Value::Absent => {
            r.absent = count(score.absent, true);
        }
        Value::Number(x) => {
            r.zero = count(score.zero, x == 0);
            r.above = count(score.above, 1 < x);
        }
    }
    r
}

// The version of its plan, and what a file with sets of two or more is like: more rounds than vertices, refused for a source.
fn with_sets(score: Score, c: Case, e: Expected, version: u8, sets: bool) -> Score {
    let mut r = score;
    r.second = count(score.second, version == 2);
    if sets {
        r.sets = count(score.sets, true);
        r.long_sets = count(score.long_sets, c.n < e.rounds);
        r.outside = count(score.outside, e.code == 65549);
    }
    r
}

fn try_file(
    rt: &impl Print,
    score: Score,
    c: Case,
    rows: &Rows,
    p: Paths,
    file: File,
    graph: File,
) -> Score {
    let e = expect(c, &graph, rows, p);
    let whole = wanted(e.code, c, e.rounds, c.most, &file, rows);
    let stopped = wanted(e.code, c, e.stop, e.stop, &file, rows);
    let head = if c.query { fused_head(p, c) } else { file };
    let sets = with_sets(score, c, e, head[3], any(p, several));
    let r = with_condition(
        scored(sets, c, e, p.count as u64, whole[10]),
        c,
        &file,
        rows,
    );
    if c.query {
        return with_differences(rt, r, fused_differ(e, file, head, graph, whole, stopped));
    }
    with_differences(rt, r, both_differ(e, file, graph, whole, stopped))
}

// A damaged file, of so many bytes.
fn try_damaged(
    rt: &impl Print,
    score: Score,
    query: bool,
    len: usize,
    file: File,
    graph: File,
) -> Score {
    let e = Expected {
        code: 0,
        file: len,
        graph: 9 + 8 * byte(&graph, 7) as usize,
        lent: 560,
        rounds: 0,
        stop: 0,
    };
    let ran = lend(if query { Call::Fuse } else { Call::Pull }, e, file, graph);
    let mut r = score;
    r.damaged = count(score.damaged, true);
    r.refused = count(score.refused, 65536 <= ran.code);
    r.read = count(score.read, ran.code < 65536);
    with_differences(rt, r, damaged_differ(e, query, ran, file, graph))
}

// An eighth of the files are damaged.
fn try_case(rt: &impl Print, score: Score, query: bool) -> Score {
    let mut graph = [0u8; 560];
    let mut rows = [65535u16; 24];
    let mut table = [0u64; 8];
    let mut file = [0u8; 560];
    let blank = random_case(score.seed, query);
    let seed = random_graph(&mut graph, &mut rows, blank.n, blank.seed);
    let mut begun = blank;
    begun.seed = random_paths(&mut table, blank, seed);
    let c = make_file(&mut file, &table, begun);
    let mut r = score;
    r.seed = next(c.seed);
    r.cases = count(score.cases, true);
    if r.seed / 8 % 8 == 0 {
        let len = damage(&mut file, c.at, r.seed);
        return try_damaged(rt, r, query, len, file, graph);
    }
    try_file(rt, r, c, &rows, gathered(&table, c, &file), file, graph)
}

fn try_all(rt: &impl Print, query: bool) -> Score {
    let mut score = Score {
        seed: SEED,
        cases: 0,
        refused: 0,
        damaged: 0,
        read: 0,
        numbers: 0,
        long: 0,
        shared: 0,
        several: 0,
        eight: 0,
        full: 0,
        deep: 0,
        conditions: 0,
        absent: 0,
        zero: 0,
        above: 0,
        second: 0,
        sets: 0,
        long_sets: 0,
        outside: 0,
        differences: 0,
    };
    for _ in 0..CASES {
        score = try_case(rt, score, query);
    }
    score
}

// A line that starts with a name, and four numbers. What cannot be written is passed over.
fn line(rt: &impl Print, name: &str, [a, b, c, d]: [u64; 4]) {
    let _ = print!(rt; "\n{name} {a} {b} {c} {d}");
}

fn print(rt: &impl Print, score: Score) {
    line(
        rt,
        "cases, refused, damaged, damaged and read:",
        [score.cases, score.refused, score.damaged, score.read],
    );
    line(
        rt,
        "a number in the first row, more rounds than places, more chain terms than chains, eight chains:",
        [score.numbers, score.long, score.shared, score.eight],
    );
    line(
        rt,
        "a condition, the last one absent at place 0, 0 there, above 1:",
        [score.conditions, score.absent, score.zero, score.above],
    );
    line(
        rt,
        "a worksheet of version 2, a chain from two starts or more, more rounds than places with one, 13 with one:",
        [score.second, score.sets, score.long_sets, score.outside],
    );
    line(
        rt,
        "two reductions or more, 64 terms, depth 16, calls that differ:",
        [score.several, score.full, score.deep, score.differences],
    );
}

fn main(rt: HostRuntime) {
    let _ = print!(rt; "worksheets");
    print(&rt, try_all(&rt, false));
    let _ = print!(rt; "\nquestions");
    print(&rt, try_all(&rt, true));
    let _ = println!(rt;);
}
