// Random boards on random tiny graphs, from a fixed seed. Each is run by pull and by push, to quiet and for a random number of rounds, and
// compared with its queries one by one: each is fused and run alone, and the answers stand one after another with the greatest of the separate
// rounds. Path reductions come from a small pool, so that queries share them and some boards have nine. Some boards are damaged. By which
// number a board is refused is worked out on its bytes: only the judges of one query and of the graph are the library's, and two path
// reductions are the same where their bytes are. Prints what the boards were like, and how many calls differ.
#![tactic(auto)]

ghost use Rattle.std.specs.Prelude.{◌≤◌};

use engine::Limit;

const BOARDS: u64 = 20000;

const SEED: u64 = 20261117;

const FILL: u8 = 0xa5;

// The three letters and the version of a graph and of a query: five bytes, the lowest first. The weight of a sixth.
const GRAPH: u64 = 0x014d504c;

const QUERY: u64 = 0x0151504c;

const SIXTH: u64 = 0x10000000000;

// The count of keys, lowest, and the keys.
const KEYS: [u64; 6] = [0x201, 0x301, 0x601, 0x50202, 0x10402, 0x6010203];

// What a vertex term and what a result term may be, where there is room for two terms below it.
const VERTICES: [u64; 8] = [0x10, 0x10, 0x10, 0x11, 0x12, 0x12, 0x12, 0x12];

const RESULTS: [u64; 8] = [0x20, 0x20, 0x21, 0x22, 0x22, 0x22, 0x23, 0x23];

// "65,535 for anywhere", as a set of one.
const ANYWHERE: u64 = 0xffff01;

// A board, a graph, or a buffer.
type File = [u8; 1024];

// A board as far as it is written: the next random number, the one that the pool is drawn from, how many path reductions the pool has, how
// many vertices; the terms that are due, 256 for a result term and 1 for a vertex term, which come first, and how many may still be written;
// where the next byte goes.
#[derive(Clone, Copy)]
struct Draft {
    seed: u64,
    pool: u64,
    paths: u64,
    n: u64,
    due: u64,
    left: u64,
    at: usize,
}

// A board as far as it is read: by which number it is refused, 0 so far, and why, in the order of judging: 0 the count, 1 a length, 2 a query,
// 3 left-over bytes, 4 a ninth path reduction, 5 the graph, 6 a source, 7 the length lent, 8 not; where the next query starts; how many bytes the
// answers have; how many different path reductions there are, up to nine, and where each is first written; whether one stands in two queries; the
// greatest source.
#[derive(Clone, Copy)]
struct Reading {
    number: u8,
    cause: usize,
    at: usize,
    size: usize,
    paths: usize,
    first: [usize; 9],
    shared: bool,
    last: u64,
}

// What the buffer should hold, and the least and the greatest of the separate rounds.
#[derive(Clone, Copy)]
struct Wanted {
    out: File,
    least: u64,
    most: u64,
}

// The length lent, and what a call should return.
#[derive(Clone, Copy)]
struct Given {
    lent: usize,
    code: u32,
}

// The boards by why they were refused; how many of those that were answered have a path reduction in two queries, eight of them, separate rounds
// that differ.
#[derive(Clone, Copy)]
struct Score {
    seed: u64,
    causes: [u64; 9],
    shared: u64,
    eight: u64,
    apart: u64,
    differences: u64,
}

// ---- numbers

// The next random number, of 1 to 2,147,483,646 from any of these.
fn next(seed: u64) -> u64 {
    seed % 2147483647 * 48271 % 2147483647
}

// A number below k, or 0.
fn below(seed: u64, k: u64) -> u64 {
    if k == 0 { 0 } else { seed % k }
}

// One more, if it is so.
fn count(x: u64, yes: bool) -> u64 {
    x.wrapping_add(u64::from(yes))
}

// A position further on; none is near the greatest number.
fn plus(at: usize, i: usize) -> usize {
    at.wrapping_add(i)
}

// ---- bytes

// The byte at a position, 0 where there is none.
fn byte(s: &[u8], at: usize) -> u8 {
    s.get(at).copied().unwrap_or(0)
}

// The 16-bit number at a position.
fn number(s: &[u8], at: usize) -> u64
    ensures { result ≤ 65535 }
{
    u64::from(byte(s, at)) + 256 * u64::from(byte(s, plus(at, 1)))
}

// So many bytes of a number, the lowest first, as far as there is room. Returns where the next byte goes.
fn put(out: &mut File, at: usize, x: u64, size: usize) -> usize {
    let end = plus(at, size).min(1024);
    let mut rest = x;
    for a in at..end {
        out[a] = (rest % 256) as u8;
        rest /= 256;
    }
    at.max(end)
}

// ---- random boards

// A set of sources as its bytes, a count and 16-bit sources: anywhere, one, or two or three with vertex 0; seldom with one that is no vertex.
fn random_sources(seed: u64, n: u64) -> u64 {
    let last = below(seed / 512, count(n, seed / 8 % 64 == 0)) % 8;
    if seed % 8 < 2 {
        return ANYWHERE;
    }
    if seed % 8 == 2 && 0 < last {
        return 2 + 0x1000000 * last;
    }
    if seed % 8 == 3 && 1 < last {
        return 3 + 0x1000000 + SIXTH * last;
    }
    1 + 256 * last
}

// Path reduction j of the pool, the same wherever it is written: as 0x10 or as 0x13, from one source as either.
fn put_path(out: &mut File, d: Draft, j: u64, as_set: bool) -> usize {
    let s = next(next(d.pool % 65536 + 65536 * (j % 16)));
    let keys = KEYS[(s % 6) as usize] % SIXTH;
    let sources = random_sources(s / 6, d.n);
    let size = 2 + (keys % 256) as usize;
    if sources != ANYWHERE && (as_set || 1 < sources % 256) {
        let a = put(out, d.at, 0x13 + 256 * keys, size);
        return put(out, a, sources, 1 + 2 * (sources % 256) as usize);
    }
    let a = put(out, d.at, 0x10 + 256 * keys, size);
    put(out, a, sources / 256, 2)
}

// What the next term is, with room for so many more than are due.
fn random_tag(seed: u64, res: bool, room: u64) -> u64 {
    let i = (seed % 8) as usize;
    if room < 2 {
        return if res { 0x21 } else { 0x10 };
    }
    if res { RESULTS[i] } else { VERTICES[i] }
}

// What is due behind a tag.
fn due_behind(due: u64, tag: u64) -> u64 {
    let rest = due.saturating_sub(if tag < 0x20 { 1 } else { 256 });
    let more = match tag {
        0x12 | 0x23 => 2,
        0x20 => 1,
        0x22 => 512,
        _ => 0,
    };
    rest.wrapping_add(more)
}

// A term more, without those below it: a path reduction, a literal, an operator or a reduction.
fn put_term(out: &mut File, d: Draft) -> Draft {
    let s = next(d.seed);
    let code = s / 128;
    let room = d
        .left
        .saturating_sub(d.due / 256)
        .saturating_sub(d.due % 256);
    let tag = random_tag(s, d.due % 256 == 0, room) % 256;
    let mut r = d;
    r.seed = s;
    r.due = due_behind(d.due, tag);
    r.left = d.left.saturating_sub(1);
    r.at = match tag % 16 {
        1 => put(out, d.at, tag + 256 * (code % 8), 5),
        2 => put(out, d.at, tag + 256 * (1 + code % 11), 2),
        _ => {
            if tag == 0x10 {
                put_path(out, d, below(code, d.paths), code / 16 % 2 == 0)
            } else {
                put(out, d.at, tag + 256 * (1 + code % 5), 2)
            }
        }
    };
    r
}

// A query behind its length, one in three of kind 1: up to 16 terms, seldom up to 80, which may be too many. Seldom the length is one more or one
// less, as 65,535 more is in 16 bits.
fn put_query(out: &mut File, d: Draft) -> Draft {
    let mut r = d;
    r.seed = next(d.seed);
    let kind = r.seed % 3 / 2;
    let most = if r.seed / 64 % 64 == 0 { 80 } else { 16 };
    let wrong = match r.seed / 4096 % 128 {
        0 => 1,
        1 => 65535,
        _ => 0,
    };
    let start = plus(d.at, 2);
    r.due = 1 + 255 * kind;
    r.left = count(below(r.seed / 3, most), true);
    r.at = put(out, start, QUERY + SIXTH * kind, 6);
    for _ in 0..80 {
        if r.due != 0 {
            r = put_term(out, r);
        }
    }
    let size = (r.at as u64).saturating_sub(start as u64);
    put(out, d.at, size.wrapping_add(wrong), 2);
    r
}

// A board of so many queries; seldom the count is wrong.
fn put_board(out: &mut File, d: Draft, queries: u64) -> Draft {
    let wrong = d.pool % 16 == 0;
    let mut r = d;
    r.at = put(out, 0, if wrong { d.seed % 12 } else { queries }, 1);
    for _ in 0..queries {
        r = put_query(out, r);
    }
    r
}

// A graph of up to six edges, of each from, to, a small weight and a small capacity. Returns its length.
fn put_graph(out: &mut File, n: u64, seed: u64) -> usize {
    let edges = seed % 7;
    let numbers = 4 * edges as usize;
    put(out, 0, GRAPH + SIXTH * (n % 8 + 65536 * edges), 8);
    let mut s = seed;
    for i in 0..numbers {
        s = next(s);
        let most = if i % 4 < 2 { n } else { 4 };
        put(out, 9 + 2 * i, count(below(s / 16, most), i % 4 == 3), 2);
    }
    9 + 2 * numbers
}

// ---- damage

// One of so many bytes is changed, half of the time by 1.
fn change(file: &mut File, len: usize, seed: u64) {
    let i = (below(seed / 512, len as u64) % 1024) as usize;
    let by = if seed % 2 == 0 { 1 } else { seed / 2 };
    let x = u64::from(file[i]);
    put(file, i, x + by % 256, 1);
}

// A length, seldom another one: one less, any that is less, up to three more.
fn other_length(len: usize, seed: u64) -> usize {
    let other = match seed % 32 {
        0 => (len as u64).saturating_sub(1),
        1 => below(seed / 32, len as u64),
        2 => (len as u64).wrapping_add(1 + seed / 32 % 3),
        _ => len as u64,
    };
    (other as usize).min(1024)
}

// ---- the number expected

fn refused(r: Reading, cause: usize, number: u8) -> Reading {
    let mut w = r;
    w.number = number;
    w.cause = cause;
    w
}

// How many bytes the term at a position takes without those below it.
fn term_size(s: &[u8], at: usize) -> usize
    ensures { 2 ≤ result }
{
    let keys = byte(s, plus(at, 1)) as usize;
    match byte(s, at) {
        0x10 => 4 + keys,
        0x13 => 3 + keys + 2 * byte(s, plus(at, 2 + keys)) as usize,
        0x11 | 0x21 => 5,
        _ => 2,
    }
}

// How many bytes an answer has.
fn answer_size(kind: u8, n: u64) -> usize {
    let rows = if kind == 0 { n } else { 1 };
    10 + 9 * (rows % 65536) as usize
}

// Byte i behind the tag of a path reduction, 256 where it is over. Of 0x13 the set count is left out, so that a set of one is as 0x10.
fn path_byte(s: &[u8], at: usize, i: usize) -> u64 {
    let set = byte(s, at) == 0x13;
    let keys = byte(s, plus(at, 1)) as usize;
    let a = plus(i, if set && keys < i { 2 } else { 1 });
    if term_size(s, at) <= a {
        return 256;
    }
    u64::from(byte(s, plus(at, a)))
}

// Is it the same path reduction at both positions? It has at most a key count, three keys and 16 starts.
fn same_path(s: &[u8], a: usize, b: usize) -> bool {
    (0..36).all(|i| path_byte(s, a, i) == path_byte(s, b, i))
}

// With the path reduction of a term: one that is known, perhaps from a query before this one, or another one, up to nine. Of its sources the last
// is the greatest; 65,535 alone is anywhere.
fn with_path(s: &[u8], r: Reading, at: usize) -> Reading {
    let source = number(s, plus(at, term_size(s, at) - 2));
    let first = r.first;
    let paths = r.paths.min(9);
    let mut w = r;
    if r.last < source && source != 65535 {
        w.last = source;
    }
    for known in &first[..paths] {
        if same_path(s, *known, at) {
            w.shared = r.shared || *known < r.at;
            return w;
        }
    }
    if paths < 9 {
        w.first[paths] = at;
        w.paths = paths + 1;
    }
    w
}

// With the path reductions of a query, term by term. Kept: a while, since each term says where the next one starts.
fn with_query(s: &[u8], r: Reading, start: usize, end: usize) -> Reading {
    let mut w = r;
    let mut at = start;
    while at < end {
        let tag = byte(s, at);
        let size = term_size(s, at);
        if tag == 0x10 || tag == 0x13 {
            w = with_path(s, w, at);
        }
        at = if size < end - at { at + size } else { end };
    }
    w
}

// "a missing length or one running past the end being 1"; then the query itself.
fn read_query(s: &[u8], r: Reading, n: u64) -> Reading {
    let at = r.at.min(s.len());
    let left = s.len() - at;
    let size = number(s, at) as usize;
    if left < 2 || left - 2 < size {
        return refused(r, 1, 1);
    }
    let start = at + 2;
    let end = start + size;
    if let Err(refusal) = query::judge(&s[start..end]) {
        return refused(r, 2, refusal as u8);
    }
    let mut w = with_query(s, r, plus(start, 6), end);
    w.size = plus(r.size, answer_size(byte(s, plus(start, 5)), n));
    w.at = end;
    w
}

// "A missing count is 1, a count of 0 or above eight is 12. Then the questions are judged in turn"
fn read(s: &[u8], n: u64) -> Reading {
    let queries = byte(s, 0);
    let mut r = Reading {
        number: 0,
        cause: 8,
        at: 1,
        size: 0,
        paths: 0,
        first: [0; 9],
        shared: false,
        last: 0,
    };
    if queries == 0 || 8 < queries {
        r = refused(r, 0, if s.len() == 0 { 1 } else { 12 });
    }
    for _ in 0..queries {
        if r.number == 0 {
            r = read_query(s, r, n);
        }
    }
    r
}

// "left-over bytes are 6, a ninth different chain over them all is 14, and the map follows"; then the sources.
fn judge(s: &[u8], graph: &[u8]) -> Reading {
    let n = number(graph, 5);
    let r = read(s, n);
    if r.number != 0 {
        return r;
    }
    if r.at < s.len() {
        return refused(r, 3, 6);
    }
    if 8 < r.paths {
        return refused(r, 4, 14);
    }
    if let Err(refusal) = graph::judge(graph) {
        return refused(r, 5, refusal as u8);
    }
    if n <= r.last {
        return refused(r, 6, 13);
    }
    r
}

// ---- the answers expected

// The answer of the query behind a length, alone, from a position of the buffer on. Returns how many bytes it has.
fn answer(s: &[u8], at: usize, graph: &[u8], limit: Limit, out: &mut [u8], done: usize) -> usize {
    let start = plus(at, 2).min(s.len());
    let end = start + (number(s, at) as usize).min(s.len() - start);
    let mut plan = [0u8; 560];
    let size = fusion::fuse(&s[start..end], &mut plan)
        .map_or(560, usize::from)
        .min(560);
    let from = done.min(out.len());
    wire::number_of(engine::pull(&plan[..size], graph, limit, &mut out[from..])) as usize
}

// "except that rounds is the greatest of the separate counts"
fn put_rounds(out: &mut File, queries: u8, n: u64, rounds: u64) {
    let mut at: usize = 0;
    for _ in 0..queries {
        put(out, plus(at, 7), rounds, 2);
        let kind = out[plus(at, 9).min(1023)];
        at = plus(at, answer_size(kind, n));
    }
}

// The buffer after a run: the answers of so many queries one after another.
fn expected(s: &[u8], graph: &[u8], limit: Limit, queries: u8) -> Wanted {
    let mut out = [FILL; 1024];
    let mut least: u64 = 65535;
    let mut most: u64 = 0;
    let mut at: usize = 1;
    let mut done: usize = 0;
    for _ in 0..queries {
        let size = answer(s, at, graph, limit, &mut out, done);
        let rounds = number(&out, plus(done, 7));
        least = least.min(rounds);
        most = most.max(rounds);
        done = plus(done, size);
        at = plus(plus(at, 2), number(s, at) as usize);
    }
    put_rounds(&mut out, queries, number(graph, 5), most);
    Wanted { out, least, most }
}

// ---- calls

#[derive(Clone, Copy)]
enum Way {
    Pull,
    Push,
}

fn run(way: Way, limit: Limit, s: &[u8], graph: &[u8], out: &mut [u8]) -> u32 {
    wire::number_of(match way {
        Way::Pull => board::pull(s, graph, limit, out),
        Way::Push => board::push(s, graph, limit, out),
    })
}

// 1 where a call returns something else, or leaves other bytes.
fn differs(way: Way, limit: Limit, g: Given, s: &[u8], graph: &[u8], want: &File) -> u64
    ensures { result ≤ 1 }
{
    let lent = g.lent.min(1024);
    let mut out = [FILL; 1024];
    let code = run(way, limit, s, graph, &mut out[..lent]);
    u64::from(code != g.code || out != *want)
}

// ---- boards

fn scored(score: Score, r: Reading, w: Wanted) -> Score {
    let mut t = score;
    let i = r.cause;
    if i < 9 {
        t.causes[i] = count(score.causes[i], true);
    }
    if r.number == 0 {
        t.shared = count(score.shared, r.shared);
        t.eight = count(score.eight, r.paths == 8);
        t.apart = count(score.apart, w.least < w.most);
    }
    t
}

// What is expected, nothing where the board is refused, then the four calls.
fn try_files(score: Score, board: File, len: usize, map: File, end: usize, seed: u64) -> Score {
    let a = len.min(1024);
    let b = end.min(1024);
    let s = &board[..a];
    let graph = &map[..b];
    let mut r = judge(s, graph);
    let lent = other_length(r.size, seed);
    if r.number == 0 && lent < r.size {
        r = refused(r, 7, 15);
    }
    let stop = (next(seed) % 9) as u16;
    let mut code = 65536 + r.number as u32;
    let mut queries: u8 = 0;
    if r.number == 0 {
        code = r.size.min(1024) as u32;
        queries = byte(s, 0);
    }
    let g = Given { lent, code };
    let whole = expected(s, graph, Limit::Quiet, queries);
    let stopped = expected(s, graph, Limit::Rounds(stop), queries);
    let quiet = whole.out;
    let early = stopped.out;
    let to_quiet = Limit::Quiet;
    let to_stop = Limit::Rounds(stop);
    let x = differs(Way::Pull, to_quiet, g, s, graph, &quiet)
        + differs(Way::Push, to_quiet, g, s, graph, &quiet);
    let y = differs(Way::Pull, to_stop, g, s, graph, &early)
        + differs(Way::Push, to_stop, g, s, graph, &early);
    let mut t = scored(score, r, whole);
    t.differences = score.differences.wrapping_add(x + y);
    t
}

fn try_board(score: Score, queries: u64) -> Score {
    let a = next(score.seed);
    let n = 1 + a / 8 % 4;
    let mut board = [0u8; 1024];
    let mut graph = [0u8; 1024];
    let begun = Draft {
        seed: next(a),
        pool: a,
        paths: 1 + a / 32 % 16,
        n,
        due: 0,
        left: 0,
        at: 0,
    };
    let d = put_board(&mut board, begun, queries);
    let s = next(d.seed);
    let b = next(next(s));
    let size = put_graph(&mut graph, n, s);
    if b % 16 == 0 {
        change(&mut board, d.at, b / 256);
    }
    if b / 16 % 16 == 0 {
        change(&mut graph, size, b / 256);
    }
    let mut t = score;
    t.seed = b;
    let len = other_length(d.at, next(s / 2));
    let end = other_length(size, next(b));
    try_files(t, board, len, graph, end, next(b / 2))
}

// As many boards of one query as of two, .. as of eight.
fn try_all() -> Score {
    let mut score = Score {
        seed: SEED,
        causes: [0; 9],
        shared: 0,
        eight: 0,
        apart: 0,
        differences: 0,
    };
    for i in 0..BOARDS {
        score = try_board(score, 1 + i % 8);
    }
    score
}

// A line that starts with a name, and numbers. What cannot be written is passed over.
fn line(rt: &impl Print, name: &str, counts: &[u64]) {
    let _ = print!(rt; "{name}");
    for count in counts {
        let _ = print!(rt; " {count}");
    }
    let _ = println!(rt;);
}

fn main(rt: HostRuntime) {
    let score = try_all();
    let causes = score.causes;
    let others = [score.shared, score.eight, score.apart, score.differences];
    line(
        &rt,
        "boards of 1, of 2, .. of 8 questions, each:",
        &[BOARDS / 8],
    );
    line(
        &rt,
        "refused for the count, a length, a question, left-over bytes, a ninth chain, the map, a start, the length lent; answered:",
        &causes,
    );
    line(
        &rt,
        "answered with a chain in two questions, with eight chains, with separate rounds that differ; calls that differ:",
        &others,
    );
}
