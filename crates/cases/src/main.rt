// Tries the readers and writers on the cases of cases.bin, runs on those of runs.bin, boards on those of boards.bin and the writers of
// sorted maps on those of sorts.bin, which tests/make_cases.py writes: a case is a kind byte, the number expected, a 16-bit length
// and as many bytes. Prints for each file the first cases that differ, then how many there are of each kind, and how many differ.
#![tactic(auto)]

ghost use Rattle.io.specs.Counts.{IsPrefixLen};
ghost use Rattle.std.specs.Prelude.{◌<◌, ◌≤◌, length};

use engine::Limit;
use graph::{EdgeRow, EdgeTable};
use nodes::Term;
use std::fs::File;
use std::io::Read;
use std::rt::Files;
use wire::Refusal;

// Found where what was written is wrong, and of a case that is cut or of no kind. No case expects it.
const WRONG: u8 = 255;

// What the lent buffer is filled with.
const FILL: u8 = 0xa5;

// The kinds from here on are of boards, up to those of sorted maps.
const BOARDS: u8 = 13;

// Where a case has its bytes, and where the next one starts.
#[derive(Clone, Copy)]
struct Case {
    kind: u8,
    expected: u8,
    body: usize,
    next: usize,
}

#[derive(Clone, Copy)]
struct Score {
    cases: u64,
    differences: u64,
    kinds: [u64; 18],
}

// Reads until the buffer is full, the file ends or a read fails. Returns how many bytes it put at the buffer's start.
// Kept: a while, since each read says how far it came; and a function that the program grafs_main has too, since a test stands on no program.
fn read_full(file: &mut impl Read, buf: &mut [u8]) -> usize
    ensures { IsPrefixLen result buf.new }
{
    let mut done = 0;
    while done < buf.len() {
        let Ok(n) = file.read(&mut buf[done..]) else {
            break;
        };
        if n == 0 {
            break;
        }
        done += n;
    }
    done
}

fn load(rt: &impl Files, path: &str, buf: &mut [u8]) -> usize
    ensures { IsPrefixLen result buf.new }
{
    let Ok(mut file) = File::open(rt, path) else {
        return io::count(0, buf);
    };
    read_full(&mut file, buf)
}

// The 16-bit number at a position, 0 where there is none.
fn number(s: &[u8], at: usize) -> u16 {
    if at < s.len() && 2 <= s.len() - at {
        return u16::from_le_bytes([s[at], s[at + 1]]);
    }
    0
}

// The byte at a position, 0 where there is none.
fn low(s: &[u8], at: usize) -> u8 {
    s.get(at).copied().unwrap_or(0)
}

// The case at a position. One that is cut is of no kind and the last.
fn case_at(s: &[u8], at: usize) -> Case
    requires { at < length s.now }
    ensures { (at < result.next) × (result.next ≤ length s.now) × (result.body ≤ result.next) }
{
    let end = s.len();
    if 4 <= end - at {
        let body = at + 4;
        let len = number(s, at + 2) as usize;
        if len <= end - body {
            return Case {
                kind: s[at],
                expected: s[at + 1],
                body,
                next: body + len,
            };
        }
    }
    Case {
        kind: WRONG,
        expected: 0,
        body: end,
        next: end,
    }
}

// Whether the buffer holds the first `done` bytes of the file, and behind them what it was filled with.
fn holds(out: &[u8], file: &[u8], done: usize) -> bool {
    let done = done.min(file.len()).min(out.len());
    out[..done] == file[..done] && out[done..].iter().all(|b| *b == FILL)
}

// The number of a judgement, 0 for none.
fn code(judged: Result<(), Refusal>) -> u8 {
    match judged {
        Ok(()) => 0,
        Err(refusal) => refusal as u8,
    }
}

// What a writer returned, if the buffer is as it should be: the file's bytes, or untouched. No case has a call that is none (None).
fn written(ended: Option<Result<u16, Refusal>>, file: &[u8], out: &[u8]) -> u8 {
    match ended {
        Some(Ok(n)) if n as usize == file.len() && holds(out, file, file.len()) => 0,
        Some(Err(refusal)) if holds(out, file, 0) => refusal as u8,
        _ => WRONG,
    }
}

// What is read of a map, of a question, of a worksheet; nothing where it is refused.
fn read_graph(file: &[u8]) -> EdgeTable {
    let blank = EdgeRow {
        from: 0,
        to: 0,
        weight: 0,
        capacity: 0,
    };
    graph::read(file).unwrap_or(EdgeTable {
        vertices: 0,
        count: 0,
        rows: [blank; 1024],
    })
}

fn read_query(file: &[u8]) -> query_form::Form {
    match query_form::read(file) {
        Ok(reading) => reading.form,
        Err(_) => query_form::Form {
            kind: 0,
            count: 0,
            nodes: [Term::Empty; 72],
        },
    }
}

fn read_plan(file: &[u8]) -> plan_form::Form {
    plan_form::read(file).unwrap_or(plan_form::Form {
        version: 0,
        kind: 0,
        paths: 0,
        table: [packed_path::none(); 8],
        entries: 0,
        count: 0,
        nodes: [Term::Empty; 72],
    })
}

// A map is read, and its typed form is written with the counts of the case.
fn write_graph(fields: &[u8], file: &[u8], out: &mut [u8]) -> Result<u16, Refusal> {
    let mut table = read_graph(file);
    table.vertices = number(fields, 2);
    table.count = number(fields, 4);
    graph::write(&table, out)
}

// A question likewise, with the kind and the count of terms.
fn write_query(fields: &[u8], file: &[u8], out: &mut [u8]) -> Result<u16, Refusal> {
    let mut form = read_query(file);
    form.kind = low(fields, 2);
    form.count = number(fields, 4) as usize;
    query_form::write(&form, out)
}

// Where the worksheet ends that is read: where another file should be written, that stands behind it.
fn plan_end(fields: &[u8], file: &[u8]) -> usize
    ensures { result ≤ length file.now }
{
    let at = answer_at(6, fields, file);
    if at == 0 { file.len() } else { at }
}

// A worksheet likewise, with the kind, the version, the count of chains, of entries, and of terms and entries.
fn write_plan(fields: &[u8], file: &[u8], out: &mut [u8]) -> Result<u16, Refusal> {
    let mut form = read_plan(&file[..plan_end(fields, file)]);
    form.kind = low(fields, 2);
    form.version = low(fields, 3);
    form.paths = low(fields, 4);
    form.entries = low(fields, 5);
    form.count = number(fields, 6) as usize;
    plan_form::write(&form, out)
}

// A question is fused.
fn fuse_file(fields: &[u8], file: &[u8], out: &mut [u8]) -> Result<u16, Refusal> {
    fusion::fuse(&file[..answer_at(7, fields, file)], out)
}

// A map is sorted.
fn sort_file(fields: &[u8], file: &[u8], out: &mut [u8]) -> Result<u16, Refusal> {
    sorted_graph::sort(&file[..answer_at(16, fields, file)], out)
}

// A map is read, and its typed form is written sorted, with the counts of the case.
fn write_sorted(fields: &[u8], file: &[u8], out: &mut [u8]) -> Result<u16, Refusal> {
    let mut table = read_graph(&file[..answer_at(17, fields, file)]);
    table.vertices = number(fields, 2);
    table.count = number(fields, 4);
    sorted_graph::write(&table, out)
}

// A worksheet, or a board, is run by the call of the case; None where there is no such call.
fn run(
    kind: u8,
    call: u8,
    rounds: u16,
    asked: &[u8],
    graph: &[u8],
    out: &mut [u8],
) -> Option<Result<u16, Refusal>> {
    let limit = if call < 2 {
        Limit::Quiet
    } else {
        Limit::Rounds(rounds)
    };
    match (kind < BOARDS, call) {
        (true, 0 | 2) => Some(engine::pull(asked, graph, limit, out)),
        (true, 1 | 3) => Some(engine::push(asked, graph, limit, out)),
        (false, 0 | 2) => Some(board::pull(asked, graph, limit, out)),
        (false, 1 | 3) => Some(board::push(asked, graph, limit, out)),
        _ => None,
    }
}

// A worksheet or a board is run on a map: the call, the rounds at which it is stopped, where what is asked and the map behind it end.
fn run_files(kind: u8, fields: &[u8], file: &[u8], out: &mut [u8]) -> Option<Result<u16, Refusal>> {
    let a = number(fields, 6) as usize;
    let b = number(fields, 8) as usize;
    if b < a || file.len() < b {
        return None;
    }
    run(
        kind,
        low(fields, 2),
        number(fields, 4),
        &file[..a],
        &file[a..b],
        out,
    )
}

fn write_file(
    kind: u8,
    fields: &[u8],
    file: &[u8],
    out: &mut [u8],
) -> Option<Result<u16, Refusal>> {
    match kind {
        4 => Some(write_graph(fields, file, out)),
        5 => Some(write_query(fields, file, out)),
        6 => Some(write_plan(fields, file, out)),
        7 => Some(fuse_file(fields, file, out)),
        16 => Some(sort_file(fields, file, out)),
        17 => Some(write_sorted(fields, file, out)),
        _ => run_files(kind, fields, file, out),
    }
}

// The first `lent` bytes of the buffer are lent, if it has as many.
fn lend(
    kind: u8,
    fields: &[u8],
    file: &[u8],
    lent: usize,
    out: &mut [u8],
) -> Option<Result<u16, Refusal>> {
    if out.len() < lent {
        return None;
    }
    write_file(kind, fields, file, &mut out[..lent])
}

// Where what should be written starts: a writer writes the file that was read; or, as fusing, runs and sorting, what stands behind.
fn answer_at(kind: u8, fields: &[u8], file: &[u8]) -> usize
    ensures { result ≤ length file.now }
{
    let end = number(fields, 8) as usize;
    if kind < 6 {
        return 0;
    }
    end.min(file.len())
}

// Ten bytes of fields, the length lent first, and files.
fn write_case(kind: u8, s: &[u8]) -> u8 {
    if s.len() < 10 {
        return WRONG;
    }
    let file = &s[10..];
    let mut out = [FILL; 20000];
    let ended = lend(kind, s, file, number(s, 0) as usize, &mut out);
    written(ended, &file[answer_at(kind, s, file)..], &out)
}

// The fields of an answer and the room.
fn judge_answer(s: &[u8]) -> u8 {
    if s.len() < 5 {
        return WRONG;
    }
    code(answer::judge(number(s, 0), s[2], number(s, 3) as usize))
}

// The number found for the bytes of a case.
fn found(kind: u8, s: &[u8]) -> u8 {
    match kind {
        0 => code(graph::judge(s)),
        1 => code(query::judge(s)),
        2 => code(plan::judge(s)),
        3 => judge_answer(s),
        WRONG => WRONG,
        _ => write_case(kind, s),
    }
}

// What cannot be written, here and below, is passed over.
fn line(rt: &impl Print, name: &str, value: u64) {
    let _ = println!(rt; "{name} {value}");
}

// One case more of a kind.
fn counted(score: Score, kind: u8) -> Score {
    let mut r = score;
    let k = kind as usize;
    if k < 18 {
        r.kinds[k] = score.kinds[k].wrapping_add(1);
    }
    r.cases = score.cases.wrapping_add(1);
    r
}

// The first ten that differ are named.
fn scored(rt: &impl Print, score: Score, c: Case, number: u8) -> Score {
    let mut r = counted(score, c.kind);
    if c.expected == number {
        return r;
    }
    if score.differences < 10 {
        let _ = println!(rt;
            "case {} expected {} found {number}",
            score.cases, c.expected
        );
    }
    r.differences = score.differences.wrapping_add(1);
    r
}

// Kept: a while, since each case says where the next one starts.
fn run_all(rt: &impl Print, s: &[u8]) -> Score {
    let mut score = Score {
        cases: 0,
        differences: 0,
        kinds: [0; 18],
    };
    let mut at: usize = 0;
    while at < s.len() {
        let c = case_at(s, at);
        score = scored(rt, score, c, found(c.kind, &s[c.body..c.next]));
        at = c.next;
    }
    score
}

fn print_cases(rt: &impl Print, score: Score) {
    line(rt, "maps", score.kinds[0]);
    line(rt, "questions", score.kinds[1]);
    line(rt, "worksheets", score.kinds[2]);
    line(rt, "answers", score.kinds[3]);
    line(rt, "maps written", score.kinds[4]);
    line(rt, "questions written", score.kinds[5]);
    line(rt, "worksheets written", score.kinds[6]);
    line(rt, "questions fused", score.kinds[7]);
    line(rt, "differences", score.differences);
}

fn print_runs(rt: &impl Print, score: Score) {
    line(rt, "trials run", score.kinds[8]);
    line(rt, "traps run", score.kinds[9]);
    line(rt, "worksheets run", score.kinds[10]);
    line(rt, "refusals", score.kinds[11]);
    line(rt, "lent lengths", score.kinds[12]);
    line(rt, "differences", score.differences);
}

fn print_boards(rt: &impl Print, score: Score) {
    line(rt, "boards answered", score.kinds[13]);
    line(rt, "boards refused", score.kinds[14]);
    line(rt, "lent lengths of boards", score.kinds[15]);
    line(rt, "differences", score.differences);
}

fn print_sorts(rt: &impl Print, score: Score) {
    line(rt, "maps sorted", score.kinds[16]);
    line(rt, "maps sorted with other counts", score.kinds[17]);
    line(rt, "differences", score.differences);
}

fn main(rt: HostRuntime) {
    let mut buf = [0u8; 262144];
    let n = load(&rt, "cases.bin", &mut buf);
    print_cases(&rt, run_all(&rt, &buf[..n]));
    let m = load(&rt, "runs.bin", &mut buf);
    print_runs(&rt, run_all(&rt, &buf[..m]));
    let k = load(&rt, "boards.bin", &mut buf);
    print_boards(&rt, run_all(&rt, &buf[..k]));
    let j = load(&rt, "sorts.bin", &mut buf);
    print_sorts(&rt, run_all(&rt, &buf[..j]));
}
