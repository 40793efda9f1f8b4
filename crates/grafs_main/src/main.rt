// The program (document 01): "reads `question.lpq` and `map.lpm` (an unreadable file counts as no bytes), judges the question first, runs by pull and prints
// a rounds line, then place and value lines with `-` for absent; for kind 1 `result` and the value in their stead; or `refused` and the number alone. One
// space parts the fields and a line feed ends each line."
#![tactic(auto)]

ghost use Rattle.std.specs.Prelude.{◌≡◌, ◌+◌, ◌*◌, ◌≤◌, length};
ghost use Rattle.io.specs.Counts.{IsPrefixLen};
ghost use Rattle.answer.specs.Decode.{at64, row_in};

use engine::Limit;
use std::fmt;
use std::fs::File;
use std::io::Read;
use std::rt::Files;
use value::Value;
use wire::Refusal;

// Whether a file cannot be read on. At its end it can.
fn broken(file: &mut impl Read) -> bool {
    let mut next = [0u8; 1];
    file.read(&mut next).is_err()
}

// Reads until the buffer is full, the file ends or a read fails. Returns how many bytes it put at the buffer's start.
// Kept: a while, since each read says how far it came.
fn read_full(file: &mut impl Read, buf: &mut [u8]) -> usize
    ensures { IsPrefixLen result buf.new }
{
    let mut done = 0;
    while done < buf.len() {
        let Ok(n) = file.read(&mut buf[done..]) else {
            break;
        };
        if n == 0 {
            break;
        }
        done += n;
    }
    done
}

// The bytes of a file, as many as the buffer takes; none where the file cannot be opened or read.
fn load(rt: &impl Files, path: &str, buf: &mut [u8]) -> usize
    ensures { IsPrefixLen result buf.new }
{
    let Ok(mut file) = File::open(rt, path) else {
        return io::count(0, buf);
    };
    let n = read_full(&mut file, buf);
    if broken(&mut file) {
        return io::count(0, buf);
    }
    n
}

fn number(row: &[u8]) -> u64
    ensures { result ≡ at64 row.now 1 }
{
    u64::from(wire::word(row, 1)) + 4294967296 * u64::from(wire::word(row, 5))
}

// The row at the front: "a byte, 1 for a number and 0 for absent, and 64 bits".
fn first_row(rows: &[u8]) -> Value
    ensures { result ≡ row_in rows.now }
{
    if wire::byte(rows, 0) == 0 {
        return Value::Absent;
    }
    Value::Number(number(rows))
}

// A value, with `-` for absent.
#[derive(Clone, Copy)]
struct Shown(Value);

impl fmt::Display for Shown {
    fn fmt<W: fmt::Write>(&self, f: &mut fmt::Formatter<W>) -> fmt::Result {
        match self.0 {
            Value::Absent => f.write_str("-"),
            Value::Number(x) => write!(f, "{x}"),
        }
    }
}

// The place and value lines. What cannot be written, here and below, is passed over.
fn print_rows(rt: &impl Print, answer: &[u8], count: usize)
    requires { 10 + 9 * count ≤ length answer.now }
{
    for i in 0..count {
        let _ = println!(rt; "{i} {}", Shown(first_row(&answer[10 + 9 * i..])));
    }
}

// An answer has n at 5, the rounds at 7, the kind at 9 and its rows from 10 on.
fn print_answer(rt: &impl Print, answer: &[u8])
    requires { 2314 ≤ length answer.now }
{
    let _ = println!(rt; "rounds {}", wire::half(answer, 7));
    if wire::byte(answer, 9) != 0 {
        let _ = println!(rt; "result {}", Shown(first_row(&answer[10..])));
        return;
    }
    print_rows(rt, answer, (wire::half(answer, 5) as usize).min(256));
}

// "or `refused` and the number alone"
fn print_refusal(rt: &impl Print, refusal: Refusal) {
    let _ = println!(rt; "refused {}", refusal as u8);
}

// No answer is longer than 2,314 bytes (`size_most` of crate answer): 15 does not occur.
fn run(rt: &impl Print, plan: &[u8], graph: &[u8]) {
    let mut answer = [0u8; 2314];
    match engine::pull(plan, graph, Limit::Quiet, &mut answer) {
        Ok(_) => print_answer(rt, &answer),
        Err(refusal) => print_refusal(rt, refusal),
    }
}

// No worksheet is longer than 560 bytes (`fuse_fits` of crate fusion): 15 does not occur here either.
fn answer(rt: &impl Print, query: &[u8], graph: &[u8]) {
    let mut plan = [0u8; 560];
    match fusion::fuse(query, &mut plan) {
        Ok(len) => run(rt, &plan[..(len as usize).min(560)], graph),
        Err(refusal) => print_refusal(rt, refusal),
    }
}

// A longer file is answered as its first bytes are (crate first_bytes, `long_query` and `long_graph`):
// - a question as 2,439 of them or more. Of 64 terms, at most 38 bytes each behind the first 6, nothing lies past 2,438; what stands there is refused for
//   being there, as a 65th term (12) or as left over (6), if nothing before it is refused.
// - a map as 8,202 or more: none is longer than 9 + 8 * 1,024, so one with a byte more is refused by its head or for its length (6).
fn main(rt: HostRuntime) {
    let mut query = io::buffer();
    let n = load(&rt, "question.lpq", &mut query);
    let mut graph = io::large_buffer();
    let m = load(&rt, "map.lpm", &mut graph);
    answer(&rt, &query[..n], &graph[..m]);
}
