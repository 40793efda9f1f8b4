// Makes the counted runs below, of worksheets and of boards, and compares the number returned, the whole buffer and the counters (document 01's
// tally) with what was written down by hand from documents 01 and 02. Prints which cases differ, then how many there are and how many differ.
#![tactic(auto)]

ghost use Rattle.std.specs.Prelude.{◌≡◌, ◌≤◌, length};
ghost use Rattle.counted.specs.Counted.{Counted, asked_reply};

use counted::Way;
use counters::Counters;
use engine::Limit;

// The greatest number of 64 bits.
const MOST: u64 = 18446744073709551615;

// What the buffer is filled with before a run.
const FILL: u8 = 0xa5;

// A refusal is 65,536 and its number.
const REFUSED: u32 = 65536;

// The bytes of an answer of one row.
const ANSWER: usize = 19;

// What is run on which map. Where nothing else is said the map is map A of the marked trial, with its rows.
#[derive(Clone, Copy)]
enum Files {
    // The marked worksheet; the map as the worksheet; the worksheet as the map; a worksheet whose start, 9, the map has not; a map without its rows.
    Marked,
    NoPlan,
    NoGraph,
    Source9,
    Cut,
    // A board of two questions: the marked one, and the same from place 3, which is quiet in round 1 and whose result is 0. The board with count 9; with a
    // byte left over; on a map without its rows; with the start 9 in its second question.
    Board,
    Count9,
    LeftOver,
    BoardCut,
    Board9,
}

// What a run left: its number, and the tally.
#[derive(Clone, Copy)]
struct Left {
    number: u32,
    counters: Counters,
}

// What a run is to leave: its number, and of an answer the rounds and the result; a second answer has the same rounds and the result 0.
#[derive(Clone, Copy)]
struct Wanted {
    number: u32,
    rounds: u8,
    result: u8,
}

// How many cases were run and differed, and the tally that the last one left.
#[derive(Clone, Copy)]
struct Score {
    cases: u64,
    differences: u64,
    counters: Counters,
}

// A counted run, with the tally in a local that is lent to it.
fn lend(
    way: Way,
    asked: &[u8],
    graph: &[u8],
    limit: Limit,
    out: &mut [u8],
    counters: Counters,
) -> Left
    ensures { Counted (asked_reply way limit asked.now graph.now (length out.old))
        result.number out.old out.new counters result.counters }
{
    let mut lent = counters;
    let ended = counted::run(way, asked, graph, limit, out, &mut lent);
    Left {
        number: wire::number_of(ended),
        counters: lent,
    }
}

fn run(files: Files, way: Way, limit: Limit, out: &mut [u8], counters: Counters) -> Left
    ensures { length out.new ≡ length out.old }
{
    let plan = b"LPW\x01\0\x01\x01\x01\x01\0\0\0\0\x01\x02\x30\0\x31\0";
    let source_9 = b"LPW\x01\0\x01\x01\x01\x01\0\0\x09\0\x01\x02\x30\0\x31\0";
    let graph =
        b"LPM\x01\0\x04\0\x04\0\0\0\x01\0\x05\0\x0a\0\0\0\x02\0\x02\0\x04\0\x02\0\x01\0\x03\0\x14\0\x01\0\x03\0\0\0\x07\0";
    let board =
        b"\x02\x0d\0LPQ\x01\0\x01\x20\x02\x10\x01\x01\0\0\x0d\0LPQ\x01\0\x01\x20\x02\x10\x01\x01\x03\0";
    let count_9 =
        b"\x09\x0d\0LPQ\x01\0\x01\x20\x02\x10\x01\x01\0\0\x0d\0LPQ\x01\0\x01\x20\x02\x10\x01\x01\x03\0";
    let left_over =
        b"\x02\x0d\0LPQ\x01\0\x01\x20\x02\x10\x01\x01\0\0\x0d\0LPQ\x01\0\x01\x20\x02\x10\x01\x01\x03\0\0";
    let board_9 =
        b"\x02\x0d\0LPQ\x01\0\x01\x20\x02\x10\x01\x01\0\0\x0d\0LPQ\x01\0\x01\x20\x02\x10\x01\x01\x09\0";
    match files {
        Files::Marked => lend(way, plan, graph, limit, out, counters),
        Files::NoPlan => lend(way, graph, graph, limit, out, counters),
        Files::NoGraph => lend(way, plan, plan, limit, out, counters),
        Files::Source9 => lend(way, source_9, graph, limit, out, counters),
        Files::Cut => lend(way, plan, b"LPM\x01\0\x04\0\x04\0", limit, out, counters),
        Files::Board => lend(way, board, graph, limit, out, counters),
        Files::Count9 => lend(way, count_9, graph, limit, out, counters),
        Files::LeftOver => lend(way, left_over, graph, limit, out, counters),
        Files::BoardCut => lend(way, board, b"LPM\x01\0\x04\0\x04\0", limit, out, counters),
        Files::Board9 => lend(way, board_9, graph, limit, out, counters),
    }
}

// Byte i of an answer: `LPA`, version 1, 4 places, the rounds, kind 1, one row with a number.
fn answer_byte(w: Wanted, res: u8, i: usize) -> u8 {
    let head = b"LPA\x01\0\x04\0";
    if i < 7 {
        return head[i];
    }
    match i {
        7 => w.rounds,
        9 => 1,
        10 => 1,
        11 => res,
        _ => 0,
    }
}

// Byte i of the buffer: of the answer, of a second one behind it, or as it was filled.
fn wanted_byte(w: Wanted, i: usize) -> u8 {
    if REFUSED <= w.number || w.number as usize <= i {
        return FILL;
    }
    if i < ANSWER {
        return answer_byte(w, w.result, i);
    }
    answer_byte(w, 0, i - ANSWER)
}

fn same_bytes(out: &[u8; 40], w: Wanted) -> bool {
    for i in 0..40 {
        if out[i] != wanted_byte(w, i) {
            return false;
        }
    }
    true
}

fn same(left: Left, w: Wanted, after: Counters, out: &[u8; 40]) -> bool {
    left.number == w.number && left.counters == after && same_bytes(out, w)
}

fn counts(asked: u64, answered: u64, refused: u64) -> Counters {
    Counters {
        asked,
        answered,
        refused,
    }
}

// The cases go on from another tally.
fn from(score: Score, counters: Counters) -> Score {
    Score {
        cases: score.cases,
        differences: score.differences,
        counters,
    }
}

// One more case: what differs is named.
fn scored(rt: &impl Print, score: Score, same: bool, counters: Counters) -> Score {
    let mut r = from(score, counters);
    r.cases = score.cases.wrapping_add(1);
    if same {
        return r;
    }
    // what cannot be written is passed over
    let _ = println!(rt; "differs: case {}", score.cases);
    r.differences = score.differences.wrapping_add(1);
    r
}

// A case: so many bytes of the buffer are lent, and the tally that the case before left.
fn case(
    rt: &impl Print,
    score: Score,
    files: Files,
    way: Way,
    limit: Limit,
    room: usize,
    w: Wanted,
    after: Counters,
) -> Score
    requires { room ≤ 40 }
{
    let mut out = [FILL; 40];
    let before = score.counters;
    let left = run(files, way, limit, &mut out[..room], before);
    let after_it = left.counters;
    scored(rt, score, same(left, w, after, &out), after_it)
}

// A run that is answered, and the tally after it.
fn answered(
    rt: &impl Print,
    score: Score,
    way: Way,
    limit: Limit,
    rounds: u8,
    res: u8,
    after: Counters,
) -> Score {
    let w = Wanted {
        number: 19,
        rounds,
        result: res,
    };
    case(rt, score, Files::Marked, way, limit, 24, w, after)
}

// A board that is answered: two answers.
fn board_answered(
    rt: &impl Print,
    score: Score,
    way: Way,
    limit: Limit,
    rounds: u8,
    res: u8,
    after: Counters,
) -> Score {
    let w = Wanted {
        number: 38,
        rounds,
        result: res,
    };
    case(rt, score, Files::Board, way, limit, 40, w, after)
}

// A run that is refused, and the tally after it; so many bytes are lent.
fn refused_in(
    rt: &impl Print,
    score: Score,
    files: Files,
    way: Way,
    limit: Limit,
    room: usize,
    number: u32,
    after: Counters,
) -> Score
    requires { (room ≤ 40) × (number ≤ 16) }
{
    let w = Wanted {
        number: REFUSED + number,
        rounds: 0,
        result: 0,
    };
    case(rt, score, files, way, limit, room, w, after)
}

// A byte less than a worksheet's answer takes.
fn refused(
    rt: &impl Print,
    score: Score,
    files: Files,
    way: Way,
    limit: Limit,
    number: u32,
    after: Counters,
) -> Score
    requires { number ≤ 16 }
{
    refused_in(rt, score, files, way, limit, 18, number, after)
}

// A byte less than a board's two answers take.
fn board_refused(
    rt: &impl Print,
    score: Score,
    files: Files,
    way: Way,
    limit: Limit,
    number: u32,
    after: Counters,
) -> Score
    requires { number ≤ 16 }
{
    refused_in(rt, score, files, way, limit, 37, number, after)
}

// Answers by pull and by push, quiet and stopped: the tally goes on from run to run.
fn answers(rt: &impl Print, score: Score) -> Score {
    let mut s = from(score, counts(5, 3, 2));
    s = answered(rt, s, Way::Pull, Limit::Quiet, 3, 2, counts(6, 4, 2));
    s = answered(rt, s, Way::Push, Limit::Quiet, 3, 2, counts(7, 5, 2));
    s = answered(rt, s, Way::Pull, Limit::Rounds(0), 0, 0, counts(8, 6, 2));
    s = answered(rt, s, Way::Push, Limit::Rounds(0), 0, 0, counts(9, 7, 2));
    s = answered(rt, s, Way::Pull, Limit::Rounds(1), 1, 1, counts(10, 8, 2));
    s = answered(rt, s, Way::Push, Limit::Rounds(1), 1, 1, counts(11, 9, 2));
    s = answered(rt, s, Way::Pull, Limit::Rounds(5), 5, 2, counts(12, 10, 2));
    answered(rt, s, Way::Push, Limit::Rounds(5), 5, 2, counts(13, 11, 2))
}

// Refusals for the worksheet (2), the map (2 and 6), a start (13) and the buffer (15).
fn refusals(rt: &impl Print, score: Score) -> Score {
    let mut s = from(score, counts(0, 0, 0));
    s = refused(
        rt,
        s,
        Files::NoPlan,
        Way::Pull,
        Limit::Quiet,
        2,
        counts(1, 0, 1),
    );
    s = refused(
        rt,
        s,
        Files::NoPlan,
        Way::Push,
        Limit::Rounds(1),
        2,
        counts(2, 0, 2),
    );
    s = refused(
        rt,
        s,
        Files::NoGraph,
        Way::Push,
        Limit::Quiet,
        2,
        counts(3, 0, 3),
    );
    s = refused(
        rt,
        s,
        Files::Cut,
        Way::Pull,
        Limit::Rounds(0),
        6,
        counts(4, 0, 4),
    );
    s = refused(
        rt,
        s,
        Files::Source9,
        Way::Push,
        Limit::Quiet,
        13,
        counts(5, 0, 5),
    );
    s = refused(
        rt,
        s,
        Files::Marked,
        Way::Pull,
        Limit::Quiet,
        15,
        counts(6, 0, 6),
    );
    s = refused(
        rt,
        s,
        Files::Marked,
        Way::Push,
        Limit::Rounds(0),
        15,
        counts(7, 0, 7),
    );
    answered(rt, s, Way::Pull, Limit::Quiet, 3, 2, counts(8, 1, 7))
}

// "if any of the three is at its greatest, none changes", whether the run is answered or refused.
fn stays(rt: &impl Print, score: Score, full: Counters) -> Score {
    let mut s = from(score, full);
    s = answered(rt, s, Way::Pull, Limit::Quiet, 3, 2, full);
    s = refused(rt, s, Files::Marked, Way::Push, Limit::Quiet, 15, full);
    s = answered(rt, s, Way::Push, Limit::Rounds(1), 1, 1, full);
    refused(rt, s, Files::NoPlan, Way::Pull, Limit::Rounds(1), 2, full)
}

// Each of the three reaches its greatest, and from then on none changes.
fn reaches(rt: &impl Print, score: Score) -> Score {
    let mut s = from(score, counts(MOST - 1, 3, 2));
    s = answered(rt, s, Way::Pull, Limit::Quiet, 3, 2, counts(MOST, 4, 2));
    s = answered(rt, s, Way::Pull, Limit::Quiet, 3, 2, counts(MOST, 4, 2));
    s = from(s, counts(5, MOST - 1, 2));
    s = refused(
        rt,
        s,
        Files::Cut,
        Way::Pull,
        Limit::Quiet,
        6,
        counts(6, MOST - 1, 3),
    );
    s = answered(rt, s, Way::Push, Limit::Quiet, 3, 2, counts(7, MOST, 3));
    s = refused(
        rt,
        s,
        Files::Source9,
        Way::Push,
        Limit::Quiet,
        13,
        counts(7, MOST, 3),
    );
    s = from(s, counts(5, 3, MOST - 1));
    s = refused(
        rt,
        s,
        Files::Marked,
        Way::Pull,
        Limit::Quiet,
        15,
        counts(6, 3, MOST),
    );
    answered(rt, s, Way::Push, Limit::Quiet, 3, 2, counts(6, 3, MOST))
}

// "A board is one counted run": answered; refused for the count (12), left-over bytes (6), the map (6), a start (13), the buffer (15); as a
// worksheet (2), a worksheet as a board (12); and beside a worksheet.
fn boards(rt: &impl Print, score: Score) -> Score {
    let pull = Way::BoardPull;
    let push = Way::BoardPush;
    let quiet = Limit::Quiet;
    let mut s = from(score, counts(5, 3, 2));
    s = board_answered(rt, s, pull, quiet, 3, 2, counts(6, 4, 2));
    s = board_answered(rt, s, push, quiet, 3, 2, counts(7, 5, 2));
    s = board_answered(rt, s, pull, Limit::Rounds(1), 1, 1, counts(8, 6, 2));
    s = board_answered(rt, s, push, Limit::Rounds(0), 0, 0, counts(9, 7, 2));
    s = board_refused(rt, s, Files::Count9, pull, quiet, 12, counts(10, 7, 3));
    s = board_refused(rt, s, Files::LeftOver, push, quiet, 6, counts(11, 7, 4));
    s = board_refused(
        rt,
        s,
        Files::BoardCut,
        pull,
        Limit::Rounds(1),
        6,
        counts(12, 7, 5),
    );
    s = board_refused(rt, s, Files::Board9, push, quiet, 13, counts(13, 7, 6));
    s = board_refused(rt, s, Files::Board, pull, quiet, 15, counts(14, 7, 7));
    s = board_refused(rt, s, Files::Board, Way::Pull, quiet, 2, counts(15, 7, 8));
    s = refused(rt, s, Files::Marked, push, quiet, 12, counts(16, 7, 9));
    answered(rt, s, Way::Pull, quiet, 3, 2, counts(17, 8, 9))
}

// At the greatest none changes.
fn boards_stay(rt: &impl Print, score: Score, full: Counters) -> Score {
    let s = from(score, full);
    let t = board_answered(rt, s, Way::BoardPull, Limit::Quiet, 3, 2, full);
    board_refused(rt, t, Files::Board, Way::BoardPush, Limit::Quiet, 15, full)
}

fn main(rt: HostRuntime) {
    let mut s = Score {
        cases: 0,
        differences: 0,
        counters: counts(0, 0, 0),
    };
    s = refusals(&rt, answers(&rt, s));
    s = stays(&rt, s, counts(MOST, 3, 2));
    s = stays(&rt, s, counts(5, MOST, 2));
    s = stays(&rt, s, counts(5, 3, MOST));
    s = reaches(&rt, s);
    s = boards(&rt, s);
    s = boards_stay(&rt, s, counts(MOST, 3, 2));
    s = boards_stay(&rt, s, counts(5, MOST, 2));
    s = boards_stay(&rt, s, counts(5, 3, MOST));
    let _ = println!(rt;
        "counted runs {} cases {} differences",
        s.cases, s.differences
    );
}
