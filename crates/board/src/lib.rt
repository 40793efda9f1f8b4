// Boards (document 02, d): "up to eight questions on the same map", bytes to bytes, by pull and by push, to the first quiet round or for a given number of
// rounds. "one run's rounds serve the lot": the path reductions of all queries stand in one joint table, and those of each query's plan are found there.
#![tactic(auto)]

ghost use Rattle.std.specs.Prelude.{◌≡◌, ◌+◌, ◌≤◌, ◌<◌, length};
ghost use Rattle.wire.specs.Refusal.{number_of};
ghost use Rattle.board_text.specs.Board.{after_query, first_query, queries_code};
ghost use Rattle.query.specs.Query.{query_code};
ghost use Rattle.query.specs.Tree.{query_of};
ghost use Rattle.meaning.specs.Plan.{fuse};
ghost use Rattle.plan.specs.Text.{encode};
ghost use Rattle.wire.specs.Wire.{Returned, at16, done};
ghost use Rattle.board.specs.Reply.{board_reply};
ghost use Rattle.board.specs.Steps.{answers_left, plan_reply, sizes_left, slots_in};

use engine::Limit;
use packed_path::PackedPath;
use wire::Refusal;

// The query at the front of what is left of a board's queries, behind its length, and what follows it.
fn split_query(queries: &[u8]) -> (&[u8], &[u8])
    requires { 2 + at16 queries.now 0 ≤ length queries.now }
    ensures { (result.0.now ≡ first_query queries.now) × (result.1.now ≡ after_query queries.now) }
{
    let end = 2 + wire::half(queries, 0) as usize;
    (&queries[2..end], &queries[end..])
}

// How many bytes the answers of so many queries have together, by n and their kinds.
fn size_of(queries: &[u8], count: u8, n: u16) -> usize
    requires { queries_code count queries.now ≡ 0 }
    ensures { result ≡ sizes_left n count queries.now }
{
    let mut total: usize = 0;
    let mut left = queries;
    for _ in 0..count {
        let (query, rest) = split_query(left);
        total += answer::size(n, wire::byte(query, 5));
        left = rest;
    }
    total
}

// In which slot of the joint table each of the first path reductions of a plan's table stands.
fn slots_of(own: [PackedPath; 8], paths: usize, joint: [PackedPath; 8]) -> [usize; 8]
    requires { paths ≤ 8 }
    ensures { result ≡ slots_in own paths joint }
{
    let mut slots = [0usize; 8];
    for j in 0..paths {
        slots[j] = fusion::position_of(joint, own[j]);
    }
    slots
}

// The answer of an accepted query, by the figures of the joint table's path reductions: that of the plan that it is fused to.
// Kept: no plainer with table, figures, n and rounds in a struct, which would be made for one call and read in two functions.
fn answer_query(
    query: &[u8],
    joint: [PackedPath; 8],
    figures: &[u64],
    n: u16,
    rounds: u16,
    out: &mut [u8],
) -> Result<u16, Refusal>
    requires { query_code query.now ≡ 0 }
    ensures { Returned (plan_reply (encode (fuse (query_of query.now))) joint figures.now n rounds
        (length out.old)) (number_of result) out.old out.new }
{
    let mut bytes = [0u8; 560];
    let size = fusion::fuse(query, &mut bytes)? as usize;
    let plan = &bytes[..size];
    let w = plan::scan(plan)?;
    let paths = w.paths.min(8);
    let slots = slots_of(w.table, paths, joint);
    rows::write(plan, figures, slots, paths, n, rounds, out)
}

// The answers of so many queries, one after another, where they fit.
fn answer_all(
    queries: &[u8],
    count: u8,
    joint: [PackedPath; 8],
    figures: &[u64],
    n: u16,
    rounds: u16,
    out: &mut [u8],
) -> Result<u16, Refusal>
    requires { (queries_code count queries.now ≡ 0) × (1 ≤ n) × (n ≤ 256)
        × (length (answers_left joint figures.now n rounds count queries.now) ≤ length out.old)
        × (length (answers_left joint figures.now n rounds count queries.now) < 65536) }
    ensures { Returned (done (answers_left joint figures.now n rounds count queries.now)) (number_of result) out.old
        out.new }
{
    let mut written: usize = 0;
    let mut left = queries;
    for _ in 0..count {
        let (query, rest) = split_query(left);
        let size = answer_query(query, joint, figures, n, rounds, &mut out[written..])?;
        written += size as usize;
        left = rest;
    }
    Ok(written as u16)
}

// A board by push or by pull: all that is refused is refused before the rounds, 15 for all answers together.
// Kept: `push` is a bool, as `engine::settle` takes it; arrays of fixed sizes, since nothing stands on the heap.
fn run(push: bool, board: &[u8], graph: &[u8], limit: Limit, out: &mut [u8]) -> Result<u16, Refusal>
    ensures { Returned (board_reply limit board.now graph.now (length out.old)) (number_of result) out.old
        out.new }
{
    let w = board_text::scan(board)?;
    engine::judge(&Ok(w), graph)?;
    let n = engine::vertices(graph);
    let count = wire::byte(board, 0);
    let queries = &board[1..];
    if out.len() < size_of(queries, count, n) {
        return Err(Refusal::Room);
    }
    let paths = w.paths.min(8);
    let mut figures = [0u64; 2336];
    let rounds = engine::settle(push, limit, paths, w.table, graph, &mut figures);
    answer_all(queries, count, w.table, &figures, n, rounds, out)
}

// The board by pull.
// Kept: `pull` and `push` are two public names of one run, as of the engine.
pub fn pull(board: &[u8], graph: &[u8], limit: Limit, out: &mut [u8]) -> Result<u16, Refusal>
    ensures { Returned (board_reply limit board.now graph.now (length out.old)) (number_of result) out.old
        out.new }
{
    run(false, board, graph, limit, out)
}

// The board by push: the same.
pub fn push(board: &[u8], graph: &[u8], limit: Limit, out: &mut [u8]) -> Result<u16, Refusal>
    ensures { Returned (board_reply limit board.now graph.now (length out.old)) (number_of result) out.old
        out.new }
{
    run(true, board, graph, limit, out)
}
