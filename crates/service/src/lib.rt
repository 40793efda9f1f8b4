// The calls of the C service (document 02): document 01's `fuse` and `run`, and every other call by its own name. "a result under 65,536 is the bytes
// written and 65,536 plus a number is a refusal". The tally of a counted call is an array of three: asked, answered, refused.
#![tactic(auto)]

ghost use Rattle.std.specs.Prelude.{length};
ghost use Rattle.board.specs.Reply.{board_reply};
ghost use Rattle.counted.specs.Counted.{asked_reply};
ghost use Rattle.engine.specs.declared.Limit.TheVariants.{Quiet, Rounds};
ghost use Rattle.engine.specs.Run.{run_reply};
ghost use Rattle.fusion.specs.Fusion.{fuse_reply};
ghost use Rattle.sorted_graph.specs.Sorted.{sort_reply};
ghost use Rattle.wire.specs.Wire.{Returned};
ghost use Rattle.service.specs.Tally.{Tallied};

use counted::Way;
use counters::Counters;
use engine::Limit;

// A question is fused into a worksheet.
// Kept: C interface. Both archives, this one and that of grafs, export `fuse` and `run`.
#[unsafe(no_mangle)]
pub extern "C" fn fuse(query: &[u8], out: &mut [u8]) -> u32
    ensures { Returned (fuse_reply query.now (length out.old)) result out.old out.new }
{
    wire::number_of(fusion::fuse(query, out))
}

// A worksheet is run on a map, by push: the faster way, and the same bytes as by pull.
#[unsafe(no_mangle)]
pub extern "C" fn run(plan: &[u8], graph: &[u8], out: &mut [u8]) -> u32
    ensures { Returned (run_reply Quiet plan.now graph.now (length out.old)) result out.old
        out.new }
{
    wire::number_of(engine::push(plan, graph, Limit::Quiet, out))
}

// ---- runs of a worksheet, by either way, to the first quiet round or for a given number of rounds
// Kept: C interface. Each of the eight calls has a name of its own, and so has each of the eight that count.

#[unsafe(no_mangle)]
pub extern "C" fn grafs_pull(plan: &[u8], graph: &[u8], out: &mut [u8]) -> u32
    ensures { Returned (run_reply Quiet plan.now graph.now (length out.old)) result
        out.old out.new }
{
    wire::number_of(engine::pull(plan, graph, Limit::Quiet, out))
}

#[unsafe(no_mangle)]
pub extern "C" fn grafs_push(plan: &[u8], graph: &[u8], out: &mut [u8]) -> u32
    ensures { Returned (run_reply Quiet plan.now graph.now (length out.old)) result
        out.old out.new }
{
    wire::number_of(engine::push(plan, graph, Limit::Quiet, out))
}

#[unsafe(no_mangle)]
pub extern "C" fn grafs_pull_rounds(plan: &[u8], graph: &[u8], rounds: u16, out: &mut [u8]) -> u32
    ensures { Returned (run_reply (Rounds rounds) plan.now graph.now (length out.old)) result
        out.old out.new }
{
    wire::number_of(engine::pull(plan, graph, Limit::Rounds(rounds), out))
}

#[unsafe(no_mangle)]
pub extern "C" fn grafs_push_rounds(plan: &[u8], graph: &[u8], rounds: u16, out: &mut [u8]) -> u32
    ensures { Returned (run_reply (Rounds rounds) plan.now graph.now (length out.old)) result
        out.old out.new }
{
    wire::number_of(engine::push(plan, graph, Limit::Rounds(rounds), out))
}

// ---- boards of questions, likewise

#[unsafe(no_mangle)]
pub extern "C" fn grafs_board_pull(board: &[u8], graph: &[u8], out: &mut [u8]) -> u32
    ensures { Returned (board_reply Quiet board.now graph.now (length out.old)) result
        out.old out.new }
{
    wire::number_of(board::pull(board, graph, Limit::Quiet, out))
}

#[unsafe(no_mangle)]
pub extern "C" fn grafs_board_push(board: &[u8], graph: &[u8], out: &mut [u8]) -> u32
    ensures { Returned (board_reply Quiet board.now graph.now (length out.old)) result
        out.old out.new }
{
    wire::number_of(board::push(board, graph, Limit::Quiet, out))
}

#[unsafe(no_mangle)]
pub extern "C" fn grafs_board_pull_rounds(
    board: &[u8],
    graph: &[u8],
    rounds: u16,
    out: &mut [u8],
) -> u32
    ensures { Returned (board_reply (Rounds rounds) board.now graph.now (length out.old)) result
        out.old out.new }
{
    wire::number_of(board::pull(board, graph, Limit::Rounds(rounds), out))
}

#[unsafe(no_mangle)]
pub extern "C" fn grafs_board_push_rounds(
    board: &[u8],
    graph: &[u8],
    rounds: u16,
    out: &mut [u8],
) -> u32
    ensures { Returned (board_reply (Rounds rounds) board.now graph.now (length out.old)) result
        out.old out.new }
{
    wire::number_of(board::push(board, graph, Limit::Rounds(rounds), out))
}

// ---- maps

// A map is written with its rows in rising order of from, to, seconds, crate size.
#[unsafe(no_mangle)]
pub extern "C" fn grafs_sort_map(map: &[u8], out: &mut [u8]) -> u32
    ensures { Returned (sort_reply map.now (length out.old)) result out.old out.new }
{
    wire::number_of(sorted_graph::sort(map, out))
}

// ---- the runs, counted

// A counted run: the tally's numbers are lent to it as counters, and put back.
// Kept: C interface. The tally is an array of three numbers there.
fn tallied(
    way: Way,
    asked: &[u8],
    graph: &[u8],
    limit: Limit,
    out: &mut [u8],
    tally: &mut [u64; 3],
) -> u32
    ensures { Tallied (asked_reply way limit asked.now graph.now (length out.old)) result
        out.old out.new tally.old tally.new }
{
    let mut counters = Counters {
        asked: tally[0],
        answered: tally[1],
        refused: tally[2],
    };
    let end = counted::run(way, asked, graph, limit, out, &mut counters);
    *tally = [counters.asked, counters.answered, counters.refused];
    wire::number_of(end)
}

#[unsafe(no_mangle)]
pub extern "C" fn grafs_counted_pull(
    plan: &[u8],
    graph: &[u8],
    out: &mut [u8],
    tally: &mut [u64; 3],
) -> u32
    ensures { Tallied (run_reply Quiet plan.now graph.now (length out.old)) result
        out.old out.new tally.old tally.new }
{
    tallied(Way::Pull, plan, graph, Limit::Quiet, out, tally)
}

#[unsafe(no_mangle)]
pub extern "C" fn grafs_counted_push(
    plan: &[u8],
    graph: &[u8],
    out: &mut [u8],
    tally: &mut [u64; 3],
) -> u32
    ensures { Tallied (run_reply Quiet plan.now graph.now (length out.old)) result
        out.old out.new tally.old tally.new }
{
    tallied(Way::Push, plan, graph, Limit::Quiet, out, tally)
}

#[unsafe(no_mangle)]
pub extern "C" fn grafs_counted_pull_rounds(
    plan: &[u8],
    graph: &[u8],
    rounds: u16,
    out: &mut [u8],
    tally: &mut [u64; 3],
) -> u32
    ensures { Tallied (run_reply (Rounds rounds) plan.now graph.now (length out.old)) result
        out.old out.new tally.old tally.new }
{
    tallied(Way::Pull, plan, graph, Limit::Rounds(rounds), out, tally)
}

#[unsafe(no_mangle)]
pub extern "C" fn grafs_counted_push_rounds(
    plan: &[u8],
    graph: &[u8],
    rounds: u16,
    out: &mut [u8],
    tally: &mut [u64; 3],
) -> u32
    ensures { Tallied (run_reply (Rounds rounds) plan.now graph.now (length out.old)) result
        out.old out.new tally.old tally.new }
{
    tallied(Way::Push, plan, graph, Limit::Rounds(rounds), out, tally)
}

#[unsafe(no_mangle)]
pub extern "C" fn grafs_counted_board_pull(
    board: &[u8],
    graph: &[u8],
    out: &mut [u8],
    tally: &mut [u64; 3],
) -> u32
    ensures { Tallied (board_reply Quiet board.now graph.now (length out.old)) result
        out.old out.new tally.old tally.new }
{
    tallied(Way::BoardPull, board, graph, Limit::Quiet, out, tally)
}

#[unsafe(no_mangle)]
pub extern "C" fn grafs_counted_board_push(
    board: &[u8],
    graph: &[u8],
    out: &mut [u8],
    tally: &mut [u64; 3],
) -> u32
    ensures { Tallied (board_reply Quiet board.now graph.now (length out.old)) result
        out.old out.new tally.old tally.new }
{
    tallied(Way::BoardPush, board, graph, Limit::Quiet, out, tally)
}

#[unsafe(no_mangle)]
pub extern "C" fn grafs_counted_board_pull_rounds(
    board: &[u8],
    graph: &[u8],
    rounds: u16,
    out: &mut [u8],
    tally: &mut [u64; 3],
) -> u32
    ensures { Tallied (board_reply (Rounds rounds) board.now graph.now (length out.old)) result
        out.old out.new tally.old tally.new }
{
    tallied(
        Way::BoardPull,
        board,
        graph,
        Limit::Rounds(rounds),
        out,
        tally,
    )
}

#[unsafe(no_mangle)]
pub extern "C" fn grafs_counted_board_push_rounds(
    board: &[u8],
    graph: &[u8],
    rounds: u16,
    out: &mut [u8],
    tally: &mut [u64; 3],
) -> u32
    ensures { Tallied (board_reply (Rounds rounds) board.now graph.now (length out.old)) result
        out.old out.new tally.old tally.new }
{
    tallied(
        Way::BoardPush,
        board,
        graph,
        Limit::Rounds(rounds),
        out,
        tally,
    )
}
