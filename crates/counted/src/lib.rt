// Counted runs (document 01): "The tally is one record, lent to each counted run and changed in place"; "A board is one counted run" (document 02, d).
// The number and the buffer are those of the run that is not counted.
#![tactic(auto)]

ghost use Rattle.std.specs.Prelude.{length};
ghost use Rattle.wire.specs.Refusal.{number_of};
ghost use Rattle.wire.specs.Wire.{Returned};
ghost use Rattle.counted.specs.Counted.{Counted, asked_reply};

use counters::Counters;
use engine::Limit;
use wire::Refusal;

// What is run, a plan or a board, and the way it goes: the answers are the same.
// Kept: no plainer as a closure, as a way is one of four calls, and the contract is by cases of it (`asked_reply`).
#[derive(Clone, Copy, Debug, PartialEq, Eq)]
pub enum Way {
    Pull,
    Push,
    BoardPull,
    BoardPush,
}

// The run that is asked for, not counted.
fn call(way: Way, asked: &[u8], graph: &[u8], limit: Limit, out: &mut [u8]) -> Result<u16, Refusal>
    ensures { Returned (asked_reply way limit asked.now graph.now (length out.old)) (number_of result) out.old out.new }
{
    match way {
        Way::Pull => engine::pull(asked, graph, limit, out),
        Way::Push => engine::push(asked, graph, limit, out),
        Way::BoardPull => board::pull(asked, graph, limit, out),
        Way::BoardPush => board::push(asked, graph, limit, out),
    }
}

// The counted run: the counters are lent to it, and count one run more.
pub fn run(
    way: Way,
    asked: &[u8],
    graph: &[u8],
    limit: Limit,
    out: &mut [u8],
    counters: &mut Counters,
) -> Result<u16, Refusal>
    ensures { Counted (asked_reply way limit asked.now graph.now (length out.old))
        (number_of result) out.old out.new counters.old counters.new }
{
    let before = *counters;
    let end = call(way, asked, graph, limit, out);
    let done = end.is_ok();
    let after = counters::counted(before, done);
    *counters = after;
    end
}
