// The two calls of the C service (document 01): "a result under 65,536 is the bytes written and 65,536 plus a number is a refusal".
#![tactic(auto)]

ghost use Rattle.std.specs.Prelude.{length};
ghost use Rattle.engine.specs.declared.Limit.TheVariants.{Quiet};
ghost use Rattle.engine.specs.Run.{run_reply};
ghost use Rattle.fusion.specs.Fusion.{fuse_reply};
ghost use Rattle.wire.specs.Wire.{Returned};

use engine::Limit;

// A question is fused into a worksheet.
// Kept: C interface. Both archives, this one and that of service, export `fuse` and `run`.
#[unsafe(no_mangle)]
pub extern "C" fn fuse(query: &[u8], out: &mut [u8]) -> u32
    ensures { Returned (fuse_reply query.now (length out.old)) result out.old out.new }
{
    wire::number_of(fusion::fuse(query, out))
}

// A worksheet is run on a map, by push: the faster way, and the same bytes as by pull.
#[unsafe(no_mangle)]
pub extern "C" fn run(plan: &[u8], graph: &[u8], out: &mut [u8]) -> u32
    ensures { Returned (run_reply Quiet plan.now graph.now (length out.old)) result out.old
        out.new }
{
    wire::number_of(engine::push(plan, graph, Limit::Quiet, out))
}
