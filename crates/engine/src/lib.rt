// Runs (document 01): a worksheet on a map, bytes to bytes, by pull and by push, to the first quiet round or for a given number of rounds.
#![tactic(auto)]

ghost use Rattle.std.specs.Prelude.{◌≡◌, ◌+◌, ◌*◌, ◌≤◌, length, map};
ghost use Rattle.wire.specs.Refusal.{code, number_of};
ghost use Rattle.progress.specs.Progress.{going, scan_of};
ghost use Rattle.walks.specs.Lists.{All};
ghost use Rattle.meaning.specs.Limits.{PathFits};
ghost use Rattle.graph.specs.Graph.{graph_code, graph_of};
ghost use Rattle.packed_path.specs.Packed.{path_of, sources_of};
ghost use Rattle.table.specs.Table.{paths_in};
ghost use Rattle.plan.specs.Plan.{plan_scan};
ghost use Rattle.wire.specs.Wire.{at16, Returned};
ghost use Rattle.engine.specs.Run.{outside_code, sources_code, run_reply};
ghost use Rattle.engine.specs.Steps.{Settled, run_code, most_of, reported_of};

use packed_path::PackedPath;
use progress::Progress;
use wire::Refusal;

// How long a run goes on: to the first quiet round, or for a given number of rounds.
// Kept: no plainer as an Option<u16>, as Quiet says what a missing number of rounds means.
#[derive(Clone, Copy, Debug, PartialEq, Eq)]
pub enum Limit {
    Quiet,
    Rounds(u16),
}

// Each path reduction of a plan stands in the slot of its own index.
const OWN: [usize; 8] = [0, 1, 2, 3, 4, 5, 6, 7];

// How many vertices a map has, by its field.
pub fn vertices(graph: &[u8]) -> u16
    ensures { result ≡ at16 graph.now 5 }
{
    wire::half(graph, 5) as u16
}

// Refuses a path reduction with a source that is no vertex.
fn judge_path(path: PackedPath, n: u64) -> Result<(), Refusal>
    ensures { code result ≡ outside_code n (sources_of path) }
{
    let mut left = path;
    for _ in 0..path.count {
        if n <= packed_path::first(left) {
            return Err(Refusal::Source);
        }
        left = packed_path::rest(left);
    }
    Ok(())
}

// The first refusal of the sources of path reductions, in their order.
#[tactic(auto, using(crate::proofs::Sources::source_refused, crate::proofs::Sources::source_passed, crate::proofs::Sources::sources_passed))]
fn judge_sources(paths: &[PackedPath], n: u64) -> Result<(), Refusal>
    ensures { code result ≡ sources_code n (map path_of paths.now) }
{
    for path in paths {
        judge_path(*path, n)?;
    }
    Ok(())
}

// The refusal of the map, of the starts, of a worksheet that was read.
#[tactic(auto, using(std::proofs::lemmas::List::take_min), unfolding(crate::specs::Steps::run_code))]
fn judge_read(w: &Progress, graph: &[u8]) -> Result<(), Refusal>
    ensures { code result ≡ run_code (going w.now) graph.now }
{
    graph::judge(graph)?;
    let n = vertices(graph);
    let table: &[PackedPath] = &w.table;
    let count = w.paths.min(table.len());
    judge_sources(&table[..count], u64::from(n))
}

// "A run judges the worksheet, the map, starts in chain order": the first refusal.
#[tactic(auto, using(crate::proofs::Meant::read_refused))]
pub fn judge(read: &Result<Progress, Refusal>, graph: &[u8]) -> Result<(), Refusal>
    ensures { code result ≡ run_code (scan_of read.now) graph.now }
{
    match read {
        Ok(w) => judge_read(w, graph),
        Err(refusal) => Err(*refusal),
    }
}

impl Limit {
    // At most so many rounds are done: as many as are given, or 2n.
    fn most(self, n: u16) -> u16
        requires { n ≤ 256 }
        ensures { result ≡ most_of self n }
    {
        match self {
            Limit::Quiet => 2 * n,
            Limit::Rounds(r) => r,
        }
    }

    // So many are reported.
    fn reported(self, done: u16) -> u16
        ensures { result ≡ reported_of self done }
    {
        match self {
            Limit::Quiet => done,
            Limit::Rounds(given) => given,
        }
    }
}

// The rounds of a run of the first path reductions of a table: how many are reported; the values then reached are left in `figures`.
// Kept: `push` is a bool, as `rounds::run` takes it; what is left is the same by either.
pub fn settle(
    push: bool,
    limit: Limit,
    paths: usize,
    table: [PackedPath; 8],
    graph: &[u8],
    figures: &mut [u64],
) -> u16
    requires { (graph_code graph.now ≡ 0) × (paths ≤ 8) × All (PathFits (at16 graph.now 5)) (paths_in paths table)
        × (32 + 9 * at16 graph.now 5 ≤ length figures.old) }
    ensures { Settled limit (graph_of graph.now) (paths_in paths table) result figures.new }
{
    let most = limit.most(vertices(graph));
    let done = rounds::run(push, graph, paths, table, most, figures);
    limit.reported(done)
}

// The rounds, the rows and the answer of a judged run, in a table that is lent.
// Kept: the parameters of a run are no struct, which `pull` and `push` (public) could not take, and which would be made for this one call.
fn answer_in(
    push: bool,
    limit: Limit,
    plan: &[u8],
    w: &Progress,
    graph: &[u8],
    figures: &mut [u64],
    out: &mut [u8],
) -> Result<u16, Refusal>
    requires { (going w.now ≡ plan_scan plan.now) × (run_code (going w.now) graph.now ≡ 0)
        × (32 + 9 * at16 graph.now 5 ≤ length figures.old) }
    ensures { Returned (run_reply limit plan.now graph.now (length out.old)) (number_of result) out.old
        out.new }
{
    let paths = w.paths.min(8);
    let done = settle(push, limit, paths, w.table, graph, figures);
    rows::write(plan, figures, OWN, paths, vertices(graph), done, out)
}

// A run by push or by pull: all that is refused is refused before the rounds, which have a table as long as the map needs.
// Kept: two arrays of fixed sizes, since nothing stands on the heap.
fn run(push: bool, plan: &[u8], graph: &[u8], limit: Limit, out: &mut [u8]) -> Result<u16, Refusal>
    ensures { Returned (run_reply limit plan.now graph.now (length out.old)) (number_of result) out.old
        out.new }
{
    let w = plan::scan(plan)?;
    judge_read(&w, graph)?;
    answer::judge(vertices(graph), wire::byte(plan, 5), out.len())?;
    if rounds::is_small(graph) {
        return answer_in(push, limit, plan, &w, graph, &mut [0u64; 176], out);
    }
    answer_in(push, limit, plan, &w, graph, &mut [0u64; 2336], out)
}

// The run by pull.
// Kept: `pull` and `push` are two public names of one run, and README and docs/ name both.
pub fn pull(plan: &[u8], graph: &[u8], limit: Limit, out: &mut [u8]) -> Result<u16, Refusal>
    ensures { Returned (run_reply limit plan.now graph.now (length out.old)) (number_of result) out.old
        out.new }
{
    run(false, plan, graph, limit, out)
}

// The run by push: the same.
pub fn push(plan: &[u8], graph: &[u8], limit: Limit, out: &mut [u8]) -> Result<u16, Refusal>
    ensures { Returned (run_reply limit plan.now graph.now (length out.old)) (number_of result) out.old
        out.new }
{
    run(true, plan, graph, limit, out)
}
