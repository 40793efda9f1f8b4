// Rounds of all path reductions of a plan on one table (document 01: pull run, push run; crate table). Rounds are outside, path reductions inside: after each
// round all have their figures. `work` is room for one path reduction's round at a time, lent once: what is left in it is free, and it is as long as it was.
#![tactic(auto)]

ghost use Rattle.std.specs.Prelude.{◌≡◌, suc, ◌+◌, ◌*◌, ◌≤◌, T, length};
ghost use Rattle.walks.specs.Keys.{legal_keys};
ghost use Rattle.walks.specs.Lists.{All};
ghost use Rattle.meaning.specs.Limits.{PathFits};
ghost use Rattle.wire.specs.Wire.{at16};
ghost use Rattle.graph.specs.Graph.{graph_code, graph_of};
ghost use Rattle.incoming.specs.Incoming.{Successors};
ghost use Rattle.packed_path.specs.Packed.{path_of};
ghost use Rattle.packed_figures.specs.Packed.{constants};
ghost use Rattle.table.specs.Table.{paths_in};
ghost use Rattle.rounds.specs.Run.{RanRead};
ghost use Rattle.rounds.specs.Steps.{Constants, PathsFit, paths_fit-prop, small};

use incoming::{Accepted, IndexedGraph};
use packed_figures::PathConstants;
use packed_path::PackedPath;

// ---- what is fixed for a run

// The constants of a path reduction.
fn constants_of(path: PackedPath) -> PathConstants
    requires { T (legal_keys (path_of path).keys) }
    ensures { result ≡ constants (path_of path).keys }
{
    packed_figures::path_constants(path.keys)
}

// Those of all path reductions.
fn all_constants(n: usize, paths: usize, table: [PackedPath; 8]) -> [PathConstants; 8]
    requires { (paths ≤ 8) × PathsFit n paths table }
    ensures { Constants paths table result }
{
    let mut all = [packed_figures::path_constants(0); 8];
    for j in 0..paths {
        all[j] = constants_of(table[j]);
    }
    all
}

// A run's graph with its index, and its path reductions, the first `paths` of a table, with their constants: what its rounds read.
// Kept: a table of eight with a count beside it, since memory is fixed (no heap) and `run` is called so.
#[derive(Drop)]
struct PreparedRun<'g, 'a> {
    indexed: IndexedGraph<'g, 'a>,
    paths: usize,
    table: [PackedPath; 8],
    all: [PathConstants; 8],
    ghost leads: { Successors indexed.graph.bytes.now 0 indexed.successors.now },
    ghost few: { paths ≤ 8 },
    ghost wide: { length table ≡ 8 },
    ghost constants: { Constants paths table all },
    ghost fits: { PathsFit (at16 indexed.graph.bytes.now 5) paths table } by { paths_fit-prop (at16 indexed.graph.bytes.now 5) paths table },
}

impl PreparedRun<'_, '_> {
    ghost use Rattle.std.specs.Prelude.{◌≡◌, not, suc, ◌+◌, ◌*◌, ◌<◌, ◌≤◌, length};
    ghost use Rattle.table.specs.Table.{Idle, Sound, path_at};
    ghost use Rattle.rounds.specs.Run.{Advanced, AllSound, AllStand, Begun, PullRound, PushRound, Ran, Read, Stands, quiet_after};
    ghost use Rattle.rounds.specs.Prepared.{graph_in, vertices_in};

    // ---- initial values

    // Those of path reduction j.
    fn initialize_at(&self, j: usize, figures: &mut [u64])
        requires { (j < self.now.paths) × (32 + 9 * vertices_in self.now ≤ length figures.old) × Idle (vertices_in self.now) figures.old }
        ensures { Begun (graph_in self.now) (path_at self.now.table j) j figures.old figures.new }
    {
        table::initialize(
            self.table[j],
            self.all[j],
            self.indexed.graph.vertices(),
            j,
            figures,
        )
    }

    // Those of all path reductions; no vertex lends a word yet.
    fn initialize_all(&self, figures: &mut [u64])
        requires { 32 + 9 * vertices_in self.now ≤ length figures.old }
        ensures { AllStand (graph_in self.now) self.now.paths self.now.table 0 figures.new }
    {
        table::idle(self.indexed.graph.vertices(), figures);
        for j in 0..self.paths {
            self.initialize_at(j, figures);
        }
    }

    // ---- a round of path reduction j, which has had r rounds

    // BY PULL: over the edges from all vertices, as if the round before had changed each of them.
    fn pull_round(&self, j: usize, r: u16, figures: &mut [u64], work: &mut [u64]) -> bool
        requires { (j < self.now.paths) × (r < 1023) × Sound (vertices_in self.now) (path_at self.now.table j) r figures.old j
            × (8 ≤ length work.old) }
        ensures { PullRound (graph_in self.now) (path_at self.now.table j) r j figures.old figures.new result
            × (length work.new ≡ length work.old) }
    {
        vertex_set::fill(figures, j, self.indexed.graph.vertices());
        table::step(self.all[j], j, &self.indexed, figures, work)
    }

    // BY PUSH: the successors of the vertices that the round before changed are walked, over the edges from changed ones (Definition 3).
    fn push_round(&self, j: usize, r: u16, figures: &mut [u64], work: &mut [u64]) -> bool
        requires { (j < self.now.paths) × (r < 1023) × Sound (vertices_in self.now) (path_at self.now.table j) r figures.old j
            × (8 ≤ length work.old) }
        ensures { PushRound (graph_in self.now) (path_at self.now.table j) r j figures.old figures.new result
            × (length work.new ≡ length work.old) }
    {
        table::step(self.all[j], j, &self.indexed, figures, work)
    }

    // ---- rounds of all

    // The next state of path reduction j, by push or by pull: one that no vertex changed for rests, and stays as it is. Whether a vertex changed.
    // Kept: `push`, as `run` has it. The two rounds have contracts of their own; a trait of the two, with its law, would be longer than this one test.
    fn advance(&self, push: bool, j: usize, r: u16, figures: &mut [u64], work: &mut [u64]) -> bool
        requires { (j < self.now.paths) × Stands (graph_in self.now) (path_at self.now.table j) r j figures.old × (8 ≤ length work.old) }
        ensures { Advanced (graph_in self.now) (path_at self.now.table j) r j figures.old figures.new result
            × (length work.new ≡ length work.old) }
    {
        let m = vertex_set::first(figures, j);
        if self.indexed.graph.vertices() <= m.vertex {
            return false;
        }
        if push {
            return self.push_round(j, r, figures, work);
        }
        self.pull_round(j, r, figures, work)
    }

    // The round after r of all path reductions. Whether any changed.
    fn round(&self, push: bool, r: u16, figures: &mut [u64], work: &mut [u64]) -> bool
        requires { AllStand (graph_in self.now) self.now.paths self.now.table r figures.old × (8 ≤ length work.old) }
        ensures { AllStand (graph_in self.now) self.now.paths self.now.table (suc r) figures.new
            × (result ≡ not (quiet_after (graph_in self.now) self.now.paths self.now.table r)) × (length work.new ≡ length work.old) }
    {
        let mut changed = false;
        for j in 0..self.paths {
            let moved = self.advance(push, j, r, figures, work);
            changed |= moved;
        }
        changed
    }

    // Rounds until one changes nothing, at most `limit`. How many.
    fn rounds(&self, push: bool, limit: u16, figures: &mut [u64], work: &mut [u64]) -> u16
        requires { AllStand (graph_in self.now) self.now.paths self.now.table 0 figures.old × (8 ≤ length work.old) }
        ensures { Ran (graph_in self.now) self.now.paths self.now.table limit result figures.new
            × (length work.new ≡ length work.old) }
    {
        for r in 0..limit {
            let changed = self.round(push, r, figures, work);
            if !changed {
                return r + 1;
            }
        }
        limit
    }

    // ---- values

    // The values of all path reductions, in place of their figures.
    fn read_values(&self, figures: &mut [u64])
        requires { AllSound (vertices_in self.now) self.now.paths self.now.table figures.old }
        ensures { Read (vertices_in self.now) self.now.paths self.now.table figures.old figures.new }
    {
        let n = self.indexed.graph.vertices();
        for j in 0..self.paths {
            table::read_values(self.all[j], n, j, figures);
        }
    }
}

// ---- a run

// The index of the graph, the initial values, the rounds, the values. The index has room for N vertices, M rows and sets of W words.
fn run_in<const N: usize, const M: usize, const W: usize>(
    push: bool,
    graph: Accepted,
    paths: usize,
    table: [PackedPath; 8],
    limit: u16,
    figures: &mut [u64],
) -> u16
    requires { (paths ≤ 8) × PathsFit (at16 graph.bytes.now 5) paths table × (at16 graph.bytes.now 5 ≤ N) × (at16 graph.bytes.now 7 ≤ M)
        × (4 * at16 graph.bytes.now 5 ≤ W) × (32 + 9 * at16 graph.bytes.now 5 ≤ length figures.old) × (N ≤ 256) × (M ≤ 1024) × (W ≤ 1024) }
    ensures { RanRead (graph_of graph.entry.bytes.now) paths table limit result figures.new }
{
    let mut heads = [0u16; N];
    let mut nexts = [0u16; M];
    let mut successors = [0u64; W];
    incoming::index(graph, &mut heads, &mut nexts, &mut successors);
    let indexed = IndexedGraph {
        graph,
        heads: &heads,
        nexts: &nexts,
        successors: &successors,
    };
    let all = all_constants(graph.vertices(), paths, table);
    let run = PreparedRun {
        indexed,
        paths,
        table,
        all,
    };
    run.initialize_all(figures);
    let done = run.rounds(push, limit, figures, &mut [0u64; 8]);
    run.read_values(figures);
    done
}

// Has the graph few vertices and edges? Its tables are short then, so that a small one does not pay for 256 vertices.
pub fn is_small(graph: &[u8]) -> bool
    requires { graph_code graph.now ≡ 0 }
    ensures { result ≡ small graph.now }
{
    let graph = Accepted { bytes: graph };
    graph.vertices() <= 16 && graph.rows() <= 64
}

// A run: rounds until one changes nothing, at most `limit`, by push over the edges from vertices that changed in the round before, by pull over all. How many
// rounds; the values reached are left in the table.
#[tactic(auto, using(incoming::proofs::Sizes::few_vertices, incoming::proofs::Sizes::few_rows))]
pub fn run(
    push: bool,
    graph: &[u8],
    paths: usize,
    table: [PackedPath; 8],
    limit: u16,
    figures: &mut [u64],
) -> u16
    requires { (graph_code graph.now ≡ 0) × (paths ≤ 8) × All (PathFits (at16 graph.now 5)) (paths_in paths table)
        × (32 + 9 * at16 graph.now 5 ≤ length figures.old) }
    ensures { RanRead (graph_of graph.now) paths table limit result figures.new }
{
    let accepted = Accepted { bytes: graph };
    if is_small(graph) {
        run_in::<16, 64, 64>(push, accepted, paths, table, limit, figures)
    } else {
        run_in::<256, 1024, 1024>(push, accepted, paths, table, limit, figures)
    }
}
