// How far a reading of a question or worksheet has come (document 01, "Layouts": "judged left to right"): before the first term, after a
// refusal, after the last term.
#![tactic(auto)]

ghost use Rattle.std.specs.Prelude.{◌≡◌};
ghost use Rattle.progress.specs.Progress.{going, scan_of, started, ended};

use packed_path::PackedPath;
use wire::Refusal;

// `at` is the next byte, `terms` how many terms have been read so far; `paths` is how many path reductions `table` holds so far; `reductions` is how many
// vertex reductions (in a worksheet: entries) have been met so far.
// Kept: an array with its length beside it (rule: no heap).
#[derive(Clone, Copy)]
pub struct Progress {
    pub at: usize,
    pub terms: usize,
    pub paths: usize,
    pub reductions: usize,
    pub table: [PackedPath; 8],
}

// The state before the first term, at byte `at`.
#[tactic(auto, unfolding(crate::specs::Progress::started))]
pub fn start(at: usize) -> Progress
    ensures { going result ≡ started at }
{
    Progress {
        at,
        terms: 0,
        paths: 0,
        reductions: 0,
        table: [packed_path::none(); 8],
    }
}

// After the last term: 6 where bytes are left over. A refusal is handed on.
#[tactic(auto, unfolding(crate::specs::Progress::ended, crate::specs::Progress::blank))]
pub fn finish(s: &[u8], read: Result<Progress, Refusal>) -> Result<Progress, Refusal>
    ensures { scan_of result ≡ ended s.now (scan_of read) }
{
    let w = read?;
    if w.at < s.len() {
        return Err(Refusal::Length);
    }
    Ok(w)
}
