// The bytes of boards (document 02, d): "a count byte, then each question behind its 16-bit length", judged and read.
#![tactic(auto)]

ghost use Rattle.std.specs.Prelude.{◌≡◌, take};
ghost use Rattle.progress.specs.Progress.{going, scan_of, started};
ghost use Rattle.board_text.specs.Steps.{board_scan, first_scan, joined, joint_scan};

use progress::Progress;
use wire::Refusal;

// The reading of the query at the front: 1 where its length is missing or runs past the end.
#[tactic(auto, unfolding(crate::specs::Steps::first_scan))]
fn first_query(rest: &[u8]) -> Result<Progress, Refusal>
    ensures { scan_of result ≡ first_scan rest.now }
{
    let n = wire::half(rest, 0) as usize;
    if rest.len() < 2 || rest.len() < 2 + n {
        return Err(Refusal::Short);
    }
    query::scan(&rest[2..2 + n])
}

// The path reductions of one query put into the joint table, behind those that stand there; 14 where there is a ninth, or was one before.
#[tactic(auto, using(crate::proofs::Reading::joining))]
fn join(joint: Result<Progress, Refusal>, own: Progress) -> Result<Progress, Refusal>
    ensures { scan_of result ≡ joined (scan_of joint) (take own.paths own.table) }
{
    let mut w = joint?;
    for path in &own.table[..own.paths.min(8)] {
        terms::keep_path(&mut w, *path)?;
    }
    Ok(w)
}

// The queries in turn, so many behind the count byte, and what is left over: the joint table, or the first refusal. A ninth path reduction is refused
// behind all others.
#[tactic(auto, using(crate::proofs::Reading::in_turn), unfolding(crate::specs::Steps::joint_scan))]
fn scan_queries(queries: &[u8], count: u8) -> Result<Progress, Refusal>
    ensures { scan_of result ≡ joint_scan count queries.now (started 0) }
{
    let mut joint = Ok(progress::start(0));
    let mut rest = queries;
    for _ in 0..count {
        let own = first_query(rest)?;
        joint = join(joint, own);
        let end = 2 + wire::half(rest, 0) as usize;
        rest = &rest[end..];
    }
    if !rest.is_empty() {
        return Err(Refusal::Length);
    }
    joint
}

// The reading of a board: the joint table of its path reductions, or the first refusal; 14 where there is a ninth. "A missing count is 1, a count of 0 or
// above eight is 12."
#[tactic(auto, unfolding(crate::specs::Steps::board_scan, crate::specs::Board::count_code))]
pub fn scan(board: &[u8]) -> Result<Progress, Refusal>
    ensures { scan_of result ≡ board_scan board.now }
{
    let (&count, queries) = board.split_first().ok_or(Refusal::Short)?;
    if count == 0 || 8 < count {
        return Err(Refusal::Terms);
    }
    scan_queries(queries, count)
}
