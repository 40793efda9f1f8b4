// Queries (document 01, question `LPQ`): judged and read.
#![tactic(auto)]

ghost use Rattle.std.specs.Prelude.{◌≡◌};
ghost use Rattle.wire.specs.Refusal.{code};
ghost use Rattle.progress.specs.Progress.{scan_of};
ghost use Rattle.query.specs.Query.{term_kind, query_scan, query_code};

use progress::Progress;
use terms::TermKind;
use wire::Refusal;

// "A question of kind 0 is a place term, of kind 1 a result term."
// Kept: no TryFrom, since `fields::opening_code` has refused every other byte before: it would have an error that never comes.
fn term_kind(b: u16) -> TermKind
    ensures { result ≡ term_kind b }
{
    if b == 0 {
        TermKind::OfVertex
    } else {
        TermKind::OfResult
    }
}

// The reading of a whole question: its terms counted, with the table of its different path reductions; or a refusal.
#[tactic(auto, unfolding(crate::specs::Query::query_scan, progress::specs::Progress::ended, progress::specs::Progress::blank))]
pub fn scan(s: &[u8]) -> Result<Progress, Refusal>
    ensures { scan_of result ≡ query_scan s.now }
{
    fields::opening_code(s, 0x51, 1)?;
    let kind = term_kind(fields::byte(s, 5));
    let mut w = progress::start(6);
    terms::read_term(s, &mut w, kind, 16)?;
    progress::finish(s, Ok(w))
}

// The first refusal, where there is one.
#[tactic(auto, unfolding(progress::specs::Progress::blank))]
pub fn judge(s: &[u8]) -> Result<(), Refusal>
    ensures { code result ≡ query_code s.now }
{
    scan(s).map(|_| ())
}
