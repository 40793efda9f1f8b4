// The tally of document 01: how many runs were asked for, answered and refused.
#![tactic(auto)]

ghost use Rattle.std.specs.Prelude.{◌≡◌};
ghost use Rattle.counters.specs.Counted.{counted_by};

// "at its greatest"
const MOST: u64 = u64::MAX;

// The tally: "asked, answered, refused, 64 bits each".
#[derive(Clone, Copy, Debug, PartialEq, Eq)]
pub struct Counters {
    pub asked: u64,
    pub answered: u64,
    pub refused: u64,
}

// The counters after one more run, done or refused.
#[tactic(auto, unfolding(crate::specs::Counted::counted_by))]
pub fn counted(c: Counters, done: bool) -> Counters
    ensures { result ≡ counted_by c done }
{
    if c.asked == MOST || c.answered == MOST || c.refused == MOST {
        return c;
    }
    let asked = c.asked + 1;
    if done {
        Counters {
            asked,
            answered: c.answered + 1,
            ..c
        }
    } else {
        Counters {
            asked,
            refused: c.refused + 1,
            ..c
        }
    }
}
