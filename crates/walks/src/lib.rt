// The table of keys (document 01, "Layouts"). The theory of walks and rounds stands in specs/ and proofs/.
#![tactic(auto)]

ghost use Rattle.std.specs.Prelude.{◌≡◌};
ghost use Rattle.walks.specs.Keys.{key_row, known};

// The value of a walk that a key looks at.
#[derive(Clone, Copy)]
pub enum Measure {
    // "passages walked"
    Edges,
    // "seconds added up"
    Weight,
    // "starting place"
    Source,
    // "smallest crate size"
    Bottleneck,
}

// Which value of a walk is kept.
#[derive(Clone, Copy)]
pub enum Extreme {
    Least,
    Greatest,
}

// A key: the figure used, which is kept, and whether it may stand before the last key.
#[derive(Clone, Copy)]
pub struct KeyRow {
    pub measure: Measure,
    pub kept: Extreme,
    pub early: bool,
}

pub const KEYS: [KeyRow; 6] = [
    KeyRow {
        measure: Measure::Edges,
        kept: Extreme::Least,
        early: true,
    },
    KeyRow {
        measure: Measure::Weight,
        kept: Extreme::Least,
        early: true,
    },
    KeyRow {
        measure: Measure::Source,
        kept: Extreme::Least,
        early: true,
    },
    KeyRow {
        measure: Measure::Source,
        kept: Extreme::Greatest,
        early: true,
    },
    KeyRow {
        measure: Measure::Bottleneck,
        kept: Extreme::Greatest,
        early: false,
    },
    KeyRow {
        measure: Measure::Bottleneck,
        kept: Extreme::Least,
        early: false,
    },
];

// Stands for a number that is no key's. Kept, in place of an Option: `key_row` of specs/Keys, whose columns (`measure`, `kept`, `early`) the theorems speak of,
// has a row for every number.
const NO_KEY: KeyRow = KeyRow {
    measure: Measure::Edges,
    kept: Extreme::Least,
    early: false,
};

// Is there a key of this number?
pub fn known_key(key: u8) -> bool
    ensures { result ≡ known key }
{
    (1..=6).contains(&key)
}

// The row of a key, counted from 1; NO_KEY for a number that is no key's.
#[tactic(auto, using(crate::proofs::Keys::row_none, crate::proofs::Keys::row_at))]
pub fn key_row(key: u8) -> KeyRow
    ensures { result ≡ key_row key }
{
    let Some(place) = key.checked_sub(1) else {
        return NO_KEY;
    };
    KEYS.get(usize::from(place)).copied().unwrap_or(NO_KEY)
}
