// The value of a path reduction by walking outright, for tests: all walks to a vertex, of at most so many edges, are walked from
// their end backwards, once for each key. Written from document 01, "Meaning", and document 02, b, alone; it has no rounds and no table
// of figures.
#![tactic(auto)]

ghost use Rattle.std.specs.Prelude.{◌≡◌, ◌+◌, ◌*◌, ◌≤◌, ◌<◌};
ghost use Rattle.walked.specs.Walked as spec;
ghost use Rattle.walked.specs.Steps as steps;

use value::Value;

// A path reduction (document 01: chain): the first `count` of the keys, and the first `starts` of the sources, "a set count (0 for
// anywhere) and its starts" (document 02, b). Kept: arrays with a count beside, since there is no heap.
#[derive(Clone, Copy)]
pub struct PathReduction {
    pub keys: [u8; 3],
    pub count: usize,
    pub sources: [u16; 16],
    pub starts: usize,
}

// A key of the table, by its number: "value of a walk", and which is "kept".
#[derive(Clone, Copy)]
enum Key {
    LeastEdges = 1,
    LeastWeight = 2,
    LeastSource = 3,
    GreatestSource = 4,
    GreatestCapacity = 5,
    LeastCapacity = 6,
}

// A number that is no key's, which no legal question has, is as 6.
impl From<u8> for Key {
    ghost from_gives = { steps.IsKey };

    fn from(number: u8) -> Key {
        match number {
            1 => Key::LeastEdges,
            2 => Key::LeastWeight,
            3 => Key::LeastSource,
            4 => Key::GreatestSource,
            5 => Key::GreatestCapacity,
            _ => Key::LeastCapacity,
        }
    }
}

// "A walk is a run of passages": where it starts, how many they are, their seconds added up, and the smallest crate size.
#[derive(Clone, Copy)]
pub struct Walk {
    pub source: u16,
    pub edges: u64,
    pub weight: u64,
    pub capacity: u64,
}

// The walks kept so far: those with the figures `best` in the first `passed` keys. The next key is to be judged.
#[derive(Clone, Copy)]
pub struct Kept {
    pub path: PathReduction,
    pub best: [u64; 3],
    pub passed: usize,
}

// No walk of more edges is walked.
const MOST: usize = 64;

// "The walk of no passages exists at each place; its crate size is 65,535."
fn standing(vertex: u16) -> Walk
    ensures { result ≡ spec.standing vertex }
{
    Walk {
        source: vertex,
        edges: 0,
        weight: 0,
        capacity: 65535,
    }
}

// A walk with one edge more before it.
fn longer(w: Walk, from: u16, weight: u16, capacity: u16) -> Walk
    requires { (w.edges ≤ 64) × (w.weight ≤ 65535 * w.edges) }
    ensures { (result ≡ spec.longer w from weight capacity) × (result.weight ≤ 65535 * result.edges) }
{
    Walk {
        source: from,
        edges: w.edges + 1,
        weight: w.weight + u64::from(weight),
        capacity: w.capacity.min(u64::from(capacity)),
    }
}

// "Value of a walk" in the table of keys.
#[tactic(auto, unfolding(crate::specs::Walked::figure_of))]
fn figure_of(key: u8, w: Walk) -> u64
    ensures { result ≡ spec.figure_of key w }
{
    match Key::from(key) {
        Key::LeastEdges => w.edges,
        Key::LeastWeight => w.weight,
        Key::LeastSource | Key::GreatestSource => u64::from(w.source),
        Key::GreatestCapacity | Key::LeastCapacity => w.capacity,
    }
}

// "Kept": the greatest of keys 4 and 5, the least of every other.
#[tactic(auto, unfolding(crate::specs::Walked::beats))]
fn beats(key: u8, x: u64, y: u64) -> bool
    ensures { result ≡ spec.beats key x y }
{
    match Key::from(key) {
        Key::GreatestSource | Key::GreatestCapacity => y < x,
        _ => x < y,
    }
}

// The better of what was found before and a walk's figure.
#[tactic(auto, unfolding(crate::specs::Walked::better))]
fn better(key: u8, found: Value, figure: u64) -> Value
    ensures { result ≡ spec.better key found figure }
{
    match found {
        Value::Number(x) if !beats(key, figure, x) => found,
        _ => Value::Number(figure),
    }
}

// Has the walk the best figure of each key before the one to be judged?
fn is_kept(k: Kept, w: Walk) -> bool
    requires { k.passed < 3 }
    ensures { result ≡ steps.is_kept k w }
{
    for i in 0..k.passed {
        if figure_of(k.path.keys[i], w) != k.best[i] {
            return false;
        }
    }
    true
}

// "A walk may begin at any of them" (document 02, b), or anywhere where there are none.
fn may_start(path: PathReduction, w: Walk) -> bool
    ensures { result ≡ spec.may_start (spec.sources_of path) w }
{
    let sources = &path.sources[..path.starts.min(16)];
    sources.is_empty() || sources.contains(&w.source)
}

// What is found with the walk w: its figure counts where it may start there and is kept so far.
#[tactic(auto, unfolding(crate::specs::Steps::judged))]
fn judged(k: Kept, found: Value, w: Walk) -> Value
    requires { k.passed < 3 }
    ensures { result ≡ steps.judged k found w }
{
    if may_start(k.path, w) && is_kept(k, w) {
        let key = k.path.keys[k.passed];
        return better(key, found, figure_of(key, w));
    }
    found
}

// The best figure of the next key over `found` and all walks that end with w, with at most `left` edges before it: w itself, and for
// each edge that ends where w starts the walks that end with it and w. A row is four numbers: from, to, seconds, crate size.
fn best_of(rows: &[u16], k: Kept, w: Walk, left: usize, found: Value) -> Value
    requires { (k.passed < 3) × (w.edges + left ≤ 64) × (w.weight ≤ 65535 * w.edges) }
    ensures { result ≡ steps.best_of rows.now k w left found }
{
    let mut best = judged(k, found, w);
    if left == 0 {
        return best;
    }
    for i in 0..rows.len() / 4 {
        let j = 4 * i;
        if rows[j + 1] != w.source {
            continue;
        }
        let more = longer(w, rows[j], rows[j + 2], rows[j + 3]);
        best = best_of(rows, k, more, left - 1, best);
    }
    best
}

// The figures of a path reduction at a vertex over all walks of at most `most` edges, where there is one: key by key, the best among the
// walks kept so far, 0 for a key that is not there.
fn figures_at(rows: &[u16], path: PathReduction, vertex: u16, most: usize) -> Option<[u64; 3]>
    ensures { result ≡ spec.figures_at rows.now path vertex most }
{
    let mut best = [0u64; 3];
    for passed in 0..path.count.min(3) {
        let k = Kept { path, best, passed };
        let found = best_of(rows, k, standing(vertex), most.min(MOST), Value::Absent);
        let Value::Number(x) = found else {
            return None;
        };
        best[passed] = x;
    }
    Some(best)
}

// "its value is the last key's. With no walk it is absent."
pub fn value_at(rows: &[u16], path: PathReduction, vertex: u16, most: usize) -> Value
    ensures { result ≡ spec.value_at rows.now path vertex most }
{
    let Some(figures) = figures_at(rows, path, vertex, most) else {
        return Value::Absent;
    };
    let count = path.count.min(3);
    if 0 < count {
        Value::Number(figures[count - 1])
    } else {
        Value::Absent
    }
}

// "each figure of [a] chain at each place is the same over walks of at most r passages as over walks of at most r - 1", r = before + 1.
pub fn unchanged(rows: &[u16], n: u16, path: PathReduction, before: usize) -> bool
    ensures { result ≡ spec.unchanged rows.now n path before }
{
    let few = before.min(MOST);
    for v in 0..n {
        let a = figures_at(rows, path, v, few);
        let b = figures_at(rows, path, v, few + 1);
        if a != b {
            return false;
        }
    }
    true
}
