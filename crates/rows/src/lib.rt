// The answer of a run (document 01, "an answer row holds one"), from the bytes of an accepted plan and the table of figures that the run has left.
#![tactic(auto)]

ghost use Rattle.std.specs.Prelude.{◌≡◌, ◌+◌, ◌*◌, ◌%◌, ◌≤◌, ◌<◌, min, length, get_or};
ghost use Rattle.value.specs.Value.{reduce, values};
ghost use Rattle.wire.specs.Refusal.{number_of};
ghost use Rattle.wire.specs.Wire.{Returned};
ghost use Rattle.answer.specs.Answer.{answer_reply};
ghost use Rattle.eval.specs.Steps.{body_found, entry_end, entry_found, entry_rows, final_found, lone_in, slot_number};
ghost use Rattle.table.specs.Table.{value_in};
ghost use Rattle.rows.specs.Steps.{many, padded, rows_at, used_slots};

use eval::Found;
use value::{Row, Value};
use wire::Refusal;

// The slots of the path reductions in use; behind them 8, which is no slot: so a leaf is judged by its slot alone.
#[tactic(auto, using(crate::proofs::Laws::used_laid))]
fn slots_used(slots: [usize; 8], paths: usize) -> [usize; 8]
    ensures { result ≡ used_slots slots paths }
{
    let mut used = [8usize; 8];
    let count = paths.min(8);
    used[..count].copy_from_slice(&slots[..count]);
    used
}

// The bytes of an accepted plan, the table of figures that a run has left of n vertices, and the slot of each path reduction there, 8 for none.
// Kept: slots as numbers, 8 for none, as `write` is lent them and `eval::entry` promises of them (`rows_in`).
#[derive(Clone, Copy)]
struct Body<'a> {
    plan: &'a [u8],
    figures: &'a [u64],
    slots: &'a [usize; 8],
    n: u16,
    ghost some_vertex: { 0 < n },
    ghost few_vertices: { n ≤ 256 },
}

impl Body<'_> {
    // The value in a slot at the vertex v.
    #[tactic(auto, unfolding(table::specs::Table::value_in))]
    fn value_at(&self, slot: usize, v: usize) -> Value
        requires { (slot < 8) × (v < 256) }
        ensures { result ≡ value_in self.now.figures.now slot v }
    {
        match self.figures.get(32 + 8 * v + slot) {
            None | Some(0) => Value::Absent,
            Some(word) => Value::Number(word - 1),
        }
    }

    // The entry at `at`, at the vertex v: the value in its slot `lone` where it is one leaf; else its leaves are the eight words of the vertex, as far as the
    // table goes.
    fn entry_at(&self, at: usize, lone: Option<usize>, v: usize) -> Found
        requires { (slot_number lone ≡ lone_in self.now.plan.now self.now.slots.now at) × (v < 256) }
        ensures { (result.value ≡ entry_found self.now.plan.now (rows_at self.now.figures.now self.now.slots.now 8 v) at)
            × (result.next ≡ entry_end self.now.plan.now at) }
    {
        match lone {
            Some(slot) if slot < 8 => Found {
                value: self.value_at(slot, v),
                next: at + 3,
            },
            _ => {
                let from = (32 + 8 * v).min(self.figures.len());
                let to = (from + 8).min(self.figures.len());
                eval::entry(self.plan, &self.figures[from..to], self.slots, at)
            }
        }
    }

    // The entry at `at`, at each of the n vertices: in an array of sixteen a small map does not pay for 256.
    // Kept: arrays with absent rows behind the n, and no Vec: no heap.
    #[tactic(auto, using(crate::proofs::Laws::entry_filled, crate::proofs::Laws::entry_next))]
    fn entry_rows<const N: usize>(&self, at: usize) -> [Row; N]
        requires { self.now.n ≤ N }
        ensures { result ≡ padded N (entry_rows self.now.plan.now at (rows_at self.now.figures.now self.now.slots.now 8) self.now.n) }
    {
        let mut rows = [Row {
            value: Value::Absent,
        }; N];
        let lone = eval::lone_slot(self.plan, self.slots, at);
        for v in 0..usize::from(self.n) {
            let found = self.entry_at(at, lone, v);
            rows[v] = Row { value: found.value };
        }
        rows
    }

    // The answer of kind 0, of the entry at `at`.
    #[tactic(auto, using(crate::proofs::Laws::array_written))]
    fn write_rows(&self, at: usize, rounds: u16, out: &mut [u8]) -> Result<u16, Refusal>
        ensures { Returned (answer_reply self.now.n rounds 0
            (values (entry_rows self.now.plan.now at (rows_at self.now.figures.now self.now.slots.now 8) self.now.n)) (length out.old)) (number_of result)
            out.old out.new }
    {
        if self.n <= 16 {
            let rows: [Row; 16] = self.entry_rows(at);
            return answer::write(self.n, rounds, 0, &rows, out);
        }
        let rows: [Row; 256] = self.entry_rows(at);
        answer::write(self.n, rounds, 0, &rows, out)
    }

    // The result of the entry whose reduction byte stands at `at`, value by value, and where the entry ends: any vertex tells.
    #[tactic(auto, using(crate::proofs::Laws::reached_none, crate::proofs::Laws::reached_next, crate::proofs::Laws::reached_all))]
    fn result_of(&self, at: usize) -> Found
        ensures { (result.value ≡ reduce (get_or self.now.plan.now at 0 % 128)
            (values (entry_rows self.now.plan.now at (rows_at self.now.figures.now self.now.slots.now 8) self.now.n)))
            × (result.next ≡ entry_end self.now.plan.now at) }
    {
        let reduction = wire::byte(self.plan, at) % 128;
        let mut partial = None;
        let mut next = at;
        let lone = eval::lone_slot(self.plan, self.slots, at);
        for u in 0..usize::from(self.n) {
            let found = self.entry_at(at, lone, u);
            partial = value::step_of(reduction, partial, found.value);
            next = found.next;
        }
        Found {
            value: value::finish_of(partial),
            next,
        }
    }

    // The final expression over the results of the e entries from `at` on.
    fn final_of(&self, at: usize, e: usize) -> Value
        requires { e ≤ 8 }
        ensures { result ≡ final_found e self.now.plan.now at (rows_at self.now.figures.now self.now.slots.now 8) self.now.n }
    {
        // Kept: a number's word and its slot beside, 8 for none, as `eval::evaluate` promises of its leaves (`rows_in`).
        let mut words = [0u64; 8];
        let mut places = [8usize; 8];
        let mut next = at;
        for k in 0..e {
            let result = self.result_of(next);
            if let Value::Number(x) = result.value {
                words[k] = x;
                places[k] = k;
            }
            next = result.next;
        }
        eval::evaluate(self.plan, &words, &places, 0, next, 16).value
    }
}

// The answer of the plan's body, of the figures at n vertices, as `answer::write` gives it: by its kind the rows of the one entry, or one. What is refused is
// refused before any value is known; all rows stand in an array before the answer is written.
pub fn write(
    plan: &[u8],
    figures: &[u64],
    slots: [usize; 8],
    paths: usize,
    n: u16,
    rounds: u16,
    out: &mut [u8],
) -> Result<u16, Refusal>
    ensures { Returned (answer_reply n rounds (get_or plan.now 5 0)
        (values (many (body_found plan.now (rows_at figures.now slots paths) (min n 256)))) (length out.old)) (number_of result)
        out.old out.new }
{
    let kind = wire::byte(plan, 5);
    answer::judge(n, kind, out.len())?;
    let used = slots_used(slots, paths);
    let body = Body {
        plan,
        figures,
        slots: &used,
        n,
    };
    let at = plan::count_at(plan);
    if kind == 0 {
        return body.write_rows(at + 1, rounds, out);
    }
    let e = usize::from(wire::byte(plan, at)).min(8);
    let value = body.final_of(at + 1, e);
    answer::write(n, rounds, kind, &[Row { value }], out)
}
