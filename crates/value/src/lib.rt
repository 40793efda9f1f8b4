// Values, the operators and reductions on them, and rows of values (document 01, "Meaning").
#![tactic(auto)]

ghost use Rattle.std.specs.Prelude.{◌≡◌, take};
ghost use Rattle.std.specs.List.{fold};
ghost use Rattle.value.specs.Value.{truth, beside_absent, operate, reduce, values, counts};
ghost use Rattle.value.specs.Steps.{Operates, Reduces, by_number, number_of, reduction_number, value_of};
ghost use Rattle.value.specs.Steps.{joining, so_far, join, step, finish, where_counts};

// "A value is a number or is absent." Kept: an enum of its own in place of Option, since its theorems name `Absent` and `Number`, and since a request gives it
// a third case, a number too large.
#[derive(Clone, Copy, Debug, PartialEq, Eq)]
pub enum Value {
    Absent,
    Number(u64),
}

// "an answer row holds one"
#[derive(Clone, Copy)]
pub struct Row {
    pub value: Value,
}

// What a reduction has met so far: no number yet, or the value of those met. A sum too large is Some(Absent), and stays so by its own rule (`step_of`),
// whatever operators give beside an absent operand.
pub type Partial = Option<Value>;

// What checked arithmetic gives: "a minus below zero, a division by zero, or a result too large" is absent.
impl From<Option<u64>> for Value {
    ghost from_gives = { λ o v. v ≡ value_of o };

    fn from(found: Option<u64>) -> Value {
        match found {
            Some(x) => Value::Number(x),
            None => Value::Absent,
        }
    }
}

// "Comparisons, and, or give 1 or 0"
impl From<bool> for Value {
    ghost from_gives = { λ b v. v ≡ truth b };

    fn from(b: bool) -> Value {
        Value::Number(u64::from(b))
    }
}

// "Operators: 1 min, 2 max, 3 plus, 4 minus, 5 times, 6 divide, 7 equal, 8 less, 9 greater, 10 and, 11 or"
#[derive(Clone, Copy)]
enum Operator {
    Min = 1,
    Max = 2,
    Plus = 3,
    Minus = 4,
    Times = 5,
    Divide = 6,
    Equal = 7,
    Less = 8,
    Greater = 9,
    And = 10,
    Or = 11,
}

// A number that is no operator's, or no reduction's.
#[derive(Clone, Copy)]
struct Unknown;

impl TryFrom<u8> for Operator {
    type Error = Unknown;

    ghost try_from_gives = { Operates };

    fn try_from(number: u8) -> Result<Self, Unknown> {
        match number {
            1 => Ok(Operator::Min),
            2 => Ok(Operator::Max),
            3 => Ok(Operator::Plus),
            4 => Ok(Operator::Minus),
            5 => Ok(Operator::Times),
            6 => Ok(Operator::Divide),
            7 => Ok(Operator::Equal),
            8 => Ok(Operator::Less),
            9 => Ok(Operator::Greater),
            10 => Ok(Operator::And),
            11 => Ok(Operator::Or),
            _ => Err(Unknown),
        }
    }
}

// An operator on two numbers.
#[tactic(auto, unfolding(crate::specs::Value::compute))]
fn compute(operator: Operator, x: u64, y: u64) -> Value
    ensures { result ≡ by_number operator x y }
{
    match operator {
        Operator::Min => Value::Number(x.min(y)),
        Operator::Max => Value::Number(x.max(y)),
        Operator::Plus => Value::from(x.checked_add(y)),
        Operator::Minus => Value::from(x.checked_sub(y)),
        Operator::Times => Value::from(x.checked_mul(y)),
        Operator::Divide => Value::from(x.checked_div(y)),
        Operator::Equal => Value::from(x == y),
        Operator::Less => Value::from(x < y),
        Operator::Greater => Value::from(x > y),
        Operator::And => Value::from(x != 0 && y != 0),
        Operator::Or => Value::from(x != 0 || y != 0),
    }
}

// With an absent operand: "operators min and max with one absent operand give the other operand"; any other gives absent.
fn beside_absent(operator: Operator, other: Value) -> Value
    ensures { result ≡ beside_absent (number_of operator) other }
{
    match operator {
        Operator::Min | Operator::Max => other,
        _ => Value::Absent,
    }
}

// An operator by its number, on two values; absent for a number that is no operator's.
#[tactic(auto, using(crate::proofs::Numbers::operate_unknown))]
pub fn operate_on(operator: u8, a: Value, b: Value) -> Value
    ensures { result ≡ operate operator a b }
{
    let Ok(operator) = Operator::try_from(operator) else {
        return Value::Absent;
    };
    match (a, b) {
        (Value::Number(x), Value::Number(y)) => compute(operator, x, y),
        (Value::Absent, other) => beside_absent(operator, other),
        (other, Value::Absent) => beside_absent(operator, other),
    }
}

// "Reductions: 1 min, 2 max, 3 sum, 4 and, 5 or"
#[derive(Clone, Copy, PartialEq, Eq)]
enum Reduction {
    Min = 1,
    Max = 2,
    Sum = 3,
    And = 4,
    Or = 5,
}

impl TryFrom<u8> for Reduction {
    type Error = Unknown;

    ghost try_from_gives = { Reduces };

    fn try_from(number: u8) -> Result<Self, Unknown> {
        match number {
            1 => Ok(Reduction::Min),
            2 => Ok(Reduction::Max),
            3 => Ok(Reduction::Sum),
            4 => Ok(Reduction::And),
            5 => Ok(Reduction::Or),
            _ => Err(Unknown),
        }
    }
}

// The operator that joins the numbers of a reduction.
impl From<Reduction> for Operator {
    ghost from_gives = { λ r o. number_of o ≡ joining (reduction_number r) };

    fn from(reduction: Reduction) -> Operator {
        match reduction {
            Reduction::Min => Operator::Min,
            Reduction::Max => Operator::Max,
            Reduction::Sum => Operator::Plus,
            Reduction::And => Operator::And,
            Reduction::Or => Operator::Or,
        }
    }
}

// What the next number x is joined to: the total of those before it, or, for the first, where the reduction begins: a sum at 0, any other at the number itself.
fn so_far_of(reduction: Reduction, partial: Partial, x: u64) -> Value
    ensures { result ≡ so_far (reduction_number reduction) partial x }
{
    let start = if reduction == Reduction::Sum { 0 } else { x };
    partial.unwrap_or(Value::Number(start))
}

// A total joined with the next number. A sum that is too large stays absent.
fn join(reduction: Reduction, total: Value, x: u64) -> Value
    ensures { result ≡ join (joining (reduction_number reduction)) total x }
{
    match total {
        Value::Number(y) => compute(Operator::from(reduction), y, x),
        Value::Absent => Value::Absent,
    }
}

// One more value of a reduction: "A reduction over places skips absent values". Of a number that is no reduction's nothing comes but absent.
#[tactic(auto, using(crate::proofs::Numbers::step_unknown))]
pub fn step_of(reduction: u8, partial: Partial, v: Value) -> Partial
    ensures { result ≡ step reduction partial v }
{
    let Value::Number(x) = v else {
        return partial;
    };
    let Ok(reduction) = Reduction::try_from(reduction) else {
        return Some(Value::Absent);
    };
    Some(join(reduction, so_far_of(reduction, partial, x), x))
}

// What a reduction has come to: "with none left it is absent".
pub fn finish_of(partial: Partial) -> Value
    ensures { result ≡ finish partial }
{
    partial.unwrap_or(Value::Absent)
}

// "A place counts where the condition is a number other than 0; an absent condition leaves the place out."
fn counts_by(condition: Value) -> bool
    ensures { result ≡ counts condition }
{
    let Value::Number(x) = condition else {
        return false;
    };
    x != 0
}

// The value of a place that counts; absent at another.
pub fn where_counts(condition: Value, v: Value) -> Value
    ensures { result ≡ where_counts condition v }
{
    if counts_by(condition) {
        v
    } else {
        Value::Absent
    }
}

// What a reduction has reached after the first n rows.
fn reached(reduction: u8, rows: &[Row], n: usize) -> Partial
    ensures { result ≡ fold (step reduction) None (values (take n rows.now)) }
{
    let first = rows.iter().take(n).map(|row| row.value);
    first.fold(None, |partial, v| step_of(reduction, partial, v))
}

// A reduction over the first n rows; over all where n is above.
#[tactic(auto, using(crate::proofs::Reduced::fold_reduced))]
pub fn reduce_rows(reduction: u8, rows: &[Row], n: usize) -> Value
    ensures { result ≡ reduce reduction (values (take n rows.now)) }
{
    finish_of(reached(reduction, rows, n))
}
