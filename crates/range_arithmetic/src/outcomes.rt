// What an operation gives of two numbers, whatever its size: 64 bits hold it.
ghost use Rattle.std.specs.Prelude.{◌≡◌, ◌+ℤ◌, ◌-ℤ◌, ◌*ℤ◌};
ghost use Rattle.std.specs.Int.Signed.{quot_z, rem_z, lt_z, le_z};
ghost use Rattle.arithmetic.specs.Arithmetic.{eq_z};
ghost use Rattle.arithmetic.specs.Ranges.{truth_value};
ghost use Rattle.arithmetic.specs.Ranges as Ranges;

use record::operation::Arithmetic;

// The library's min and max; the clauses say them as the definitions `smaller` and `larger` do, which go by `le_z`, where the library's go by `lt_z`.
pub fn smaller(x: i64, y: i64) -> i64
    ensures { result ≡ Ranges.smaller x y }
{
    x.min(y)
}

pub fn larger(x: i64, y: i64) -> i64
    ensures { result ≡ Ranges.larger x y }
{
    x.max(y)
}

fn sum(x: i32, y: i32) -> i64
    ensures { result ≡ x +ℤ y }
{
    i64::from(x) + i64::from(y)
}

fn difference(x: i32, y: i32) -> i64
    ensures { result ≡ x -ℤ y }
{
    i64::from(x) - i64::from(y)
}

fn product(x: i32, y: i32) -> i64
    ensures { result ≡ x *ℤ y }
{
    i64::from(x) * i64::from(y)
}

// By 0 it is of no account.
fn quotient(x: i32, y: i32) -> i64
    ensures { result ≡ quot_z x y }
{
    if y == 0 {
        return 0;
    }
    (x as i64) / (y as i64)
}

fn remainder(x: i32, y: i32) -> i64
    ensures { result ≡ rem_z x y }
{
    if y == 0 {
        return x as i64;
    }
    (x as i64) % (y as i64)
}

pub fn truth(t: bool) -> i64
    ensures { result ≡ truth_value t }
{
    i64::from(t)
}

// The operation is data of the graph: a match, and no table of functions, which would hand out function pointers.
#[tactic(auto, unfolding(arithmetic::specs::Ranges::outcome))]
pub fn outcome(op: Arithmetic, x: i32, y: i32) -> i64
    ensures { result ≡ Ranges.outcome op x y }
{
    match op {
        Arithmetic::Add => sum(x, y),
        Arithmetic::Sub => difference(x, y),
        Arithmetic::Mul => product(x, y),
        Arithmetic::Div => quotient(x, y),
        Arithmetic::Rem => remainder(x, y),
        Arithmetic::Lt => truth(x < y),
        Arithmetic::Le => truth(x <= y),
        Arithmetic::Eq => truth(x == y),
    }
}
