// Signed 32-bit arithmetic: what an operation gives of two operands; None where that is out of range.
#![tactic(auto)]

ghost use Rattle.std.specs.Prelude.{◌≡◌};
ghost use Rattle.arithmetic.specs.Arithmetic.{compute_of, ranged};

use record::operation::Arithmetic;

// The values from low to high.
#[derive(Clone, Copy)]
pub struct Range {
    pub low: i32,
    pub high: i32,
}

// A 64-bit result as a 32-bit one, where it fits.
pub fn narrowed(z: i64) -> Option<i32>
    ensures { result ≡ ranged z }
{
    i32::try_from(z).ok()
}

fn add(a: i32, b: i32) -> Option<i32>
    ensures { result ≡ compute_of Arithmetic.Add a b }
{
    a.checked_add(b)
}

fn sub(a: i32, b: i32) -> Option<i32>
    ensures { result ≡ compute_of Arithmetic.Sub a b }
{
    a.checked_sub(b)
}

fn mul(a: i32, b: i32) -> Option<i32>
    ensures { result ≡ compute_of Arithmetic.Mul a b }
{
    a.checked_mul(b)
}

fn div(a: i32, b: i32) -> Option<i32>
    ensures { result ≡ compute_of Arithmetic.Div a b }
{
    a.checked_div(b)
}

// Divided by -1, any number leaves 0; `checked_rem` gives None for the least one.
fn rem(a: i32, b: i32) -> Option<i32>
    ensures { result ≡ compute_of Arithmetic.Rem a b }
{
    if b == 0 {
        return None;
    }
    if b == -1 {
        return Some(0);
    }
    Some(a % b)
}

fn lt(a: i32, b: i32) -> Option<i32>
    ensures { result ≡ compute_of Arithmetic.Lt a b }
{
    Some(i32::from(a < b))
}

fn le(a: i32, b: i32) -> Option<i32>
    ensures { result ≡ compute_of Arithmetic.Le a b }
{
    Some(i32::from(a <= b))
}

fn eq(a: i32, b: i32) -> Option<i32>
    ensures { result ≡ compute_of Arithmetic.Eq a b }
{
    Some(i32::from(a == b))
}

// The operation is data of the graph: a match over all eight, and no table of functions, which would hand out function pointers.
pub fn compute(op: Arithmetic, a: i32, b: i32) -> Option<i32>
    ensures { result ≡ compute_of op a b }
{
    match op {
        Arithmetic::Add => add(a, b),
        Arithmetic::Sub => sub(a, b),
        Arithmetic::Mul => mul(a, b),
        Arithmetic::Div => div(a, b),
        Arithmetic::Rem => rem(a, b),
        Arithmetic::Lt => lt(a, b),
        Arithmetic::Le => le(a, b),
        Arithmetic::Eq => eq(a, b),
    }
}
