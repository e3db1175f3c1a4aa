// The value of an expression, by recursion on a falling record number.
ghost use Rattle.std.specs.Prelude.{◌≡◌, ◌/◌, ◌<◌, length, get_or, pos, Ok};
ghost use Rattle.record.specs.ExpressionRecords.{expression_of};
ghost use Rattle.record.specs.Widths.{value_width};
ghost use Rattle.rules.specs.Expression.{combined, variables_of, is_variable, count, value_at, expression_value, check_values};
ghost use Rattle.expression.specs.Tables.{NumberedRecords};

use crate::check::MOST;
use crate::{kind, numbers};
use record::codec::Decode;
use record::operation::Arithmetic;
use record::term;
use record::term::Term;

// What is out of range stays so.
fn combine(op: Arithmetic, left: Option<i32>, right: Option<i32>) -> Option<i32>
    ensures { result ≡ combined op left right }
{
    arithmetic::compute(op, left?, right?)
}

// The value of variable k.
fn variable(values: &[u8], k: usize) -> i32
    requires { k < length values.now / value_width }
    ensures { result ≡ get_or (variables_of values.now) k (pos 0) }
{
    number::signed(number::u32_at(buffer::row_at(values, term::VALUE_WIDTH, k), 0))
}

// The value of record i.
fn value_at(expression: &[u8], numbers: &[u16; MOST], values: &[u8], i: usize) -> Option<i32>
    requires { NumberedRecords expression.now numbers.now × (i < length (expression_of expression.now))
        × (length values.now / value_width ≡ count is_variable (expression_of expression.now)) }
    ensures { result ≡ value_at (expression_of expression.now) (variables_of values.now) i }
{
    let t = Term::read(expression, i);
    if kind::is_variable(t) {
        return Some(variable(values, numbers[i] as usize));
    }
    let left = value_at(expression, numbers, values, t.left as usize);
    let right = value_at(expression, numbers, values, t.right as usize);
    combine(kind::operation_of(t)?, left, right)
}

// The value of the last record.
pub fn whole(expression: &[u8], values: &[u8]) -> Option<i32>
    requires { check_values expression.now (length values.now) ≡ Ok tt }
    ensures { result ≡ expression_value (expression_of expression.now) (variables_of values.now) }
{
    let numbers = numbers::numbers(expression);
    value_at(
        expression,
        &numbers,
        values,
        expression.len() / term::WIDTH - 1,
    )
}
