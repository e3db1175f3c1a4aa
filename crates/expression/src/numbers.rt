// The instruction of each record: variables first, then operations, both in record order.
ghost use Rattle.std.specs.Prelude.{◌≡◌, cond, [], ◌∷◌, ◌+◌, ◌-◌, ◌/◌, ◌≤◌, length, Ok};
ghost use Rattle.record.specs.ExpressionRecords.{expression_of};
ghost use Rattle.record.specs.Widths.{term_width};
ghost use Rattle.rules.specs.Expression.{is_variable, count, check_expression};
ghost use Rattle.expression.specs.Tables.{NumberedRecords};

use crate::check::MOST;
use crate::kind;
use record::codec::Decode;
use record::term;
use record::term::Term;

// 1 for a variable.
fn variable_of(t: Term) -> usize
    ensures { (result ≡ count is_variable (t ∷ [])) × (result ≤ 1) }
{
    usize::from(kind::is_variable(t))
}

// How many variables there are.
pub fn variables(expression: &[u8]) -> usize
    ensures { (result ≡ count is_variable (expression_of expression.now)) × (result ≤ length expression.now / term_width) }
{
    let mut n = 0;
    for i in 0..expression.len() / term::WIDTH {
        n += variable_of(Term::read(expression, i));
    }
    n
}

// The instruction of record i, which `before` of the n variables come before.
fn number_of(t: Term, before: usize, i: usize, n: usize) -> usize
    requires { (before ≤ i) × (n + i ≤ 200) }
    ensures { (result ≡ cond (is_variable t) before (n + (i - before))) × (result ≤ n + i) }
{
    if kind::is_variable(t) {
        before
    } else {
        n + (i - before)
    }
}

// By number: a record, and its entry in the table.
pub fn numbers(expression: &[u8]) -> [u16; MOST]
    requires { check_expression expression.now ≡ Ok tt }
    ensures { NumberedRecords expression.now result }
{
    let n = variables(expression);
    let mut numbers = [0u16; MOST];
    let mut before = 0;
    for i in 0..expression.len() / term::WIDTH {
        let t = Term::read(expression, i);
        numbers[i] = number_of(t, before, i, n) as u16;
        before += variable_of(t);
    }
    numbers
}
