// What is refused: 25, by the length, by the records in turn and by those never named; then 26 for a graph, or 7 for values.
ghost use Rattle.std.specs.Prelude.{◌≡◌, true, List, [], ◌∷◌, ◌++◌, ◌≤◌, length, Ok};
ghost use Rattle.record.specs.ExpressionRecords.{expression_of};
ghost use Rattle.rules.specs.Expression.{most_terms, is_expression_length, good_term, check_expression, check_made, check_values, check_good_terms, check_named};
ghost use Rattle.expression.specs.Tables.{MarkedNamed, NamesInside};

use crate::{kind, numbers};
use record::codec::Decode;
use record::term::Term;
use record::{instruction, term};
use rules::answer::{Fault, Refusal};

// The most records of an expression.
pub const MOST: usize = 100;

fn good_length(len: usize) -> bool
    ensures { result ≡ is_expression_length len }
{
    1 <= len && buffer::whole(term::WIDTH, MOST, len)
}

// Whether record i is as it may be, where the table has what the records before it name.
#[tactic(auto, unfolding(rules::specs::Expression::good_term, rules::specs::Expression::good_operation))]
fn good_term(named: &[bool; MOST], i: usize, t: Term) -> bool
    requires { i ≤ most_terms }
    ensures { (earlier : List Term) → MarkedNamed earlier named.now → result ≡ good_term earlier i t }
{
    let left = t.left as usize;
    let right = t.right as usize;
    if t.zeros != 0 {
        return false;
    }
    if kind::is_variable(t) {
        return left == 0 && right == 0;
    }
    kind::operation_of(t).is_some()
        && (left < i && (right < i && (left != right && (!named[left] && !named[right]))))
}

// Adds what a record names to the table.
fn mark(named: &mut [bool; MOST], t: Term)
    requires { NamesInside t }
    ensures { (ts : List Term) → MarkedNamed ts named.old → MarkedNamed (ts ++ t ∷ []) named.new }
{
    if kind::is_variable(t) {
        return;
    }
    let left = t.left as usize;
    let right = t.right as usize;
    named[left] = true;
    named[right] = true;
}

// The first record with a bad field or naming one already named; the table then has what all name.
fn terms(expression: &[u8], named: &mut [bool; MOST]) -> Result<(), Fault>
    requires { (is_expression_length (length expression.now) ≡ true) × MarkedNamed [] named.old }
    ensures value { result ≡ check_good_terms (expression_of expression.now) }
    ensures marked_named { result ≡ Ok tt → MarkedNamed (expression_of expression.now) named.new }
{
    for i in 0..expression.len() / term::WIDTH {
        let t = Term::read(expression, i);
        if !good_term(named, i, t) {
            return Err(Refusal::BadExpression.at(i));
        }
        mark(named, t);
    }
    Ok(())
}

// The first record never named, of all but the last.
fn all_named(expression: &[u8], named: &[bool; MOST]) -> Result<(), Fault>
    requires { (is_expression_length (length expression.now) ≡ true) × MarkedNamed (expression_of expression.now) named.now }
    ensures { result ≡ check_named (expression_of expression.now) }
{
    let last = expression.len() / term::WIDTH - 1;
    for (j, &is_named) in named[0..last].iter().enumerate() {
        if !is_named {
            return Err(Refusal::BadExpression.at(j));
        }
    }
    Ok(())
}

fn check(expression: &[u8]) -> Result<(), Fault>
    ensures { result ≡ check_expression expression.now }
{
    if !good_length(expression.len()) {
        return Err(Refusal::BadExpression.at(0));
    }
    let mut named = [false; MOST];
    terms(expression, &mut named)?;
    all_named(expression, &named)
}

// For a graph with `room` bytes.
pub fn made(expression: &[u8], room: usize) -> Result<(), Fault>
    ensures { result ≡ check_made expression.now room }
{
    check(expression)?;
    if room < instruction::WIDTH * (expression.len() / term::WIDTH + 1) {
        return Err(Refusal::GraphTooLong.at(0));
    }
    Ok(())
}

// For values of `len` bytes.
pub fn values(expression: &[u8], len: usize) -> Result<(), Fault>
    ensures { result ≡ check_values expression.now len }
{
    check(expression)?;
    if len != numbers::variables(expression) * term::VALUE_WIDTH {
        return Err(Refusal::BadStore.at(0));
    }
    Ok(())
}
