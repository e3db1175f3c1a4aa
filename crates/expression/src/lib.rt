// From an expression to a graph (02, R-14): the graph of an expression, and its value, with which a user compares what the
// run of that graph gives.
#![tactic(auto)]

mod check;
mod evaluate;
mod kind;
mod numbers;
mod put;

ghost use Rattle.std.specs.Prelude.{◌≡◌};
ghost use Rattle.rules.specs.Expression.{MadeFrom, evaluated};

use record::term;
use rules::answer::{Fault, Refusal};

// Writes the graph of an expression from the output's start; bytes behind it stay as lent, and all do where it is refused.
pub fn to_graph(expression: &[u8], graph: &mut [u8]) -> Result<usize, Fault>
    ensures { MadeFrom expression.now result graph.old graph.new }
{
    check::made(expression, graph.len())?;
    put::write(expression, graph);
    Ok(expression.len() / term::WIDTH + 1)
}

// The value of an expression, of the values of its variables, 4 bytes each in record order.
pub fn value(expression: &[u8], values: &[u8]) -> Result<i32, Fault>
    ensures { result ≡ evaluated expression.now values.now }
{
    check::values(expression, values.len())?;
    evaluate::whole(expression, values).ok_or(Refusal::OutOfRange.at(0))
}
