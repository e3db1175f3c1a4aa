// What a record of an expression is: a variable, or an operation on two records before it.
ghost use Rattle.std.specs.Prelude.{◌≡◌};
ghost use Rattle.rules.specs.Expression.{is_variable};
ghost use Rattle.expression.specs.Tables.{OperationOf};

use record::operation::{Arithmetic, Operation};
use record::term::Term;

pub fn is_variable(t: Term) -> bool
    ensures { result ≡ is_variable t }
{
    t.kind == 0
}

// None for a kind that no operation has.
pub fn operation_of(t: Term) -> Option<Arithmetic>
    ensures { OperationOf t result }
{
    match Operation::from(t.kind) {
        Operation::OnTwo(op) => Some(op),
        _ => None,
    }
}
