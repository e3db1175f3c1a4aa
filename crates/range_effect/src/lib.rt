// The operation of a range run (02, R-11), over handles: what an instruction makes of the ranges for which its operands stand. All but CONST
// and the arithmetic is the plain operation, with a single cell number put in its place; 23 is asked before that.
#![tactic(auto)]

ghost use Rattle.std.specs.Prelude.{◌<◌, ◌≡◌, length};
ghost use Rattle.rules.specs.RangeSet.{is_undecided};
ghost use Rattle.abstraction.specs.Tables.{arrays_in};
ghost use Rattle.fire_effect.specs.Effects.{operated_of};
ghost use Rattle.range_effect.specs.Asked.{operand_of, new_ask, ask_of, AsksFor};

use arithmetic::Range;
use fire_effect::operate;
use fire_effect::operate::Action;
use range_table::RangeTable;
use record::operation::Operation;
use rules::answer::Refusal;

// 23: "a SWITCH control that may be zero or not".
#[tactic(auto, unfolding(rules::specs::RangeSet::is_undecided))]
fn undecided(control: Range) -> bool
    ensures { result ≡ is_undecided control }
{
    range_arithmetic::may_be_zero(control) && !range_arithmetic::is_single(control)
}

// The operand on port 0 with which the plain operation is asked, or none if the operand that decides it is undecided. A cell is named by the
// single number that its range is.
#[tactic(auto, unfolding(crate::specs::Asked::operand_of))]
fn operand(o: Operation, x: Range, y: Range, a: i32) -> Option<i32>
    ensures { result ≡ operand_of o x y a }
{
    match o {
        Operation::Switch => (!undecided(y)).then_some(a),
        Operation::Fetch | Operation::Store => range_arithmetic::is_single(x).then_some(x.low),
        _ => Some(a),
    }
}

// A new range, with the handle of the table's end; 12 if there is none.
fn anew(table: &mut RangeTable, made: Option<Range>) -> Result<Action, Refusal>
    requires { length table.old < 2050 }
    ensures { AsksFor result (new_ask table.old made) table.old table.new }
{
    let r = made.ok_or(Refusal::OutOfRange)?;
    Ok(Action::Send(table.add(r)))
}

// What an operation gives, with its constant k and the handles a and b on ports 0 and 1.
pub fn operate(
    tables: &[u16],
    table: &mut RangeTable,
    o: Operation,
    k: i32,
    cells: usize,
    a: i32,
    b: i32,
) -> Result<Action, Refusal>
    requires { length table.old < 2050 }
    ensures { AsksFor result (ask_of o (arrays_in tables.now) k cells table.old a b) table.old table.new }
{
    let x = table.meaning(a);
    let y = table.meaning(b);
    // The operation is data of the graph: a match, and no table of functions, which would hand out function pointers.
    match o {
        Operation::Const => anew(table, Some(Range { low: k, high: k })),
        Operation::OnTwo(op) => anew(table, range_arithmetic::range(op, x, y)),
        Operation::OnConstant(op) => anew(
            table,
            range_arithmetic::range(op, x, Range { low: k, high: k }),
        ),
        // One call, which the compiler makes part of the firing.
        _ => {
            let a = operand(o, x, y, a).ok_or(Refusal::Undecided)?;
            operate::operate(tables, o, k, cells, a, b)
        }
    }
}
