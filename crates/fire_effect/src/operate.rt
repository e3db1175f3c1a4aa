// The operation: what an instruction makes of its operands, wherever its tokens go.
ghost use Rattle.std.specs.Prelude.{◌≡◌, get_or};
ghost use Rattle.rules.specs.InstructionSet.{number_in, array_at, cell_number};
ghost use Rattle.abstraction.specs.Tables.{arrays_in};
ghost use Rattle.fire_effect.specs.Effects.{named_of, on_named, on_computed, operated_of};

use record::array::NamedArray;
use record::operation::Operation;
use rules::answer::Refusal;

// What an instruction does beside spending its operands.
#[derive(Clone, Copy)]
pub enum Action {
    // A value to each output.
    Send(i32),
    // A cell's value to each output.
    Read(u32),
    // A value to a cell, and a signal to each output.
    Write(u32, i32),
}

// 12: "result past 32 signed bits, or divisor 0".
fn computed(c: Option<i32>) -> Result<Action, Refusal>
    ensures { result ≡ on_computed c }
{
    let v = c.ok_or(Refusal::OutOfRange)?;
    Ok(Action::Send(v))
}

// The cell that an operand names, if there is one. 10: "cell number outside 0 to count minus 1".
fn cell_of(a: i32, cells: usize) -> Option<u32>
    ensures { result ≡ named_of cells a }
{
    if a < 0 {
        return None;
    }
    let c = a as u32;
    if (c as usize) < cells { Some(c) } else { None }
}

// The cell that an index names in an array. 02, R-10: "index 1 is its first cell, and an index below 1 or
// past the length is refused by 10".
fn cell_in(first: u16, length: u16, index: i32, cells: usize) -> Option<u32>
    ensures { result ≡ named_of cells (number_in (record { first = first; length = length }) index) }
{
    if index < 1 {
        return None;
    }
    let i = index as usize;
    if (length as usize) < i {
        return None;
    }
    let c = (first as usize) + i - 1;
    if c < cells { Some(c as u32) } else { None }
}

// Entry i of the tables of a run.
fn entry(tables: &[u16], i: usize) -> u16
    ensures { result ≡ get_or tables.now i 0 }
{
    *tables.get(i).unwrap_or(&0)
}

// Array n of those tables, counted from 0: past the last stands one of no cells.
fn array_of(tables: &[u16], n: usize) -> NamedArray
    ensures { result ≡ array_at (arrays_in tables.now) n }
{
    let count = entry(tables, 256) as usize;
    if n < count {
        NamedArray {
            first: entry(tables, n * 2 + 257),
            length: entry(tables, n * 2 + 258),
        }
    } else {
        NamedArray {
            first: 0,
            length: 0,
        }
    }
}

// The cell that an operand names by a constant k: in the whole store if k is 0, else in array k, counted
// from 1.
fn cell_by(tables: &[u16], k: i32, a: i32, cells: usize) -> Option<u32>
    ensures { result ≡ named_of cells (cell_number (arrays_in tables.now) k a) }
{
    if k < 0 {
        return None;
    }
    if k < 1 {
        return cell_of(a, cells);
    }
    let array = array_of(tables, (k as usize) - 1);
    cell_in(array.first, array.length, a, cells)
}

fn fetch(tables: &[u16], k: i32, a: i32, cells: usize) -> Result<Action, Refusal>
    ensures { result ≡ on_named (named_of cells (cell_number (arrays_in tables.now) k a)) (λ c. Action.Read c) }
{
    let c = cell_by(tables, k, a, cells).ok_or(Refusal::NoSuchCell)?;
    Ok(Action::Read(c))
}

fn store(tables: &[u16], k: i32, a: i32, b: i32, cells: usize) -> Result<Action, Refusal>
    ensures { result ≡ on_named (named_of cells (cell_number (arrays_in tables.now) k a)) (λ c. Action.Write c b) }
{
    let c = cell_by(tables, k, a, cells).ok_or(Refusal::NoSuchCell)?;
    Ok(Action::Write(c, b))
}

// What an operation gives, with its constant k and the operands a and b on ports 0 and 1: a value, a
// request to a cell, or a refusal. What moves tokens only, or makes tags, gives the value on port 0. Instruction and operands go one by
// one: a struct of them would be made at each call, and taken apart at once.
#[tactic(auto, unfolding(crate::specs::Effects::operated_of))]
pub fn operate(
    tables: &[u16],
    o: Operation,
    k: i32,
    cells: usize,
    a: i32,
    b: i32,
) -> Result<Action, Refusal>
    ensures { result ≡ operated_of o (arrays_in tables.now) k cells a b }
{
    // The operation is data of the graph: a match, and no table of functions, which would hand out function pointers.
    match o {
        Operation::Const => Ok(Action::Send(k)),
        Operation::Fetch => fetch(tables, k, a, cells),
        Operation::Store => store(tables, k, a, b, cells),
        Operation::OnTwo(x) => computed(arithmetic::compute(x, a, b)),
        Operation::OnConstant(x) => computed(arithmetic::compute(x, a, k)),
        _ => Ok(Action::Send(a)),
    }
}
