// Refusal 22: the table of named arrays.
ghost use Rattle.std.specs.Prelude.{◌<◌, ◌≡◌, ◌&&◌, length};
ghost use Rattle.buffer.specs.Rows as Rows;
ghost use Rattle.record.specs.GraphRecords.{graph_of};
ghost use Rattle.record.specs.Arrays.{arrays_of};
ghost use Rattle.record.specs.Widths.{array_width};
ghost use Rattle.rules.specs.Check.{demand, all, in_turn, inside_store, names_good, check_arrays};

use check_fields::constant;
use record::array::NamedArray;
use record::codec::Decode;
use record::instruction::Instruction;
use record::operation::Operation;
use record::{array, instruction};
use rules::answer::{Fault, Refusal};

// Whether an array from a first cell on, of this length, ends in the store.
#[tactic(auto, unfolding(rules::specs::Check::inside_store))]
fn ends_inside(first: u16, length: u16, cells: usize) -> bool
    ensures { result ≡ inside_store cells (record { first = first; length = length }) }
{
    (first as usize) + (length as usize) <= cells
}

fn inside(a: NamedArray, cells: usize) -> bool
    ensures { result ≡ inside_store cells a }
{
    ends_inside(a.first, a.length, cells)
}

// The arrays in turn.
fn all_inside(arrays: &[u8], cells: usize) -> bool
    ensures { result ≡ all (inside_store cells) (arrays_of arrays.now) }
{
    for i in 0..arrays.len() / array::WIDTH {
        if !inside(NamedArray::read(arrays, i), cells) {
            return false;
        }
    }
    true
}

// The table alone: whole records, at most 64, each inside the store.
fn good(arrays: &[u8], cells: usize) -> bool
    ensures { result ≡ (Rows.whole array_width 64 (length arrays.now) && all (inside_store cells) (arrays_of arrays.now)) }
{
    buffer::whole(array::WIDTH, 64, arrays.len()) && all_inside(arrays, cells)
}

// The constant of a FETCH or a STORE is 0 or the number of an array, counted from 1.
fn names_good(n: usize, r: Instruction) -> bool
    requires { n < 256 }
    ensures { result ≡ names_good n r }
{
    if !constant::names_array(Operation::from(r.code)) {
        return true;
    }
    match constant::small(r.constant) {
        Some(k) => k as usize <= n,
        None => false,
    }
}

// The instructions in turn, by the number of arrays.
fn names(graph: &[u8], n: usize) -> Result<(), Fault>
    requires { n < 256 }
    ensures { result ≡ in_turn (λ i r. demand (names_good n r) Refusal.BadArray i) 0 (graph_of graph.now) }
{
    for i in 0..graph.len() / instruction::WIDTH {
        if !names_good(n, Instruction::read(graph, i)) {
            return Err(Refusal::BadArray.at(i));
        }
    }
    Ok(())
}

// By the number of cells.
pub fn check(graph: &[u8], arrays: &[u8], cells: usize) -> Result<(), Fault>
    ensures { result ≡ check_arrays (graph_of graph.now) cells arrays.now }
{
    if good(arrays, cells) {
        names(graph, arrays.len() / array::WIDTH)
    } else {
        Err(Refusal::BadArray.at(0))
    }
}
