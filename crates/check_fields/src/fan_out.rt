// Refusal 3: the fan-out that an operation may have, and the fields that are not in use.
ghost use Rattle.std.specs.Prelude.{◌≡◌, ℕ, ◌&&◌, ◌||◌, pos};
ghost use Rattle.arithmetic.specs.Arithmetic.{eq_z};
ghost use Rattle.record.specs.GraphRecords.{row_of, operation_of, uses_constant};
ghost use Rattle.rules.specs.Check.{fan_out_allowed, is_zero, unused_are_zero};

use crate::constant;
use record::instruction::{Destination, Instruction};
use record::operation::Operation;

// The matches here give what an operation has, as a row of 01's table does, and choose no step.
fn least(operation: Operation) -> u8
    ensures { (code : ℕ) → operation_of code ≡ operation → result ≡ (row_of code).least_fan_out }
{
    match operation {
        Operation::Switch | Operation::Enter => 2,
        Operation::Sink
        | Operation::Out
        | Operation::Leave
        | Operation::Store
        | Operation::Unknown => 0,
        _ => 1,
    }
}

fn most(operation: Operation) -> u8
    ensures { (code : ℕ) → operation_of code ≡ operation → result ≡ (row_of code).most_fan_out }
{
    match operation {
        Operation::Sink | Operation::Out | Operation::Leave | Operation::Unknown => 0,
        _ => 2,
    }
}

fn allowed(r: Instruction) -> bool
    ensures { result ≡ fan_out_allowed r }
{
    let operation = Operation::from(r.code);
    least(operation) <= r.fanout && r.fanout <= most(operation)
}

fn uses_constant(operation: Operation) -> bool
    ensures { (code : ℕ) → operation_of code ≡ operation → result ≡ uses_constant code }
{
    matches!(
        operation,
        Operation::Const
            | Operation::Enter
            | Operation::Leave
            | Operation::Fetch
            | Operation::Store
            | Operation::OnConstant(_)
    )
}

// A destination is in use, or its fields are zero.
fn used_or_zero(used: bool, d: Destination) -> bool
    ensures { result ≡ used || is_zero d }
{
    used || (d.instruction == 0 && d.port == 0)
}

// The constant is used, or it is zero.
fn constant_used_or_zero(operation: Operation, value: i32) -> bool
    ensures { (code : ℕ) → operation_of code ≡ operation → result ≡ uses_constant code || eq_z value (pos 0) }
{
    uses_constant(operation) || constant::is_zero(value)
}

fn unused_are_zero(r: Instruction) -> bool
    ensures { result ≡ unused_are_zero r }
{
    let fan_out = r.fanout;
    let first = r.first;
    let second = r.second;
    used_or_zero(1 <= fan_out, first)
        && (used_or_zero(2 <= fan_out, second)
            && (constant_used_or_zero(Operation::from(r.code), r.constant) && r.zeros == 0))
}

pub fn good(r: Instruction) -> bool
    ensures { result ≡ fan_out_allowed r && unused_are_zero r }
{
    allowed(r) && unused_are_zero(r)
}
