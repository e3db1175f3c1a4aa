// The inputs of a range run (02, R-11): refusals 6, 23, 8 and 9 over records of 32 bytes, and the same inputs as handles: plain records
// whose value is the number of a range in the table.
#![tactic(auto)]

ghost use Rattle.std.specs.Prelude.{◌≤◌, ◌≡◌, length};
ghost use Rattle.record.specs.GraphRecords.{graph_of};
ghost use Rattle.record.specs.Widths.{range_token_width};
ghost use Rattle.rules.specs.RangeRun.{range_in, is_proper_range, check_range_inputs};
ghost use Rattle.range_inputs.specs.Handles.{handle_bytes, handles_of, check_proper, RoomFor, Narrow};

use arithmetic::Range;
use range_table::RangeTable;
use record::token;
use rules::answer::{Fault, Refusal};

// The bytes of a token record of a range run, and where its values stand.
pub const WIDTH: usize = 32;

const LOW: usize = 20;

const HIGH: usize = 28;

// The range of the record that s starts with.
fn range_in(s: &[u8]) -> Range
    requires { range_token_width ≤ length s.now }
    ensures { result ≡ range_in s.now }
{
    Range {
        low: number::signed(number::u32_at(s, LOW)),
        high: number::signed(number::u32_at(s, HIGH)),
    }
}

fn is_proper(r: Range) -> bool
    ensures { result ≡ is_proper_range r }
{
    r.low <= r.high
}

// 23, the inputs in turn: "an input whose low exceeds its high".
fn ranges(inputs: &[u8]) -> Result<(), Fault>
    ensures { result ≡ check_proper inputs.now }
{
    for i in 0..inputs.len() / WIDTH {
        if !is_proper(range_in(buffer::row_at(inputs, WIDTH, i))) {
            return Err(Refusal::Undecided.at(i));
        }
    }
    Ok(())
}

// The plain record of the fields that s starts with, with a handle in the place of the value.
fn narrowed(s: &[u8], handle: u32) -> [u8; token::WIDTH]
    requires { range_token_width ≤ length s.now }
    ensures { result ≡ handle_bytes handle s.now }
{
    let mut row = [0; token::WIDTH];
    let plain = &s[..token::WIDTH];
    row.copy_from_slice(plain);
    row[LOW..LOW + 4].copy_from_slice(&handle.to_le_bytes());
    row
}

// The inputs as handles, and the table of their ranges: the single value 0, and then a range for each input. The table is lent, as one that is
// given back would be copied to where it is kept.
pub fn narrow(inputs: &[u8], handles: &mut [u8], table: &mut RangeTable)
    requires { RoomFor inputs.now (length handles.old) }
    ensures { Narrow inputs.now handles.old handles.new table.new }
{
    table.clear();
    table.add(Range { low: 0, high: 0 });
    for i in 0..inputs.len() / WIDTH {
        let s = buffer::row_at(inputs, WIDTH, i);
        let handle = table.add(range_in(s));
        let row = narrowed(s, number::bits(handle));
        buffer::put_row(handles, token::WIDTH, i, &row);
    }
}

// Refusals 6, 23, 8 and 9: `handles` are the inputs as handles. 6, 8 and 9 look at no value.
pub fn check(graph: &[u8], inputs: &[u8], handles: &[u8], capacity: usize) -> Result<(), Fault>
    requires { handles.now ≡ handles_of inputs.now }
    ensures { result ≡ check_range_inputs (graph_of graph.now) capacity inputs.now }
{
    check_inputs::fields(graph, handles)?;
    ranges(inputs)?;
    check_inputs::check(graph, handles, capacity)
}
