// Cell records of 8 bytes: an I-structure cell read from its bytes, and written as bytes.
ghost use Rattle.std.specs.Prelude.{◌≡◌, ◌≤◌, length};
ghost use Rattle.record.specs.Cells as Cells;
ghost use Rattle.record.specs.Widths.{cell_width};

use crate::codec::{Decode, Encode};

// The bytes of a cell record.
pub const WIDTH: usize = 8;

pub const MOST: usize = 1024;

// 01, "Firing": a cell is absent, waiting or present.
#[derive(Clone, Copy)]
pub enum Cell {
    Absent,
    Waiting,
    Present(i32),
}

// The cell of a record's value and state. Every state gives one, as in the definition `cell_of`; `state_allowed` refuses those past 2.
#[tactic(auto, unfolding(crate::specs::Cells::cell_of))]
fn cell_of(bits: u32, state: u8) -> Cell
    ensures { result ≡ Cells.cell_of bits state }
{
    match state {
        1 => Cell::Waiting,
        2 => Cell::Present(number::signed(bits)),
        _ => Cell::Absent,
    }
}

impl Decode for Cell {
    const WIDTH: usize = WIDTH;

    ghost WIDTH = { cell_width };

    ghost decoded = { Cells.decode_cell };

    #[tactic(auto, unfolding(crate::specs::Cells::decode_cell))]
    fn decode(s: &[u8]) -> Self {
        cell_of(number::u32_at(s, 0), s[4])
    }
}

// The bytes of a record's fields, the state as its byte.
fn bytes_of(value: u32, state: u8) -> [u8; WIDTH]
    ensures { result ≡ Cells.bytes_of_cell value state }
{
    let [a, b, c, d] = value.to_le_bytes();
    [a, b, c, d, state, 0, 0, 0]
}

impl Encode<WIDTH> for Cell {
    ghost use Rattle.record.specs.ReadBack.{cell_back};

    ghost encoded = { Cells.encode_cell };

    ghost Fits = { Cells.CellFits };

    fn encode(self) -> [u8; WIDTH] {
        match self {
            Cell::Absent => bytes_of(0, 0),
            Cell::Waiting => bytes_of(0, 1),
            Cell::Present(v) => bytes_of(number::bits(v), 2),
        }
    }

    ghost read_back = { cell_back };
}

// Whether the record that s starts with has a state of the three, and zeros behind it.
#[tactic(auto, unfolding(crate::specs::Cells::cell_state_allowed))]
pub fn state_allowed(s: &[u8]) -> bool
    requires { 8 ≤ length s.now }
    ensures { result ≡ Cells.cell_state_allowed s.now }
{
    number::u32_at(s, 4) <= 2
}

// Whether its value is 0 until it is present.
#[tactic(auto, unfolding(crate::specs::Cells::zero_until_present))]
pub fn zero_until_present(s: &[u8]) -> bool
    requires { 8 ≤ length s.now }
    ensures { result ≡ Cells.zero_until_present s.now }
{
    s[4] == 2 || number::u32_at(s, 0) == 0
}
