// What a range run leaves in the lent ledger and cells (02, R-11): tokens and cells over handles, written as ranges. Bytes behind the used
// records stay as lent.
#![tactic(auto)]

ghost use Rattle.std.specs.Prelude.{◌+◌, ◌/◌, ◌≤◌, ◌≡◌, ◌++◌, length};
ghost use Rattle.number.specs.Number.{bytes32};
ghost use Rattle.buffer.specs.Rows.{written_over};
ghost use Rattle.record.specs.TokensAndTags.{tokens};
ghost use Rattle.record.specs.Cells.{cells};
ghost use Rattle.record.specs.Widths.{token_width, cell_width, range_token_width, range_cell_width};
ghost use Rattle.rules.specs.RangeRun.{encode_range, encode_range_cell};
ghost use Rattle.range_output.specs.Left.{ends_of, token_meant, cell_meant, tokens_meant, cells_meant};

use range_table::RangeTable;
use record::cell::Cell;
use record::codec::{Decode, Encode};
use record::token::{Content, Token};

// The bytes of a token record and of a cell record of a range run.
pub const TOKEN_WIDTH: usize = 32;

pub const CELL_WIDTH: usize = 12;

// What the two values of a record hold: the content with the low value, and the bits of the high value.
#[derive(Clone, Copy)]
pub struct Ends {
    pub low: Content,
    pub high: u32,
}

// "the cell number in both if deferred".
#[tactic(auto, unfolding(crate::specs::Left::ends_of))]
fn ends_of(table: &RangeTable, content: Content) -> Ends
    ensures { result ≡ ends_of table.now content }
{
    match content {
        Content::Live(handle) => {
            let r = table.meaning(handle);
            Ends {
                low: Content::Live(r.low),
                high: number::bits(r.high),
            }
        }
        Content::Spent(handle) => {
            let r = table.meaning(handle);
            Ends {
                low: Content::Spent(r.low),
                high: number::bits(r.high),
            }
        }
        Content::Deferred(cell) => Ends {
            low: Content::Deferred(cell),
            high: cell,
        },
    }
}

// A plain record, and the high value at its end. Both lengths are the types'.
fn with_high<const P: usize, const N: usize>(plain: &[u8; P], high: u32) -> [u8; N]
    requires { P + 4 ≡ N }
    ensures { result ≡ (plain.now ++ bytes32 high) }
{
    let mut row = [0; N];
    buffer::write_at(&mut row, 0, plain);
    buffer::write_at(&mut row, P, &high.to_le_bytes());
    row
}

// The record of a token over handles.
fn token_bytes(table: &RangeTable, t: Token) -> [u8; TOKEN_WIDTH]
    ensures { result ≡ encode_range (token_meant table.now t) }
{
    let e = ends_of(table, t.content);
    let plain = Token {
        content: e.low,
        ..t
    }
    .encode();
    with_high(&plain, e.high)
}

// The first tokens of a ledger over handles. The ledger's bytes are lent, so the number of its tokens goes beside them.
pub fn put_tokens(table: &RangeTable, ledger: &[u8], used: usize, out: &mut [u8])
    requires { (used ≤ length ledger.now / token_width) × (used ≤ length out.old / range_token_width) }
    ensures { out.new ≡ written_over encode_range (tokens_meant table.now (tokens used ledger.now)) out.old }
{
    for i in 0..used {
        let row = token_bytes(table, Token::read(ledger, i));
        buffer::put_row(out, TOKEN_WIDTH, i, &row);
    }
}

// The record of a cell over handles.
fn cell_bytes(table: &RangeTable, cell: Cell) -> [u8; CELL_WIDTH]
    ensures { result ≡ encode_range_cell (cell_meant table.now cell) }
{
    match cell {
        Cell::Absent | Cell::Waiting => with_high(&cell.encode(), 0),
        Cell::Present(handle) => {
            let r = table.meaning(handle);
            with_high(&Cell::Present(r.low).encode(), number::bits(r.high))
        }
    }
}

// The first cells of a store over handles: the promise is of any first n of them, so n goes beside the store. A loop of its own: a trait for
// tokens and cells would be longer than it.
pub fn put_cells(table: &RangeTable, store: &[u8], n: usize, out: &mut [u8])
    requires { (n ≤ length store.now / cell_width) × (n ≤ length out.old / range_cell_width) }
    ensures { out.new ≡ written_over encode_range_cell (cells_meant table.now (cells n store.now)) out.old }
{
    for i in 0..n {
        let row = cell_bytes(table, Cell::read(store, i));
        buffer::put_row(out, CELL_WIDTH, i, &row);
    }
}
