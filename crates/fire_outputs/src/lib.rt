// What a firing writes: its operands are spent, cells are read or written, deferred tokens wake, and
// its outputs go into the ledger. Whether it may is settled before.
#![tactic(auto)]

ghost use Rattle.std.specs.Prelude.{◌≡◌, [], ◌∷◌, ◌++◌, ◌+◌, ◌/◌, ◌≤◌, ◌<◌, length, get_or};
ghost use Rattle.record.specs.TokensAndTags.{tokens};
ghost use Rattle.record.specs.declared.cell.Cell.TheVariants.{Absent};
ghost use Rattle.record.specs.Widths.{token_width, cell_width};
ghost use Rattle.store_chains.specs.Slots.{Open};
ghost use Rattle.store_chains.specs.Deferred.{LowCell};
ghost use Rattle.store.specs.Matching.{Matching};
ghost use Rattle.fire_outputs.specs.Outputs.{Kept, CellStore, CellsKept, spent_at, token_out, output_tokens, LowPorts, OpenKeys, cells_in, cells_fetched, content_fetched, OnCells, content_given, cells_by, woken_by, writes_again, Fireable};

use fire_effect::operate::Action;
use fire_effect::output::{Key, Outputs};
use record::cell::Cell;
use record::codec::{Decode, Encode};
use record::token::{Content, Token};
use store_chains::Slot;
use store_enabled::{Store, Tables};

// Where the operands of an activity stand in the ledger: at its place and at another; where it has one operand, that place twice.
#[derive(Clone, Copy)]
pub struct Places {
    pub place: usize,
    pub other: usize,
}

// An output goes in as record `used`, in its slot.
// The caller lends the ledger's bytes, so the number of its tokens goes beside them.
fn append_one(
    tables: &Tables,
    store: &mut Store,
    ledger: &mut [u8],
    used: usize,
    key: Key,
    content: Content,
    slot: Slot,
)
    requires { Matching tables.now store.old.links store.old.flags ledger.old used
        × (used < length ledger.old / token_width)
        × (used < 2048)
        × (key.port < 2)
        × LowCell content
        × Open (tokens used ledger.old) key.tag key.port slot }
    ensures { Kept tables.now store.new.links store.new.flags ledger.new (used + 1)
        (tokens used ledger.old ++ token_out content key ∷ []) ledger.old }
{
    let tag = key.tag;
    store::arrive(
        tables,
        store,
        ledger,
        used,
        Token {
            tag,
            port: key.port,
            content,
        },
        slot,
    );
}

// The outputs go into the ledger, destination 1 first: how many tokens it then has. One place writes them, so that it is no call.
// That the ports are low is no invariant of `Outputs`: `under` makes them of any instruction and asks nothing of it. Outputs and slots are
// no struct: one would be made in `commit` for one call alone, and taken apart here.
fn append_outputs(
    tables: &Tables,
    store: &mut Store,
    ledger: &mut [u8],
    used: usize,
    outputs: Outputs,
    content: Content,
    first: Slot,
    second: Slot,
) -> usize
    requires { Matching tables.now store.old.links store.old.flags ledger.old used
        × (used + outputs.count ≤ length ledger.old / token_width)
        × (length ledger.old / token_width ≤ 2048)
        × (outputs.count ≤ 2)
        × LowPorts outputs
        × LowCell content
        × OpenKeys (tokens used ledger.old) outputs first second }
    ensures { (result ≡ used + outputs.count) × Kept tables.now store.new.links store.new.flags ledger.new (used + outputs.count)
        (tokens used ledger.old ++ output_tokens content outputs) ledger.old }
{
    let n = outputs.count as usize;
    let mut key = outputs.first;
    let mut slot = first;
    for k in 0..n {
        append_one(tables, store, ledger, used + k, key, content, slot);
        key = outputs.second;
        slot = second;
    }
    used + n
}

// FETCH: the content of its outputs is the value of a present cell; otherwise they are deferred, and the cell waits.
fn fetch(cells: &mut [u8], number: u32) -> Content
    requires { CellStore cells.old × (number < length cells.old / cell_width) }
    ensures value { result ≡ content_fetched number (get_or (cells_in cells.old) number Absent) }
    ensures cells_kept { CellsKept cells.new (cells_fetched number (cells_in cells.old)) cells.old }
{
    let i = number as usize;
    let found = Cell::read(cells, i);
    let Cell::Present(v) = found else {
        Cell::Waiting.write(cells, i);
        return Content::Deferred(number);
    };
    Content::Live(v)
}

// What an action makes of the cells; the answer is the content of its outputs. Those of STORE are signals of value 0. That an action's cell
// is one of these is said in the clauses: how many there are, the caller says.
fn change_cells(cells: &mut [u8], action: Action) -> Content
    requires { CellStore cells.old × OnCells (length cells.old / cell_width) action }
    ensures value { result ≡ content_given action (cells_in cells.old) }
    ensures cells_kept { CellsKept cells.new (cells_by action (cells_in cells.old)) cells.old }
{
    // A match takes apart what an action carries; it chooses no function.
    match action {
        Action::Send(v) => Content::Live(v),
        Action::Read(number) => fetch(cells, number),
        Action::Write(number, v) => {
            Cell::Present(v).write(cells, number as usize);
            Content::Live(0)
        }
    }
}

// A write wakes the tokens that are deferred on its cell.
fn wake(tables: &Tables, store: &mut Store, ledger: &mut [u8], used: usize, action: Action)
    requires { Matching tables.now store.old.links store.old.flags ledger.old used × OnCells 1024 action }
    ensures { Kept tables.now store.new.links store.new.flags ledger.new used
        (woken_by action (tokens used ledger.old)) ledger.old }
{
    let Action::Write(number, v) = action else {
        return;
    };
    store::wake(tables, store, ledger, used, number, v);
}

// A firing that nothing refuses: how many tokens the ledger then has.
pub fn carry_out(
    tables: &Tables,
    store: &mut Store,
    ledger: &mut [u8],
    cells: &mut [u8],
    used: usize,
    operands: Places,
    action: Action,
    outputs: Outputs,
    first: Slot,
    second: Slot,
) -> usize
    requires { Fireable tables.now store.old.links store.old.flags ledger.old cells.old used operands.place operands.other
        × (used + outputs.count ≤ length ledger.old / token_width)
        × (outputs.count ≤ 2)
        × LowPorts outputs
        × OnCells (length cells.old / cell_width) action
        × OpenKeys (tokens used ledger.old) outputs first second }
    ensures { (result ≡ used + outputs.count) × Kept tables.now store.new.links store.new.flags ledger.new (used + outputs.count)
        (woken_by action (spent_at operands.place operands.other (tokens used ledger.old))
        ++ output_tokens (content_given action (cells_in cells.old)) outputs) ledger.old
        × CellsKept cells.new (cells_by action (cells_in cells.old)) cells.old }
{
    store::spend_operands(&mut store.flags, ledger, operands.place, operands.other);
    let content = change_cells(cells, action);
    wake(tables, store, ledger, used, action);
    append_outputs(tables, store, ledger, used, outputs, content, first, second)
}

// Whether an action writes a cell that is present.
pub fn writes_again(cells: &[u8], action: Action) -> bool
    requires { OnCells (length cells.now / cell_width) action }
    ensures { result ≡ writes_again action (cells_in cells.now) }
{
    let Action::Write(number, _) = action else {
        return false;
    };
    matches!(Cell::read(cells, number as usize), Cell::Present(_))
}
