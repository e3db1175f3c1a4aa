// The start of a run, a profile or a replay that passed its checks: the tables of graph and named arrays are made, all cells are set
// absent, and the inputs go into the ledger.
#![tactic(auto)]

ghost use Rattle.std.specs.Prelude.{◌≡◌, length, replicate};
ghost use Rattle.start.specs.Begun.{Accepted, Begun};

use store_enabled::{Store, Tables};

// The answer is the number of input tokens. The arrays of the matching store are lent empty. That graph, arrays and inputs passed their
// checks is said of the lent bytes, and of no type.
pub fn begin(
    graph: &[u8],
    arrays: &[u8],
    inputs: &[u8],
    tables: &mut Tables,
    store: &mut Store,
    ledger: &mut [u8],
    cells: &mut [u8],
) -> usize
    requires { Accepted graph.now arrays.now inputs.now (length ledger.old) (length cells.old) × (store.old.links ≡ replicate 11264 0) × (store.old.flags ≡ replicate 2048 0) }
    ensures { Begun graph.now arrays.now inputs.now tables.new store.new.links store.new.flags
        ledger.old ledger.new cells.old cells.new result }
{
    graph_tables::make(graph, arrays, tables);
    load::clear(cells);
    load::inputs(tables, store, ledger, inputs)
}
