// What is refused before any firing is tried (01, "The answer and the refusals"), in its order: the
// graph record by record, the stores, the bound, the table of named arrays, the inputs.
#![tactic(auto)]

pub mod arrays;
pub mod bound;
pub mod graph;
pub mod lent;
pub mod stores;

ghost use Rattle.std.specs.Prelude.{◌/◌, ◌≡◌};
ghost use Rattle.record.specs.GraphRecords.{graph_of};
ghost use Rattle.record.specs.TokensAndTags.{capacity_of};
ghost use Rattle.record.specs.Widths.{cell_width};
ghost use Rattle.rules.specs.Check.{◌and_then◌, check_graph, check_arrays, check_inputs, check_with};

use lent::Lent;
use record::{cell, token};
use rules::answer::Fault;

// What is checked before the inputs or a saved state: the graph, what is lent beside it, and the table of named arrays for this
// number of cells. The order stands here, for every kind of run.
pub fn check_lent<L: Lent>(graph: &[u8], arrays: &[u8], lent: &L, cells: usize) -> Result<(), Fault>
    ensures { result ≡ (check_graph graph.now and_then L.checked lent.now and_then check_arrays (graph_of graph.now) cells arrays.now) }
{
    graph::check(graph)?;
    lent.check()?;
    arrays::check(graph, arrays, cells)
}

// The same, and last the inputs; the ledger and the cells by their lengths in bytes.
pub fn check_with<L: Lent>(
    graph: &[u8],
    arrays: &[u8],
    lent: &L,
    inputs: &[u8],
    ledger: usize,
    cells: usize,
) -> Result<(), Fault>
    ensures { result
        ≡ check_with graph.now arrays.now (cells / cell_width) (L.checked lent.now)
        (check_inputs (graph_of graph.now) (capacity_of ledger) inputs.now) }
{
    check_lent(graph, arrays, lent, cells / cell::WIDTH)?;
    check_inputs::check(graph, inputs, ledger / token::WIDTH)
}
