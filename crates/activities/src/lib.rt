// How many activities of a saved state are enabled, and how many of these a bound holds back (02, R-9): which hang it was.
#![tactic(auto)]

ghost use Rattle.std.specs.Prelude.{ℕ, ◌<◌, ◌≡◌, List, length};
ghost use Rattle.record.specs.declared.array.NamedArray.{NamedArray};
ghost use Rattle.record.specs.declared.cell.Cell.{Cell};
ghost use Rattle.record.specs.GraphRecords.{graph_of};
ghost use Rattle.record.specs.TokensAndTags.{tokens};
ghost use Rattle.machine.specs.Bounded.{free_of};
ghost use Rattle.rules.specs.InstructionSet.{machine_of};
ghost use Rattle.rules.specs.Held.{held_in};
ghost use Rattle.abstraction.specs.States.{state_held};
ghost use Rattle.activities.specs.Counts.{count_lent_checked, counted, counts};
ghost use Rattle.activities.specs.Ready.{LentToCount, ReadyToCount};

use checks::bound::Bounded;
use checks::graph;
use checks::lent::Lent;
use checks::stores::Stores;
use held::Holds;
use rules::answer::{Fault, Refusal};
use store_enabled::{Store, Tables};
use store_flags::{Flags, Free};

// What is found of a state: how many activities are enabled, and how many of these are held back.
#[derive(Clone, Copy)]
pub struct Tally {
    pub enabled: usize,
    pub held: usize,
}

// The check of what is lent beside the state: the graph, then ledger and cells by their lengths in bytes, then the bound.
fn check_lent(graph: &[u8], bound: usize, ledger: usize, cells: usize) -> Result<(), Fault>
    ensures { result ≡ count_lent_checked graph.now bound ledger cells }
{
    graph::check(graph)?;
    let stores = Stores {
        inputs: 0,
        picks: 0,
        ledger,
        cells,
    };
    Bounded {
        lent: stores,
        bound,
    }
    .check()
}

// The number of enabled activities that a bound does not hold back.
// The caller lends the ledger's bytes (the C interface), so the number of its tokens goes beside them.
fn count_free(
    graph: &[u8],
    tables: &Tables,
    flags: &Flags,
    ledger: &[u8],
    used: usize,
    bound: usize,
) -> usize
    requires { ReadyToCount graph.now tables.now flags.now ledger.now used × (0 < bound) × (bound < 65536) }
    ensures { (table : List NamedArray) (capacity count : ℕ) (cs : List Cell) → result ≡ length
        (free_of (machine_of (graph_of graph.now) table capacity count) (held_in (graph_of graph.now) bound)
        (state_held (tokens used ledger.now) cs)) }
{
    let mut holds = Holds::new();
    // No activity fired: all records are new, and any place will do.
    holds.follow(graph, tables, flags, ledger, 0, used, 0, bound);
    Free::new(flags, &holds.held).count()
}

// A state is taken and counted, or it is refused by 24.
fn count_taken(
    graph: &[u8],
    bound: usize,
    firings: usize,
    used: usize,
    ledger: &[u8],
    cells: &[u8],
) -> Result<Tally, Fault>
    requires { LentToCount graph.now (length ledger.now) (length cells.now) × (bound < 65536) }
    ensures { result ≡ counted graph.now bound firings used ledger.now cells.now }
{
    let none = [0u8; 0];
    let mut tables = [0u16; store_enabled::TABLES_LENGTH];
    let mut store = Store::new();
    graph_tables::make(graph, &none, &mut tables);
    if !saved::take(graph, &tables, &mut store, ledger, cells, firings, used) {
        return Err(Refusal::DamagedState.at(0));
    }
    let enabled = store.flags.count();
    if bound == 0 {
        return Ok(Tally { enabled, held: 0 });
    }
    let free = count_free(graph, &tables, &store.flags, ledger, used, bound);
    Ok(Tally {
        enabled,
        held: enabled - free,
    })
}

// Of a saved state, the first tokens of the ledger, the cells and the two counts of the answer that came with them: how many
// activities are enabled, and how many of these the bound holds back. After a hang all that are enabled are held back.
// The bound is 0 for none, as in C.
pub fn count(
    graph: &[u8],
    bound: u16,
    firings: u16,
    tokens: u16,
    ledger: &[u8],
    cells: &[u8],
) -> Result<Tally, Fault>
    ensures { result ≡ counts graph.now bound firings tokens ledger.now cells.now }
{
    let k = bound as usize;
    check_lent(graph, k, ledger.len(), cells.len())?;
    count_taken(graph, k, firings as usize, tokens as usize, ledger, cells)
}
