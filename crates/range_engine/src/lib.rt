// A range run (02, R-11): the inputs become handles into a table of ranges, the engine's choices are fired over handles, and what is left is written as
// ranges. It shares the checks (`checks::check_lent`) and the loop (`engine::turns::from_inputs`) with a plain run. Its own: records of
// other widths, and a ledger of handles.
#![tactic(auto)]

ghost use Rattle.std.specs.Prelude.{◌/◌, ◌+◌, ◌≤◌, ◌<◌, ◌≡◌, length};
ghost use Rattle.record.specs.GraphRecords.{graph_of};
ghost use Rattle.record.specs.Arrays.{arrays_of};
ghost use Rattle.record.specs.Widths.{token_width, cell_width};
ghost use Rattle.rules.specs.Run.{first_state};
ghost use Rattle.rules.specs.RangeRun.{check_range_stores, RangesRan};
ghost use Rattle.start.specs.Begun.{Accepted};
ghost use Rattle.range_engine.specs.Promise.{lent_to_run, left_by_run, RangesOn};
ghost use Rattle.range_engine.specs.Over.{Tells, Fits, AsManyHandles, own_bytes, store_bytes, Leaves, LentToRanges, with_inputs, ranges_lent_checked};

use checks::bound::Bounded;
use checks::stores;
use engine::{choice, turns};
use range_fire::OverRanges;
use range_table::RangeTable;
use record::{cell, token};
use rules::answer;
use rules::answer::{Answer, Fault, Refusal};

// From the inputs as handles, in a ledger and cells of its own: the engine's loop, by the operation over ranges. It writes no log.
// Down to here the parameters are those of the C interface, in its order, and what was made of them.
fn over_handles(
    graph: &[u8],
    arrays: &[u8],
    handles: &[u8],
    picks: &[u8],
    budget: usize,
    bound: usize,
    over: &mut OverRanges,
    ledger: &mut [u8],
    cells: &mut [u8],
) -> Answer
    requires { Accepted graph.now arrays.now handles.now (length ledger.old) (length cells.old)
        × (bound < 65536)
        × (length over.old ≤ length handles.now / token_width + 1) }
    ensures tells { Tells bound picks.now budget (graph_of graph.now) (arrays_of arrays.now)
        (length ledger.old / token_width) (length cells.old / cell_width) over.old
        (first_state handles.now (length cells.old / cell_width)) result ledger.new cells.new over.new }
    ensures fits { Fits result ledger.new cells.new ledger.old cells.old }
{
    let order = choice::order_under(picks, bound);
    let mut none = [0u8; 0];
    turns::from_inputs(
        graph, arrays, handles, order, picks, budget, over, ledger, cells, &mut none,
    )
}

// It runs in `own` and `store`, of as many records as ledger and cells, to which its tokens and cells are written as ranges.
fn written(
    graph: &[u8],
    arrays: &[u8],
    handles: &[u8],
    picks: &[u8],
    budget: usize,
    bound: usize,
    over: &mut OverRanges,
    own: &mut [u8],
    store: &mut [u8],
    ledger: &mut [u8],
    cells: &mut [u8],
) -> Answer
    requires { Accepted graph.now arrays.now handles.now (length own.old) (length store.old)
        × (bound < 65536)
        × (length over.old ≤ length handles.now / token_width + 1)
        × AsManyHandles (length own.old) (length store.old) (length ledger.old) (length cells.old) }
    ensures { Leaves bound picks.now budget graph.now arrays.now handles.now over.old result
        ledger.old cells.old ledger.new cells.new }
{
    let a = over_handles(
        graph, arrays, handles, picks, budget, bound, over, own, store,
    );
    range_output::put_tokens(&over.table, own, a.tokens, ledger);
    range_output::put_cells(&over.table, store, store.len() / cell::WIDTH, cells);
    a
}

// A run that passed every check.
fn accepted(
    graph: &[u8],
    arrays: &[u8],
    handles: &[u8],
    picks: &[u8],
    budget: usize,
    bound: usize,
    over: &mut OverRanges,
    ledger: &mut [u8],
    cells: &mut [u8],
) -> Answer
    requires { Accepted graph.now arrays.now handles.now (own_bytes (length ledger.old)) (store_bytes (length cells.old))
        × (bound < 65536)
        × (length over.old ≤ length handles.now / token_width + 1) }
    ensures { Leaves bound picks.now budget graph.now arrays.now handles.now over.old result
        ledger.old cells.old ledger.new cells.new }
{
    let mut own = [0u8; 57344];
    let mut store = [0u8; 8192];
    let bytes = ledger.len() / range_output::TOKEN_WIDTH * token::WIDTH;
    let cell_bytes = cells.len() / range_output::CELL_WIDTH * cell::WIDTH;
    written(
        graph,
        arrays,
        handles,
        picks,
        budget,
        bound,
        over,
        &mut own[0..bytes],
        &mut store[0..cell_bytes],
        ledger,
        cells,
    )
}

// The inputs become handles and are checked.
fn handled(
    graph: &[u8],
    arrays: &[u8],
    inputs: &[u8],
    picks: &[u8],
    budget: usize,
    bound: usize,
    handles: &mut [u8],
    ledger: &mut [u8],
    cells: &mut [u8],
) -> Answer
    requires { LentToRanges graph.now arrays.now (length inputs.now) (length ledger.old) (length cells.old)
        × (bound < 65536)
        × (length handles.old ≡ own_bytes (length inputs.now)) }
    ensures { RangesRan
        (with_inputs bound picks.now budget graph.now arrays.now inputs.now (length ledger.old)
        (length cells.old)) result ledger.old ledger.new cells.old cells.new }
{
    let mut over = OverRanges {
        table: RangeTable::new(),
    };
    range_inputs::narrow(inputs, handles, &mut over.table);
    let capacity = ledger.len() / range_output::TOKEN_WIDTH;
    let checked = range_inputs::check(graph, inputs, handles, capacity);
    match checked {
        Err(fault) => answer::refused(fault),
        Ok(()) => accepted(
            graph, arrays, handles, picks, budget, bound, &mut over, ledger, cells,
        ),
    }
}

// Everything but the inputs has passed its check.
fn with_inputs(
    graph: &[u8],
    arrays: &[u8],
    inputs: &[u8],
    picks: &[u8],
    budget: usize,
    bound: usize,
    ledger: &mut [u8],
    cells: &mut [u8],
) -> Answer
    requires { LentToRanges graph.now arrays.now (length inputs.now) (length ledger.old) (length cells.old) × (bound < 65536) }
    ensures { RangesRan
        (with_inputs bound picks.now budget graph.now arrays.now inputs.now (length ledger.old)
        (length cells.old)) result ledger.old ledger.new cells.old cells.new }
{
    let mut handles = [0u8; 57344];
    let bytes = inputs.len() / range_inputs::WIDTH * token::WIDTH;
    handled(
        graph,
        arrays,
        inputs,
        picks,
        budget,
        bound,
        &mut handles[0..bytes],
        ledger,
        cells,
    )
}

// Refusal 7, by the lengths in bytes.
fn check_stores(inputs: usize, picks: usize, ledger: usize, cells: usize) -> Result<(), Fault>
    ensures { result ≡ check_range_stores inputs picks ledger cells }
{
    if stores::all_whole(
        range_output::TOKEN_WIDTH,
        range_output::CELL_WIDTH,
        inputs,
        picks,
        ledger,
        cells,
    ) {
        Ok(())
    } else {
        Err(Refusal::BadStore.at(0))
    }
}

// The checks before that of the inputs, with all buffers by their lengths in bytes.
fn check_lent(
    graph: &[u8],
    arrays: &[u8],
    inputs: usize,
    picks: usize,
    bound: usize,
    ledger: usize,
    cells: usize,
) -> Result<(), Fault>
    ensures { result ≡ ranges_lent_checked graph.now arrays.now inputs picks bound ledger cells }
{
    let lent = Bounded {
        lent: check_stores(inputs, picks, ledger, cells),
        bound,
    };
    checks::check_lent(graph, arrays, &lent, cells / range_output::CELL_WIDTH)
}

// A range run over lent bytes: its answer, and what it leaves in ledger and cells, are what the rules give. The bound is 0 for none, as in C.
pub fn run_ranges(
    graph: &[u8],
    arrays: &[u8],
    inputs: &[u8],
    picks: &[u8],
    budget: u16,
    bound: u16,
    ledger: &mut [u8],
    cells: &mut [u8],
) -> Answer
    ensures { RangesOn graph.now arrays.now inputs.now budget bound
        (lent_to_run picks.now ledger.old cells.old) (left_by_run result ledger.new cells.new) }
{
    let k = bound as usize;
    let checked = check_lent(
        graph,
        arrays,
        inputs.len(),
        picks.len(),
        k,
        ledger.len(),
        cells.len(),
    );
    match checked {
        Err(fault) => answer::refused(fault),
        Ok(()) => with_inputs(
            graph,
            arrays,
            inputs,
            picks,
            budget as usize,
            k,
            ledger,
            cells,
        ),
    }
}
