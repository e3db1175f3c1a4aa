// The engine: a graph and its inputs are checked, and fired under picks. A run may write a log, and may go on from a saved state.
#![tactic(auto)]

pub mod choice;
pub mod turns;

ghost use Rattle.std.specs.Prelude.{◌<◌, ◌≡◌, length};
ghost use Rattle.record.specs.GraphRecords.{graph_of};
ghost use Rattle.rules.specs.Answer.{values_checked};
ghost use Rattle.rules.specs.Check.{check_graph};
ghost use Rattle.rules.specs.Run.{Ran};
ghost use Rattle.rules.specs.Bounded.{BoundCarriedOn};
ghost use Rattle.fire.specs.Running.{Prepared, Running};
ghost use Rattle.start.specs.Begun.{Accepted};
ghost use Rattle.start.specs.Ended.{EndedAt};
ghost use Rattle.engine.specs.Promise.{lent_to_run, left_by_run, BoundedOn, lent_to_logged, left_by_logged, BoundLoggedOn};
ghost use Rattle.engine.specs.Resumed.{resume_lent_checked, LentToResume, resumed};
ghost use Rattle.engine.specs.Turns.{recorded, end_bounded, fired_bounded, end_from_inputs, fired_from_inputs};

use crate::turns::Going;
use checks::bound::Bounded;
use checks::graph;
use checks::stores::{Logged, Stores};
use fire::Plain;
use record::cell;
use rules::answer;
use rules::answer::{Answer, Fault, Refusal};
use store_enabled::Store;

// A run that passed every check. The parameters of a run are those of the C interface, in its order, down to where its arrays are made.
fn accepted(
    graph: &[u8],
    arrays: &[u8],
    inputs: &[u8],
    picks: &[u8],
    budget: usize,
    bound: usize,
    ledger: &mut [u8],
    cells: &mut [u8],
    log: &mut [u8],
) -> Answer
    requires { Accepted graph.now arrays.now inputs.now (length ledger.old) (length cells.old) × (bound < 65536) }
    ensures ended_at { EndedAt
        (end_from_inputs bound picks.now budget graph.now arrays.now inputs.now ledger.old
        cells.old) result ledger.old cells.old ledger.new cells.new }
    ensures log_after { log.new
        ≡ recorded
        (fired_from_inputs bound picks.now budget graph.now arrays.now inputs.now ledger.old
        cells.old) log.old }
{
    let order = choice::order_under(picks, bound);
    turns::from_inputs(
        graph, arrays, inputs, order, picks, budget, &mut Plain, ledger, cells, log,
    )
}

// The check of what is lent beside a saved state: the graph, then picks, ledger and cells by their lengths in bytes, then the bound
// and the table of named arrays.
fn check_lent(
    graph: &[u8],
    arrays: &[u8],
    picks: usize,
    bound: usize,
    ledger: usize,
    cells: usize,
) -> Result<(), Fault>
    ensures { result ≡ resume_lent_checked graph.now arrays.now picks bound ledger cells }
{
    let stores = Stores {
        inputs: 0,
        picks,
        ledger,
        cells,
    };
    let lent = Bounded {
        lent: stores,
        bound,
    };
    checks::check_lent(graph, arrays, &lent, cells / cell::WIDTH)
}

// 02, R-13: a saved state is taken, and the run goes on from it; or it is refused by 24.
// The caller lends the ledger's bytes, so the number of its tokens goes beside them.
fn resume(
    graph: &[u8],
    arrays: &[u8],
    picks: &[u8],
    budget: usize,
    bound: usize,
    firings: usize,
    used: usize,
    ledger: &mut [u8],
    cells: &mut [u8],
) -> Answer
    requires { LentToResume graph.now arrays.now (length ledger.old) (length cells.old) × (budget < 65536) × (firings < 65536) × (bound < 65536) }
    ensures { Ran
        (resumed graph.now arrays.now picks.now budget bound ledger.old cells.old firings used)
        result ledger.old ledger.new cells.old cells.new }
{
    let mut tables = [0u16; store_enabled::TABLES_LENGTH];
    let mut store = Store::new();
    graph_tables::make(graph, arrays, &mut tables);
    if !saved::take(graph, &tables, &mut store, ledger, cells, firings, used) {
        return answer::refused(Refusal::DamagedState.at(0));
    }
    let order = choice::order_under(picks, bound);
    let mut none = [0u8; 0];
    let own = turns::proceed(
        graph,
        &tables,
        order,
        picks,
        &mut Plain,
        &mut store,
        ledger,
        cells,
        &mut none,
        Going { used, budget },
    );
    let outcome = own.outcome;
    answer::answered(outcome, firings + own.firings, own.tokens)
}

// Refusals 1 to 5, without a run.
pub fn check_graph(graph: &[u8]) -> Result<(), Fault>
    ensures { (result ≡ check_graph graph.now) × (values_checked result ≡ values_checked (check_graph graph.now)) }
{
    graph::check(graph)
}

// A run over lent bytes: its answer, and what it leaves in ledger and cells, are what the rules give. The bound is 0 for none, as in C.
pub fn run(
    graph: &[u8],
    arrays: &[u8],
    inputs: &[u8],
    picks: &[u8],
    budget: u16,
    bound: u16,
    ledger: &mut [u8],
    cells: &mut [u8],
) -> Answer
    ensures { BoundedOn graph.now arrays.now inputs.now budget bound
        (lent_to_run picks.now ledger.old cells.old) (left_by_run result ledger.new cells.new) }
{
    let k = bound as usize;
    let stores = Stores {
        inputs: inputs.len(),
        picks: picks.len(),
        ledger: ledger.len(),
        cells: cells.len(),
    };
    let lent = Bounded {
        lent: stores,
        bound: k,
    };
    let checked = checks::check_with(graph, arrays, &lent, inputs, ledger.len(), cells.len());
    match checked {
        Err(fault) => answer::refused(fault),
        Ok(()) => {
            let mut none = [0u8; 0];
            accepted(
                graph,
                arrays,
                inputs,
                picks,
                budget as usize,
                k,
                ledger,
                cells,
                &mut none,
            )
        }
    }
}

// The same run, which also writes a log: the first records of it, one for each firing. `run` is no call of it with an empty log, which
// refusal 7 would meet.
pub fn run_logged(
    graph: &[u8],
    arrays: &[u8],
    inputs: &[u8],
    picks: &[u8],
    budget: u16,
    bound: u16,
    ledger: &mut [u8],
    cells: &mut [u8],
    log: &mut [u8],
) -> Answer
    ensures { BoundLoggedOn graph.now arrays.now inputs.now bound
        (lent_to_logged picks.now budget ledger.old cells.old log.old)
        (left_by_logged result ledger.new cells.new log.new) }
{
    let firings = budget as usize;
    let k = bound as usize;
    let stores = Stores {
        inputs: inputs.len(),
        picks: picks.len(),
        ledger: ledger.len(),
        cells: cells.len(),
    };
    let logged = Logged {
        stores,
        budget: firings,
        log: log.len(),
    };
    let bounded = Bounded {
        lent: logged,
        bound: k,
    };
    let checked = checks::check_with(graph, arrays, &bounded, inputs, ledger.len(), cells.len());
    match checked {
        Err(fault) => answer::refused(fault),
        Ok(()) => accepted(graph, arrays, inputs, picks, firings, k, ledger, cells, log),
    }
}

// 02, R-13: a run goes on from a saved state, the first tokens of the ledger, the cells and the two counts of the answer so far.
// The budget, the bound and the picks are those of this part; the answer counts all firings.
pub fn carry_on(
    graph: &[u8],
    arrays: &[u8],
    picks: &[u8],
    budget: u16,
    bound: u16,
    firings: u16,
    tokens: u16,
    ledger: &mut [u8],
    cells: &mut [u8],
) -> Answer
    ensures { BoundCarriedOn graph.now arrays.now picks.now budget bound firings tokens result ledger.old
        ledger.new cells.old cells.new }
{
    let k = bound as usize;
    let checked = check_lent(graph, arrays, picks.len(), k, ledger.len(), cells.len());
    match checked {
        Err(fault) => answer::refused(fault),
        Ok(()) => resume(
            graph,
            arrays,
            picks,
            budget as usize,
            k,
            firings as usize,
            tokens as usize,
            ledger,
            cells,
        ),
    }
}
