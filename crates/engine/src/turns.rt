// The turns of a run, whoever chooses: the activity that is chosen fires and is noted, what a bound holds back is known again; until the
// run is at its end.
ghost use Rattle.std.specs.Prelude.{◌/◌, ◌≤◌, ◌<◌, ◌≡◌, length, Some};
ghost use Rattle.record.specs.GraphRecords.{graph_of};
ghost use Rattle.record.specs.TokensAndTags.{token_at};
ghost use Rattle.record.specs.Widths.{token_width};
ghost use Rattle.fire.specs.Running.{state_in, Prepared, Running};
ghost use Rattle.fire.specs.Operating.{asked_by, kept_by};
ghost use Rattle.store_flags.specs.Flags.{Under};
ghost use Rattle.engine.specs.Turns.{chooser_for, BoundFits, HeldBeside, HeldBack, Turned, log_noted, recorded, Proceeded, Bounding, Holding, Followed, Settled};
ghost use Rattle.engine.specs.Keeping.{kept_chosen, end_keeping, fired_keeping, settled_by, FromInputs};
ghost use Rattle.start.specs.Begun.{Accepted};

use crate::choice;
use crate::choice::Order;
use fire::Operate;
use held::Holds;
use record::codec::Decode;
use record::log;
use record::token::Token;
use rules::answer;
use rules::answer::{Answer, Outcome};
use store_enabled::{Store, Tables};
use store_flags::Flags;

// The activity that fired in a turn, by its place, and how many tokens it left.
#[derive(Clone, Copy)]
pub struct Fired {
    pub place: usize,
    pub used: usize,
}

// Where a run resumes: tokens in the ledger, firings left. The caller lends the ledger's bytes, so the number of its tokens goes beside them.
#[derive(Clone, Copy)]
pub struct Going {
    pub used: usize,
    pub budget: usize,
}

// The activity that is chosen fires, unless the run is at its end. No other function of its archive
// fires one, so that `fire` is no call (docs/DECISIONS.md, 205).
fn take_turn<O: Operate>(
    graph: &[u8],
    tables: &Tables,
    order: Order,
    source: &[u8],
    firings: usize,
    by: &mut O,
    store: &mut Store,
    held: &Flags,
    ledger: &mut [u8],
    cells: &mut [u8],
    used: usize,
) -> Result<Fired, Outcome>
    requires { Prepared graph.now tables.now
        × Running (graph_of graph.now) tables.now store.old.links store.old.flags ledger.old cells.old used
        × HeldBeside order store.old.flags (Some held.now)
        × HeldBack order (graph_of graph.now) store.old.flags held.now ledger.old used
        × O.fits by.old used }
    ensures turned { Turned result (graph_of graph.now)
        (chooser_for order source.now (graph_of graph.now) tables.now ledger.old cells.old
        firings (state_in ledger.old cells.old used))
        (asked_by (O.asks by.old) (graph_of graph.now) tables.now ledger.old cells.old used) tables.now
        store.new.links store.new.flags ledger.new cells.new used ledger.old cells.old }
    ensures kept { by.new
        ≡ kept_chosen
        (chooser_for order source.now (graph_of graph.now) tables.now ledger.old cells.old
        firings (state_in ledger.old cells.old used)) by.old
        (kept_by by.old (O.keeps by.old) (graph_of graph.now) tables.now ledger.old cells.old used) }
{
    let place = choice::choose(
        order,
        source,
        firings,
        tables,
        store,
        Some(held),
        ledger,
        used,
    )?;
    let fired = fire::fire(graph, tables, by, store, ledger, cells, used, place);
    match fired {
        Ok(used) => Ok(Fired { place, used }),
        Err(r) => Err(Outcome::Refused(r, place)),
    }
}

// Writes the record of firing i, of the activity at a place, if the log has room for it. A run without a log has one of no bytes.
#[tactic(auto, unfolding(crate::specs::Turns::log_noted))]
fn note(log: &mut [u8], i: usize, ledger: &[u8], place: usize)
    requires { place < length ledger.now / token_width }
    ensures { log.new ≡ log_noted log.old i (token_at ledger.now place).tag }
{
    if i < log.len() / log::WIDTH {
        let t = Token::read(ledger, place);
        log::put_tag(log, i, t.tag);
    }
}

// 02, R-9: after a firing of the activity at a place, which left n tokens where there were `used`, the held activities are known again.
pub fn follow(
    bound: usize,
    graph: &[u8],
    tables: &Tables,
    flags: &Flags,
    ledger: &[u8],
    used: usize,
    n: usize,
    place: usize,
    holds: &mut Holds,
)
    requires { Followed (graph_of graph.now) bound tables.now flags.now ledger.now used n holds.old.nexts holds.old.held holds.old.marks }
    ensures { Holding (graph_of graph.now) bound tables.now flags.now ledger.now n holds.new.nexts holds.new.held holds.new.marks }
{
    if !holds.calm(graph, tables, flags, ledger, used, n, bound) {
        // Lent as parts, which are the whole: lent as they are, the slices were stored in every turn (docs/PERFORMANCE.md).
        holds.follow(
            &graph[0..],
            tables,
            flags,
            &ledger[0..],
            used,
            n,
            place,
            bound,
        );
    }
}

// A run goes on from a state, and notes each firing. Whoever chooses, and by whatever operation, this is the loop. What is held back
// is lent; an order that holds nothing back does not look at it.
fn turns<O: Operate>(
    graph: &[u8],
    tables: &Tables,
    order: Order,
    source: &[u8],
    by: &mut O,
    store: &mut Store,
    holds: &mut Holds,
    ledger: &mut [u8],
    cells: &mut [u8],
    log: &mut [u8],
    going: Going,
) -> Answer
    requires { Prepared graph.now tables.now
        × Running (graph_of graph.now) tables.now store.old.links store.old.flags ledger.old cells.old going.used
        × Bounding order (graph_of graph.now) tables.now store.old.flags ledger.old going.used holds.old.nexts holds.old.held holds.old.marks
        × O.fits by.old going.used }
    ensures proceeded { Proceeded
        (end_keeping O.asks O.keeps order source.now (graph_of graph.now) tables.now ledger.old cells.old
        going.used going.budget by.old).ended result (graph_of graph.now) tables.now store.new.links store.new.flags
        ledger.new cells.new going.used ledger.old cells.old }
    ensures log_after { log.new
        ≡ recorded
        (fired_keeping O.asks O.keeps order source.now (graph_of graph.now) tables.now ledger.old cells.old
        going.used going.budget by.old) log.old }
    ensures kept { by.new
        ≡ (end_keeping O.asks O.keeps order source.now (graph_of graph.now) tables.now ledger.old cells.old
        going.used going.budget by.old).kept }
    ensures bounding { Bounding order (graph_of graph.now) tables.now store.new.flags ledger.new result.tokens holds.new.nexts holds.new.held holds.new.marks }
{
    let budget = going.budget;
    let mut used = going.used;
    for firings in 0..budget {
        let turned = take_turn(
            graph,
            tables,
            order,
            source,
            firings,
            by,
            store,
            &holds.held,
            ledger,
            cells,
            used,
        );
        match turned {
            Ok(fired) => {
                let place = fired.place;
                let n = fired.used;
                if let Order::Free(bound) = order {
                    follow(
                        bound,
                        graph,
                        tables,
                        &store.flags,
                        ledger,
                        used,
                        n,
                        place,
                        holds,
                    );
                }
                // After a firing: the activity has its tag at its place, and there are n tokens. Noted before `follow`, the run would be longer.
                note(log, firings, ledger, place);
                used = n;
            }
            Err(outcome) => return answer::answered(outcome, firings, used),
        }
    }
    let outcome = ending::rest(tables, &store.flags, ledger, used);
    answer::answered(outcome, budget, used)
}

// 02, R-9: the held activities are known before the first turn. Not by `follow`: a second caller would cost each turn of every run a call.
pub fn hold_first(
    bound: usize,
    graph: &[u8],
    tables: &Tables,
    flags: &Flags,
    ledger: &[u8],
    used: usize,
    holds: &mut Holds,
)
    requires { Followed (graph_of graph.now) bound tables.now flags.now ledger.now 0 used holds.old.nexts holds.old.held holds.old.marks }
    ensures { Holding (graph_of graph.now) bound tables.now flags.now ledger.now used holds.new.nexts holds.new.held holds.new.marks }
{
    holds.follow(&graph[0..], tables, flags, &ledger[0..], 0, used, 0, bound);
}

// "If only held ones remain, the answer is hung, at a used-up budget too.": what a run with a bound answered, where it ended.
pub fn settle(tables: &Tables, flags: &Flags, held: &Flags, ledger: &[u8], own: Answer) -> Answer
    requires { Under held.now flags.now × (own.tokens ≤ length ledger.now / token_width) }
    ensures { Settled tables.now flags.now held.now ledger.now own result }
{
    if store_flags::Free::new(flags, held).count() == 0 {
        let outcome = ending::ending(tables, ledger, own.tokens);
        return answer::answered(outcome, own.firings, own.tokens);
    }
    own
}

// A run or a replay goes on from a state, by whatever operation. No other function calls the loop, so the compiler makes it part of this one.
pub fn proceed<O: Operate>(
    graph: &[u8],
    tables: &Tables,
    order: Order,
    source: &[u8],
    by: &mut O,
    store: &mut Store,
    ledger: &mut [u8],
    cells: &mut [u8],
    log: &mut [u8],
    going: Going,
) -> Answer
    requires { Prepared graph.now tables.now
        × Running (graph_of graph.now) tables.now store.old.links store.old.flags ledger.old cells.old going.used
        × BoundFits order
        × O.fits by.old going.used }
    ensures proceeded { Proceeded
        (settled_by order (graph_of graph.now) tables.now ledger.old cells.old
        (end_keeping O.asks O.keeps order source.now (graph_of graph.now) tables.now ledger.old cells.old
        going.used going.budget by.old).ended) result (graph_of graph.now) tables.now store.new.links store.new.flags
        ledger.new cells.new going.used ledger.old cells.old }
    ensures log_after { log.new
        ≡ recorded
        (fired_keeping O.asks O.keeps order source.now (graph_of graph.now) tables.now ledger.old cells.old
        going.used going.budget by.old) log.old }
    ensures kept { by.new
        ≡ (end_keeping O.asks O.keeps order source.now (graph_of graph.now) tables.now ledger.old cells.old
        going.used going.budget by.old).kept }
{
    let mut holds = Holds::new();
    if let Order::Free(bound) = order {
        hold_first(
            bound,
            graph,
            tables,
            &store.flags,
            ledger,
            going.used,
            &mut holds,
        );
    }
    let own = turns(
        graph, tables, order, source, by, store, &mut holds, ledger, cells, log, going,
    );
    if let Order::Free(_) = order {
        settle(tables, &store.flags, &holds.held, ledger, own)
    } else {
        own
    }
}

// A run, a replay or a range run, of what passed its checks: all cells are set absent, the inputs go into the ledger, and it proceeds.
pub fn from_inputs<O: Operate>(
    graph: &[u8],
    arrays: &[u8],
    inputs: &[u8],
    order: Order,
    source: &[u8],
    budget: usize,
    by: &mut O,
    ledger: &mut [u8],
    cells: &mut [u8],
    log: &mut [u8],
) -> Answer
    requires { Accepted graph.now arrays.now inputs.now (length ledger.old) (length cells.old)
        × BoundFits order
        × O.fits by.old (length inputs.now / token_width) }
    ensures { FromInputs O.asks O.keeps order source.now budget graph.now arrays.now inputs.now by.old by.new result
        ledger.old cells.old log.old ledger.new cells.new log.new }
{
    let mut tables = [0u16; store_enabled::TABLES_LENGTH];
    let mut store = Store::new();
    let used = start::begin(
        graph,
        arrays,
        inputs,
        &mut tables,
        &mut store,
        ledger,
        cells,
    );
    proceed(
        graph,
        &tables,
        order,
        source,
        by,
        &mut store,
        ledger,
        cells,
        log,
        Going { used, budget },
    )
}
