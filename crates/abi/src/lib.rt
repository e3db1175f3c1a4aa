// What Rust and C link: the run, with and without a log, the replay, the bounds, the activities that a bound holds back,
// expressions, the listing and the printed lines over numbers and byte slices, with the promises of the crates behind them.
// C has no generic functions, so each kind of run has a name of its own (docs/LIBRARY.md).
#![tactic(auto)]

ghost use Rattle.std.specs.Prelude.{◌≡◌, length, suc};
ghost use Rattle.rules.specs.Answer.{place_in, values_of, values_needed};
ghost use Rattle.rules.specs.Done.{done_number};
ghost use Rattle.rules.specs.Needs.{needs};
ghost use Rattle.record.specs.ExpressionRecords.{expression_of};
ghost use Rattle.rules.specs.Expression.{graph_for, check_made, made_of, output_of, evaluated};
ghost use Rattle.rules.specs.Runs.{lent_to_run, left_by_run, lent_to_logged, left_by_logged, ReplayedOn};
ghost use Rattle.rules.specs.Bounded.{BoundedOn, BoundLoggedOn, BoundCarriedOn};
ghost use Rattle.activities.specs.Counts.{counts};
ghost use Rattle.plot_cache.specs.Serves.{request};
ghost use Rattle.convert.specs.Convert.{token_rest, log_rest, convert_answer as Convert·answer, converted_out as Convert·outAfter};
ghost use Rattle.listing.specs.Listing.{listed_out};
ghost use Rattle.listing.specs.Listing.{list_answer as Listing·answer};
ghost use Rattle.abi.specs.Numbers.{packed, AsNumber, made_number, value_number, refusal_of, unplaced, outcome_numbered, unpacked, tally_number, limits_in, ServesNumber, print_answer, print_after};

use plot_cache::{Ended, Limits, Request};
use rules::answer;
use rules::answer::{Answer, Outcome, Refusal};
use text::TooSmall;

fn place_of(outcome: Outcome) -> usize
    ensures { result ≡ place_in outcome }
{
    match outcome {
        Outcome::Completed => 0,
        Outcome::Hung => 0,
        Outcome::Spent => 0,
        Outcome::Refused(_, place) => place,
    }
}

// An answer in one number: its word, firings, tokens and place, 16 bits each. No `From`: neither type is of this crate, and the number
// is a matter of the C interface, not of `rules`.
pub fn number_of(a: Answer) -> u64
    ensures { result ≡ packed (values_of a) }
{
    let outcome = a.outcome;
    (answer::word(outcome) as u64)
        + ((a.firings % 65536) as u64) * 65536
        + ((a.tokens % 65536) as u64) * 4294967296
        + ((place_of(outcome) % 65536) as u64) * 281474976710656
}

// The refusal with the papers' number: the way back from a number that C gives. No `TryFrom`, as above.
#[tactic(auto, unfolding(crate::specs::Numbers::refusal_of))]
fn refusal_of(word: u64) -> Option<Refusal>
    ensures { result ≡ refusal_of word }
{
    match word {
        1 => Some(Refusal::GraphLength),
        2 => Some(Refusal::UnknownOperation),
        3 => Some(Refusal::FanOut),
        4 => Some(Refusal::BadArc),
        5 => Some(Refusal::BadSite),
        6 => Some(Refusal::BadInput),
        7 => Some(Refusal::BadStore),
        8 => Some(Refusal::LedgerFull),
        9 => Some(Refusal::SecondToken),
        10 => Some(Refusal::NoSuchCell),
        11 => Some(Refusal::SecondWrite),
        12 => Some(Refusal::OutOfRange),
        13 => Some(Refusal::Iteration),
        14 => Some(Refusal::TooDeep),
        17 => Some(Refusal::NoReturn),
        18 => Some(Refusal::ProfileFull),
        19 => Some(Refusal::NotLoopFree),
        20 => Some(Refusal::NotEnabled),
        21 => Some(Refusal::BadBound),
        22 => Some(Refusal::BadArray),
        23 => Some(Refusal::Undecided),
        24 => Some(Refusal::DamagedState),
        25 => Some(Refusal::BadExpression),
        26 => Some(Refusal::GraphTooLong),
        _ => None,
    }
}

// An outcome whose place is 0.
fn unplaced(outcome: Outcome, place: usize) -> Option<Outcome>
    ensures { result ≡ unplaced outcome place }
{
    (place == 0).then_some(outcome)
}

// The outcome with a word and a place.
#[tactic(auto, unfolding(crate::specs::Numbers::outcome_numbered))]
fn outcome_of(word: u64, place: usize) -> Option<Outcome>
    ensures { result ≡ outcome_numbered word place }
{
    match word {
        0 => unplaced(Outcome::Completed, place),
        100 => unplaced(Outcome::Spent, place),
        101 => unplaced(Outcome::Hung, place),
        _ => {
            let refusal = refusal_of(word)?;
            Some(Outcome::Refused(refusal, place))
        }
    }
}

// 0 where it is done, and else the number of the refusal.
fn done_number(done: Result<(), Refusal>) -> u64
    ensures { result ≡ done_number done }
{
    match done {
        Ok(()) => 0,
        Err(refusal) => u64::from(answer::number(refusal)),
    }
}

// The answer that `number_of` made a number of.
#[tactic(auto, unfolding(crate::specs::Numbers::unpacked))]
fn unpack(number: u64) -> Option<Answer>
    ensures { result ≡ unpacked number }
{
    let firings = (number / 65536 % 65536) as usize;
    let tokens = (number / 4294967296 % 65536) as usize;
    let place = (number / 281474976710656) as usize;
    let outcome = outcome_of(number % 65536, place)?;
    Some(answer::answered(outcome, firings, tokens))
}

pub fn ttda_run(
    graph: &[u8],
    arrays: &[u8],
    inputs: &[u8],
    picks: &[u8],
    budget: u16,
    bound: u16,
    ledger: &mut [u8],
    cells: &mut [u8],
) -> u64
    ensures { AsNumber result (λ a.
        BoundedOn graph.now arrays.now inputs.now budget bound
        (lent_to_run picks.now ledger.old cells.old)
        (left_by_run a ledger.new cells.new)) }
{
    number_of(engine::run(graph, arrays, inputs, picks, budget, bound, ledger, cells))
}

pub fn ttda_carry_on(
    graph: &[u8],
    arrays: &[u8],
    picks: &[u8],
    budget: u16,
    bound: u16,
    firings: u16,
    tokens: u16,
    ledger: &mut [u8],
    cells: &mut [u8],
) -> u64
    ensures { AsNumber result (λ a.
        BoundCarriedOn graph.now arrays.now picks.now budget bound firings tokens
        a ledger.old ledger.new cells.old cells.new) }
{
    number_of(engine::carry_on(
        graph, arrays, picks, budget, bound, firings, tokens, ledger, cells,
    ))
}

pub fn ttda_run_logged(
    graph: &[u8],
    arrays: &[u8],
    inputs: &[u8],
    picks: &[u8],
    budget: u16,
    bound: u16,
    ledger: &mut [u8],
    cells: &mut [u8],
    log: &mut [u8],
) -> u64
    ensures { AsNumber result (λ a.
        BoundLoggedOn graph.now arrays.now inputs.now bound
        (lent_to_logged picks.now budget ledger.old cells.old log.old)
        (left_by_logged a ledger.new cells.new log.new)) }
{
    number_of(engine::run_logged(
        graph, arrays, inputs, picks, budget, bound, ledger, cells, log,
    ))
}

pub fn ttda_replay(
    graph: &[u8],
    arrays: &[u8],
    inputs: &[u8],
    log: &[u8],
    ledger: &mut [u8],
    cells: &mut [u8],
) -> u64
    ensures { AsNumber result (λ a.
        ReplayedOn graph.now arrays.now inputs.now log.now
        ledger.old cells.old a ledger.new cells.new) }
{
    number_of(replay::replay(graph, arrays, inputs, log, ledger, cells))
}

pub fn ttda_bounds(graph: &[u8], inputs: &[u8]) -> u64
    ensures { result ≡ packed (values_needed (needs graph.now inputs.now)) }
{
    match bounds::bounds(graph, inputs) {
        Ok(needs) => number_of(Answer {
            outcome: Outcome::Completed,
            firings: needs.firings,
            tokens: needs.tokens,
        }),
        Err(fault) => number_of(answer::refused(fault)),
    }
}

pub fn ttda_expression(expression: &[u8], graph: &mut [u8]) -> u64
    ensures value { result ≡ packed (made_number (made_of (check_made expression.now (length graph.old)) (suc (length (expression_of expression.now))))) }
    ensures graph_after { graph.new ≡ output_of (check_made expression.now (length graph.old)) (graph_for (expression_of expression.now)) graph.old }
{
    match expression::to_graph(expression, graph) {
        Ok(records) => number_of(Answer {
            outcome: Outcome::Completed,
            firings: records,
            tokens: 0,
        }),
        Err(fault) => number_of(answer::refused(fault)),
    }
}

pub fn ttda_expression_value(expression: &[u8], values: &[u8]) -> u64
    ensures { result ≡ packed (value_number (evaluated expression.now values.now)) }
{
    match expression::value(expression, values) {
        Ok(v) => {
            let bits = number::bits(v);
            number_of(Answer {
                outcome: Outcome::Completed,
                firings: (bits % 65536) as usize,
                tokens: (bits / 65536) as usize,
            })
        }
        Err(fault) => number_of(answer::refused(fault)),
    }
}

#[tactic(auto, unfolding(listing::specs::Listing::list_answer))]
pub fn ttda_list(ledger: &[u8], out: &mut [u8]) -> u64
    ensures { (result ≡ Listing·answer ledger.now out.old) × (out.new ≡ listed_out ledger.now out.old) }
{
    done_number(listing::list(ledger, out))
}

// How many activities a bound holds back in a saved state, and how many are enabled in all.
pub fn ttda_held(
    graph: &[u8],
    bound: u16,
    firings: u16,
    tokens: u16,
    ledger: &[u8],
    cells: &[u8],
) -> u64
    ensures { result ≡ packed (tally_number (counts graph.now bound firings tokens ledger.now cells.now)) }
{
    match activities::count(graph, bound, firings, tokens, ledger, cells) {
        Ok(tally) => number_of(Answer {
            outcome: Outcome::Completed,
            firings: tally.held,
            tokens: tally.enabled,
        }),
        Err(fault) => number_of(answer::refused(fault)),
    }
}

// Budget, bound, and the lengths in bytes of ledger and cells.
#[tactic(auto, unfolding(crate::specs::Numbers::limits_in))]
fn limits_in(numbers: &[u64; 4]) -> Limits
    ensures { result ≡ limits_in numbers.now }
{
    Limits {
        budget: numbers[0] as usize,
        bound: numbers[1] as usize,
        ledger: numbers[2] as usize,
        cells: numbers[3] as usize,
    }
}

// 1 if what is kept of a run that ended so serves for the run that is asked for, else 0.
pub fn ttda_serves(
    kept_graph: &[u8],
    kept_arrays: &[u8],
    kept_inputs: &[u8],
    kept_picks: &[u8],
    kept_limits: &[u64; 4],
    kept_answer: u64,
    kept_held: u64,
    graph: &[u8],
    arrays: &[u8],
    inputs: &[u8],
    picks: &[u8],
    limits: &[u64; 4],
) -> u64
    ensures { ServesNumber
        (request kept_graph.now kept_arrays.now kept_inputs.now kept_picks.now (limits_in kept_limits.now))
        kept_answer kept_held
        (request graph.now arrays.now inputs.now picks.now (limits_in limits.now)) result }
{
    let Some(answer) = unpack(kept_answer) else {
        return 0;
    };
    let end = Ended {
        answer,
        held: kept_held as usize,
    };
    let kept = Request {
        graph: kept_graph,
        arrays: kept_arrays,
        inputs: kept_inputs,
        picks: kept_picks,
        limits: limits_in(kept_limits),
    };
    let asked = Request {
        graph,
        arrays,
        inputs,
        picks,
        limits: limits_in(limits),
    };
    u64::from(plot_cache::serves(&kept, end, &asked))
}

#[tactic(auto, unfolding(convert::specs::Convert::convert_answer))]
pub fn ttda_convert(old: &[u8], out: &mut [u8]) -> u64
    ensures value { result ≡ Convert·answer token_rest old.now out.old }
    ensures out_after { out.new ≡ Convert·outAfter token_rest old.now out.old }
{
    done_number(convert::convert(old, out))
}

#[tactic(auto, unfolding(convert::specs::Convert::convert_answer))]
pub fn ttda_convert_log(old: &[u8], out: &mut [u8]) -> u64
    ensures value { result ≡ Convert·answer log_rest old.now out.old }
    ensures out_after { out.new ≡ Convert·outAfter log_rest old.now out.old }
{
    done_number(convert::convert_log(old, out))
}

pub fn ttda_print(answer: u64, listing: &[u8], cells: &[u8], out: &mut [u8]) -> u64
    ensures value { result ≡ print_answer (unpacked answer) listing.now cells.now out.old }
    ensures out_after { out.new ≡ print_after (unpacked answer) listing.now cells.now out.old }
{
    let Some(a) = unpack(answer) else {
        return 1;
    };
    match text::print(a, listing, cells, out) {
        Ok(n) => n as u64,
        Err(TooSmall) => 0,
    }
}
