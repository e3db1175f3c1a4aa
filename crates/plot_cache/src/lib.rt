// The cache of the profile plotter: whether what is kept of one run, its answer, listing, cells and profile, serves for a run
// that is asked for.
#![tactic(auto)]

ghost use Rattle.std.specs.Prelude.{◌≡◌, true};
ghost use Rattle.plot_cache.specs.Serves.{same_machine, same_order, rests, any_order, Decided};

use record::{pick, token};
use rules::answer::{Answer, Outcome};
use std::marker::Model;

// What a run is given beside graph, table of named arrays, inputs and picks: its budget, its bound, and the lengths in bytes of ledger
// and cells.
#[derive(Clone, Copy)]
pub struct Limits {
    pub budget: usize,
    pub bound: usize,
    pub ledger: usize,
    pub cells: usize,
}

// All that a run is given. Clauses see it as the definitions do.
#[derive(Drop)]
pub struct Request<'a> {
    pub graph: &'a [u8],
    pub arrays: &'a [u8],
    pub inputs: &'a [u8],
    pub picks: &'a [u8],
    pub limits: Limits,
}

impl<'a> Model for Request<'a> {
    ghost use Rattle.number.specs.Number.{Bytes};
    ghost use Rattle.plot_cache.specs.Serves as Serves;

    ghost Value = { Serves.Request };

    ghost view = { λ r. Serves.request r.graph.now r.arrays.now r.inputs.now r.picks.now r.limits };

    ghost invariant = { λ r. Bytes r.graph.now × Bytes r.inputs.now };
}

// How a run ended: its answer and, of a hang, how many activities its bound holds back in what it left. Only where there is none does it
// end as every order does.
#[derive(Clone, Copy)]
pub struct Ended {
    pub answer: Answer,
    pub held: usize,
}

// Whether two runs start alike: one graph, one table of named arrays, one list of inputs, one capacity and one cell count.
// No derived `==` of `Request`: two of one machine may differ in their orders.
fn same_machine(kept: &Request<'_>, asked: &Request<'_>) -> bool
    ensures { result ≡
        same_machine kept.now.graph asked.now.graph kept.now.arrays asked.now.arrays
        kept.now.inputs asked.now.inputs kept.now.limits asked.now.limits }
{
    kept.graph == asked.graph
        && (kept.arrays == asked.arrays
            && (kept.inputs == asked.inputs
                && (kept.limits.ledger == asked.limits.ledger
                    && kept.limits.cells == asked.limits.cells)))
}

// Whether two runs fire alike: equal picks, budgets and bounds.
fn same_order(kept_picks: &[u8], kept: Limits, picks: &[u8], asked: Limits) -> bool
    ensures { result ≡ same_order kept_picks.now picks.now kept asked }
{
    kept.budget == asked.budget && (kept.bound == asked.bound && kept_picks == picks)
}

// Whether nothing is left enabled: completed, or hung with nothing held back.
#[tactic(auto, unfolding(crate::specs::Serves::rests))]
fn rests(outcome: Outcome, held: usize) -> bool
    ensures { result ≡ rests outcome held }
{
    match outcome {
        Outcome::Completed => true,
        Outcome::Hung => held == 0,
        Outcome::Spent => false,
        Outcome::Refused(_, _) => false,
    }
}

// Whether a run that ended so ends as every order without a bound does that has this length of picks and this budget.
#[tactic(auto, unfolding(crate::specs::Serves::any_order))]
fn any_order(end: Ended, picks: usize, asked: Limits) -> bool
    ensures { result ≡ any_order end picks asked }
{
    let answer = end.answer;
    let outcome = answer.outcome;
    rests(outcome, end.held)
        && (asked.bound == 0
            && (buffer::whole(pick::WIDTH, token::MOST, picks) && answer.firings <= asked.budget))
}

// Whether what is kept of a run that ended so serves for the run that is asked for.
#[tactic(auto, unfolding(crate::specs::Serves::serves))]
pub fn serves(kept: &Request<'_>, end: Ended, asked: &Request<'_>) -> bool
    ensures { Decided kept.now end asked.now result }
{
    same_machine(kept, asked)
        && (same_order(kept.picks, kept.limits, asked.picks, asked.limits)
            || any_order(end, asked.picks.len(), asked.limits))
}
