// What a graph will need, before it runs (02, R-3): for a graph without NEXT, ENTER and LEAVE the most
// firings and tokens that a run from these inputs can have, worked out without firing.
#![tactic(auto)]

mod check;
mod count;
mod reach;

ghost use Rattle.std.specs.Prelude.{◌≡◌, Ok};
ghost use Rattle.rules.specs.Needs.{check_needs, needs, Bounded};

use record::token;
use rules::answer::{Fault, Needs};

// The bounds of a graph and inputs that passed.
#[tactic(auto, unfolding(rules::specs::Needs::needs))]
fn at_most(graph: &[u8], inputs: &[u8]) -> Needs
    requires { check_needs graph.now inputs.now ≡ Ok tt }
    ensures { Ok result ≡ needs graph.now inputs.now }
{
    let sent = reach::given(inputs);
    let reached = reach::reach(graph, sent);
    let totals = count::total(graph, &reached);
    Needs {
        firings: totals.firings,
        tokens: inputs.len() / token::WIDTH + totals.outputs,
    }
}

// What no run from these inputs exceeds, or why there are no bounds.
pub fn bounds(graph: &[u8], inputs: &[u8]) -> Result<Needs, Fault>
    ensures { Bounded (needs graph.now inputs.now) result }
{
    check::check(graph, inputs)?;
    Ok(at_most(graph, inputs))
}
