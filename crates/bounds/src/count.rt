// The bounds, by the reached instructions.
ghost use Rattle.std.specs.Prelude.{◌≡◌, ◌/◌, ◌≤◌, length};
ghost use Rattle.record.specs.GraphRecords.{graph_of};
ghost use Rattle.record.specs.Widths.{graph_width};
ghost use Rattle.rules.specs.Needs.{firings_needed, outputs_needed};
ghost use Rattle.bounds.specs.Reach.{sum_over};

use record::codec::Decode;
use record::instruction;
use record::instruction::Instruction;
use record::operation::Operation;

// The firings and the outputs of all reached instructions.
#[derive(Clone, Copy)]
pub struct Totals {
    pub firings: usize,
    pub outputs: usize,
}

// An OUT never fires.
fn firings_of(r: Instruction) -> usize
    ensures { (result ≡ firings_needed r) × (result ≤ 1) }
{
    match Operation::from(r.code) {
        Operation::Out => 0,
        _ => 1,
    }
}

// A SWITCH has one output, whichever side it takes.
#[tactic(auto, unfolding(rules::specs::Needs::outputs_needed))]
fn outputs_of(r: Instruction) -> usize
    ensures { (result ≡ outputs_needed r) × (result ≤ 2) }
{
    match Operation::from(r.code) {
        Operation::Switch => 1,
        _ => r.fanout.min(2) as usize,
    }
}

pub fn total(graph: &[u8], reached: &[bool; 256]) -> Totals
    requires { length graph.now / graph_width ≤ 256 }
    ensures { (result.firings ≡ sum_over (length (graph_of graph.now)) (graph_of graph.now) reached.now firings_needed)
        × (result.outputs ≡ sum_over (length (graph_of graph.now)) (graph_of graph.now) reached.now outputs_needed)
        × (result.outputs ≤ 512) }
{
    let mut firings = 0;
    let mut outputs = 0;
    for i in 0..graph.len() / instruction::WIDTH {
        if reached[i] {
            let r = Instruction::read(graph, i);
            firings += firings_of(r);
            outputs += outputs_of(r);
        }
    }
    Totals { firings, outputs }
}
