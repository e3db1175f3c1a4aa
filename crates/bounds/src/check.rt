// What is refused: 1; 2 to 5; 7, of the inputs; 6; 19.
ghost use Rattle.std.specs.Prelude.{◌≡◌};
ghost use Rattle.record.specs.GraphRecords.{graph_of};
ghost use Rattle.rules.specs.Check.{demand, in_turn};
ghost use Rattle.rules.specs.Needs.{loop_free, check_needs};

use checks::graph;
use checks::lent::Lent;
use checks::stores::Stores;
use record::codec::Decode;
use record::instruction;
use record::instruction::Instruction;
use record::operation::Operation;
use rules::answer::{Fault, Refusal};

fn is_loop_free(r: Instruction) -> bool
    ensures { result ≡ loop_free r }
{
    !matches!(
        Operation::from(r.code),
        Operation::Next | Operation::Enter | Operation::Leave
    )
}

// 19: the first NEXT, ENTER or LEAVE.
fn loop_free(graph: &[u8]) -> Result<(), Fault>
    ensures { result ≡ in_turn (λ i r. demand (loop_free r) Refusal.NotLoopFree i) 0 (graph_of graph.now) }
{
    for i in 0..graph.len() / instruction::WIDTH {
        let r = Instruction::read(graph, i);
        if !is_loop_free(r) {
            return Err(Refusal::NotLoopFree.at(i));
        }
    }
    Ok(())
}

pub fn check(graph: &[u8], inputs: &[u8]) -> Result<(), Fault>
    ensures { result ≡ check_needs graph.now inputs.now }
{
    graph::check(graph)?;
    let stores = Stores {
        inputs: inputs.len(),
        picks: 0,
        ledger: 0,
        cells: 0,
    };
    stores.check()?;
    check_inputs::fields(graph, inputs)?;
    loop_free(graph)
}
