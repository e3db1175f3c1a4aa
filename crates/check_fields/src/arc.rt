// Refusal 4: an arc ends at a port that its instruction has.
ghost use Rattle.std.specs.Prelude.{◌≡◌};
ghost use Rattle.record.specs.GraphRecords.{graph_of, destinations};
ghost use Rattle.rules.specs.Check.{operands_at, good_arc, all};

use record::instruction;
use record::instruction::{Destination, Instruction};
use record::operation::OperandCounts;

// The operand count of an instruction, 0 for an absent one.
pub fn operands_at(counts: &OperandCounts, graph: &[u8], i: u16) -> u8
    ensures { result ≡ operands_at (graph_of graph.now) i }
{
    let at = i as usize;
    if at < graph.len() / instruction::WIDTH {
        counts.of(graph[at * instruction::WIDTH])
    } else {
        0
    }
}

fn good(counts: &OperandCounts, graph: &[u8], d: Destination) -> bool
    ensures { result ≡ good_arc (graph_of graph.now) d }
{
    d.port < operands_at(counts, graph, d.instruction)
}

// The arcs in use.
pub fn all_good(counts: &OperandCounts, graph: &[u8], r: Instruction) -> bool
    ensures { result ≡ all (good_arc (graph_of graph.now)) (destinations r) }
{
    match r.fanout {
        0 => true,
        1 => good(counts, graph, r.first),
        _ => good(counts, graph, r.first) && good(counts, graph, r.second),
    }
}
