// The tables of a run in one array, by which a firing need not look through the graph: returns by site, the named arrays, and
// entries for operand counts by instruction.
#![tactic(auto)]

ghost use Rattle.std.specs.Prelude.{◌≡◌, ℕ, ◌+◌, ◌/◌, ◌≤◌, ◌<◌, length, get_or, Ok};
ghost use Rattle.record.specs.Widths.{array_width};
ghost use Rattle.record.specs.Arrays.{most_arrays, arrays_of};
ghost use Rattle.record.specs.GraphRecords.{graph_of};
ghost use Rattle.record.specs.declared.tag.Tag.{Tag};
ghost use Rattle.rules.specs.InstructionSet.{arity_in};
ghost use Rattle.store_enabled.specs.Enabled.{waited_for};
ghost use Rattle.check_fields.specs.Sites.{at_site};
ghost use Rattle.rules.specs.Check.{check_graph};
ghost use Rattle.abstraction.specs.Tables.{Arities, Returns, arrays_in, TablesOf};

use check_fields::site;
use record::array::NamedArray;
use record::codec::Decode;
use record::instruction::Instruction;
use record::operation::{OperandCounts, Operation};
use record::{array, instruction};
use store_enabled::Tables;

// The entry of instruction i, which says for each of its activities how many operands that waits for.
fn entry_at(counts: &OperandCounts, graph: &[u8], i: usize) -> u16
    ensures { (tag : Tag) → tag.instruction ≡ i → waited_for result tag ≡ arity_in (graph_of graph.now) tag }
{
    if i < graph.len() / instruction::WIDTH {
        let code = graph[i * instruction::WIDTH];
        match Operation::from(code) {
            Operation::Out => 0,
            Operation::Leave => store_enabled::LEAVE_ENTRY,
            _ => counts.of(code) as u16,
        }
    } else {
        0
    }
}

// The entries for operand counts, behind all else. That the graph passed its check is said of its bytes, which are the caller's.
fn arities(graph: &[u8], out: &mut Tables)
    requires { (check_graph graph.now ≡ Ok tt) × (length out.old ≡ 641) }
    ensures arities { Arities (graph_of graph.now) out.new × (length out.new ≡ 641) }
    ensures returns { Returns (graph_of graph.now) out.old → Returns (graph_of graph.now) out.new }
{
    let counts = OperandCounts::new();
    for i in 0..256 {
        out[i + 385] = entry_at(&counts, graph, i);
    }
}

// Puts the return of an ENTER into the table. Not by `Entered`: the tables of a run are one array of numbers (docs/DECISIONS.md, 103).
fn note(out: &mut Tables, r: Instruction)
    ensures { out.new ≡ at_site out.old r r.second.instruction }
{
    if let Some(site) = site::site_of(r) {
        out[site as usize] = r.second.instruction;
    }
}

// The returns, from the last record to the first, since the first ENTER of a site counts.
fn returns(graph: &[u8], out: &mut Tables)
    ensures { Returns (graph_of graph.now) out.new × (length out.new ≡ 641) }
{
    *out = [0u16; store_enabled::TABLES_LENGTH];
    for i in (0..graph.len() / instruction::WIDTH).rev() {
        note(out, Instruction::read(graph, i));
    }
}

// The named arrays, behind the returns: their number, then the first cell and the length of each.
fn name(arrays: &[u8], out: &mut Tables)
    requires { (length arrays.now / array_width ≤ most_arrays) × (length out.old ≡ 641) }
    ensures out_after { arrays_in out.new ≡ arrays_of arrays.now }
    ensures by_index { (k : ℕ) → k < 256 → get_or out.new k 0 ≡ get_or out.old k 0 }
    ensures by_index_2 { (k : ℕ) → get_or out.new (k + 385) 0 ≡ get_or out.old (k + 385) 0 }
{
    let n = arrays.len() / array::WIDTH;
    out[256] = n as u16;
    for i in 0..n {
        let a = NamedArray::read(arrays, i);
        out[i * 2 + 257] = a.first;
        out[i * 2 + 258] = a.length;
    }
}

// All of them, of a graph that passed its check and a table that is not too long.
pub fn make(graph: &[u8], arrays: &[u8], out: &mut Tables)
    requires { (check_graph graph.now ≡ Ok tt) × (length arrays.now / array_width ≤ most_arrays) }
    ensures { TablesOf graph.now arrays.now out.new }
{
    returns(graph, out);
    arities(graph, out);
    name(arrays, out);
}
