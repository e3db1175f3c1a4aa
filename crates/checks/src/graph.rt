// Refusals 1 to 5: the graph.
ghost use Rattle.std.specs.Prelude.{◌≡◌, take};
ghost use Rattle.record.specs.GraphRecords.{is_graph_length, graph_of};
ghost use Rattle.rules.specs.Check.{demand, ◌and_then◌, in_turn, check_record, check_graph};
ghost use Rattle.check_fields.specs.Sites.{Sites};

use check_fields::site::Entered;
use check_fields::{arc, fan_out};
use record::codec::Decode;
use record::instruction;
use record::instruction::Instruction;
use record::operation::OperandCounts;
use rules::answer::{Fault, Refusal};

// The first refusal of record i, by what each of 2 to 5 demands of it.
fn first_fault(i: usize, known: bool, fields: bool, arcs: bool, site: bool) -> Result<(), Fault>
    ensures { result ≡ (demand known Refusal.UnknownOperation i and_then demand fields Refusal.FanOut i and_then demand arcs Refusal.BadArc i and_then demand site Refusal.BadSite i) }
{
    if !known {
        return Err(Refusal::UnknownOperation.at(i));
    }
    if !fields {
        return Err(Refusal::FanOut.at(i));
    }
    if !arcs {
        return Err(Refusal::BadArc.at(i));
    }
    if !site {
        return Err(Refusal::BadSite.at(i));
    }
    Ok(())
}

// Record i: 2 to 5.
fn record(
    counts: &OperandCounts,
    graph: &[u8],
    sites: &Entered,
    i: usize,
    r: Instruction,
) -> Result<(), Fault>
    requires { Sites (take i (graph_of graph.now)) sites.now }
    ensures { result ≡ check_record (graph_of graph.now) i r }
{
    let known = 1 <= counts.of(r.code);
    let fields = fan_out::good(r);
    let arcs = arc::all_good(counts, graph, r);
    let site = sites.good(r);
    first_fault(i, known, fields, arcs, site)
}

// The records in turn.
fn records(graph: &[u8]) -> Result<(), Fault>
    ensures { result ≡ in_turn (check_record (graph_of graph.now)) 0 (graph_of graph.now) }
{
    let counts = OperandCounts::new();
    let mut sites = Entered::none();
    for i in 0..graph.len() / instruction::WIDTH {
        let r = Instruction::read(graph, i);
        record(&counts, graph, &sites, i, r)?;
        sites.note(r);
    }
    Ok(())
}

// 1: 1 to 256 whole records, by the length in bytes.
fn good_length(n: usize) -> bool
    ensures { result ≡ is_graph_length n }
{
    1 <= n && buffer::whole(instruction::WIDTH, 256, n)
}

pub fn check(graph: &[u8]) -> Result<(), Fault>
    ensures { result ≡ check_graph graph.now }
{
    if good_length(graph.len()) {
        records(graph)
    } else {
        Err(Refusal::GraphLength.at(0))
    }
}
