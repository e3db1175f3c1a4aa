// What is reached: a table of ports, two entries for each instruction, and one of instructions.
ghost use Rattle.std.specs.Prelude.{◌≡◌, Bool, false, ◌||◌, List, ℕ, ◌+◌, ◌/◌, ◌≤◌, ◌<◌, length, get_or, Ok};
ghost use Rattle.buffer.specs.Rows.{All};
ghost use Rattle.record.specs.declared.token.Token.{Token};
ghost use Rattle.record.specs.GraphRecords.{graph_of, destinations};
ghost use Rattle.record.specs.TokensAndTags.{token_at};
ghost use Rattle.record.specs.Widths.{graph_width, token_width};
ghost use Rattle.rules.specs.Check.{operands_at, check_graph};
ghost use Rattle.rules.specs.Needs.{all_below, inputs_of};
ghost use Rattle.rules.specs.Needs as Needs;
ghost use Rattle.bounds.specs.Reach.{OnPort, GoodToken, port_entry, Ports, marked, sent_by_inputs, flag, ReachedSoFar, Round};

use record::codec::Decode;
use record::instruction::{Destination, Instruction};
use record::token::Token;
use record::{instruction, operation, token};

fn entry(d: Destination) -> usize
    requires { OnPort d.instruction d.port }
    ensures { (result ≡ port_entry d.instruction d.port) × (result < 512) }
{
    d.instruction as usize * 2 + d.port as usize
}

// The ports that an input sends to.
pub fn given(inputs: &[u8]) -> [bool; 512]
    requires { (i : ℕ) → i < length inputs.now / token_width → GoodToken (token_at inputs.now i) }
    ensures { Ports (sent_by_inputs (inputs_of inputs.now)) result }
{
    let mut sent = [false; 512];
    for i in 0..inputs.len() / token::WIDTH {
        let t = Token::read(inputs, i);
        let tag = t.tag;
        let at = entry(Destination {
            instruction: tag.instruction,
            port: t.port,
        });
        sent[at] = true;
    }
    sent
}

// Marks the ports that an instruction sends to, both sides of a SWITCH.
fn send(sent: &mut [bool; 512], r: Instruction)
    requires { All (λ d. OnPort d.instruction d.port) (destinations r) }
    ensures { sent.new ≡ marked sent.old (destinations r) }
{
    let first = r.first;
    let second = r.second;
    if r.fanout == 0 {
        return;
    }
    sent[entry(first)] = true;
    if r.fanout == 1 {
        return;
    }
    sent[entry(second)] = true;
}

// Whether all ports of instruction i are marked: it has one or two. Port 0 decides most often, so it comes first.
fn ready(graph: &[u8], sent: &[bool; 512], i: usize) -> bool
    requires { (i < length graph.now / graph_width) × (i < 256) × (1 ≤ operands_at (graph_of graph.now) i) }
    ensures { result ≡ all_below (operands_at (graph_of graph.now) i) (λ p. get_or sent.now (port_entry i p) false) }
{
    let at = i * 2;
    if !sent[at] {
        return false;
    }
    if operation::operands(graph[i * instruction::WIDTH]) == 1 {
        return true;
    }
    sent[at + 1]
}

// What is reached so far. That the graph passed its check is said of its bytes, which are the caller's.
#[derive(Drop)]
struct SoFar {
    sent: [bool; 512],
    reached: [bool; 256],
}

impl SoFar {
    // Adds instruction i where it is ready, and marks the ports that it sends to; whether it was added.
    fn add(&mut self, graph: &[u8], i: usize) -> bool
        requires { (check_graph graph.now ≡ Ok tt) × (i < length graph.now / graph_width) }
        ensures { (ts : List Token) (before : List Bool) (added : Bool)
            → Round ts (graph_of graph.now) i before self.old.sent self.old.reached added
            → Round ts (graph_of graph.now) (i + 1) before self.new.sent self.new.reached (added || result) }
    {
        if self.reached[i] {
            return false;
        }
        if !ready(graph, &self.sent, i) {
            return false;
        }
        self.reached[i] = true;
        send(&mut self.sent, Instruction::read(graph, i));
        true
    }

    // Adds each instruction that is ready; whether any was added.
    fn round(&mut self, graph: &[u8]) -> bool
        requires { check_graph graph.now ≡ Ok tt }
        ensures { (ts : List Token)
            → ReachedSoFar ts (graph_of graph.now) self.old.sent self.old.reached
            → Round ts (graph_of graph.now) (length (graph_of graph.now)) self.old.reached self.new.sent self.new.reached result }
    {
        let mut added = false;
        for i in 0..graph.len() / instruction::WIDTH {
            if self.add(graph, i) {
                added = true;
            }
        }
        added
    }
}

// The reached instructions, where `sent` has the ports that inputs send to. A round that adds none is
// the last: no other would add any.
pub fn reach(graph: &[u8], sent: [bool; 512]) -> [bool; 256]
    requires { check_graph graph.now ≡ Ok tt }
    ensures { (ts : List Token) → Ports (sent_by_inputs ts) sent → (i : ℕ) → flag result i ≡ Needs.reached ts (graph_of graph.now) i }
{
    let mut so_far = SoFar {
        sent,
        reached: [false; 256],
    };
    for _ in 0..graph.len() / instruction::WIDTH {
        if !so_far.round(graph) {
            return so_far.reached;
        }
    }
    so_far.reached
}
