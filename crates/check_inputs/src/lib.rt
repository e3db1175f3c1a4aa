// Refusals 6, 8 and 9: the inputs.
#![tactic(auto)]

ghost use Rattle.std.specs.Prelude.{◌≡◌, false, ◌/◌, ◌≤◌, ◌<◌, length, take};
ghost use Rattle.record.specs.GraphRecords.{graph_of};
ghost use Rattle.record.specs.TokensAndTags.{is_input, stands_at};
ghost use Rattle.record.specs.Widths.{token_width};
ghost use Rattle.rules.specs.Check.{any, good_input, second_input, check_inputs};
ghost use Rattle.check_inputs.specs.Inputs.{input_tokens, check_fields, check_second, entry_of};

use check_fields::arc;
use record::codec::Decode;
use record::operation::OperandCounts;
use record::tag::Tag;
use record::token;
use record::token::Token;
use rules::answer::{Fault, Refusal};

// Of the record that s starts with: root path and iteration, state 0, zeros.
fn is_input(s: &[u8]) -> bool
    requires { token_width ≤ length s.now }
    ensures { result ≡ is_input s.now }
{
    let tag = Tag::decode(s);
    let path = tag.path;
    path.is_root() && (tag.iteration == 0 && number::u32_at(s, token::STATE) == 0)
}

// 6, of the record that s starts with.
fn good(counts: &OperandCounts, graph: &[u8], s: &[u8]) -> bool
    requires { token_width ≤ length s.now }
    ensures { result ≡ good_input (graph_of graph.now) s.now }
{
    is_input(s)
        && s[token::PORT] < arc::operands_at(counts, graph, number::u16_at(s, token::INSTRUCTION))
}

// 6, the inputs in turn.
pub fn fields(graph: &[u8], inputs: &[u8]) -> Result<(), Fault>
    ensures { result ≡ check_fields (graph_of graph.now) inputs.now }
{
    let counts = OperandCounts::new();
    for i in 0..inputs.len() / token::WIDTH {
        if !good(&counts, graph, buffer::row_at(inputs, token::WIDTH, i)) {
            return Err(Refusal::BadInput.at(i));
        }
    }
    Ok(())
}

// Whether one of the first n tokens stands at a port of a tag. The inputs are lent bytes, so those before one go by their number, and a
// port is a number, as it stands in them.
fn taken(inputs: &[u8], n: usize, tag: Tag, port: u8) -> bool
    requires { n ≤ length inputs.now / token_width }
    ensures { result ≡ any (stands_at tag port) (take n (input_tokens inputs.now)) }
{
    for j in 0..n {
        if token::stands_at(Token::read(inputs, j), tag, port) {
            return true;
        }
    }
    false
}

// Where the table of `second` has a token: no two tokens that may be inputs of one graph share an entry.
fn entry(t: Token) -> usize
    ensures { (result ≡ entry_of t.tag t.port) × (result < 512) }
{
    let tag = t.tag;
    (tag.instruction as usize) % 256 * 2 + (t.port as usize) % 2
}

// Whether input i is a second token, where `mark` is the entry of the table of `second`.
fn is_second(inputs: &[u8], i: usize, t: Token, mark: bool) -> bool
    requires { (i ≤ length inputs.now / token_width) × (mark ≡ false → second_input (take i (input_tokens inputs.now)) t ≡ false) }
    ensures { result ≡ second_input (take i (input_tokens inputs.now)) t }
{
    let tag = t.tag;
    mark && taken(inputs, i, tag, t.port)
}

// 9, by input in turn, against the inputs before it. `seen` marks the entries where a token stands, so that the inputs before are
// looked through only there.
fn second(inputs: &[u8]) -> Result<(), Fault>
    ensures { result ≡ check_second inputs.now }
{
    let mut seen = [false; 512];
    for i in 0..inputs.len() / token::WIDTH {
        let t = Token::read(inputs, i);
        let at = entry(t);
        if is_second(inputs, i, t, seen[at]) {
            return Err(Refusal::SecondToken.at(i));
        }
        seen[at] = true;
    }
    Ok(())
}

pub fn check(graph: &[u8], inputs: &[u8], capacity: usize) -> Result<(), Fault>
    ensures { result ≡ check_inputs (graph_of graph.now) capacity inputs.now }
{
    fields(graph, inputs)?;
    if capacity < inputs.len() / token::WIDTH {
        return Err(Refusal::LedgerFull.at(capacity));
    }
    second(inputs)
}
