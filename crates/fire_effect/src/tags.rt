// The new tags: the ports that the tokens of a firing go to, and under which path and iteration.
ghost use Rattle.std.specs.Prelude.{◌/◌, ◌≤◌, ◌≡◌, true, [], ◌∷◌, length, nat_abs};
ghost use Rattle.record.specs.GraphRecords.{graph_of};
ghost use Rattle.record.specs.Calls.{next_of, enter_of, leave_of};
ghost use Rattle.record.specs.Widths.{graph_width};
ghost use Rattle.rules.specs.Check.{within};
ghost use Rattle.rules.specs.InstructionSet.{key_under, all_under, side_of, send_next, send_entered, send_returned, send_left};
ghost use Rattle.machine.specs.Machine as Machine;
ghost use Rattle.abstraction.specs.Tables.{Returns};
ghost use Rattle.fire_effect.specs.Effects.{Makes, new_tags_of, ReadyForTags};

use crate::output;
use crate::output::Outputs;
use record::instruction;
use record::instruction::{Destination, Instruction};
use record::operation::Operation;
use record::tag::Tag;
use rules::answer::Refusal;
use store_enabled::Tables;

// A constant that the check of the graph has found to be at most a byte.
fn byte(constant: i32) -> u8
    requires { within 0 255 constant ≡ true }
    ensures { result ≡ nat_abs constant }
{
    constant as u8
}

// Each destination in use.
fn to_all(tag: Tag, r: Instruction) -> Result<Outputs, Refusal>
    ensures { Makes result (λ v. Machine.send v (all_under tag r)) }
{
    Ok(output::under(tag, r))
}

// One destination.
fn to_one(tag: Tag, d: Destination) -> Result<Outputs, Refusal>
    ensures { Makes result (λ v. Machine.send v (key_under tag d ∷ [])) }
{
    Ok(output::one(output::key_under(tag, d)))
}

// None: the operands are spent all the same.
fn to_none(tag: Tag) -> Result<Outputs, Refusal>
    ensures { Makes result (λ v. Machine.send v []) }
{
    Ok(output::none(tag))
}

// SWITCH: "port 0 to destination 1 if port 1 is not 0, else to destination 2".
#[tactic(auto, unfolding(rules::specs::InstructionSet::side_of))]
fn switch(control: i32, tag: Tag, r: Instruction) -> Result<Outputs, Refusal>
    ensures { Makes result (λ v. Machine.send v (key_under tag (side_of control r) ∷ [])) }
{
    if control == 0 {
        let d = r.second;
        to_one(tag, d)
    } else {
        let d = r.first;
        to_one(tag, d)
    }
}

// NEXT. 13: "NEXT at 255".
fn next(tag: Tag, r: Instruction) -> Result<Outputs, Refusal>
    ensures { Makes result (send_next (next_of tag) r) }
{
    let later = tag.next().ok_or(Refusal::Iteration)?;
    to_all(later, r)
}

// ENTER: destination 2 is the site's return instruction and gets no token here. 14: "ENTER at four
// levels".
fn enter(tag: Tag, r: Instruction) -> Result<Outputs, Refusal>
    requires { within 0 255 r.constant ≡ true }
    ensures { Makes result (send_entered (enter_of tag (nat_abs r.constant)) r) }
{
    let body = r.first;
    let inner = tag.enter(byte(r.constant)).ok_or(Refusal::TooDeep)?;
    to_one(inner, body)
}

// LEAVE once the caller's tag is known: `back` is the site's return instruction, and k the constant.
// 17: "return instruction plus constant past the graph".
fn returned(graph: &[u8], back: u16, k: u8, caller: Tag) -> Result<Outputs, Refusal>
    requires { length graph.now / graph_width ≤ 256 }
    ensures { Makes result (send_returned (graph_of graph.now) back k caller) }
{
    let to = (back as usize) + (k as usize);
    if to < graph.len() / instruction::WIDTH {
        let d = Destination {
            instruction: to as u16,
            port: 0,
        };
        to_one(caller, d)
    } else {
        Err(Refusal::NoReturn)
    }
}

// LEAVE. At path 0 it never fires.
fn leave(graph: &[u8], tables: &Tables, tag: Tag, r: Instruction) -> Result<Outputs, Refusal>
    requires graph_width_len_bound { length graph.now / graph_width ≤ 256 }
    requires returns { Returns (graph_of graph.now) tables.now }
    requires constant_value { within 0 255 r.constant ≡ true }
    ensures { Makes result (send_left (graph_of graph.now) (leave_of tag) r) }
{
    let k = byte(r.constant);
    let Some(caller) = tag.leave() else {
        return to_none(tag);
    };
    let back = tables[caller.site as usize];
    returned(graph, back, k, caller.tag)
}

// Where an operation's tokens go: r is the instruction of the tag, and b the operand on port 1.
// `tables` has the return instruction of each site. The graph has passed its check, so that a site or
// a LEAVE constant is at most a byte, and an instruction of the graph fits 16 bits.
#[tactic(auto, unfolding(crate::specs::Effects::new_tags_of))]
pub fn new_tags(
    graph: &[u8],
    tables: &Tables,
    o: Operation,
    tag: Tag,
    r: Instruction,
    b: i32,
) -> Result<Outputs, Refusal>
    requires { ReadyForTags graph.now tables.now o r }
    ensures { Makes result (new_tags_of o (graph_of graph.now) tag r b) }
{
    // The operation is data of the graph: a match, and no table of functions, which would hand out function pointers.
    match o {
        Operation::Sink => to_none(tag),
        Operation::Out => to_none(tag),
        Operation::Switch => switch(b, tag, r),
        Operation::Next => next(tag, r),
        Operation::Enter => enter(tag, r),
        Operation::Leave => leave(graph, tables, tag, r),
        Operation::Unknown => to_none(tag),
        _ => to_all(tag, r),
    }
}
