// Prints what some graphs will need: the bounds of firings and tokens, or the refusal's number and place.
#![tactic(auto)]

ghost use Rattle.std.specs.Prelude.{◌/◌, ◌≤◌, ◌<◌, length};
ghost use Rattle.record.specs.Widths.{graph_width, token_width};

use record::codec::Encode;
use record::instruction::{Destination, Instruction};
use record::tag::Tag;
use record::token::{Content, Token};
use record::{instruction, token};
use rules::answer;
use std::io;

fn say_bounds(rt: &impl Print, name: &str, graph: &[u8], inputs: &[u8]) -> io::Result<()> {
    match bounds::bounds(graph, inputs) {
        Ok(needs) => {
            println!(rt;
                "{name}: at most {} firings and {} tokens",
                needs.firings, needs.tokens
            )?;
        }
        Err(fault) => {
            println!(rt;
                "{name}: refused {} at {}",
                answer::number(fault.refusal),
                fault.place
            )?;
        }
    }
    Ok(())
}

// The operations of these graphs, with their codes.
#[derive(Clone, Copy)]
enum Operation {
    Copy = 1,
    Out = 3,
    Switch = 5,
    Next = 7,
    Leave = 9,
    Add = 16,
}

// How many destinations an operation has here.
fn fan_out(operation: Operation) -> u8 {
    match operation {
        Operation::Out | Operation::Leave => 0,
        Operation::Copy | Operation::Next | Operation::Add => 1,
        Operation::Switch => 2,
    }
}

// Record i: an operation that sends to port 0 of these instructions.
fn put(graph: &mut [u8], i: usize, operation: Operation, first: u16, second: u16)
    requires { i < length graph.old / graph_width }
{
    let r = Instruction {
        code: operation as u8,
        fanout: fan_out(operation),
        first: Destination {
            instruction: first,
            port: 0,
        },
        second: Destination {
            instruction: second,
            port: 0,
        },
        constant: 0,
        zeros: 0,
    };
    r.write(graph, i);
}

// Input i, a live token. The port is a number, as `Token` has it.
fn put_input(inputs: &mut [u8], i: usize, instruction: u16, port: u8, value: i32)
    requires { i < length inputs.old / token_width }
{
    let tag = Tag::root(instruction);
    let t = Token {
        tag,
        port,
        content: Content::Live(value),
    };
    t.write(inputs, i);
}

// ADD to OUT.
fn say_sums(rt: &impl Print) -> io::Result<()> {
    let mut graph = [0u8; 2 * instruction::WIDTH];
    let mut inputs = [0u8; 2 * token::WIDTH];
    put(&mut graph, 0, Operation::Add, 1, 0);
    put(&mut graph, 1, Operation::Out, 0, 0);
    put_input(&mut inputs, 0, 0, 0, 7);
    put_input(&mut inputs, 1, 0, 1, -9);
    say_bounds(rt, "ADD", &graph, &inputs)?;
    say_bounds(rt, "ADD with one operand", &graph, &inputs[0..token::WIDTH])?;
    say_bounds(
        rt,
        "inputs not whole",
        &graph,
        &inputs[0..2 * token::WIDTH - 1],
    )?;
    say_bounds(rt, "no graph", &graph[0..0], &inputs)
}

// SWITCH to two COPYs to one OUT.
fn say_switch(rt: &impl Print) -> io::Result<()> {
    let mut graph = [0u8; 4 * instruction::WIDTH];
    let mut inputs = [0u8; 2 * token::WIDTH];
    put(&mut graph, 0, Operation::Switch, 1, 2);
    put(&mut graph, 1, Operation::Copy, 3, 0);
    put(&mut graph, 2, Operation::Copy, 3, 0);
    put(&mut graph, 3, Operation::Out, 0, 0);
    put_input(&mut inputs, 0, 0, 0, 7);
    put_input(&mut inputs, 1, 0, 1, 0);
    say_bounds(rt, "SWITCH", &graph, &inputs)
}

// COPY to that operation to OUT, with an input to this instruction.
fn say_through(rt: &impl Print, name: &str, operation: Operation, to: u16) -> io::Result<()> {
    let mut graph = [0u8; 3 * instruction::WIDTH];
    let mut inputs = [0u8; token::WIDTH];
    put(&mut graph, 0, Operation::Copy, 1, 0);
    put(&mut graph, 1, operation, 2, 0);
    put(&mut graph, 2, Operation::Out, 0, 0);
    put_input(&mut inputs, 0, to, 0, 7);
    say_bounds(rt, name, &graph, &inputs)
}

// COPY to LEAVE.
fn say_leave(rt: &impl Print) -> io::Result<()> {
    let mut graph = [0u8; 2 * instruction::WIDTH];
    let mut inputs = [0u8; token::WIDTH];
    put(&mut graph, 0, Operation::Copy, 1, 0);
    put(&mut graph, 1, Operation::Leave, 0, 0);
    put_input(&mut inputs, 0, 0, 0, 7);
    say_bounds(rt, "LEAVE", &graph, &inputs)
}

// Each record sends to the one before it, the first is OUT.
fn put_chain(graph: &mut [u8])
    requires { length graph.old ≤ 4096 }
{
    let mut operation = Operation::Out;
    let mut to = 0;
    for i in 0..graph.len() / instruction::WIDTH {
        put(graph, i, operation, to, 0);
        operation = Operation::Copy;
        to = i as u16;
    }
}

// A round adds one of 256 records.
fn say_chain(rt: &impl Print) -> io::Result<()> {
    let mut graph = [0u8; 256 * instruction::WIDTH];
    let mut inputs = [0u8; token::WIDTH];
    put_chain(&mut graph);
    put_input(&mut inputs, 0, 255, 0, 7);
    say_bounds(rt, "chain in falling order", &graph, &inputs)
}

fn main(rt: HostRuntime) -> io::Result<()> {
    say_sums(&rt)?;
    say_switch(&rt)?;
    say_through(&rt, "NEXT", Operation::Next, 0)?;
    say_through(&rt, "NEXT and an input to 9", Operation::Next, 9)?;
    say_through(&rt, "COPY in its place", Operation::Copy, 0)?;
    say_leave(&rt)?;
    say_chain(&rt)
}
