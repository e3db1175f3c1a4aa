// Prints what becomes of some expressions: the graph, the value, and what runs of the graph in two orders give.
#![tactic(auto)]

ghost use Rattle.std.specs.Prelude.{◌/◌, ◌≤◌, ◌<◌, length};
ghost use Rattle.record.specs.Widths.{term_width, value_width, graph_width, token_width};

use record::codec::{Decode, Encode};
use record::instruction::Instruction;
use record::tag::{Path, Tag};
use record::token::{Content, Token};
use record::{instruction, term, token};
use rules::answer;
use rules::answer::Answer;
use std::io;

// Record i of an expression. The kind is a number, since one that no expression has is tried too.
fn put_term(expression: &mut [u8], i: usize, kind: u8, left: u8, right: u8)
    requires { i < length expression.old / term_width }
{
    let bytes = [kind, left, right, 0, 0, 0, 0, 0];
    buffer::put_row(expression, term::WIDTH, i, &bytes);
}

// The value of variable k, as `value` takes it and as the run is fed it.
fn put_value(values: &mut [u8], inputs: &mut [u8], k: usize, value: i32)
    requires { (k < length values.old / value_width) × (k < length inputs.old / token_width) × (k < 65536) }
{
    let bytes = value.to_le_bytes();
    buffer::put_row(values, term::VALUE_WIDTH, k, &bytes);
    let tag = Tag {
        path: Path::ROOT,
        iteration: 0,
        instruction: k as u16,
    };
    let t = Token {
        tag,
        port: 0,
        content: Content::Live(value),
    };
    t.write(inputs, k);
}

// An instruction with its destination.
fn say_instruction(rt: &impl Print, i: usize, r: Instruction) -> io::Result<()> {
    let first = r.first;
    print!(rt; "  {i}: code {}", r.code)?;
    if r.fanout == 1 {
        print!(rt; " to {} port {}", first.instruction, first.port)?;
    }
    println!(rt)
}

fn say_graph(rt: &impl Print, graph: &[u8]) -> io::Result<()> {
    for i in 0..graph.len() / instruction::WIDTH {
        say_instruction(rt, i, Instruction::read(graph, i))?;
    }
    Ok(())
}

fn say_if_out(rt: &impl Print, t: Token, out: usize) -> io::Result<()> {
    let tag = t.tag;
    let content = t.content;
    if tag.instruction as usize == out {
        if let Content::Live(v) = content {
            print!(rt; ", OUT has {v}")?;
        }
    }
    Ok(())
}

// The token at OUT, which is the graph's last instruction. Bytes past the used records are zeros, which name the first.
fn say_out(rt: &impl Print, ledger: &[u8], out: usize) -> io::Result<()> {
    for i in 0..ledger.len() / token::WIDTH {
        say_if_out(rt, Token::read(ledger, i), out)?;
    }
    Ok(())
}

fn say_run(
    rt: &impl Print,
    name: &str,
    graph: &[u8],
    inputs: &[u8],
    picks: &[u8],
    out: usize,
) -> io::Result<()> {
    let mut ledger = [0u8; 300 * token::WIDTH];
    let mut cells = [0u8; 8];
    let a: Answer = engine::run(graph, b"", inputs, picks, 2048, 0, &mut ledger, &mut cells);
    let outcome = a.outcome;
    print!(rt;
        "{name}word {}, firings {}, tokens {}",
        answer::word(outcome),
        a.firings,
        a.tokens
    )?;
    say_out(rt, &ledger, out)?;
    println!(rt)
}

fn say_evaluated(rt: &impl Print, expression: &[u8], values: &[u8]) -> io::Result<()> {
    let evaluated = expression::value(expression, values);
    match evaluated {
        Ok(v) => {
            println!(rt; "  value {v}")?;
        }
        Err(fault) => {
            println!(rt;
                "  no value: refused {} at {}",
                answer::number(fault.refusal),
                fault.place
            )?;
        }
    }
    Ok(())
}

// The graph that was made, its value and its runs; where `whole`, with every instruction.
fn say_made(
    rt: &impl Print,
    whole: bool,
    graph: &[u8],
    expression: &[u8],
    values: &[u8],
    inputs: &[u8],
) -> io::Result<()> {
    let picks = [7u8; 400];
    if graph.len() < instruction::WIDTH {
        return Ok(());
    }
    let out = graph.len() / instruction::WIDTH - 1;
    if whole {
        say_graph(rt, graph)?;
    }
    say_evaluated(rt, expression, values)?;
    say_run(rt, "  oldest first: ", graph, inputs, b"", out)?;
    say_run(rt, "  by picks: ", graph, inputs, &picks, out)
}

fn say_expression(
    rt: &impl Print,
    name: &str,
    whole: bool,
    expression: &[u8],
    values: &[u8],
    inputs: &[u8],
) -> io::Result<()> {
    let mut graph = [0u8; 100 * instruction::WIDTH];
    let made = expression::to_graph(expression, &mut graph);
    match made {
        Ok(records) => {
            println!(rt; "{name}: records {records}")?;
            if 100 < records {
                return Ok(());
            }
            let end = records * instruction::WIDTH;
            say_made(rt, whole, &graph[0..end], expression, values, inputs)?;
        }
        Err(fault) => {
            println!(rt;
                "{name}: refused {} at {}",
                answer::number(fault.refusal),
                fault.place
            )?;
        }
    }
    Ok(())
}

// A variable alone.
fn say_variable(rt: &impl Print) -> io::Result<()> {
    let expression = [0u8; term::WIDTH];
    let mut values = [0u8; term::VALUE_WIDTH];
    let mut inputs = [0u8; token::WIDTH];
    put_value(&mut values, &mut inputs, 0, -7);
    say_expression(rt, "x", true, &expression, &values, &inputs)
}

// (x SUB y) DIV z, with z before y.
fn say_quotient(rt: &impl Print, name: &str, x: i32, y: i32, z: i32) -> io::Result<()> {
    let mut expression = [0u8; 5 * term::WIDTH];
    let mut values = [0u8; 3 * term::VALUE_WIDTH];
    let mut inputs = [0u8; 3 * token::WIDTH];
    put_term(&mut expression, 3, 17, 0, 2);
    put_term(&mut expression, 4, 19, 3, 1);
    put_value(&mut values, &mut inputs, 0, x);
    put_value(&mut values, &mut inputs, 1, z);
    put_value(&mut values, &mut inputs, 2, y);
    say_expression(rt, name, true, &expression, &values, &inputs)
}

// x and y, and an operation of that kind on those records.
fn say_pair(
    rt: &impl Print,
    name: &str,
    kind: u8,
    left: u8,
    right: u8,
    x: i32,
    y: i32,
) -> io::Result<()> {
    let mut expression = [0u8; 3 * term::WIDTH];
    let mut values = [0u8; 2 * term::VALUE_WIDTH];
    let mut inputs = [0u8; 2 * token::WIDTH];
    put_term(&mut expression, 2, kind, left, right);
    put_value(&mut values, &mut inputs, 0, x);
    put_value(&mut values, &mut inputs, 1, y);
    say_expression(rt, name, false, &expression, &values, &inputs)
}

// What `to_graph` says where the output has 31 bytes.
fn say_room(rt: &impl Print, name: &str, expression: &[u8]) -> io::Result<()> {
    let mut graph = [9u8; 31];
    let made = expression::to_graph(expression, &mut graph);
    match made {
        Ok(records) => println!(rt; "{name}: records {records}"),
        Err(fault) => {
            println!(rt;
                "{name}: refused {} at {}",
                answer::number(fault.refusal),
                fault.place
            )
        }
    }
}

fn say_rooms(rt: &impl Print) -> io::Result<()> {
    let expression = [0u8; 9];
    say_room(rt, "no records", &expression[0..0])?;
    say_room(rt, "a record and a byte", &expression)?;
    say_room(rt, "31 bytes of room", &expression[0..8])
}

// Sums from the left: a variable at each odd record and at 0, an ADD at each even one.
fn put_sums(expression: &mut [u8])
    requires { length expression.old ≤ 808 }
{
    for i in (2..expression.len() / term::WIDTH).step_by(2) {
        put_term(expression, i, 16, (i - 2) as u8, (i - 1) as u8);
    }
}

fn put_counts(values: &mut [u8], inputs: &mut [u8])
    requires { (length values.old / value_width ≤ 100) × (length values.old / value_width ≤ length inputs.old / token_width) }
{
    for k in 0..values.len() / term::VALUE_WIDTH {
        put_value(values, inputs, k, k as i32);
    }
}

// The longest: 50 variables, whose values are 0 to 49, and 49 operations.
fn say_longest(rt: &impl Print) -> io::Result<()> {
    let mut expression = [0u8; 99 * term::WIDTH];
    let mut values = [0u8; 50 * term::VALUE_WIDTH];
    let mut inputs = [0u8; 50 * token::WIDTH];
    put_sums(&mut expression);
    put_counts(&mut values, &mut inputs);
    say_expression(rt, "sum of 50", false, &expression, &values, &inputs)
}

// An even number of records has one that is never named.
fn say_even(rt: &impl Print) -> io::Result<()> {
    let mut expression = [0u8; 100 * term::WIDTH];
    put_sums(&mut expression);
    say_expression(rt, "100 records", false, &expression, b"", b"")
}

fn main(rt: HostRuntime) -> io::Result<()> {
    say_variable(&rt)?;
    say_quotient(&rt, "(x SUB y) DIV z", 7, 14, 2)?;
    say_quotient(&rt, "(x SUB y) DIV 0", 7, 14, 0)?;
    say_pair(&rt, "LT", 21, 0, 1, -3, 4)?;
    say_pair(&rt, "MUL past 32 bits", 18, 0, 1, 65536, 65536)?;
    say_pair(&rt, "kind 24", 24, 0, 1, 1, 1)?;
    say_pair(&rt, "a record names itself", 16, 0, 2, 1, 1)?;
    say_pair(&rt, "one named twice", 16, 1, 1, 1, 1)?;
    say_rooms(&rt)?;
    say_longest(&rt)?;
    say_even(&rt)
}
