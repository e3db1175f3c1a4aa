// Prints records of each kind with every field at its ends: their bytes, and what is read back.
#![tactic(auto)]

use record::cell::Cell;
use record::codec::{Decode, Encode};
use record::instruction::{Destination, Instruction};
use record::operation;
use record::tag::{Path, Tag};
use record::token::{Content, Token};
use std::io;

fn say_bytes(rt: &impl Print, bytes: &[u8]) -> io::Result<()> {
    for byte in bytes {
        print!(rt; "{byte:02x}")?;
    }
    Ok(())
}

fn say_tag(rt: &impl Print, tag: Tag) -> io::Result<()> {
    let path = tag.path;
    print!(rt;
        " {} {} {} {}",
        path.high, path.low, tag.iteration, tag.instruction
    )
}

fn say_content(rt: &impl Print, content: Content) -> io::Result<()> {
    match content {
        Content::Live(v) => print!(rt; " live {v}"),
        Content::Spent(v) => print!(rt; " spent {v}"),
        Content::Deferred(cell) => print!(rt; " deferred {cell}"),
    }
}

// A token's bytes, and the token read back from them.
fn show_token(rt: &impl Print, t: Token) -> io::Result<()> {
    let bytes = t.encode();
    say_bytes(rt, &bytes)?;
    let back = Token::decode(&bytes);
    let tag = back.tag;
    let content = back.content;
    say_tag(rt, tag)?;
    print!(rt; " {}", back.port)?;
    say_content(rt, content)?;
    println!(rt)
}

// The port is a number: 255, which no instruction has, is tried too.
fn show_tokens(rt: &impl Print, tag: Tag, port: u8) -> io::Result<()> {
    show_token(
        rt,
        Token {
            tag,
            port,
            content: Content::Live(-2147483648),
        },
    )?;
    show_token(
        rt,
        Token {
            tag,
            port,
            content: Content::Spent(2147483647),
        },
    )?;
    show_token(
        rt,
        Token {
            tag,
            port,
            content: Content::Deferred(4294967295),
        },
    )
}

fn show_cell(rt: &impl Print, x: Cell) -> io::Result<()> {
    let bytes = x.encode();
    say_bytes(rt, &bytes)?;
    let back = Cell::decode(&bytes);
    match back {
        Cell::Absent => println!(rt; " absent"),
        Cell::Waiting => println!(rt; " waiting"),
        Cell::Present(v) => println!(rt; " present {v}"),
    }
}

fn say_destination(rt: &impl Print, d: Destination) -> io::Result<()> {
    print!(rt; " {} {}", d.instruction, d.port)
}

fn show_instruction(rt: &impl Print, r: Instruction) -> io::Result<()> {
    let bytes = r.encode();
    say_bytes(rt, &bytes)?;
    let back = Instruction::decode(&bytes);
    let first = back.first;
    let second = back.second;
    print!(rt; " {} {}", back.code, back.fanout)?;
    say_destination(rt, first)?;
    say_destination(rt, second)?;
    println!(rt; " {} {}", back.constant, back.zeros)
}

// The tag in a call, or the tag again where there are too many levels.
fn call(rt: &impl Print, tag: Tag, site: u8) -> io::Result<Tag> {
    match tag.enter(site) {
        Some(inner) => {
            print!(rt; "enter")?;
            say_tag(rt, inner)?;
            println!(rt)?;
            Ok(inner)
        }
        None => {
            println!(rt; "too deep")?;
            Ok(tag)
        }
    }
}

fn show_leave(rt: &impl Print, tag: Tag) -> io::Result<()> {
    match tag.leave() {
        Some(caller) => {
            print!(rt; "leave {}", caller.site)?;
            say_tag(rt, caller.tag)?;
        }
        None => print!(rt; "no caller")?,
    }
    println!(rt)
}

fn show_next(rt: &impl Print, tag: Tag) -> io::Result<()> {
    match tag.next() {
        Some(later) => {
            print!(rt; "next")?;
            say_tag(rt, later)?;
        }
        None => print!(rt; "last iteration")?,
    }
    println!(rt)
}

fn show_records(rt: &impl Print) -> io::Result<()> {
    show_tokens(rt, Tag::root(0), 0)?;
    show_tokens(
        rt,
        Tag {
            path: Path {
                low: 18446744073709551615,
                high: 72623859790382856,
            },
            iteration: 255,
            instruction: 65535,
        },
        255,
    )?;
    show_cell(rt, Cell::Absent)?;
    show_cell(rt, Cell::Waiting)?;
    show_cell(rt, Cell::Present(0))?;
    show_cell(rt, Cell::Present(-2147483648))?;
    show_cell(rt, Cell::Present(2147483647))?;
    let none = Destination {
        instruction: 0,
        port: 0,
    };
    let most = Destination {
        instruction: 65535,
        port: 255,
    };
    show_instruction(
        rt,
        Instruction {
            code: 0,
            fanout: 0,
            first: none,
            second: most,
            constant: -2147483648,
            zeros: 0,
        },
    )?;
    show_instruction(
        rt,
        Instruction {
            code: 255,
            fanout: 255,
            first: most,
            second: none,
            constant: 2147483647,
            zeros: 4294967295,
        },
    )
}

fn show_calls(rt: &impl Print) -> io::Result<()> {
    let start = Tag {
        path: Path::ROOT,
        iteration: 2,
        instruction: 7,
    };
    let one = call(rt, start, 3)?;
    let two = call(rt, one, 255)?;
    let three = call(rt, two, 1)?;
    let four = call(rt, three, 128)?;
    let five = call(rt, four, 5)?;
    let six = call(rt, five, 6)?;
    let seven = call(rt, six, 7)?;
    let eight = call(rt, seven, 255)?;
    call(rt, eight, 1)?;
    show_leave(rt, eight)?;
    show_leave(rt, five)?;
    show_leave(rt, four)?;
    show_leave(rt, one)?;
    show_leave(rt, start)?;
    show_next(
        rt,
        Tag {
            path: Path { low: 9, high: 8 },
            iteration: 254,
            instruction: 7,
        },
    )?;
    show_next(
        rt,
        Tag {
            path: Path { low: 9, high: 8 },
            iteration: 255,
            instruction: 7,
        },
    )
}

fn show_operand_count(rt: &impl Print, code: u8) -> io::Result<()> {
    let n = operation::operands(code);
    if n != 0 {
        print!(rt; " {code}: {n}")?;
    }
    Ok(())
}

// The operand counts that are not 0, each with its code.
fn show_operands(rt: &impl Print) -> io::Result<()> {
    for code in 0..255 {
        show_operand_count(rt, code)?;
    }
    println!(rt)
}

fn main(rt: HostRuntime) -> io::Result<()> {
    show_records(&rt)?;
    show_calls(&rt)?;
    show_operands(&rt)
}
