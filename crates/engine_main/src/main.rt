// Runs the cases of standard input, which tests/cases makes from their description, and prints for each
// its name, the printed lines of its answer, ledger and cells, and what of the two is still as lent. The
// records of the ledger stand in order of arrival. What is expected, the second emulator gave.
//
// Input: the number of cases, the cases, and a byte 10. A case is a byte 10 and seven parts: name, graph,
// inputs, picks, ledger, cells, and two numbers of two bytes, the budget and the byte of the ledger from
// which on its records are printed. A part is the number of its bytes that follow, the number of those
// that are lent, and the bytes that follow; the rest of those lent are zeros.
#![tactic(auto)]

ghost use Rattle.std.specs.Prelude.{◌≡◌, ◌≤◌, ◌<◌, length, IfOk};

use console::read_full;
use record::{cell, instruction, pick, token};
use rules::answer::Answer;
use std::io;
use text::TooSmall;

// Reads a part of a case to the start of buf, and answers how many bytes of buf are lent.
fn read_part(rt: &HostRuntime, buf: &mut [u8]) -> io::Result<usize>
    ensures { IfOk result (λ lent. lent ≤ length buf.new) }
{
    let mut head = [0u8; 4];
    read_full(&mut rt.stdin(), &mut head)?;
    let given = (number::u16_at(&head, 0) as usize).min(buf.len());
    let lent = (number::u16_at(&head, 2) as usize).min(buf.len());
    read_full(&mut rt.stdin(), &mut buf[0..given])?;
    Ok(lent)
}

// Whether the next byte is the one before a case, or behind the last.
fn read_mark(rt: &HostRuntime) -> io::Result<bool> {
    let mut mark = [0u8; 1];
    read_full(&mut rt.stdin(), &mut mark)?;
    Ok(mark[0] == b'\n')
}

// The number of the first byte from `from` on that is not as lent, or else the length.
fn first_changed(left: &[u8], lent: &[u8], from: usize) -> usize
    requires { length left.now ≡ length lent.now }
{
    for i in from..left.len() {
        if left[i] != lent[i] {
            return i;
        }
    }
    left.len()
}

// A number of all bytes and their places, so that none goes unseen.
fn sum(s: &[u8]) -> usize {
    let mut total = 0;
    for byte in s {
        total = (total * 257 + *byte as usize + 1) % 65521;
    }
    total
}

// A line on a buffer that a run was lent and left: whether it is as lent from a byte on.
fn say_buffer(rt: &HostRuntime, word: &str, left: &[u8], lent: &[u8], from: usize) -> io::Result<()>
    requires { length left.now ≡ length lent.now }
{
    let changed = first_changed(left, lent, from);
    if changed == left.len() {
        print!(rt; "{word} as lent from byte {from}")?;
    } else {
        print!(rt; "{word} changed at byte {changed}")?;
    }
    println!(rt; " of {}, sum {}", left.len(), sum(left))
}

// The lines of an answer, records of the ledger and cells.
fn say_run(rt: &HostRuntime, answer: Answer, records: &[u8], cells: &[u8]) -> io::Result<()> {
    let mut out = [0u8; 200778];
    match text::print(answer, records, cells, &mut out) {
        Ok(n) => rt.write_all(&out[..n])?,
        Err(TooSmall) => println!(rt; "no room")?,
    }
    Ok(())
}

// The bytes of the used records, at most the ledger's.
fn used_bytes(tokens: usize, ledger: &[u8]) -> usize
    ensures { result ≤ length ledger.now }
{
    if tokens <= ledger.len() / token::WIDTH {
        tokens * token::WIDTH
    } else {
        ledger.len()
    }
}

// The bytes of the cells to be printed. A run without tokens made no cell waiting or present: what its
// cells hold is as lent, or zeros.
fn cell_bytes(used: usize, cells: &[u8]) -> usize
    ensures { result ≤ length cells.now }
{
    if used == 0 { 0 } else { cells.len() }
}

// The lines of an answer, of the ledger's records from byte `first` on, and of the cells.
fn say_tokens(
    rt: &HostRuntime,
    answer: Answer,
    first: usize,
    ledger: &[u8],
    cells: &[u8],
    used: usize,
) -> io::Result<()>
    requires { used ≤ length ledger.now }
{
    let start = first.min(used);
    let shown = cell_bytes(used, cells);
    say_run(rt, answer, &ledger[start..used], &cells[0..shown])
}

// Prints what a run answered and left of what it was lent.
fn say_left(
    rt: &HostRuntime,
    answer: Answer,
    first: usize,
    ledger: &[u8],
    cells: &[u8],
    lent_ledger: &[u8],
    lent_cells: &[u8],
) -> io::Result<()>
    requires { (length ledger.now ≡ length lent_ledger.now) × (length cells.now ≡ length lent_cells.now) }
{
    let used = used_bytes(answer.tokens, ledger);
    say_tokens(rt, answer, first, ledger, cells, used)?;
    say_buffer(rt, "ledger", ledger, lent_ledger, used)?;
    say_buffer(rt, "cells", cells, lent_cells, 0)
}

// Runs a case, and prints what it answered and left.
fn show(
    rt: &HostRuntime,
    graph: &[u8],
    inputs: &[u8],
    picks: &[u8],
    budget: u16,
    first: usize,
    lent_ledger: &[u8],
    lent_cells: &[u8],
    ledger: &mut [u8],
    cells: &mut [u8],
) -> io::Result<()>
    requires { (length ledger.old ≡ length lent_ledger.now) × (length cells.old ≡ length lent_cells.now) }
{
    let answer = engine::run(graph, b"", inputs, picks, budget, 0, ledger, cells);
    say_left(rt, answer, first, ledger, cells, lent_ledger, lent_cells)
}

// Reads ledger, cells and numbers of a case, and shows its run.
fn show_lent(rt: &HostRuntime, graph: &[u8], inputs: &[u8], picks: &[u8]) -> io::Result<()> {
    // These too are longer than the longest that a run accepts.
    let mut ledger = [0u8; 2050 * token::WIDTH];
    let mut cells = [0u8; 1026 * cell::WIDTH];
    let mut numbers = [0u8; 4];
    let l = read_part(rt, &mut ledger)?;
    let c = read_part(rt, &mut cells)?;
    read_part(rt, &mut numbers)?;
    let lent_ledger = ledger;
    let lent_cells = cells;
    show(
        rt,
        graph,
        inputs,
        picks,
        number::u16_at(&numbers, 0),
        number::u16_at(&numbers, 2) as usize,
        &lent_ledger[0..l],
        &lent_cells[0..c],
        &mut ledger[0..l],
        &mut cells[0..c],
    )
}

// Reads the parts of a case behind its name, and shows its run.
fn show_parts(rt: &HostRuntime) -> io::Result<()> {
    // Each is longer than the longest that a run accepts.
    let mut graph = [0u8; 258 * instruction::WIDTH];
    let mut inputs = [0u8; 2050 * token::WIDTH];
    let mut picks = [0u8; 2056 * pick::WIDTH];
    let g = read_part(rt, &mut graph)?;
    let i = read_part(rt, &mut inputs)?;
    let p = read_part(rt, &mut picks)?;
    show_lent(rt, &graph[0..g], &inputs[0..i], &picks[0..p])
}

// Reads the name of a case, and prints it as a line.
fn show_name(rt: &HostRuntime) -> io::Result<()> {
    let mut name = [0u8; 256];
    let n = read_part(rt, &mut name)?;
    rt.write_all(&name[..n])?;
    println!(rt)
}

// Shows n cases, or those before one whose mark is missing, and answers how many.
fn show_cases(rt: &HostRuntime, n: usize) -> io::Result<usize> {
    for shown in 0..n {
        if !read_mark(rt)? {
            return Ok(shown);
        }
        show_name(rt)?;
        show_parts(rt)?;
    }
    Ok(n)
}

fn main(rt: HostRuntime) -> io::Result<()> {
    let mut head = [0u8; 2];
    read_full(&mut rt.stdin(), &mut head)?;
    let shown = show_cases(&rt, number::u16_at(&head, 0) as usize)?;
    print!(rt; "cases {shown}")?;
    if read_mark(&rt)? {
        println!(rt; ", all")
    } else {
        println!(rt; ", and then none where one should be")
    }
}
