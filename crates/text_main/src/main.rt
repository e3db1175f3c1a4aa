// Prints answers with tokens and cells at the ends of their ranges. Each time: what `print` answers,
// and then the whole buffer, which was lent as points.
#![tactic(auto)]

ghost use Rattle.std.specs.Prelude.{◌≡◌, ◌*◌, ◌≤◌, length};
ghost use Rattle.record.specs.Widths.{token_width, cell_width};

use record::cell::Cell;
use record::codec::Encode;
use record::tag::{Path, Tag};
use record::token::{Content, Token};
use record::{cell, token};
use rules::answer::{Answer, Outcome, Refusal};
use std::io;

fn show(
    rt: &impl Print,
    answer: Answer,
    listing: &[u8],
    cells: &[u8],
    out: &mut [u8],
) -> io::Result<()> {
    match text::print(answer, listing, cells, out) {
        Ok(n) => {
            println!(rt; "done {n}")?;
        }
        Err(error) => {
            println!(rt; "{error}")?;
        }
    }
    rt.write_all(out)?;
    println!(rt)
}

// In a buffer of `bytes` bytes.
fn show_in(
    rt: &impl Print,
    answer: Answer,
    listing: &[u8],
    cells: &[u8],
    bytes: usize,
) -> io::Result<()>
    requires { bytes ≤ 512 }
{
    let mut out = [b'.'; 512];
    show(rt, answer, listing, cells, &mut out[0..bytes])
}

const GREATEST: Path = Path {
    low: 18446744073709551615,
    high: 18446744073709551615,
};

// The port is a number: 255, which no instruction has, is printed too.
fn token_of(path: Path, iteration: u8, instruction: u16, port: u8, content: Content) -> Token {
    let tag = Tag {
        path,
        iteration,
        instruction,
    };
    Token { tag, port, content }
}

// The tokens of 01's printed example.
fn put_example(listing: &mut [u8])
    requires { length listing.old ≡ 3 * token_width }
{
    token_of(Path::ROOT, 0, 0, 0, Content::Spent(7)).write(listing, 0);
    token_of(Path::ROOT, 0, 0, 1, Content::Spent(-9)).write(listing, 1);
    token_of(Path::ROOT, 0, 1, 0, Content::Live(-2)).write(listing, 2);
}

// Fields at their least, a deferred token, and the greatest path.
fn put_least(listing: &mut [u8])
    requires { length listing.old ≡ 5 * token_width }
{
    token_of(Path::ROOT, 0, 0, 0, Content::Live(0)).write(listing, 0);
    let entered = Path { low: 770, high: 0 };
    token_of(entered, 2, 1, 1, Content::Deferred(1023)).write(listing, 1);
    token_of(GREATEST, 0, 9, 0, Content::Live(-1)).write(listing, 2);
}

// Every field at its greatest, and the ends of a value.
fn put_greatest(listing: &mut [u8])
    requires { length listing.old ≡ 5 * token_width }
{
    let least = Content::Spent(-2147483648);
    let greatest = Content::Live(2147483647);
    token_of(GREATEST, 255, 65535, 255, least).write(listing, 3);
    token_of(GREATEST, 255, 65535, 255, greatest).write(listing, 4);
}

// The first cell stays absent, and so does one between others.
fn put_cells(cells: &mut [u8])
    requires { length cells.old ≡ 12 * cell_width }
{
    Cell::Waiting.write(cells, 1);
    Cell::Present(0).write(cells, 2);
    Cell::Present(-2147483648).write(cells, 9);
    Cell::Present(2147483647).write(cells, 10);
    Cell::Absent.write(cells, 11);
}

fn show_example(rt: &impl Print, bytes: usize) -> io::Result<()>
    requires { bytes ≤ 512 }
{
    let mut listing = [0u8; 3 * token::WIDTH];
    put_example(&mut listing);
    let answer = Answer {
        outcome: Outcome::Completed,
        firings: 1,
        tokens: 3,
    };
    show_in(rt, answer, &listing, &[0u8; 2 * cell::WIDTH], bytes)
}

fn show_ends(rt: &impl Print, outcome: Outcome, bytes: usize) -> io::Result<()>
    requires { bytes ≤ 512 }
{
    let mut listing = [0u8; 5 * token::WIDTH];
    put_least(&mut listing);
    put_greatest(&mut listing);
    let mut cells = [0u8; 12 * cell::WIDTH];
    put_cells(&mut cells);
    let answer = Answer {
        outcome,
        firings: 18446744073709551615,
        tokens: 0,
    };
    show_in(rt, answer, &listing, &cells, bytes)
}

fn main(rt: HostRuntime) -> io::Result<()> {
    // As long as the text, one byte less, and three more.
    show_example(&rt, 65)?;
    show_example(&rt, 64)?;
    show_example(&rt, 68)?;
    show_example(&rt, 0)?;
    show_ends(&rt, Outcome::Spent, 512)?;
    show_ends(&rt, Outcome::Hung, 512)?;
    show_ends(
        &rt,
        Outcome::Refused(Refusal::NoReturn, 18446744073709551615),
        512,
    )?;
    let refused = Answer {
        outcome: Outcome::Refused(Refusal::LedgerFull, 1),
        firings: 0,
        tokens: 0,
    };
    // No records, and bytes that are no whole record.
    show_in(&rt, refused, &[0u8; 0], &[0u8; 0], 16)?;
    show_in(&rt, refused, &[1u8; token::WIDTH - 1], &[2u8; 7], 15)
}
