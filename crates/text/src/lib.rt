// The printed lines of an answer, a listing and cells, in a lent buffer.
#![tactic(auto)]

mod digits;
mod line;

ghost use Rattle.std.specs.Prelude.{◌≡◌, ◌+◌, ◌/◌, ◌≤◌, ◌<◌, [], ◌++◌, leb, length, drop, get_or, false};
ghost use Rattle.text.specs.Text.{answer_line, cell_line, lines, printed, printed_of, printed_out};
ghost use Rattle.text.specs.Lines.{RoomForText, AddedText, text_of_lines, token_lines, lines_of_cells, AbsentFrom};
ghost use Rattle.text.specs.Room.{most_bytes_of};
ghost use Rattle.record.specs.Cells as Cells;
ghost use Rattle.record.specs.declared.cell.Cell.TheVariants.{Absent};
ghost use Rattle.record.specs.Widths.{token_width, cell_width};

use crate::digits::Small;
use record::cell::Cell;
use record::codec::Decode;
use record::tag::Path;
use record::token::Token;
use record::{cell, token};
use rules::answer::{Answer, Outcome};
use std::error::Error;
use std::fmt;

// The text does not fit the buffer.
#[derive(Clone, Copy, Debug, PartialEq, Eq)]
pub struct TooSmall;

impl fmt::Display for TooSmall {
    fn fmt<W: fmt::Write>(&self, f: &mut fmt::Formatter<W>) -> fmt::Result {
        f.write_str("too small")
    }
}

impl Error for TooSmall {}

// The bytes of the longest lines, with 39 digits to a path and 20 to a number of 64 bits: of a refused
// answer, of a token, which is the longest of all, and of a cell.
const ANSWER: usize = 74;

const TOKEN: usize = 75;

const CELL: usize = 46;

// How many lines there are, one to each absent cell counted too.
fn count(listing: &[u8], cells: &[u8]) -> usize
    ensures { result ≡ 1 + (length listing.now / token_width + length cells.now / cell_width) }
{
    1 + (listing.len() / token::WIDTH + cells.len() / cell::WIDTH)
}

// Puts line j into `out` from `at` on; that of an absent cell is empty. The answer, the listing and the cells stay three:
// in one struct no proof of `fits` closed, which needs that the items of both slices are bytes.
fn put_line(
    out: &mut [u8],
    at: usize,
    answer: Answer,
    listing: &[u8],
    cells: &[u8],
    j: usize,
) -> usize
    requires { (j < 1 + (length listing.now / token_width + length cells.now / cell_width)) × RoomForText out.old at (get_or (lines answer listing.now cells.now) j []) }
    ensures { AddedText out.old out.new at result (get_or (lines answer listing.now cells.now) j []) }
{
    let tokens = listing.len() / token::WIDTH;
    if j == 0 {
        line::put_answer(out, at, answer)
    } else if j <= tokens {
        line::put_token(out, at, Token::read(listing, j - 1))
    } else {
        let k = j - 1 - tokens;
        line::put_cell(out, at, k, Cell::read(cells, k))
    }
}

// How long the first line is at most: 20 digits to a number, two to a refusal, one to a place below 10.
fn most_first(answer: Answer) -> usize
    ensures { (length (answer_line answer) ≤ result) × (result ≤ 74) }
{
    let outcome = answer.outcome;
    match outcome {
        Outcome::Completed => 54,
        Outcome::Hung => 49,
        Outcome::Spent => 50,
        Outcome::Refused(_, place) => { if place < 10 { 55 } else { ANSWER } }
    }
}

// Whether a first line of `first` bytes and the longest lines of the records are at most `room` bytes.
fn longest_fits(first: usize, listing: &[u8], cells: &[u8], room: usize) -> bool
    ensures { result ≡ leb (first + most_bytes_of listing.now cells.now) room }
{
    let tokens = listing.len() / token::WIDTH;
    if room < first {
        return false;
    }
    let left = room - first;
    if left / TOKEN < tokens {
        return false;
    }
    cells.len() / cell::WIDTH <= (left - tokens * TOKEN) / CELL
}

// Whether the text is at most `room` bytes long. Where the longest one is, no line has to be made. Else
// each line is taken off the room, since the length itself may be past what a usize holds.
#[tactic(auto, unfolding(crate::specs::Text::printed))]
fn fits(answer: Answer, listing: &[u8], cells: &[u8], room: usize) -> bool
    ensures { result ≡ leb (length (printed answer listing.now cells.now)) room }
{
    if longest_fits(most_first(answer), listing, cells, room) {
        return true;
    }
    let n = count(listing, cells);
    let mut line = [0u8; TOKEN];
    let mut left = room;
    for j in 0..n {
        let k = put_line(&mut line, 0, answer, listing, cells, j);
        if left < k {
            return false;
        }
        left -= k;
    }
    true
}

// Puts the lines of the tokens of a listing.
fn put_tokens(out: &mut [u8], from: usize, listing: &[u8]) -> usize
    requires { RoomForText out.old from (text_of_lines (token_lines listing.now)) }
    ensures { AddedText out.old out.new from result (text_of_lines (token_lines listing.now)) }
{
    let small = Small::new();
    let n = listing.len() / token::WIDTH;
    let mut text = [0u8; 40];
    let mut last = Path { low: 0, high: 0 };
    let mut count = line::make_path(&mut text, last);
    let mut at = from;
    for i in 0..n {
        let row = buffer::row_at(listing, token::WIDTH, i);
        let path = line::path_of(row);
        count = line::keep_path(&mut text, count, last, path);
        last = path;
        at = line::put_record(out, at, &small, &text, count, row);
    }
    at
}

// Whether cell k has a line: one that is absent has none.
fn has_line(cells: &[u8], k: usize) -> bool
    requires { k < length cells.now / cell_width }
    ensures { result ≡ false → Cells.cell_of_record cells.now k ≡ Absent }
{
    !matches!(Cell::read(cells, k), Cell::Absent)
}

// All bits of the states of the eight cells from k on.
fn eight_states(cells: &[u8], k: usize) -> u8
    requires { k + 8 ≤ length cells.now / cell_width }
    ensures { result ≡ 0 → AbsentFrom cells.now k 8 }
{
    let s = buffer::row_at(cells, cell::WIDTH, k);
    s[4] | s[12] | s[20] | s[28] | s[36] | s[44] | s[52] | s[60]
}

// How many cells from k on are passed over: none if cell k has a line; else that one, or eight together. Most cells are absent.
fn passed_over(cells: &[u8], k: usize) -> usize
    requires { k < length cells.now / cell_width }
    ensures { (k + result ≤ length cells.now / cell_width) × AbsentFrom cells.now k result }
{
    if has_line(cells, k) {
        return 0;
    }
    if k % 8 == 0 {
        if cells.len() / cell::WIDTH - k >= 8 {
            if eight_states(cells, k) == 0 {
                return 8;
            }
        }
    }
    1
}

// Puts the lines of the cells.
fn put_cells(out: &mut [u8], from: usize, cells: &[u8]) -> usize
    requires { RoomForText out.old from (text_of_lines (lines_of_cells cells.now)) }
    ensures { AddedText out.old out.new from result (text_of_lines (lines_of_cells cells.now)) }
{
    let n = cells.len() / cell::WIDTH;
    let mut at = from;
    let mut k = 0;
    // No `for`: an iteration puts a cell, or passes one or eight that are absent.
    while k < n {
        let absent = passed_over(cells, k);
        if absent == 0 {
            at = line::put_cell(out, at, k, Cell::read(cells, k));
            k += 1;
        } else {
            k += absent;
        }
    }
    at
}

// Writes the text to the start of `out`, line by line in place, and answers how long it is.
#[tactic(auto, unfolding(crate::specs::Text::printed))]
fn write(answer: Answer, listing: &[u8], cells: &[u8], out: &mut [u8]) -> usize
    requires { RoomForText out.old 0 (printed answer listing.now cells.now) }
    ensures { AddedText out.old out.new 0 result (printed answer listing.now cells.now) }
{
    let head = line::put_answer(out, 0, answer);
    let tokens = put_tokens(out, head, listing);
    put_cells(out, tokens, cells)
}

// Prints an answer, the tokens of a listing and the cells that are not absent to the start of `out`, and
// answers how many bytes were written. `out` stays untouched unless the whole text fits.
#[tactic(auto, unfolding(crate::specs::Text::printed_of, crate::specs::Text::printed_out))]
pub fn print(
    answer: Answer,
    listing: &[u8],
    cells: &[u8],
    out: &mut [u8],
) -> Result<usize, TooSmall>
    ensures value { result ≡ printed_of (printed answer listing.now cells.now) out.old }
    ensures out_after { out.new ≡ printed_out (printed answer listing.now cells.now) out.old }
{
    if fits(answer, listing, cells, out.len()) {
        Ok(write(answer, listing, cells, out))
    } else {
        Err(TooSmall)
    }
}
