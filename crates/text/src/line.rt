// Printed lines, made in place: each function puts a text into a buffer from `at` on, answers where it
// ends, and leaves every other byte as it was. It asks for room for just that text.
// `out` and `at` stay two: as one struct they made printing 2 to 5 % slower passed by value, and a fifth slower lent, as `write!`
// would have it lent.
ghost use Rattle.std.specs.Prelude.{◌≡◌, ◌<◌, ◌≤◌, ◌+◌, ◌*◌, ◌/◌, ◌%◌, [], ◌∷◌, ◌++◌, length, take, drop};
ghost use Rattle.buffer.specs.Rows.{written};
ghost use Rattle.number.specs.Number.{signed_of};
ghost use Rattle.record.specs.Paths.{path_number, path_words};
ghost use Rattle.record.specs.Widths.{token_width};
ghost use Rattle.record.specs.TokensAndTags as Tokens;
ghost use Rattle.record.specs.TokensAndTags.{content_of, path_in, value_in};
ghost use Rattle.rules.specs.Answer.{place_in};
ghost use Rattle.text.specs.Text.{decimal, signed_decimal, state_word, outcome_fields, answer_line, token_line, stated_line, cell_line};
ghost use Rattle.text.specs.Lines.{RoomForText, AddedText, last_digits, spaced, rest_line, PathText, AddedLoosely};

use crate::digits::Small;
use record::cell::Cell;
use record::tag::Path;
use record::token;
use record::token::{Content, Token};
use rules::answer;
use rules::answer::{Answer, Outcome};

fn put_byte(out: &mut [u8], at: usize, b: u8) -> usize
    requires { at < length out.old }
    ensures { AddedText out.old out.new at result (b ∷ []) }
{
    out[at] = b;
    at + 1
}

// How many digits n has.
fn digits(n: u64) -> usize
    ensures { result ≡ length (decimal n) }
{
    if n == 0 { 1 } else { n.ilog10() as usize + 1 }
}

// Puts the last k digits of n, the last one first.
fn put_last_digits(out: &mut [u8], at: usize, k: usize, n: u64) -> usize
    requires { at + k ≤ length out.old }
    ensures { AddedText out.old out.new at result (last_digits k n) }
{
    let mut rest = n;
    // By number: the digits are put from the last one back.
    for left in (0..k).rev() {
        out[at + left] = 48 + (rest % 10) as u8;
        rest /= 10;
    }
    at + k
}

// Puts n. Most numbers have three digits at most, and these need no loop.
fn put_decimal(out: &mut [u8], at: usize, n: u64) -> usize
    requires { RoomForText out.old at (decimal n) }
    ensures { AddedText out.old out.new at result (decimal n) }
{
    if n < 10 {
        return put_byte(out, at, 48 + n as u8);
    }
    if n < 100 {
        let tens = put_byte(out, at, 48 + (n / 10) as u8);
        return put_byte(out, tens, 48 + (n % 10) as u8);
    }
    if n < 1000 {
        let hundreds = put_byte(out, at, 48 + (n / 100) as u8);
        let tens = put_byte(out, hundreds, 48 + (n / 10 % 10) as u8);
        return put_byte(out, tens, 48 + (n % 10) as u8);
    }
    put_last_digits(out, at, digits(n), n)
}

// Puts a number, and the byte that ends the field.
fn put_number(out: &mut [u8], at: usize, n: u64, end: u8) -> usize
    requires { RoomForText out.old at (decimal n ++ end ∷ []) }
    ensures { AddedText out.old out.new at result (decimal n ++ end ∷ []) }
{
    let k = put_decimal(out, at, n);
    put_byte(out, k, end)
}

// A path divided by ten: the quotient, and the digit that is left.
#[derive(Clone, Copy)]
struct Divided {
    quotient: Path,
    digit: u8,
}

// By the higher word, and then by the halves of the lower one, as on paper.
fn by_ten(path: Path) -> Divided
    ensures { (result.quotient ≡ path_words (path_number path / 10)) × (result.digit ≡ path_number path % 10) × (result.quotient.high ≡ path.high / 10) }
{
    let high = path.high;
    let low = path.low;
    let upper = high % 10 * 4294967296 + low / 4294967296;
    let lower = upper % 10 * 4294967296 + low % 4294967296;
    let quotient = Path {
        low: upper / 10 * 4294967296 + lower / 10,
        high: high / 10,
    };
    Divided {
        quotient,
        digit: (lower % 10) as u8,
    }
}

// How many digits a path has.
fn path_digits(path: Path) -> usize
    ensures { result ≡ length (decimal (path_number path)) }
{
    let mut rest = path;
    let mut k = 0;
    // No `for`: how often it goes round is what is asked for.
    while rest.high != 0 {
        let d = by_ten(rest);
        rest = d.quotient;
        k += 1;
    }
    k + digits(rest.low)
}

// Puts the last k digits of a path, the last one first.
fn put_path_digits(out: &mut [u8], at: usize, k: usize, path: Path) -> usize
    requires { at + k ≤ length out.old }
    ensures { AddedText out.old out.new at result (last_digits k (path_number path)) }
{
    let mut rest = path;
    for left in (0..k).rev() {
        let d = by_ten(rest);
        out[at + left] = 48 + d.digit;
        rest = d.quotient;
    }
    at + k
}

// Puts a path, and the byte that ends the field. Most paths have four levels at most, and these are
// numbers of 64 bits.
fn put_path(out: &mut [u8], at: usize, path: Path, end: u8) -> usize
    requires { RoomForText out.old at (decimal (path_number path) ++ end ∷ []) }
    ensures { AddedText out.old out.new at result (decimal (path_number path) ++ end ∷ []) }
{
    if path.high == 0 {
        return put_number(out, at, path.low, end);
    }
    let k = put_path_digits(out, at, path_digits(path), path);
    put_byte(out, k, end)
}

// Puts a signed number, and the byte that ends the field.
fn put_signed(out: &mut [u8], at: usize, value: i32, end: u8) -> usize
    requires { RoomForText out.old at (signed_decimal value ++ end ∷ []) }
    ensures { AddedText out.old out.new at result (signed_decimal value ++ end ∷ []) }
{
    let magnitude = u64::from(value.unsigned_abs());
    if value < 0 {
        let k = put_byte(out, at, b'-');
        put_number(out, k, magnitude, end)
    } else {
        put_number(out, at, magnitude, end)
    }
}

// Puts a word, and the byte that ends the field.
fn put_word(out: &mut [u8], at: usize, word: &[u8], end: u8) -> usize
    requires { RoomForText out.old at (word.now ++ end ∷ []) }
    ensures { AddedText out.old out.new at result (word.now ++ end ∷ []) }
{
    buffer::write_at(out, at, word);
    put_byte(out, at + word.len(), end)
}

// The value field of a token as a signed number.
fn value_in(content: Content) -> i32
    ensures { result ≡ value_in content }
{
    match content {
        Content::Live(v) => v,
        Content::Spent(v) => v,
        Content::Deferred(cell) => number::signed(cell),
    }
}

// Puts a number below 1000 and a space: where it has more than one digit, those of the table.
fn put_small(out: &mut [u8], at: usize, small: &Small, n: usize) -> usize
    requires { (n < 1000) × RoomForText out.old at (decimal n ++ 32 ∷ []) }
    ensures { AddedText out.old out.new at result (decimal n ++ 32 ∷ []) }
{
    if n < 10 {
        let k = put_byte(out, at, 48 + n as u8);
        return put_byte(out, k, b' ');
    }
    // By division: with `to_le_bytes` printing took a tenth longer.
    let w = small.entry(n);
    let second = put_byte(out, at, (w % 256) as u8);
    let third = put_byte(out, second, (w / 256 % 256) as u8);
    if n < 100 {
        return put_byte(out, third, b' ');
    }
    let fourth = put_byte(out, third, (w / 65536 % 256) as u8);
    put_byte(out, fourth, b' ')
}

// Puts a number and a space.
fn put_field(out: &mut [u8], at: usize, small: &Small, n: u64) -> usize
    requires { RoomForText out.old at (decimal n ++ 32 ∷ []) }
    ensures { AddedText out.old out.new at result (decimal n ++ 32 ∷ []) }
{
    if n < 1000 {
        put_small(out, at, small, n as usize)
    } else {
        put_number(out, at, n, b' ')
    }
}

// Puts a signed number, which its bits tell, and a space.
fn put_bits(out: &mut [u8], at: usize, small: &Small, bits: u32) -> usize
    requires { RoomForText out.old at (signed_decimal (signed_of bits) ++ 32 ∷ []) }
    ensures { AddedText out.old out.new at result (signed_decimal (signed_of bits) ++ 32 ∷ []) }
{
    let value = number::signed(bits);
    let magnitude = u64::from(value.unsigned_abs());
    if value < 0 {
        let k = put_byte(out, at, b'-');
        put_field(out, k, small, magnitude)
    } else {
        put_field(out, at, small, magnitude)
    }
}

// Puts the word of a state, which ends the line of a token. The state is a record's byte: decoding the token for it made
// printing 2 to 8 % slower.
fn put_state_of(out: &mut [u8], at: usize, bits: u32, state: u8) -> usize
    requires { RoomForText out.old at (state_word (content_of bits state) ++ 10 ∷ []) }
    ensures { AddedText out.old out.new at result (state_word (content_of bits state) ++ 10 ∷ []) }
{
    if state == 0 {
        return put_word(out, at, b"live", b'\n');
    }
    if state == 1 {
        return put_word(out, at, b"spent", b'\n');
    }
    put_word(out, at, b"deferred", b'\n')
}

// Puts the line of the token of the record that s starts with, from its iteration on.
#[tactic(auto, unfolding(record::specs::TokensAndTags::decode_token))]
fn put_rest(out: &mut [u8], at: usize, small: &Small, s: &[u8]) -> usize
    requires { (token_width ≤ length s.now) × RoomForText out.old at (rest_line (Tokens.decode_token s.now)) }
    ensures { AddedText out.old out.new at result (rest_line (Tokens.decode_token s.now)) }
{
    let bits = number::u32_at(s, 20);
    let iteration = put_small(out, at, small, s[16] as usize);
    let instruction = put_field(out, iteration, small, number::u16_at(s, 18) as u64);
    let port = put_small(out, instruction, small, s[17] as usize);
    let value = put_bits(out, port, small, bits);
    put_state_of(out, value, bits, s[24])
}

// Makes the text of a path, with a space behind it, at the start of `text`, and answers its length. As one struct with its
// length and its path the text took three instructions more for each token.
pub fn make_path(text: &mut [u8], path: Path) -> usize
    requires { length text.old ≡ 40 }
    ensures { PathText text.new result path }
{
    put_path(text, 0, path, b' ')
}

// The same, where the text of the last path stands there: most records have the path of the record before.
pub fn keep_path(text: &mut [u8], count: usize, last: Path, path: Path) -> usize
    requires { PathText text.old count last }
    ensures { PathText text.new result path }
{
    if path == last {
        return count;
    }
    make_path(text, path)
}

// The first eight bytes of s.
fn eight_of(s: &[u8]) -> [u8; 8]
    requires { 8 ≤ length s.now }
    ensures { result ≡ take 8 s.now }
{
    [s[0], s[1], s[2], s[3], s[4], s[5], s[6], s[7]]
}

// Puts the eight bytes of `text` that are number j, counted from `at` on.
fn put_eight(out: &mut [u8], at: usize, text: &[u8], j: usize)
    requires { (j * 8 + 8 ≤ length text.now) × (at + j * 8 + 8 ≤ length out.old) }
    ensures { out.new ≡ written out.old (at + j * 8) (take 8 (drop (j * 8) text.now)) }
{
    let eight = eight_of(buffer::row_at(text, 8, j));
    buffer::write_at(out, at + j * 8, &eight);
}

// Puts the first `count` bytes of `text`, eight at a time: up to seven bytes behind them change too.
fn put_eights(out: &mut [u8], at: usize, text: &[u8], count: usize) -> usize
    requires { (length text.now ≡ 40) × (count ≤ 40) × (at + count + 7 ≤ length out.old) × (0 < count) }
    ensures { AddedLoosely out.old out.new at result (take count text.now) }
{
    put_eight(out, at, text, 0);
    if count <= 8 {
        return at + count;
    }
    put_eight(out, at, text, 1);
    if count <= 16 {
        return at + count;
    }
    put_eight(out, at, text, 2);
    if count <= 24 {
        return at + count;
    }
    put_eight(out, at, text, 3);
    if count <= 32 {
        return at + count;
    }
    put_eight(out, at, text, 4);
    at + count
}

// Puts the line of the token of the record that s starts with; `text` starts with its path.
#[tactic(auto, unfolding(record::specs::TokensAndTags::decode_token))]
pub fn put_record(
    out: &mut [u8],
    at: usize,
    small: &Small,
    text: &[u8],
    count: usize,
    s: &[u8],
) -> usize
    requires token_width_in_bounds { (token_width ≤ length s.now) × PathText text.now count (path_in s.now) }
    requires room_for_text { RoomForText out.old at (token_line (Tokens.decode_token s.now)) }
    ensures { AddedText out.old out.new at result (token_line (Tokens.decode_token s.now)) }
{
    let rest = put_eights(out, at, text, count);
    put_rest(out, rest, small, s)
}

// The path of the record that s starts with, alone: `put_record` reads the rest.
pub fn path_of(s: &[u8]) -> Path
    requires { token_width ≤ length s.now }
    ensures { result ≡ path_in s.now }
{
    Path {
        low: number::u64_at(s, 0),
        high: number::u64_at(s, 8),
    }
}

// Puts the line of a token. It shares no `put_rest` with `put_record`: called from two places, that one was no longer
// compiled into the loop over the tokens, and printing took an eighth longer.
#[tactic(auto, unfolding(crate::specs::Text::token_line))]
pub fn put_token(out: &mut [u8], at: usize, t: Token) -> usize
    requires { RoomForText out.old at (token_line t) }
    ensures { AddedText out.old out.new at result (token_line t) }
{
    let tag = t.tag;
    let content = t.content;
    let calls = tag.path;
    let path = put_path(out, at, calls, b' ');
    let iteration = put_number(out, path, tag.iteration as u64, b' ');
    let instruction = put_number(out, iteration, tag.instruction as u64, b' ');
    let port = put_number(out, instruction, t.port as u64, b' ');
    let value = put_signed(out, port, value_in(content), b' ');
    put_state_of(out, value, 0, token::state_of(content))
}

// Puts the line of cell k with a state word and a value.
fn put_stated(out: &mut [u8], at: usize, k: usize, word: &[u8], value: i32) -> usize
    requires { RoomForText out.old at (stated_line k word.now value) }
    ensures { AddedText out.old out.new at result (stated_line k word.now value) }
{
    let name = put_word(out, at, b"cell", b' ');
    let number = put_number(out, name, k as u64, b' ');
    let state = put_word(out, number, word, b' ');
    put_signed(out, state, value, b'\n')
}

// Puts the line of cell k; an absent one has none.
#[tactic(auto, unfolding(crate::specs::Text::cell_line))]
pub fn put_cell(out: &mut [u8], at: usize, k: usize, cell: Cell) -> usize
    requires { RoomForText out.old at (cell_line k cell) }
    ensures { AddedText out.old out.new at result (cell_line k cell) }
{
    match cell {
        Cell::Absent => at,
        Cell::Waiting => put_stated(out, at, k, b"waiting", 0),
        Cell::Present(value) => put_stated(out, at, k, b"present", value),
    }
}

// Puts the word of an outcome, and the number of a refusal.
fn put_outcome(out: &mut [u8], at: usize, outcome: Outcome) -> usize
    requires { RoomForText out.old at (spaced (outcome_fields outcome)) }
    ensures { AddedText out.old out.new at result (spaced (outcome_fields outcome)) }
{
    match outcome {
        Outcome::Completed => put_word(out, at, b"completed", b' '),
        Outcome::Hung => put_word(out, at, b"hung", b' '),
        Outcome::Spent => put_word(out, at, b"spent", b' '),
        Outcome::Refused(r, _) => {
            let word = put_word(out, at, b"refused", b' ');
            put_number(out, word, answer::number(r) as u64, b' ')
        }
    }
}

// The place is 0 unless refused.
fn place_in(outcome: Outcome) -> usize
    ensures { result ≡ place_in outcome }
{
    match outcome {
        Outcome::Completed => 0,
        Outcome::Hung => 0,
        Outcome::Spent => 0,
        Outcome::Refused(_, place) => place,
    }
}

// Puts the first line.
#[tactic(auto, unfolding(crate::specs::Text::answer_line))]
pub fn put_answer(out: &mut [u8], at: usize, answer: Answer) -> usize
    requires { RoomForText out.old at (answer_line answer) }
    ensures { AddedText out.old out.new at result (answer_line answer) }
{
    let outcome = answer.outcome;
    let word = put_outcome(out, at, outcome);
    let firings = put_number(out, word, answer.firings as u64, b' ');
    let tokens = put_number(out, firings, answer.tokens as u64, b' ');
    put_number(out, tokens, place_in(outcome) as u64, b'\n')
}
