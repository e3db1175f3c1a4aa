// Token records of 28 bytes: a token read from its bytes, and written as bytes.
ghost use Rattle.std.specs.Prelude.{◌≡◌, ◌≤◌, length};
ghost use Rattle.record.specs.TokensAndTags as Tokens;
ghost use Rattle.record.specs.TokensAndTags.{content_of, state_of, value_field, token_bytes, stands_at, ContentFits, TokenFits};
ghost use Rattle.record.specs.Widths.{token_width};

use crate::codec::{Decode, Encode};
use crate::tag::{Path, Tag};

// The bytes of a token record, and where its port, its instruction and its state stand.
pub const WIDTH: usize = 28;

// The most that a ledger has (01, "Tokens and tags"), and the most picks of a run.
pub const MOST: usize = 2048;

pub const PORT: usize = 17;

pub const INSTRUCTION: usize = 18;

pub const STATE: usize = 24;

// The value of a live or a spent token; of a deferred one the number of the cell that it waits for.
#[derive(Clone, Copy)]
pub enum Content {
    Live(i32),
    Spent(i32),
    Deferred(u32),
}

// The port is whatever stands there, and so it is a number wherever tokens are looked for: inputs and saved ledgers are lent through the C
// interface, and their checks, which refuse a port that the instruction lacks, read them in this form.
#[derive(Clone, Copy)]
pub struct Token {
    pub tag: Tag,
    pub port: u8,
    pub content: Content,
}

// The content of a record's value and state. Every state gives one, as in the definition `content_of`; `state_allowed` refuses those past 2.
#[tactic(auto, unfolding(crate::specs::TokensAndTags::content_of))]
fn content_of(bits: u32, state: u8) -> Content
    ensures { result ≡ content_of bits state }
{
    match state {
        0 => Content::Live(number::signed(bits)),
        1 => Content::Spent(number::signed(bits)),
        _ => Content::Deferred(bits),
    }
}

impl Decode for Token {
    const WIDTH: usize = WIDTH;

    ghost WIDTH = { token_width };

    ghost decoded = { Tokens.decode_token };

    #[tactic(auto, unfolding(crate::specs::TokensAndTags::decode_token))]
    fn decode(s: &[u8]) -> Self {
        let tag = Tag::decode(s);
        Token {
            tag,
            port: s[PORT],
            content: content_of(number::u32_at(s, 20), s[STATE]),
        }
    }
}

pub fn state_of(content: Content) -> u8
    ensures { result ≡ state_of content }
{
    match content {
        Content::Live(_) => 0,
        Content::Spent(_) => 1,
        Content::Deferred(_) => 2,
    }
}

fn value_of(content: Content) -> u32
    ensures { (result ≡ value_field content) × ContentFits content }
{
    match content {
        Content::Live(v) => number::bits(v),
        Content::Spent(v) => number::bits(v),
        Content::Deferred(cell) => cell,
    }
}

// The bytes of a record's fields, which are numbers as they stand there.
fn bytes_of(
    path: Path,
    iteration: u8,
    port: u8,
    instruction: u16,
    value: u32,
    state: u8,
) -> [u8; WIDTH]
    ensures { result ≡ token_bytes path iteration port instruction value state }
{
    let [a, b, c, d, e, f, g, h] = path.low.to_le_bytes();
    let [i, j, k, l, m, n, o, p] = path.high.to_le_bytes();
    let [instruction_low, instruction_high] = instruction.to_le_bytes();
    let [v, w, x, y] = value.to_le_bytes();
    [
        a,
        b,
        c,
        d,
        e,
        f,
        g,
        h,
        i,
        j,
        k,
        l,
        m,
        n,
        o,
        p,
        iteration,
        port,
        instruction_low,
        instruction_high,
        v,
        w,
        x,
        y,
        state,
        0,
        0,
        0,
    ]
}

impl Encode<WIDTH> for Token {
    ghost use Rattle.record.specs.ReadBack.{token_back};

    ghost encoded = { Tokens.encode_token };

    ghost Fits = { TokenFits };

    #[tactic(auto, unfolding(crate::specs::TokensAndTags::encode_token))]
    fn encode(self) -> [u8; WIDTH] {
        let tag = self.tag;
        let path = tag.path;
        let content = self.content;
        bytes_of(
            path,
            tag.iteration,
            self.port,
            tag.instruction,
            value_of(content),
            state_of(content),
        )
    }

    ghost read_back = { token_back };
}

// Whether the record that s starts with has a state of the three, and zeros behind it.
#[tactic(auto, unfolding(crate::specs::TokensAndTags::token_state_allowed))]
pub fn state_allowed(s: &[u8]) -> bool
    requires { token_width ≤ length s.now }
    ensures { result ≡ Tokens.token_state_allowed s.now }
{
    number::u32_at(s, STATE) <= 2
}

// Whether t stands at a port of a tag.
pub fn stands_at(t: Token, tag: Tag, port: u8) -> bool
    ensures { result ≡ stands_at tag port t }
{
    t.port == port && t.tag == tag
}
