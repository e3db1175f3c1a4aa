// Log records of 20 bytes: the tag of an activity that fired, with a zero byte where a token record has its port.
ghost use Rattle.std.specs.Prelude.{◌≡◌, ◌*◌, ◌/◌, ◌<◌, ◌≤◌, length, drop};
ghost use Rattle.buffer.specs.Rows.{put_row};
ghost use Rattle.record.specs.Logs.{encode_activity, name_of, tag_named};
ghost use Rattle.record.specs.Widths.{log_width};

use crate::codec::{Decode, Encode};
use crate::tag::Tag;
use crate::token::{Content, Token};

// The bytes of a log record, and where its zero byte stands.
pub const WIDTH: usize = 20;

const ZERO: usize = 17;

// Writes the record of a tag, which is the start of a token record on port 0, as record i of a log; every other byte stays. No
// `Encode` of its own, which would list a tag's bytes a second time.
#[tactic(auto, unfolding(crate::specs::TokensAndTags::encode_token, crate::specs::Logs::encode_activity))]
pub fn put_tag(log: &mut [u8], i: usize, tag: Tag)
    requires { i < length log.old / log_width }
    ensures { log.new ≡ put_row log_width log.old i (encode_activity tag) }
{
    let start = Token {
        tag,
        port: 0,
        content: Content::Live(0),
    };
    let bytes = start.encode();
    buffer::put_row(log, WIDTH, i, &bytes[0..WIDTH]);
}

// The tag that record i names: none if it lacks its zero byte or is not whole. No `Decode`, which needs a whole record.
pub fn name_at(log: &[u8], i: usize) -> Option<Tag>
    requires { i * log_width ≤ length log.now }
    ensures { tag_named result ≡ name_of (drop (i * log_width) log.now) }
{
    let at = i * WIDTH;
    if log.len() - at < WIDTH {
        return None;
    }
    if log[at + ZERO] != 0 {
        return None;
    }
    Some(Tag::read(log, i))
}
