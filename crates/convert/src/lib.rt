// Records from before R-8 of 02 made new ones: inputs and listings of 20 bytes a token, logs of 12 bytes a firing. The path
// had 8 bytes and has 16; what stands behind it stays as it was.
#![tactic(auto)]

ghost use Rattle.std.specs.Prelude.{◌≡◌, ◌+◌, ◌*◌, ◌/◌, ◌≤◌, length, drop};
ghost use Rattle.buffer.specs.Rows.{put_row};
ghost use Rattle.convert.specs.Convert.{token_rest, log_rest, widened, converted, convert_accepted, ConvertedBy};

use record::token;
use rules::answer::Refusal;

// The bytes of a path before R-8 and since then.
const OLD_PATH: usize = 8;

const PATH: usize = 16;

// A record by the number of bytes behind its path.
#[derive(Clone, Copy)]
struct Layout {
    rest: usize,
    ghost few: { rest ≤ 12 },
}

// Writes record i of `old` as record i of `out`.
fn put_record(layout: Layout, old: &[u8], out: &mut [u8], i: usize)
    requires old_in_bounds { i * (8 + layout.rest) + (8 + layout.rest) ≤ length old.now }
    requires out_in_bounds { i * (16 + layout.rest) + (16 + layout.rest) ≤ length out.old }
    ensures { out.new ≡ put_row (16 + layout.rest) out.old i (widened layout.rest (drop (i * (8 + layout.rest)) old.now)) }
{
    let end = OLD_PATH + layout.rest;
    let row = buffer::row_at(old, end, i);
    let at = i * (PATH + layout.rest);
    let zeros = [0; OLD_PATH];
    buffer::write_at(out, at, &row[0..OLD_PATH]);
    buffer::write_at(out, at + OLD_PATH, &zeros);
    buffer::write_at(out, at + PATH, &row[OLD_PATH..end]);
}

// Writes every record of `old` to `out`.
#[tactic(auto, unfolding(crate::specs::Convert::converted))]
fn put_records(layout: Layout, old: &[u8], out: &mut [u8])
    requires { length out.old ≡ length old.now / (8 + layout.rest) * (16 + layout.rest) }
    ensures { out.new ≡ converted layout.rest old.now }
{
    let count = old.len() / (OLD_PATH + layout.rest);
    for i in 0..count {
        put_record(layout, old, out, i);
    }
}

// Whether an output of one length takes the old records of another.
#[tactic(auto, unfolding(crate::specs::Convert::convert_accepted))]
fn accepts(layout: Layout, old: usize, out: usize) -> bool
    ensures { result ≡ convert_accepted layout.rest old out }
{
    let width = OLD_PATH + layout.rest;
    buffer::whole(width, token::MOST, old) && out == old / width * (PATH + layout.rest)
}

// Writes the records of `old` to `out`, the new bytes zero. A bad store, with `out` untouched, unless
// `old` is whole records, 2,048 at most, and `out` has the length of as many new ones.
#[tactic(auto, unfolding(crate::specs::Convert::convert_result, crate::specs::Convert::converted_out, crate::specs::Convert::convert_accepted))]
fn convert_records(layout: Layout, old: &[u8], out: &mut [u8]) -> Result<(), Refusal>
    ensures { ConvertedBy layout.rest old.now out.old out.new result }
{
    if accepts(layout, old.len(), out.len()) {
        put_records(layout, old, out);
        Ok(())
    } else {
        Err(Refusal::BadStore)
    }
}

// The tokens of inputs and listings.
pub fn convert(old: &[u8], out: &mut [u8]) -> Result<(), Refusal>
    ensures { ConvertedBy token_rest old.now out.old out.new result }
{
    convert_records(Layout { rest: 12 }, old, out)
}

// The firings of a log.
pub fn convert_log(old: &[u8], out: &mut [u8]) -> Result<(), Refusal>
    ensures { ConvertedBy log_rest old.now out.old out.new result }
{
    convert_records(Layout { rest: 4 }, old, out)
}
