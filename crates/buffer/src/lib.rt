// Records of one width in a buffer: whether it holds whole ones, record i lent, or written with every other byte kept.
#![tactic(auto)]

ghost use Rattle.std.specs.Prelude.{◌≡◌, ◌+◌, ◌*◌, ◌<◌, ◌≤◌, length, drop};
ghost use Rattle.buffer.specs.Rows as Rows;
ghost use Rattle.buffer.specs.Rows.{written, put_row};

// Whether a buffer of that length holds whole records of that width, and no more than `most`.
pub fn whole(width: usize, most: usize, len: usize) -> bool
    requires { 0 < width }
    ensures { result ≡ Rows.whole width most len }
{
    len % width == 0 && len / width <= most
}

// The buffer from record i on.
pub fn row_at(s: &[u8], width: usize, i: usize) -> &[u8]
    requires { i * width + width ≤ length s.now }
    ensures { result.now ≡ drop (i * width) s.now }
{
    let at = i * width;
    &s[at..]
}

// Writes src into buf from `at` on; every other byte stays.
pub fn write_at(buf: &mut [u8], at: usize, src: &[u8])
    requires { at + length src.now ≤ length buf.old }
    ensures { buf.new ≡ written buf.old at src.now }
{
    let end = at + src.len();
    buf[at..end].copy_from_slice(src);
}

// Writes a record as record i; every other byte stays.
pub fn put_row(buf: &mut [u8], width: usize, i: usize, row: &[u8])
    requires { (i * width + width ≤ length buf.old) × (length row.now ≡ width) }
    ensures { buf.new ≡ put_row width buf.old i row.now }
{
    let at = i * width;
    write_at(buf, at, row);
}
