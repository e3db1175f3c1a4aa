// Picks: unsigned 16-bit numbers, one for each firing.
ghost use Rattle.std.specs.Prelude.{◌≡◌, ◌<◌, slice_index, slice_index_or};
ghost use Rattle.number.specs.Number.{number16};
ghost use Rattle.buffer.specs.Rows.{all_rows};
ghost use Rattle.record.specs.Widths.{pick_width};

// The bytes of a pick.
pub const WIDTH: usize = 2;

// Pick number k, counted from 0, or another number once the picks have run out.
fn pick_or(picks: &[u8], k: usize, other: u16) -> u16
    ensures { result ≡ slice_index_or (all_rows pick_width (λ b. number16 b 0) picks.now) k other }
{
    if k < picks.len() / WIDTH {
        number::u16_at(picks, k * WIDTH)
    } else {
        other
    }
}

// 01, "Firing": once picks run out, the first enabled activity is taken, which is pick 0.
pub fn pick_at(picks: &[u8], k: usize) -> usize
    ensures { (result ≡ slice_index (all_rows pick_width (λ b. number16 b 0) picks.now) k) × (result < 65536) }
{
    usize::from(pick_or(picks, k, 0))
}
