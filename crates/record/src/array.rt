// Records of 4 bytes of a table of named arrays: cells of the store that FETCH and STORE name by a constant.
ghost use Rattle.record.specs.Arrays as Arrays;
ghost use Rattle.record.specs.Widths.{array_width};

use crate::codec::Decode;

// The bytes of an array record.
pub const WIDTH: usize = 4;

// 02, R-10: first cell and length.
#[derive(Clone, Copy)]
pub struct NamedArray {
    pub first: u16,
    pub length: u16,
}

impl Decode for NamedArray {
    const WIDTH: usize = WIDTH;

    ghost WIDTH = { array_width };

    ghost decoded = { Arrays.decode_array };

    #[tactic(auto, unfolding(crate::specs::Arrays::decode_array))]
    fn decode(s: &[u8]) -> Self {
        NamedArray {
            first: number::u16_at(s, 0),
            length: number::u16_at(s, 2),
        }
    }
}
