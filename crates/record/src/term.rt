// Expression records of 8 bytes: a variable, or an operation on two records before it.
ghost use Rattle.record.specs.ExpressionRecords as Expression;
ghost use Rattle.record.specs.Widths.{term_width};

use crate::codec::Decode;

// The bytes of an expression record, and of the value of a variable.
pub const WIDTH: usize = 8;

pub const VALUE_WIDTH: usize = 4;

// A record as it stands: `kind` is 0 for a variable, else the code of an operation, `left` and `right`
// are record numbers, and `zeros` are bytes 3 to 7. Each holds whatever stands there: an expression is lent through the C interface,
// and its check, which refuses unknown kinds, reads it in this form.
#[derive(Clone, Copy)]
pub struct Term {
    pub kind: u8,
    pub left: u8,
    pub right: u8,
    pub zeros: u64,
}

impl Decode for Term {
    const WIDTH: usize = WIDTH;

    ghost WIDTH = { term_width };

    ghost decoded = { Expression.decode_term };

    fn decode(s: &[u8]) -> Self {
        Term {
            kind: s[0],
            left: s[1],
            right: s[2],
            zeros: u64::from(s[3]) + 256 * u64::from(number::u32_at(s, 4)),
        }
    }
}
