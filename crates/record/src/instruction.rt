// Graph records of 16 bytes: an instruction read from its bytes, and written as bytes.
ghost use Rattle.std.specs.Prelude.{◌≡◌};
ghost use Rattle.record.specs.GraphRecords as Graph;
ghost use Rattle.record.specs.GraphRecords.{instruction_bytes, InstructionFits};
ghost use Rattle.record.specs.Widths.{graph_width};

use crate::codec::{Decode, Encode};

// The bytes of a graph record.
pub const WIDTH: usize = 16;

// A port of an instruction.
#[derive(Clone, Copy)]
pub struct Destination {
    pub instruction: u16,
    pub port: u8,
}

// A graph record as it stands: `code` names the operation, `fanout` is the number of destinations in
// use, and `zeros` are bytes 12 to 15. Each holds whatever stands there: a graph is lent through the C interface, and its check,
// which refuses unknown codes and ports, reads it in this form.
#[derive(Clone, Copy)]
pub struct Instruction {
    pub code: u8,
    pub fanout: u8,
    pub first: Destination,
    pub second: Destination,
    pub constant: i32,
    pub zeros: u32,
}

impl Decode for Instruction {
    const WIDTH: usize = WIDTH;

    ghost WIDTH = { graph_width };

    ghost decoded = { Graph.decode_instruction };

    #[tactic(auto, unfolding(crate::specs::GraphRecords::decode_instruction))]
    fn decode(s: &[u8]) -> Self {
        let first = Destination {
            instruction: number::u16_at(s, 4),
            port: s[2],
        };
        let second = Destination {
            instruction: number::u16_at(s, 6),
            port: s[3],
        };
        Instruction {
            code: s[0],
            fanout: s[1],
            first,
            second,
            constant: number::signed(number::u32_at(s, 8)),
            zeros: number::u32_at(s, 12),
        }
    }
}

// The bytes of a record's fields, which are numbers as they stand there.
fn bytes_of(
    code: u8,
    fanout: u8,
    first: Destination,
    second: Destination,
    constant: u32,
    zeros: u32,
) -> [u8; WIDTH]
    ensures { result ≡ instruction_bytes code fanout first second constant zeros }
{
    let [first_low, first_high] = first.instruction.to_le_bytes();
    let [second_low, second_high] = second.instruction.to_le_bytes();
    let [a, b, c, d] = constant.to_le_bytes();
    let [e, f, g, h] = zeros.to_le_bytes();
    [
        code,
        fanout,
        first.port,
        second.port,
        first_low,
        first_high,
        second_low,
        second_high,
        a,
        b,
        c,
        d,
        e,
        f,
        g,
        h,
    ]
}

impl Encode<WIDTH> for Instruction {
    ghost use Rattle.record.specs.ReadBack.{instruction_back};

    ghost encoded = { Graph.encode_instruction };

    ghost Fits = { InstructionFits };

    #[tactic(auto, unfolding(crate::specs::GraphRecords::encode_instruction))]
    fn encode(self) -> [u8; WIDTH] {
        let first = self.first;
        let second = self.second;
        bytes_of(
            self.code,
            self.fanout,
            first,
            second,
            number::bits(self.constant),
            self.zeros,
        )
    }

    ghost read_back = { instruction_back };
}
