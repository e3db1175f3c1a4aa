// Little-endian numbers of 2, 4 and 8 bytes, and signed numbers of 32 bits in two's complement.
#![tactic(auto)]

ghost use Rattle.std.specs.Prelude.{◌≡◌, ◌+◌, ◌≤◌, ◌<◌, length};
ghost use Rattle.number.specs.Number.{number16, number32, number64, signed_of, bits_of};

pub fn u16_at(s: &[u8], k: usize) -> u16
    requires { k + 2 ≤ length s.now }
    ensures { result ≡ number16 s.now k }
{
    u16::from_le_bytes([s[k], s[k + 1]])
}

pub fn u32_at(s: &[u8], k: usize) -> u32
    requires { k + 4 ≤ length s.now }
    ensures { result ≡ number32 s.now k }
{
    u32::from_le_bytes([s[k], s[k + 1], s[k + 2], s[k + 3]])
}

pub fn u64_at(s: &[u8], k: usize) -> u64
    requires { k + 8 ≤ length s.now }
    ensures { result ≡ number64 s.now k }
{
    u64::from_le_bytes([
        s[k],
        s[k + 1],
        s[k + 2],
        s[k + 3],
        s[k + 4],
        s[k + 5],
        s[k + 6],
        s[k + 7],
    ])
}

// The signed number that 32 bits stand for.
#[tactic(auto, unfolding(crate::specs::Number::signed_of))]
pub fn signed(bits: u32) -> i32
    ensures { result ≡ signed_of bits }
{
    bits.cast_signed()
}

// The bits of a signed number.
pub fn bits(value: i32) -> u32
    ensures { result ≡ bits_of value }
{
    value.cast_unsigned()
}
