// Values that stand in a buffer as records of one width: how record i is read and written, for every kind.
ghost use Rattle.std.specs.Prelude.{◌≡◌, ℕ, ◌*◌, ◌/◌, ◌<◌, ◌≤◌, List, ◌++◌, length, drop};
ghost use Rattle.buffer.specs.Rows.{put_row};

// A value that is read from the WIDTH bytes of its record.
pub trait Decode: Sized {
    const WIDTH: usize;

    ghost WIDTH: { ℕ };

    // What the record is that a list starts with.
    ghost decoded: { List ℕ → Self };

    // The value of the record that s starts with.
    fn decode(s: &[u8]) -> Self
        requires { WIDTH ≤ length s.now }
        ensures { result ≡ decoded s.now };

    // The value of record i.
    final fn read(s: &[u8], i: usize) -> Self
        requires { i < length s.now / WIDTH }
        ensures { result ≡ decoded (drop (i * WIDTH) s.now) }
    {
        Self::decode(buffer::row_at(s, Self::WIDTH, i))
    }
}

// A value that is written as the N bytes of its record, and read back from them.
pub trait Encode<const N: usize>: Decode {
    ghost encoded: { Self → List ℕ };

    // What the fields of a value can hold.
    ghost Fits: { Self → Type 0 };

    fn encode(self) -> [u8; N]
        ensures { (result ≡ encoded self) × Fits self };

    ghost read_back: { (x : Self) (rest : List ℕ) → Fits x → Self.decoded (encoded x ++ rest) ≡ x };

    // Writes the value as record i; every other byte stays.
    final fn write(self, buf: &mut [u8], i: usize)
        requires { i < length buf.old / N }
        ensures { (buf.new ≡ put_row N buf.old i (encoded self)) × Fits self }
    {
        let bytes = self.encode();
        buffer::put_row(buf, N, i, &bytes);
    }
}
