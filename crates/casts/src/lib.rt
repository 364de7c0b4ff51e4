// Fields of several bytes, the low byte first, as numbers.

#![tactic(auto)]

ghost use Rattle.std.specs.Prelude.{◌≡◌, ◌+◌, ◌*◌};

// The number of a field of two bytes, the low byte first.
pub fn pair(low: u8, high: u8) -> usize
    ensures { result ≡ low + 256 * high }
{
    usize::from(u16::from_le_bytes([low, high]))
}

// The number of a field of three bytes.
pub fn triple(b0: u8, b1: u8, b2: u8) -> usize
    ensures { result ≡ b0 + 256 * b1 + 65536 * b2 }
{
    pair(b0, b1) + 65536 * usize::from(b2)
}

// The number of a field of four bytes.
pub fn word(b0: u8, b1: u8, b2: u8, b3: u8) -> u32
    ensures { result ≡ b0 + 256 * b1 + 65536 * b2 + 16777216 * b3 }
{
    u32::from_le_bytes([b0, b1, b2, b3])
}

// The number of a field of eight bytes, by its two halves.
pub fn double_word(low: u32, high: u32) -> u64
    ensures { result ≡ low + 4294967296 * high }
{
    u64::from(low) + 4294967296 * u64::from(high)
}
