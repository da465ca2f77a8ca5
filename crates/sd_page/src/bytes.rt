//! Numbers and pieces in a slice of bytes, each at its place. Numbers are big-endian.

ghost use Rattle.std.specs.Prelude.{◌≡◌, All, ◌+◌, ◌<◌, ◌≤◌, length};
ghost use Rattle.sd_page.specs.Reading.{two_at, four_at, eight_at};
ghost use Rattle.sd_page.specs.Spelling.{two, zeros};
ghost use Rattle.sd_page.specs.Writing.{pasted};

/// The number in the two bytes at a place.
pub fn u16_at(bytes: &[u8], at: usize) -> u16
    requires { at + 2 ≤ length bytes.now }
    ensures { result ≡ two_at bytes.now at }
{
    u16::from_be_bytes([bytes[at], bytes[at + 1]])
}

/// The number in the four bytes at a place.
pub fn u32_at(bytes: &[u8], at: usize) -> u32
    requires { at + 4 ≤ length bytes.now }
    ensures { result ≡ four_at bytes.now at }
{
    u32::from_be_bytes([bytes[at], bytes[at + 1], bytes[at + 2], bytes[at + 3]])
}

/// The number in the eight bytes at a place.
pub fn u64_at(bytes: &[u8], at: usize) -> u64
    requires { at + 8 ≤ length bytes.now }
    ensures { result ≡ eight_at bytes.now at }
{
    u64::from_be_bytes([
        bytes[at],
        bytes[at + 1],
        bytes[at + 2],
        bytes[at + 3],
        bytes[at + 4],
        bytes[at + 5],
        bytes[at + 6],
        bytes[at + 7],
    ])
}

/// Writes a piece at a place.
pub fn put(bytes: &mut [u8], at: usize, piece: &[u8])
    requires { at + length piece.now ≤ length bytes.old }
    ensures written { bytes.new ≡ pasted bytes.old at piece.now }
    ensures are_bytes { All (λ b. b < 256) piece.now }
{
    bytes[at..at + piece.len()].copy_from_slice(piece);
}

/// Writes a number into the two bytes at a place.
#[tactic(auto, unfolding(crate::specs::Spelling::two))]
pub fn put_u16(bytes: &mut [u8], at: usize, number: u16)
    requires { at + 2 ≤ length bytes.old }
    ensures { bytes.new ≡ pasted bytes.old at (two number) }
{
    put(bytes, at, &number.to_be_bytes());
}

/// Writes so many zeros at a place.
pub fn clear(bytes: &mut [u8], at: usize, count: usize)
    requires { at + count ≤ length bytes.old }
    ensures { bytes.new ≡ pasted bytes.old at (zeros count) }
{
    bytes[at..at + count].fill(0);
}
