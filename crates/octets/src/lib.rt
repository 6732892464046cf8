// Numbers in bytes, read and put, and the byte sum (N-1 to N-6, N-9). Each function is total: past the end a byte reads 0, and a number that
// does not fit whole is not put.
#![tactic(auto)]

ghost use Rattle.std.specs.Prelude.{◌≡◌, ◌+◌, ◌<◌, ◌≤◌, length, sum, slice_index, EachIndex};
ghost use Rattle.octets.specs.Numbers.{
  byte_at,
  le16_at,
  le32_at,
  le64_at,
  be16_at,
  le_bytes,
  be16_bytes,
  unsigned64,
  has_room,
  put_at,
};
ghost use Rattle.octets.specs.Sums.{byte_sum};

// ---- reading

// Whether n bytes from an offset on lie whole in the bytes.
fn has_room(bytes: &[u8], at: usize, n: usize) -> bool
    ensures { result ≡ has_room bytes.now at n }
{
    n <= bytes.len() && at <= bytes.len() - n
}

// The byte at an offset, or 0 past the end.
pub fn byte(bytes: &[u8], at: usize) -> u8
    ensures { result ≡ byte_at bytes.now at }
{
    bytes.get(at).copied().unwrap_or(0)
}

// The N bytes from an offset on; past the end a byte reads 0.
fn bytes_from<const N: usize>(bytes: &[u8], at: usize) -> [u8; N]
    ensures { EachIndex result (λ k. slice_index result k ≡ byte_at bytes.now (at + k)) }
{
    if has_room(bytes, at, N) {
        let mut whole = [0; N];
        whole.copy_from_slice(&bytes[at..at + N]);
        return whole;
    }
    bytes_near_end(bytes, at)
}

// The same where they are not all there, out of the way of the many reads where they are.
#[cold]
#[inline(never)]
fn bytes_near_end<const N: usize>(bytes: &[u8], at: usize) -> [u8; N]
    requires { length bytes.now < at + N }
    ensures { EachIndex result (λ k. slice_index result k ≡ byte_at bytes.now (at + k)) }
{
    let mut found = [0; N];
    if let Some(rest) = bytes.get(at..) {
        // Byte by byte: `copy_from_slice` would have an archive ask for `memcpy`.
        for k in 0..N {
            let next = if k < rest.len() { rest[k] } else { 0 };
            found[k] = next;
        }
    }
    found
}

// 16 bits, big endian.
#[tactic(auto, using(crate::proofs::Numbers::be16_read))]
pub fn be16(bytes: &[u8], at: usize) -> u16
    ensures { result ≡ be16_at bytes.now at }
{
    u16::from_be_bytes(bytes_from(bytes, at))
}

// 16 bits, little endian.
#[tactic(auto, using(crate::proofs::Numbers::le16_read))]
pub fn le16(bytes: &[u8], at: usize) -> u16
    ensures { result ≡ le16_at bytes.now at }
{
    u16::from_le_bytes(bytes_from(bytes, at))
}

// 32 bits, little endian.
#[tactic(auto, using(crate::proofs::Numbers::le32_read))]
pub fn le32(bytes: &[u8], at: usize) -> u32
    ensures { result ≡ le32_at bytes.now at }
{
    u32::from_le_bytes(bytes_from(bytes, at))
}

// 64 bits, signed, little endian.
#[tactic(auto, using(crate::proofs::Numbers::le64_read))]
pub fn le64(bytes: &[u8], at: usize) -> i64
    ensures { result ≡ le64_at bytes.now at }
{
    i64::from_le_bytes(bytes_from(bytes, at))
}

// ---- putting

// The two's complement of a signed number, as a number of 64 bits.
#[tactic(auto, using(crate::proofs::Numbers::unsigned_is))]
pub fn unsigned(v: i64) -> u64
    ensures { result ≡ unsigned64 v }
{
    v.cast_unsigned()
}

// Puts N bytes, and says whether they fit.
#[tactic(auto, using(crate::proofs::Numbers::put_part))]
fn put<const N: usize>(bytes: &mut [u8], at: usize, value: [u8; N]) -> bool
    ensures value { result ≡ has_room bytes.old at N }
    ensures bytes_after { bytes.new ≡ put_at bytes.old at value.entry }
{
    let fits = has_room(bytes, at, N);
    if fits {
        bytes[at..at + N].copy_from_slice(&value);
    }
    fits
}

// Puts 16 bits, big endian, and says whether they fit.
pub fn put_be16(bytes: &mut [u8], at: usize, value: u16) -> bool
    ensures value { result ≡ has_room bytes.old at 2 }
    ensures bytes_after { bytes.new ≡ put_at bytes.old at (be16_bytes value) }
{
    put(bytes, at, u16::to_be_bytes(value))
}

// Puts 16 bits, little endian, and says whether they fit.
#[tactic(auto, using(crate::proofs::Numbers::le16_put))]
pub fn put_le16(bytes: &mut [u8], at: usize, value: u16) -> bool
    ensures value { result ≡ has_room bytes.old at 2 }
    ensures bytes_after { bytes.new ≡ put_at bytes.old at (le_bytes 2 value) }
{
    put(bytes, at, u16::to_le_bytes(value))
}

// Puts 32 bits, little endian, and says whether they fit.
#[tactic(auto, using(crate::proofs::Numbers::le32_put))]
pub fn put_le32(bytes: &mut [u8], at: usize, value: u32) -> bool
    ensures value { result ≡ has_room bytes.old at 4 }
    ensures bytes_after { bytes.new ≡ put_at bytes.old at (le_bytes 4 value) }
{
    put(bytes, at, u32::to_le_bytes(value))
}

// Puts a signed number of 64 bits, little endian, and says whether it fits.
#[tactic(auto, using(crate::proofs::Numbers::le64_put))]
pub fn put_le64(bytes: &mut [u8], at: usize, value: i64) -> bool
    ensures value { result ≡ has_room bytes.old at 8 }
    ensures bytes_after { bytes.new ≡ put_at bytes.old at (le_bytes 8 (unsigned64 value)) }
{
    put(bytes, at, i64::to_le_bytes(value))
}

// ---- the byte sum: 16 bits hold a block's sum, 32 the total, which wraps; no total has 64 (N-9)

// The sum of at most 256 bytes: 16 bits hold it, so the compiler sums in lanes of 16 bits.
fn block_sum(block: &[u8]) -> u16
    requires { length block.now ≤ 256 }
    ensures { result ≡ sum block.now }
{
    let mut total: u16 = 0;
    for b in block {
        total += u16::from(*b);
    }
    total
}

// The sum of all bytes, modulo 2^32.
pub fn byte_sum(bytes: &[u8]) -> u32
    ensures { result ≡ byte_sum bytes.now }
{
    let (blocks, rest) = bytes.as_chunks::<256>();
    let mut total: u32 = 0;
    for block in blocks {
        total = total.wrapping_add(u32::from(block_sum(block)));
    }
    total.wrapping_add(u32::from(block_sum(rest)))
}
