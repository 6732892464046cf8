// The byte sum by itself, exported for C (N-6). `tests/sums` runs it on more bytes than a program's stack holds, and its archive is the
// compiled sum and nothing else.
#![tactic(auto)]

ghost use Rattle.std.specs.Prelude.{◌≡◌};
ghost use Rattle.octets.specs.Sums.{byte_sum};

// The sum of all bytes, modulo 2^32.
#[unsafe(no_mangle)]
pub extern "C" fn octets_byte_sum(bytes: &[u8]) -> u32
    ensures { result ≡ byte_sum bytes.now }
{
    octets::byte_sum(bytes)
}
