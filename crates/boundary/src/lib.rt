// How answers pass to C and Rust: a refusal as one number, and values put to the start of a lent buffer (the headers in include/).
#![tactic(auto)]

ghost use Rattle.std.specs.Prelude.{◌≤◌, ◌≡◌, cond, length, ltb, Result};
ghost use Rattle.boundary.specs.Boundary.{packed, refusal_code, found_code, gives, given, code_of, within, out_after};

use refusals::{Reason, Refusal};

// How many positions a code can hold: 2^56.
const POSITIONS: u64 = 72_057_594_037_927_936;

// A number and a position as one number, whether or not the number is in the table.
pub fn pack(number: u32, position: u64) -> u64
    ensures { result ≡ packed number position }
{
    u64::from(number % 256) + 256 * (position % POSITIONS)
}

// A refusal as one number.
pub fn code(refusal: Refusal) -> u64
    ensures { result ≡ refusal_code refusal }
{
    pack(refusal.reason.number(), refusal.position)
}

// What a call without values returns: 0, or its refusal as one number.
pub fn code_of(found: Result<(), Refusal>) -> u64
    ensures { result ≡ found_code found }
{
    let (number, position) = refusals::number_and_position(found);
    pack(number, position)
}

// Puts the values at the start of `out`; where they do not fit, puts nothing and answers 15.
pub fn give<T: Copy>(out: &mut [T], values: &[T]) -> u64
    ensures value { result ≡ code_of (within (length out.old) (gives values.now)) }
    ensures out_after { out.new ≡ out_after out.old (within (length out.old) (gives values.now)) }
{
    if copies::copy(out, 0, values) {
        0
    } else {
        code(Reason::Places.at(0))
    }
}

// What a call with values returns: they are put at the start of `out`, or its refusal is returned as one number.
pub fn answer<T: Copy, const N: usize>(out: &mut [T], found: Result<[T; N], Refusal>) -> u64
    ensures value { result ≡ code_of (within (length out.old) (given found)) }
    ensures out_after { out.new ≡ out_after out.old (within (length out.old) (given found)) }
{
    match found {
        Ok(values) => give(out, &values),
        Err(refusal) => code(refusal),
    }
}

// How many of a buffer's places a call is lent: none where `out` has too few for the call's values.
pub fn lent(room: usize, places: usize, needed: usize) -> usize
    ensures { (result ≡ cond (ltb places needed) 0 room) × (result ≤ room) }
{
    if places < needed { 0 } else { room }
}
