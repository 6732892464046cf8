// The footer of a SuperCard Pro image and its strings, by any edition: refusals 7, 8 and 19.
#![tactic(auto)]

ghost use Rattle.std.specs.Prelude.{◌≡◌, ◌+◌, ◌<◌, ◌≤◌, length};
ghost use Rattle.refusals.specs.Refusals.{fault_of};
ghost use Rattle.scp_footer.specs.Footer.{bad_footer, zero_within, bad_string_of, string_fault_at, strings_fault, footer_fault};

use refusals::{Reason, Refusal};
use scp_fields::Edition;

// The oldest format of a footer that is read: 1.6 (R-7).
const OLDEST_FORMAT: u8 = 22;

// Whether the footer is flagged, and the image too short for it, or it is without its mark or too old.
fn bad_footer(image: &[u8], edition: Edition) -> bool
    ensures { result ≡ bad_footer edition image.now }
{
    let f = scp_fields::footer_at(image);
    let flagged = scp_fields::has_footer(image, edition);
    let b0 = octets::byte(image, f + scp_fields::FOOTER_MARK_AT);
    let b1 = octets::byte(image, f + (scp_fields::FOOTER_MARK_AT + 1));
    let b2 = octets::byte(image, f + (scp_fields::FOOTER_MARK_AT + 2));
    let b3 = octets::byte(image, f + (scp_fields::FOOTER_MARK_AT + 3));
    let format = octets::byte(image, f + scp_fields::FORMAT_AT);
    flagged
        & ((image.len() < scp_fields::footer_least(edition))
            | (!((b0 == b'F') & ((b1 == b'P') & ((b2 == b'C') & (b3 == b'S'))))
                | (format < OLDEST_FORMAT)))
}

// Whether a byte of the n from `start` on is zero.
fn zero_within(image: &[u8], start: usize, n: usize) -> bool
    requires { start + n ≤ length image.now }
    ensures { result ≡ zero_within image.now start n }
{
    let part = &image[start..start + n];
    part.contains(&0)
}

// Whether a string of n bytes at offset o is misplaced or malformed.
fn bad_string_of(image: &[u8], edition: Edition, o: usize, n: usize) -> bool
    requires { (o < 4_294_967_296) × (n < 65_536) }
    ensures { result ≡ bad_string_of edition image.now o n }
{
    if o < scp_fields::table_end(edition) {
        return true;
    }
    if scp_fields::data_end(image, edition) < o + 3 + n {
        return true;
    }
    zero_within(image, o + 2, n) | !(image[o + 2 + n] == 0)
}

// What refuses string j, whose offset is o: 8, then 19.
fn string_fault_at(image: &[u8], edition: Edition, o: u32, j: u32) -> Result<(), Refusal>
    ensures { fault_of result ≡ string_fault_at edition image.now o j }
{
    if o == 0 {
        return Ok(());
    }
    let at = o as usize;
    let n = usize::from(octets::le16(image, at));
    if bad_string_of(image, edition, at, n) {
        return Err(Reason::String.at(u64::from(j)));
    }
    if utf8::well_formed_part(image, at + 2, n) {
        return Ok(());
    }
    Err(Reason::Text.at(u64::from(j)))
}

// The first faulty string.
fn strings_fault(image: &[u8], edition: Edition) -> Result<(), Refusal>
    ensures { fault_of result ≡ strings_fault edition image.now }
{
    for j in 0..scp_fields::STRING_SLOTS {
        let o = scp_fields::string_entry(image, j);
        string_fault_at(image, edition, o, j)?;
    }
    Ok(())
}

// What refuses the footer: 7, then 8 or 19 of the first faulty string; nothing where there is no footer.
pub fn footer_fault(image: &[u8], edition: Edition) -> Result<(), Refusal>
    ensures { fault_of result ≡ footer_fault edition image.now }
{
    if bad_footer(image, edition) {
        return Err(Reason::Footer.at(0));
    }
    if scp_fields::has_footer(image, edition) {
        return strings_fault(image, edition);
    }
    Ok(())
}
