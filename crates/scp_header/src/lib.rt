// The header of a SuperCard Pro image, by any edition: refusals 1 to 6.
#![tactic(auto)]

ghost use Rattle.std.specs.Prelude.{◌≡◌, ◌≤◌, length, false};
ghost use Rattle.refusals.specs.Refusals.{fault_of};
ghost use Rattle.scp_header.specs.HeaderTests.{bad_size, bad_sign, bad_width, bad_revolutions, bad_span, bad_heads};
ghost use Rattle.scp_header.specs.HeaderFault.{header_fault};

use refusals::{Reason, Refusal};
use scp_fields::Edition;

// ---- the header: refusals 1 to 6

#[tactic(auto, unfolding(crate::specs::HeaderTests::bad_size))]
fn bad_size(image: &[u8], edition: Edition) -> bool
    ensures value { result ≡ bad_size edition image.now }
    ensures sized { result ≡ false → 3 ≤ length image.now }
{
    (image.len() < scp_fields::table_end(edition)) | (scp_fields::SIZE_LIMIT < image.len())
}

fn bad_sign(image: &[u8]) -> bool
    requires { 3 ≤ length image.now }
    ensures { result ≡ bad_sign image.now }
{
    !((image[0] == b'S') & ((image[1] == b'C') & (image[2] == b'P')))
}

fn bad_width(image: &[u8]) -> bool
    ensures { result ≡ bad_width image.now }
{
    let width = scp_fields::width(image);
    !((width == 0) | (width == 16))
}

fn bad_revolutions(image: &[u8]) -> bool
    ensures { result ≡ bad_revolutions image.now }
{
    let n = scp_fields::revolutions(image);
    let read_write = scp_fields::is_read_write(image);
    (n == 0) | (read_write & (1 < n))
}

fn bad_span(image: &[u8], edition: Edition) -> bool
    ensures { result ≡ bad_span edition image.now }
{
    let start = scp_fields::start_track(image);
    let end = scp_fields::end_track(image);
    (end < start) | (scp_fields::last_track(edition) < end)
}

fn bad_heads(image: &[u8]) -> bool
    ensures { result ≡ bad_heads image.now }
{
    2 < scp_fields::heads(image)
}

// What refuses the header: the first of refusals 1 to 6. It looks at the header and the length alone.
pub fn header_fault(image: &[u8], edition: Edition) -> Result<(), Refusal>
    ensures { fault_of result ≡ header_fault edition image.now }
{
    if bad_size(image, edition) {
        return Err(Reason::Size.at(0));
    }
    if bad_sign(image) {
        return Err(Reason::Sign.at(0));
    }
    if bad_width(image) {
        return Err(Reason::Width.at(0));
    }
    if bad_revolutions(image) {
        return Err(Reason::Revolutions.at(0));
    }
    if bad_span(image, edition) {
        return Err(Reason::Span.at(0));
    }
    if bad_heads(image) {
        return Err(Reason::Heads.at(0));
    }
    Ok(())
}
