// What refuses a standard DSK image before its track blocks are looked at: 30, 31 and 32.
#![tactic(auto)]

ghost use Rattle.std.specs.Prelude.{◌≡◌};
ghost use Rattle.refusals.specs.Refusals.{fault_of};
ghost use Rattle.dsk_header.specs.HeaderFault.{bad_sign, bad_geometry, bad_length, head_fault};

use refusals::{Reason, Refusal};

// The sign of an image (DK-1).
const SIGN: &[u8] = b"MV - CPC";

// Whether the image does not open with the sign.
fn bad_sign(image: &[u8]) -> bool
    ensures { result ≡ bad_sign image.now }
{
    !image.starts_with(SIGN)
}

// Whether tracks, sides or track size are wrong.
fn bad_geometry(image: &[u8]) -> bool
    ensures { result ≡ bad_geometry image.now }
{
    let sides = dsk_fields::sides(image);
    !(sides == 1 || sides == 2)
        || dsk_fields::tracks(image) == 0
        || dsk_fields::track_size(image) < dsk_fields::INFO_SIZE
}

// Whether the image ends before its last block does.
fn bad_length(image: &[u8]) -> bool
    ensures { result ≡ bad_length image.now }
{
    let blocks = dsk_fields::tracks(image) * dsk_fields::sides(image);
    image.len() < dsk_fields::INFO_SIZE + blocks * dsk_fields::track_size(image)
}

// What refuses an image before its track blocks: the first of 30, 32, 31, 32.
#[tactic(auto, unfolding(crate::specs::HeaderFault::head_fault, refusals::specs::Refusals::refuse_if))]
pub fn check_header(image: &[u8]) -> Result<(), Refusal>
    ensures { fault_of result ≡ head_fault image.now }
{
    if bad_sign(image) {
        return Err(Reason::DskSign.at(0));
    }
    if image.len() < dsk_fields::INFO_SIZE {
        return Err(Reason::DskLength.at(0));
    }
    if bad_geometry(image) {
        return Err(Reason::DskGeometry.at(0));
    }
    if bad_length(image) {
        return Err(Reason::DskLength.at(0));
    }
    Ok(())
}
