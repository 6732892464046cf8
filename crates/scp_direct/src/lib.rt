// A track, a revolution or its flux without the walk over the whole image: each call looks at the header, one entry of the table, that
// track's header and the records of its revolutions, and at nothing else. It may answer on an image that is faulty elsewhere.
#![tactic(auto)]

ghost use Rattle.std.specs.Prelude.{◌≡◌, ◌+◌};
ghost use Rattle.refusals.specs.Refusals.{found};
ghost use Rattle.scp.specs.Answers.{of_track, of_revolution};
ghost use Rattle.scp_direct.specs.Direct.{direct_entry, direct_found, direct_track, direct_revolution, direct_part, direct_start};

use refusals::{Reason, Refusal};
use scp_fields::Edition;
use scp_lookup::TrackData;
use scp_tracks::RevolutionData;

// The table's entry of a track: 1 to 6, then 13, then 9, 10 and 11 of this track. 13 is tested last, since 9 to 11 refuse no track that is absent.
fn find_entry(image: &[u8], edition: Edition, track: u32) -> Result<u32, Refusal>
    ensures { found result ≡ direct_entry edition image.now track }
{
    let t = track as usize;
    scp_open::first_fault(image, edition, false, t, t + 1)?;
    if scp_fields::slots(edition) <= t {
        return Err(Reason::Absent.at(0));
    }
    let entry = scp_fields::track_entry(image, track);
    if entry == 0 {
        return Err(Reason::Absent.at(0));
    }
    Ok(entry)
}

// The numbers of a revolution: these, then 14.
fn find_revolution(
    image: &[u8],
    edition: Edition,
    track: u32,
    revolution: u32,
) -> Result<RevolutionData, Refusal>
    ensures { found result ≡ direct_found edition image.now track revolution }
{
    let entry = find_entry(image, edition, track);
    scp_lookup::revolution_on(image, entry, revolution)
}

// A track: cylinder, head, file offset of its header, revolutions.
pub fn track(image: &[u8], edition: Edition, track: u32) -> Result<TrackData, Refusal>
    ensures { of_track (found result) ≡ direct_track edition image.now track }
{
    let entry = find_entry(image, edition, track);
    scp_lookup::track_on(image, track, entry)
}

// A revolution: duration, words, file offset of its flux.
pub fn revolution(
    image: &[u8],
    edition: Edition,
    track: u32,
    revolution: u32,
) -> Result<RevolutionData, Refusal>
    ensures { of_revolution (found result) ≡ direct_revolution edition image.now track revolution }
{
    find_revolution(image, edition, track, revolution)
}

// The flux of a revolution, as that part of the caller's image; the empty part at offset 0 where the revolution is refused.
pub fn flux(image: &[u8], edition: Edition, track: u32, revolution: u32) -> &[u8]
    ensures result_value { result.now ≡ direct_part edition image.now track revolution }
    ensures ref_ptr_value { result.ref_ptr ≡ (image.entry.ref_ptr.0, direct_start edition image.now track revolution + image.entry.ref_ptr.1) }
{
    let numbers = find_revolution(image, edition, track, revolution);
    scp_lookup::flux_on(image, numbers)
}
