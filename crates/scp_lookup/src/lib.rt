// Looking up a track and a revolution of a SuperCard Pro image: refusals 1 to 11 and 19, then 13, then 14. Every call on a track or a revolution
// but the direct ones goes by these two; each opens the image anew. And what a call answers of a track or a revolution that was found, whoever
// found it.
#![tactic(auto)]

ghost use Rattle.std.specs.Prelude.{◌≡◌, ◌+◌};
ghost use Rattle.copies.specs.Copying.{part_start};
ghost use Rattle.refusals.specs.Refusals.{found};
ghost use Rattle.scp_lookup.specs.Lookups.{found_track, found_revolution, track_on, revolution_on, flux_of, part_of, start_in};

use refusals::{Reason, Refusal};
use scp_fields::Edition;
use scp_tracks::{FileOffset, RevolutionData};

// A track: its cylinder and head, where its header starts, and how many revolutions it has.
#[derive(Clone, Copy, Debug, PartialEq, Eq)]
pub struct TrackData {
    pub cylinder: u32,
    pub head: u32,
    pub offset: FileOffset,
    pub revolutions: u32,
}

// ---- what is answered of what was found

// The track of an entry that was found: cylinder, head, file offset of its header, revolutions; what refused the entry, as it is.
pub fn track_on(image: &[u8], track: u32, entry: Result<u32, Refusal>) -> Result<TrackData, Refusal>
    ensures { found result ≡ track_on image.now track (found entry) }
{
    let entry = entry?;
    Ok(TrackData {
        cylinder: scp_tracks::cylinder(track),
        head: scp_tracks::head(track),
        offset: FileOffset(u64::from(entry)),
        revolutions: scp_fields::revolutions(image) as u32,
    })
}

// Revolution k of the track of an entry that was found, or 14; what refused the entry, as it is.
pub fn revolution_on(
    image: &[u8],
    entry: Result<u32, Refusal>,
    k: u32,
) -> Result<RevolutionData, Refusal>
    ensures { found result ≡ revolution_on image.now k (found entry) }
{
    let header = entry?;
    scp_tracks::revolution_at(image, header, k).ok_or(Reason::Revolution.at(0))
}

// The flux of a revolution, as that part of the image, cut where the image ends; the empty part at offset 0 where it starts past the end.
pub fn flux_of(image: &[u8], d: RevolutionData) -> &[u8]
    ensures result_value { result.now ≡ flux_of image.now d }
    ensures ref_ptr_value { result.ref_ptr ≡ (image.entry.ref_ptr.0, part_start image.now d.offset.0 + image.entry.ref_ptr.1) }
{
    let offset = d.offset;
    copies::part_of(image, offset.0 as usize, 2 * (d.words as usize))
}

// The flux of a revolution that was found; the empty part at offset 0 where it was refused.
pub fn flux_on(image: &[u8], revolution: Result<RevolutionData, Refusal>) -> &[u8]
    ensures result_value { result.now ≡ part_of image.now (found revolution) }
    ensures ref_ptr_value { result.ref_ptr ≡ (image.entry.ref_ptr.0, start_in image.now (found revolution) + image.entry.ref_ptr.1) }
{
    match revolution {
        Ok(d) => flux_of(image, d),
        Err(_) => &image[..0],
    }
}

// ---- finding

// The table's entry of a track: 1 to 11 and 19, then 13.
pub fn find_track(image: &[u8], edition: Edition, track: u32) -> Result<u32, Refusal>
    ensures { found result ≡ found_track edition image.now track }
{
    let opened = scp_open::open(image, edition)?;
    let t = track as usize;
    if scp_fields::slots(edition) <= t {
        return Err(Reason::Absent.at(0));
    }
    let table = opened.table;
    let entry = table[t];
    if entry == 0 {
        return Err(Reason::Absent.at(0));
    }
    Ok(entry)
}

// A revolution of a track: 1 to 11 and 19, then 13, then 14.
pub fn find_revolution(
    image: &[u8],
    edition: Edition,
    track: u32,
    k: u32,
) -> Result<RevolutionData, Refusal>
    ensures { found result ≡ found_revolution edition image.now track k }
{
    let entry = find_track(image, edition, track);
    revolution_on(image, entry, k)
}
