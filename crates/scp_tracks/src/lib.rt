// Tracks of a SuperCard Pro image: offsets, the track data header and the records of its revolutions, and refusals 9 to 11 of one track, by
// any edition.
// Each public function is total: it takes any bytes, and past the end a byte reads 0.
#![tactic(auto)]

ghost use Rattle.std.specs.Prelude.{◌≡◌, ◌+◌, ◌<◌, ◌≤◌, length};
ghost use Rattle.octets.specs.Numbers.{le32_at};
ghost use Rattle.refusals.specs.Refusals.{fault_of};
ghost use Rattle.refusals.specs.Search.{any_from};
ghost use Rattle.scp_fields.specs.Header.{revolutions, data_end};
ghost use Rattle.scp_tracks.specs.Tracks.{
  cylinder_of,
  head_of,
  offset_of,
  record_offset,
  revolution_at,
  header_size,
  bad_slot,
  bad_mark,
  bad_track,
  flux_past,
  track_fault_at,
};
ghost use Rattle.scp_tracks.specs.Revolutions.{record_of, data_of, revolution_of, of_presence, revolution_fault};

use refusals::{Reason, Refusal};
use scp_fields::Edition;

// ---- offsets

// A file offset (L-16).
#[derive(Clone, Copy, Debug, PartialEq, Eq)]
pub struct FileOffset(pub u64);

// A distance from a track data header (L-16).
#[derive(Clone, Copy, Debug, PartialEq, Eq)]
pub struct HeaderOffset(pub u32);

// Where a distance from the track data header at `header` lies in the file: the exact sum, or the largest number where 64 bits do not hold it.
pub fn file_offset(header: FileOffset, distance: HeaderOffset) -> FileOffset
    ensures { result.0 ≡ offset_of header.0 distance.0 }
{
    FileOffset(header.0.saturating_add(u64::from(distance.0)))
}

// The cylinder of a track number.
pub fn cylinder(track: u32) -> u32
    ensures { result ≡ cylinder_of track }
{
    track / 2
}

// The head of a track number.
pub fn head(track: u32) -> u32
    ensures { result ≡ head_of track }
{
    track % 2
}

// ---- the track data header and its records

// The bytes of the mark with the track's number, and of a revolution's record.
const MARK_SIZE: usize = 4;

const RECORD_SIZE: usize = 12;

// Where the record of revolution k stands in its track data header, behind the mark, the number and the records before it.
pub fn record_offset(k: u32) -> usize
    ensures { result ≡ record_offset k }
{
    MARK_SIZE + RECORD_SIZE * (k as usize)
}

// The bytes of a track data header.
pub fn header_size(image: &[u8]) -> usize
    ensures { (result ≡ header_size image.now) × (result < 4_096) }
{
    record_offset(scp_fields::revolutions(image) as u32)
}

// A revolution's numbers: its duration in ticks of 25 ns, its count of flux words, and where its flux starts.
#[derive(Clone, Copy, Debug, PartialEq, Eq)]
pub struct RevolutionData {
    pub duration: u32,
    pub words: u32,
    pub offset: FileOffset,
}

// The numbers of a record of the track data header at `header`.
fn record_of(header: u32, duration: u32, words: u32, distance: u32) -> RevolutionData
    ensures { (result ≡ record_of header duration words distance) × (result.offset.0 < 8_589_934_592) }
{
    let offset = file_offset(FileOffset(u64::from(header)), HeaderOffset(distance));
    RevolutionData {
        duration,
        words,
        offset,
    }
}

// The record of revolution k of the track data header at `header`. The tests of flux and of sharing, which read many records, read count and
// distance themselves.
pub fn revolution_data(image: &[u8], header: u32, k: u32) -> RevolutionData
    ensures { (result ≡ data_of image.now header k) × (result.offset.0 < 8_589_934_592) }
{
    let at = header as usize + record_offset(k);
    let duration = octets::le32(image, at);
    let words = octets::le32(image, at + 4);
    let distance = octets::le32(image, at + 8);
    record_of(header, duration, words, distance)
}

// Revolution k of the track data header at `header`: none where the image has no more revolutions (T-6).
#[tactic(auto, unfolding(crate::specs::Revolutions::revolution_of, refusals::specs::Refusals::refuse_if))]
pub fn revolution_at(image: &[u8], header: u32, k: u32) -> Option<RevolutionData>
    ensures { (result ≡ revolution_of image.now header k) × (of_presence result ≡ revolution_fault image.now k) }
{
    if scp_fields::revolutions(image) <= k as usize {
        return None;
    }
    Some(revolution_data(image, header, k))
}

// ---- refusals 9 to 11

// Whether a track lies outside the span or on a side that is not held: a heads byte of 1 holds head 0 alone, one of 2 head 1.
fn bad_slot(image: &[u8], t: u32) -> bool
    ensures { result ≡ bad_slot image.now t }
{
    let i = t as usize;
    let start = scp_fields::start_track(image);
    let end = scp_fields::end_track(image);
    let heads = u32::from(scp_fields::heads(image));
    (i < start) | ((end < i) | (heads == 2 - head(t)))
}

// The 32-bit number at an offset, where its four bytes are all there: the tests of the mark and of flux read many, each inside its track data header.
fn inner32(image: &[u8], at: usize) -> u32
    requires { at + 4 ≤ length image.now }
    ensures { result ≡ le32_at image.now at }
{
    u32::from_le_bytes([image[at], image[at + 1], image[at + 2], image[at + 3]])
}

// Whether "TRK" and the track's number are not at offset e. The four bytes are compared at once.
fn bad_mark(image: &[u8], e: usize, t: u32) -> bool
    requires { (e + 4 ≤ length image.now) × (t < 256) }
    ensures { result ≡ bad_mark image.now e t }
{
    inner32(image, e) != u32::from_le_bytes([b'T', b'R', b'K', t as u8])
}

// Whether the track data header at e is misplaced, without its mark or of another number; `end` is where the data end.
fn bad_track(image: &[u8], edition: Edition, end: usize, e: usize, t: u32) -> bool
    requires { (end ≡ data_end edition image.now) × (e < 4_294_967_296) × (t < 256) }
    ensures { result ≡ bad_track edition image.now e t }
{
    if e < scp_fields::table_end(edition) {
        return true;
    }
    if end < e + header_size(image) {
        return true;
    }
    bad_mark(image, e, t)
}

// Whether the flux of revolution k of the track data header at e ends more than `room` bytes behind e.
fn flux_past(image: &[u8], e: u32, k: u32, room: u64) -> bool
    requires { revolution_at e k + 12 ≤ length image.now }
    ensures { result ≡ flux_past (e + room) image.now e k }
{
    let at = e as usize + record_offset(k);
    let words = inner32(image, at + 4);
    let distance = inner32(image, at + 8);
    room < u64::from(distance) + 2 * u64::from(words)
}

// Whether the flux of a revolution of the track data header at e ends past `end`, which lies in the image. Two revolutions are tested in a turn.
fn bad_flux(image: &[u8], e: u32, end: usize) -> bool
    requires { (e + header_size image.now ≤ end) × (end ≤ length image.now) }
    ensures { result ≡ any_from (flux_past end image.now e) 0 (revolutions image.now) }
{
    let revolutions = scp_fields::revolutions(image) as u32;
    let room = (end - e as usize) as u64;
    for pair in 0..revolutions / 2 {
        if flux_past(image, e, 2 * pair, room) | flux_past(image, e, 2 * pair + 1, room) {
            return true;
        }
    }
    if revolutions % 2 == 1 {
        return flux_past(image, e, revolutions - 1, room);
    }
    false
}

// What refuses track t, by its entry of the table: 9, then 10, then 11; nothing where the entry is 0.
pub fn track_fault(image: &[u8], edition: Edition, entry: u32, t: u32) -> Result<(), Refusal>
    ensures { fault_of result ≡ track_fault_at edition image.now entry t }
{
    if entry == 0 {
        return Ok(());
    }
    if bad_slot(image, t) {
        return Err(Reason::Slot.at(u64::from(t)));
    }
    let end = scp_fields::data_end(image, edition);
    if bad_track(image, edition, end, entry as usize, t) {
        return Err(Reason::Track.at(u64::from(t)));
    }
    if bad_flux(image, entry, end) {
        return Err(Reason::Flux.at(u64::from(t)));
    }
    Ok(())
}
