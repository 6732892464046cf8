// Validating a SuperCard Pro image, and the questions that can be asked of it, each by the edition that the call names. Every call opens the
// image anew and takes nobody's word.
#![tactic(auto)]

ghost use Rattle.std.specs.Prelude.{◌≡◌, ◌+◌, ◌≤◌, length};
ghost use Rattle.refusals.specs.Refusals.{found};
ghost use Rattle.scp_fields.specs.Editions.{table_at};
ghost use Rattle.scp_fields.specs.Header.{footer_size};
ghost use Rattle.scp.specs.Validating.{wanted_sum};
ghost use Rattle.flux.specs.Answers.{of_filled, answer_of, buffer_after};
ghost use Rattle.scp.specs.Answers.{of_validated, validate_answer, of_header, header_answer, of_footer_data, footer_values, of_footer, footer_answer, of_track, track_answer, of_revolution, revolution_answer, flux_part, flux_start, of_speed, speed_answer, of_track_speed, track_speed_answer, revolution_reading, revolution_closed_times, revolution_closed_numbers};

use flux::Filled;
use refusals::{Reason, Refusal};
use scp_fields::Edition;
use scp_lookup::TrackData;
use scp_open::Header;
use scp_speed::TrackSpeeds;
use scp_tracks::RevolutionData;

// The footer: six offsets of strings (0: absent), two times in seconds from 1970, four version bytes.
#[derive(Clone, Copy, Debug, PartialEq, Eq)]
pub struct FooterData {
    pub maker: u32,
    pub model: u32,
    pub serial: u32,
    pub creator: u32,
    pub application: u32,
    pub comments: u32,
    pub created: i64,
    pub modified: i64,
    pub software: u8,
    pub hardware: u8,
    pub firmware: u8,
    pub format: u8,
}

// ---- validating

// The checksum that is to be stored.
fn wanted_sum(image: &[u8]) -> u32
    requires { table_at ≤ length image.now }
    ensures { result ≡ wanted_sum image.now }
{
    if scp_fields::is_read_write(image) {
        return 0;
    }
    octets::byte_sum(&image[scp_fields::TABLE_AT..])
}

// Validates an image: refusals 1 to 12 and 19.
pub fn validate(image: &[u8], edition: Edition) -> Result<(), Refusal>
    ensures { of_validated (found result) ≡ validate_answer edition image.now }
{
    scp_open::first_fault(image, edition, true, 0, scp_fields::slots(edition))?;
    let stored = scp_fields::checksum(image);
    let wanted = wanted_sum(image);
    if stored != wanted {
        return Err(Reason::Sum.at(0));
    }
    Ok(())
}

// ---- header and footer

// The header's fields.
pub fn header(image: &[u8], edition: Edition) -> Result<Header, Refusal>
    ensures { of_header (found result) ≡ header_answer edition image.now }
{
    let opened = scp_open::open(image, edition)?;
    Ok(opened.header)
}

// The footer's numbers.
fn read_footer(image: &[u8]) -> FooterData
    requires { footer_size ≤ length image.now }
    ensures { of_footer_data result ≡ footer_values image.now }
{
    let f = image.len() - scp_fields::FOOTER_SIZE;
    FooterData {
        maker: scp_fields::string_entry(image, 0),
        model: scp_fields::string_entry(image, 1),
        serial: scp_fields::string_entry(image, 2),
        creator: scp_fields::string_entry(image, 3),
        application: scp_fields::string_entry(image, 4),
        comments: scp_fields::string_entry(image, 5),
        created: octets::le64(image, f + scp_fields::CREATED_AT),
        modified: octets::le64(image, f + scp_fields::MODIFIED_AT),
        software: image[f + scp_fields::SOFTWARE_AT],
        hardware: image[f + scp_fields::HARDWARE_AT],
        firmware: image[f + scp_fields::FIRMWARE_AT],
        format: image[f + scp_fields::FORMAT_AT],
    }
}

// The footer, or none.
pub fn footer(image: &[u8], edition: Edition) -> Result<Option<FooterData>, Refusal>
    ensures { of_footer (found result) ≡ footer_answer edition image.now }
{
    scp_open::open(image, edition)?;
    if scp_fields::has_footer(image, edition) {
        return Ok(Some(read_footer(image)));
    }
    Ok(None)
}

// ---- tracks and revolutions

// A track: cylinder, head, where its header starts, revolutions.
pub fn track(image: &[u8], edition: Edition, track: u32) -> Result<TrackData, Refusal>
    ensures { of_track (found result) ≡ track_answer edition image.now track }
{
    let entry = scp_lookup::find_track(image, edition, track);
    scp_lookup::track_on(image, track, entry)
}

// A revolution: duration, words, file offset of its flux.
pub fn revolution(
    image: &[u8],
    edition: Edition,
    track: u32,
    revolution: u32,
) -> Result<RevolutionData, Refusal>
    ensures { of_revolution (found result) ≡ revolution_answer edition image.now track revolution }
{
    scp_lookup::find_revolution(image, edition, track, revolution)
}

// The flux of a revolution, as that part of the caller's image; the empty part at offset 0 where the revolution is refused.
pub fn flux(image: &[u8], edition: Edition, track: u32, revolution: u32) -> &[u8]
    ensures result_value { result.now ≡ flux_part edition image.now track revolution }
    ensures ref_ptr_value { result.ref_ptr ≡ (image.entry.ref_ptr.0, flux_start edition image.now track revolution + image.entry.ref_ptr.1) }
{
    let numbers = scp_lookup::find_revolution(image, edition, track, revolution);
    scp_lookup::flux_on(image, numbers)
}

// All intervals of a revolution at one go, at the start of the times.
pub fn revolution_intervals(
    image: &[u8],
    edition: Edition,
    track: u32,
    revolution: u32,
    times: &mut [u64],
) -> Result<Filled, Refusal>
    ensures result_value { of_filled result ≡ answer_of (revolution_reading edition image.now track revolution (length times.old)) }
    ensures times_after { times.new ≡ buffer_after times.old (revolution_reading edition image.now track revolution (length times.old)) }
{
    let data = scp_lookup::find_revolution(image, edition, track, revolution)?;
    let part = scp_lookup::flux_of(image, data);
    flux::intervals(part, times)
}

// All intervals of a revolution at one go, at the start of the times, and the number of the word that closes each at the start of the closings.
pub fn revolution_closed_intervals(
    image: &[u8],
    edition: Edition,
    track: u32,
    revolution: u32,
    times: &mut [u64],
    closings: &mut [u64],
) -> Result<Filled, Refusal>
    ensures result_value { of_filled result ≡ answer_of (revolution_closed_times edition image.now track revolution times.old closings.old) }
    ensures times_after { times.new ≡ buffer_after times.old (revolution_closed_times edition image.now track revolution times.old closings.old) }
    ensures closings_after { closings.new ≡ buffer_after closings.old (revolution_closed_numbers edition image.now track revolution times.old closings.old) }
{
    let numbers = scp_lookup::find_revolution(image, edition, track, revolution)?;
    let part = scp_lookup::flux_of(image, numbers);
    flux::closed_intervals(part, times, closings)
}

// ---- speeds

// The drive speed of a revolution, in rpm, or none.
pub fn speed(
    image: &[u8],
    edition: Edition,
    track: u32,
    revolution: u32,
) -> Result<Option<f64>, Refusal>
    ensures { of_speed (found result) ≡ speed_answer edition image.now track revolution }
{
    let record = scp_lookup::find_revolution(image, edition, track, revolution)?;
    Ok(scp_speed::speed_of(record.duration))
}

// The slowest and the fastest speed of a track, or none.
pub fn track_speed(
    image: &[u8],
    edition: Edition,
    track: u32,
) -> Result<Option<TrackSpeeds>, Refusal>
    ensures { of_track_speed (found result) ≡ track_speed_answer edition image.now track }
{
    let header = scp_lookup::find_track(image, edition, track)?;
    Ok(scp_speed::track_speeds(image, header))
}
