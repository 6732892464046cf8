// The calls that ask an image, answered by a code and by values put to the start of a lent buffer (include/scp.h). The edition is a number:
// 14 is 1.4, any other 1.6.
#![tactic(auto)]

ghost use Rattle.std.specs.Prelude.{◌≡◌, length};
ghost use Rattle.scp_fields.specs.Editions.{edition_of};
ghost use Rattle.scp.specs.Answers.{validate_answer, header_answer, footer_answer, track_answer, revolution_answer, flux_answer, speed_answer, track_speed_answer};
ghost use Rattle.boundary.specs.Boundary.{code_of, within, out_after};
ghost use Rattle.scp_boundary.specs.Boundary.{numbers_of, part_numbers, floats_of};

use scp_fields::Edition;

// Validates the image: refusals 1 to 12 and 19.
pub fn validate(image: &[u8], edition: u32) -> u64
    ensures { result ≡ code_of (numbers_of (validate_answer (edition_of edition) image.now)) }
{
    let named = Edition::from(u64::from(edition));
    boundary::code_of(scp::validate(image, named))
}

// The header: version, disk type, revolutions, start, end, flags, width, heads, checksum.
pub fn header(image: &[u8], edition: u32, out: &mut [u64]) -> u64
    ensures value { result ≡ code_of (within (length out.old) (numbers_of (header_answer (edition_of edition) image.now))) }
    ensures out_after { out.new ≡ out_after out.old (within (length out.old) (numbers_of (header_answer (edition_of edition) image.now))) }
{
    let named = Edition::from(u64::from(edition));
    let found = scp::header(image, named);
    boundary::answer(out, found.map(scp_values::header_numbers))
}

// The footer: 1, six offsets, two times, four version bytes; 13 zeros where there is none.
pub fn footer(image: &[u8], edition: u32, out: &mut [u64]) -> u64
    ensures value { result ≡ code_of (within (length out.old) (numbers_of (footer_answer (edition_of edition) image.now))) }
    ensures out_after { out.new ≡ out_after out.old (within (length out.old) (numbers_of (footer_answer (edition_of edition) image.now))) }
{
    let named = Edition::from(u64::from(edition));
    match scp::footer(image, named) {
        Ok(Some(f)) => boundary::give(out, &scp_values::footer_numbers(f)),
        Ok(None) => boundary::give(out, &[0; 13]),
        Err(r) => boundary::code(r),
    }
}

// A track: cylinder, head, file offset of its header, revolutions.
pub fn track(image: &[u8], edition: u32, track: u32, out: &mut [u64]) -> u64
    ensures value { result ≡ code_of (within (length out.old) (numbers_of (track_answer (edition_of edition) image.now track))) }
    ensures out_after { out.new ≡ out_after out.old (within (length out.old) (numbers_of (track_answer (edition_of edition) image.now track))) }
{
    let named = Edition::from(u64::from(edition));
    let found = scp::track(image, named, track);
    boundary::answer(out, found.map(scp_values::track_numbers))
}

// A revolution: duration, words, file offset of its flux.
pub fn revolution(image: &[u8], edition: u32, track: u32, revolution: u32, out: &mut [u64]) -> u64
    ensures value { result ≡ code_of (within (length out.old) (numbers_of (revolution_answer (edition_of edition) image.now track revolution))) }
    ensures out_after { out.new ≡ out_after out.old (within (length out.old) (numbers_of (revolution_answer (edition_of edition) image.now track revolution))) }
{
    let named = Edition::from(u64::from(edition));
    let found = scp::revolution(image, named, track, revolution);
    boundary::answer(out, found.map(scp_values::revolution_numbers))
}

// The flux of a revolution.
pub fn flux(image: &[u8], edition: u32, track: u32, revolution: u32, out: &mut [u8]) -> u64
    ensures value { result ≡ code_of (within (length out.old) (numbers_of (flux_answer (edition_of edition) image.now track revolution))) }
    ensures out_after { out.new ≡ out_after out.old (within (length out.old) (numbers_of (flux_answer (edition_of edition) image.now track revolution))) }
{
    let named = Edition::from(u64::from(edition));
    let answer = scp::revolution(image, named, track, revolution);
    match answer {
        Ok(d) => boundary::give(out, scp_lookup::flux_of(image, d)),
        Err(r) => boundary::code(r),
    }
}

// Where the flux of a revolution stands: its file offset, and how many bytes it has.
pub fn flux_part(image: &[u8], edition: u32, track: u32, revolution: u32, out: &mut [u64]) -> u64
    ensures value { result ≡ code_of (within (length out.old) (part_numbers (flux_answer (edition_of edition) image.now track revolution))) }
    ensures out_after { out.new ≡ out_after out.old (within (length out.old) (part_numbers (flux_answer (edition_of edition) image.now track revolution))) }
{
    let named = Edition::from(u64::from(edition));
    let asked = scp::revolution(image, named, track, revolution);
    match asked {
        Ok(d) => {
            let offset = d.offset;
            let part = scp_lookup::flux_of(image, d);
            boundary::give(out, &[offset.0, part.len() as u64])
        }
        Err(r) => boundary::code(r),
    }
}

// ---- speeds

// The speed of a revolution: 1.0 and the speed, or two zeros.
pub fn speed(image: &[u8], edition: u32, track: u32, revolution: u32, out: &mut [f64]) -> u64
    ensures value { result ≡ code_of (within (length out.old) (floats_of 2 (speed_answer (edition_of edition) image.now track revolution))) }
    ensures out_after { out.new ≡ out_after out.old (within (length out.old) (floats_of 2 (speed_answer (edition_of edition) image.now track revolution))) }
{
    let named = Edition::from(u64::from(edition));
    let found = scp::speed(image, named, track, revolution);
    boundary::answer(out, found.map(scp_boundary::speed_floats))
}

// The speeds of a track: 1.0, slowest, fastest, or three zeros.
pub fn track_speed(image: &[u8], edition: u32, track: u32, out: &mut [f64]) -> u64
    ensures value { result ≡ code_of (within (length out.old) (floats_of 3 (track_speed_answer (edition_of edition) image.now track))) }
    ensures out_after { out.new ≡ out_after out.old (within (length out.old) (floats_of 3 (track_speed_answer (edition_of edition) image.now track))) }
{
    let named = Edition::from(u64::from(edition));
    let found = scp::track_speed(image, named, track);
    boundary::answer(out, found.map(scp_boundary::track_speed_floats))
}
