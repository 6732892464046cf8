// The direct calls on an image, answered by a code and by values put to the start of a lent buffer (include/scp.h). The edition is a number:
// 14 is 1.4, any other 1.6.
#![tactic(auto)]

ghost use Rattle.std.specs.Prelude.{◌≡◌, length};
ghost use Rattle.scp_fields.specs.Editions.{edition_of};
ghost use Rattle.scp_direct.specs.Direct.{direct_track, direct_revolution, direct_flux};
ghost use Rattle.boundary.specs.Boundary.{code_of, within, out_after};
ghost use Rattle.scp_boundary.specs.Boundary.{numbers_of, part_numbers};

use scp_fields::Edition;

// A track: cylinder, head, file offset of its header, revolutions.
pub fn track(image: &[u8], edition: u32, track: u32, out: &mut [u64]) -> u64
    ensures value { result ≡ code_of (within (length out.old) (numbers_of (direct_track (edition_of edition) image.now track))) }
    ensures out_after { out.new ≡ out_after out.old (within (length out.old) (numbers_of (direct_track (edition_of edition) image.now track))) }
{
    let named = Edition::from(u64::from(edition));
    let found = scp_direct::track(image, named, track);
    boundary::answer(out, found.map(scp_values::track_numbers))
}

// A revolution: duration, words, file offset of its flux.
pub fn revolution(image: &[u8], edition: u32, track: u32, revolution: u32, out: &mut [u64]) -> u64
    ensures value { result ≡ code_of (within (length out.old) (numbers_of (direct_revolution (edition_of edition) image.now track revolution))) }
    ensures out_after { out.new ≡ out_after out.old (within (length out.old) (numbers_of (direct_revolution (edition_of edition) image.now track revolution))) }
{
    let named = Edition::from(u64::from(edition));
    let found = scp_direct::revolution(image, named, track, revolution);
    boundary::answer(out, found.map(scp_values::revolution_numbers))
}

// The flux of a revolution.
pub fn flux(image: &[u8], edition: u32, track: u32, revolution: u32, out: &mut [u8]) -> u64
    ensures value { result ≡ code_of (within (length out.old) (numbers_of (direct_flux (edition_of edition) image.now track revolution))) }
    ensures out_after { out.new ≡ out_after out.old (within (length out.old) (numbers_of (direct_flux (edition_of edition) image.now track revolution))) }
{
    let named = Edition::from(u64::from(edition));
    let answer = scp_direct::revolution(image, named, track, revolution);
    match answer {
        Ok(d) => boundary::give(out, scp_lookup::flux_of(image, d)),
        Err(r) => boundary::code(r),
    }
}

// Where the flux of a revolution stands: its file offset, and how many bytes it has.
pub fn flux_part(image: &[u8], edition: u32, track: u32, revolution: u32, out: &mut [u64]) -> u64
    ensures value { result ≡ code_of (within (length out.old) (part_numbers (direct_flux (edition_of edition) image.now track revolution))) }
    ensures out_after { out.new ≡ out_after out.old (within (length out.old) (part_numbers (direct_flux (edition_of edition) image.now track revolution))) }
{
    let named = Edition::from(u64::from(edition));
    let asked = scp_direct::revolution(image, named, track, revolution);
    match asked {
        Ok(d) => {
            let offset = d.offset;
            let part = scp_lookup::flux_of(image, d);
            boundary::give(out, &[offset.0, part.len() as u64])
        }
        Err(r) => boundary::code(r),
    }
}
