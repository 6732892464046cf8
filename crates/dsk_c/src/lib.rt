// The boundary of DSK images to C and Rust: each call returns 0, or a refusal's number + 256 x its position, and puts its values to a lent
// buffer. A slice passes as a pointer and a length (include/dsk.h).
#![tactic(auto)]

ghost use Rattle.std.specs.Prelude.{◌≡◌, [], ◌∷◌, length};
ghost use Rattle.boundary.specs.Boundary.{code_of, within, out_after};
ghost use Rattle.dsk.specs.Answers.{validate_answer, geometry_answer, block_answer, sector_answer};
ghost use Rattle.dsk_layout.specs.Layouts.{layout_of};
ghost use Rattle.dsk_write.specs.Images.{image_bytes};
ghost use Rattle.dsk_write.specs.Writing.{buffer_after};
ghost use Rattle.dsk_c.specs.Values.{of_validated, geometry_numbers, of_geometry, block_numbers, of_block, sector_numbers, of_sector, of_written, write_to};

use dsk::{DiskGeometry, SectorInfo, TrackBlock};
use dsk_layout::LayoutNumbers;

// Validates the image: refusals 30 to 35.
#[unsafe(no_mangle)]
pub extern "C" fn dsk_validate(image: &[u8]) -> u64
    ensures { result ≡ code_of (of_validated (validate_answer image.now)) }
{
    boundary::code_of(dsk::validate(image))
}

// Tracks, sides, track size.
fn geometry_numbers(g: DiskGeometry) -> [u64; 3]
    ensures { result ≡ geometry_numbers g }
{
    [u64::from(g.tracks), u64::from(g.sides), u64::from(g.size)]
}

// The geometry: tracks, sides, track size.
#[unsafe(no_mangle)]
pub extern "C" fn dsk_geometry(image: &[u8], out: &mut [u64]) -> u64
    ensures value { result ≡ code_of (within (length out.old) (of_geometry (geometry_answer image.now))) }
    ensures out_after { out.new ≡ out_after out.old (within (length out.old) (of_geometry (geometry_answer image.now))) }
{
    boundary::answer(out, dsk::geometry(image).map(geometry_numbers))
}

// Number of sectors, size code N, gap, filler.
fn block_numbers(d: TrackBlock) -> [u64; 4]
    ensures { result ≡ block_numbers d }
{
    [
        u64::from(d.sectors),
        u64::from(d.code),
        u64::from(d.gap),
        u64::from(d.filler),
    ]
}

// A track block: number of sectors, size code N, gap, filler.
#[unsafe(no_mangle)]
pub extern "C" fn dsk_block(image: &[u8], track: u32, side: u32, out: &mut [u64]) -> u64
    ensures value { result ≡ code_of (within (length out.old) (of_block (block_answer image.now track side))) }
    ensures out_after { out.new ≡ out_after out.old (within (length out.old) (of_block (block_answer image.now track side))) }
{
    boundary::answer(out, dsk::block(image, track, side).map(block_numbers))
}

// C, H, R, N, ST1, ST2, file offset and length of the data.
fn sector_numbers(d: SectorInfo) -> [u64; 8]
    ensures { result ≡ sector_numbers d }
{
    [
        u64::from(d.cylinder),
        u64::from(d.head),
        u64::from(d.id),
        u64::from(d.code),
        u64::from(d.status1),
        u64::from(d.status2),
        d.offset,
        d.length,
    ]
}

// A sector: C, H, R, N, ST1, ST2, file offset and length of its data.
#[unsafe(no_mangle)]
pub extern "C" fn dsk_sector(
    image: &[u8],
    track: u32,
    side: u32,
    index: u32,
    out: &mut [u64],
) -> u64
    ensures value { result ≡ code_of (within (length out.old) (of_sector (sector_answer image.now track side index))) }
    ensures out_after { out.new ≡ out_after out.old (within (length out.old) (of_sector (sector_answer image.now track side index))) }
{
    boundary::answer(
        out,
        dsk::sector(image, track, side, index).map(sector_numbers),
    )
}

// The length of an image.
fn length_numbers(n: usize) -> [u64; 1]
    ensures { result ≡ n ∷ [] }
{
    [n as u64]
}

// Writes an image to the start of `image`; its length to `out`.
#[unsafe(no_mangle)]
pub extern "C" fn dsk_write(
    creator: &[u8],
    tracks: u32,
    sides: u32,
    sectors: u32,
    code: u32,
    gap: u32,
    filler: u32,
    content: &[u8],
    image: &mut [u8],
    out: &mut [u64],
) -> u64
    ensures value { result ≡ code_of (of_written (write_to creator.now (layout_of tracks sides sectors code gap filler) content.now (length image.old) (length out.old))) }
    ensures image_after { image.new ≡ buffer_after image.old (image_bytes creator.now (layout_of tracks sides sectors code gap filler) content.now) (write_to creator.now (layout_of tracks sides sectors code gap filler) content.now (length image.old) (length out.old)) }
    ensures out_after { out.new ≡ out_after out.old (of_written (write_to creator.now (layout_of tracks sides sectors code gap filler) content.now (length image.old) (length out.old))) }
{
    let numbers = LayoutNumbers {
        tracks,
        sides,
        sectors,
        code,
        gap,
        filler,
    };
    let places = boundary::lent(image.len(), out.len(), 1);
    let found = dsk_write::write(creator, numbers, content, &mut image[..places]);
    boundary::answer(out, found.map(length_numbers))
}
