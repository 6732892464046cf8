// Writing a standard DSK image from the data of its sectors.
#![tactic(auto)]

ghost use Rattle.std.specs.Prelude.{◌≡◌, false, ◌+◌, ◌*◌, ◌<◌, ◌≤◌, length};
ghost use Rattle.std.proofs.lemmas.List.Edits.{sets};
ghost use Rattle.refusals.specs.Refusals.{found};
ghost use Rattle.dsk_fields.specs.Fields.{info_size};
ghost use Rattle.dsk_layout.specs.Layouts.{asked_for, bad_layout};
ghost use Rattle.dsk_write.specs.Images.{joined_from, header_bytes, list_bytes, info_bytes, block_offset, block_bytes, track_bytes, image_bytes};
ghost use Rattle.dsk_write.specs.Writing.{write_answer, buffer_after};
ghost use Rattle.dsk_write.specs.Steps.{Roomy, Located};

use dsk_fields::INFO_SIZE;
use dsk_layout::{Layout, LayoutNumbers};
use refusals::{Reason, Refusal};

// Where the Disc Information Block has the creator's name, and where it is 0 from.
const CREATOR_AT: usize = 0x22;

const REST_AT: usize = 0x34;

// The file offset of a block, the offset of its data among the data of all blocks, and how many bytes they are.
#[derive(Clone, Copy, Debug, PartialEq, Eq)]
struct BlockOffsets {
    block: usize,
    content: usize,
    size: usize,
}

// ---- the information blocks

// Puts the Disc Information Block.
fn put_header(image: &mut [u8], creator: &[u8], layout: Layout)
    requires { (length creator.now ≡ 14) × (info_size ≤ length image.old) }
    ensures { image.new ≡ sets image.old 0 (header_bytes creator.now layout) }
{
    let [low, high, ..] = layout.track_size().to_le_bytes();
    copies::copy(image, 0, b"MV - CPCEMU Disk-File\r\nDisk-Info\r\n");
    copies::copy(image, CREATOR_AT, creator);
    let geometry = [layout.tracks, layout.sides, low, high];
    copies::copy(image, dsk_fields::TRACKS_AT, &geometry);
    copies::zeros(image, REST_AT, INFO_SIZE - REST_AT);
}

// Puts the sector information list of the block of a track and a side.
fn put_list(image: &mut [u8], at: usize, layout: Layout, track: u8, side: u8)
    requires { (at + 8 * layout.sectors ≤ length image.old) × (layout.sectors ≤ 29) }
    ensures { image.new ≡ sets image.old at (list_bytes layout track side) }
{
    for k in 0..layout.sectors {
        let entry = [track, side, k + 1, layout.code, 0, 0, 0, 0];
        copies::copy(image, at + dsk_fields::ENTRY_SIZE * usize::from(k), &entry);
    }
}

// Puts the Track Information Block of a track and a side.
fn put_info(image: &mut [u8], at: usize, layout: Layout, track: u8, side: u8)
    requires { (at + info_size ≤ length image.old) × (layout.sectors ≤ 29) }
    ensures { image.new ≡ sets image.old at (info_bytes layout track side) }
{
    copies::copy(image, at, b"Track-Info\r\n\0\0\0\0");
    let numbers = [
        track,
        side,
        0,
        0,
        layout.code,
        layout.sectors,
        layout.gap,
        layout.filler,
    ];
    copies::copy(image, at + dsk_fields::TRACK_NUMBER_AT, &numbers);
    put_list(image, at + dsk_fields::LIST_AT, layout, track, side);
    let used = dsk_fields::LIST_AT + dsk_fields::ENTRY_SIZE * usize::from(layout.sectors);
    copies::zeros(image, at + used, INFO_SIZE - used);
}

// ---- the blocks

// The offsets of the block of a track and a side, and of its data.
fn locate_block(layout: Layout, track: u8, side: u8) -> BlockOffsets
    requires { (track < layout.tracks) × (side < layout.sides) }
    ensures { Located layout track side result }
{
    let size = layout.track_data();
    let index = usize::from(track) * usize::from(layout.sides) + usize::from(side);
    BlockOffsets {
        block: INFO_SIZE + index * layout.track_size(),
        content: index * size,
        size,
    }
}

// Puts the block of a track and a side, with its data.
fn put_block(image: &mut [u8], layout: Layout, track: u8, side: u8, content: &[u8])
    requires roomy { Roomy layout (length content.now) (length image.old) }
    requires track_lt_tracks { (track < layout.tracks) × (side < layout.sides) }
    ensures { image.new ≡ sets image.old (block_offset layout track side) (block_bytes layout content.now track side) }
{
    let offsets = locate_block(layout, track, side);
    let at = offsets.block;
    let start = offsets.content;
    let end = start + offsets.size;
    put_info(image, at, layout, track, side);
    copies::copy(image, at + INFO_SIZE, &content[start..end]);
}

// Puts the blocks of a track, side by side.
fn put_track(image: &mut [u8], layout: Layout, track: u8, content: &[u8])
    requires roomy { Roomy layout (length content.now) (length image.old) }
    requires track_lt_tracks { track < layout.tracks }
    ensures { image.new ≡ sets image.old (block_offset layout track 0) (track_bytes layout content.now track) }
{
    for side in 0..layout.sides {
        put_block(image, layout, track, side, content);
    }
}

// Puts all blocks, track by track.
fn put_blocks(image: &mut [u8], layout: Layout, content: &[u8])
    requires { Roomy layout (length content.now) (length image.old) }
    ensures { image.new ≡ sets image.old info_size (joined_from (track_bytes layout content.now) 0 layout.tracks) }
{
    for track in 0..layout.tracks {
        put_track(image, layout, track, content);
    }
}

// ---- the image

// Puts the image of a layout that is not refused: 15 where it does not fit.
fn put_image(
    image: &mut [u8],
    creator: &[u8],
    layout: Layout,
    content: &[u8],
) -> Result<usize, Refusal>
    requires { bad_layout layout (length creator.now) (length content.now) ≡ false }
    ensures value { found result ≡ write_answer creator.now layout content.now (length image.old) }
    ensures image_after { image.new ≡ buffer_after image.old (image_bytes creator.now layout content.now) (found result) }
{
    let size = layout.image_size();
    if image.len() < size {
        return Err(Reason::Places.at(0));
    }
    put_header(image, creator, layout);
    put_blocks(image, layout, content);
    Ok(size)
}

// Writes the image of a creator of 14 bytes, a layout and the data of all sectors, by track, side and sector, to the start of `image`, and
// gives its length: 41, then 15.
#[tactic(auto, using(crate::proofs::Outcome::gives_41))]
pub fn write(
    creator: &[u8],
    numbers: LayoutNumbers,
    content: &[u8],
    image: &mut [u8],
) -> Result<usize, Refusal>
    ensures value { found result ≡ write_answer creator.now (asked_for numbers) content.now (length image.old) }
    ensures image_after { image.new ≡ buffer_after image.old (image_bytes creator.now (asked_for numbers) content.now) (found result) }
{
    let layout = numbers.check(creator.len(), content.len())?;
    put_image(image, creator, layout, content)
}
