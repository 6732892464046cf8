// The fields of a standard DSK image that its track blocks are found by, each with its place and its one reading, and the size of a sector.
// Each function is total: past the end a byte reads 0.
#![tactic(auto)]

ghost use Rattle.std.specs.Prelude.{IsSome, IsNone, IfSome, ◌≡◌, ◌+◌, ◌<◌, ◌≤◌, length, take, drop};
ghost use Rattle.dsk_fields.specs.Fields.{tracks as track_count, sides as side_count, track_size, block_index, block_of, info_size, sector_size};

// How many bytes the Disc Information Block has, and each Track Information Block (DK-2, DK-4).
pub const INFO_SIZE: usize = 256;

// Where the Disc Information Block has its fields (DK-2).
pub const TRACKS_AT: usize = 0x30;

pub const SIDES_AT: usize = 0x31;

pub const TRACK_SIZE_AT: usize = 0x32;

// Where a Track Information Block has its fields, and its sector information list (DK-4, DK-5).
pub const TRACK_NUMBER_AT: usize = 0x10;

pub const SIDE_NUMBER_AT: usize = 0x11;

pub const CODE_AT: usize = 0x14;

pub const SECTORS_AT: usize = 0x15;

pub const GAP_AT: usize = 0x16;

pub const FILLER_AT: usize = 0x17;

pub const LIST_AT: usize = 0x18;

// How many bytes an entry of the list has, and where it has H, R, its size code N, ST1 and ST2; C comes first (DK-5).
pub const ENTRY_SIZE: usize = 8;

pub const ENTRY_SIDE_AT: usize = 1;

pub const ENTRY_ID_AT: usize = 2;

pub const ENTRY_CODE_AT: usize = 3;

pub const ENTRY_STATUS1_AT: usize = 4;

pub const ENTRY_STATUS2_AT: usize = 5;

// The number of tracks.
pub fn tracks(image: &[u8]) -> usize
    ensures { (result ≡ track_count image.now) × (result < 256) }
{
    usize::from(octets::byte(image, TRACKS_AT))
}

// The number of sides.
pub fn sides(image: &[u8]) -> usize
    ensures { (result ≡ side_count image.now) × (result < 256) }
{
    usize::from(octets::byte(image, SIDES_AT))
}

// The size of a track block.
pub fn track_size(image: &[u8]) -> usize
    ensures { (result ≡ track_size image.now) × (result < 65_536) }
{
    usize::from(octets::le16(image, TRACK_SIZE_AT))
}

// The index of the block of a track and a side: track 0 side 0, track 0 side 1, track 1 side 0, and so on (DK-3).
pub fn block_index(image: &[u8], track: u8, side: u8) -> usize
    ensures { (result ≡ block_index image.now track side) × (result < 65_536) }
{
    usize::from(track) * sides(image) + usize::from(side)
}

// Where the block of a track and a side starts.
pub fn block_at(image: &[u8], track: u8, side: u8) -> usize
    ensures { result ≡ block_of image.now track side }
{
    INFO_SIZE + block_index(image, track, side) * track_size(image)
}

// The information block that starts at an offset, or none where the image ends before it does.
pub fn info_at(image: &[u8], at: usize) -> Option<&[u8; INFO_SIZE]>
    ensures there { at + info_size ≤ length image.now → IsSome result }
    ensures past { length image.now < at + info_size → IsNone result }
    ensures value { IfSome result (λ info. info.now ≡ take info_size (drop at image.now)) }
{
    image.get(at..)?.first_chunk()
}

// How many bytes a sector of a size code takes; a code above 6, which is refused, counts as 6.
#[tactic(auto, unfolding(crate::specs::Fields::sector_size))]
pub fn sector_size(code: u8) -> usize
    ensures { (result ≡ sector_size code) × (result ≤ 6_144) }
{
    match code {
        0 => 128,
        1 => 256,
        2 => 512,
        3 => 1_024,
        4 => 2_048,
        5 => 4_096,
        _ => 6_144,
    }
}
