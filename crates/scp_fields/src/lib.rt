// The editions of the format, and the fields of a SuperCard Pro image's header, table and footer, each with its place and its one reading.
// Each function is total: past the end a byte reads 0.
#![tactic(auto)]

ghost use Rattle.std.specs.Prelude.{◌≡◌, ◌<◌, ◌≤◌};
ghost use Rattle.scp_fields.specs.Editions.{edition_of, slots, last_track, table_end};
ghost use Rattle.scp_fields.specs.Header.{
  revolutions,
  start_track,
  end_track,
  flags,
  read_write,
  footer_bit,
  has_footer,
  width,
  heads,
  stored_sum,
  track_entry,
  data_end,
};
ghost use Rattle.scp_fields.specs.Footer.{footer_at, string_entry, footer_least};

// ---- editions

// The edition by which an image is read: revision 1.4 or 1.6 of the format (V-1).
#[derive(Clone, Copy, Debug, PartialEq, Eq)]
pub enum Edition {
    V1_4,
    V1_6,
}

// The number that names revision 1.4; any other names 1.6.
const NUMBER_OF_1_4: u64 = 14;

// The edition that a number names.
impl From<u64> for Edition {
    ghost from_gives = { λ number edition. edition ≡ edition_of number };

    #[tactic(auto, unfolding(crate::specs::Editions::edition_of))]
    fn from(number: u64) -> Edition {
        if number == NUMBER_OF_1_4 {
            Edition::V1_4
        } else {
            Edition::V1_6
        }
    }
}

// How many entries the table of an edition has.
#[tactic(auto, unfolding(crate::specs::Editions::slots))]
pub fn slots(edition: Edition) -> usize
    ensures { (result ≡ slots edition) × (166 ≤ result) × (result ≤ 168) }
{
    match edition {
        Edition::V1_4 => 166,
        Edition::V1_6 => TRACK_SLOTS,
    }
}

// The highest track number of an edition.
pub fn last_track(edition: Edition) -> usize
    ensures { result ≡ last_track edition }
{
    slots(edition) - 1
}

// Where the table of an edition ends: the least offset of tracks, flux and strings.
pub fn table_end(edition: Edition) -> usize
    ensures { (result ≡ table_end edition) × (680 ≤ result) × (result ≤ 688) }
{
    TABLE_AT + 4 * slots(edition)
}

// ---- places

// Where the fields of the header stand (L-2 to L-10).
pub const VERSION_AT: usize = 3;

pub const DISK_AT: usize = 4;

pub const REVOLUTIONS_AT: usize = 5;

pub const START_AT: usize = 6;

pub const END_AT: usize = 7;

pub const FLAGS_AT: usize = 8;

pub const WIDTH_AT: usize = 9;

pub const HEADS_AT: usize = 10;

pub const CHECKSUM_AT: usize = 12;

// Where the table starts, and with it the byte sum; how many entries the table of an opened image has.
pub const TABLE_AT: usize = 16;

pub const TRACK_SLOTS: usize = 168;

// The most bytes of an image (R-1).
pub const SIZE_LIMIT: usize = 268_435_456;

// The bytes of the footer, and its strings (L-21, L-22).
pub const FOOTER_SIZE: usize = 48;

pub const STRING_SLOTS: u32 = 6;

// Where the footer has its two times, its four version bytes and its mark.
pub const CREATED_AT: usize = 24;

pub const MODIFIED_AT: usize = 32;

pub const SOFTWARE_AT: usize = 40;

pub const HARDWARE_AT: usize = 41;

pub const FIRMWARE_AT: usize = 42;

pub const FORMAT_AT: usize = 43;

pub const FOOTER_MARK_AT: usize = 44;

// ---- the header

// How many revolutions each track has.
pub fn revolutions(image: &[u8]) -> usize
    ensures { (result ≡ revolutions image.now) × (result < 256) }
{
    usize::from(octets::byte(image, REVOLUTIONS_AT))
}

// The first track of the span.
pub fn start_track(image: &[u8]) -> usize
    ensures { (result ≡ start_track image.now) × (result < 256) }
{
    usize::from(octets::byte(image, START_AT))
}

// The last track of the span.
pub fn end_track(image: &[u8]) -> usize
    ensures { (result ≡ end_track image.now) × (result < 256) }
{
    usize::from(octets::byte(image, END_AT))
}

// The flags.
pub fn flags(image: &[u8]) -> u8
    ensures { result ≡ flags image.now }
{
    octets::byte(image, FLAGS_AT)
}

// Whether the image is read/write (FLAGS bit 4).
pub fn is_read_write(image: &[u8]) -> bool
    ensures { result ≡ read_write image.now }
{
    flags(image) / 16 % 2 == 1
}

// FLAGS bit 5, or 0 by an edition to which it means nothing.
#[tactic(auto, unfolding(crate::specs::Header::footer_bit, crate::specs::Editions::footers))]
fn footer_bit(image: &[u8], edition: Edition) -> usize
    ensures { (result ≡ footer_bit edition image.now) × (result < 2) }
{
    match edition {
        Edition::V1_4 => 0,
        Edition::V1_6 => usize::from(flags(image) / 32 % 2),
    }
}

// Whether the image has a footer.
pub fn has_footer(image: &[u8], edition: Edition) -> bool
    ensures { result ≡ has_footer edition image.now }
{
    footer_bit(image, edition) == 1
}

// The width of a flux word.
pub fn width(image: &[u8]) -> u8
    ensures { result ≡ width image.now }
{
    octets::byte(image, WIDTH_AT)
}

// The heads: 0 both, 1 side 0, 2 side 1.
pub fn heads(image: &[u8]) -> u8
    ensures { result ≡ heads image.now }
{
    octets::byte(image, HEADS_AT)
}

// The checksum as it is stored.
pub fn checksum(image: &[u8]) -> u32
    ensures { result ≡ stored_sum image.now }
{
    octets::le32(image, CHECKSUM_AT)
}

// The table's entry of a track: the file offset of its header, or 0 for no track.
pub fn track_entry(image: &[u8], track: u32) -> u32
    ensures { result ≡ track_entry image.now track }
{
    octets::le32(image, TABLE_AT + 4 * (track as usize))
}

// Where tracks, flux and strings end (E), or 0 where the image is too short to have the footer that it flags.
pub fn data_end(image: &[u8], edition: Edition) -> usize
    ensures { result ≡ data_end edition image.now }
{
    let n = image.len();
    let footer = FOOTER_SIZE * footer_bit(image, edition);
    if n < footer {
        return 0;
    }
    n - footer
}

// ---- the footer

// The least length of an image that has a footer.
pub fn footer_least(edition: Edition) -> usize
    ensures { result ≡ footer_least edition }
{
    table_end(edition) + FOOTER_SIZE
}

// Where the footer stands, or 0 where the image is too short to have one.
pub fn footer_at(image: &[u8]) -> usize
    ensures { result ≡ footer_at image.now }
{
    let n = image.len();
    if n < FOOTER_SIZE {
        return 0;
    }
    n - FOOTER_SIZE
}

// The file offset of a string of the footer, or 0 for no string.
pub fn string_entry(image: &[u8], j: u32) -> u32
    ensures { result ≡ string_entry image.now j }
{
    octets::le32(image, footer_at(image) + 4 * (j as usize))
}
