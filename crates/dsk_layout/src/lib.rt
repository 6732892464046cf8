// What a DSK image that is to be written has, how large it is, and what is not written: 41.
#![tactic(auto)]

ghost use Rattle.std.specs.Prelude.{◌≡◌, ◌≤◌};
ghost use Rattle.refusals.specs.Refusals.{found, in_table, refusal};
ghost use Rattle.dsk_layout.specs.Layouts.{asked_for, track_data, track_length, block_count, image_length, bad_numbers, bad_sizes, layout_answer};

use refusals::{Reason, Refusal};

// How many bytes the creator's name has.
const CREATOR_SIZE: usize = 14;

// The largest track size that its two bytes hold.
const GREATEST_TRACK_SIZE: usize = 65_535;

// The largest number that a byte holds: so many tracks, and such a gap or filler.
const GREATEST_BYTE: u32 = 255;

// The most sectors of a block, and the greatest size code that is written.
const MOST_SECTORS: u32 = 29;

const GREATEST_CODE: u32 = 5;

// Refusal 41.
fn refused() -> Refusal
    ensures { in_table result ≡ refusal 41 0 }
{
    Reason::DskLayout.at(0)
}

// Tracks, sides, sectors of each block, their size code, gap and filler, as they are asked for.
#[derive(Clone, Copy, Debug, PartialEq, Eq)]
pub struct LayoutNumbers {
    pub tracks: u32,
    pub sides: u32,
    pub sectors: u32,
    pub code: u32,
    pub gap: u32,
    pub filler: u32,
}

// The same, of an image that can be written.
#[derive(Clone, Copy, Debug, PartialEq, Eq)]
pub struct Layout {
    pub tracks: u8,
    pub sides: u8,
    pub sectors: u8,
    pub code: u8,
    pub gap: u8,
    pub filler: u8,
}

impl Layout {
    // How many bytes of data a block has.
    pub fn track_data(self) -> usize
        ensures { (result ≡ track_data self) × (result ≤ 1_566_720) }
    {
        usize::from(self.sectors) * dsk_fields::sector_size(self.code)
    }

    // The track size: how many bytes a block has.
    pub fn track_size(self) -> usize
        ensures { (result ≡ track_length self) × (result ≤ 1_566_976) }
    {
        dsk_fields::INFO_SIZE + self.track_data()
    }

    // How many blocks there are.
    fn block_count(self) -> usize
        ensures { (result ≡ block_count self) × (result ≤ 65_025) }
    {
        usize::from(self.tracks) * usize::from(self.sides)
    }

    // How many bytes the image has.
    pub fn image_size(self) -> usize
        ensures { result ≡ image_length self }
    {
        dsk_fields::INFO_SIZE + self.block_count() * self.track_size()
    }

    // Whether the creator has not 14 bytes, the track size is above 65,535, or the data have another length.
    fn bad_sizes(self, creator: usize, content: usize) -> bool
        ensures { result ≡ bad_sizes self creator content }
    {
        creator != CREATOR_SIZE
            || GREATEST_TRACK_SIZE < self.track_size()
            || content != self.block_count() * self.track_data()
    }
}

impl LayoutNumbers {
    // Whether a number is out of its range.
    fn out_of_range(self) -> bool
        ensures { result ≡ bad_numbers (asked_for self) }
    {
        !(1..=GREATEST_BYTE).contains(&self.tracks)
            || !matches!(self.sides, 1 | 2)
            || MOST_SECTORS < self.sectors
            || GREATEST_CODE < self.code
            || GREATEST_BYTE < self.gap
            || GREATEST_BYTE < self.filler
    }

    // The layout of these numbers, for a creator of so many bytes and so many bytes of data: 41.
    #[tactic(auto, unfolding(crate::specs::Layouts::layout_answer, crate::specs::Layouts::bad_layout))]
    pub fn check(self, creator: usize, content: usize) -> Result<Layout, Refusal>
        ensures { found result ≡ layout_answer (asked_for self) creator content }
    {
        if self.out_of_range() {
            return Err(refused());
        }
        let layout = Layout {
            tracks: self.tracks as u8,
            sides: self.sides as u8,
            sectors: self.sectors as u8,
            code: self.code as u8,
            gap: self.gap as u8,
            filler: self.filler as u8,
        };
        if layout.bad_sizes(creator, content) {
            return Err(refused());
        }
        Ok(layout)
    }
}
