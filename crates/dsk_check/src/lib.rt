// What refuses a standard DSK image: 30 to 35. The Disc Information Block is looked at, and each Track Information Block; no sector's data.
#![tactic(auto)]

ghost use Rattle.std.specs.Prelude.{◌≡◌, ◌+◌, ◌-◌, ◌*◌, ◌<◌, ◌≤◌, length, take, drop, ltb};
ghost use Rattle.refusals.specs.Refusals.{fault_of};
ghost use Rattle.refusals.specs.Search.{any_from};
ghost use Rattle.dsk_fields.specs.Fields.{block_text, says_at, info_size, size_code, entry_code, sides as side_count, tracks as track_count, sectors, data_size, block_of};
ghost use Rattle.dsk_check.specs.Faults.{bad_block, larger_code, bad_sectors, block_fault, track_fault, blocks_fault, dsk_fault};
ghost use Rattle.dsk_check.specs.Steps.{Roomy};

use dsk_fields::INFO_SIZE;
use refusals::{Reason, Refusal};

// The name "Track-Info\r\n" of a Track Information Block, four characters at a time, each four as a number of 32 bits (DK-4).
const NAME_TRAC: u32 = 0x6361_7254;

const NAME_K_IN: u32 = 0x6E49_2D6B;

const NAME_FO: u32 = 0x0A0D_6F66;

// The most sectors of a block, and the greatest size code (R-34).
const MOST_SECTORS: usize = 29;

const GREATEST_CODE: u8 = 6;

// ---- a Track Information Block

// The information block that starts at an offset, where it lies whole in the image. `info_at` tests that, for each block, and took a fifth longer.
fn inner_info(image: &[u8], at: usize) -> &[u8; INFO_SIZE]
    requires { at + info_size ≤ length image.now }
    ensures { result.now ≡ take info_size (drop at image.now) }
{
    image[at..at + INFO_SIZE].first_chunk().unwrap()
}

// Whether it has its name. `starts_with` was tried: it compares twelve bytes one by one, which takes longer than three numbers.
fn named(info: &[u8; INFO_SIZE]) -> bool
    ensures { result ≡ says_at info.now 0 block_text }
{
    (octets::le32(info, 0) == NAME_TRAC)
        & ((octets::le32(info, 4) == NAME_K_IN) & (octets::le32(info, 8) == NAME_FO))
}

// Whether its name or its numbers are wrong.
#[tactic(auto, unfolding(crate::specs::Faults::bad_block))]
fn bad_block(info: &[u8; INFO_SIZE], track: usize, side: usize) -> bool
    ensures { result ≡ bad_block info.now 0 track side }
{
    !(named(info)
        && usize::from(info[dsk_fields::TRACK_NUMBER_AT]) == track
        && usize::from(info[dsk_fields::SIDE_NUMBER_AT]) == side)
}

// The size code of a sector.
fn entry_code(info: &[u8; INFO_SIZE], k: usize) -> u8
    requires { k < 29 }
    ensures { result ≡ entry_code info.now 0 k }
{
    info[dsk_fields::LIST_AT + dsk_fields::ENTRY_SIZE * k + dsk_fields::ENTRY_CODE_AT]
}

// Whether one of the sectors, from a first one on and below n, has a larger size code than the block.
fn larger_from(info: &[u8; INFO_SIZE], first: usize, n: usize, code: u8) -> bool
    requires { (first ≤ n) × (n ≤ 29) × (code ≡ size_code info.now 0) }
    ensures { result ≡ any_from (larger_code info.now 0) first (n - first) }
{
    for k in first..n {
        if code < entry_code(info, k) {
            return true;
        }
    }
    false
}

// Whether one of the first n sectors has a larger size code than the block. Four are tested at a time: `any` and a loop that no test ends took
// up to 1.6 and 1.3 times as long for the whole image.
fn larger_code(info: &[u8; INFO_SIZE], n: usize) -> bool
    requires { n ≤ 29 }
    ensures { result ≡ any_from (larger_code info.now 0) 0 n }
{
    let code = info[dsk_fields::CODE_AT];
    let mut k = 0;
    while k + 3 < n {
        if code < entry_code(info, k) {
            return true;
        }
        if code < entry_code(info, k + 1) {
            return true;
        }
        if code < entry_code(info, k + 2) {
            return true;
        }
        if code < entry_code(info, k + 3) {
            return true;
        }
        k += 4;
    }
    larger_from(info, k, n, code)
}

// Whether there are too many sectors, too great a size code, or a sector with a larger one.
#[tactic(auto, unfolding(crate::specs::Faults::bad_sectors))]
fn bad_sectors(info: &[u8; INFO_SIZE]) -> bool
    ensures { result ≡ bad_sectors info.now 0 }
{
    let n = usize::from(info[dsk_fields::SECTORS_AT]);
    MOST_SECTORS < n || GREATEST_CODE < info[dsk_fields::CODE_AT] || larger_code(info, n)
}

// Whether the sector data do not fit in a block of so many bytes.
fn bad_data(info: &[u8; INFO_SIZE], track_size: usize) -> bool
    ensures { result ≡ ltb track_size (info_size + sectors info.now 0 * data_size info.now 0) }
{
    let size = dsk_fields::sector_size(info[dsk_fields::CODE_AT]);
    track_size < INFO_SIZE + usize::from(info[dsk_fields::SECTORS_AT]) * size
}

// ---- all blocks

// What refuses the block of a track and a side, which starts at an offset: 33, 34 or 35.
#[tactic(auto, using(crate::proofs::Infos::own_block, crate::proofs::Infos::own_sectors, crate::proofs::Infos::own_data), unfolding(crate::specs::Faults::block_fault_at, refusals::specs::Refusals::refuse_if))]
fn block_fault(image: &[u8], at: usize, track: usize, side: usize) -> Result<(), Refusal>
    requires { Roomy image.now × (at ≡ block_of image.now track side) × (track < track_count image.now) × (side < side_count image.now) × (track < 256) × (side < 256) }
    ensures { fault_of result ≡ block_fault image.now track side }
{
    let index = dsk_fields::block_index(image, track as u8, side as u8) as u64;
    let info = inner_info(image, at);
    if bad_block(info, track, side) {
        return Err(Reason::DskBlock.at(index));
    }
    if bad_sectors(info) {
        return Err(Reason::DskSectors.at(index));
    }
    if bad_data(info, dsk_fields::track_size(image)) {
        return Err(Reason::DskData.at(index));
    }
    Ok(())
}

// The first faulty block of a track, whose first block starts at an offset.
#[tactic(auto, using(crate::proofs::Results::err_here, crate::proofs::Results::ok_next, crate::proofs::Results::ok_end))]
fn track_fault(image: &[u8], start: usize, track: usize) -> Result<(), Refusal>
    requires { Roomy image.now × (start ≡ block_of image.now track 0) × (track < track_count image.now) × (track < 256) }
    ensures { fault_of result ≡ track_fault image.now track }
{
    let size = dsk_fields::track_size(image);
    let mut at = start;
    for side in 0..dsk_fields::sides(image) {
        block_fault(image, at, track, side)?;
        at += size;
    }
    Ok(())
}

// The first faulty block of all.
#[tactic(auto, using(crate::proofs::Results::err_here, crate::proofs::Results::ok_next, crate::proofs::Results::ok_end))]
fn blocks_fault(image: &[u8]) -> Result<(), Refusal>
    requires { Roomy image.now }
    ensures { fault_of result ≡ blocks_fault image.now }
{
    let step = dsk_fields::sides(image) * dsk_fields::track_size(image);
    let mut at = INFO_SIZE;
    for track in 0..dsk_fields::tracks(image) {
        track_fault(image, at, track)?;
        at += step;
    }
    Ok(())
}

// What refuses an image: the first of 30 to 35 by their order.
#[tactic(auto, unfolding(crate::specs::Faults::dsk_fault, refusals::specs::Refusals::first_of, refusals::specs::Refusals::refuse_if))]
pub fn check(image: &[u8]) -> Result<(), Refusal>
    ensures { fault_of result ≡ dsk_fault image.now }
{
    dsk_header::check_header(image)?;
    blocks_fault(image)
}
