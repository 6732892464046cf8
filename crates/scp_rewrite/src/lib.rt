// Rewriting one revolution of a SuperCard Pro image: the stores. What refuses a rewrite is `scp_sharing`'s; where nothing does, the words, the
// duration and the count are stored, and the checksum moves with each store.
#![tactic(auto)]

ghost use Rattle.std.specs.Prelude.{◌≡◌, ◌+◌, ◌≤◌, length};
ghost use Rattle.refusals.specs.Refusals.{found};
ghost use Rattle.scp_fields.specs.Editions.{table_at};
ghost use Rattle.scp_fields.specs.Header.{stored_sum};
ghost use Rattle.scp_rewrite.specs.Rewriting.{patched, moved_sum, summed, after_rewrite};
ghost use Rattle.scp_rewrite.specs.Answering.{of_rewritten, rewrite_answer};
ghost use Rattle.scp_rewrite.specs.Steps.{Patchable, Stored};

use refusals::Refusal;
use scp_fields::Edition;

// ---- the stores

// Stores bytes from `at` on, and hands back a sum moved by the change.
fn store(image: &mut [u8], at: usize, bytes: &[u8], sum: u32) -> u32
    requires { at + length bytes.now ≤ length image.old }
    ensures { Stored image.old at bytes.now sum image.new result }
{
    let end = at + bytes.len();
    let old = octets::byte_sum(&image[at..end]);
    // `copy_from_slice` would have the archive ask for `memmove`.
    copies::copy(image, at, bytes);
    let new = octets::byte_sum(bytes);
    sum.wrapping_add(new).wrapping_sub(old)
}

// The checksum as it is stored, right or wrong: a rewrite moves it and never sums afresh (W-11).
fn stored_sum(image: &[u8]) -> u32
    requires { table_at ≤ length image.now }
    ensures { result ≡ stored_sum image.now }
{
    scp_fields::checksum(image)
}

// Patches revolution k of the track header at e, and hands back the checksum moved by the change.
fn patch(image: &mut [u8], e: u32, k: u32, duration: u32, words: &[u8]) -> u32
    requires { Patchable image.old e k (length words.now) }
    ensures value { result ≡ moved_sum image.old (patched image.old e k duration words.now) }
    ensures image_after { image.new ≡ patched image.old e k duration words.now }
{
    let at = e as usize + scp_tracks::record_offset(k);
    let data = scp_tracks::revolution_data(image, e, k);
    let offset = data.offset.0 as usize;
    let stored = stored_sum(image);
    let count = (words.len() / 2) as u32;
    let worded = store(image, offset, words, stored);
    let timed = store(image, at, &duration.to_le_bytes(), worded);
    store(image, at + 4, &count.to_le_bytes(), timed)
}

// Patches the revolution, and stores the moved checksum on a read-only image.
fn patch_summed(image: &mut [u8], e: u32, k: u32, duration: u32, words: &[u8])
    requires { Patchable image.old e k (length words.now) }
    ensures { image.new ≡ summed image.old (patched image.old e k duration words.now) }
{
    let read_write = scp_fields::is_read_write(image);
    let sum = patch(image, e, k, duration, words);
    if read_write {
        return;
    }
    octets::put_le32(image, scp_fields::CHECKSUM_AT, sum);
}

// Rewrites one revolution, by the edition that is named: its duration, its words as big-endian bytes, and their count. A refused rewrite
// changes nothing.
pub fn rewrite(
    image: &mut [u8],
    edition: Edition,
    track: u32,
    revolution: u32,
    duration: u32,
    words: &[u8],
) -> Result<(), Refusal>
    ensures result_value { of_rewritten (found result) ≡ rewrite_answer edition image.old track revolution words.now }
    ensures image_after { image.new ≡ after_rewrite edition image.old track revolution duration words.now }
{
    scp_sharing::rewrite_fault(image, edition, track, revolution, words)?;
    let e = scp_fields::track_entry(image, track);
    patch_summed(image, e, revolution, duration, words);
    Ok(())
}
