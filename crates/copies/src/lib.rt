// Copying a lent list into a lent buffer, or zeros: all of it, or nothing where it does not fit; and a part of lent bytes.
#![tactic(auto)]

ghost use Rattle.std.specs.Prelude.{◌≡◌, ◌+◌, replicate};
ghost use Rattle.copies.specs.Copying.{fits_at, copied_at, part, part_start};

// Copies the values to `at`, and says whether they fit.
pub fn copy<T: Copy>(out: &mut [T], at: usize, values: &[T]) -> bool
    ensures value { result ≡ fits_at out.old at values.now }
    ensures out_after { out.new ≡ copied_at out.old at values.now }
{
    let size = values.len();
    if out.len() < size {
        return false;
    }
    if out.len() - size < at {
        return false;
    }
    // `copy_from_slice` was tried: it makes a step of the cursor, which puts four numbers, twice as slow.
    for (i, &value) in values.iter().enumerate() {
        out[at + i] = value;
    }
    true
}

// Puts `count` bytes of 0 to `at`, and says whether they fit.
pub fn zeros(out: &mut [u8], at: usize, count: usize) -> bool
    ensures value { result ≡ fits_at out.old at (replicate count 0) }
    ensures out_after { out.new ≡ copied_at out.old at (replicate count 0) }
{
    if out.len() < count {
        return false;
    }
    if out.len() - count < at {
        return false;
    }
    out[at..at + count].fill(0);
    true
}

// n bytes from a start on, as that part of the bytes, cut where they end; the empty part at 0 where the start is past the end.
pub fn part_of(whole: &[u8], start: usize, n: usize) -> &[u8]
    ensures result_value { result.now ≡ part whole.now start n }
    ensures ref_ptr_value { result.ref_ptr ≡ (whole.entry.ref_ptr.0, part_start whole.now start + whole.entry.ref_ptr.1) }
{
    let size = whole.len();
    if size < start {
        return &whole[..0];
    }
    if size - start <= n {
        return &whole[start..];
    }
    let end = start + n;
    &whole[start..end]
}
