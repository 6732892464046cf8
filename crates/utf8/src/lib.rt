// UTF-8 by the Unicode Standard, section 3.9: whether bytes are well-formed, and up to where they are.
#![tactic(auto)]

ghost use Rattle.std.specs.Prelude.{◌≡◌, ℕ, [], ◌∷◌, true, ◌<◌, ◌≤◌, length, drop, take, slice_index_or};
ghost use Rattle.std.specs.Str.{IsAscii};
ghost use Rattle.copies.specs.Copying.{part};
ghost use Rattle.utf8.specs.Table.{◌to◌, holds, sequence_size, valid_up_to, well_formed};
ghost use Rattle.utf8.specs.Reading.{lowest, highest, Passed, Sized};

// ---- one sequence

// Whether the byte is one of those that follow.
fn trails(b: u8) -> bool
    ensures { result ≡ holds (0x80 to 0xBF) b }
{
    (0x80..=0xBF).contains(&b)
}

// The least second byte after the first byte a.
fn lowest(a: u8) -> u8
    ensures { result ≡ lowest a }
{
    match a {
        0xE0 => 0xA0,
        0xF0 => 0x90,
        _ => 0x80,
    }
}

// The greatest second byte after the first byte a.
fn highest(a: u8) -> u8
    ensures { result ≡ highest a }
{
    match a {
        0xED => 0x9F,
        0xF4 => 0x8F,
        _ => 0xBF,
    }
}

// Whether b can be the second byte after the first byte a.
fn follows(a: u8, b: u8) -> bool
    ensures { result ≡ holds (lowest a to highest a) b }
{
    (lowest(a)..=highest(a)).contains(&b)
}

// How many bytes the sequence has that starts with these four, if one does. Past the end a byte is given as 0, which follows none.
fn size_of(a: u8, b: u8, c: u8, d: u8) -> Option<usize>
    ensures { Sized result (sequence_size (a ∷ b ∷ c ∷ d ∷ [])) }
{
    match a {
        0x00..=0x7F => Some(1),
        0xC2..=0xDF if trails(b) => Some(2),
        0xE0..=0xEF if follows(a, b) & trails(c) => Some(3),
        0xF0..=0xF4 if follows(a, b) & trails(c) & trails(d) => Some(4),
        _ => None,
    }
}

// How many bytes the sequence has that starts at this index, if one does.
fn size_at(text: &[u8], at: usize) -> Option<usize>
    requires { at < length text.now }
    ensures { Sized result (sequence_size (drop at text.now)) }
{
    if 4 <= text.len() - at {
        return size_of(text[at], text[at + 1], text[at + 2], text[at + 3]);
    }
    size_of(
        text[at],
        octets::byte(text, at + 1),
        octets::byte(text, at + 2),
        octets::byte(text, at + 3),
    )
}

// ---- ASCII, of which each byte is a sequence

// True only if the block is ASCII: no test ends early, so the compiler makes them all at once.
fn is_ascii_block(block: &[u8; 64]) -> bool
    ensures { result ≡ true → IsAscii block.now }
{
    let mut ascii = true;
    for b in block {
        ascii &= b.is_ascii();
    }
    ascii
}

// How many of the blocks are ASCII with which they start.
fn ascii_blocks(blocks: &[[u8; 64]]) -> usize
    ensures within { result ≤ length blocks.now }
    ensures ascii { (i : ℕ) → i < result → IsAscii (slice_index_or blocks.now i []) }
{
    blocks
        .iter()
        .position(|block| !is_ascii_block(block))
        .unwrap_or(blocks.len())
}

// How many bytes of ASCII the text starts with, each tested by itself.
fn ascii_bytes(text: &[u8]) -> usize
    ensures within { result ≤ length text.now }
    ensures ascii { IsAscii (take result text.now) }
{
    text.iter()
        .position(|b| !b.is_ascii())
        .unwrap_or(text.len())
}

// How many bytes of ASCII the text starts with.
fn ascii_len(text: &[u8]) -> usize
    ensures { Passed text.now 0 result }
{
    let (blocks, _) = text.as_chunks::<64>();
    let start = 64 * ascii_blocks(blocks);
    start + ascii_bytes(&text[start..])
}

// ---- a text

// How many bytes come before the place where the text stops being well-formed; all of them where it does not.
pub fn valid_up_to(text: &[u8]) -> usize
    ensures { result ≡ valid_up_to text.now }
{
    let mut at = 0;
    // The place moves on by a whole sequence or run, so no iterator counts it.
    while at < text.len() {
        if text[at].is_ascii() {
            at += 1 + ascii_len(&text[at + 1..]);
        } else {
            match size_at(text, at) {
                Some(size) => at += size,
                None => return at,
            }
        }
    }
    at
}

// Whether the text is well-formed.
pub fn well_formed(text: &[u8]) -> bool
    ensures { result ≡ well_formed text.now }
{
    valid_up_to(text) == text.len()
}

// Whether n bytes from a start on are well-formed, a part that is cut where the bytes end.
pub fn well_formed_part(bytes: &[u8], start: usize, n: usize) -> bool
    ensures { result ≡ well_formed (part bytes.now start n) }
{
    well_formed(copies::part_of(bytes, start, n))
}
