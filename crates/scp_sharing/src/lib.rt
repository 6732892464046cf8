// What refuses a rewrite of one revolution of a SuperCard Pro image, by the edition that it names: the question of the revolution, the words,
// and the sharing test. It opens the image anew, takes nobody's word, and walks once over the extents that others claim.
#![tactic(auto)]

ghost use Rattle.std.specs.Prelude.{◌≡◌, ◌≢◌, ◌+◌, ◌<◌, ◌≤◌, length, min};
ghost use Rattle.octets.specs.Numbers.{le32_at};
ghost use Rattle.refusals.specs.Refusals.{fault_of};
ghost use Rattle.scp_fields.specs.Header.{revolutions};
ghost use Rattle.scp_tracks.specs.Tracks.{revolution_at};
ghost use Rattle.scp_sharing.specs.Extents.{between, meets, any_of};
ghost use Rattle.scp_sharing.specs.Claims.{flux_extent, stand_at, hit, header_claims, flux_claim, flux_claims, track_claim, track_claims, string_claim, string_claims, footer_claims, claims, shared};
ghost use Rattle.scp_sharing.specs.Walk.{Spans, Inside, HeadersInside};
ghost use Rattle.scp_sharing.specs.RewriteFault.{bad_words, rewrite_fault};

use refusals::{Reason, Refusal};
use scp_fields::Edition;
use scp_tracks::{FileOffset, HeaderOffset};

// An extent of the file (W-4).
#[derive(Clone, Copy, Debug, PartialEq, Eq)]
pub struct Extent {
    pub start: usize,
    pub size: usize,
}

// What a rewrite stands on: the bytes of duration and count, and the flux (W-2).
#[derive(Clone, Copy, Debug, PartialEq, Eq)]
pub struct Stand {
    pub numbers: Extent,
    pub flux: Extent,
}

// Two offsets: no byte that a rewrite stands on lies before `from`, and none at or behind `to`. `to` is the largest number where an end would
// be more, and then says nothing.
#[derive(Clone, Copy)]
struct Span {
    from: usize,
    to: usize,
}

// A track, by its number and its entry of the table: where its header starts, or 0.
#[derive(Clone, Copy)]
struct Track {
    number: u32,
    entry: u32,
}

// A search for a claim that is hit: the image and its edition, what the rewrite stands on, and the revolution that it is of.
#[derive(Clone, Copy)]
struct Search<'a> {
    image: &'a [u8],
    edition: Edition,
    stand: Stand,
    span: Span,
    track: u32,
    revolution: u32,
    ghost spans: { Spans stand span.from span.to },
    ghost below: { revolution < revolutions image.now },
    ghost headers: { HeadersInside edition image.now },
}

// The bytes of duration and count.
const NUMBERS_SIZE: usize = 8;

// ---- extents

impl Extent {
    // The bytes from one offset up to another.
    fn between(from: usize, to: usize) -> Extent
        requires { from ≤ to }
        ensures { result ≡ between from to }
    {
        Extent {
            start: from,
            size: to - from,
        }
    }

    // Where an extent ends, or the largest number where that is more.
    fn end(self) -> usize
        ensures { result ≡ min (self.start + self.size) 18_446_744_073_709_551_615 }
    {
        self.start.saturating_add(self.size)
    }

    // Whether two extents have a byte in common: the later one starts in the other, and is not empty. No sum is made that could wrap.
    #[tactic(auto, using(crate::proofs::Meeting::meets_later, crate::proofs::Meeting::meets_earlier))]
    fn meets(self, other: Extent) -> bool
        ensures { result ≡ meets self other }
    {
        if self.start < other.start {
            return (other.start - self.start < self.size) & (0 < other.size);
        }
        (self.start - other.start < other.size) & (0 < self.size)
    }
}

impl Stand {
    // Whether an extent has a byte that the rewrite stands on.
    #[tactic(auto, unfolding(crate::specs::Claims::hit))]
    fn hits(self, x: Extent) -> bool
        ensures { result ≡ hit self x }
    {
        self.numbers.meets(x) || self.flux.meets(x)
    }

    // From the lesser start of the two extents, empty or not, up to the greater end.
    fn span(self) -> Span
        ensures { Spans self result.from result.to }
    {
        Span {
            from: self.numbers.start.min(self.flux.start),
            to: self.numbers.end().max(self.flux.end()),
        }
    }
}

// ---- track headers and flux

// Where the record of revolution k of the track header at e stands.
fn record_at(e: u32, k: u32) -> usize
    ensures { (result ≡ revolution_at e k) × (result < 68_719_476_736) }
{
    e as usize + scp_tracks::record_offset(k)
}

// The 32-bit number at an offset, where its four bytes are all there. `octets::le32`, which tests that they are, made the walk twice as slow.
fn inner32(image: &[u8], at: usize) -> u32
    requires { at + 4 ≤ length image.now }
    ensures { result ≡ le32_at image.now at }
{
    u32::from_le_bytes([image[at], image[at + 1], image[at + 2], image[at + 3]])
}

// The flux of revolution j of the track header at e.
fn flux_extent(image: &[u8], e: u32, j: u32) -> Extent
    requires { revolution_at e j + 12 ≤ length image.now }
    ensures { (result ≡ flux_extent image.now e j) × (result.start + result.size < 68_719_476_736) }
{
    let at = record_at(e, j);
    let words = inner32(image, at + 4);
    let distance = inner32(image, at + 8);
    let offset = scp_tracks::file_offset(FileOffset(u64::from(e)), HeaderOffset(distance));
    Extent {
        start: offset.0 as usize,
        size: 2 * (words as usize),
    }
}

// What a rewrite of revolution k of the track header at e stands on.
fn stand_of(image: &[u8], e: u32, k: u32) -> Stand
    requires { revolution_at e k + 12 ≤ length image.now }
    ensures { result ≡ stand_at image.now e k }
{
    let numbers = Extent {
        start: record_at(e, k),
        size: NUMBERS_SIZE,
    };
    let flux = flux_extent(image, e, k);
    Stand { numbers, flux }
}

// ---- the walk over the claims (W-3): whether one is hit

impl Search<'_> {
    // The header of a track: the rewrite's own but for the 8 bytes, another's whole.
    fn header_hit(&self, t: Track) -> bool
        ensures { result ≡ any_of (hit self.now.stand) (header_claims self.now.image.now self.now.track self.now.revolution t.number t.entry) }
    {
        let start = t.entry as usize;
        let size = scp_tracks::header_size(self.image);
        if t.number == self.track {
            let at = record_at(t.entry, self.revolution);
            let before = Extent::between(start, at);
            let behind = Extent::between(at + NUMBERS_SIZE, start + size);
            return self.stand.hits(before) || self.stand.hits(behind);
        }
        self.stand.hits(Extent { start, size })
    }

    // The flux of revolution j of a track; never the rewrite's own. Most flux lies behind or before all that the rewrite stands on, and is not
    // looked at further.
    fn flux_hit(&self, t: Track, j: u32) -> bool
        requires { revolution_at t.entry j + 12 ≤ length self.now.image.now }
        ensures { result ≡ any_of (hit self.now.stand) (flux_claim self.now.image.now self.now.track self.now.revolution t.number t.entry j) }
    {
        let x = flux_extent(self.image, t.entry, j);
        if self.span.to <= x.start {
            return false;
        }
        if x.end() <= self.span.from {
            return false;
        }
        if (t.number == self.track) & (j == self.revolution) {
            return false;
        }
        self.stand.hits(x)
    }

    // The flux of the revolutions of a track.
    fn fluxes_hit(&self, t: Track) -> bool
        requires { Inside self.now.image.now t.entry }
        ensures { result ≡ any_of (hit self.now.stand) (flux_claims self.now.image.now self.now.track self.now.revolution t.number t.entry) }
    {
        let n = scp_fields::revolutions(self.image) as u32;
        for j in 0..n {
            if self.flux_hit(t, j) {
                return true;
            }
        }
        false
    }

    // A track, where its entry is not 0.
    #[tactic(auto, using(crate::proofs::ClaimLaws::track_none, crate::proofs::ClaimLaws::track_parts))]
    fn track_hit(&self, t: Track) -> bool
        requires { t.entry ≢ 0 → Inside self.now.image.now t.entry }
        ensures { result ≡ any_of (hit self.now.stand) (track_claim self.now.image.now self.now.track self.now.revolution t.number t.entry) }
    {
        if t.entry == 0 {
            return false;
        }
        self.header_hit(t) || self.fluxes_hit(t)
    }

    // The tracks of the table.
    fn tracks_hit(&self) -> bool
        ensures { result ≡ any_of (hit self.now.stand) (track_claims self.now.edition self.now.image.now self.now.track self.now.revolution) }
    {
        let n = scp_fields::slots(self.edition) as u32;
        for u in 0..n {
            let entry = scp_fields::track_entry(self.image, u);
            if self.track_hit(Track { number: u, entry }) {
                return true;
            }
        }
        false
    }

    // The string at offset o, with its length and its zero byte.
    fn string_hit(&self, o: u32) -> bool
        ensures { result ≡ any_of (hit self.now.stand) (string_claim self.now.image.now o) }
    {
        if o == 0 {
            return false;
        }
        let start = o as usize;
        let size = 3 + usize::from(octets::le16(self.image, start));
        self.stand.hits(Extent { start, size })
    }

    // The strings of the footer.
    fn strings_hit(&self) -> bool
        ensures { result ≡ any_of (hit self.now.stand) (string_claims self.now.image.now) }
    {
        for j in 0..scp_fields::STRING_SLOTS {
            let o = scp_fields::string_entry(self.image, j);
            if self.string_hit(o) {
                return true;
            }
        }
        false
    }

    // The footer and its strings.
    fn footer_hit(&self) -> bool
        ensures { result ≡ any_of (hit self.now.stand) (footer_claims self.now.edition self.now.image.now) }
    {
        if scp_fields::has_footer(self.image, self.edition) {
            let footer = Extent {
                start: scp_fields::footer_at(self.image),
                size: scp_fields::FOOTER_SIZE,
            };
            return self.stand.hits(footer) || self.strings_hit();
        }
        false
    }

    // All claims.
    fn claims_hit(&self) -> bool
        ensures { result ≡ any_of (hit self.now.stand) (claims self.now.edition self.now.image.now self.now.track self.now.revolution) }
    {
        let front = Extent {
            start: 0,
            size: scp_fields::table_end(self.edition),
        };
        self.stand.hits(front) || (self.tracks_hit() || self.footer_hit())
    }

    // Whether a byte that the rewrite stands on is claimed twice (W-5).
    fn is_shared(&self) -> bool
        ensures { result ≡ shared self.now.edition self.now.image.now self.now.stand self.now.track self.now.revolution }
    {
        let stand = self.stand;
        stand.numbers.meets(stand.flux) || self.claims_hit()
    }
}

// ---- what refuses a rewrite

// Whether n bytes of new flux are no words, or more than the revolution's.
fn bad_words(words: u32, n: usize) -> bool
    ensures { result ≡ bad_words words n }
{
    flux::bad_flux_size(n) || (2 * (words as usize) < n)
}

// What refuses the rewrite: the first of refusals 1 to 11, 19, 13, 14, 17 and 18 (W-7).
pub fn rewrite_fault(
    image: &[u8],
    edition: Edition,
    track: u32,
    revolution: u32,
    words: &[u8],
) -> Result<(), Refusal>
    ensures { fault_of result ≡ rewrite_fault edition image.now track revolution words.now }
{
    let data = scp_lookup::find_revolution(image, edition, track, revolution)?;
    if bad_words(data.words, words.len()) {
        return Err(Reason::Words.at(0));
    }
    let stand = stand_of(image, scp_fields::track_entry(image, track), revolution);
    let span = stand.span();
    let search = Search {
        image,
        edition,
        stand,
        span,
        track,
        revolution,
    };
    if search.is_shared() {
        return Err(Reason::Shared.at(0));
    }
    Ok(())
}
