// The listing of an image by edition 1.6, written to standard output. The image is opened once, when it is validated: what is valid is then
// read by its fields, each by its one reading in `scp_fields`, `scp_tracks` and `flux`.
#![tactic(auto)]

ghost use Rattle.std.specs.Prelude.{◌≡◌, false, length};
ghost use Rattle.flux.specs.Coding.{bad_flux_size};
ghost use Rattle.scp_listing.specs.Counting.{Counts};
ghost use Rattle.scp_fields.specs.declared.Edition.TheVariants.{V1_6};
ghost use Rattle.scp.specs.Answers.{of_validated, validate_answer};
ghost use Rattle.refusals.specs.Refusals.{found, in_table, refusal};

use flux::{Cursor, Step};
use refusals::{Reason, Refusal};
use scp_fields::Edition;
use scp_tracks::RevolutionData;

// The most bytes that the listing program takes.
pub const INPUT_LIMIT: usize = 65_536;

// How many tracks the table has. There is no `From` from usize to u32: the cast is proved to lose nothing.
const TRACKS: u32 = scp_fields::TRACK_SLOTS as u32;

// How many intervals flux has, its open time, and the number of its last closing word. Where there is no interval, that is 0, as the definition
// `Counts` has it.
#[derive(Clone, Copy)]
struct Counted {
    intervals: u64,
    open: u64,
    last: usize,
}

// The count of the intervals, the open time and the last closing word, in one pass: a step for each interval, of which there are fewer than
// bytes, and one more for the open time.
fn count_flux(flux: &[u8]) -> Counted
    ensures { bad_flux_size (length flux.now) ≡ false → Counts flux.now result.intervals result.«open» result.last }
{
    let mut cursor = Cursor { word: 0 };
    let mut intervals: u64 = 0;
    let mut last: usize = 0;
    for _ in 0..flux.len() {
        match cursor.step(flux) {
            Ok(Step::Interval { closing, next, .. }) => {
                last = closing;
                cursor = next;
                intervals += 1;
            }
            Ok(Step::Open { open, .. }) => {
                return Counted {
                    intervals,
                    open,
                    last,
                };
            }
            Err(_) => break,
        }
    }
    Counted {
        intervals,
        open: 0,
        last,
    }
}

// The line of revolution k of track t, whose header stands at the entry. Here and below a write that fails is passed over: no answer depends on it.
fn print_revolution(rt: &impl Print, image: &[u8], t: u32, entry: u32, k: u32) {
    let data = scp_tracks::revolution_data(image, entry, k);
    let RevolutionData {
        duration,
        words,
        ..
    } = data;
    let Counted {
        intervals,
        open,
        last,
    } = count_flux(scp_lookup::flux_of(image, data));
    let _ = print!(rt;
        "track {t} turn {k} ticks {duration} words {words} intervals {intervals} open {open} last "
    );
    // the number of the last closing word, or a dash where there is none
    let _ = if intervals == 0 {
        println!(rt; "-")
    } else {
        println!(rt; "{last}")
    };
}

// The lines of the revolutions of all tracks that are present.
fn print_tracks(rt: &impl Print, image: &[u8]) {
    // at most 255
    let revolutions = scp_fields::revolutions(image) as u32;
    for t in 0..TRACKS {
        let entry = scp_fields::track_entry(image, t);
        if entry != 0 {
            for k in 0..revolutions {
                print_revolution(rt, image, t, entry, k);
            }
        }
    }
}

// The line of the image: its length, how many tracks are present, the revolutions of each, and the checksum.
fn print_image(rt: &impl Print, image: &[u8]) {
    let length = image.len();
    let tracks = (0..TRACKS)
        .filter(|t| scp_fields::track_entry(image, *t) != 0)
        .count();
    let revolutions = scp_fields::revolutions(image);
    let checksum = scp_fields::checksum(image);
    let _ = println!(rt; "ok {length} tracks {tracks} turns {revolutions} sum {checksum}");
}

// Validates an image and writes its listing: what refuses it, or a line for the image and one for each revolution of each present track.
pub fn list(rt: &impl Print, image: &[u8]) -> Result<(), Refusal>
    ensures { of_validated (found result) ≡ validate_answer V1_6 image.now }
{
    let answer = scp::validate(image, Edition::V1_6);
    match answer {
        Ok(()) => {
            print_image(rt, image);
            print_tracks(rt, image);
        }
        Err(refusal) => {
            let _ = println!(rt; "{refusal}");
        }
    }
    answer
}

// What is printed of input that is longer than the listing takes: refusal 1.
pub fn too_long(rt: &impl Print) -> Refusal
    ensures { in_table result ≡ refusal 1 0 }
{
    let refusal = Reason::Size.at(0);
    let _ = println!(rt; "{refusal}");
    refusal
}
