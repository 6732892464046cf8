// Flux words and the intervals that they stand for (SCP 1.6, track data): a cursor that steps from interval to interval, all
// intervals at one go, with the words that close them or without, and the words of times.
#![tactic(auto)]

ghost use Rattle.std.specs.Prelude.{◌≡◌, ◌≤◌, length, take, drop, leb, [], ◌∷◌, ◌++◌, Result, Ok};
ghost use Rattle.flux.specs.Coding.{words_of, bytes_of, bad_flux_size, flux_limit};
ghost use Rattle.flux.specs.Reading.{intervals, open_time, closing_words, closing_numbers};
ghost use Rattle.flux.specs.Writing.{expressible, words_for};
ghost use Rattle.flux.specs.Answers.{gives, of_step, step_at, of_filled, reading, closing_reading, closed_times, closed_numbers, of_written, writing, answer_of, buffer_after};

use refusals::{Reason, Refusal};

// The ticks of a zero word, which closes no interval (F-2).
pub const ZERO_TICKS: u64 = 65_536;

// The most bytes of flux that are read (R-17).
const FLUX_LIMIT: usize = 268_435_456;

// The longest time that is written (F-13).
const TICK_LIMIT: u64 = 4_294_967_295;

// The cursor: the number of the word to read next (F-9, A-16).
#[derive(Clone, Copy, Debug, PartialEq, Eq)]
pub struct Cursor {
    pub word: usize,
}

// What a step finds (A-3).
#[derive(Clone, Copy, Debug, PartialEq, Eq)]
pub enum Step {
    // A word closes an interval; beside an interval the open time is 0, closing is the number of that word, and next is past it.
    Interval {
        ticks: u64,
        open: u64,
        closing: usize,
        next: Cursor,
    },
    // No closing word is left: the open time from the cursor on, and the cursor as it was.
    Open {
        open: u64,
        next: Cursor,
    },
}

// The intervals at one go: how many places are filled, and the open time (A-4).
#[derive(Clone, Copy, Debug, PartialEq, Eq)]
pub struct Filled {
    pub filled: usize,
    pub open: u64,
}

// Whether flux of n bytes is refused.
pub fn bad_flux_size(n: usize) -> bool
    ensures { result ≡ bad_flux_size n }
{
    (n % 2 == 1) || (FLUX_LIMIT < n)
}

impl Cursor {
    // The next interval of the flux bytes, or the open time where no closing word is left.
    pub fn step(self, flux: &[u8]) -> Result<Step, Refusal>
        ensures { of_step result ≡ step_at flux.now self.word }
    {
        if bad_flux_size(flux.len()) {
            return Err(Reason::Words.at(0));
        }
        let pairs = flux.as_chunks::<2>().0;
        let mut ticks: u64 = 0;
        for i in self.word..pairs.len() {
            let word = u16::from_be_bytes(pairs[i]);
            if word != 0 {
                return Ok(Step::Interval {
                    ticks: ticks + u64::from(word),
                    open: 0,
                    closing: i,
                    next: Cursor { word: i + 1 },
                });
            }
            ticks += ZERO_TICKS;
        }
        Ok(Step::Open {
            open: ticks,
            next: self,
        })
    }
}

// How many words are not zero. A filter with `count` in place of the loop tests and jumps at each word, which takes up to five times as long.
fn count_closing(flux: &[u8]) -> usize
    ensures { result ≡ closing_words (words_of flux.now) }
{
    let pairs = flux.as_chunks::<2>().0;
    let mut n: usize = 0;
    for pair in pairs {
        n += usize::from(u16::from_be_bytes(*pair) != 0);
    }
    n
}

// Whether so many places hold the intervals: they are counted only where there are fewer places than words.
fn enough_places(flux: &[u8], places: usize) -> bool
    ensures { result ≡ leb (length (intervals 0 (words_of flux.now))) places }
{
    flux.len() / 2 <= places || count_closing(flux) <= places
}

// Writes the intervals at the start of the times, which have places for them, and the numbers of their closing words at the start of the closings, as
// far as these reach.
fn fill(flux: &[u8], times: &mut [u64], closings: &mut [u64]) -> Filled
    requires flux_len_bound { length flux.now ≤ flux_limit }
    requires flux_in_bounds { length (intervals 0 (words_of flux.now)) ≤ length times.old }
    ensures result_value { of_filled (Ok result) ≡ gives (length (intervals 0 (words_of flux.now)) ∷ open_time 0 (words_of flux.now) ∷ []) }
    ensures times_after { times.new ≡ intervals 0 (words_of flux.now) ++ drop (length (intervals 0 (words_of flux.now))) times.old }
    ensures closings_after { closings.new ≡ take (length closings.old) (closing_numbers 0 (words_of flux.now) ++ drop (length (closing_numbers 0 (words_of flux.now))) closings.old) }
{
    let pairs = flux.as_chunks::<2>().0;
    let mut pending: u64 = 0;
    let mut n: usize = 0;
    for (i, pair) in pairs.iter().enumerate() {
        let word = u16::from_be_bytes(*pair);
        if word == 0 {
            pending += ZERO_TICKS;
        } else {
            times[n] = pending + u64::from(word);
            if n < closings.len() {
                closings[n] = i as u64;
            }
            n += 1;
            pending = 0;
        }
    }
    Filled {
        filled: n,
        open: pending,
    }
}

// The intervals into so many places of the times, and the numbers of their closing words into the closings, as far as these reach.
fn read_into(
    flux: &[u8],
    times: &mut [u64],
    closings: &mut [u64],
    places: usize,
) -> Result<Filled, Refusal>
    requires { places ≤ length times.old }
    ensures result_value { of_filled result ≡ answer_of (reading flux.now places) }
    ensures times_after { times.new ≡ buffer_after times.old (reading flux.now places) }
    ensures closings_after { closings.new ≡ take (length closings.old) (buffer_after closings.old (closing_reading flux.now places)) }
{
    if bad_flux_size(flux.len()) {
        Err(Reason::Words.at(0))
    } else if enough_places(flux, places) {
        Ok(fill(flux, times, closings))
    } else {
        Err(Reason::Places.at(0))
    }
}

// All intervals of the flux bytes at one go, at the start of the times.
pub fn intervals(flux: &[u8], times: &mut [u64]) -> Result<Filled, Refusal>
    ensures result_value { of_filled result ≡ answer_of (reading flux.now (length times.old)) }
    ensures times_after { times.new ≡ buffer_after times.old (reading flux.now (length times.old)) }
{
    let places = times.len();
    // No closing word is wanted, so that this list has no place.
    read_into(flux, times, &mut [], places)
}

// All intervals of the flux bytes at one go, at the start of the times, and the number of the word that closes each at the start of the closings.
pub fn closed_intervals(
    flux: &[u8],
    times: &mut [u64],
    closings: &mut [u64],
) -> Result<Filled, Refusal>
    ensures result_value { of_filled result ≡ answer_of (closed_times flux.now times.old closings.old) }
    ensures times_after { times.new ≡ buffer_after times.old (closed_times flux.now times.old closings.old) }
    ensures closings_after { closings.new ≡ buffer_after closings.old (closed_numbers flux.now times.old closings.old) }
{
    let places = times.len().min(closings.len());
    read_into(flux, times, closings, places)
}

// Whether words can express a time.
fn can_express(t: u64) -> bool
    ensures { result ≡ expressible t }
{
    (1 <= t) && (t <= TICK_LIMIT) && (t % ZERO_TICKS != 0)
}

// What making words of the times answers for a buffer of so many bytes. The count stops growing once it is too large.
fn measure(times: &[u64], room: usize) -> Result<usize, Refusal>
    ensures { of_written result ≡ answer_of (writing times.now room) }
{
    let most = room / 2;
    let mut words: usize = 0;
    for (i, &time) in times.iter().enumerate() {
        if !can_express(time) {
            return Err(Reason::Time.at(i as u64));
        }
        if words <= most {
            words += (time / ZERO_TICKS) as usize + 1;
        }
    }
    if most < words {
        return Err(Reason::Places.at(0));
    }
    Ok(2 * words)
}

// Writes the words of the times at the start of the flux bytes, which have room for them.
fn put_words(times: &[u64], flux: &mut [u8])
    requires { length (bytes_of (words_for times.now)) ≤ length flux.old }
    ensures { flux.new ≡ bytes_of (words_for times.now) ++ drop (length (bytes_of (words_for times.now))) flux.old }
{
    let mut at: usize = 0;
    for &time in times {
        let zeros = (time / ZERO_TICKS) as usize;
        let end = at + 2 * zeros;
        flux[at..end].fill(0);
        at = end + 2;
        let word = (time % ZERO_TICKS) as u16;
        flux[end..at].copy_from_slice(&word.to_be_bytes());
    }
}

// The words of the times, as bytes at the start of the flux.
pub fn words(times: &[u64], flux: &mut [u8]) -> Result<usize, Refusal>
    ensures result_value { of_written result ≡ answer_of (writing times.now (length flux.old)) }
    ensures flux_after { flux.new ≡ buffer_after flux.old (writing times.now (length flux.old)) }
{
    let bytes = measure(times, flux.len())?;
    put_words(times, flux);
    Ok(bytes)
}
