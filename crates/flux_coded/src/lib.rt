// The calls on flux, answered by a code and by values put to the start of a lent buffer (include/scp.h).
#![tactic(auto)]

ghost use Rattle.std.specs.Prelude.{◌≡◌, length, Ok};
ghost use Rattle.flux.specs.Answers.{of_step, step_at, of_filled, reading, closed_times, closed_numbers, of_written, writing, buffer_after};
ghost use Rattle.flux_summary.specs.Summaries.{of_summarized, summarizing};
ghost use Rattle.boundary.specs.Boundary.{gives, code_of, within, out_after};
ghost use Rattle.scp_boundary.specs.Boundary.{step_numbers, given_of, both, values_of};

use flux::{Cursor, Filled, Step};
use flux_summary::Summary;

// A step as interval (0: none), open ticks, next word, closing word (0 where there is no interval).
fn step_row(step: Step) -> [u64; 4]
    ensures { gives result ≡ step_numbers (of_step (Ok step)) }
{
    match step {
        Step::Interval {
            ticks,
            open,
            closing,
            next,
        } => [ticks, open, next.word as u64, closing as u64],
        Step::Open { open, next } => [0, open, next.word as u64, 0],
    }
}

// Filled places as their count and the open ticks.
fn filled_row(found: Filled) -> [u64; 2]
    ensures { gives result ≡ given_of (of_filled (Ok found)) }
{
    [found.filled as u64, found.open]
}

// Filled bytes as their number.
fn written_row(bytes: usize) -> [u64; 1]
    ensures { gives result ≡ given_of (of_written (Ok bytes)) }
{
    [bytes as u64]
}

// Summed flux as how many intervals it has, open ticks, and ticks of all words.
fn summary_row(found: Summary) -> [u64; 3]
    ensures { gives result ≡ given_of (of_summarized (Ok found)) }
{
    [found.intervals, found.open, found.total]
}

// A step of the cursor: interval (0: none), open ticks, next word, closing word (0 where there is no interval).
pub fn step(flux: &[u8], word: u64, out: &mut [u64]) -> u64
    ensures value { result ≡ code_of (within (length out.old) (step_numbers (step_at flux.now word))) }
    ensures out_after { out.new ≡ out_after out.old (within (length out.old) (step_numbers (step_at flux.now word))) }
{
    let cursor = Cursor {
        word: word as usize,
    };
    boundary::answer(out, cursor.step(flux).map(step_row))
}

// All intervals at one go: the intervals to `times`; count, open ticks to `out`.
pub fn intervals(flux: &[u8], times: &mut [u64], out: &mut [u64]) -> u64
    ensures value { result ≡ code_of (values_of (both (length out.old) (reading flux.now (length times.old)))) }
    ensures times_after { times.new ≡ buffer_after times.old (both (length out.old) (reading flux.now (length times.old))) }
    ensures out_after { out.new ≡ out_after out.old (values_of (both (length out.old) (reading flux.now (length times.old)))) }
{
    let places = boundary::lent(times.len(), out.len(), 2);
    let found = flux::intervals(flux, &mut times[..places]);
    boundary::answer(out, found.map(filled_row))
}

// All intervals at one go, with their closing words: the intervals to `times`, the numbers of these words to `closings`; count, open ticks to
// `out`.
pub fn closed_intervals(
    flux: &[u8],
    times: &mut [u64],
    closings: &mut [u64],
    out: &mut [u64],
) -> u64
    ensures value { result ≡ code_of (values_of (both (length out.old) (closed_times flux.now times.old closings.old))) }
    ensures times_after { times.new ≡ buffer_after times.old (both (length out.old) (closed_times flux.now times.old closings.old)) }
    ensures closings_after { closings.new ≡ buffer_after closings.old (both (length out.old) (closed_numbers flux.now times.old closings.old)) }
    ensures out_after { out.new ≡ out_after out.old (values_of (both (length out.old) (closed_times flux.now times.old closings.old))) }
{
    let room = boundary::lent(times.len(), out.len(), 2);
    let found = flux::closed_intervals(flux, &mut times[..room], closings);
    boundary::answer(out, found.map(filled_row))
}

// The numbers of the flux: how many intervals, open ticks, ticks of all words.
pub fn summary(flux: &[u8], out: &mut [u64]) -> u64
    ensures value { result ≡ code_of (within (length out.old) (given_of (summarizing flux.now))) }
    ensures out_after { out.new ≡ out_after out.old (within (length out.old) (given_of (summarizing flux.now))) }
{
    boundary::answer(out, flux_summary::summarize(flux).map(summary_row))
}

// Words from times: the bytes to `words`; their number to `out`.
pub fn words(times: &[u64], words: &mut [u8], out: &mut [u64]) -> u64
    ensures value { result ≡ code_of (values_of (both (length out.old) (writing times.now (length words.old)))) }
    ensures words_after { words.new ≡ buffer_after words.old (both (length out.old) (writing times.now (length words.old))) }
    ensures out_after { out.new ≡ out_after out.old (values_of (both (length out.old) (writing times.now (length words.old)))) }
{
    let places = boundary::lent(words.len(), out.len(), 1);
    let found = flux::words(times, &mut words[..places]);
    boundary::answer(out, found.map(written_row))
}
