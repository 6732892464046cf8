// The numbers of flux words in one pass, without a list of intervals: how many intervals they are, the open time, and the ticks of all words.
#![tactic(auto)]

ghost use Rattle.std.specs.Prelude.{◌≡◌};
ghost use Rattle.flux_summary.specs.Summaries.{of_summarized, summarizing};

use flux::ZERO_TICKS;
use refusals::{Reason, Refusal};

// How many intervals flux has, its open time, and the ticks of all its words.
#[derive(Clone, Copy, Debug, PartialEq, Eq)]
pub struct Summary {
    pub intervals: u64,
    pub open: u64,
    pub total: u64,
}

// The numbers of the flux bytes, in one pass over their words: those behind the last closing word from the end, then the others.
pub fn summarize(flux: &[u8]) -> Result<Summary, Refusal>
    ensures { of_summarized result ≡ summarizing flux.now }
{
    if flux::bad_flux_size(flux.len()) {
        return Err(Reason::Words.at(0));
    }
    let pairs = flux.as_chunks::<2>().0;
    let mut closed = pairs.len();
    while closed > 0 && u16::from_be_bytes(pairs[closed - 1]) == 0 {
        closed -= 1;
    }
    let mut intervals: u64 = 0;
    let mut ticks: u64 = 0;
    for pair in &pairs[..closed] {
        let word = u16::from_be_bytes(*pair);
        intervals += u64::from(word != 0);
        ticks += u64::from(word);
    }
    let words = pairs.len() as u64;
    Ok(Summary {
        intervals,
        open: ZERO_TICKS * (words - closed as u64),
        total: ticks + ZERO_TICKS * (words - intervals),
    })
}
