// A revolution of a SuperCard Pro image as it is handed out: the numbers of its record, and those of its flux, which is read for them once.
// What needs the record alone does not go by this crate.
#![tactic(auto)]

ghost use Rattle.std.specs.Prelude.{◌≡◌};
ghost use Rattle.refusals.specs.Refusals.{found};
ghost use Rattle.scp_revolution.specs.Described.{described_on};

use refusals::Refusal;
use scp_tracks::{FileOffset, RevolutionData};

// A revolution: its duration in ticks of 25 ns, its count of flux words, where its flux starts; and of its flux how many intervals, the open
// time and the ticks of all words.
#[derive(Clone, Copy, Debug, PartialEq, Eq)]
pub struct DescribedRevolution {
    pub duration: u32,
    pub words: u32,
    pub offset: FileOffset,
    pub intervals: u64,
    pub open: u64,
    pub total: u64,
}

// The revolution of a record that was found, with the numbers of its flux, or 17; what refused the record, as it is.
pub fn describe(
    image: &[u8],
    revolution: Result<RevolutionData, Refusal>,
) -> Result<DescribedRevolution, Refusal>
    ensures { found result ≡ described_on image.now (found revolution) }
{
    let d = revolution?;
    let offset = d.offset;
    let m = flux_summary::summarize(scp_lookup::flux_of(image, d))?;
    Ok(DescribedRevolution {
        duration: d.duration,
        words: d.words,
        offset,
        intervals: m.intervals,
        open: m.open,
        total: m.total,
    })
}
