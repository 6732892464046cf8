// Opening a SuperCard Pro image by an edition: refusals 1 to 11 and 19, its header and its table of tracks.
// Opening looks at the header, the table, the footer with its strings, and the track data headers; it reads no flux.
#![tactic(auto)]

ghost use Rattle.std.specs.Prelude.{◌≡◌};
ghost use Rattle.refusals.specs.Refusals.{fault_of, found};
ghost use Rattle.scp_fields.specs.Header.{entries};
ghost use Rattle.scp_tracks.specs.Tracks.{tracks_fault_in};
ghost use Rattle.scp_open.specs.Opening.{footer_fault_if, fault_in, header_of, opened_of};

use refusals::Refusal;
use scp_fields::Edition;

// The header's fields (T-3).
#[derive(Clone, Copy, Debug, PartialEq, Eq)]
pub struct Header {
    pub version: u8,
    pub disk: u8,
    pub revolutions: u8,
    pub start: u8,
    pub end: u8,
    pub flags: u8,
    pub width: u8,
    pub heads: u8,
    pub checksum: u32,
}

// An opened image: its header and its table, with zeros behind the edition's entries.
#[derive(Clone, Copy)]
pub struct Opened {
    pub header: Header,
    pub table: [u32; 168],
}

// The entries of the table.
fn read_table(image: &[u8], edition: Edition) -> [u32; 168]
    ensures { result ≡ entries edition image.now }
{
    let n = scp_fields::slots(edition);
    let mut table = [0u32; 168];
    for t in 0..n {
        table[t] = scp_fields::track_entry(image, t as u32);
    }
    table
}

// What refuses the first faulty one of the tracks from `from` up to `to`, which is left out, as far as the edition's table goes.
fn tracks_fault(image: &[u8], edition: Edition, from: usize, to: usize) -> Result<(), Refusal>
    ensures { fault_of result ≡ tracks_fault_in edition image.now from to }
{
    let end = to.min(scp_fields::slots(edition));
    for t in from..end {
        let entry = scp_fields::track_entry(image, t as u32);
        scp_tracks::track_fault(image, edition, entry, t as u32)?;
    }
    Ok(())
}

// What refuses the footer, where it is to be tested.
fn footer_fault(image: &[u8], edition: Edition, footer: bool) -> Result<(), Refusal>
    ensures { fault_of result ≡ footer_fault_if edition image.now footer }
{
    if footer {
        return scp_footer::footer_fault(image, edition);
    }
    Ok(())
}

// What refuses the header, the footer where it is to be tested, and the tracks from `from` up to `to`, which is left out: the first of 1 to 11 and
// 19. Opening tests all of it, a direct call the header and one track.
#[tactic(auto, using(refusals::proofs::Passing::stopped, refusals::proofs::Passing::passed))]
pub fn first_fault(
    image: &[u8],
    edition: Edition,
    footer: bool,
    from: usize,
    to: usize,
) -> Result<(), Refusal>
    ensures { fault_of result ≡ fault_in edition image.now footer from to }
{
    scp_header::header_fault(image, edition)?;
    footer_fault(image, edition, footer)?;
    tracks_fault(image, edition, from, to)
}

// The header's fields.
#[tactic(auto, unfolding(crate::specs::Opening::header_of))]
fn read_header(image: &[u8]) -> Header
    ensures { result ≡ header_of image.now }
{
    Header {
        version: octets::byte(image, scp_fields::VERSION_AT),
        disk: octets::byte(image, scp_fields::DISK_AT),
        revolutions: octets::byte(image, scp_fields::REVOLUTIONS_AT),
        start: octets::byte(image, scp_fields::START_AT),
        end: octets::byte(image, scp_fields::END_AT),
        flags: scp_fields::flags(image),
        width: scp_fields::width(image),
        heads: scp_fields::heads(image),
        checksum: scp_fields::checksum(image),
    }
}

// Opens an image by an edition: refusals 1 to 11 and 19, its header and its table.
pub fn open(image: &[u8], edition: Edition) -> Result<Opened, Refusal>
    ensures { found result ≡ opened_of edition image.now }
{
    first_fault(image, edition, true, 0, scp_fields::slots(edition))?;
    Ok(Opened {
        header: read_header(image),
        table: read_table(image, edition),
    })
}
