// The values of what a SuperCard Pro image answers, as numbers of 64 bits.
#![tactic(auto)]

ghost use Rattle.std.specs.Prelude.{◌≡◌};
ghost use Rattle.scp.specs.Answers.{header_numbers};
ghost use Rattle.scp_values.specs.Values.{footer_numbers, track_numbers, revolution_numbers};

use scp::FooterData;
use scp_lookup::TrackData;
use scp_open::Header;
use scp_tracks::RevolutionData;

// The numbers of a header: version, disk type, revolutions, start, end, flags, width, heads, checksum.
pub fn header_numbers(h: Header) -> [u64; 9]
    ensures { result ≡ header_numbers h }
{
    [
        h.version as u64,
        h.disk as u64,
        h.revolutions as u64,
        h.start as u64,
        h.end as u64,
        h.flags as u64,
        h.width as u64,
        h.heads as u64,
        h.checksum as u64,
    ]
}

// The numbers of a footer: 1, six offsets, two times, four version bytes.
pub fn footer_numbers(f: FooterData) -> [u64; 13]
    ensures { result ≡ footer_numbers f }
{
    let created = octets::unsigned(f.created);
    let modified = octets::unsigned(f.modified);
    [
        1,
        f.maker as u64,
        f.model as u64,
        f.serial as u64,
        f.creator as u64,
        f.application as u64,
        f.comments as u64,
        created,
        modified,
        f.software as u64,
        f.hardware as u64,
        f.firmware as u64,
        f.format as u64,
    ]
}

// The numbers of a track: cylinder, head, file offset of its header, revolutions.
pub fn track_numbers(d: TrackData) -> [u64; 4]
    ensures { result ≡ track_numbers d }
{
    [
        d.cylinder as u64,
        d.head as u64,
        d.offset.0,
        d.revolutions as u64,
    ]
}

// The numbers of a revolution: duration, words, file offset of its flux.
pub fn revolution_numbers(d: RevolutionData) -> [u64; 3]
    ensures { result ≡ revolution_numbers d }
{
    [d.duration as u64, d.words as u64, d.offset.0]
}
