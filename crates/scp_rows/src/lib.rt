// The row of 16 numbers that each question about a SuperCard Pro image answers: refusal number, position, the values, then zeros.
#![tactic(auto)]

ghost use Rattle.std.specs.Prelude.{◌≡◌, replicate};
ghost use Rattle.refusals.specs.Refusals.{number_of};
ghost use Rattle.scp.specs.Answers.{refused, none, bytes, validate_answer, header_answer, footer_answer, track_answer, revolution_answer, flux_answer, of_speed_only, speed_answer, of_speed_range, track_speed_answer};
ghost use Rattle.scp_book.specs.Book.{asked};
ghost use Rattle.copies.specs.Copying.{copied_at};
ghost use Rattle.scp_rows.specs.Rows.{question_of, kind_of, row_of, Real};

use refusals::Refusal;
use scp_fields::Edition;
use scp_speed::TrackSpeeds;

// The kinds of questions (S-14).
#[derive(Clone, Copy, Debug, PartialEq, Eq)]
pub enum Kind {
    Validate,
    Header,
    Footer,
    Track,
    Revolution,
    Flux,
    Speed,
    TrackSpeed,
}

// The kind that a number names; any other is a validation.
impl From<u64> for Kind {
    ghost from_gives = { λ number kind. kind ≡ kind_of number };

    #[tactic(auto, unfolding(crate::specs::Rows::kind_of))]
    fn from(number: u64) -> Kind {
        match number {
            1 => Kind::Header,
            2 => Kind::Footer,
            3 => Kind::Track,
            4 => Kind::Revolution,
            5 => Kind::Flux,
            6 => Kind::Speed,
            7 => Kind::TrackSpeed,
            _ => Kind::Validate,
        }
    }
}

// The row of an answer with values: behind number 0 and position 0.
fn values_row(values: &[u64]) -> [u64; 16]
    ensures { result ≡ copied_at (replicate 16 0) 2 values.now }
{
    let mut row = [0; 16];
    copies::copy(&mut row, 2, values);
    row
}

// The row of an answer without values: all zeros.
pub fn plain_row() -> [u64; 16]
    ensures { result ≡ row_of none }
{
    [0; 16]
}

// The row of a number and a position, whether or not the number is in the table of refusals.
pub fn number_row(number: u32, position: u64) -> [u64; 16]
    ensures { result ≡ row_of (refused number position) }
{
    let mut row = [0; 16];
    row[0] = u64::from(number);
    row[1] = position;
    row
}

// The row of a refusal.
pub fn refused_row(refusal: Refusal) -> [u64; 16]
    ensures { result ≡ row_of (refused (number_of refusal.reason) refusal.position) }
{
    number_row(refusal.reason.number(), refusal.position)
}

// The row of validating.
fn validate_row(image: &[u8], edition: Edition) -> [u64; 16]
    ensures { result ≡ row_of (validate_answer edition image.now) }
{
    let found = scp::validate(image, edition);
    match found {
        Ok(()) => plain_row(),
        Err(r) => refused_row(r),
    }
}

// The row of the header.
fn header_row(image: &[u8], edition: Edition) -> [u64; 16]
    ensures { result ≡ row_of (header_answer edition image.now) }
{
    let found = scp::header(image, edition);
    match found {
        Ok(h) => values_row(&scp_values::header_numbers(h)),
        Err(r) => refused_row(r),
    }
}

// The row of the footer.
fn footer_row(image: &[u8], edition: Edition) -> [u64; 16]
    ensures { result ≡ row_of (footer_answer edition image.now) }
{
    let found = scp::footer(image, edition);
    match found {
        Ok(Some(f)) => values_row(&scp_values::footer_numbers(f)),
        Ok(None) => plain_row(),
        Err(r) => refused_row(r),
    }
}

// The row of a track.
fn track_row(image: &[u8], edition: Edition, track: u32) -> [u64; 16]
    ensures { result ≡ row_of (track_answer edition image.now track) }
{
    let found = scp::track(image, edition, track);
    match found {
        Ok(d) => values_row(&scp_values::track_numbers(d)),
        Err(r) => refused_row(r),
    }
}

// The row of a revolution.
fn revolution_row(image: &[u8], edition: Edition, track: u32, revolution: u32) -> [u64; 16]
    ensures { result ≡ row_of (revolution_answer edition image.now track revolution) }
{
    let found = scp::revolution(image, edition, track, revolution);
    match found {
        Ok(d) => values_row(&scp_values::revolution_numbers(d)),
        Err(r) => refused_row(r),
    }
}

// The row of a part of the image: where it starts, how many bytes, and their sum.
fn bytes_row(start: u64, part: &[u8]) -> [u64; 16]
    ensures { result ≡ row_of (bytes start part.now) }
{
    let sum = octets::byte_sum(part);
    values_row(&[start, part.len() as u64, sum as u64])
}

// The row of a revolution's flux.
fn flux_row(image: &[u8], edition: Edition, track: u32, revolution: u32) -> [u64; 16]
    ensures { result ≡ row_of (flux_answer edition image.now track revolution) }
{
    let answer = scp::revolution(image, edition, track, revolution);
    match answer {
        Ok(d) => {
            let offset = d.offset;
            bytes_row(offset.0, scp_lookup::flux_of(image, d))
        }
        Err(r) => refused_row(r),
    }
}

// The row of one speed, or of none.
fn rpm_row(s: Option<f64>) -> [u64; 16]
    requires { Real (of_speed_only s) }
    ensures { result ≡ row_of (of_speed_only s) }
{
    match s {
        Some(x) => values_row(&[1, f64::to_bits(x)]),
        None => plain_row(),
    }
}

// The row of a revolution's speed.
fn speed_row(image: &[u8], edition: Edition, track: u32, revolution: u32) -> [u64; 16]
    ensures { result ≡ row_of (speed_answer edition image.now track revolution) }
{
    let found = scp::speed(image, edition, track, revolution);
    match found {
        Ok(s) => rpm_row(s),
        Err(r) => refused_row(r),
    }
}

// The row of a track's speeds, or of none.
fn speeds_row(speeds: Option<TrackSpeeds>) -> [u64; 16]
    requires { Real (of_speed_range speeds) }
    ensures { result ≡ row_of (of_speed_range speeds) }
{
    match speeds {
        Some(s) => values_row(&[1, f64::to_bits(s.slowest), f64::to_bits(s.fastest)]),
        None => plain_row(),
    }
}

// The row of the speeds of a track.
fn track_speed_row(image: &[u8], edition: Edition, track: u32) -> [u64; 16]
    ensures { result ≡ row_of (track_speed_answer edition image.now track) }
{
    let found = scp::track_speed(image, edition, track);
    match found {
        Ok(speeds) => speeds_row(speeds),
        Err(r) => refused_row(r),
    }
}

// The row of a question, by its kind and the edition that it names.
pub fn question_row(
    image: &[u8],
    edition: Edition,
    kind: u64,
    track: u32,
    revolution: u32,
) -> [u64; 16]
    ensures { result ≡ row_of (asked edition image.now (question_of kind track revolution)) }
{
    match Kind::from(kind) {
        Kind::Validate => validate_row(image, edition),
        Kind::Header => header_row(image, edition),
        Kind::Footer => footer_row(image, edition),
        Kind::Track => track_row(image, edition, track),
        Kind::Revolution => revolution_row(image, edition, track, revolution),
        Kind::Flux => flux_row(image, edition, track, revolution),
        Kind::Speed => speed_row(image, edition, track, revolution),
        Kind::TrackSpeed => track_speed_row(image, edition, track),
    }
}
