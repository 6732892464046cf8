// The boundary to C and Rust: each call returns 0, or a refusal's number + 256 x its position, and puts its values to a lent buffer.
// A slice passes as a pointer and a length (include/scp.h), and an edition as a number: 14 is 1.4, any other 1.6. What a call on flux, on
// text, a question or a direct call does stands in `flux_coded`, `utf8_coded`, `scp_coded` and `direct_coded`.
#![tactic(auto)]

ghost use Rattle.std.specs.Prelude.{◌≡◌, length};
ghost use Rattle.scp_fields.specs.Editions.{edition_of};
ghost use Rattle.flux.specs.Answers.{step_at, reading, closed_times, closed_numbers, writing, buffer_after};
ghost use Rattle.flux_summary.specs.Summaries.{summarizing};
ghost use Rattle.scp.specs.Answers.{Answer, validate_answer, header_answer, footer_answer, track_answer, revolution_answer, flux_answer, speed_answer, track_speed_answer};
ghost use Rattle.scp_direct.specs.Direct.{direct_track, direct_revolution, direct_flux};
ghost use Rattle.scp_rewrite.specs.Answering.{rewrite_answer};
ghost use Rattle.scp_rewrite.specs.Rewriting.{after_rewrite};
ghost use Rattle.sequence.specs.Replaying.{replay_answer, Replays};
ghost use Rattle.boundary.specs.Boundary.{code_of, within, out_after};
ghost use Rattle.scp_boundary.specs.Boundary.{numbers_of, part_numbers, floats_of, step_numbers, given_of, both, values_of};
ghost use Rattle.utf8_coded.specs.Boundary.{text_numbers};

use scp_fields::Edition;

// ---- an image

// Validates the image: refusals 1 to 12 and 19.
#[unsafe(no_mangle)]
pub extern "C" fn scp_validate(image: &[u8], edition: u32) -> u64
    ensures { result ≡ code_of (numbers_of (validate_answer (edition_of edition) image.now)) }
{
    scp_coded::validate(image, edition)
}

// The header: version, disk type, revolutions, start, end, flags, width, heads, checksum.
#[unsafe(no_mangle)]
pub extern "C" fn scp_header(image: &[u8], edition: u32, out: &mut [u64]) -> u64
    ensures value { result ≡ code_of (within (length out.old) (numbers_of (header_answer (edition_of edition) image.now))) }
    ensures out_after { out.new ≡ out_after out.old (within (length out.old) (numbers_of (header_answer (edition_of edition) image.now))) }
{
    scp_coded::header(image, edition, out)
}

// The footer: 1, six offsets, two times, four version bytes; 13 zeros where there is none.
#[unsafe(no_mangle)]
pub extern "C" fn scp_footer(image: &[u8], edition: u32, out: &mut [u64]) -> u64
    ensures value { result ≡ code_of (within (length out.old) (numbers_of (footer_answer (edition_of edition) image.now))) }
    ensures out_after { out.new ≡ out_after out.old (within (length out.old) (numbers_of (footer_answer (edition_of edition) image.now))) }
{
    scp_coded::footer(image, edition, out)
}

// A track: cylinder, head, file offset of its header, revolutions.
#[unsafe(no_mangle)]
pub extern "C" fn scp_track(image: &[u8], edition: u32, track: u32, out: &mut [u64]) -> u64
    ensures value { result ≡ code_of (within (length out.old) (numbers_of (track_answer (edition_of edition) image.now track))) }
    ensures out_after { out.new ≡ out_after out.old (within (length out.old) (numbers_of (track_answer (edition_of edition) image.now track))) }
{
    scp_coded::track(image, edition, track, out)
}

// A revolution: duration, words, file offset of its flux.
#[unsafe(no_mangle)]
pub extern "C" fn scp_revolution(
    image: &[u8],
    edition: u32,
    track: u32,
    revolution: u32,
    out: &mut [u64],
) -> u64
    ensures value { result ≡ code_of (within (length out.old) (numbers_of (revolution_answer (edition_of edition) image.now track revolution))) }
    ensures out_after { out.new ≡ out_after out.old (within (length out.old) (numbers_of (revolution_answer (edition_of edition) image.now track revolution))) }
{
    scp_coded::revolution(image, edition, track, revolution, out)
}

// The flux of a revolution.
#[unsafe(no_mangle)]
pub extern "C" fn scp_flux(
    image: &[u8],
    edition: u32,
    track: u32,
    revolution: u32,
    out: &mut [u8],
) -> u64
    ensures value { result ≡ code_of (within (length out.old) (numbers_of (flux_answer (edition_of edition) image.now track revolution))) }
    ensures out_after { out.new ≡ out_after out.old (within (length out.old) (numbers_of (flux_answer (edition_of edition) image.now track revolution))) }
{
    scp_coded::flux(image, edition, track, revolution, out)
}

// Where the flux of a revolution stands: its file offset, and how many bytes it has.
#[unsafe(no_mangle)]
pub extern "C" fn scp_flux_part(
    image: &[u8],
    edition: u32,
    track: u32,
    revolution: u32,
    out: &mut [u64],
) -> u64
    ensures value { result ≡ code_of (within (length out.old) (part_numbers (flux_answer (edition_of edition) image.now track revolution))) }
    ensures out_after { out.new ≡ out_after out.old (within (length out.old) (part_numbers (flux_answer (edition_of edition) image.now track revolution))) }
{
    scp_coded::flux_part(image, edition, track, revolution, out)
}

// ---- an image, directly: without the walk over all of it. Refusals 1 to 6, 13, 9 to 11 of this track, 14, 15

// A track: cylinder, head, file offset of its header, revolutions.
#[unsafe(no_mangle)]
pub extern "C" fn scp_direct_track(image: &[u8], edition: u32, track: u32, out: &mut [u64]) -> u64
    ensures value { result ≡ code_of (within (length out.old) (numbers_of (direct_track (edition_of edition) image.now track))) }
    ensures out_after { out.new ≡ out_after out.old (within (length out.old) (numbers_of (direct_track (edition_of edition) image.now track))) }
{
    direct_coded::track(image, edition, track, out)
}

// A revolution: duration, words, file offset of its flux.
#[unsafe(no_mangle)]
pub extern "C" fn scp_direct_revolution(
    image: &[u8],
    edition: u32,
    track: u32,
    revolution: u32,
    out: &mut [u64],
) -> u64
    ensures value { result ≡ code_of (within (length out.old) (numbers_of (direct_revolution (edition_of edition) image.now track revolution))) }
    ensures out_after { out.new ≡ out_after out.old (within (length out.old) (numbers_of (direct_revolution (edition_of edition) image.now track revolution))) }
{
    direct_coded::revolution(image, edition, track, revolution, out)
}

// The flux of a revolution.
#[unsafe(no_mangle)]
pub extern "C" fn scp_direct_flux(
    image: &[u8],
    edition: u32,
    track: u32,
    revolution: u32,
    out: &mut [u8],
) -> u64
    ensures value { result ≡ code_of (within (length out.old) (numbers_of (direct_flux (edition_of edition) image.now track revolution))) }
    ensures out_after { out.new ≡ out_after out.old (within (length out.old) (numbers_of (direct_flux (edition_of edition) image.now track revolution))) }
{
    direct_coded::flux(image, edition, track, revolution, out)
}

// Where the flux of a revolution stands: its file offset, and how many bytes it has.
#[unsafe(no_mangle)]
pub extern "C" fn scp_direct_flux_part(
    image: &[u8],
    edition: u32,
    track: u32,
    revolution: u32,
    out: &mut [u64],
) -> u64
    ensures value { result ≡ code_of (within (length out.old) (part_numbers (direct_flux (edition_of edition) image.now track revolution))) }
    ensures out_after { out.new ≡ out_after out.old (within (length out.old) (part_numbers (direct_flux (edition_of edition) image.now track revolution))) }
{
    direct_coded::flux_part(image, edition, track, revolution, out)
}

// ---- speeds

// The speed of a revolution: 1.0 and the speed, or two zeros.
#[unsafe(no_mangle)]
pub extern "C" fn scp_speed(
    image: &[u8],
    edition: u32,
    track: u32,
    revolution: u32,
    out: &mut [f64],
) -> u64
    ensures value { result ≡ code_of (within (length out.old) (floats_of 2 (speed_answer (edition_of edition) image.now track revolution))) }
    ensures out_after { out.new ≡ out_after out.old (within (length out.old) (floats_of 2 (speed_answer (edition_of edition) image.now track revolution))) }
{
    scp_coded::speed(image, edition, track, revolution, out)
}

// The speeds of a track: 1.0, slowest, fastest, or three zeros.
#[unsafe(no_mangle)]
pub extern "C" fn scp_track_speed(image: &[u8], edition: u32, track: u32, out: &mut [f64]) -> u64
    ensures value { result ≡ code_of (within (length out.old) (floats_of 3 (track_speed_answer (edition_of edition) image.now track))) }
    ensures out_after { out.new ≡ out_after out.old (within (length out.old) (floats_of 3 (track_speed_answer (edition_of edition) image.now track))) }
{
    scp_coded::track_speed(image, edition, track, out)
}

// ---- a text

// How many bytes come before the place where the text stops being well-formed UTF-8.
#[unsafe(no_mangle)]
pub extern "C" fn scp_valid_up_to(text: &[u8], out: &mut [u64]) -> u64
    ensures value { result ≡ code_of (within (length out.old) (text_numbers text.now)) }
    ensures out_after { out.new ≡ out_after out.old (within (length out.old) (text_numbers text.now)) }
{
    utf8_coded::valid_up_to(text, out)
}

// ---- flux

// A step of the cursor: interval (0: none), open ticks, next word, closing word (0 where there is no interval).
#[unsafe(no_mangle)]
pub extern "C" fn scp_step(flux: &[u8], word: u64, out: &mut [u64]) -> u64
    ensures value { result ≡ code_of (within (length out.old) (step_numbers (step_at flux.now word))) }
    ensures out_after { out.new ≡ out_after out.old (within (length out.old) (step_numbers (step_at flux.now word))) }
{
    flux_coded::step(flux, word, out)
}

// All intervals at one go: the intervals to `times`; count, open ticks to `out`.
#[unsafe(no_mangle)]
pub extern "C" fn scp_intervals(flux: &[u8], times: &mut [u64], out: &mut [u64]) -> u64
    ensures value { result ≡ code_of (values_of (both (length out.old) (reading flux.now (length times.old)))) }
    ensures times_after { times.new ≡ buffer_after times.old (both (length out.old) (reading flux.now (length times.old))) }
    ensures out_after { out.new ≡ out_after out.old (values_of (both (length out.old) (reading flux.now (length times.old)))) }
{
    flux_coded::intervals(flux, times, out)
}

// All intervals at one go, with their closing words: the intervals to `times`, the numbers of these words to `closings`; count, open ticks to
// `out`.
#[unsafe(no_mangle)]
pub extern "C" fn scp_closed_intervals(
    flux: &[u8],
    times: &mut [u64],
    closings: &mut [u64],
    out: &mut [u64],
) -> u64
    ensures value { result ≡ code_of (values_of (both (length out.old) (closed_times flux.now times.old closings.old))) }
    ensures times_after { times.new ≡ buffer_after times.old (both (length out.old) (closed_times flux.now times.old closings.old)) }
    ensures closings_after { closings.new ≡ buffer_after closings.old (both (length out.old) (closed_numbers flux.now times.old closings.old)) }
    ensures out_after { out.new ≡ out_after out.old (values_of (both (length out.old) (closed_times flux.now times.old closings.old))) }
{
    flux_coded::closed_intervals(flux, times, closings, out)
}

// The numbers of the flux: how many intervals, open ticks, ticks of all words.
#[unsafe(no_mangle)]
pub extern "C" fn scp_summary(flux: &[u8], out: &mut [u64]) -> u64
    ensures value { result ≡ code_of (within (length out.old) (given_of (summarizing flux.now))) }
    ensures out_after { out.new ≡ out_after out.old (within (length out.old) (given_of (summarizing flux.now))) }
{
    flux_coded::summary(flux, out)
}

// Words from times: the bytes to `words`; their number to `out`.
#[unsafe(no_mangle)]
pub extern "C" fn scp_words(times: &[u64], words: &mut [u8], out: &mut [u64]) -> u64
    ensures value { result ≡ code_of (values_of (both (length out.old) (writing times.now (length words.old)))) }
    ensures words_after { words.new ≡ buffer_after words.old (both (length out.old) (writing times.now (length words.old))) }
    ensures out_after { out.new ≡ out_after out.old (values_of (both (length out.old) (writing times.now (length words.old)))) }
{
    flux_coded::words(times, words, out)
}

// ---- rewriting and sequences of calls

// Rewrites a revolution.
#[unsafe(no_mangle)]
pub extern "C" fn scp_rewrite(
    image: &mut [u8],
    edition: u32,
    track: u32,
    revolution: u32,
    duration: u32,
    words: &[u8],
) -> u64
    ensures value { result ≡ code_of (numbers_of (rewrite_answer (edition_of edition) image.old track revolution words.now)) }
    ensures image_after { image.new ≡ after_rewrite (edition_of edition) image.old track revolution duration words.now }
{
    let named = Edition::from(u64::from(edition));
    let rewritten = scp_rewrite::rewrite(image, named, track, revolution, duration, words);
    boundary::code_of(rewritten)
}

// Runs a list of calls on the image, 7 numbers each; 16 numbers a call to `answers`. The claim S holds of the whole sequence.
#[unsafe(no_mangle)]
pub extern "C" fn scp_replay(
    image: &mut [u8],
    calls: &[u64],
    words: &[u8],
    answers: &mut [u64],
) -> u64
    ensures value { result ≡ code_of (numbers_of (replay_answer calls.now (length answers.old))) }
    ensures replays { Replays image.old calls.now words.now answers.old image.new answers.new }
{
    let replayed = sequence::replay(image, calls, words, answers);
    boundary::code_of(replayed)
}
