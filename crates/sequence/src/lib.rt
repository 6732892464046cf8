// A sequence of calls on one SuperCard Pro image, given and answered as lent lists of numbers: 7 for a call, 16 for an answer.
#![tactic(auto)]

ghost use Rattle.std.specs.Prelude.{◌≡◌, ◌+◌, ◌*◌, ◌/◌, ◌≤◌, length};
ghost use Rattle.refusals.specs.Refusals.{found};
ghost use Rattle.scp_rewrite.specs.Rewriting.{after_rewrite};
ghost use Rattle.scp_rewrite.specs.Answering.{rewrite_answer};
ghost use Rattle.scp_book.specs.Book.{answer, after, final_bytes, answers as answers_of};
ghost use Rattle.scp_rows.specs.Rows.{answer_size, row_of};
ghost use Rattle.sequence.specs.Calls.{call_size, capped, call_at, calls_of, places_after};
ghost use Rattle.sequence.specs.Replaying.{of_replayed, replay_answer, Replays};

use refusals::{Reason, Refusal};
use scp_fields::Edition;

// The kind of a rewrite; any other is a question.
const REWRITE: u64 = 8;

// How many numbers a call has, and an answer.
const CALL_SIZE: usize = 7;

const ANSWER_SIZE: usize = 16;

// A track or revolution, as a number of 32 bits: what is above the largest counts as that.
fn cap(n: u64) -> u32
    ensures { result ≡ capped n }
{
    u32::try_from(n).unwrap_or(u32::MAX)
}

// Rewrites a revolution, and hands back the row of the answer.
fn rewrite_row(
    image: &mut [u8],
    edition: Edition,
    track: u32,
    revolution: u32,
    duration: u32,
    words: &[u8],
) -> [u64; 16]
    ensures value { result ≡ row_of (rewrite_answer edition image.old track revolution words.now) }
    ensures image_after { image.new ≡ after_rewrite edition image.old track revolution duration words.now }
{
    let found = scp_rewrite::rewrite(image, edition, track, revolution, duration, words);
    match found {
        Ok(()) => scp_rows::plain_row(),
        Err(r) => scp_rows::refused_row(r),
    }
}

// Makes the call of row i, and hands back the row of its answer.
fn call_row(image: &mut [u8], calls: &[u64], words: &[u8], i: usize) -> [u64; 16]
    requires { call_size * i + call_size ≤ length calls.now }
    ensures value { result ≡ row_of (answer image.old (call_at calls.now words.now i)) }
    ensures image_after { image.new ≡ after image.old (call_at calls.now words.now i) }
{
    let at = CALL_SIZE * i;
    let kind = calls[at];
    let track = cap(calls[at + 1]);
    let revolution = cap(calls[at + 2]);
    let edition = Edition::from(calls[at + 6]);
    if kind == REWRITE {
        let duration = (calls[at + 3] % 4_294_967_296) as u32;
        let part = copies::part_of(words, calls[at + 4] as usize, calls[at + 5] as usize);
        return rewrite_row(image, edition, track, revolution, duration, part);
    }
    scp_rows::question_row(image, edition, kind, track, revolution)
}

// Makes all calls, and stores the rows of their answers from the start of the answers on.
fn run_calls(image: &mut [u8], calls: &[u64], words: &[u8], answers: &mut [u64])
    requires { answer_size * (length calls.now / call_size) ≤ length answers.old }
    ensures image_after { image.new ≡ final_bytes image.old (calls_of calls.now words.now) }
    ensures answers_after { answers.new ≡ places_after (answers_of image.old (calls_of calls.now words.now)) answers.old }
{
    let n = calls.len() / CALL_SIZE;
    for i in 0..n {
        let row = call_row(image, calls, words, i);
        copies::copy(answers, ANSWER_SIZE * i, &row);
    }
}

// Runs the calls on the image, in order, and puts the row of each answer to the answers; the claim S holds of the whole sequence.
pub fn replay(
    image: &mut [u8],
    calls: &[u64],
    words: &[u8],
    answers: &mut [u64],
) -> Result<(), Refusal>
    ensures result_value { of_replayed (found result) ≡ replay_answer calls.now (length answers.old) }
    ensures replays { Replays image.old calls.now words.now answers.old image.new answers.new }
{
    if answers.len() / ANSWER_SIZE < calls.len() / CALL_SIZE {
        return Err(Reason::Places.at(0));
    }
    run_calls(image, calls, words, answers);
    Ok(())
}
