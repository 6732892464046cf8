// Runs the flux library on long zero runs, the largest times, empty inputs and buffers that are too short by one. A line says what was read
// or written, what the buffer then holds and what the library answers. `stdout` is written by tests/flux_expected.py, which shares nothing
// with this code.
#![tactic(auto)]

ghost use Rattle.std.specs.Prelude.{◌≤◌};

use flux::{Cursor, Filled, Step};
use refusals::Refusal;

// A write that fails is passed over throughout: no answer depends on it.

// ---- what the library answers, to the end of the line

fn filled(rt: &impl Print, answer: Result<Filled, Refusal>) {
    let _ = match answer {
        Ok(Filled { filled, open }) => println!(rt; " filled {filled} open {open}"),
        Err(refusal) => println!(rt; " {refusal}"),
    };
}

fn written(rt: &impl Print, answer: Result<usize, Refusal>) {
    let _ = match answer {
        Ok(n) => println!(rt; " bytes {n}"),
        Err(refusal) => println!(rt; " {refusal}"),
    };
}

fn stepped(rt: &impl Print, answer: Result<Step, Refusal>) {
    let _ = match answer {
        Ok(
            Step::Interval {
                ticks,
                open,
                closing,
                next: Cursor { word },
            },
        ) => println!(rt; " interval {ticks} closing {closing} open {open} next {word}"),
        Ok(
            Step::Open {
                open,
                next: Cursor { word },
            },
        ) => println!(rt; " open {open} next {word}"),
        Err(refusal) => println!(rt; " {refusal}"),
    };
}

// ---- what buffers hold

fn numbers(rt: &impl Print, name: &str, values: &[u64]) {
    let _ = print!(rt; "{name}");
    for n in values {
        let _ = print!(rt; " {n}");
    }
}

fn bytes(rt: &impl Print, name: &str, values: &[u8]) {
    let _ = print!(rt; "{name}");
    for n in values {
        let _ = print!(rt; " {n:02x}");
    }
}

// The length and the byte sum of what may be too long to print.
fn digest(rt: &impl Print, name: &str, values: &[u8]) {
    let length = values.len();
    let sum = octets::byte_sum(values);
    let _ = print!(rt; "{name} {length} sum {sum}");
}

// ---- calls of the library

// The intervals of the flux at one go, into so many places, which hold 7, 8, 9 .. before the call.
fn read(rt: &impl Print, flux: &[u8], places: usize)
    requires { places ≤ 6 }
{
    let mut buffer = [7, 8, 9, 10, 11, 12];
    let lent = &mut buffer[..places];
    let answer = flux::intervals(flux, lent);
    digest(rt, "read", flux);
    numbers(rt, " leaves", lent);
    filled(rt, answer);
}

// The intervals of the flux and the words that close them at one go, into so many places each, which hold 7, 8, 9 .. and 17, 18, 19 .. before
// the call.
fn closed(rt: &impl Print, flux: &[u8], places: usize, more: usize)
    requires { (places ≤ 6) × (more ≤ 6) }
{
    let mut times = [7, 8, 9, 10, 11, 12];
    let mut closings = [17, 18, 19, 20, 21, 22];
    let lent = &mut times[..places];
    let also_lent = &mut closings[..more];
    let answer = flux::closed_intervals(flux, lent, also_lent);
    digest(rt, "closed", flux);
    numbers(rt, " leaves", lent);
    numbers(rt, " and", also_lent);
    filled(rt, answer);
}

// The words of the times, into so many bytes, which hold 7, 8, 9 .. before the call.
fn write(rt: &impl Print, ticks: &[u64], room: usize)
    requires { room ≤ 8 }
{
    let mut buffer = [7, 8, 9, 10, 11, 12, 13, 14];
    let lent = &mut buffer[..room];
    let answer = flux::words(ticks, lent);
    numbers(rt, "write", ticks);
    bytes(rt, " leaves", lent);
    written(rt, answer);
}

// The next interval from a word on.
fn step(rt: &impl Print, flux: &[u8], word: usize) {
    let cursor = Cursor { word };
    let answer = cursor.step(flux);
    let _ = print!(rt; "step {word}");
    stepped(rt, answer);
}

// ---- cases

// Short flux, at one go into 0 to 6 places, with its closing words where either list has so many, and by a step from each of the words 0 to 6
// and from the largest.
fn short(rt: &impl Print, flux: &[u8]) {
    for n in 0..=6 {
        read(rt, flux, n);
        closed(rt, flux, n, 6);
        closed(rt, flux, 6, n);
        step(rt, flux, n);
    }
    step(rt, flux, usize::MAX);
}

// Long flux, into too few places, enough and more, and by steps from the first word and about the last.
fn long(rt: &impl Print, flux: &[u8]) {
    read(rt, flux, 0);
    read(rt, flux, 1);
    read(rt, flux, 2);
    closed(rt, flux, 1, 2);
    closed(rt, flux, 2, 1);
    closed(rt, flux, 2, 2);
    step(rt, flux, 0);
    step(rt, flux, 65_535);
    step(rt, flux, 65_536);
}

// The words of times, into 0 to 8 bytes.
fn times(rt: &impl Print, ticks: &[u64]) {
    for n in 0..=8 {
        write(rt, ticks, n);
    }
}

// The words of one time.
fn time(rt: &impl Print, t: u64) {
    times(rt, &[t]);
}

// Times at the edges of what can be expressed.
fn edges(rt: &impl Print) {
    time(rt, 0);
    time(rt, 1);
    time(rt, 65_535);
    time(rt, 65_536);
    time(rt, 65_537);
    time(rt, 4_294_967_296);
    time(rt, 4_294_967_297);
    time(rt, u64::MAX);
}

// Bytes for the words of the longest time, and two more.
fn buffer() -> [u8; 131_074] {
    [0xAA; 131_074]
}

// The words of times in so many bytes, and these bytes read back.
fn back(rt: &impl Print, ticks: &[u64], room: usize)
    requires { room ≤ 131_074 }
{
    let mut buffer = buffer();
    let lent = &mut buffer[..room];
    let answer = flux::words(ticks, lent);
    numbers(rt, "write", ticks);
    digest(rt, " leaves", lent);
    written(rt, answer);
    long(rt, lent);
}

// The largest time is 65,535 zero words and one more: a byte too few, just enough and more, alone and before another time.
fn longest(rt: &impl Print, one: &[u64], two: &[u64]) {
    back(rt, one, 131_071);
    back(rt, one, 131_072);
    back(rt, one, 131_074);
    back(rt, two, 131_073);
    back(rt, two, 131_074);
}

// 65,536 zero words.
fn zeros() -> [u8; 131_072] {
    [0; 131_072]
}

// Zero words alone are open time and no interval; with a last word that is not zero they are one interval.
fn long_zeros(rt: &impl Print) {
    let mut flux = zeros();
    long(rt, &flux);
    flux[131_071] = 1;
    long(rt, &flux);
}

// No flux, the flux of image A, zero words before and after a word, and an odd number of bytes.
fn short_flux(rt: &impl Print) {
    short(rt, &[]);
    short(rt, &[0x00, 0xA0, 0x00, 0x00, 0x00, 0x01, 0x00, 0xF0]);
    short(rt, &[0, 0, 0, 0, 0x12, 0x34, 0, 0, 0, 0, 0, 0]);
    short(rt, &[0, 1, 0, 2, 0]);
    short(rt, &[1]);
}

// No times, several, and one that cannot be expressed behind others.
fn short_times(rt: &impl Print) {
    times(rt, &[]);
    times(rt, &[258, 772]);
    times(rt, &[1, 65_537]);
    times(rt, &[1, 65_537, 0]);
    times(rt, &[1, 2, 131_072]);
}

fn main(rt: HostRuntime) {
    short_flux(&rt);
    short_times(&rt);
    edges(&rt);
    longest(&rt, &[4_294_967_295], &[4_294_967_295, 1]);
    long_zeros(&rt);
}
