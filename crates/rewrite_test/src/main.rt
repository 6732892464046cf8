// Rewrites each image that an argument names, each time as its file has it, with the same few rewrites by each edition. `stdout` is what
// tests/rewrite_expected.py works out, which shares nothing with this code.
#![tactic(auto)]

use scp_fields::Edition;
use std::rt::Files;
use std::{env, fs, io};

// The most bytes of a file that are read.
const FILE_LIMIT: usize = 65_536;

const EDITIONS: [Edition; 2] = [Edition::V1_6, Edition::V1_4];

// A rewrite: a track, its revolution, the duration, and the words as bytes.
type Attempt = (u32, u32, u32, &'static [u8]);

// The rewrites that are tried.
const ATTEMPTS: [Attempt; 18] = [
    // track 0, revolution 0: as many words as image A has, fewer, none, an odd number of bytes, and too many
    (0, 0, 8_000_000, &[1, 64, 0, 0, 0, 1, 0, 240]),
    (0, 0, u32::MAX, b"abcd"),
    (0, 0, 1, b""),
    (0, 0, 0, b"abc"),
    (0, 0, 0, b"abcdefghij"),
    // other revolutions, one of them with an odd number of bytes
    (0, 1, 2, b"ab"),
    (0, 4, 3, b""),
    (0, 5, 4, b"abc"),
    (0, u32::MAX, 5, b""),
    // the last of 6 revolutions, the middle and the last of 255
    (0, 5, 12, b"ab"),
    (0, 127, 10, b"ab"),
    (0, 254, 11, b"ab"),
    // other tracks: the last of each edition, and those past it
    (1, 0, 6, b"ab"),
    (165, 0, 13, b"ab"),
    (166, 0, 14, b""),
    (167, 0, 7, b""),
    (168, 5, 8, b"abc"),
    (u32::MAX, 0, 9, b""),
];

fn name_of(edition: Edition) -> &'static str {
    match edition {
        Edition::V1_4 => "1.4",
        Edition::V1_6 => "1.6",
    }
}

// Each byte that changed: its offset, what it was and what it is. A write that fails is passed over, here and below: no answer depends on it.
fn print_changes(rt: &impl Print, before: &[u8], after: &[u8]) {
    for (i, old) in before.iter().enumerate() {
        let new = octets::byte(after, i);
        if *old != new {
            let _ = print!(rt; " {i}:{old:02x}>{new:02x}");
        }
    }
    let _ = println!(rt);
}

// The length, the stored checksum, the sum of all bytes, and what validating says by each edition.
fn print_image(rt: &impl Print, image: &[u8]) {
    let length = image.len();
    let stored = scp_fields::checksum(image);
    let sum = octets::byte_sum(image);
    let _ = print!(rt; "length {length} stored {stored} bytes {sum}");
    for edition in EDITIONS {
        let name = name_of(edition);
        let _ = match scp::validate(image, edition) {
            Ok(()) => print!(rt; " by {name} valid"),
            Err(refusal) => print!(rt; " by {name} {refusal}"),
        };
    }
    let _ = println!(rt);
}

// Rewrites the image, and shows it beside what it was: a refused rewrite changes no byte.
fn rewrite(rt: &impl Print, image: &mut [u8], edition: Edition, before: &[u8], attempt: Attempt) {
    let (track, turn, ticks, words) = attempt;
    let name = name_of(edition);
    let bytes = words.len();
    let _ = print!(rt; "by {name} track {track} turn {turn} ticks {ticks} bytes {bytes}: ");
    match scp_rewrite::rewrite(image, edition, track, turn, ticks, words) {
        Ok(()) => {
            let _ = print!(rt; "done");
            print_changes(rt, before, image);
            print_image(rt, image);
        }
        Err(refusal) => {
            let _ = print!(rt; "{refusal}");
            print_changes(rt, before, image);
        }
    }
}

// The first bytes of the file of that name, read into the buffer. Where it cannot be opened, a line on standard error says why.
fn read_file<'a>(
    rt: &(impl Eprint + Files),
    name: &str,
    buffer: &'a mut [u8],
) -> Option<&'a mut [u8]> {
    let mut file = match fs::open(rt, name) {
        Ok(file) => file,
        Err(e) => {
            let _ = eprintln!(rt; "{name}: {e}");
            return None;
        }
    };
    let n = reading::read_full(&mut file, buffer);
    drop(file);
    Some(&mut buffer[..n])
}

// Reads the file of that name, and tries all the rewrites, each on the file as it is read anew.
fn show_file(rt: &(impl Print + Eprint + Files), name: &str) {
    let _ = println!(rt; "== {name}");
    let mut buffer = [0; FILE_LIMIT];
    let Some(before) = read_file(rt, name, &mut buffer) else {
        return;
    };
    print_image(rt, before);
    for edition in EDITIONS {
        for attempt in ATTEMPTS {
            let mut buffer = [0; FILE_LIMIT];
            if let Some(image) = read_file(rt, name, &mut buffer) {
                rewrite(rt, image, edition, before, attempt);
            }
        }
    }
}

fn main(rt: HostRuntime) -> io::Result<()> {
    for name in env::args(&rt)?.skip(1) {
        show_file(&rt, &name);
    }
    Ok(())
}
