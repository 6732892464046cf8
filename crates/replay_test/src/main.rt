// Runs the lists of calls on standard input through `replay`, each on an image of its own, as tests/replay_expected.py writes them there.
// `stdout` is what that works out, which shares nothing with this code.
#![tactic(auto)]

use refusals::Refusal;
use scp_fields::Edition;

// How many numbers a row has, and a list of calls: 21 calls each time.
const ROW: usize = 16;

const CALL_NUMBERS: usize = 153;

// A number and a space. A write that fails is passed over, here and below: no answer depends on it.
fn print_number(rt: &impl Print, n: u64) {
    let _ = print!(rt; "{n} ");
}

// The numbers, a row to a line.
fn print_rows(rt: &impl Print, answers: &[u64]) {
    let (rows, rest) = answers.as_chunks::<ROW>();
    for row in rows {
        for n in row {
            print_number(rt, *n);
        }
        let _ = println!(rt);
    }
    for n in rest {
        print_number(rt, *n);
    }
    let _ = println!(rt);
}

fn print_replayed(rt: &impl Print, replayed: Result<(), Refusal>) {
    let _ = match replayed {
        Ok(()) => println!(rt; "done"),
        Err(refusal) => println!(rt; "{refusal} "),
    };
}

// The stored checksum, the byte sum, and by which editions the image is valid.
fn print_image(rt: &impl Print, image: &[u8]) {
    let stored = scp_fields::checksum(image);
    let sum = octets::byte_sum(image);
    let _ = print!(rt; "image {stored} {sum} ");
    for (name, edition) in [("1.6", Edition::V1_6), ("1.4", Edition::V1_4)] {
        if scp::validate(image, edition).is_ok() {
            let _ = print!(rt; "valid by {name} ");
        }
    }
    let _ = println!(rt);
}

// Reads the numbers of a list of calls, each of 8 bytes, the lowest first.
fn read_calls(rt: &impl Input) -> [u64; CALL_NUMBERS] {
    let mut numbers = [[0; 8]; CALL_NUMBERS];
    reading::read_full(&mut rt.reader(), numbers.as_flattened_mut());
    numbers.map(u64::from_le_bytes)
}

// Reads an image, its calls and their words, makes the calls, and shows the answers and what becomes of the image.
fn run(rt: &(impl Input + Print), name: &str, image: &mut [u8], answers: &mut [u64]) {
    let _ = println!(rt; "== {name}");
    reading::read_full(&mut rt.reader(), image);
    let calls = read_calls(rt);
    let mut words = [0; 34];
    reading::read_full(&mut rt.reader(), &mut words);
    print_replayed(rt, sequence::replay(image, &calls, &words, answers));
    print_rows(rt, answers);
    print_image(rt, image);
}

// The places for the answers: one too few, three more than they take, and as many as they take.
fn main(rt: HostRuntime) {
    run(&rt, "a place too few", &mut [0; 712], &mut [7; 335]);
    run(&rt, "a", &mut [0; 712], &mut [7; 339]);
    run(&rt, "old_footer", &mut [0; 768], &mut [7; 336]);
    run(&rt, "string_in_flux", &mut [0; 800], &mut [7; 336]);
    run(&rt, "text_in_flux", &mut [0; 800], &mut [7; 336]);
    run(&rt, "taken_back", &mut [0; 712], &mut [7; 336]);
    run(&rt, "shorter", &mut [0; 712], &mut [7; 336]);
}
