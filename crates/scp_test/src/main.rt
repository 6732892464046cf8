// Lists each image that an argument names, and asks it all the questions by revision 1.6 and some by 1.4, directly, too. `stdout` is what
// tests/scp_images.py works out, which shares nothing with this code.
#![tactic(auto)]

use flux::Filled;
use refusals::Refusal;
use scp::FooterData;
use scp_fields::Edition;
use scp_lookup::TrackData;
use scp_open::Header;
use scp_speed::TrackSpeeds;
use scp_tracks::RevolutionData;
use std::rt::Files;
use std::{env, fs, io};

// The most bytes of a file that are read.
const FILE_LIMIT: usize = 65_536;

// The tracks that are asked for: the first two, the last of each edition and those past it, and one that no image has.
const TRACKS: [u32; 7] = [0, 1, 165, 166, 167, 168, u32::MAX];

// The speed that is told apart from any other, in rpm.
const RPM: f64 = 300.0;

// An image, and the edition by which it is asked. A write that fails is passed over: no answer depends on it.
#[derive(Clone, Copy)]
struct Asked<'a> {
    image: &'a [u8],
    edition: Edition,
}

// ---- what is answered

fn print_header(rt: &impl Print, header: Header) {
    let Header {
        version,
        disk,
        revolutions,
        start,
        end,
        flags,
        width,
        heads,
        checksum,
    } = header;
    let _ = println!(rt;
        "header {version} {disk} {revolutions} {start} {end} {flags} {width} {heads} {checksum}"
    );
}

// A signed number: its sign, and the bits of its two's complement.
fn print_signed(rt: &impl Print, n: i64) {
    let sign = if n < 0 { '-' } else { '+' };
    let bits = n.cast_unsigned();
    let _ = print!(rt; " {sign}{bits:016x}");
}

fn print_footer_data(rt: &impl Print, footer: FooterData) {
    let FooterData {
        maker,
        model,
        serial,
        creator,
        application,
        comments,
        created,
        modified,
        software,
        hardware,
        firmware,
        format,
    } = footer;
    let _ = print!(rt; "footer {maker} {model} {serial} {creator} {application} {comments}");
    print_signed(rt, created);
    print_signed(rt, modified);
    let _ = println!(rt; " {software} {hardware} {firmware} {format}");
}

fn print_track_data(rt: &impl Print, track: Result<TrackData, Refusal>) {
    let _ = match track {
        Ok(
            TrackData {
                cylinder,
                head,
                offset,
                revolutions,
            },
        ) => print!(rt; " {cylinder} {head} {} {revolutions}", offset.0),
        Err(refusal) => print!(rt; " {refusal}"),
    };
}

fn print_revolution_data(rt: &impl Print, revolution: Result<RevolutionData, Refusal>) {
    let _ = match revolution {
        Ok(
            RevolutionData {
                duration,
                words,
                offset,
            },
        ) => print!(rt; " {duration} {words} {}", offset.0),
        Err(refusal) => print!(rt; " {refusal}"),
    };
}

fn print_filled(rt: &impl Print, answer: Result<Filled, Refusal>) {
    let _ = match answer {
        Ok(Filled { filled, open }) => print!(rt; " filled {filled} open {open}"),
        Err(refusal) => print!(rt; " {refusal}"),
    };
}

// ---- the questions

impl Asked<'_> {
    fn print_footer(self, rt: &impl Print) {
        match scp::footer(self.image, self.edition) {
            Ok(Some(footer)) => print_footer_data(rt, footer),
            Ok(None) => {
                let _ = println!(rt; "footer none");
            }
            Err(refusal) => {
                let _ = println!(rt; "footer {refusal}");
            }
        }
    }

    fn print_speed(self, rt: &impl Print, track: u32, turn: u32) {
        let _ = match scp::speed(self.image, self.edition, track, turn) {
            Ok(Some(rpm)) => print!(rt; " speed 300 {}", u8::from(rpm == RPM)),
            Ok(None) => print!(rt; " speed none"),
            Err(refusal) => print!(rt; " speed {refusal}"),
        };
    }

    fn print_intervals(self, rt: &impl Print, track: u32, turn: u32) {
        let answer = scp::revolution_intervals(self.image, self.edition, track, turn, &mut [0; 2]);
        let _ = print!(rt; " intervals");
        print_filled(rt, answer);
    }

    // The intervals with their closing words, into three places and two: the answer, and what the two then hold.
    fn print_closed(self, rt: &impl Print, track: u32, turn: u32) {
        let mut times = [4, 5, 6];
        let mut closings = [7, 8];
        let answer = scp::revolution_closed_intervals(
            self.image,
            self.edition,
            track,
            turn,
            &mut times,
            &mut closings,
        );
        let _ = print!(rt; " closed");
        print_filled(rt, answer);
        let [first, second, third] = times;
        let [by_first, by_second] = closings;
        let _ = print!(rt; " times {first} {second} {third} by {by_first} {by_second}");
    }

    fn print_revolution(self, rt: &impl Print, track: u32, turn: u32) {
        let revolution = scp::revolution(self.image, self.edition, track, turn);
        let _ = print!(rt; "turn {turn}:");
        print_revolution_data(rt, revolution);
        if revolution.is_ok() {
            let bytes = scp::flux(self.image, self.edition, track, turn).len();
            let _ = print!(rt; " flux {bytes}");
            self.print_speed(rt, track, turn);
            self.print_intervals(rt, track, turn);
            self.print_closed(rt, track, turn);
        }
        let _ = println!(rt);
    }

    fn print_speeds(self, rt: &impl Print, track: u32) {
        let _ = match scp::track_speed(self.image, self.edition, track) {
            Ok(Some(TrackSpeeds { slowest, fastest })) => {
                let slow = u8::from(slowest == RPM);
                let fast = u8::from(fastest == RPM);
                println!(rt; "speeds slowest 300 {slow} fastest 300 {fast}")
            }
            Ok(None) => println!(rt; "speeds none"),
            Err(refusal) => println!(rt; "speeds {refusal}"),
        };
    }

    // The revolutions that are asked for: by 1.6 the first, the last of 5, 6, 9, 200 and 255, the middle of 255, and two that no track has; by 1.4 the
    // first and the last of 255.
    fn turns(self) -> &'static [u32] {
        match self.edition {
            Edition::V1_4 => &[0, 254],
            Edition::V1_6 => &[0, 4, 5, 8, 127, 199, 254, 255, u32::MAX],
        }
    }

    fn print_track(self, rt: &impl Print, number: u32) {
        let track = scp::track(self.image, self.edition, number);
        let _ = print!(rt; "track {number}:");
        print_track_data(rt, track);
        let _ = println!(rt);
        if track.is_ok() {
            self.print_speeds(rt, number);
            for turn in self.turns() {
                self.print_revolution(rt, number, *turn);
            }
        }
    }

    // The header's fields and what there is more to ask, or why every question is refused.
    fn ask(self, rt: &impl Print) {
        match scp::header(self.image, self.edition) {
            Ok(header) => {
                print_header(rt, header);
                self.print_footer(rt);
                for track in TRACKS {
                    self.print_track(rt, track);
                }
            }
            Err(refusal) => {
                let _ = println!(rt; "asked: {refusal}");
            }
        }
    }

    // A revolution, asked for directly, and how long its flux is.
    fn direct_revolution(self, rt: &impl Print, track: u32, turn: u32) {
        let _ = print!(rt; " turn {turn}:");
        print_revolution_data(
            rt,
            scp_direct::revolution(self.image, self.edition, track, turn),
        );
        let bytes = scp_direct::flux(self.image, self.edition, track, turn).len();
        let _ = print!(rt; " flux {bytes}");
    }

    // Each track, its first revolution and the last of 255, asked for directly: these calls answer on refused images, too.
    fn ask_directly(self, rt: &impl Print) {
        for track in TRACKS {
            let _ = print!(rt; "direct {track}:");
            print_track_data(rt, scp_direct::track(self.image, self.edition, track));
            self.direct_revolution(rt, track, 0);
            self.direct_revolution(rt, track, 254);
            let _ = println!(rt);
        }
    }
}

// ---- an image

fn judge_by_1_4(rt: &impl Print, image: &[u8]) {
    let _ = match scp::validate(image, Edition::V1_4) {
        Ok(()) => println!(rt; "by 1.4: valid"),
        Err(refusal) => println!(rt; "by 1.4: {refusal}"),
    };
}

fn show(rt: &impl Print, image: &[u8]) {
    let by_1_6 = Asked {
        image,
        edition: Edition::V1_6,
    };
    let by_1_4 = Asked {
        image,
        edition: Edition::V1_4,
    };
    let _ = scp_listing::list(rt, image);
    by_1_6.ask(rt);
    by_1_6.ask_directly(rt);
    judge_by_1_4(rt, image);
    by_1_4.ask(rt);
    by_1_4.ask_directly(rt);
}

// Reads the file of that name, and shows it.
fn show_file(rt: &(impl Print + Eprint + Files), name: &str) {
    let _ = println!(rt; "== {name}");
    let mut file = match fs::open(rt, name) {
        Ok(file) => file,
        Err(e) => {
            let _ = eprintln!(rt; "{name}: {e}");
            return;
        }
    };
    let mut buffer = [0; FILE_LIMIT];
    let n = reading::read_full(&mut file, &mut buffer);
    drop(file);
    show(rt, &buffer[..n]);
}

fn main(rt: HostRuntime) -> io::Result<()> {
    for name in env::args(&rt)?.skip(1) {
        show_file(&rt, &name);
    }
    Ok(())
}
