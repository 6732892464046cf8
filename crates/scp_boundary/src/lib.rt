// How speeds pass to C and Rust: as floats (include/scp.h).
#![tactic(auto)]

ghost use Rattle.std.specs.Prelude.{◌≡◌};
ghost use Rattle.scp.specs.Answers.{of_speed_only, of_speed_range};
ghost use Rattle.boundary.specs.Boundary.{gives};
ghost use Rattle.scp_boundary.specs.Boundary.{whole as whole_float, floats_of};

use scp_speed::TrackSpeeds;

// A whole number as an f64.
pub fn whole(n: u32) -> f64
    ensures { result ≡ whole_float n }
{
    f64::from(n)
}

// One speed as two floats: 1.0 and the speed, or zeros where there is none.
pub fn speed_floats(speed: Option<f64>) -> [f64; 2]
    ensures { gives result ≡ floats_of 2 (of_speed_only speed) }
{
    match speed {
        Some(x) => [whole(1), x],
        None => [whole(0), whole(0)],
    }
}

// The speeds of a track as three floats: 1.0, slowest, fastest, or zeros where there are none.
pub fn track_speed_floats(speeds: Option<TrackSpeeds>) -> [f64; 3]
    ensures { gives result ≡ floats_of 3 (of_speed_range speeds) }
{
    match speeds {
        Some(s) => [whole(1), s.slowest, s.fastest],
        None => [whole(0), whole(0), whole(0)],
    }
}
