// Drive speeds of a SuperCard Pro image: of a revolution from its duration, of a track from its longest and its shortest.
#![tactic(auto)]

ghost use Rattle.std.specs.Prelude.{◌≡◌};
ghost use Rattle.scp_speed.specs.Durations.{shorter};
ghost use Rattle.scp_speed.specs.Speeds.{rpm_of, speed_of, speeds_of};

// The ticks of a minute: a tick is 25 ns.
const MINUTE: u32 = 2_400_000_000;

// The slowest and the fastest speed of a track's revolutions, in rpm.
#[derive(Clone, Copy, Debug, PartialEq)]
pub struct TrackSpeeds {
    pub slowest: f64,
    pub fastest: f64,
}

// The ticks of a minute by a duration of one revolution: one division.
fn rpm(duration: u32) -> f64
    ensures { result ≡ rpm_of duration }
{
    MINUTE as f64 / duration as f64
}

// The speed of a revolution of a duration, in rpm; none for duration 0.
#[tactic(auto, unfolding(crate::specs::Speeds::speed_of))]
pub fn speed_of(duration: u32) -> Option<f64>
    ensures { result ≡ speed_of duration }
{
    if duration == 0 {
        return None;
    }
    Some(rpm(duration))
}

// The shorter of two durations that are not 0, or the one that is not.
fn shorter_of(a: u32, b: u32) -> u32
    ensures { result ≡ shorter a b }
{
    if a == 0 {
        return b;
    }
    if b == 0 {
        return a;
    }
    a.min(b)
}

// The slowest and the fastest speed of the track data header at e; none where all durations are 0.
pub fn track_speeds(image: &[u8], header: u32) -> Option<TrackSpeeds>
    ensures { result ≡ speeds_of image.now header }
{
    let n = scp_fields::revolutions(image) as u32;
    let mut most: u32 = 0;
    let mut least: u32 = 0;
    for k in 0..n {
        let duration = scp_tracks::revolution_data(image, header, k).duration;
        most = most.max(duration);
        least = shorter_of(least, duration);
    }
    if most == 0 {
        return None;
    }
    Some(TrackSpeeds {
        slowest: rpm(most),
        fastest: rpm(least),
    })
}
