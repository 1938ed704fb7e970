// The track between the stations.
ghost use Rattle.std.specs.Prelude.{◌≡◌, ◌≤◌};
ghost use Rattle.cabinets.specs.Track.{interval, is_one_way};

pub use vocabulary::kind::{Nature, TrackKind};

// A track, with the minutes that a train takes over it.
#[derive(Clone, Copy, PartialEq, Eq, Debug)]
pub struct Track {
    pub kind: TrackKind,
    pub running_time: u32,
}

impl Track {
    // Whether the track is worked from A to B alone.
    pub(crate) fn is_one_way(&self) -> bool
        ensures { result ≡ is_one_way self.now.kind }
    {
        self.kind == TrackKind::OneWay
    }

    // The least minutes between two departures in dead working.
    pub(crate) fn interval(&self) -> u64
        ensures value { result ≡ interval self.now }
        ensures fits { result ≤ 4_294_967_298 }
    {
        (self.running_time as u64 + 3).max(13)
    }
}
