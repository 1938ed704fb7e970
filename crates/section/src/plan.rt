// What a section is made of.
ghost use Rattle.std.specs.Prelude.{◌≡◌};
ghost use Rattle.cabinets.specs.Making.{track_kind};

use vocabulary::fields::MakingFields;
use vocabulary::kind::TrackKind;

// The greatest tray.
pub const LARGEST_TRAY: usize = 64;

// The number of the track's kind (0 single, 1 one-way), the running time in minutes, and how many papers the tray is for: any numbers. What they must be is tested when a section is made.
#[derive(Clone, Copy, PartialEq, Eq, Debug)]
pub struct Plan {
    pub track: u8,
    pub running_time: u32,
    pub tray: usize,
}

impl From<MakingFields> for Plan {
    ghost from_gives = { λ m r. r ≡ record { track = m.track; running_time = m.running_time; tray = m.tray } };

    fn from(fields: MakingFields) -> Plan {
        Plan {
            track: fields.track,
            running_time: fields.running_time.into(),
            tray: fields.tray.into(),
        }
    }
}

impl Plan {
    // The kind of the track. A number that names no kind is refused before this is asked.
    pub fn track_kind(&self) -> TrackKind
        ensures { result ≡ track_kind self.now.track }
    {
        TrackKind::try_from(self.track).unwrap_or(TrackKind::Single)
    }
}
