// What a day's report holds beside its turns: how the section was made, and how the day ended.
ghost use Rattle.std.specs.Prelude.{◌≡◌};
ghost use Rattle.cabinets.specs.Making.{track_kind};

use cabinets::cabinet::Cabinet;
use section::plan::Plan;
use vocabulary::kind::TrackKind;

// How the section was made.
#[derive(Clone, Copy, PartialEq, Eq, Debug)]
pub struct Made {
    pub track: TrackKind,
    pub running_time: u32,
    pub tray: usize,
}

// What a cabinet counted of its papers.
#[derive(Clone, Copy, PartialEq, Eq, Debug)]
pub struct Counts {
    pub issued: u32,
    pub cancelled: u32,
    pub set_back: u32,
    pub taken: u32,
}

// The papers live at the end, and each station's counts.
#[derive(Clone, Copy, PartialEq, Eq, Debug)]
pub struct End {
    pub live: usize,
    pub a: Counts,
    pub b: Counts,
}

impl From<Plan> for Made {
    ghost from_gives = { λ p r. r ≡ record { track = track_kind p.track; running_time = p.running_time; tray = p.tray } };

    fn from(plan: Plan) -> Made {
        Made {
            track: plan.track_kind(),
            running_time: plan.running_time,
            tray: plan.tray,
        }
    }
}

impl From<Cabinet> for Counts {
    ghost from_gives = { λ c r. r ≡ record { issued = c.issued; cancelled = c.cancelled; set_back = c.set_back; taken = c.taken } };

    fn from(cabinet: Cabinet) -> Counts {
        Counts {
            issued: cabinet.issued,
            cancelled: cabinet.cancelled,
            set_back: cabinet.set_back,
            taken: cabinet.taken,
        }
    }
}
