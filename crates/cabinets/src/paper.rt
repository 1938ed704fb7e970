// The paper that a train carries through the section.
ghost use Rattle.std.specs.Prelude.{◌≡◌};
ghost use Rattle.cabinets.specs.Tray.{carried_by, is_in_hand, is_out, is_plain_dead, serial_of};

use vocabulary::number::{RecordNumber, RightNumber, Serial};
use vocabulary::station::Station;

// How a cabinet works: by telephone, or dead, when nothing comes through.
#[derive(Clone, Copy, PartialEq, Eq, Debug, Default)]
pub enum Working {
    #[default]
    Telephone,
    Dead,
}

#[derive(Clone, Copy, PartialEq, Eq, Debug)]
pub enum PaperKind {
    Ticket = 1,
    RedPermit = 2,
}

// A paper, from its issue to its closing.
#[derive(Clone, Copy, PartialEq, Eq, Debug)]
pub struct Paper {
    pub serial: Serial,
    // The station that issued it.
    pub station: Station,
    pub train: u32,
    pub kind: PaperKind,
    // 0 where it has none: the number that is written on it.
    pub record: RecordNumber,
    // The right number that it takes to the other station.
    pub carried: Option<RightNumber>,
    // The working at its issue.
    pub working: Working,
    // The minute of its departure; until then it is in hand.
    pub departed: Option<u32>,
}

// What the space of a tray holds at first: nothing reads it.
pub const NO_PAPER: Paper = Paper {
    serial: Serial(0),
    station: Station::A,
    train: 0,
    kind: PaperKind::Ticket,
    record: RecordNumber(0),
    carried: None,
    working: Working::Telephone,
    departed: None,
};

// Whether a paper, if there is one, is a station's and has not departed.
pub fn is_in_hand(paper: Option<Paper>, at: Station) -> bool
    ensures { result ≡ is_in_hand at paper }
{
    paper.is_some_and(|paper| paper.station == at && paper.departed.is_none())
}

// Whether a paper, if there is one, is a station's, has departed, and has a serial.
pub(crate) fn is_out(paper: Option<Paper>, of: Station, number: Serial) -> bool
    ensures { result ≡ is_out of number.0 paper }
{
    paper.is_some_and(|paper| {
        paper.station == of && paper.departed.is_some() && paper.serial == number
    })
}

// Whether a paper was issued in dead working and carries no number.
pub(crate) fn is_plain_dead(paper: Option<Paper>) -> bool
    ensures { result ≡ is_plain_dead paper }
{
    paper.is_some_and(|paper| paper.working == Working::Dead && paper.carried.is_none())
}

// The right number that a paper carries.
pub(crate) fn carried(paper: Option<Paper>) -> Option<RightNumber>
    ensures { result ≡ carried_by paper }
{
    paper?.carried
}

// A paper's serial, 0 where there is none.
pub(crate) fn serial(paper: Option<Paper>) -> Serial
    ensures { result.0 ≡ serial_of paper }
{
    paper.map_or(Serial(0), |paper| paper.serial)
}
