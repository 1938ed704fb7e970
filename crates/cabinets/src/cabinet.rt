// What a station's cabinet remembers.
use crate::paper::Working;
use vocabulary::number::{RecordNumber, RightNumber};

// An ask: the train, and which ask of its station it is.
#[derive(Clone, Copy, PartialEq, Eq, Debug)]
pub struct Ask {
    pub train: u32,
    pub count: u32,
}

// An acceptance held: the train, and the record number under which the other station accepted it.
#[derive(Clone, Copy, PartialEq, Eq, Debug)]
pub struct Acceptance {
    pub train: u32,
    pub record: RecordNumber,
}

// A line of the day's record: the number taken, and the day.
#[derive(Clone, Copy, PartialEq, Eq, Debug)]
pub struct RecordEntry {
    pub record: RecordNumber,
    pub day: u32,
}

// In which nothing has happened yet by default.
#[derive(Clone, Copy, PartialEq, Eq, Debug, Default)]
pub struct Cabinet {
    // The minute of the last call carried out.
    pub clock: u32,
    pub working: Working,
    pub right: RightNumber,
    // Papers departed and not set back.
    pub gone: u32,
    // Of these, those known to be handed in at the other station.
    pub known: u32,
    // The other station's papers handed in here.
    pub taken: u32,
    pub issued: u32,
    pub cancelled: u32,
    pub set_back: u32,
    // Asks made.
    pub asks: u32,
    pub open_ask: Option<Ask>,
    pub acceptance: Option<Acceptance>,
    pub ask_heard: Option<Ask>,
    pub last_departure: Option<u32>,
    pub last_arrival: Option<RecordNumber>,
    // The last record number taken.
    pub last_record: Option<RecordEntry>,
}
