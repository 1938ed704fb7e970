// The fourteen calls.
ghost use Rattle.std.specs.Prelude.{◌≡◌};
ghost use Rattle.cabinets.specs.Calls.{act_of, bare, by_station, call_from, checked_call, in_bounds, line_call, no_issue, pass_of, plain};

use vocabulary::fields::{CallFields, CallKind};
use vocabulary::kind::{Nature, Pass};
use vocabulary::number::Serial;
use vocabulary::station::Station;

// The latest minute.
pub const LAST_MINUTE: u32 = 1_000_000_000;

// The greatest train number.
const LAST_TRAIN: u32 = 99_999;

// The greatest serial.
pub(crate) const LAST_SERIAL: u32 = 9_999;

// What a station can do.
#[derive(Clone, Copy)]
pub enum Act {
    // Of a train.
    Ask(u32),
    Accept,
    // Of a train, its nature, and whether the right goes with it.
    Issue(u32, Nature, bool),
    Depart,
    Cancel,
    Arrive(Serial),
    SetBack(Serial),
    Report,
    Release,
    Hear,
    DeclareDead,
    Resume,
}

// A call: what a station does at a minute, or what is done to the line.
#[derive(Clone, Copy)]
pub enum Call {
    Act(Station, u32, Act),
    DropLine,
    MendLine,
}

impl Call {
    // A station's act at a minute; none where the minute, the train or the serial is out of bounds.
    pub fn new(at: Station, minute: u32, act: Act) -> Option<Call>
        ensures { result ≡ checked_call at minute act }
    {
        if minute > LAST_MINUTE || !act.is_in_bounds() {
            return None;
        }
        Some(Call::Act(at, minute, act))
    }

    // The call that its fields give; none where a field is out of bounds, or unused and not 0.
    #[tactic(auto, unfolding(crate::specs::Calls::call_from))]
    pub fn read(fields: &CallFields) -> Option<Call>
        ensures { result ≡ call_from fields.now }
    {
        let kind = CallKind::try_from(fields.call).ok()?;
        match kind {
            CallKind::DropLine => line_call(Call::DropLine, fields),
            CallKind::MendLine => line_call(Call::MendLine, fields),
            _ => Call::by_station(kind, fields),
        }
    }
}

impl Call {
    // A call that is a station's act; none where the station is neither, or a field of the act is not sound.
    fn by_station(kind: CallKind, fields: &CallFields) -> Option<Call>
        ensures { result ≡ by_station kind fields.now }
    {
        let at = Station::try_from(fields.station).ok()?;
        let act = Act::read(kind, fields)?;
        Call::new(at, fields.minute, act)
    }
}

impl Act {
    // The act that a call's fields give, each by its own test of the fields that it does not use; none where the nature or the pass is out of bounds, or a field is unused and not 0.
    fn read(kind: CallKind, fields: &CallFields) -> Option<Act>
        ensures { result ≡ act_of kind fields.now }
    {
        match kind {
            CallKind::Ask => plain(Act::Ask(fields.number), fields),
            CallKind::Accept => bare(Act::Accept, fields),
            CallKind::Issue => {
                let nature = Nature::try_from(fields.nature).ok()?;
                let pass = pass_of(fields.pass)?;
                Some(Act::Issue(fields.number, nature, pass))
            }
            CallKind::Depart => bare(Act::Depart, fields),
            CallKind::Cancel => bare(Act::Cancel, fields),
            CallKind::Arrive => plain(Act::Arrive(Serial(fields.number)), fields),
            CallKind::SetBack => plain(Act::SetBack(Serial(fields.number)), fields),
            CallKind::Report => bare(Act::Report, fields),
            CallKind::Release => bare(Act::Release, fields),
            CallKind::Hear => bare(Act::Hear, fields),
            CallKind::DeclareDead => bare(Act::DeclareDead, fields),
            CallKind::Resume => bare(Act::Resume, fields),
            CallKind::DropLine | CallKind::MendLine => None,
        }
    }

    // Whether its train or its serial, if it has one, is within bounds.
    fn is_in_bounds(&self) -> bool
        ensures { result ≡ in_bounds self.now }
    {
        match self {
            Act::Ask(train) | Act::Issue(train, _, _) => (1..=LAST_TRAIN).contains(train),
            Act::Arrive(serial) | Act::SetBack(serial) => (1..=LAST_SERIAL).contains(&serial.0),
            _ => true,
        }
    }
}

// An act that uses the number, but neither nature nor pass.
fn plain(act: Act, fields: &CallFields) -> Option<Act>
    ensures { result ≡ plain act fields.now }
{
    if is_no_issue(fields) { Some(act) } else { None }
}

// An act that uses neither number nor nature nor pass.
fn bare(act: Act, fields: &CallFields) -> Option<Act>
    ensures { result ≡ bare act fields.now }
{
    if is_no_issue(fields) && fields.number == 0 {
        Some(act)
    } else {
        None
    }
}

// A call on the line, which uses no other field.
fn line_call(call: Call, fields: &CallFields) -> Option<Call>
    ensures { result ≡ line_call call fields.now }
{
    if fields.station == 0 && fields.minute == 0 && fields.number == 0 && is_no_issue(fields) {
        Some(call)
    } else {
        None
    }
}

// Whether the fields that only an issue uses are 0.
fn is_no_issue(fields: &CallFields) -> bool
    ensures { result ≡ no_issue fields.now }
{
    fields.nature == 0 && fields.pass == 0
}

// Whether the right goes with a train, by the byte for it.
fn pass_of(byte: u8) -> Option<bool>
    ensures { result ≡ pass_of byte }
{
    Some(Pass::try_from(byte).ok()? == Pass::Yes)
}
