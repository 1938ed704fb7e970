// Why something was refused: the layer that refused it, the fault's number, and the byte place in the log.
ghost use Rattle.std.specs.Prelude.{◌≡◌};
ghost use Rattle.vocabulary.specs.Faults.{fault_layer, fault_number, fault_place};
ghost use Rattle.vocabulary.specs.declared.fault.Fault.TheVariants as of;

// The layer that refused.
#[derive(Clone, Copy, PartialEq, Eq, Debug)]
pub enum Layer {
    Log,
    Making,
    Call,
}

// What is wrong with a day log as bytes.
#[derive(Clone, Copy, PartialEq, Eq, Debug)]
pub enum LogFault {
    // The log is empty or too long, or its first byte is no count of entries.
    Start = 1,
    // The log ends inside its contents.
    ContentsCut = 2,
    // The first entry is no making, or a later one no calls.
    EntryKind = 3,
    // A making is not four bytes long, or calls are not whole calls.
    BodyLength = 4,
    // Contents and bodies together are not as long as the log.
    TotalLength = 5,
    // Too many calls to write, or too little space for them.
    NoRoom = 6,
}

// What is wrong with a making.
#[derive(Clone, Copy, PartialEq, Eq, Debug)]
pub enum MakingFault {
    TrackKind = 7,
    LineKind = 8,
    RunningTime = 9,
    // The tray's size, or the space for it or for a printer's lists.
    Space = 10,
    MessageWaiting = 11,
}

// Why a call is refused.
#[derive(Clone, Copy, PartialEq, Eq, Debug)]
pub enum CallFault {
    // A field is out of bounds, or unused and not 0.
    Field = 12,
    // The minute is before the cabinet's clock.
    Clock = 13,
    // The call is not for a one-way track.
    OneWay = 14,
    // The call is not for this working.
    Working = 15,
    PaperInHand = 16,
    // No paper in hand, no ask heard, or nothing to release.
    NothingThere = 17,
    // The paper at that end of the tray is not the one named.
    NotThatPaper = 18,
    OwnPaperLive = 19,
    // Set back of a dead-working paper that carries no number.
    NoNumberCarried = 20,
    NoRight = 21,
    TrainsOut = 22,
    // An acceptance is held, or the one needed is not.
    Acceptance = 23,
    Nature = 24,
    Interval = 25,
    NumbersUsedUp = 26,
    TrayFull = 27,
    Line = 28,
}

// A fault with its byte place, which is 0 outside a log.
#[derive(Clone, Copy, PartialEq, Eq, Debug)]
pub enum Fault {
    Log(LogFault, usize),
    Making(MakingFault, usize),
    Call(CallFault, usize),
}

impl Fault {
    pub fn layer(&self) -> Layer
        ensures { result ≡ fault_layer self.now }
    {
        match self {
            Fault::Log(_, _) => Layer::Log,
            Fault::Making(_, _) => Layer::Making,
            Fault::Call(_, _) => Layer::Call,
        }
    }

    // The number by which a refusal is printed.
    pub fn number(&self) -> u8
        ensures { result ≡ fault_number self.now }
    {
        match *self {
            Fault::Log(fault, _) => fault as u8,
            Fault::Making(fault, _) => fault as u8,
            Fault::Call(fault, _) => fault as u8,
        }
    }

    pub fn place(&self) -> usize
        ensures { result ≡ fault_place self.now }
    {
        match *self {
            Fault::Log(_, place) | Fault::Making(_, place) | Fault::Call(_, place) => place,
        }
    }
}

// Outside a log.
impl From<MakingFault> for Fault {
    ghost from_gives = { λ f r. r ≡ of.Making f 0 };

    fn from(fault: MakingFault) -> Fault {
        Fault::Making(fault, 0)
    }
}

// Outside a log.
impl From<CallFault> for Fault {
    ghost from_gives = { λ f r. r ≡ of.Call f 0 };

    fn from(fault: CallFault) -> Fault {
        Fault::Call(fault, 0)
    }
}
