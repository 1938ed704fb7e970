// What the stations say to each other.
use vocabulary::number::{RecordNumber, RightNumber};

// The kinds of message, by their numbers.
#[derive(Clone, Copy, PartialEq, Eq, Debug)]
pub enum MessageKind {
    Ask = 1,
    Acceptance = 2,
    Report = 3,
    Release = 4,
}

// A message. A field that its kind does not use is 0: whoever posts writes all of them, and a line looks at none.
#[derive(Clone, Copy, PartialEq, Eq, Debug)]
pub struct Message {
    pub kind: MessageKind,
    pub train: u32,
    // The count of the ask that is made or answered.
    pub count: u32,
    pub record: RecordNumber,
    pub right: RightNumber,
    // How many papers were handed in at the sender.
    pub taken: u32,
}

// What the space of a printer holds at first: nothing reads it.
pub const NO_MESSAGE: Message = Message {
    kind: MessageKind::Ask,
    train: 0,
    count: 0,
    record: RecordNumber(0),
    right: RightNumber(0),
    taken: 0,
};
