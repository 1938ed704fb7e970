// The three kinds of number, each in a struct of its own, so that no signature takes one for another.

// The number of a paper at its station, 1 to 9,999.
#[derive(Clone, Copy, PartialEq, Eq, PartialOrd, Ord, Debug)]
pub struct Serial(pub u32);

// The number under which an acceptance, a report or a release is entered in the day's record, 1 to 999.
#[derive(Clone, Copy, PartialEq, Eq, PartialOrd, Ord, Debug)]
pub struct RecordNumber(pub u32);

// The number of the right to send, 0 to 1,000,000,000: A has the right when its own is even, B when its own is odd.
#[derive(Clone, Copy, PartialEq, Eq, PartialOrd, Ord, Debug, Default)]
pub struct RightNumber(pub u32);
