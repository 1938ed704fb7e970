// The right to send: refusal 21, releases, what is learnt from messages and papers, acceptances by count, and set back.
use crate::play::*;
use std::test::Fail;

// Refusal 21. A's number is 0 at the making, so A has the right and B has not.
const NO_RIGHT: [Row; 17] = [
    (ISSUE, B, 0, 42, 0, 0, Err(21)),
    (ASK, B, 0, 42, 0, 0, Ok(1)),
    (HEAR, A, 0, 0, 0, 0, Ok(1)),
    // A still has the right, but no acceptance
    (ISSUE, A, 0, 41, 0, 0, Err(23)),
    (ACCEPT, A, 0, 0, 0, 0, Ok(1)),
    // A's number is 1 and B's is 0: the right is on its way, and neither has it
    (ISSUE, A, 0, 41, 0, 0, Err(21)),
    (ISSUE, B, 0, 42, 0, 0, Err(21)),
    (HEAR, B, 0, 0, 0, 0, Ok(2)),
    (ISSUE, B, 0, 42, 0, 0, Ok(1)),
    // the paper carries 2, which is B's number only once it departs
    (CANCEL, B, 0, 0, 0, 0, Ok(1)),
    (ISSUE, B, 0, 42, 0, 0, Err(23)),
    // in dead working too
    (DROP_LINE, A, 0, 0, 0, 0, Ok(0)),
    (DEAD, A, 0, 0, 0, 0, Ok(0)),
    (ISSUE, A, 0, 41, 0, 0, Err(21)),
    (ISSUE, A, 0, 41, 0, 1, Err(21)),
    (DEAD, B, 0, 0, 0, 0, Ok(0)),
    (ISSUE, B, 0, 42, 0, 0, Ok(2)),
];

// Release of an open ask, of an acceptance, and of the right; and an acceptance that the line loses.
const RELEASES: [Row; 58] = [
    // an open ask
    (ASK, A, 0, 41, 0, 0, Ok(1)),
    (HEAR, B, 0, 0, 0, 0, Ok(1)),
    (RELEASE, A, 1, 0, 0, 0, Ok(1)),
    // B has not heard the release yet, and accepts; A has no open ask any more, so it holds nothing
    (ACCEPT, B, 1, 0, 0, 0, Ok(1)),
    (HEAR, B, 1, 0, 0, 0, Ok(4)),
    (HEAR, A, 2, 0, 0, 0, Ok(2)),
    (ISSUE, A, 2, 41, 0, 0, Err(23)),
    (RELEASE, A, 2, 0, 0, 0, Err(17)),
    // an acceptance
    (ASK, A, 3, 41, 0, 0, Ok(2)),
    (HEAR, B, 3, 0, 0, 0, Ok(1)),
    (ACCEPT, B, 3, 0, 0, 0, Ok(2)),
    (HEAR, A, 3, 0, 0, 0, Ok(2)),
    (RELEASE, A, 4, 0, 0, 0, Ok(2)),
    (HEAR, B, 4, 0, 0, 0, Ok(4)),
    (ISSUE, A, 4, 41, 0, 0, Err(23)),
    (RELEASE, A, 4, 0, 0, 0, Err(17)),
    // a release heard empties the ask heard
    (ASK, A, 5, 41, 0, 0, Ok(3)),
    (HEAR, B, 5, 0, 0, 0, Ok(1)),
    (RELEASE, A, 5, 0, 0, 0, Ok(3)),
    (HEAR, B, 6, 0, 0, 0, Ok(4)),
    (ACCEPT, B, 6, 0, 0, 0, Err(17)),
    // the right: A's number becomes 1, then B's, and the release lifts B's to 2
    (ASK, B, 7, 42, 0, 0, Ok(1)),
    (HEAR, A, 7, 0, 0, 0, Ok(1)),
    (ACCEPT, A, 7, 0, 0, 0, Ok(4)),
    (HEAR, B, 7, 0, 0, 0, Ok(2)),
    (ISSUE, A, 8, 41, 0, 0, Err(21)),
    (RELEASE, B, 8, 0, 0, 0, Ok(3)),
    (RELEASE, B, 8, 0, 0, 0, Err(17)),
    (ISSUE, B, 8, 42, 0, 0, Err(21)),
    (ISSUE, A, 8, 41, 0, 0, Err(21)),
    (HEAR, A, 9, 0, 0, 0, Ok(4)),
    (ISSUE, A, 9, 41, 0, 0, Err(23)),
    // A accepts once more, its number becomes 3, and the telephone loses the acceptance
    (ASK, B, 10, 44, 0, 0, Ok(2)),
    (HEAR, A, 10, 0, 0, 0, Ok(1)),
    (ACCEPT, A, 10, 0, 0, 0, Ok(5)),
    (DROP_LINE, A, 0, 0, 0, 0, Ok(0)),
    (MEND_LINE, A, 0, 0, 0, 0, Ok(0)),
    (HEAR, B, 10, 0, 0, 0, Ok(0)),
    (ISSUE, A, 10, 41, 0, 0, Err(21)),
    (ISSUE, B, 10, 44, 0, 0, Err(21)),
    // B releases its open ask. Its number is 2, which lifts nothing here and teaches A nothing
    (RELEASE, B, 10, 0, 0, 0, Ok(4)),
    (HEAR, A, 11, 0, 0, 0, Ok(4)),
    (ISSUE, A, 11, 41, 0, 0, Err(21)),
    // A's next ask brings B the number 3, and so the right
    (ASK, A, 12, 41, 0, 0, Ok(4)),
    (HEAR, B, 12, 0, 0, 0, Ok(1)),
    // B has neither an open ask nor an acceptance, but the right: its number becomes 4, and the ask heard stays
    (RELEASE, B, 12, 0, 0, 0, Ok(5)),
    (RELEASE, B, 12, 0, 0, 0, Err(17)),
    (HEAR, A, 13, 0, 0, 0, Ok(4)),
    (ACCEPT, B, 13, 0, 0, 0, Ok(6)),
    // the fourth ask is still open, so this acceptance is taken
    (HEAR, A, 13, 0, 0, 0, Ok(2)),
    (ISSUE, A, 14, 41, 0, 0, Ok(1)),
    (DEPART, A, 14, 0, 0, 0, Ok(1)),
    (ARRIVE, B, 26, 1, 0, 0, Ok(1)),
    (REPORT, B, 26, 0, 0, 0, Ok(7)),
    (HEAR, A, 27, 0, 0, 0, Ok(3)),
    (REPORT, A, 27, 0, 0, 0, Ok(6)),
    (HEAR, B, 27, 0, 0, 0, Ok(3)),
    (HEAR, B, 27, 0, 0, 0, Ok(0)),
];

// A higher number says that all papers gone were handed in; no report is needed then.
const LEARNT: [Row; 15] = [
    (DROP_LINE, A, 0, 0, 0, 0, Ok(0)),
    (DEAD, A, 0, 0, 0, 0, Ok(0)),
    // the pass carries 1, which is A's number at the departure
    (ISSUE, A, 0, 41, 0, 1, Ok(1)),
    (DEPART, A, 0, 0, 0, 0, Ok(1)),
    (MEND_LINE, A, 0, 0, 0, 0, Ok(0)),
    (RESUME, A, 1, 0, 0, 0, Ok(0)),
    (ASK, A, 1, 43, 0, 0, Err(22)),
    (ISSUE, A, 1, 43, 0, 0, Err(21)),
    // B learns 1 from the paper, and gives the right back as 2
    (ARRIVE, B, 12, 1, 0, 0, Ok(1)),
    (RELEASE, B, 12, 0, 0, 0, Ok(1)),
    (ASK, A, 12, 43, 0, 0, Err(22)),
    (HEAR, A, 13, 0, 0, 0, Ok(4)),
    (ASK, A, 13, 43, 0, 0, Ok(1)),
    (ISSUE, A, 13, 43, 0, 0, Err(23)),
    (RELEASE, B, 13, 0, 0, 0, Err(17)),
];

// An acceptance is matched by its count: that of the first ask for train 5 does not serve the second.
const BY_COUNT: [Row; 19] = [
    (ASK, A, 0, 5, 0, 0, Ok(1)),
    (HEAR, B, 0, 0, 0, 0, Ok(1)),
    (ACCEPT, B, 0, 0, 0, 0, Ok(1)),
    // A asks once more before it hears, for the same train
    (ASK, A, 1, 5, 0, 0, Ok(2)),
    (HEAR, A, 1, 0, 0, 0, Ok(2)),
    (ISSUE, A, 1, 5, 0, 0, Err(23)),
    // nothing is held, so a further ask is not barred; it is for another train
    (HEAR, B, 1, 0, 0, 0, Ok(1)),
    (ACCEPT, B, 1, 0, 0, 0, Ok(2)),
    (ASK, A, 2, 7, 0, 0, Ok(3)),
    (HEAR, A, 2, 0, 0, 0, Ok(2)),
    (ISSUE, A, 2, 5, 0, 0, Err(23)),
    (ISSUE, A, 2, 7, 0, 0, Err(23)),
    (HEAR, B, 2, 0, 0, 0, Ok(1)),
    (ACCEPT, B, 2, 0, 0, 0, Ok(3)),
    (HEAR, A, 3, 0, 0, 0, Ok(2)),
    (ISSUE, A, 3, 5, 0, 0, Err(23)),
    (ASK, A, 3, 5, 0, 0, Err(23)),
    (ISSUE, A, 3, 7, 0, 0, Ok(1)),
    (CANCEL, A, 3, 0, 0, 0, Ok(1)),
];

// An acceptance of an older ask is not held, but its right number is learnt all the same.
const OLD_BUT_TEACHES: [Row; 12] = [
    (ASK, B, 0, 42, 0, 0, Ok(1)),
    (HEAR, A, 0, 0, 0, 0, Ok(1)),
    // A's number becomes 1
    (ACCEPT, A, 0, 0, 0, 0, Ok(1)),
    (ASK, B, 1, 44, 0, 0, Ok(2)),
    (ISSUE, B, 1, 42, 0, 0, Err(21)),
    (HEAR, B, 1, 0, 0, 0, Ok(2)),
    // 23 and not 21: the right is here
    (ISSUE, B, 1, 42, 0, 0, Err(23)),
    (HEAR, A, 1, 0, 0, 0, Ok(1)),
    // the right is not here, so this acceptance lifts nothing
    (ACCEPT, A, 1, 0, 0, 0, Ok(2)),
    (HEAR, B, 2, 0, 0, 0, Ok(2)),
    (ISSUE, B, 2, 44, 0, 0, Ok(1)),
    (DEPART, B, 2, 0, 0, 0, Ok(1)),
];

// Accepting empties the open ask too: both stations ask, A accepts, and B's acceptance then comes too late.
const BOTH_ASK: [Row; 14] = [
    (ASK, A, 0, 41, 0, 0, Ok(1)),
    (ASK, B, 0, 42, 0, 0, Ok(1)),
    (HEAR, A, 0, 0, 0, 0, Ok(1)),
    (HEAR, B, 0, 0, 0, 0, Ok(1)),
    // A's number becomes 1, and its ask is no longer open
    (ACCEPT, A, 1, 0, 0, 0, Ok(1)),
    // B has not heard that; its own ask is no longer open either
    (ACCEPT, B, 1, 0, 0, 0, Ok(1)),
    (HEAR, A, 2, 0, 0, 0, Ok(2)),
    // B learns 1, but holds nothing
    (HEAR, B, 2, 0, 0, 0, Ok(2)),
    (ISSUE, A, 2, 41, 0, 0, Err(21)),
    (ISSUE, B, 2, 42, 0, 0, Err(23)),
    (RELEASE, A, 2, 0, 0, 0, Err(17)),
    // B has the right
    (RELEASE, B, 2, 0, 0, 0, Ok(2)),
    (HEAR, A, 3, 0, 0, 0, Ok(4)),
    (ISSUE, A, 3, 41, 0, 0, Err(23)),
];

// Set back of tickets. A's carries no number; B's does, and brings the right back.
const SET_BACK_TICKETS: [Row; 31] = [
    (ASK, A, 0, 41, 0, 0, Ok(1)),
    (HEAR, B, 0, 0, 0, 0, Ok(1)),
    (ACCEPT, B, 0, 0, 0, 0, Ok(1)),
    (HEAR, A, 0, 0, 0, 0, Ok(2)),
    (ISSUE, A, 0, 41, 0, 0, Ok(1)),
    (DEPART, A, 1, 0, 0, 0, Ok(1)),
    (SET_BACK, A, 5, 1, 0, 0, Ok(1)),
    // no train is out any more, and the acceptance is used up
    (ISSUE, A, 5, 41, 0, 0, Err(23)),
    (SET_BACK, A, 5, 1, 0, 0, Err(18)),
    (ARRIVE, B, 5, 1, 0, 0, Err(18)),
    (ASK, B, 6, 42, 0, 0, Ok(1)),
    (HEAR, A, 6, 0, 0, 0, Ok(1)),
    (ACCEPT, A, 6, 0, 0, 0, Ok(1)),
    (HEAR, B, 6, 0, 0, 0, Ok(2)),
    (ISSUE, B, 6, 42, 0, 0, Ok(1)),
    (DEPART, B, 7, 0, 0, 0, Ok(1)),
    // B's number is 2: the right is on its way to A with the train
    (ISSUE, B, 8, 44, 0, 0, Err(21)),
    (RELEASE, B, 8, 0, 0, 0, Err(17)),
    (SET_BACK, B, 9, 1, 0, 0, Ok(1)),
    // B's number is 1 again
    (ISSUE, B, 9, 42, 0, 0, Err(23)),
    (ISSUE, A, 9, 41, 0, 0, Err(21)),
    (ASK, B, 9, 42, 0, 0, Ok(2)),
    (HEAR, A, 9, 0, 0, 0, Ok(1)),
    (ACCEPT, A, 9, 0, 0, 0, Ok(2)),
    (HEAR, B, 9, 0, 0, 0, Ok(2)),
    (ISSUE, B, 9, 42, 0, 0, Ok(2)),
    // the ticket of telephone working is set back in dead working too
    (DEPART, B, 10, 0, 0, 0, Ok(2)),
    (DROP_LINE, A, 0, 0, 0, 0, Ok(0)),
    (DEAD, B, 10, 0, 0, 0, Ok(0)),
    (SET_BACK, B, 12, 2, 0, 0, Ok(2)),
    // B has the right again, and its last departure, though set back, was at 10
    (ISSUE, B, 24, 42, 0, 0, Err(25)),
];

const THE_RIGHT_TO_SEND: [Day; 7] = [
    Day {
        name: "issue without the right",
        making: PHONE,
        rows: &NO_RIGHT,
        end: [1, 0, 0, 0, 0, 2, 1, 0, 0],
    },
    Day {
        name: "releases and a lost acceptance",
        making: PHONE,
        rows: &RELEASES,
        end: [0, 1, 0, 0, 0, 0, 0, 0, 1],
    },
    Day {
        name: "a higher number tells of arrivals",
        making: PHONE,
        rows: &LEARNT,
        end: [0, 1, 0, 0, 0, 0, 0, 0, 1],
    },
    Day {
        name: "acceptances are matched by count",
        making: PHONE,
        rows: &BY_COUNT,
        end: [0, 1, 1, 0, 0, 0, 0, 0, 0],
    },
    Day {
        name: "an old acceptance teaches its number",
        making: PHONE,
        rows: &OLD_BUT_TEACHES,
        end: [1, 0, 0, 0, 0, 1, 0, 0, 0],
    },
    Day {
        name: "both stations ask",
        making: PHONE,
        rows: &BOTH_ASK,
        end: [0, 0, 0, 0, 0, 0, 0, 0, 0],
    },
    Day {
        name: "tickets set back",
        making: PHONE,
        rows: &SET_BACK_TICKETS,
        end: [0, 1, 0, 1, 0, 2, 0, 2, 0],
    },
];

#[test]
fn the_right_to_send(rt: HostRuntime) -> Result<(), Fail> {
    plays_all(&rt, rt.alloc(), &THE_RIGHT_TO_SEND)
}
