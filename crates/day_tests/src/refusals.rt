// Refusals 14 to 18, 20, 22 and 23, each for every call that can meet it, and what the same call does when nothing bars it.
use crate::play::*;
use std::test::Fail;

// Refusal 14.
const NOT_ONE_WAY: [Row; 21] = [
    (ASK, A, 0, 41, 0, 0, Err(14)),
    (ASK, B, 0, 42, 0, 0, Err(14)),
    (ACCEPT, A, 0, 0, 0, 0, Err(14)),
    (ACCEPT, B, 0, 0, 0, 0, Err(14)),
    (RELEASE, A, 0, 0, 0, 0, Err(14)),
    (RELEASE, B, 0, 0, 0, 0, Err(14)),
    // a pass: in telephone working 15 bars it as well, in dead working nothing else does at A
    (ISSUE, A, 0, 41, 0, 1, Err(14)),
    (ISSUE, B, 0, 42, 0, 1, Err(14)),
    (DROP_LINE, A, 0, 0, 0, 0, Ok(0)),
    (DEAD, A, 0, 0, 0, 0, Ok(0)),
    (DEAD, B, 0, 0, 0, 0, Ok(0)),
    (ASK, B, 0, 42, 0, 0, Err(14)),
    (ACCEPT, B, 0, 0, 0, 0, Err(14)),
    (RELEASE, B, 0, 0, 0, 0, Err(14)),
    (ISSUE, A, 0, 41, 0, 1, Err(14)),
    (ISSUE, B, 0, 42, 0, 1, Err(14)),
    // B never has the right on a one-way track
    (ISSUE, B, 0, 42, 0, 0, Err(21)),
    (ISSUE, A, 0, 41, 0, 0, Ok(1)),
    (DEPART, A, 0, 0, 0, 0, Ok(1)),
    (ARRIVE, B, 12, 1, 0, 0, Ok(1)),
    (ISSUE, B, 12, 42, 0, 0, Err(21)),
];

// Refusal 15, and 28 for declare dead and resume.
const NOT_IN_THIS_WORKING: [Row; 28] = [
    // telephone working, with the line up
    (ISSUE, A, 0, 41, 0, 1, Err(15)),
    (ISSUE, B, 0, 42, 0, 1, Err(15)),
    (RESUME, A, 0, 0, 0, 0, Err(15)),
    (RESUME, B, 0, 0, 0, 0, Err(15)),
    (DEAD, A, 0, 0, 0, 0, Err(28)),
    (DEAD, B, 0, 0, 0, 0, Err(28)),
    (DROP_LINE, A, 0, 0, 0, 0, Ok(0)),
    // a drop of a line that is down is carried out too
    (DROP_LINE, A, 0, 0, 0, 0, Ok(0)),
    (DEAD, A, 0, 0, 0, 0, Ok(0)),
    (DEAD, B, 0, 0, 0, 0, Ok(0)),
    // dead working, with the line down
    (ASK, A, 0, 41, 0, 0, Err(15)),
    (ASK, B, 0, 42, 0, 0, Err(15)),
    (ACCEPT, A, 0, 0, 0, 0, Err(15)),
    (ACCEPT, B, 0, 0, 0, 0, Err(15)),
    (RELEASE, A, 0, 0, 0, 0, Err(15)),
    (RELEASE, B, 0, 0, 0, 0, Err(15)),
    (DEAD, A, 0, 0, 0, 0, Err(15)),
    (DEAD, B, 0, 0, 0, 0, Err(15)),
    (RESUME, A, 0, 0, 0, 0, Err(28)),
    (RESUME, B, 0, 0, 0, 0, Err(28)),
    (MEND_LINE, A, 0, 0, 0, 0, Ok(0)),
    (MEND_LINE, A, 0, 0, 0, 0, Ok(0)),
    (RESUME, A, 0, 0, 0, 0, Ok(0)),
    (RESUME, A, 0, 0, 0, 0, Err(15)),
    // each station has its own working: B is still dead
    (ASK, B, 0, 42, 0, 0, Err(15)),
    (RESUME, B, 0, 0, 0, 0, Ok(0)),
    (ASK, B, 0, 42, 0, 0, Ok(1)),
    (DEAD, B, 0, 0, 0, 0, Err(28)),
];

// 15 with nothing else in the way: a pass for an accepted train, and a release of an acceptance.
const WORKING_ALONE: [Row; 12] = [
    (ASK, A, 0, 41, 0, 0, Ok(1)),
    (HEAR, B, 0, 0, 0, 0, Ok(1)),
    (ACCEPT, B, 0, 0, 0, 0, Ok(1)),
    (HEAR, A, 0, 0, 0, 0, Ok(2)),
    (ISSUE, A, 0, 41, 0, 1, Err(15)),
    (DROP_LINE, A, 0, 0, 0, 0, Ok(0)),
    (DEAD, A, 0, 0, 0, 0, Ok(0)),
    (MEND_LINE, A, 0, 0, 0, 0, Ok(0)),
    // the line is up again, and the acceptance still held
    (RELEASE, A, 0, 0, 0, 0, Err(15)),
    (RESUME, A, 0, 0, 0, 0, Ok(0)),
    (RELEASE, A, 0, 0, 0, 0, Ok(1)),
    (HEAR, B, 0, 0, 0, 0, Ok(4)),
];

// Refusal 16, at A and then at B. Only a paper of the station that calls counts.
const PAPER_IN_HAND: [Row; 28] = [
    (ASK, A, 480, 41, 0, 0, Ok(1)),
    (HEAR, B, 480, 0, 0, 0, Ok(1)),
    (ACCEPT, B, 480, 0, 0, 0, Ok(1)),
    (HEAR, A, 480, 0, 0, 0, Ok(2)),
    (ISSUE, A, 481, 41, 0, 0, Ok(1)),
    (ASK, A, 481, 43, 0, 0, Err(16)),
    (ISSUE, A, 481, 43, 0, 0, Err(16)),
    (SET_BACK, A, 481, 1, 0, 0, Err(16)),
    (RELEASE, A, 481, 0, 0, 0, Err(16)),
    // the paper in hand at A does not bar B
    (ASK, B, 481, 42, 0, 0, Ok(1)),
    (HEAR, A, 482, 0, 0, 0, Ok(1)),
    // an ask is heard, so that 16 alone bars this
    (ACCEPT, A, 482, 0, 0, 0, Err(16)),
    (CANCEL, A, 482, 0, 0, 0, Ok(1)),
    // A has the right, so its number becomes 1
    (ACCEPT, A, 482, 0, 0, 0, Ok(1)),
    (HEAR, B, 483, 0, 0, 0, Ok(2)),
    (ISSUE, B, 483, 42, 0, 0, Ok(1)),
    (ASK, B, 483, 44, 0, 0, Err(16)),
    (ACCEPT, B, 483, 0, 0, 0, Err(16)),
    (ISSUE, B, 483, 44, 0, 0, Err(16)),
    (SET_BACK, B, 483, 1, 0, 0, Err(16)),
    // B has the right, so that 16 alone bars this
    (RELEASE, B, 483, 0, 0, 0, Err(16)),
    // not 16: the paper is B's
    (ISSUE, A, 483, 41, 0, 0, Err(21)),
    (SET_BACK, A, 483, 1, 0, 0, Err(18)),
    (CANCEL, B, 484, 0, 0, 0, Ok(1)),
    // the second record number of B, and its right number 2
    (RELEASE, B, 484, 0, 0, 0, Ok(2)),
    (ISSUE, A, 484, 41, 0, 0, Err(21)),
    (HEAR, A, 484, 0, 0, 0, Ok(4)),
    // the right is back, the acceptance was used
    (ISSUE, A, 484, 41, 0, 0, Err(23)),
];

// Refusal 17.
const NOTHING_THERE: [Row; 16] = [
    (DEPART, A, 0, 0, 0, 0, Err(17)),
    (DEPART, B, 0, 0, 0, 0, Err(17)),
    (CANCEL, A, 0, 0, 0, 0, Err(17)),
    (CANCEL, B, 0, 0, 0, 0, Err(17)),
    (ACCEPT, A, 0, 0, 0, 0, Err(17)),
    (ACCEPT, B, 0, 0, 0, 0, Err(17)),
    (RELEASE, A, 0, 0, 0, 0, Err(17)),
    (RELEASE, B, 0, 0, 0, 0, Err(17)),
    (DROP_LINE, A, 0, 0, 0, 0, Ok(0)),
    (DEAD, A, 0, 0, 0, 0, Ok(0)),
    (ISSUE, A, 0, 41, 0, 0, Ok(1)),
    // the paper is in hand at the other station
    (DEPART, B, 0, 0, 0, 0, Err(17)),
    (CANCEL, B, 0, 0, 0, 0, Err(17)),
    (DEPART, A, 1, 0, 0, 0, Ok(1)),
    // it has departed already
    (DEPART, A, 2, 0, 0, 0, Err(17)),
    (CANCEL, A, 2, 0, 0, 0, Err(17)),
];

// Refusals 18 and 20, and that the oldest paper is the one that arrives.
const NOT_THAT_PAPER: [Row; 28] = [
    // an empty tray
    (ARRIVE, A, 0, 1, 0, 0, Err(18)),
    (ARRIVE, B, 0, 1, 0, 0, Err(18)),
    (SET_BACK, A, 0, 1, 0, 0, Err(18)),
    (SET_BACK, B, 0, 1, 0, 0, Err(18)),
    (DROP_LINE, A, 0, 0, 0, 0, Ok(0)),
    (DEAD, A, 0, 0, 0, 0, Ok(0)),
    (ISSUE, A, 0, 41, 0, 0, Ok(1)),
    // it has not departed
    (ARRIVE, B, 0, 1, 0, 0, Err(18)),
    (ARRIVE, A, 0, 1, 0, 0, Err(18)),
    // it is not B's
    (SET_BACK, B, 0, 1, 0, 0, Err(18)),
    (DEPART, A, 0, 0, 0, 0, Ok(1)),
    (SET_BACK, B, 0, 1, 0, 0, Err(18)),
    // another serial
    (ARRIVE, B, 0, 2, 0, 0, Err(18)),
    (SET_BACK, A, 0, 2, 0, 0, Err(18)),
    // it was issued in dead working and carries no number
    (SET_BACK, A, 0, 1, 0, 0, Err(20)),
    (ISSUE, A, 15, 43, 0, 0, Ok(2)),
    (DEPART, A, 15, 0, 0, 0, Ok(2)),
    // two trains out: the oldest paper is serial 1, the youngest serial 2
    (ARRIVE, B, 20, 2, 0, 0, Err(18)),
    (SET_BACK, A, 20, 1, 0, 0, Err(18)),
    (SET_BACK, A, 20, 2, 0, 0, Err(20)),
    (ARRIVE, B, 20, 1, 0, 0, Ok(1)),
    // it is closed
    (ARRIVE, B, 20, 1, 0, 0, Err(18)),
    // a set back goes by the working at the issue, not by the working now
    (MEND_LINE, A, 0, 0, 0, 0, Ok(0)),
    (RESUME, A, 20, 0, 0, 0, Ok(0)),
    (SET_BACK, A, 20, 2, 0, 0, Err(20)),
    (ARRIVE, A, 20, 2, 0, 0, Err(18)),
    (ARRIVE, B, 27, 2, 0, 0, Ok(2)),
    (SET_BACK, A, 27, 2, 0, 0, Err(18)),
];

// Refusal 22: for A after a ticket, for B after a permit, with which it keeps the right.
const TRAINS_OUT: [Row; 38] = [
    (ASK, A, 0, 41, 0, 0, Ok(1)),
    (HEAR, B, 0, 0, 0, 0, Ok(1)),
    (ACCEPT, B, 0, 0, 0, 0, Ok(1)),
    (HEAR, A, 0, 0, 0, 0, Ok(2)),
    (ISSUE, A, 0, 41, 0, 0, Ok(1)),
    (DEPART, A, 1, 0, 0, 0, Ok(1)),
    (ASK, A, 2, 43, 0, 0, Err(22)),
    (ISSUE, A, 2, 43, 0, 0, Err(22)),
    // A's train is out, none of B's
    (ASK, B, 2, 42, 0, 0, Ok(1)),
    // its right number 0 is no higher than A's own, so nothing is learnt
    (HEAR, A, 2, 0, 0, 0, Ok(1)),
    (ACCEPT, A, 3, 0, 0, 0, Err(22)),
    (ARRIVE, B, 13, 1, 0, 0, Ok(1)),
    // A does not know of the arrival until it hears the report
    (ACCEPT, A, 13, 0, 0, 0, Err(22)),
    (REPORT, B, 13, 0, 0, 0, Ok(2)),
    (ACCEPT, A, 13, 0, 0, 0, Err(22)),
    (HEAR, A, 13, 0, 0, 0, Ok(3)),
    (ACCEPT, A, 14, 0, 0, 0, Ok(1)),
    (HEAR, B, 14, 0, 0, 0, Ok(2)),
    // in dead working B's paper carries no number, so B keeps the right with its train out
    (DROP_LINE, A, 0, 0, 0, 0, Ok(0)),
    (DEAD, B, 15, 0, 0, 0, Ok(0)),
    (ISSUE, B, 15, 42, 0, 0, Ok(1)),
    (DEPART, B, 15, 0, 0, 0, Ok(1)),
    (MEND_LINE, A, 0, 0, 0, 0, Ok(0)),
    (RESUME, B, 16, 0, 0, 0, Ok(0)),
    (RELEASE, B, 16, 0, 0, 0, Err(22)),
    (ASK, B, 16, 44, 0, 0, Err(22)),
    (ISSUE, B, 16, 44, 0, 0, Err(22)),
    // A asks too: its train has been reported. B hears, and may not accept yet
    (ASK, A, 17, 43, 0, 0, Ok(2)),
    (HEAR, B, 17, 0, 0, 0, Ok(1)),
    (ACCEPT, B, 17, 0, 0, 0, Err(22)),
    (ARRIVE, A, 27, 1, 0, 0, Ok(1)),
    (REPORT, A, 27, 0, 0, 0, Ok(2)),
    (RELEASE, B, 27, 0, 0, 0, Err(22)),
    (HEAR, B, 28, 0, 0, 0, Ok(3)),
    // the third record number of B; the right is here, so it goes to A with the acceptance
    (ACCEPT, B, 28, 0, 0, 0, Ok(3)),
    (HEAR, A, 28, 0, 0, 0, Ok(2)),
    (ISSUE, A, 28, 43, 0, 0, Ok(2)),
    (ISSUE, B, 28, 44, 0, 0, Err(21)),
];

// Refusal 23.
const ACCEPTANCES: [Row; 17] = [
    (ISSUE, A, 0, 41, 0, 0, Err(23)),
    (ASK, A, 0, 41, 0, 0, Ok(1)),
    // asked is not accepted, and accepted is not heard
    (ISSUE, A, 0, 41, 0, 0, Err(23)),
    (HEAR, B, 0, 0, 0, 0, Ok(1)),
    (ACCEPT, B, 0, 0, 0, 0, Ok(1)),
    (ISSUE, A, 0, 41, 0, 0, Err(23)),
    (HEAR, A, 1, 0, 0, 0, Ok(2)),
    // held for another train
    (ISSUE, A, 1, 43, 0, 0, Err(23)),
    (ASK, A, 1, 43, 0, 0, Err(23)),
    (ASK, B, 1, 42, 0, 0, Ok(1)),
    (HEAR, A, 1, 0, 0, 0, Ok(1)),
    (ACCEPT, A, 1, 0, 0, 0, Err(23)),
    (ISSUE, A, 1, 41, 0, 0, Ok(1)),
    (CANCEL, A, 1, 0, 0, 0, Ok(1)),
    // the issue used the acceptance up; the ask heard is still there
    (ISSUE, A, 2, 41, 0, 0, Err(23)),
    (ACCEPT, A, 2, 0, 0, 0, Ok(1)),
    (ACCEPT, A, 2, 0, 0, 0, Err(17)),
];

const WHAT_BARS_EACH_CALL: [Day; 8] = [
    Day {
        name: "what a one-way track bars",
        making: ONE_WAY_PHONE,
        rows: &NOT_ONE_WAY,
        end: [0, 1, 0, 0, 0, 0, 0, 0, 1],
    },
    Day {
        name: "what each working bars",
        making: PHONE,
        rows: &NOT_IN_THIS_WORKING,
        end: [0, 0, 0, 0, 0, 0, 0, 0, 0],
    },
    Day {
        name: "the working alone",
        making: PHONE,
        rows: &WORKING_ALONE,
        end: [0, 0, 0, 0, 0, 0, 0, 0, 0],
    },
    Day {
        name: "what a paper in hand bars",
        making: PHONE,
        rows: &PAPER_IN_HAND,
        end: [0, 1, 1, 0, 0, 1, 1, 0, 0],
    },
    Day {
        name: "nothing in hand, heard or to release",
        making: PHONE,
        rows: &NOTHING_THERE,
        end: [1, 1, 0, 0, 0, 0, 0, 0, 0],
    },
    Day {
        name: "the paper at that end is another",
        making: PHONE,
        rows: &NOT_THAT_PAPER,
        end: [0, 2, 0, 0, 0, 0, 0, 0, 2],
    },
    Day {
        name: "what trains out bar",
        making: PHONE,
        rows: &TRAINS_OUT,
        end: [1, 2, 0, 0, 1, 1, 0, 0, 1],
    },
    Day {
        name: "acceptances held and wanting",
        making: PHONE,
        rows: &ACCEPTANCES,
        end: [0, 1, 1, 0, 0, 0, 0, 0, 0],
    },
];

#[test]
fn what_bars_each_call(rt: HostRuntime) -> Result<(), Fail> {
    plays_all(&rt, rt.alloc(), &WHAT_BARS_EACH_CALL)
}
