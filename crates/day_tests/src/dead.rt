// Dead working: refusals 20, 24 and 25, passes, and what going dead empties.
use crate::play::*;
use std::test::Fail;
use vocabulary::fields::MakingFields;

// Two trains of A on their way, an interval of 15 minutes apart; the first arrives.
const WORKED: [Row; 7] = [
    (DROP_LINE, A, 0, 0, 0, 0, Ok(0)),
    (DEAD, A, 0, 0, 0, 0, Ok(0)),
    (ISSUE, A, 0, 41, 0, 0, Ok(1)),
    (DEPART, A, 0, 0, 0, 0, Ok(1)),
    (ISSUE, A, 14, 43, 0, 0, Err(25)),
    (ISSUE, A, 15, 43, 0, 0, Ok(2)),
    (ARRIVE, B, 20, 1, 0, 0, Ok(1)),
];

// Minute 0 is a departure like any other, and a cabinet that never sent a train has none to wait for.
const MINUTE_0: [Row; 10] = [
    (DROP_LINE, A, 0, 0, 0, 0, Ok(0)),
    (DEAD, A, 0, 0, 0, 0, Ok(0)),
    (ISSUE, A, 0, 41, 0, 0, Ok(1)),
    (CANCEL, A, 0, 0, 0, 0, Ok(1)),
    (ISSUE, A, 0, 41, 0, 0, Ok(2)),
    (DEPART, A, 0, 0, 0, 0, Ok(2)),
    (ISSUE, A, 0, 43, 0, 0, Err(25)),
    (ISSUE, A, 1, 43, 0, 0, Err(25)),
    (ISSUE, A, 14, 43, 0, 0, Err(25)),
    (ISSUE, A, 15, 43, 0, 0, Ok(3)),
];

// Refusals 24 and 25.
const NATURES: [Row; 17] = [
    (DROP_LINE, A, 0, 0, 0, 0, Ok(0)),
    (DEAD, A, 0, 0, 0, 0, Ok(0)),
    (ISSUE, A, 0, 41, 1, 0, Err(24)),
    (ISSUE, A, 0, 41, 3, 0, Err(24)),
    (ISSUE, A, 0, 41, 4, 0, Err(24)),
    // a rescue train may be sent, and waits for the interval like any other
    (ISSUE, A, 0, 41, 2, 0, Ok(1)),
    (DEPART, A, 0, 0, 0, 0, Ok(1)),
    (ISSUE, A, 14, 43, 2, 0, Err(25)),
    (ISSUE, A, 14, 43, 0, 0, Err(25)),
    (ISSUE, A, 14, 43, 0, 1, Err(25)),
    (ISSUE, A, 15, 43, 2, 0, Ok(2)),
    // the interval runs from the departure, not from the issue
    (DEPART, A, 20, 0, 0, 0, Ok(2)),
    (ISSUE, A, 34, 45, 0, 0, Err(25)),
    (ISSUE, A, 35, 45, 0, 0, Ok(3)),
    // a cancelled paper is no departure
    (CANCEL, A, 40, 0, 0, 0, Ok(3)),
    (ISSUE, A, 40, 45, 0, 0, Ok(4)),
    (ISSUE, B, 40, 42, 1, 0, Err(21)),
];

// The interval is m + 3, and 13 at least: 13 minutes for a running time of 1 and of 10.
const AFTER_13: [Row; 7] = [
    (DROP_LINE, A, 0, 0, 0, 0, Ok(0)),
    (DEAD, A, 0, 0, 0, 0, Ok(0)),
    (ISSUE, A, 7, 41, 0, 0, Ok(1)),
    (DEPART, A, 7, 0, 0, 0, Ok(1)),
    (ISSUE, A, 7, 43, 0, 0, Err(25)),
    (ISSUE, A, 19, 43, 0, 0, Err(25)),
    (ISSUE, A, 20, 43, 0, 0, Ok(2)),
];

// 14 minutes for a running time of 11.
const AFTER_14: [Row; 6] = [
    (DROP_LINE, A, 0, 0, 0, 0, Ok(0)),
    (DEAD, A, 0, 0, 0, 0, Ok(0)),
    (ISSUE, A, 7, 41, 0, 0, Ok(1)),
    (DEPART, A, 7, 0, 0, 0, Ok(1)),
    (ISSUE, A, 20, 43, 0, 0, Err(25)),
    (ISSUE, A, 21, 43, 0, 0, Ok(2)),
];

// 243 minutes for a running time of 240.
const AFTER_243: [Row; 6] = [
    (DROP_LINE, A, 0, 0, 0, 0, Ok(0)),
    (DEAD, A, 0, 0, 0, 0, Ok(0)),
    (ISSUE, A, 7, 41, 0, 0, Ok(1)),
    (DEPART, A, 7, 0, 0, 0, Ok(1)),
    (ISSUE, A, 249, 43, 0, 0, Err(25)),
    (ISSUE, A, 250, 43, 0, 0, Ok(2)),
];

// The latest minute: there is no later one to wait for.
const LAST_MINUTE: [Row; 6] = [
    (DROP_LINE, A, 0, 0, 0, 0, Ok(0)),
    (DEAD, A, 0, 0, 0, 0, Ok(0)),
    (ISSUE, A, 1_000_000_000, 41, 0, 0, Ok(1)),
    (DEPART, A, 1_000_000_000, 0, 0, 0, Ok(1)),
    (ISSUE, A, 1_000_000_000, 43, 0, 0, Err(25)),
    (ISSUE, A, 1_000_000_015, 43, 0, 0, Err(12)),
];

// A departure in telephone working counts for the interval in dead working; the other station's departures do not.
const INTERVAL_ACROSS: [Row; 19] = [
    (ASK, A, 0, 41, 0, 0, Ok(1)),
    (HEAR, B, 0, 0, 0, 0, Ok(1)),
    (ACCEPT, B, 0, 0, 0, 0, Ok(1)),
    (HEAR, A, 0, 0, 0, 0, Ok(2)),
    (ISSUE, A, 0, 41, 0, 0, Ok(1)),
    (DEPART, A, 10, 0, 0, 0, Ok(1)),
    (DROP_LINE, A, 0, 0, 0, 0, Ok(0)),
    (DEAD, A, 11, 0, 0, 0, Ok(0)),
    // in dead working trains out do not bar an issue, but the interval does
    (ISSUE, A, 24, 43, 0, 1, Err(25)),
    (ISSUE, A, 25, 43, 0, 1, Ok(2)),
    (DEPART, A, 26, 0, 0, 0, Ok(2)),
    (ARRIVE, B, 26, 1, 0, 0, Ok(1)),
    (ARRIVE, B, 27, 2, 0, 0, Ok(2)),
    // B has the right by the pass, and sent no train before; it waits for none
    (DEAD, B, 27, 0, 0, 0, Ok(0)),
    (ISSUE, B, 27, 42, 0, 0, Ok(1)),
    (DEPART, B, 27, 0, 0, 0, Ok(1)),
    (ISSUE, B, 41, 44, 0, 0, Err(25)),
    (ISSUE, B, 42, 44, 0, 0, Ok(2)),
    (ISSUE, A, 42, 45, 0, 0, Err(21)),
];

// Passes carry the right both ways while nothing comes through.
const PASSES: [Row; 31] = [
    (DROP_LINE, A, 0, 0, 0, 0, Ok(0)),
    (DEAD, A, 100, 0, 0, 0, Ok(0)),
    (DEAD, B, 100, 0, 0, 0, Ok(0)),
    (ISSUE, B, 100, 42, 0, 1, Err(21)),
    (ISSUE, A, 100, 41, 0, 0, Ok(1)),
    (DEPART, A, 100, 0, 0, 0, Ok(1)),
    // the second train takes the right along, as number 1
    (ISSUE, A, 115, 43, 0, 1, Ok(2)),
    (DEPART, A, 116, 0, 0, 0, Ok(2)),
    (ISSUE, A, 140, 45, 0, 0, Err(21)),
    (ISSUE, A, 140, 45, 0, 1, Err(21)),
    // the first paper teaches B nothing
    (ARRIVE, B, 113, 1, 0, 0, Ok(1)),
    (ISSUE, B, 114, 42, 0, 1, Err(21)),
    (ARRIVE, B, 128, 2, 0, 0, Ok(2)),
    // now B sends, with a pass again, which carries 2
    (ISSUE, B, 128, 42, 0, 1, Ok(1)),
    (ISSUE, B, 128, 44, 0, 1, Err(16)),
    (DEPART, B, 129, 0, 0, 0, Ok(1)),
    (ISSUE, B, 145, 44, 0, 0, Err(21)),
    // A learns 2 from the paper, and with it that both its trains arrived
    (ARRIVE, A, 141, 1, 0, 0, Ok(1)),
    (MEND_LINE, A, 0, 0, 0, 0, Ok(0)),
    (RESUME, A, 141, 0, 0, 0, Ok(0)),
    (ASK, A, 141, 45, 0, 0, Ok(1)),
    (DROP_LINE, A, 0, 0, 0, 0, Ok(0)),
    (DEAD, A, 142, 0, 0, 0, Ok(0)),
    (ISSUE, A, 142, 45, 0, 0, Ok(3)),
    (DEPART, A, 142, 0, 0, 0, Ok(3)),
    (MEND_LINE, A, 0, 0, 0, 0, Ok(0)),
    (RESUME, A, 143, 0, 0, 0, Ok(0)),
    (ASK, A, 143, 47, 0, 0, Err(22)),
    (RESUME, B, 143, 0, 0, 0, Ok(0)),
    // B learnt nothing of its own train
    (ASK, B, 143, 44, 0, 0, Err(22)),
    (ARRIVE, B, 154, 3, 0, 0, Ok(3)),
];

// Set back of passes, at A and at B, and refusal 20 for the permit before one.
const SET_BACK_PASSES: [Row; 29] = [
    (DROP_LINE, A, 0, 0, 0, 0, Ok(0)),
    (DEAD, A, 0, 0, 0, 0, Ok(0)),
    (ISSUE, A, 0, 41, 0, 0, Ok(1)),
    (DEPART, A, 0, 0, 0, 0, Ok(1)),
    (ISSUE, A, 15, 43, 0, 1, Ok(2)),
    // a pass that is cancelled leaves the right where it is
    (CANCEL, A, 15, 0, 0, 0, Ok(2)),
    (ISSUE, A, 15, 43, 0, 1, Ok(3)),
    (DEPART, A, 15, 0, 0, 0, Ok(3)),
    (ISSUE, A, 30, 45, 0, 0, Err(21)),
    (SET_BACK, A, 20, 1, 0, 0, Err(18)),
    (SET_BACK, A, 20, 3, 0, 0, Ok(3)),
    // A's number is 0 again; the interval still runs from 15
    (ISSUE, A, 29, 45, 0, 1, Err(25)),
    (ISSUE, A, 30, 45, 0, 1, Ok(4)),
    (SET_BACK, A, 30, 4, 0, 0, Err(16)),
    (CANCEL, A, 30, 0, 0, 0, Ok(4)),
    // the youngest is now the permit, which carries no number
    (SET_BACK, A, 30, 1, 0, 0, Err(20)),
    (ISSUE, A, 31, 45, 0, 1, Ok(5)),
    (DEPART, A, 31, 0, 0, 0, Ok(5)),
    (ARRIVE, B, 31, 1, 0, 0, Ok(1)),
    (ARRIVE, B, 43, 5, 0, 0, Ok(2)),
    (DEAD, B, 43, 0, 0, 0, Ok(0)),
    (ISSUE, B, 43, 42, 0, 1, Ok(1)),
    (DEPART, B, 44, 0, 0, 0, Ok(1)),
    // set back after telephone working is resumed: what counts is what the paper carries
    (MEND_LINE, A, 0, 0, 0, 0, Ok(0)),
    (RESUME, B, 45, 0, 0, 0, Ok(0)),
    (SET_BACK, B, 45, 1, 0, 0, Ok(1)),
    // B has the right, and gives it back; A then knows that its trains arrived
    (RELEASE, B, 45, 0, 0, 0, Ok(1)),
    (HEAR, A, 45, 0, 0, 0, Ok(4)),
    (ISSUE, A, 46, 45, 0, 0, Ok(6)),
];

// Going dead empties the open ask and the ask heard, and keeps the acceptance.
const GOING_DEAD: [Row; 30] = [
    // an acceptance held at A outlasts the dead working
    (ASK, A, 0, 41, 0, 0, Ok(1)),
    (HEAR, B, 0, 0, 0, 0, Ok(1)),
    (ACCEPT, B, 0, 0, 0, 0, Ok(1)),
    (HEAR, A, 0, 0, 0, 0, Ok(2)),
    (DROP_LINE, A, 0, 0, 0, 0, Ok(0)),
    (DEAD, A, 0, 0, 0, 0, Ok(0)),
    (MEND_LINE, A, 0, 0, 0, 0, Ok(0)),
    (RESUME, A, 0, 0, 0, 0, Ok(0)),
    (ISSUE, A, 1, 41, 0, 0, Ok(1)),
    (CANCEL, A, 1, 0, 0, 0, Ok(1)),
    // the ask heard at A does not
    (ASK, B, 1, 42, 0, 0, Ok(1)),
    (HEAR, A, 1, 0, 0, 0, Ok(1)),
    (DROP_LINE, A, 0, 0, 0, 0, Ok(0)),
    (DEAD, A, 2, 0, 0, 0, Ok(0)),
    (MEND_LINE, A, 0, 0, 0, 0, Ok(0)),
    (RESUME, A, 2, 0, 0, 0, Ok(0)),
    (ACCEPT, A, 2, 0, 0, 0, Err(17)),
    // nor does the open ask: what B accepts later is not held
    (ASK, A, 3, 43, 0, 0, Ok(2)),
    (HEAR, B, 3, 0, 0, 0, Ok(1)),
    (DROP_LINE, A, 0, 0, 0, 0, Ok(0)),
    (DEAD, A, 4, 0, 0, 0, Ok(0)),
    (MEND_LINE, A, 0, 0, 0, 0, Ok(0)),
    (RESUME, A, 4, 0, 0, 0, Ok(0)),
    (ACCEPT, B, 4, 0, 0, 0, Ok(2)),
    (HEAR, A, 4, 0, 0, 0, Ok(2)),
    (ISSUE, A, 4, 43, 0, 0, Err(23)),
    (RELEASE, A, 4, 0, 0, 0, Err(17)),
    // B's open ask outlasted it all until B accepted; B never went dead
    (RELEASE, B, 4, 0, 0, 0, Err(17)),
    (HEAR, A, 4, 0, 0, 0, Ok(0)),
    (HEAR, B, 4, 0, 0, 0, Ok(0)),
];

// In dead working a station still hears and reports.
const DEAD_BUT_HEARING: [Row; 14] = [
    (DROP_LINE, A, 0, 0, 0, 0, Ok(0)),
    (DEAD, A, 0, 0, 0, 0, Ok(0)),
    (MEND_LINE, A, 0, 0, 0, 0, Ok(0)),
    (ASK, B, 0, 42, 0, 0, Ok(1)),
    (HEAR, A, 0, 0, 0, 0, Ok(1)),
    (ACCEPT, A, 0, 0, 0, 0, Err(15)),
    (REPORT, A, 0, 0, 0, 0, Ok(1)),
    (HEAR, B, 0, 0, 0, 0, Ok(3)),
    // the ask was heard after A went dead, and is still there
    (RESUME, A, 1, 0, 0, 0, Ok(0)),
    (ACCEPT, A, 1, 0, 0, 0, Ok(2)),
    (HEAR, B, 1, 0, 0, 0, Ok(2)),
    (ISSUE, B, 1, 42, 0, 0, Ok(1)),
    (DEPART, B, 1, 0, 0, 0, Ok(1)),
    (ISSUE, A, 1, 41, 0, 0, Err(21)),
];

// What a paper carries is settled at its issue, whatever the working at its departure.
const CARRIED_AT_THE_ISSUE: [Row; 28] = [
    // B issues in telephone working, so the paper carries 2, and departs in dead working
    (ASK, B, 0, 42, 0, 0, Ok(1)),
    (HEAR, A, 0, 0, 0, 0, Ok(1)),
    (ACCEPT, A, 0, 0, 0, 0, Ok(1)),
    (HEAR, B, 0, 0, 0, 0, Ok(2)),
    (ISSUE, B, 0, 42, 0, 0, Ok(1)),
    (DROP_LINE, A, 0, 0, 0, 0, Ok(0)),
    (DEAD, B, 0, 0, 0, 0, Ok(0)),
    (DEPART, B, 0, 0, 0, 0, Ok(1)),
    (ISSUE, B, 15, 44, 0, 0, Err(21)),
    (ARRIVE, A, 12, 1, 0, 0, Ok(1)),
    // A has the right as number 2; its pass carries 3, and departs in telephone working
    (DEAD, A, 12, 0, 0, 0, Ok(0)),
    (ISSUE, A, 12, 41, 0, 1, Ok(1)),
    (MEND_LINE, A, 0, 0, 0, 0, Ok(0)),
    (RESUME, A, 12, 0, 0, 0, Ok(0)),
    (DEPART, A, 12, 0, 0, 0, Ok(1)),
    (ISSUE, A, 30, 43, 0, 0, Err(21)),
    (ARRIVE, B, 24, 1, 0, 0, Ok(1)),
    // B has the right as number 3; its permit carries none, and departs in telephone working
    (ISSUE, B, 24, 44, 0, 0, Ok(2)),
    (RESUME, B, 24, 0, 0, 0, Ok(0)),
    (DEPART, B, 24, 0, 0, 0, Ok(2)),
    // 22 and not 21: the right is still here
    (ISSUE, B, 24, 46, 0, 0, Err(22)),
    (ARRIVE, A, 36, 2, 0, 0, Ok(2)),
    (ISSUE, A, 36, 43, 0, 0, Err(21)),
    (SET_BACK, B, 36, 2, 0, 0, Err(18)),
    (REPORT, A, 36, 0, 0, 0, Ok(2)),
    (HEAR, B, 36, 0, 0, 0, Ok(3)),
    (RELEASE, B, 36, 0, 0, 0, Ok(1)),
    (HEAR, A, 36, 0, 0, 0, Ok(4)),
];

const NATURES_AND_INTERVALS: [Day; 9] = [
    Day {
        name: "the worked example",
        making: PHONE,
        rows: &WORKED,
        end: [1, 2, 0, 0, 0, 0, 0, 0, 1],
    },
    Day {
        name: "a departure at minute 0",
        making: PHONE,
        rows: &MINUTE_0,
        end: [2, 3, 1, 0, 0, 0, 0, 0, 0],
    },
    Day {
        name: "natures and the interval",
        making: PHONE,
        rows: &NATURES,
        end: [3, 4, 1, 0, 0, 0, 0, 0, 0],
    },
    Day {
        name: "a running time of 1",
        making: MakingFields {
            running_time: 1,
            ..PHONE
        },
        rows: &AFTER_13,
        end: [2, 2, 0, 0, 0, 0, 0, 0, 0],
    },
    Day {
        name: "a running time of 10",
        making: MakingFields {
            running_time: 10,
            ..PHONE
        },
        rows: &AFTER_13,
        end: [2, 2, 0, 0, 0, 0, 0, 0, 0],
    },
    Day {
        name: "a running time of 11",
        making: MakingFields {
            running_time: 11,
            ..PHONE
        },
        rows: &AFTER_14,
        end: [2, 2, 0, 0, 0, 0, 0, 0, 0],
    },
    Day {
        name: "a running time of 240",
        making: MakingFields {
            running_time: 240,
            ..PHONE
        },
        rows: &AFTER_243,
        end: [2, 2, 0, 0, 0, 0, 0, 0, 0],
    },
    Day {
        name: "at the last minute",
        making: PHONE,
        rows: &LAST_MINUTE,
        end: [1, 1, 0, 0, 0, 0, 0, 0, 0],
    },
    Day {
        name: "the interval over both workings",
        making: PHONE,
        rows: &INTERVAL_ACROSS,
        end: [2, 2, 0, 0, 0, 2, 0, 0, 2],
    },
];

#[test]
fn natures_and_intervals(rt: HostRuntime) -> Result<(), Fail> {
    plays_all(&rt, rt.alloc(), &NATURES_AND_INTERVALS)
}

const PASSES_AND_GOING_DEAD: [Day; 5] = [
    Day {
        name: "passes both ways",
        making: PHONE,
        rows: &PASSES,
        end: [0, 3, 0, 0, 1, 1, 0, 0, 3],
    },
    Day {
        name: "passes set back",
        making: PHONE,
        rows: &SET_BACK_PASSES,
        end: [1, 6, 2, 1, 0, 1, 0, 1, 2],
    },
    Day {
        name: "what going dead empties",
        making: PHONE,
        rows: &GOING_DEAD,
        end: [0, 1, 1, 0, 0, 0, 0, 0, 0],
    },
    Day {
        name: "hearing in dead working",
        making: PHONE,
        rows: &DEAD_BUT_HEARING,
        end: [1, 0, 0, 0, 0, 1, 0, 0, 0],
    },
    Day {
        name: "what a paper carries",
        making: PHONE,
        rows: &CARRIED_AT_THE_ISSUE,
        end: [0, 1, 0, 0, 2, 2, 0, 0, 1],
    },
];

#[test]
fn passes_and_going_dead(rt: HostRuntime) -> Result<(), Fail> {
    plays_all(&rt, rt.alloc(), &PASSES_AND_GOING_DEAD)
}
