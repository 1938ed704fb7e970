// Whole days, over both lines and both kinds of track, and what one lost call does.
use crate::play::*;
use std::test::Fail;

// B asks for train 42; A accepts, and gives away the right. The train is on its way when the telephone drops, and A, gone dead, is refused a permit.
const MORNING: [Row; 9] = [
    (ASK, B, 480, 42, 0, 0, Ok(1)),
    (HEAR, A, 480, 0, 0, 0, Ok(1)),
    (ACCEPT, A, 481, 0, 0, 0, Ok(1)),
    (HEAR, B, 481, 0, 0, 0, Ok(2)),
    (ISSUE, B, 482, 42, 0, 0, Ok(1)),
    (DEPART, B, 483, 0, 0, 0, Ok(1)),
    (DROP_LINE, A, 0, 0, 0, 0, Ok(0)),
    (DEAD, A, 484, 0, 0, 0, Ok(0)),
    // A's number is 1
    (ISSUE, A, 485, 41, 0, 0, Err(21)),
];

// The same log without its first call. No ask waits, so nothing is accepted, B never has the right, and A prints a permit for train 41 against train 42.
const FIRST_CALL_LOST: [Row; 8] = [
    (HEAR, A, 480, 0, 0, 0, Ok(0)),
    (ACCEPT, A, 481, 0, 0, 0, Err(17)),
    (HEAR, B, 481, 0, 0, 0, Ok(0)),
    (ISSUE, B, 482, 42, 0, 0, Err(21)),
    (DEPART, B, 483, 0, 0, 0, Err(17)),
    (DROP_LINE, A, 0, 0, 0, 0, Ok(0)),
    (DEAD, A, 484, 0, 0, 0, Ok(0)),
    (ISSUE, A, 485, 41, 0, 0, Ok(1)),
];

// Five trains by telephone, with crossings and releases. Record numbers: A's 1 to 6, B's 1 to 8.
const BY_TELEPHONE: [Row; 65] = [
    // 41 goes to B
    (ASK, A, 300, 41, 0, 0, Ok(1)),
    (HEAR, B, 300, 0, 0, 0, Ok(1)),
    (ACCEPT, B, 301, 0, 0, 0, Ok(1)),
    (HEAR, A, 301, 0, 0, 0, Ok(2)),
    (ISSUE, A, 302, 41, 0, 0, Ok(1)),
    (DEPART, A, 303, 0, 0, 0, Ok(1)),
    // B asks meanwhile for 42; A accepts once it knows that 41 is in
    (ASK, B, 305, 42, 0, 0, Ok(1)),
    (HEAR, A, 305, 0, 0, 0, Ok(1)),
    (ACCEPT, A, 306, 0, 0, 0, Err(22)),
    (ARRIVE, B, 315, 1, 0, 0, Ok(1)),
    (REPORT, B, 315, 0, 0, 0, Ok(2)),
    (HEAR, A, 316, 0, 0, 0, Ok(3)),
    // the numbers go 0, 1 with this acceptance, and 2 with train 42
    (ACCEPT, A, 316, 0, 0, 0, Ok(1)),
    (HEAR, B, 317, 0, 0, 0, Ok(2)),
    (ISSUE, B, 317, 42, 0, 0, Ok(1)),
    (ISSUE, A, 317, 43, 0, 0, Err(21)),
    (DEPART, B, 318, 0, 0, 0, Ok(1)),
    (ISSUE, B, 319, 44, 0, 0, Err(21)),
    (ARRIVE, A, 330, 1, 0, 0, Ok(1)),
    // A asks for 43. Its number 2 is B's own, so B still takes 42 to be out until A reports
    (ASK, A, 331, 43, 0, 0, Ok(2)),
    (HEAR, B, 331, 0, 0, 0, Ok(1)),
    (ACCEPT, B, 331, 0, 0, 0, Err(22)),
    (REPORT, A, 332, 0, 0, 0, Ok(2)),
    (HEAR, B, 332, 0, 0, 0, Ok(3)),
    (ACCEPT, B, 332, 0, 0, 0, Ok(3)),
    (HEAR, A, 333, 0, 0, 0, Ok(2)),
    (ISSUE, A, 333, 43, 0, 0, Ok(2)),
    (DEPART, A, 334, 0, 0, 0, Ok(2)),
    (ARRIVE, B, 346, 2, 0, 0, Ok(2)),
    (REPORT, B, 346, 0, 0, 0, Ok(4)),
    (HEAR, A, 347, 0, 0, 0, Ok(3)),
    // 45 is accepted, and then gives way to 44
    (ASK, A, 350, 45, 0, 0, Ok(3)),
    (HEAR, B, 350, 0, 0, 0, Ok(1)),
    (ACCEPT, B, 350, 0, 0, 0, Ok(5)),
    (HEAR, A, 351, 0, 0, 0, Ok(2)),
    (ASK, B, 352, 44, 0, 0, Ok(2)),
    (HEAR, A, 352, 0, 0, 0, Ok(1)),
    (ACCEPT, A, 352, 0, 0, 0, Err(23)),
    (RELEASE, A, 353, 0, 0, 0, Ok(3)),
    (HEAR, B, 353, 0, 0, 0, Ok(4)),
    // the ask for 44 is still heard; the number becomes 3, and 4 with train 44
    (ACCEPT, A, 353, 0, 0, 0, Ok(4)),
    (HEAR, B, 354, 0, 0, 0, Ok(2)),
    (ISSUE, B, 354, 44, 0, 0, Ok(2)),
    (DEPART, B, 355, 0, 0, 0, Ok(2)),
    (ARRIVE, A, 367, 2, 0, 0, Ok(2)),
    (REPORT, A, 367, 0, 0, 0, Ok(5)),
    (HEAR, B, 368, 0, 0, 0, Ok(3)),
    // 46 is accepted, with number 5, and does not run: B gives the right back, as 6
    (ASK, B, 370, 46, 0, 0, Ok(3)),
    (HEAR, A, 370, 0, 0, 0, Ok(1)),
    (ACCEPT, A, 370, 0, 0, 0, Ok(6)),
    (HEAR, B, 371, 0, 0, 0, Ok(2)),
    (RELEASE, B, 372, 0, 0, 0, Ok(6)),
    (HEAR, A, 372, 0, 0, 0, Ok(4)),
    (ISSUE, B, 372, 46, 0, 0, Err(21)),
    // 45 at last
    (ASK, A, 373, 45, 0, 0, Ok(4)),
    (HEAR, B, 373, 0, 0, 0, Ok(1)),
    (ACCEPT, B, 373, 0, 0, 0, Ok(7)),
    (HEAR, A, 374, 0, 0, 0, Ok(2)),
    (ISSUE, A, 374, 45, 0, 0, Ok(3)),
    (DEPART, A, 375, 0, 0, 0, Ok(3)),
    (ARRIVE, B, 387, 3, 0, 0, Ok(3)),
    (REPORT, B, 387, 0, 0, 0, Ok(8)),
    (HEAR, A, 388, 0, 0, 0, Ok(3)),
    (HEAR, A, 388, 0, 0, 0, Ok(0)),
    (HEAR, B, 388, 0, 0, 0, Ok(0)),
];

// Two trains by printer, which is down most of the time: what was posted in time still comes.
const BY_PRINTER: [Row; 38] = [
    (ASK, A, 0, 41, 0, 0, Ok(1)),
    (REPORT, A, 0, 0, 0, 0, Ok(1)),
    (DROP_LINE, A, 0, 0, 0, 0, Ok(0)),
    (HEAR, B, 0, 0, 0, 0, Ok(1)),
    (HEAR, B, 0, 0, 0, 0, Ok(3)),
    (MEND_LINE, A, 0, 0, 0, 0, Ok(0)),
    (ACCEPT, B, 0, 0, 0, 0, Ok(1)),
    (REPORT, B, 0, 0, 0, 0, Ok(2)),
    (DROP_LINE, A, 0, 0, 0, 0, Ok(0)),
    // in their order: the acceptance, then the report
    (HEAR, A, 1, 0, 0, 0, Ok(2)),
    (HEAR, A, 1, 0, 0, 0, Ok(3)),
    // an issue wants no line
    (ISSUE, A, 1, 41, 0, 0, Ok(1)),
    (DEPART, A, 2, 0, 0, 0, Ok(1)),
    (ARRIVE, B, 14, 1, 0, 0, Ok(1)),
    (REPORT, B, 14, 0, 0, 0, Err(28)),
    (MEND_LINE, A, 0, 0, 0, 0, Ok(0)),
    (REPORT, B, 14, 0, 0, 0, Ok(3)),
    (ASK, B, 14, 42, 0, 0, Ok(1)),
    (DROP_LINE, A, 0, 0, 0, 0, Ok(0)),
    (DROP_LINE, A, 0, 0, 0, 0, Ok(0)),
    // A goes dead, and hears the report and the ask then
    (DEAD, A, 15, 0, 0, 0, Ok(0)),
    (HEAR, A, 15, 0, 0, 0, Ok(3)),
    (HEAR, A, 15, 0, 0, 0, Ok(1)),
    (HEAR, A, 15, 0, 0, 0, Ok(0)),
    (ACCEPT, A, 15, 0, 0, 0, Err(15)),
    (RESUME, A, 15, 0, 0, 0, Err(28)),
    (MEND_LINE, A, 0, 0, 0, 0, Ok(0)),
    (RESUME, A, 15, 0, 0, 0, Ok(0)),
    (ACCEPT, A, 16, 0, 0, 0, Ok(2)),
    (DROP_LINE, A, 0, 0, 0, 0, Ok(0)),
    (HEAR, B, 17, 0, 0, 0, Ok(2)),
    (ISSUE, B, 17, 42, 0, 0, Ok(1)),
    (DEPART, B, 17, 0, 0, 0, Ok(1)),
    (ARRIVE, A, 29, 1, 0, 0, Ok(1)),
    // A has the right and knows its train in; in telephone working it wants an acceptance
    (ISSUE, A, 29, 43, 0, 0, Err(23)),
    (DEAD, A, 29, 0, 0, 0, Ok(0)),
    (ISSUE, A, 29, 43, 0, 0, Ok(2)),
    (DEPART, A, 29, 0, 0, 0, Ok(2)),
];

// One way, from A to B: no asks, each train waits for the report of the one before.
const ONE_WAY_DAY: [Row; 22] = [
    (ISSUE, A, 480, 41, 0, 0, Ok(1)),
    (ISSUE, A, 480, 43, 0, 0, Err(16)),
    (DEPART, A, 481, 0, 0, 0, Ok(1)),
    (ISSUE, A, 482, 43, 0, 0, Err(22)),
    (ARRIVE, A, 483, 1, 0, 0, Err(18)),
    (ARRIVE, B, 493, 1, 0, 0, Ok(1)),
    // A does not know yet
    (ISSUE, A, 494, 43, 0, 0, Err(22)),
    (REPORT, B, 494, 0, 0, 0, Ok(1)),
    (HEAR, A, 495, 0, 0, 0, Ok(3)),
    (ISSUE, A, 495, 43, 0, 0, Ok(2)),
    (CANCEL, A, 496, 0, 0, 0, Ok(2)),
    // of any nature, in telephone working
    (ISSUE, A, 497, 45, 1, 0, Ok(3)),
    (DEPART, A, 498, 0, 0, 0, Ok(3)),
    (SET_BACK, A, 503, 3, 0, 0, Ok(3)),
    // set back, so not out; and no interval in telephone working
    (ISSUE, A, 504, 47, 0, 0, Ok(4)),
    (DEPART, A, 504, 0, 0, 0, Ok(4)),
    (ARRIVE, B, 516, 3, 0, 0, Err(18)),
    (ARRIVE, B, 516, 4, 0, 0, Ok(2)),
    (ISSUE, B, 517, 42, 0, 0, Err(21)),
    (REPORT, B, 517, 0, 0, 0, Ok(2)),
    (REPORT, A, 517, 0, 0, 0, Ok(1)),
    (HEAR, B, 517, 0, 0, 0, Ok(3)),
];

// One way with the line down: trains follow by the interval, and telephone working waits for all of them.
const ONE_WAY_DEAD: [Row; 27] = [
    (ISSUE, A, 0, 41, 0, 0, Ok(1)),
    (DEPART, A, 0, 0, 0, 0, Ok(1)),
    (DROP_LINE, A, 0, 0, 0, 0, Ok(0)),
    (DEAD, A, 1, 0, 0, 0, Ok(0)),
    (ISSUE, A, 14, 43, 0, 0, Err(25)),
    (ISSUE, A, 15, 43, 3, 0, Err(24)),
    (ISSUE, A, 15, 43, 0, 1, Err(14)),
    (ISSUE, A, 15, 43, 0, 0, Ok(2)),
    (DEPART, A, 16, 0, 0, 0, Ok(2)),
    (ARRIVE, B, 12, 1, 0, 0, Ok(1)),
    (MEND_LINE, A, 0, 0, 0, 0, Ok(0)),
    (REPORT, B, 12, 0, 0, 0, Ok(1)),
    (RESUME, A, 17, 0, 0, 0, Ok(0)),
    (HEAR, A, 17, 0, 0, 0, Ok(3)),
    // one of two trains is in
    (ISSUE, A, 17, 45, 0, 0, Err(22)),
    (SET_BACK, A, 17, 2, 0, 0, Err(20)),
    (ARRIVE, B, 28, 2, 0, 0, Ok(2)),
    (REPORT, B, 28, 0, 0, 0, Ok(2)),
    (DROP_LINE, A, 0, 0, 0, 0, Ok(0)),
    // the printer keeps the report through the drop
    (HEAR, A, 29, 0, 0, 0, Ok(3)),
    (ISSUE, A, 29, 45, 4, 0, Ok(3)),
    // the paper is of telephone working, whatever A does before it departs
    (DEAD, A, 29, 0, 0, 0, Ok(0)),
    (DEPART, A, 29, 0, 0, 0, Ok(3)),
    (SET_BACK, A, 30, 3, 0, 0, Ok(3)),
    (ISSUE, A, 43, 45, 0, 0, Err(25)),
    (ISSUE, A, 44, 45, 0, 0, Ok(4)),
    (ISSUE, B, 44, 42, 0, 0, Err(21)),
];

const WHOLE_DAYS: [Day; 6] = [
    Day {
        name: "the morning",
        making: PHONE,
        rows: &MORNING,
        end: [1, 0, 0, 0, 0, 1, 0, 0, 0],
    },
    Day {
        name: "the morning without its first call",
        making: PHONE,
        rows: &FIRST_CALL_LOST,
        end: [1, 1, 0, 0, 0, 0, 0, 0, 0],
    },
    Day {
        name: "a day by telephone",
        making: PHONE,
        rows: &BY_TELEPHONE,
        end: [0, 3, 0, 0, 2, 2, 0, 0, 3],
    },
    Day {
        name: "a day by printer",
        making: PRINTER,
        rows: &BY_PRINTER,
        end: [1, 2, 0, 0, 1, 1, 0, 0, 1],
    },
    Day {
        name: "a one-way day",
        making: ONE_WAY_PHONE,
        rows: &ONE_WAY_DAY,
        end: [0, 4, 1, 1, 0, 0, 0, 0, 2],
    },
    Day {
        name: "one way in dead working",
        making: ONE_WAY_PRINTER,
        rows: &ONE_WAY_DEAD,
        end: [1, 4, 0, 1, 0, 0, 0, 0, 2],
    },
];

#[test]
fn whole_days(rt: HostRuntime) -> Result<(), Fail> {
    plays_all(&rt, rt.alloc(), &WHOLE_DAYS)
}
