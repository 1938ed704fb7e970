// Which refusal a call gets when two tests bar it: the lower number. Each row names the other numbers that apply as well.
//
// Of the neighbouring tests of each call these pairs are tried (12 before 13 in fields.rt, those with record numbers in records.rt):
//
// - ask: 12-13, 13-14, 14-15, 15-16, 16-22; and 22-28, 23-28.
// - accept: 12-13, 13-14, 14-15, 15-16, 16-17, 17-22, 23-26, 26-28; and 22-28, 23-28.
// - issue: 12-13, 13-14, 14-15, 15-16, 21-22, 22-23, 24-25; and 16-22, 21-24, 25-27, 16-27.
// - depart, cancel: 12-13, 13-17.
// - arrive: 12-13, 13-18, 18-19.
// - set back: 12-13, 13-16, 16-18, 18-20.
// - report: 12-13, 13-26, 26-28.
// - release: 12-13, 13-14, 14-15, 15-16, 16-17, 17-22, 22-26, 26-28.
// - hear: 12-13.
// - declare dead, resume: 12-13, 13-15, 15-28.
//
// No log can produce these:
//
// - ask, accept 22-23: an issue empties the acceptance and the open ask, and with a train out there is no new ask, so no acceptance.
// - ask 23-26, 26-28, and issue 25-26, 26-27: 26 cannot be met by these calls.
// - issue 16-21: a station with a paper in hand had the right at its issue and keeps it until the paper departs; the other lacks it and can teach no higher number.
// - issue 23-24: the one is for telephone working, the other for dead working.
use crate::play::*;
use std::test::Fail;
use vocabulary::fields::MakingFields;

// 13 before 14, 14 before 15.
const ON_ONE_WAY: [Row; 11] = [
    (HEAR, A, 5, 0, 0, 0, Ok(0)),
    // 14
    (ASK, A, 4, 41, 0, 0, Err(13)),
    // 14, 17
    (ACCEPT, A, 4, 0, 0, 0, Err(13)),
    (RELEASE, A, 4, 0, 0, 0, Err(13)),
    // 14, 15
    (ISSUE, A, 4, 41, 0, 1, Err(13)),
    // 15
    (ISSUE, A, 5, 41, 0, 1, Err(14)),
    (DROP_LINE, A, 0, 0, 0, 0, Ok(0)),
    (DEAD, A, 5, 0, 0, 0, Ok(0)),
    // 15, 28
    (ASK, A, 5, 41, 0, 0, Err(14)),
    // 15, 17, 28
    (ACCEPT, A, 5, 0, 0, 0, Err(14)),
    (RELEASE, A, 5, 0, 0, 0, Err(14)),
];

// 13 before 15, 16, 17 and 18; 15 before 16 and 28; 16 before 17, 18 and 28.
const WITH_A_PAPER_IN_HAND: [Row; 26] = [
    (DROP_LINE, A, 0, 0, 0, 0, Ok(0)),
    (DEAD, A, 5, 0, 0, 0, Ok(0)),
    (ISSUE, A, 5, 41, 0, 0, Ok(1)),
    // 16, 28
    (ASK, A, 5, 43, 0, 0, Err(15)),
    // 16, 17, 28
    (ACCEPT, A, 5, 0, 0, 0, Err(15)),
    (RELEASE, A, 5, 0, 0, 0, Err(15)),
    // 15
    (DEAD, A, 4, 0, 0, 0, Err(13)),
    // 16, 18, 20
    (SET_BACK, A, 4, 1, 0, 0, Err(13)),
    // 18, 20: it has not departed, and is a permit that carries no number
    (SET_BACK, A, 5, 1, 0, 0, Err(16)),
    (MEND_LINE, A, 0, 0, 0, 0, Ok(0)),
    // 28
    (DEAD, A, 5, 0, 0, 0, Err(15)),
    (RESUME, A, 5, 0, 0, 0, Ok(0)),
    // 16, 23
    (ISSUE, A, 5, 43, 0, 1, Err(15)),
    // 15
    (RESUME, A, 4, 0, 0, 0, Err(13)),
    (DROP_LINE, A, 0, 0, 0, 0, Ok(0)),
    // 28
    (RESUME, A, 5, 0, 0, 0, Err(15)),
    (ASK, A, 5, 43, 0, 0, Err(16)),
    // 17, 28
    (ACCEPT, A, 5, 0, 0, 0, Err(16)),
    (RELEASE, A, 5, 0, 0, 0, Err(16)),
    // 23
    (ISSUE, A, 5, 43, 0, 0, Err(16)),
    (CANCEL, A, 5, 0, 0, 0, Ok(1)),
    // 17
    (DEPART, A, 4, 0, 0, 0, Err(13)),
    (CANCEL, A, 4, 0, 0, 0, Err(13)),
    // 18
    (ARRIVE, A, 4, 1, 0, 0, Err(13)),
    // 28
    (ACCEPT, A, 5, 0, 0, 0, Err(17)),
    (RELEASE, A, 5, 0, 0, 0, Err(17)),
];

// 16 before 22; 17 before 22; 22 before 23 and 28; 18 before 19 and 20.
const WITH_A_TRAIN_OUT: [Row; 25] = [
    (DROP_LINE, A, 0, 0, 0, 0, Ok(0)),
    (DEAD, A, 0, 0, 0, 0, Ok(0)),
    (ISSUE, A, 0, 41, 0, 0, Ok(1)),
    (DEPART, A, 0, 0, 0, 0, Ok(1)),
    // 19: the oldest paper is A's own
    (ARRIVE, A, 0, 1, 0, 0, Err(18)),
    (ARRIVE, A, 0, 2, 0, 0, Err(18)),
    // 20: the youngest paper was issued in dead working and carries no number
    (SET_BACK, A, 0, 2, 0, 0, Err(18)),
    (ISSUE, A, 15, 43, 0, 0, Ok(2)),
    // 18, 20
    (SET_BACK, A, 15, 1, 0, 0, Err(16)),
    (MEND_LINE, A, 0, 0, 0, 0, Ok(0)),
    (RESUME, A, 15, 0, 0, 0, Ok(0)),
    // 22
    (ASK, A, 15, 45, 0, 0, Err(16)),
    // 17, 22
    (ACCEPT, A, 15, 0, 0, 0, Err(16)),
    (RELEASE, A, 15, 0, 0, 0, Err(16)),
    // 22, 23
    (ISSUE, A, 15, 45, 0, 0, Err(16)),
    (CANCEL, A, 15, 0, 0, 0, Ok(2)),
    // 22
    (ACCEPT, A, 15, 0, 0, 0, Err(17)),
    (RELEASE, A, 15, 0, 0, 0, Err(17)),
    // 23
    (ISSUE, A, 15, 45, 0, 0, Err(22)),
    (ASK, B, 15, 42, 0, 0, Ok(1)),
    (HEAR, A, 15, 0, 0, 0, Ok(1)),
    (DROP_LINE, A, 0, 0, 0, 0, Ok(0)),
    // 28
    (ASK, A, 15, 45, 0, 0, Err(22)),
    (ACCEPT, A, 15, 0, 0, 0, Err(22)),
    (ARRIVE, B, 15, 1, 0, 0, Ok(1)),
];

// 21 before 22, 23, 24 and 25; 23 before 28; 22 before 28 for a release.
const WITHOUT_THE_RIGHT: [Row; 29] = [
    // 23
    (ISSUE, B, 0, 44, 0, 0, Err(21)),
    (ASK, B, 0, 42, 0, 0, Ok(1)),
    (HEAR, A, 0, 0, 0, 0, Ok(1)),
    (ACCEPT, A, 0, 0, 0, 0, Ok(1)),
    (HEAR, B, 0, 0, 0, 0, Ok(2)),
    // B holds an acceptance and hears an ask
    (ASK, A, 0, 41, 0, 0, Ok(1)),
    (HEAR, B, 0, 0, 0, 0, Ok(1)),
    (DROP_LINE, A, 0, 0, 0, 0, Ok(0)),
    // 28
    (ASK, B, 0, 44, 0, 0, Err(23)),
    (ACCEPT, B, 0, 0, 0, 0, Err(23)),
    (ISSUE, B, 0, 42, 0, 0, Ok(1)),
    (DEPART, B, 1, 0, 0, 0, Ok(1)),
    // 22, 23: B's number is 2
    (ISSUE, B, 2, 44, 0, 0, Err(21)),
    // 22, 28
    (RELEASE, B, 2, 0, 0, 0, Err(17)),
    (DEAD, B, 2, 0, 0, 0, Ok(0)),
    // 24, 25
    (ISSUE, B, 2, 44, 1, 0, Err(21)),
    // 25
    (ISSUE, B, 2, 44, 0, 0, Err(21)),
    // back with the right, B sends by a permit and is out with the right
    (SET_BACK, B, 3, 1, 0, 0, Ok(1)),
    // 25
    (ISSUE, B, 3, 44, 3, 0, Err(24)),
    (ISSUE, B, 16, 44, 0, 0, Ok(2)),
    (DEPART, B, 16, 0, 0, 0, Ok(2)),
    (MEND_LINE, A, 0, 0, 0, 0, Ok(0)),
    (RESUME, B, 17, 0, 0, 0, Ok(0)),
    (DROP_LINE, A, 0, 0, 0, 0, Ok(0)),
    // 28
    (RELEASE, B, 17, 0, 0, 0, Err(22)),
    // 23
    (ISSUE, B, 17, 46, 0, 0, Err(22)),
    // 20: the youngest paper is a permit that carries no number
    (SET_BACK, B, 17, 1, 0, 0, Err(18)),
    // nothing else
    (SET_BACK, B, 17, 2, 0, 0, Err(20)),
    (ARRIVE, A, 29, 2, 0, 0, Ok(1)),
];

// 24 before 25 and 27, 25 before 27, with a tray of 1.
const WITH_A_FULL_TRAY: [Row; 10] = [
    (DROP_LINE, A, 0, 0, 0, 0, Ok(0)),
    (DEAD, A, 0, 0, 0, 0, Ok(0)),
    (ISSUE, A, 0, 41, 0, 0, Ok(1)),
    // 24, 27
    (ISSUE, A, 0, 43, 1, 0, Err(16)),
    (DEPART, A, 0, 0, 0, 0, Ok(1)),
    // 25, 27
    (ISSUE, A, 14, 43, 1, 0, Err(24)),
    // 27
    (ISSUE, A, 14, 43, 0, 0, Err(25)),
    (ISSUE, A, 15, 43, 4, 0, Err(24)),
    // nothing else
    (ISSUE, A, 15, 43, 0, 0, Err(27)),
    // 23, 27: B is in telephone working
    (ISSUE, B, 15, 42, 1, 0, Err(21)),
];

const THE_LOWER_REFUSAL_FIRST: [Day; 5] = [
    Day {
        name: "order on a one-way track",
        making: ONE_WAY_PHONE,
        rows: &ON_ONE_WAY,
        end: [0, 0, 0, 0, 0, 0, 0, 0, 0],
    },
    Day {
        name: "order with a paper in hand",
        making: PHONE,
        rows: &WITH_A_PAPER_IN_HAND,
        end: [0, 1, 1, 0, 0, 0, 0, 0, 0],
    },
    Day {
        name: "order with a train out",
        making: PHONE,
        rows: &WITH_A_TRAIN_OUT,
        end: [0, 2, 1, 0, 0, 0, 0, 0, 1],
    },
    Day {
        name: "order without the right",
        making: PHONE,
        rows: &WITHOUT_THE_RIGHT,
        end: [0, 0, 0, 0, 1, 2, 0, 1, 0],
    },
    Day {
        name: "order with a full tray",
        making: MakingFields { tray: 1, ..PHONE },
        rows: &WITH_A_FULL_TRAY,
        end: [1, 1, 0, 0, 0, 0, 0, 0, 0],
    },
];

#[test]
fn the_lower_refusal_first(rt: HostRuntime) -> Result<(), Fail> {
    plays_all(&rt, rt.alloc(), &THE_LOWER_REFUSAL_FIRST)
}
