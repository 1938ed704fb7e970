// Refusals 12 and 13: fields out of bounds, unused fields that are not 0, and minutes before the clock.
use crate::play::*;
use std::test::Fail;

// Refusal 12. Nothing of all this is carried out, so that at the end the line is still up and the first record number is 1.
const BAD_FIELDS: [Row; 82] = [
    // no such call
    (0, A, 0, 0, 0, 0, Err(12)),
    (15, A, 0, 0, 0, 0, Err(12)),
    (255, A, 0, 0, 0, 0, Err(12)),
    // ask: station, minute, train 0, train too large, nature and pass unused
    (ASK, 2, 0, 41, 0, 0, Err(12)),
    (ASK, A, 1_000_000_001, 41, 0, 0, Err(12)),
    (ASK, A, 0, 0, 0, 0, Err(12)),
    (ASK, A, 0, 100_000, 0, 0, Err(12)),
    (ASK, A, 0, 41, 1, 0, Err(12)),
    (ASK, A, 0, 41, 0, 1, Err(12)),
    // accept: the number is unused too
    (ACCEPT, 2, 0, 0, 0, 0, Err(12)),
    (ACCEPT, B, 1_000_000_001, 0, 0, 0, Err(12)),
    (ACCEPT, B, 0, 1, 0, 0, Err(12)),
    (ACCEPT, B, 0, 0, 1, 0, Err(12)),
    (ACCEPT, B, 0, 0, 0, 1, Err(12)),
    // issue: nature up to 4, pass up to 1
    (ISSUE, 2, 0, 41, 0, 0, Err(12)),
    (ISSUE, A, 1_000_000_001, 41, 0, 0, Err(12)),
    (ISSUE, A, 0, 0, 0, 0, Err(12)),
    (ISSUE, A, 0, 100_000, 0, 0, Err(12)),
    (ISSUE, A, 0, 41, 5, 0, Err(12)),
    (ISSUE, A, 0, 41, 0, 2, Err(12)),
    (ISSUE, A, 0, 41, 255, 255, Err(12)),
    (DEPART, 2, 0, 0, 0, 0, Err(12)),
    (DEPART, A, 1_000_000_001, 0, 0, 0, Err(12)),
    (DEPART, A, 0, 1, 0, 0, Err(12)),
    (DEPART, A, 0, 0, 1, 0, Err(12)),
    (DEPART, A, 0, 0, 0, 1, Err(12)),
    (CANCEL, 2, 0, 0, 0, 0, Err(12)),
    (CANCEL, A, 1_000_000_001, 0, 0, 0, Err(12)),
    (CANCEL, A, 0, 1, 0, 0, Err(12)),
    (CANCEL, A, 0, 0, 1, 0, Err(12)),
    (CANCEL, A, 0, 0, 0, 1, Err(12)),
    // arrive and set back: a serial is 1 to 9,999
    (ARRIVE, 2, 0, 1, 0, 0, Err(12)),
    (ARRIVE, B, 1_000_000_001, 1, 0, 0, Err(12)),
    (ARRIVE, B, 0, 0, 0, 0, Err(12)),
    (ARRIVE, B, 0, 10_000, 0, 0, Err(12)),
    (ARRIVE, B, 0, 1, 1, 0, Err(12)),
    (ARRIVE, B, 0, 1, 0, 1, Err(12)),
    (SET_BACK, 2, 0, 1, 0, 0, Err(12)),
    (SET_BACK, A, 1_000_000_001, 1, 0, 0, Err(12)),
    (SET_BACK, A, 0, 0, 0, 0, Err(12)),
    (SET_BACK, A, 0, 10_000, 0, 0, Err(12)),
    (SET_BACK, A, 0, 1, 1, 0, Err(12)),
    (SET_BACK, A, 0, 1, 0, 1, Err(12)),
    (REPORT, 2, 0, 0, 0, 0, Err(12)),
    (REPORT, A, 1_000_000_001, 0, 0, 0, Err(12)),
    (REPORT, A, 0, 1, 0, 0, Err(12)),
    (REPORT, A, 0, 0, 1, 0, Err(12)),
    (REPORT, A, 0, 0, 0, 1, Err(12)),
    (RELEASE, 2, 0, 0, 0, 0, Err(12)),
    (RELEASE, A, 1_000_000_001, 0, 0, 0, Err(12)),
    (RELEASE, A, 0, 1, 0, 0, Err(12)),
    (RELEASE, A, 0, 0, 1, 0, Err(12)),
    (RELEASE, A, 0, 0, 0, 1, Err(12)),
    (HEAR, 2, 0, 0, 0, 0, Err(12)),
    (HEAR, A, 1_000_000_001, 0, 0, 0, Err(12)),
    (HEAR, A, 0, 1, 0, 0, Err(12)),
    (HEAR, A, 0, 0, 1, 0, Err(12)),
    (HEAR, A, 0, 0, 0, 1, Err(12)),
    (DEAD, 2, 0, 0, 0, 0, Err(12)),
    (DEAD, A, 1_000_000_001, 0, 0, 0, Err(12)),
    (DEAD, A, 0, 1, 0, 0, Err(12)),
    (DEAD, A, 0, 0, 1, 0, Err(12)),
    (DEAD, A, 0, 0, 0, 1, Err(12)),
    (RESUME, 2, 0, 0, 0, 0, Err(12)),
    (RESUME, A, 1_000_000_001, 0, 0, 0, Err(12)),
    (RESUME, A, 0, 1, 0, 0, Err(12)),
    (RESUME, A, 0, 0, 1, 0, Err(12)),
    (RESUME, A, 0, 0, 0, 1, Err(12)),
    // drop and mend use no other field, the station neither
    (DROP_LINE, B, 0, 0, 0, 0, Err(12)),
    (DROP_LINE, A, 1, 0, 0, 0, Err(12)),
    (DROP_LINE, A, 0, 1, 0, 0, Err(12)),
    (DROP_LINE, A, 0, 0, 1, 0, Err(12)),
    (DROP_LINE, A, 0, 0, 0, 1, Err(12)),
    (MEND_LINE, B, 0, 0, 0, 0, Err(12)),
    (MEND_LINE, A, 1, 0, 0, 0, Err(12)),
    (MEND_LINE, A, 0, 1, 0, 0, Err(12)),
    (MEND_LINE, A, 0, 0, 1, 0, Err(12)),
    (MEND_LINE, A, 0, 0, 0, 1, Err(12)),
    // every field as large as it can be
    (255, 255, 4_294_967_295, 4_294_967_295, 255, 255, Err(12)),
    (ISSUE, 255, 4_294_967_295, 4_294_967_295, 255, 255, Err(12)),
    (REPORT, A, 0, 0, 0, 0, Ok(1)),
    (HEAR, B, 0, 0, 0, 0, Ok(3)),
];

// The largest values that are still sound.
const LARGEST_FIELDS: [Row; 12] = [
    (ASK, A, 0, 99_999, 0, 0, Ok(1)),
    (HEAR, B, 1_000_000_000, 0, 0, 0, Ok(1)),
    (ACCEPT, B, 1_000_000_000, 0, 0, 0, Ok(1)),
    (HEAR, A, 0, 0, 0, 0, Ok(2)),
    // in telephone working a train of any nature may be sent
    (ISSUE, A, 0, 99_999, 4, 0, Ok(1)),
    (DEPART, A, 1_000_000_000, 0, 0, 0, Ok(1)),
    // a serial within its bounds, but not this paper's
    (ARRIVE, B, 1_000_000_000, 9_999, 0, 0, Err(18)),
    (ARRIVE, B, 1_000_000_000, 1, 0, 0, Ok(1)),
    (SET_BACK, A, 1_000_000_000, 9_999, 0, 0, Err(18)),
    // the day is 694,444 for both record numbers
    (REPORT, B, 1_000_000_000, 0, 0, 0, Ok(2)),
    (HEAR, A, 1_000_000_000, 0, 0, 0, Ok(3)),
    (ASK, A, 1_000_000_000, 1, 0, 0, Ok(2)),
];

// Refusal 13, by each cabinet's own clock. Most of these calls are barred by later tests too.
const EARLY_MINUTES: [Row; 32] = [
    (HEAR, A, 5, 0, 0, 0, Ok(0)),
    (ASK, A, 4, 41, 0, 0, Err(13)),
    // 17 as well
    (ACCEPT, A, 4, 0, 0, 0, Err(13)),
    // 23 as well
    (ISSUE, A, 4, 41, 0, 0, Err(13)),
    // 15, 23 as well
    (ISSUE, A, 4, 41, 0, 1, Err(13)),
    // 17 as well
    (DEPART, A, 4, 0, 0, 0, Err(13)),
    (CANCEL, A, 4, 0, 0, 0, Err(13)),
    // 18 as well
    (ARRIVE, A, 4, 1, 0, 0, Err(13)),
    (SET_BACK, A, 4, 1, 0, 0, Err(13)),
    // nothing else
    (REPORT, A, 4, 0, 0, 0, Err(13)),
    // 17 as well
    (RELEASE, A, 4, 0, 0, 0, Err(13)),
    // nothing else
    (HEAR, A, 4, 0, 0, 0, Err(13)),
    // 28 as well
    (DEAD, A, 4, 0, 0, 0, Err(13)),
    // 15 as well
    (RESUME, A, 4, 0, 0, 0, Err(13)),
    // the clock of B is another one
    (HEAR, B, 3, 0, 0, 0, Ok(0)),
    (ASK, B, 2, 42, 0, 0, Err(13)),
    (ACCEPT, B, 2, 0, 0, 0, Err(13)),
    (ISSUE, B, 2, 42, 0, 0, Err(13)),
    (DEPART, B, 2, 0, 0, 0, Err(13)),
    (CANCEL, B, 2, 0, 0, 0, Err(13)),
    (ARRIVE, B, 2, 1, 0, 0, Err(13)),
    (SET_BACK, B, 2, 1, 0, 0, Err(13)),
    (REPORT, B, 2, 0, 0, 0, Err(13)),
    (RELEASE, B, 2, 0, 0, 0, Err(13)),
    (HEAR, B, 2, 0, 0, 0, Err(13)),
    (DEAD, B, 2, 0, 0, 0, Err(13)),
    (RESUME, B, 2, 0, 0, 0, Err(13)),
    // a refused call does not set the clock, nor does one on the line; the same minute again is no earlier one
    (ISSUE, A, 9, 41, 0, 0, Err(23)),
    (DROP_LINE, A, 0, 0, 0, 0, Ok(0)),
    (HEAR, A, 5, 0, 0, 0, Ok(0)),
    (MEND_LINE, A, 0, 0, 0, 0, Ok(0)),
    (HEAR, A, 5, 0, 0, 0, Ok(0)),
];

// 12 before 13, for each call that has a clock.
const EARLY_AND_BAD: [Row; 13] = [
    (HEAR, A, 5, 0, 0, 0, Ok(0)),
    (ASK, A, 4, 0, 0, 0, Err(12)),
    (ACCEPT, A, 4, 1, 0, 0, Err(12)),
    (ISSUE, A, 4, 41, 5, 0, Err(12)),
    (DEPART, A, 4, 1, 0, 0, Err(12)),
    (CANCEL, A, 4, 0, 1, 0, Err(12)),
    (ARRIVE, A, 4, 10_000, 0, 0, Err(12)),
    (SET_BACK, A, 4, 0, 0, 0, Err(12)),
    (REPORT, A, 4, 0, 0, 1, Err(12)),
    (RELEASE, A, 4, 1, 0, 0, Err(12)),
    (HEAR, A, 4, 1, 0, 0, Err(12)),
    (DEAD, A, 4, 1, 0, 0, Err(12)),
    (RESUME, A, 4, 1, 0, 0, Err(12)),
];

// 13 with nothing else in the way: a minute later, most of these calls are carried out.
const EARLY_ALONE: [Row; 22] = [
    (ASK, B, 5, 42, 0, 0, Ok(1)),
    (HEAR, A, 5, 0, 0, 0, Ok(1)),
    (ACCEPT, A, 4, 0, 0, 0, Err(13)),
    (ACCEPT, A, 5, 0, 0, 0, Ok(1)),
    (HEAR, B, 5, 0, 0, 0, Ok(2)),
    (ISSUE, B, 4, 42, 0, 0, Err(13)),
    // B has the right
    (RELEASE, B, 4, 0, 0, 0, Err(13)),
    (ISSUE, B, 5, 42, 0, 0, Ok(1)),
    (DEPART, B, 4, 0, 0, 0, Err(13)),
    (CANCEL, B, 4, 0, 0, 0, Err(13)),
    (DEPART, B, 6, 0, 0, 0, Ok(1)),
    (SET_BACK, B, 5, 1, 0, 0, Err(13)),
    (REPORT, B, 5, 0, 0, 0, Err(13)),
    // A's clock is at 5, whatever B's is
    (ARRIVE, A, 4, 1, 0, 0, Err(13)),
    (ARRIVE, A, 18, 1, 0, 0, Ok(1)),
    (HEAR, A, 17, 0, 0, 0, Err(13)),
    (DROP_LINE, A, 0, 0, 0, 0, Ok(0)),
    (DEAD, A, 17, 0, 0, 0, Err(13)),
    (DEAD, A, 18, 0, 0, 0, Ok(0)),
    (MEND_LINE, A, 0, 0, 0, 0, Ok(0)),
    (RESUME, A, 17, 0, 0, 0, Err(13)),
    (RESUME, A, 18, 0, 0, 0, Ok(0)),
];

const FIELDS_AND_MINUTES: [Day; 5] = [
    Day {
        name: "fields out of bounds",
        making: PHONE,
        rows: &BAD_FIELDS,
        end: [0, 0, 0, 0, 0, 0, 0, 0, 0],
    },
    Day {
        name: "fields at their bounds",
        making: PHONE,
        rows: &LARGEST_FIELDS,
        end: [0, 1, 0, 0, 0, 0, 0, 0, 1],
    },
    Day {
        name: "minutes before the clock",
        making: PHONE,
        rows: &EARLY_MINUTES,
        end: [0, 0, 0, 0, 0, 0, 0, 0, 0],
    },
    Day {
        name: "bad fields before the clock",
        making: PHONE,
        rows: &EARLY_AND_BAD,
        end: [0, 0, 0, 0, 0, 0, 0, 0, 0],
    },
    Day {
        name: "the clock alone",
        making: PHONE,
        rows: &EARLY_ALONE,
        end: [0, 0, 0, 0, 1, 1, 0, 0, 0],
    },
];

#[test]
fn fields_and_minutes(rt: HostRuntime) -> Result<(), Fail> {
    plays_all(&rt, rt.alloc(), &FIELDS_AND_MINUTES)
}
