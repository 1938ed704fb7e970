// Record numbers: one row of them for accept, report and release, from 1 each day, and refusal 26 after 999.
use crate::play::*;
use std::alloc::{AllocError, Global};
use std::test::Fail;

// Day 0 ends with minute 1,439.
const CHANGE_OF_DAY: [Row; 27] = [
    (REPORT, A, 1_438, 0, 0, 0, Ok(1)),
    (HEAR, B, 0, 0, 0, 0, Ok(3)),
    (REPORT, A, 1_439, 0, 0, 0, Ok(2)),
    (HEAR, B, 0, 0, 0, 0, Ok(3)),
    (REPORT, A, 1_440, 0, 0, 0, Ok(1)),
    (HEAR, B, 0, 0, 0, 0, Ok(3)),
    (REPORT, A, 2_879, 0, 0, 0, Ok(2)),
    (HEAR, B, 0, 0, 0, 0, Ok(3)),
    // two days on
    (REPORT, A, 4_320, 0, 0, 0, Ok(1)),
    (HEAR, B, 0, 0, 0, 0, Ok(3)),
    // B counts for itself, and by its own minutes
    (REPORT, B, 1_441, 0, 0, 0, Ok(1)),
    (HEAR, A, 4_320, 0, 0, 0, Ok(3)),
    (ASK, A, 4_320, 41, 0, 0, Ok(1)),
    (HEAR, B, 1_441, 0, 0, 0, Ok(1)),
    (ACCEPT, B, 1_441, 0, 0, 0, Ok(2)),
    (HEAR, A, 4_320, 0, 0, 0, Ok(2)),
    (RELEASE, A, 4_321, 0, 0, 0, Ok(2)),
    (HEAR, B, 2_880, 0, 0, 0, Ok(4)),
    (ASK, B, 2_880, 42, 0, 0, Ok(1)),
    (HEAR, A, 4_321, 0, 0, 0, Ok(1)),
    (ACCEPT, A, 5_760, 0, 0, 0, Ok(1)),
    (HEAR, B, 2_880, 0, 0, 0, Ok(2)),
    // an ask and a hearing on the new day took no record number
    (RELEASE, B, 2_881, 0, 0, 0, Ok(1)),
    (HEAR, A, 5_760, 0, 0, 0, Ok(4)),
    (REPORT, B, 2_881, 0, 0, 0, Ok(2)),
    (HEAR, A, 5_760, 0, 0, 0, Ok(3)),
    (REPORT, A, 7_199, 0, 0, 0, Ok(2)),
];

// After 999 reports by A at minute 0. The numbers in comments apply as well.
const A_USED_UP: [Row; 33] = [
    (REPORT, A, 0, 0, 0, 0, Err(26)),
    (REPORT, A, 1_439, 0, 0, 0, Err(26)),
    // B has its own
    (REPORT, B, 0, 0, 0, 0, Ok(1)),
    (HEAR, A, 1, 0, 0, 0, Ok(3)),
    // 26
    (REPORT, A, 0, 0, 0, 0, Err(13)),
    (ASK, B, 1, 42, 0, 0, Ok(1)),
    (HEAR, A, 1, 0, 0, 0, Ok(1)),
    (ACCEPT, A, 1, 0, 0, 0, Err(26)),
    // an ask takes no record number; it waits for B, so that B's list is full
    (ASK, A, 1, 41, 0, 0, Ok(1)),
    // 28
    (REPORT, A, 1, 0, 0, 0, Err(26)),
    (ACCEPT, A, 1, 0, 0, 0, Err(26)),
    (RELEASE, A, 1, 0, 0, 0, Err(26)),
    (HEAR, B, 1, 0, 0, 0, Ok(1)),
    (RELEASE, A, 1, 0, 0, 0, Err(26)),
    (DROP_LINE, A, 0, 0, 0, 0, Ok(0)),
    // 28
    (REPORT, A, 1, 0, 0, 0, Err(26)),
    (ACCEPT, A, 1, 0, 0, 0, Err(26)),
    (RELEASE, A, 1, 0, 0, 0, Err(26)),
    (MEND_LINE, A, 0, 0, 0, 0, Ok(0)),
    (ACCEPT, B, 1, 0, 0, 0, Ok(2)),
    (HEAR, A, 1, 0, 0, 0, Ok(2)),
    // 26: A holds an acceptance and still has B's ask
    (ACCEPT, A, 1, 0, 0, 0, Err(23)),
    // nothing else
    (RELEASE, A, 1, 0, 0, 0, Err(26)),
    // a paper takes no record number of its own
    (ISSUE, A, 1, 41, 0, 0, Ok(1)),
    (CANCEL, A, 1, 0, 0, 0, Ok(1)),
    (ACCEPT, A, 1, 0, 0, 0, Err(26)),
    // the next day
    (ACCEPT, A, 1_440, 0, 0, 0, Ok(1)),
    // B's accept ended its own ask, so this is not held; but B has the right
    (HEAR, B, 1, 0, 0, 0, Ok(2)),
    (ISSUE, B, 1, 42, 0, 0, Err(23)),
    (REPORT, A, 1_440, 0, 0, 0, Ok(2)),
    (HEAR, B, 1, 0, 0, 0, Ok(3)),
    (RELEASE, B, 1, 0, 0, 0, Ok(3)),
    (HEAR, A, 1_440, 0, 0, 0, Ok(4)),
];

// B gets the right.
const RIGHT_TO_B: [Row; 4] = [
    (ASK, B, 0, 42, 0, 0, Ok(1)),
    (HEAR, A, 0, 0, 0, 0, Ok(1)),
    (ACCEPT, A, 0, 0, 0, 0, Ok(1)),
    (HEAR, B, 0, 0, 0, 0, Ok(2)),
];

// After that and 999 reports by B at minute 0.
const B_USED_UP: [Row; 15] = [
    (RELEASE, B, 0, 0, 0, 0, Err(26)),
    (DROP_LINE, A, 0, 0, 0, 0, Ok(0)),
    (DEAD, B, 0, 0, 0, 0, Ok(0)),
    (ISSUE, B, 0, 42, 0, 0, Ok(1)),
    (DEPART, B, 0, 0, 0, 0, Ok(1)),
    (MEND_LINE, A, 0, 0, 0, 0, Ok(0)),
    (RESUME, B, 0, 0, 0, 0, Ok(0)),
    // 26 as well: B's train is out, and the right still here
    (RELEASE, B, 0, 0, 0, 0, Err(22)),
    (ARRIVE, A, 12, 1, 0, 0, Ok(1)),
    (REPORT, A, 12, 0, 0, 0, Ok(2)),
    (HEAR, B, 12, 0, 0, 0, Ok(3)),
    (RELEASE, B, 12, 0, 0, 0, Err(26)),
    (RELEASE, B, 1_440, 0, 0, 0, Ok(1)),
    (HEAR, A, 12, 0, 0, 0, Ok(4)),
    (RELEASE, B, 1_440, 0, 0, 0, Err(17)),
];

#[test]
fn record_numbers(rt: HostRuntime) -> Result<(), Fail> {
    let heap = rt.alloc();
    let a_used_up = with_reports(heap, &[], (A, B), &A_USED_UP)?;
    let b_used_up = with_reports(heap, &RIGHT_TO_B, (B, A), &B_USED_UP)?;
    let days = [
        Day {
            name: "record numbers each day",
            making: PHONE,
            rows: &CHANGE_OF_DAY,
            end: [0, 0, 0, 0, 0, 0, 0, 0, 0],
        },
        Day {
            name: "after 999 record numbers",
            making: PHONE,
            rows: a_used_up.as_slice(),
            end: [0, 1, 1, 0, 0, 0, 0, 0, 0],
        },
        Day {
            name: "a train out before used up numbers",
            making: PHONE,
            rows: b_used_up.as_slice(),
            end: [0, 0, 0, 0, 1, 1, 0, 0, 0],
        },
    ];
    plays_all(&rt, heap, &days)
}

// The rows before, then 999 reports by one station at minute 0, each heard by the other, since the telephone holds but one; then the rows after.
fn with_reports(
    heap: Global,
    before: &[Row],
    (from, to): (u8, u8),
    after: &[Row],
) -> Result<Vec<Row>, AllocError> {
    let mut rows: Vec<Row> = Vec::new(heap);
    rows.extend_from_slice(before)?;
    // Over the numbers themselves: no list has them.
    for number in 1..1_000 {
        rows.push((REPORT, from, 0, 0, 0, 0, Ok(number)))?;
        rows.push((HEAR, to, 0, 0, 0, 0, Ok(3)))?;
    }
    rows.extend_from_slice(after)?;
    Ok(rows)
}
