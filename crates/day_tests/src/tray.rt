// Refusal 27: a full tray. Only in dead working can a station meet it.
use crate::play::*;
use std::alloc::{AllocError, Global};
use std::test::Fail;
use vocabulary::fields::MakingFields;

// A tray of 1.
const ONE_PAPER: [Row; 14] = [
    (DROP_LINE, A, 0, 0, 0, 0, Ok(0)),
    (DEAD, A, 0, 0, 0, 0, Ok(0)),
    (ISSUE, A, 0, 41, 0, 0, Ok(1)),
    // a cancelled paper leaves its place
    (CANCEL, A, 0, 0, 0, 0, Ok(1)),
    (ISSUE, A, 0, 41, 0, 0, Ok(2)),
    (DEPART, A, 0, 0, 0, 0, Ok(2)),
    (ISSUE, A, 15, 43, 0, 0, Err(27)),
    (ISSUE, A, 15, 43, 0, 1, Err(27)),
    (ARRIVE, B, 12, 2, 0, 0, Ok(1)),
    (ISSUE, A, 15, 43, 0, 1, Ok(3)),
    (DEPART, A, 15, 0, 0, 0, Ok(3)),
    // so does one set back
    (SET_BACK, A, 16, 3, 0, 0, Ok(3)),
    (ISSUE, A, 30, 43, 0, 0, Ok(4)),
    (DEPART, A, 30, 0, 0, 0, Ok(4)),
];

// A tray of 2, full by two papers of B, which got the right by an acceptance.
const TWO_PAPERS: [Row; 17] = [
    (ASK, B, 0, 42, 0, 0, Ok(1)),
    (HEAR, A, 0, 0, 0, 0, Ok(1)),
    (ACCEPT, A, 0, 0, 0, 0, Ok(1)),
    (HEAR, B, 0, 0, 0, 0, Ok(2)),
    (DROP_LINE, A, 0, 0, 0, 0, Ok(0)),
    (DEAD, B, 0, 0, 0, 0, Ok(0)),
    (ISSUE, B, 0, 42, 0, 0, Ok(1)),
    (DEPART, B, 0, 0, 0, 0, Ok(1)),
    (ISSUE, B, 15, 44, 0, 0, Ok(2)),
    // 16 comes before 27
    (ISSUE, B, 30, 46, 0, 0, Err(16)),
    (DEPART, B, 15, 0, 0, 0, Ok(2)),
    (ISSUE, B, 30, 46, 0, 0, Err(27)),
    // the tray is the section's: A, dead too, lacks the right before it meets the full tray
    (DEAD, A, 30, 0, 0, 0, Ok(0)),
    (ISSUE, A, 30, 41, 0, 0, Err(21)),
    (ARRIVE, A, 30, 1, 0, 0, Ok(1)),
    (ISSUE, B, 30, 46, 0, 0, Ok(3)),
    (CANCEL, B, 30, 0, 0, 0, Ok(3)),
];

// The 64 papers depart at 0, 15, 30 and so on to 945; the interval is over at 960.
const AFTER_64: [Row; 10] = [
    (ISSUE, A, 959, 41, 0, 0, Err(25)),
    (ISSUE, A, 960, 41, 0, 0, Err(27)),
    (ARRIVE, B, 960, 2, 0, 0, Err(18)),
    (ARRIVE, B, 960, 1, 0, 0, Ok(1)),
    (ISSUE, A, 960, 41, 0, 0, Ok(65)),
    (DEPART, A, 960, 0, 0, 0, Ok(65)),
    (ISSUE, A, 975, 41, 0, 0, Err(27)),
    (ARRIVE, B, 975, 2, 0, 0, Ok(2)),
    (ARRIVE, B, 975, 3, 0, 0, Ok(3)),
    (ISSUE, A, 975, 41, 0, 0, Ok(66)),
];

#[test]
fn full_trays(rt: HostRuntime) -> Result<(), Fail> {
    let heap = rt.alloc();
    let rows = a_train_each_interval(heap)?;
    let days = [
        Day {
            name: "a tray of 1",
            making: MakingFields { tray: 1, ..PHONE },
            rows: &ONE_PAPER,
            end: [1, 4, 1, 1, 0, 0, 0, 0, 1],
        },
        Day {
            name: "a tray of 2",
            making: MakingFields { tray: 2, ..PHONE },
            rows: &TWO_PAPERS,
            end: [1, 0, 0, 0, 1, 3, 1, 0, 0],
        },
        Day {
            name: "a tray of 64",
            making: MakingFields { tray: 64, ..PHONE },
            rows: rows.as_slice(),
            end: [63, 66, 0, 0, 0, 0, 0, 0, 3],
        },
    ];
    plays_all(&rt, heap, &days)
}

// A goes dead and sends 64 trains, an interval of 15 minutes apart; then the rows above.
fn a_train_each_interval(heap: Global) -> Result<Vec<Row>, AllocError> {
    let mut rows: Vec<Row> = Vec::new(heap);
    rows.push((DROP_LINE, A, 0, 0, 0, 0, Ok(0)))?;
    rows.push((DEAD, A, 0, 0, 0, 0, Ok(0)))?;
    let mut minute: u32 = 0;
    // Over the serials themselves: no list has them.
    for serial in 1..65 {
        rows.push((ISSUE, A, minute, 41, 0, 0, Ok(serial)))?;
        rows.push((DEPART, A, minute, 0, 0, 0, Ok(serial)))?;
        minute = minute.wrapping_add(15);
    }
    rows.extend_from_slice(&AFTER_64)?;
    Ok(rows)
}
