// Both lines: refusal 28, what a drop loses, and what may wait.
use crate::play::*;
use std::test::Fail;

// Refusal 28 over the telephone, which holds one message each way.
const PHONE_REFUSES: [Row; 38] = [
    (HEAR, A, 0, 0, 0, 0, Ok(0)),
    (HEAR, B, 0, 0, 0, 0, Ok(0)),
    // A's ask waits for B: the list is full
    (ASK, A, 0, 41, 0, 0, Ok(1)),
    (ASK, A, 0, 43, 0, 0, Err(28)),
    (REPORT, A, 0, 0, 0, 0, Err(28)),
    (RELEASE, A, 0, 0, 0, 0, Err(28)),
    // the other way is free, until B's report waits there
    (REPORT, B, 0, 0, 0, 0, Ok(1)),
    (REPORT, B, 0, 0, 0, 0, Err(28)),
    (ASK, B, 0, 42, 0, 0, Err(28)),
    (HEAR, B, 0, 0, 0, 0, Ok(1)),
    (ACCEPT, B, 0, 0, 0, 0, Err(28)),
    (HEAR, A, 0, 0, 0, 0, Ok(3)),
    (ACCEPT, B, 0, 0, 0, 0, Ok(2)),
    // a refused ask took no count
    (ASK, A, 0, 43, 0, 0, Ok(2)),
    (HEAR, B, 0, 0, 0, 0, Ok(1)),
    // the line is down, and B's acceptance of the first ask is lost
    (DROP_LINE, A, 0, 0, 0, 0, Ok(0)),
    (HEAR, A, 1, 0, 0, 0, Ok(0)),
    (ASK, A, 1, 45, 0, 0, Err(28)),
    (REPORT, A, 1, 0, 0, 0, Err(28)),
    (RELEASE, A, 1, 0, 0, 0, Err(28)),
    (ACCEPT, B, 1, 0, 0, 0, Err(28)),
    (REPORT, B, 1, 0, 0, 0, Err(28)),
    (DEAD, B, 1, 0, 0, 0, Ok(0)),
    (RESUME, B, 1, 0, 0, 0, Err(28)),
    (MEND_LINE, A, 0, 0, 0, 0, Ok(0)),
    (DEAD, A, 1, 0, 0, 0, Err(28)),
    (RESUME, B, 1, 0, 0, 0, Ok(0)),
    // A's open ask is still the second; B forgot it when it went dead
    (ACCEPT, B, 1, 0, 0, 0, Err(17)),
    (RELEASE, A, 1, 0, 0, 0, Ok(1)),
    (HEAR, B, 1, 0, 0, 0, Ok(4)),
    // B with the right, which it could give back if the line were up
    (ASK, B, 2, 42, 0, 0, Ok(1)),
    (HEAR, A, 2, 0, 0, 0, Ok(1)),
    (ACCEPT, A, 2, 0, 0, 0, Ok(2)),
    (HEAR, B, 2, 0, 0, 0, Ok(2)),
    (DROP_LINE, A, 0, 0, 0, 0, Ok(0)),
    (RELEASE, B, 2, 0, 0, 0, Err(28)),
    // the refusal changed nothing: the acceptance is still held
    (ISSUE, B, 2, 42, 0, 0, Ok(1)),
    (DEPART, B, 3, 0, 0, 0, Ok(1)),
];

// Eight messages wait on the printer, the ninth is refused; a drop loses none, and what waits is heard with the line down.
const PRINTER_FULL: [Row; 50] = [
    (ASK, A, 0, 41, 0, 0, Ok(1)),
    (REPORT, A, 0, 0, 0, 0, Ok(1)),
    (REPORT, A, 0, 0, 0, 0, Ok(2)),
    (REPORT, A, 0, 0, 0, 0, Ok(3)),
    (REPORT, A, 0, 0, 0, 0, Ok(4)),
    (REPORT, A, 0, 0, 0, 0, Ok(5)),
    (REPORT, A, 0, 0, 0, 0, Ok(6)),
    (REPORT, A, 0, 0, 0, 0, Ok(7)),
    (REPORT, A, 0, 0, 0, 0, Err(28)),
    (ASK, A, 0, 43, 0, 0, Err(28)),
    (RELEASE, A, 0, 0, 0, 0, Err(28)),
    // the other way is free
    (REPORT, B, 0, 0, 0, 0, Ok(1)),
    (DROP_LINE, A, 0, 0, 0, 0, Ok(0)),
    (HEAR, B, 1, 0, 0, 0, Ok(1)),
    // seven wait, but the line is down
    (REPORT, A, 1, 0, 0, 0, Err(28)),
    (ACCEPT, B, 1, 0, 0, 0, Err(28)),
    (MEND_LINE, A, 0, 0, 0, 0, Ok(0)),
    (REPORT, A, 1, 0, 0, 0, Ok(8)),
    (REPORT, A, 1, 0, 0, 0, Err(28)),
    (REPORT, B, 1, 0, 0, 0, Ok(2)),
    (REPORT, B, 1, 0, 0, 0, Ok(3)),
    (REPORT, B, 1, 0, 0, 0, Ok(4)),
    (REPORT, B, 1, 0, 0, 0, Ok(5)),
    (REPORT, B, 1, 0, 0, 0, Ok(6)),
    (REPORT, B, 1, 0, 0, 0, Ok(7)),
    (REPORT, B, 1, 0, 0, 0, Ok(8)),
    // eight wait for A
    (ACCEPT, B, 1, 0, 0, 0, Err(28)),
    (HEAR, A, 1, 0, 0, 0, Ok(3)),
    (ACCEPT, B, 1, 0, 0, 0, Ok(9)),
    // all that waits for B: eight reports, and then none
    (HEAR, B, 1, 0, 0, 0, Ok(3)),
    (HEAR, B, 1, 0, 0, 0, Ok(3)),
    (HEAR, B, 1, 0, 0, 0, Ok(3)),
    (HEAR, B, 1, 0, 0, 0, Ok(3)),
    (HEAR, B, 1, 0, 0, 0, Ok(3)),
    (HEAR, B, 1, 0, 0, 0, Ok(3)),
    (HEAR, B, 1, 0, 0, 0, Ok(3)),
    (HEAR, B, 1, 0, 0, 0, Ok(3)),
    (HEAR, B, 1, 0, 0, 0, Ok(0)),
    // the acceptance was posted last, so it comes last
    (HEAR, A, 1, 0, 0, 0, Ok(3)),
    (HEAR, A, 1, 0, 0, 0, Ok(3)),
    (HEAR, A, 1, 0, 0, 0, Ok(3)),
    (HEAR, A, 1, 0, 0, 0, Ok(3)),
    (HEAR, A, 1, 0, 0, 0, Ok(3)),
    (HEAR, A, 1, 0, 0, 0, Ok(3)),
    (HEAR, A, 1, 0, 0, 0, Ok(3)),
    (ISSUE, A, 1, 41, 0, 0, Err(23)),
    (HEAR, A, 1, 0, 0, 0, Ok(2)),
    (HEAR, A, 1, 0, 0, 0, Ok(0)),
    (ISSUE, A, 1, 41, 0, 0, Ok(1)),
    (DEPART, A, 1, 0, 0, 0, Ok(1)),
];

// The same calls over both lines. The telephone's drop loses the ask, and with it the train.
const ASK_LOST: [Row; 9] = [
    (ASK, A, 0, 41, 0, 0, Ok(1)),
    (DROP_LINE, A, 0, 0, 0, 0, Ok(0)),
    (MEND_LINE, A, 0, 0, 0, 0, Ok(0)),
    (HEAR, B, 0, 0, 0, 0, Ok(0)),
    (ACCEPT, B, 0, 0, 0, 0, Err(17)),
    (HEAR, A, 0, 0, 0, 0, Ok(0)),
    (ISSUE, A, 0, 41, 0, 0, Err(23)),
    (DEPART, A, 1, 0, 0, 0, Err(17)),
    (ARRIVE, B, 12, 1, 0, 0, Err(18)),
];

// The printer keeps it.
const ASK_KEPT: [Row; 9] = [
    (ASK, A, 0, 41, 0, 0, Ok(1)),
    (DROP_LINE, A, 0, 0, 0, 0, Ok(0)),
    (MEND_LINE, A, 0, 0, 0, 0, Ok(0)),
    (HEAR, B, 0, 0, 0, 0, Ok(1)),
    (ACCEPT, B, 0, 0, 0, 0, Ok(1)),
    (HEAR, A, 0, 0, 0, 0, Ok(2)),
    (ISSUE, A, 0, 41, 0, 0, Ok(1)),
    (DEPART, A, 1, 0, 0, 0, Ok(1)),
    (ARRIVE, B, 12, 1, 0, 0, Ok(1)),
];

// The telephone's drop empties both lists, a mend none.
const BOTH_LISTS: [Row; 10] = [
    (REPORT, A, 0, 0, 0, 0, Ok(1)),
    (REPORT, B, 0, 0, 0, 0, Ok(1)),
    // the line is up: a mend loses nothing
    (MEND_LINE, A, 0, 0, 0, 0, Ok(0)),
    (HEAR, A, 0, 0, 0, 0, Ok(3)),
    (REPORT, A, 0, 0, 0, 0, Err(28)),
    (REPORT, B, 0, 0, 0, 0, Ok(2)),
    (DROP_LINE, A, 0, 0, 0, 0, Ok(0)),
    (HEAR, A, 0, 0, 0, 0, Ok(0)),
    (HEAR, B, 0, 0, 0, 0, Ok(0)),
    (REPORT, A, 0, 0, 0, 0, Err(28)),
];

const TELEPHONE_AND_PRINTER: [Day; 5] = [
    Day {
        name: "the telephone refuses",
        making: PHONE,
        rows: &PHONE_REFUSES,
        end: [1, 0, 0, 0, 0, 1, 0, 0, 0],
    },
    Day {
        name: "eight wait on the printer",
        making: PRINTER,
        rows: &PRINTER_FULL,
        end: [1, 1, 0, 0, 0, 0, 0, 0, 0],
    },
    Day {
        name: "the telephone loses an ask",
        making: PHONE,
        rows: &ASK_LOST,
        end: [0, 0, 0, 0, 0, 0, 0, 0, 0],
    },
    Day {
        name: "the printer keeps an ask",
        making: PRINTER,
        rows: &ASK_KEPT,
        end: [0, 1, 0, 0, 0, 0, 0, 0, 1],
    },
    Day {
        name: "a drop empties both lists",
        making: PHONE,
        rows: &BOTH_LISTS,
        end: [0, 0, 0, 0, 0, 0, 0, 0, 0],
    },
];

#[test]
fn telephone_and_printer(rt: HostRuntime) -> Result<(), Fail> {
    plays_all(&rt, rt.alloc(), &TELEPHONE_AND_PRINTER)
}
