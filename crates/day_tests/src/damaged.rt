// Logs and makings that are refused as a whole, and logs of other shapes.
use crate::play::*;
use day::{DayError, run_day};
use std::alloc::{AllocError, Global};
use std::process::Abort;
use std::test::Fail;

// A making's track, line, running time and tray, and the number and the place of the fault that refuses it; two zeros where it is sound.
type MakingRow = (u8, u8, u8, u8, (u8, usize));

const MAKINGS: [MakingRow; 20] = [
    (2, 0, 12, 4, (7, 4)),
    (255, 0, 12, 4, (7, 4)),
    (0, 2, 12, 4, (8, 4)),
    (1, 255, 12, 4, (8, 4)),
    (0, 0, 0, 4, (9, 4)),
    (0, 1, 241, 4, (9, 4)),
    (1, 0, 255, 4, (9, 4)),
    (0, 0, 12, 0, (10, 4)),
    (0, 1, 12, 65, (10, 4)),
    (1, 1, 12, 255, (10, 4)),
    // 7 before 8
    (2, 2, 12, 4, (7, 4)),
    // 7 before all
    (2, 2, 0, 0, (7, 4)),
    // 8 before 9
    (0, 2, 0, 4, (8, 4)),
    // 8 before 10
    (0, 2, 12, 0, (8, 4)),
    // 9 before 10
    (0, 0, 0, 0, (9, 4)),
    (1, 1, 241, 65, (9, 4)),
    // sound, at their bounds
    (0, 0, 1, 1, (0, 0)),
    (0, 1, 240, 64, (0, 0)),
    (1, 0, 240, 1, (0, 0)),
    (1, 1, 1, 64, (0, 0)),
];

// A making with a tray of 0, and a call behind it.
const NO_TRAY_AND_A_CALL: [u8; 23] = [
    2, 1, 0, 4, 2, 0, 12, 0, 0, 12, 0, 10, 0, 0, 0, 0, 0, 0, 0, 0, 0, 0, 0,
];

#[test]
fn damaged_logs_and_makings(rt: HostRuntime) -> Result<(), Fail> {
    let heap = rt.alloc();
    refuses(&rt, heap, "empty", &[], (1, 0));
    refuses(&rt, heap, "no entry", &[0], (1, 0));
    refuses(&rt, heap, "an entry too many", &[33, 1, 0, 4], (1, 0));
    refuses(&rt, heap, "no contents", &[1], (2, 1));
    refuses(
        &rt,
        heap,
        "cut in the contents",
        &[2, 1, 0, 4, 2, 0],
        (2, 6),
    );
    refuses(&rt, heap, "calls first", &[1, 2, 0, 4, 0, 0, 12, 4], (3, 1));
    refuses(
        &rt,
        heap,
        "a second making",
        &[2, 1, 0, 4, 1, 0, 4, 0, 0, 12, 4, 0, 0, 12, 4],
        (3, 4),
    );
    refuses(
        &rt,
        heap,
        "a making of five bytes",
        &[1, 1, 0, 5, 0, 0, 12, 4, 0],
        (4, 1),
    );
    refuses(
        &rt,
        heap,
        "a call of one byte",
        &[2, 1, 0, 4, 2, 0, 1, 0, 0, 12, 4, 10],
        (4, 4),
    );
    refuses(
        &rt,
        heap,
        "a byte too short",
        &[1, 1, 0, 4, 0, 0, 12],
        (5, 7),
    );
    refuses(
        &rt,
        heap,
        "a byte too long",
        &[1, 1, 0, 4, 0, 0, 12, 4, 0],
        (5, 9),
    );
    refuses(
        &rt,
        heap,
        "the log before the making",
        &[1, 1, 0, 4, 2, 2, 0, 0, 0],
        (5, 9),
    );
    let long = vec![in heap; 1; 65_537]?;
    refuses(&rt, heap, "a log too long", long.as_slice(), (1, 0));
    refuses(
        &rt,
        heap,
        "a making refused with calls behind",
        &NO_TRAY_AND_A_CALL,
        (10, 7),
    );
    makings_answer(&rt, heap, &MAKINGS);
    Ok(())
}

// Each making as a log of one entry, so that it stands at byte 4.
fn makings_answer(rt: &impl Abort, heap: Global, rows: &[MakingRow]) {
    for row in rows {
        let (track, line, running_time, tray, fault) = *row;
        let log = [1, 1, 0, 4, track, line, running_time, tray];
        assert_eq!(rt;
            fault_of(heap, &log),
            fault,
            "the making {track}, {line}, {running_time}, {tray}"
        );
    }
}

fn refuses(rt: &impl Abort, heap: Global, name: &str, log: &[u8], fault: (u8, usize)) {
    assert_eq!(rt; fault_of(heap, log), fault, "{}", name);
}

// The number and the place of the fault that refuses a log; two zeros where it is replayed.
fn fault_of(heap: Global, log: &[u8]) -> (u8, usize) {
    match run_day(heap, log) {
        Ok(_) => (0, 0),
        Err(DayError::Refused(fault)) => (fault.number(), fault.place()),
        Err(DayError::Memory) => (255, 0),
    }
}

#[test]
fn a_log_of_a_making_alone(rt: HostRuntime) -> Result<(), Fail> {
    let day = replayed(rt.alloc(), &[1, 1, 0, 4, 1, 1, 240, 64])?;
    assert_eq!(rt; day.made.track as u8, 1);
    assert_eq!(rt; day.made.running_time, 240);
    assert_eq!(rt; day.made.tray, 64);
    assert_eq!(rt; day.turns.len(), 0);
    ends_with(&rt, "a making alone", &day, [0, 0, 0, 0, 0, 0, 0, 0, 0]);
    Ok(())
}

// Four entries: a making, a report by A, no call, and a hearing by B. The calls stand at 17 and 29.
#[test]
fn calls_in_several_bodies(rt: HostRuntime) -> Result<(), Fail> {
    let contents = [4, 1, 0, 4, 2, 0, 12, 2, 0, 0, 2, 0, 12];
    let making = [0, 0, 12, 4];
    let report = [8, 0, 0, 0, 0, 7, 0, 0, 0, 0, 0, 0];
    let hear = [10, 1, 0, 0, 0, 9, 0, 0, 0, 0, 0, 0];
    let mut log = Vec::new(rt.alloc());
    log.extend_from_slice(&contents)?;
    log.extend_from_slice(&making)?;
    log.extend_from_slice(&report)?;
    log.extend_from_slice(&hear)?;
    let day = replayed(rt.alloc(), log.as_slice())?;
    assert_eq!(rt; day.turns.len(), 2);
    let places = [17, 29];
    let answers = [1, 3];
    let minutes = [7, 9];
    for (place, seen) in places.iter().zip(day.turns.iter()) {
        assert_eq!(rt; seen.place, *place);
    }
    for (minute, seen) in minutes.iter().zip(day.turns.iter()) {
        assert_eq!(rt; seen.fields.minute, *minute);
    }
    for (answer, seen) in answers.iter().zip(day.turns.iter()) {
        match seen.answer {
            Ok(number) => assert_eq!(rt; number, *answer),
            Err(_) => return Err(Fail::new("a sound call was refused")),
        }
    }
    Ok(())
}

// As many calls as a log can hold; the last one stands at byte 65,519.
#[test]
fn the_most_calls(rt: HostRuntime) -> Result<(), Fail> {
    let heap = rt.alloc();
    let rows = hearings(heap)?;
    let day = Day {
        name: "the most calls",
        making: PRINTER,
        rows: rows.as_slice(),
        end: [0, 0, 0, 0, 0, 0, 0, 0, 0],
    };
    plays(&rt, heap, &day)
}

// 5,460 hearings by A, a minute apart, with nothing waiting.
fn hearings(heap: Global) -> Result<Vec<Row>, AllocError> {
    let mut rows: Vec<Row> = Vec::new(heap);
    // Over the minutes themselves: no list has them.
    for minute in 0..5_460 {
        rows.push((HEAR, A, minute, 0, 0, 0, Ok(0)))?;
    }
    Ok(rows)
}
