// How a table of calls is played as a day, and compared with what it says.
use day::{DayError, DayReport, run_day};
use daylog::write::write;
use std::alloc::{AllocError, Global};
use std::process::Abort;
use std::test::Fail;
use vocabulary::fault::Fault;
use vocabulary::fields::{CallFields, MakingFields};

// A call, its station, minute, number, nature and pass, and what it must answer: a number, or the refusal's number.
pub(crate) type Row = (u8, u8, u32, u32, u8, u8, Result<u32, u8>);

// A day to be played: its name, its making, its calls with what each must answer, and its end: the papers live, then papers issued, cancelled, set back and taken at A, then at B.
#[derive(Clone, Copy)]
pub(crate) struct Day<'a> {
    pub(crate) name: &'a str,
    pub(crate) making: MakingFields,
    pub(crate) rows: &'a [Row],
    pub(crate) end: [u32; 9],
}

// The log's bytes, by numbers of the trials' own, so that a wrong number in the code is seen.
pub(crate) const ASK: u8 = 1;

pub(crate) const ACCEPT: u8 = 2;

pub(crate) const ISSUE: u8 = 3;

pub(crate) const DEPART: u8 = 4;

pub(crate) const CANCEL: u8 = 5;

pub(crate) const ARRIVE: u8 = 6;

pub(crate) const SET_BACK: u8 = 7;

pub(crate) const REPORT: u8 = 8;

pub(crate) const RELEASE: u8 = 9;

pub(crate) const HEAR: u8 = 10;

pub(crate) const DEAD: u8 = 11;

pub(crate) const RESUME: u8 = 12;

pub(crate) const DROP_LINE: u8 = 13;

pub(crate) const MEND_LINE: u8 = 14;

pub(crate) const A: u8 = 0;

pub(crate) const B: u8 = 1;

// A single track of 12 minutes, so an interval of 15, with the telephone and a tray of 4.
pub(crate) const PHONE: MakingFields = MakingFields {
    track: 0,
    line: 0,
    running_time: 12,
    tray: 4,
};

pub(crate) const PRINTER: MakingFields = MakingFields { line: 1, ..PHONE };

pub(crate) const ONE_WAY_PHONE: MakingFields = MakingFields { track: 1, ..PHONE };

pub(crate) const ONE_WAY_PRINTER: MakingFields = MakingFields {
    line: 1,
    ..ONE_WAY_PHONE
};

// How long the longest log of two entries is.
const LONGEST: usize = 65_531;

// Where its first call stands, and how far it is to the next.
const FIRST_PLACE: usize = 11;

const CALL_BYTES: usize = 12;

// Plays the days one after the other, up to the first that fails.
pub(crate) fn plays_all(rt: &impl Abort, heap: Global, days: &[Day]) -> Result<(), Fail> {
    for day in days {
        plays(rt, heap, day)?;
    }
    Ok(())
}

// Writes the day's rows as a log, replays it, and compares what comes with what the rows say. A failure says the name.
pub(crate) fn plays(rt: &impl Abort, heap: Global, day: &Day) -> Result<(), Fail> {
    let Day {
        name,
        making,
        rows,
        end,
    } = *day;
    let calls = calls_of(heap, rows)?;
    let mut space = vec![in heap; 0; LONGEST]?;
    let length = write(&making, calls.as_slice(), space.as_mut_slice())?;
    assert!(rt; length <= space.len(), "{name}");
    let report = replayed(heap, &space.as_slice()[0..length])?;
    assert_eq!(rt; report.made.track as u8, making.track, "{name}");
    assert_eq!(rt;
        report.made.running_time,
        u32::from(making.running_time),
        "{name}"
    );
    assert_eq!(rt; report.made.tray, usize::from(making.tray), "{name}");
    assert_eq!(rt; report.turns.len(), rows.len(), "{name}");
    let mut place = FIRST_PLACE;
    for (row, seen) in rows.iter().zip(report.turns.iter()) {
        assert_eq!(rt; seen.place, place, "{name}");
        assert_eq!(rt;
            seen.fields,
            fields_of(row),
            "{name}: the call at byte {place}"
        );
        assert_eq!(rt;
            answer_seen(&seen.answer),
            answer_wanted(row, place),
            "{name}: the call at byte {place}"
        );
        place = place.wrapping_add(CALL_BYTES);
    }
    ends_with(rt, name, &report, end);
    Ok(())
}

// The report of a log that is not refused.
pub(crate) fn replayed(heap: Global, log: &[u8]) -> Result<DayReport, Fail> {
    match run_day(heap, log) {
        Ok(day) => Ok(day),
        Err(DayError::Refused(fault)) => {
            let number = fault.number();
            let place = fault.place();
            Err(Fail::new(format_args!("the log was refused with {number} at {place}")))
        }
        Err(DayError::Memory) => Err(Fail::new("no memory")),
    }
}

// Compares a report's end with the nine numbers of its line. A failure says the name.
pub(crate) fn ends_with(rt: &impl Abort, name: &str, day: &DayReport, end: [u32; 9]) {
    let a = day.end.a;
    let b = day.end.b;
    assert_eq!(rt; day.end.live, end[0] as usize, "{name}");
    assert_eq!(rt;
        [a.issued, a.cancelled, a.set_back, a.taken],
        [end[1], end[2], end[3], end[4]],
        "{name}: at A"
    );
    assert_eq!(rt;
        [b.issued, b.cancelled, b.set_back, b.taken],
        [end[5], end[6], end[7], end[8]],
        "{name}: at B"
    );
}

fn calls_of(heap: Global, rows: &[Row]) -> Result<Vec<CallFields>, AllocError> {
    rows.iter().map(fields_of).collect(heap)
}

fn fields_of(row: &Row) -> CallFields {
    let (call, station, minute, number, nature, pass, _) = *row;
    CallFields {
        call,
        station,
        minute,
        number,
        nature,
        pass,
    }
}

// An answer, with the number and the place of a fault.
fn answer_seen(answer: &Result<u32, Fault>) -> Result<u32, (u8, usize)> {
    match answer {
        Ok(number) => Ok(*number),
        Err(fault) => Err((fault.number(), fault.place())),
    }
}

// What a row wants: a call's fault stands at the byte place of the call.
fn answer_wanted(row: &Row, place: usize) -> Result<u32, (u8, usize)> {
    let (_, _, _, _, _, _, answer) = *row;
    match answer {
        Ok(number) => Ok(number),
        Err(number) => Err((number, place)),
    }
}
