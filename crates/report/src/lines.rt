// The lines of a day's report.
ghost use Rattle.std.specs.Prelude.{◌≡◌, IfOk, Some, string_bytes};
ghost use Rattle.report.specs.Lines.{call_line, end_line, made_line};
ghost use Rattle.report.specs.Words.{answer_words, counts_words, station_at, station_letter};

use crate::values::{Counts, End, Made};
use section::turn::Turn;
use std::alloc::{AllocError, Global};
use std::fmt;
use vocabulary::fault::Fault;
use vocabulary::fields::{CallFields, CallKind};
use vocabulary::station::Station;

// What came of a call, to be shown: `ok` with the answer, or `no` with the refusal's number.
#[derive(Clone, Copy)]
struct Answer(Result<u32, Fault>);

// A station to be shown, or a dash where there is none. `Option` has no `Display`, and may get none here.
#[derive(Clone, Copy)]
struct At(Option<Station>);

// How the section was made: the track, the running time and the size of the tray.
pub fn made_line(heap: Global, section: &Made) -> Result<String, AllocError>
    ensures { IfOk result (λ s. string_bytes s ≡ made_line section.now) }
{
    let track = section.track;
    let running_time = section.running_time;
    let tray = section.tray;
    format!(in heap; "made {track} {running_time} {tray}")
}

// A call: its byte place in the log, the byte of the call, its station, and what came of it.
pub fn call_line(heap: Global, turn: &Turn) -> Result<String, AllocError>
    ensures { IfOk result (λ s. string_bytes s ≡ call_line turn.now) }
{
    let place = turn.place;
    let call = turn.fields.call;
    let station = At(station(&turn.fields));
    let answer = Answer(turn.answer);
    format!(in heap; "{place} {call} {station} {answer}")
}

// The end: the papers live, then the counts of A, then those of B.
pub fn end_line(heap: Global, end: &End) -> Result<String, AllocError>
    ensures { IfOk result (λ s. string_bytes s ≡ end_line end.now) }
{
    let live = end.live;
    let a = end.a;
    let b = end.b;
    format!(in heap; "end {live} {a} {b}")
}

impl fmt::Display for Answer {
    ghost output = { λ x. Some (answer_words x.0) };

    fn fmt<W: fmt::Write>(&self, f: &mut fmt::Formatter<W>) -> fmt::Result {
        match self.0 {
            Ok(answer) => write!(f, "ok {answer}"),
            Err(fault) => {
                let number = fault.number();
                write!(f, "no {number}")
            }
        }
    }
}

impl fmt::Display for At {
    ghost output = { λ x. Some (station_letter x.0) };

    fn fmt<W: fmt::Write>(&self, f: &mut fmt::Formatter<W>) -> fmt::Result {
        match self.0 {
            Some(station) => write!(f, "{station}"),
            None => write!(f, "-"),
        }
    }
}

impl fmt::Display for Counts {
    ghost output = { λ x. Some (counts_words x) };

    fn fmt<W: fmt::Write>(&self, f: &mut fmt::Formatter<W>) -> fmt::Result {
        let issued = self.issued;
        let cancelled = self.cancelled;
        let set_back = self.set_back;
        let taken = self.taken;
        write!(f, "{issued} {cancelled} {set_back} {taken}")
    }
}

// The station of a call: none for a drop or a mend of the line, and where the byte stands for none.
fn station(fields: &CallFields) -> Option<Station>
    ensures { result ≡ station_at fields.now }
{
    match CallKind::try_from(fields.call) {
        Ok(CallKind::DropLine | CallKind::MendLine) => None,
        _ => Station::try_from(fields.station).ok(),
    }
}
