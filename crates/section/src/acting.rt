// A station's acts, and what is done to the line, over any line.
ghost use Rattle.std.specs.Prelude.{◌≡◌, true, false, not, ◌&&◌, is_ok, if◌then◌else◌, Some, None, MatchResult, nat_lt};
ghost use Rattle.vocabulary.specs.Stations.{opposite};
ghost use Rattle.vocabulary.specs.declared.fault.CallFault.TheVariants as why;
ghost use Rattle.queue.specs.declared.Queue.{Queue};
ghost use Rattle.cabinets.specs.Section.{cabinet, seen};
ghost use Rattle.cabinets.specs.declared.call.Call.TheVariants as call;
ghost use Rattle.cabinets.specs.declared.paper.Paper.{Paper};
ghost use Rattle.section.specs.Called.{Listened, Performed, is_hear, takes, with_message};
ghost use Rattle.queue.specs.Model.{items};
ghost use Rattle.section.specs.Work.{desk};
ghost use Rattle.section.specs.State.{OnlyLine, settled, state};

use super::Section;
use crate::desk::Desk;
use cabinets::cabinet::Cabinet;
use cabinets::call::Act;
use cabinets::paper::Paper;
use line::line::Line;
use line::message::Message;
use queue::Queue;
use vocabulary::fault::CallFault;
use vocabulary::station::Station;

impl<'l, L: Line> Section<'l, L> {
    // Does a station's act.
    pub(crate) fn act(
        &mut self,
        tray: &mut Queue<'_, Paper>,
        at: Station,
        minute: u32,
        act: Act,
    ) -> Result<u32, CallFault>
        ensures { Performed L.Line (Some (call.Act at minute act)) result self.old self.new tray.old tray.new }
    {
        let mut cabinet = self.cabinet(at);
        let mut desk = self.desk(at, minute);
        desk.came = self.listen(hears_now(&act, minute, cabinet.clock), at);
        let done = desk.work(act, &mut cabinet, tray)?;
        self.settle(at, cabinet, done.message)?;
        Ok(done.answer)
    }

    // The cabinet of a station, as it stands.
    pub fn cabinet(&self, at: Station) -> Cabinet
        ensures { (q : Queue Paper) → result ≡ cabinet at (state L.Line self.now q) }
    {
        self.cabinets.get(at)
    }

    // What a station has before it, nothing heard yet.
    fn desk(&self, at: Station, minute: u32) -> Desk
        ensures { (q : Queue Paper) → result ≡ desk at minute (seen at (state L.Line self.now q)) self.now.size None }
    {
        Desk {
            at,
            minute,
            track: self.track,
            size: self.size,
            up: self.line.up(),
            came: None,
        }
    }

    // Tries the line once, or not at all.
    fn listen(&mut self, tried: bool, at: Station) -> Option<Message>
        ensures heard { Listened L.Line tried at result self.old.line.now self.new.line.now }
        ensures rest { OnlyLine self.old self.new }
    {
        if tried { self.line.hear(at) } else { None }
    }

    // Posts the message, if there is one, and then keeps the cabinet; refused if the line does not take the message.
    fn settle(
        &mut self,
        at: Station,
        cabinet: Cabinet,
        message: Option<Message>,
    ) -> Result<(), CallFault>
        ensures taken { MatchResult result (λ _. true ≡ takes (opposite at) message (L.Line.meaning self.old.line.now)) (λ f. (f ≡ why.Line) × (false ≡ takes (opposite at) message (L.Line.meaning self.old.line.now))) }
        ensures after { (q : Queue Paper) → state L.Line self.new q ≡ (if is_ok result then settled at cabinet (items q) (with_message (opposite at) message (L.Line.meaning self.old.line.now)) (state L.Line self.old q) else state L.Line self.old q) }
        ensures quiet { message ≡ None → self.new.line.now ≡ self.old.line.now }
        ensures same_line { self.new.line.ghost_name ≡ self.old.line.ghost_name }
    {
        self.say(at.other(), message)?;
        let _ = self.cabinets.replace(at, cabinet);
        Ok(())
    }

    // Posts a message, if there is one; refused if the line does not take it.
    fn say(&mut self, to: Station, message: Option<Message>) -> Result<(), CallFault>
        ensures taken { MatchResult result (λ _. true ≡ takes to message (L.Line.meaning self.old.line.now)) (λ f. (f ≡ why.Line) × (false ≡ takes to message (L.Line.meaning self.old.line.now))) }
        ensures after { L.Line.meaning self.new.line.now ≡ (if is_ok result then with_message to message (L.Line.meaning self.old.line.now) else L.Line.meaning self.old.line.now) }
        ensures quiet { message ≡ None → self.new.line.now ≡ self.old.line.now }
        ensures rest { OnlyLine self.old self.new }
    {
        match message {
            Some(message) if !self.line.post(to, message) => Err(CallFault::Line),
            _ => Ok(()),
        }
    }
}

// Whether an act tries the line: a hearing that is not before the clock. `Act` derives no equality, which every edit would prove again.
fn hears_now(act: &Act, minute: u32, clock: u32) -> bool
    ensures { result ≡ (is_hear act.now && not (nat_lt minute clock)) }
{
    matches!(act, Act::Hear) && minute >= clock
}
