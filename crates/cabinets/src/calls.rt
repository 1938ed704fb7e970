// What a cabinet does at each of its station's calls. Each call sets the clock first; a refusal leaves the cabinet as it was.
// The station, the minute and what a call names are plain parameters, by the rule of the project that a cabinet's calls take plain numbers.
ghost use Rattle.std.specs.Prelude.{◌≡◌, false, OnOk};
ghost use Rattle.cabinets.specs.Acts.{accepting, arriving, asking, cancelling, declaring_dead, departing, hearing, issuing, releasing, reporting, resuming, setting_back};

use crate::cabinet::{Ask, Cabinet};
use crate::paper::{Paper, Working, carried, is_out, serial};
use crate::sight::Sight;
use line::message::{Message, MessageKind};
use vocabulary::fault::CallFault;
use vocabulary::kind::Nature;
use vocabulary::number::{RecordNumber, RightNumber, Serial};
use vocabulary::station::Station;

impl Cabinet {
    // Asks for a train; the message's count is the answer.
    pub fn ask(&mut self, minute: u32, train: u32, sight: &Sight) -> Result<Message, CallFault>
        ensures { (result, self.new) ≡ asking minute train sight.now self.old }
    {
        self.check_ask(minute, sight)?;
        self.clock = minute;
        self.asks += 1;
        self.open_ask = Some(Ask {
            train,
            count: self.asks,
        });
        Ok(Message {
            kind: MessageKind::Ask,
            train,
            count: self.asks,
            record: RecordNumber(0),
            right: self.right,
            taken: 0,
        })
    }

    // Accepts the train asked for; the message's record number is the answer.
    pub fn accept(&mut self, at: Station, minute: u32, sight: &Sight) -> Result<Message, CallFault>
        ensures { (result, self.new) ≡ accepting at minute sight.now self.old }
    {
        self.check_accept(at, minute, sight)?;
        self.clock = minute;
        if self.has_right(at) {
            self.right = RightNumber(self.right.0 + 1);
        }
        let record = self.take_record(minute);
        let asked = self.take_ask_heard();
        self.open_ask = None;
        Ok(Message {
            kind: MessageKind::Acceptance,
            train: asked.train,
            count: asked.count,
            record,
            right: self.right,
            taken: 0,
        })
    }

    // Issues a paper; its serial is the answer.
    pub fn issue(
        &mut self,
        at: Station,
        minute: u32,
        train: u32,
        nature: Nature,
        pass: bool,
        sight: &Sight,
    ) -> Result<Paper, CallFault>
        ensures paper { (result, self.new) ≡ issuing at minute train nature pass sight.now self.old }
        ensures room { OnOk result (sight.now.tray_full ≡ false) }
    {
        self.check_issue(at, minute, train, nature, pass, sight)?;
        let paper = self.paper(at, train, pass, sight);
        self.clock = minute;
        self.issued += 1;
        self.open_ask = None;
        self.acceptance = None;
        Ok(paper)
    }

    // Sends the youngest paper, which is in hand.
    pub fn depart(
        &mut self,
        at: Station,
        minute: u32,
        youngest: Option<Paper>,
    ) -> Result<Serial, CallFault>
        ensures { (result, self.new) ≡ departing at minute youngest self.old }
    {
        self.check_in_hand(at, minute, youngest)?;
        self.clock = minute;
        self.last_departure = Some(minute);
        self.gone = self.gone.saturating_add(1);
        if let Some(right) = carried(youngest) {
            self.right = right;
        }
        Ok(serial(youngest))
    }

    // Cancels the youngest paper, which is in hand. It begins as a departure does, by one test, and does something else.
    pub fn cancel(
        &mut self,
        at: Station,
        minute: u32,
        youngest: Option<Paper>,
    ) -> Result<Serial, CallFault>
        ensures { (result, self.new) ≡ cancelling at minute youngest self.old }
    {
        self.check_in_hand(at, minute, youngest)?;
        self.clock = minute;
        self.cancelled = self.cancelled.saturating_add(1);
        Ok(serial(youngest))
    }

    // Takes in the oldest paper, which is the other station's; how many were taken so far is the answer.
    pub fn arrive(
        &mut self,
        at: Station,
        minute: u32,
        number: Serial,
        oldest: Option<Paper>,
        own_live: bool,
    ) -> Result<u32, CallFault>
        ensures { (result, self.new) ≡ arriving at minute number.0 oldest own_live self.old }
    {
        if minute < self.clock {
            return Err(CallFault::Clock);
        }
        if !is_out(oldest, at.other(), number) {
            return Err(CallFault::NotThatPaper);
        }
        if own_live {
            return Err(CallFault::OwnPaperLive);
        }
        self.clock = minute;
        self.taken = self.taken.saturating_add(1);
        self.learn_from(carried(oldest));
        Ok(self.taken)
    }

    // Sets back the youngest paper, which is out.
    pub fn set_back(
        &mut self,
        at: Station,
        minute: u32,
        number: Serial,
        youngest: Option<Paper>,
    ) -> Result<Serial, CallFault>
        ensures { (result, self.new) ≡ setting_back at minute number.0 youngest self.old }
    {
        self.check_set_back(at, minute, number, youngest)?;
        self.clock = minute;
        self.gone = self.gone.saturating_sub(1);
        self.set_back = self.set_back.saturating_add(1);
        if carried(youngest).is_some() {
            self.right = RightNumber(self.right.0.saturating_sub(1));
        }
        Ok(serial(youngest))
    }

    // Reports the papers taken in; the message's record number is the answer.
    pub fn report(&mut self, minute: u32) -> Result<Message, CallFault>
        ensures { (result, self.new) ≡ reporting minute self.old }
    {
        if minute < self.clock {
            return Err(CallFault::Clock);
        }
        if self.records_used_up(minute) {
            return Err(CallFault::NumbersUsedUp);
        }
        self.clock = minute;
        let record = self.take_record(minute);
        Ok(Message {
            kind: MessageKind::Report,
            train: 0,
            count: 0,
            record,
            right: RightNumber(0),
            taken: self.taken,
        })
    }

    // Releases what was asked or accepted, and at B the right; the message's record number is the answer.
    pub fn release(&mut self, at: Station, minute: u32, sight: &Sight) -> Result<Message, CallFault>
        ensures { (result, self.new) ≡ releasing at minute sight.now self.old }
    {
        self.check_release(at, minute, sight)?;
        self.clock = minute;
        self.open_ask = None;
        self.acceptance = None;
        if self.b_has_right(at) {
            self.right = RightNumber(self.right.0 + 1);
        }
        let record = self.take_record(minute);
        Ok(Message {
            kind: MessageKind::Release,
            train: 0,
            count: 0,
            record,
            right: self.right,
            taken: 0,
        })
    }

    // Hears what came over the line, if anything did; its kind is the answer.
    pub fn hear(
        &mut self,
        minute: u32,
        came: Option<Message>,
    ) -> Result<Option<MessageKind>, CallFault>
        ensures { (result, self.new) ≡ hearing minute came self.old }
    {
        if minute < self.clock {
            return Err(CallFault::Clock);
        }
        self.clock = minute;
        if let Some(message) = &came {
            self.note(message);
        }
        Ok(came.map(|message| message.kind))
    }

    // Declares dead working, with the line as it is.
    pub fn declare_dead(&mut self, minute: u32, up: bool) -> Result<(), CallFault>
        ensures { (result, self.new) ≡ declaring_dead minute up self.old }
    {
        if minute < self.clock {
            return Err(CallFault::Clock);
        }
        if self.is_dead() {
            return Err(CallFault::Working);
        }
        if up {
            return Err(CallFault::Line);
        }
        self.clock = minute;
        self.working = Working::Dead;
        self.open_ask = None;
        self.ask_heard = None;
        Ok(())
    }

    // Resumes telephone working, with the line as it is.
    pub fn resume(&mut self, minute: u32, up: bool) -> Result<(), CallFault>
        ensures { (result, self.new) ≡ resuming minute up self.old }
    {
        if minute < self.clock {
            return Err(CallFault::Clock);
        }
        if !self.is_dead() {
            return Err(CallFault::Working);
        }
        if !up {
            return Err(CallFault::Line);
        }
        self.clock = minute;
        self.working = Working::Telephone;
        Ok(())
    }
}
