// A station at work: what it does at its cabinet and in the tray.
ghost use Rattle.std.specs.Prelude.{◌≡◌, ℕ, min, true, false, List, is_some, is_ok, IfOk, None};
ghost use Rattle.queue.specs.Model.{items, room_of};
ghost use Rattle.cabinets.specs.declared.call.Act.TheVariants as act;
ghost use Rattle.cabinets.specs.declared.paper.Paper.{Paper};
ghost use Rattle.section.specs.State.{TrayKept};
ghost use Rattle.section.specs.Work.{sight, working};

use crate::tray::{
    has_live, is_full, mark_departed, oldest, put, take_oldest, take_youngest, youngest,
};
use cabinets::cabinet::Cabinet;
use cabinets::call::Act;
use cabinets::paper::{Paper, is_in_hand};
use cabinets::sight::Sight;
use cabinets::track::Track;
use line::message::Message;
use queue::Queue;
use vocabulary::fault::CallFault;
use vocabulary::kind::Nature;
use vocabulary::number::Serial;
use vocabulary::station::Station;

// What a station has before it when it acts, beside its cabinet and the tray.
#[derive(Clone, Copy)]
pub struct Desk {
    pub at: Station,
    pub minute: u32,
    pub track: Track,
    // How many papers the tray is for.
    pub size: usize,
    // The line is up.
    pub up: bool,
    // What came over the line, if it was heard.
    pub came: Option<Message>,
}

// What was done: the answer, and a message to post.
#[derive(Clone, Copy)]
pub struct Done {
    pub answer: u32,
    pub message: Option<Message>,
}

impl Desk {
    // Does an act.
    pub(crate) fn work(
        &self,
        act: Act,
        cabinet: &mut Cabinet,
        tray: &mut Queue<'_, Paper>,
    ) -> Result<Done, CallFault>
        ensures done { (result, (cabinet.new, items tray.new)) ≡ working self.now act (min self.now.size (room_of tray.old)) cabinet.old (items tray.old) }
        ensures kept { TrayKept tray.old tray.new }
        ensures refused { is_ok result ≡ false → tray.new ≡ tray.old }
        ensures said { IfOk result (λ d. is_some d.message ≡ true → tray.new ≡ tray.old) }
    {
        match act {
            Act::Ask(train) => self.ask(cabinet, tray, train),
            Act::Accept => self.accept(cabinet, tray),
            Act::Issue(train, nature, pass) => self.issue(cabinet, tray, train, nature, pass),
            Act::Depart => self.depart(cabinet, tray),
            Act::Cancel => self.cancel(cabinet, tray),
            Act::Arrive(serial) => self.arrive(cabinet, tray, serial),
            Act::SetBack(serial) => self.set_back(cabinet, tray, serial),
            Act::Report => self.report(cabinet),
            Act::Release => self.release(cabinet, tray),
            Act::Hear => self.hear(cabinet),
            Act::DeclareDead => self.declare_dead(cabinet),
            Act::Resume => self.resume(cabinet),
        }
    }
}

// Each act. Which one runs is told by a match on `Act`: each takes other values of it and another part of the cabinet and the tray, which closures would only hide.
impl Desk {
    // Asks for a train.
    fn ask(
        &self,
        cabinet: &mut Cabinet,
        tray: &Queue<'_, Paper>,
        train: u32,
    ) -> Result<Done, CallFault>
        ensures { (result, (cabinet.new, items tray.now)) ≡ working self.now (act.Ask train) (min self.now.size (room_of tray.now)) cabinet.old (items tray.now) }
    {
        let sight = self.sight(tray);
        let message = cabinet.ask(self.minute, train, &sight)?;
        Ok(Done {
            answer: message.count,
            message: Some(message),
        })
    }

    // Accepts the train asked for.
    fn accept(&self, cabinet: &mut Cabinet, tray: &Queue<'_, Paper>) -> Result<Done, CallFault>
        ensures { (result, (cabinet.new, items tray.now)) ≡ working self.now act.Accept (min self.now.size (room_of tray.now)) cabinet.old (items tray.now) }
    {
        let sight = self.sight(tray);
        let message = cabinet.accept(self.at, self.minute, &sight)?;
        Ok(Done {
            answer: message.record.0,
            message: Some(message),
        })
    }

    // Releases what was asked or accepted, and at B the right.
    fn release(&self, cabinet: &mut Cabinet, tray: &Queue<'_, Paper>) -> Result<Done, CallFault>
        ensures { (result, (cabinet.new, items tray.now)) ≡ working self.now act.Release (min self.now.size (room_of tray.now)) cabinet.old (items tray.now) }
    {
        let sight = self.sight(tray);
        let message = cabinet.release(self.at, self.minute, &sight)?;
        Ok(Done {
            answer: message.record.0,
            message: Some(message),
        })
    }

    // Issues a paper, which joins the tray.
    fn issue(
        &self,
        cabinet: &mut Cabinet,
        tray: &mut Queue<'_, Paper>,
        train: u32,
        nature: Nature,
        pass: bool,
    ) -> Result<Done, CallFault>
        ensures done { (result, (cabinet.new, items tray.new)) ≡ working self.now (act.Issue train nature pass) (min self.now.size (room_of tray.old)) cabinet.old (items tray.old) }
        ensures kept { TrayKept tray.old tray.new }
        ensures refused { is_ok result ≡ false → tray.new ≡ tray.old }
        ensures quiet { IfOk result (λ d. is_some d.message ≡ false) }
    {
        let sight = self.sight(tray);
        let paper = cabinet.issue(self.at, self.minute, train, nature, pass, &sight)?;
        put(tray, paper);
        Ok(answered(paper.serial.0))
    }

    // Sends the paper in hand.
    fn depart(&self, cabinet: &mut Cabinet, tray: &mut Queue<'_, Paper>) -> Result<Done, CallFault>
        ensures done { (result, (cabinet.new, items tray.new)) ≡ working self.now act.Depart (min self.now.size (room_of tray.old)) cabinet.old (items tray.old) }
        ensures kept { TrayKept tray.old tray.new }
        ensures refused { is_ok result ≡ false → tray.new ≡ tray.old }
        ensures quiet { IfOk result (λ d. is_some d.message ≡ false) }
    {
        let serial = cabinet.depart(self.at, self.minute, youngest(tray))?;
        mark_departed(tray, self.minute);
        Ok(answered(serial.0))
    }

    // Cancels the paper in hand.
    fn cancel(&self, cabinet: &mut Cabinet, tray: &mut Queue<'_, Paper>) -> Result<Done, CallFault>
        ensures done { (result, (cabinet.new, items tray.new)) ≡ working self.now act.Cancel (min self.now.size (room_of tray.old)) cabinet.old (items tray.old) }
        ensures kept { TrayKept tray.old tray.new }
        ensures refused { is_ok result ≡ false → tray.new ≡ tray.old }
        ensures quiet { IfOk result (λ d. is_some d.message ≡ false) }
    {
        let serial = cabinet.cancel(self.at, self.minute, youngest(tray))?;
        take_youngest(tray);
        Ok(answered(serial.0))
    }

    // Takes in the oldest paper.
    fn arrive(
        &self,
        cabinet: &mut Cabinet,
        tray: &mut Queue<'_, Paper>,
        serial: Serial,
    ) -> Result<Done, CallFault>
        ensures done { (result, (cabinet.new, items tray.new)) ≡ working self.now (act.Arrive serial) (min self.now.size (room_of tray.old)) cabinet.old (items tray.old) }
        ensures kept { TrayKept tray.old tray.new }
        ensures refused { is_ok result ≡ false → tray.new ≡ tray.old }
        ensures quiet { IfOk result (λ d. is_some d.message ≡ false) }
    {
        let first = oldest(tray);
        let own_live = has_live(tray, self.at);
        let taken = cabinet.arrive(self.at, self.minute, serial, first, own_live)?;
        take_oldest(tray);
        Ok(answered(taken))
    }

    // Sets back the youngest paper.
    fn set_back(
        &self,
        cabinet: &mut Cabinet,
        tray: &mut Queue<'_, Paper>,
        serial: Serial,
    ) -> Result<Done, CallFault>
        ensures done { (result, (cabinet.new, items tray.new)) ≡ working self.now (act.SetBack serial) (min self.now.size (room_of tray.old)) cabinet.old (items tray.old) }
        ensures kept { TrayKept tray.old tray.new }
        ensures refused { is_ok result ≡ false → tray.new ≡ tray.old }
        ensures quiet { IfOk result (λ d. is_some d.message ≡ false) }
    {
        let serial = cabinet.set_back(self.at, self.minute, serial, youngest(tray))?;
        take_youngest(tray);
        Ok(answered(serial.0))
    }

    // Reports the papers taken in.
    fn report(&self, cabinet: &mut Cabinet) -> Result<Done, CallFault>
        ensures { (size : ℕ) (papers : List Paper) → (result, (cabinet.new, papers)) ≡ working self.now act.Report size cabinet.old papers }
    {
        let message = cabinet.report(self.minute)?;
        Ok(Done {
            answer: message.record.0,
            message: Some(message),
        })
    }

    // Hears what came.
    fn hear(&self, cabinet: &mut Cabinet) -> Result<Done, CallFault>
        ensures { (size : ℕ) (papers : List Paper) → (result, (cabinet.new, papers)) ≡ working self.now act.Hear size cabinet.old papers }
    {
        let kind = cabinet.hear(self.minute, self.came)?;
        Ok(answered(kind.map_or(0, |kind| kind as u32)))
    }

    // Declares dead working.
    fn declare_dead(&self, cabinet: &mut Cabinet) -> Result<Done, CallFault>
        ensures { (size : ℕ) (papers : List Paper) → (result, (cabinet.new, papers)) ≡ working self.now act.DeclareDead size cabinet.old papers }
    {
        cabinet.declare_dead(self.minute, self.up)?;
        Ok(answered(0))
    }

    // Resumes telephone working.
    fn resume(&self, cabinet: &mut Cabinet) -> Result<Done, CallFault>
        ensures { (size : ℕ) (papers : List Paper) → (result, (cabinet.new, papers)) ≡ working self.now act.Resume size cabinet.old papers }
    {
        cabinet.resume(self.minute, self.up)?;
        Ok(answered(0))
    }

    // What the station sees beside its cabinet.
    fn sight(&self, tray: &Queue<'_, Paper>) -> Sight
        ensures { result ≡ sight self.now (min self.now.size (room_of tray.now)) (items tray.now) }
    {
        Sight {
            track: self.track,
            in_hand: is_in_hand(youngest(tray), self.at),
            tray_full: is_full(tray, self.size),
        }
    }
}

// An answer with nothing to post.
fn answered(answer: u32) -> Done
    ensures { result ≡ record { answer = answer; message = None } }
{
    Done {
        answer,
        message: None,
    }
}
