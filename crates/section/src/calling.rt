// The fourteen calls, by their fields and one by one. Those of a station differ only in the act, and have one body, `act_checked`; each keeps its name and its own parameters for callers.
ghost use Rattle.std.specs.Prelude.{Some};
ghost use Rattle.cabinets.specs.Calls.{call_from, checked_call};
ghost use Rattle.cabinets.specs.declared.call.Act.TheVariants as act;
ghost use Rattle.cabinets.specs.declared.call.Call.TheVariants as call;
ghost use Rattle.section.specs.Called.{Comes, Performed};
ghost use Rattle.section.specs.Running.{GoesOn};
ghost use Rattle.section.specs.State.{state};

use super::Section;
use cabinets::call::{Act, Call};
use cabinets::paper::Paper;
use line::line::Line;
use queue::Queue;
use vocabulary::fault::{CallFault, Fault};
use vocabulary::fields::CallFields;
use vocabulary::kind::Nature;
use vocabulary::number::Serial;
use vocabulary::station::Station;

impl<'l, L: Line> Section<'l, L> {
    // Any call, by the six fields that a log writes.
    #[tactic(auto, using(crate::proofs::Histories::goes_on))]
    pub fn call(&mut self, tray: &mut Queue<'_, Paper>, fields: &CallFields) -> Result<u32, Fault>
        ensures comes { Comes L.Line (call_from fields.now) result self.old self.new tray.old tray.new }
        ensures safe { GoesOn fields.now result (state L.Line self.old tray.old) (state L.Line self.new tray.new) }
    {
        let call = Call::read(fields);
        self.answer(tray, call)
    }

    // Asks for a train; the count of the ask is the answer.
    pub fn ask(
        &mut self,
        tray: &mut Queue<'_, Paper>,
        at: Station,
        minute: u32,
        train: u32,
    ) -> Result<u32, Fault>
        ensures { Comes L.Line (checked_call at minute (act.Ask train)) result self.old self.new tray.old tray.new }
    {
        self.act_checked(tray, at, minute, Act::Ask(train))
    }

    // Accepts the train asked for; the record number is the answer.
    pub fn accept(
        &mut self,
        tray: &mut Queue<'_, Paper>,
        at: Station,
        minute: u32,
    ) -> Result<u32, Fault>
        ensures { Comes L.Line (checked_call at minute act.Accept) result self.old self.new tray.old tray.new }
    {
        self.act_checked(tray, at, minute, Act::Accept)
    }

    // Issues a paper; its serial is the answer.
    pub fn issue(
        &mut self,
        tray: &mut Queue<'_, Paper>,
        at: Station,
        minute: u32,
        train: u32,
        nature: Nature,
        pass: bool,
    ) -> Result<u32, Fault>
        ensures { Comes L.Line (checked_call at minute (act.Issue train nature pass)) result self.old self.new tray.old tray.new }
    {
        self.act_checked(tray, at, minute, Act::Issue(train, nature, pass))
    }

    // Sends the paper in hand; its serial is the answer.
    pub fn depart(
        &mut self,
        tray: &mut Queue<'_, Paper>,
        at: Station,
        minute: u32,
    ) -> Result<u32, Fault>
        ensures { Comes L.Line (checked_call at minute act.Depart) result self.old self.new tray.old tray.new }
    {
        self.act_checked(tray, at, minute, Act::Depart)
    }

    // Cancels the paper in hand; its serial is the answer.
    pub fn cancel(
        &mut self,
        tray: &mut Queue<'_, Paper>,
        at: Station,
        minute: u32,
    ) -> Result<u32, Fault>
        ensures { Comes L.Line (checked_call at minute act.Cancel) result self.old self.new tray.old tray.new }
    {
        self.act_checked(tray, at, minute, Act::Cancel)
    }

    // Takes in the oldest paper; how many were taken here so far is the answer.
    pub fn arrive(
        &mut self,
        tray: &mut Queue<'_, Paper>,
        at: Station,
        minute: u32,
        serial: Serial,
    ) -> Result<u32, Fault>
        ensures { Comes L.Line (checked_call at minute (act.Arrive serial)) result self.old self.new tray.old tray.new }
    {
        self.act_checked(tray, at, minute, Act::Arrive(serial))
    }

    // Sets back the youngest paper; its serial is the answer.
    pub fn set_back(
        &mut self,
        tray: &mut Queue<'_, Paper>,
        at: Station,
        minute: u32,
        serial: Serial,
    ) -> Result<u32, Fault>
        ensures { Comes L.Line (checked_call at minute (act.SetBack serial)) result self.old self.new tray.old tray.new }
    {
        self.act_checked(tray, at, minute, Act::SetBack(serial))
    }

    // Reports the papers taken; the record number is the answer.
    pub fn report(
        &mut self,
        tray: &mut Queue<'_, Paper>,
        at: Station,
        minute: u32,
    ) -> Result<u32, Fault>
        ensures { Comes L.Line (checked_call at minute act.Report) result self.old self.new tray.old tray.new }
    {
        self.act_checked(tray, at, minute, Act::Report)
    }

    // Releases what was asked or accepted, and at B the right; the record number is the answer.
    pub fn release(
        &mut self,
        tray: &mut Queue<'_, Paper>,
        at: Station,
        minute: u32,
    ) -> Result<u32, Fault>
        ensures { Comes L.Line (checked_call at minute act.Release) result self.old self.new tray.old tray.new }
    {
        self.act_checked(tray, at, minute, Act::Release)
    }

    // Hears one message, if any waits; its kind is the answer, or 0.
    pub fn hear(
        &mut self,
        tray: &mut Queue<'_, Paper>,
        at: Station,
        minute: u32,
    ) -> Result<u32, Fault>
        ensures { Comes L.Line (checked_call at minute act.Hear) result self.old self.new tray.old tray.new }
    {
        self.act_checked(tray, at, minute, Act::Hear)
    }

    // Declares dead working.
    pub fn declare_dead(
        &mut self,
        tray: &mut Queue<'_, Paper>,
        at: Station,
        minute: u32,
    ) -> Result<u32, Fault>
        ensures { Comes L.Line (checked_call at minute act.DeclareDead) result self.old self.new tray.old tray.new }
    {
        self.act_checked(tray, at, minute, Act::DeclareDead)
    }

    // Resumes telephone working.
    pub fn resume(
        &mut self,
        tray: &mut Queue<'_, Paper>,
        at: Station,
        minute: u32,
    ) -> Result<u32, Fault>
        ensures { Comes L.Line (checked_call at minute act.Resume) result self.old self.new tray.old tray.new }
    {
        self.act_checked(tray, at, minute, Act::Resume)
    }

    // The line goes down.
    pub fn drop_line(&mut self, tray: &mut Queue<'_, Paper>) -> Result<u32, Fault>
        ensures { Comes L.Line (Some call.DropLine) result self.old self.new tray.old tray.new }
    {
        self.answer(tray, Some(Call::DropLine))
    }

    // The line comes up again.
    pub fn mend_line(&mut self, tray: &mut Queue<'_, Paper>) -> Result<u32, Fault>
        ensures { Comes L.Line (Some call.MendLine) result self.old self.new tray.old tray.new }
    {
        self.answer(tray, Some(Call::MendLine))
    }

    // A station's act, unless its minute, train or serial is out of bounds.
    fn act_checked(
        &mut self,
        tray: &mut Queue<'_, Paper>,
        at: Station,
        minute: u32,
        act: Act,
    ) -> Result<u32, Fault>
        ensures { Comes L.Line (checked_call at minute act) result self.old self.new tray.old tray.new }
    {
        let call = Call::new(at, minute, act);
        self.answer(tray, call)
    }

    // Answers a call that was read, or refuses one that could not be.
    fn answer(&mut self, tray: &mut Queue<'_, Paper>, call: Option<Call>) -> Result<u32, Fault>
        ensures { Comes L.Line call result self.old self.new tray.old tray.new }
    {
        Ok(self.perform(tray, call)?)
    }

    // Performs a call. A station's act, a drop and a mend are each another thing to do, told apart by their own match.
    fn perform(&mut self, tray: &mut Queue<'_, Paper>, call: Option<Call>) -> Result<u32, CallFault>
        ensures { Performed L.Line call result self.old self.new tray.old tray.new }
    {
        match call {
            Some(Call::Act(at, minute, act)) => self.act(tray, at, minute, act),
            Some(Call::DropLine) => {
                self.line.drop_line();
                Ok(0)
            }
            Some(Call::MendLine) => {
                self.line.mend_line();
                Ok(0)
            }
            None => Err(CallFault::Field),
        }
    }
}
