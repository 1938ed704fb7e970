// Spending a slip, by the departure or the cancellation of its paper.
ghost use Rattle.std.specs.Prelude.{◌≡◌};
ghost use Rattle.queue.specs.Model.{items};
ghost use Rattle.cabinets.specs.Section.{cabinet};
ghost use Rattle.cabinets.specs.declared.call.Act.TheVariants as act;
ghost use Rattle.section.specs.State.{state};
ghost use Rattle.slips.specs.Slips.{Spends, is_of, is_of_paper_in_hand, matched, settled, unmatched};

use super::{Slip, Unspent};
use cabinets::cabinet::Cabinet;
use cabinets::call::LAST_MINUTE;
use cabinets::paper::{Paper, is_in_hand};
use line::line::Line;
use queue::Queue;
use section::Section;
use vocabulary::fault::{CallFault, Fault};
use vocabulary::number::Serial;

impl Slip {
    // Sends the slip's paper; its serial is the answer.
    pub fn depart<L: Line>(
        self,
        section: &mut Section<'_, L>,
        tray: &mut Queue<'_, Paper>,
        minute: u32,
    ) -> Result<Serial, Unspent>
        ensures { Spends L.Line act.Depart self minute result section.old section.new tray.old tray.new }
    {
        let slip = self.matched(section, tray, minute)?;
        let answer = section.depart(tray, slip.station, minute);
        slip.settle(answer)
    }

    // Cancels the slip's paper; its serial is the answer. Only the call differs from a departure's.
    pub fn cancel<L: Line>(
        self,
        section: &mut Section<'_, L>,
        tray: &mut Queue<'_, Paper>,
        minute: u32,
    ) -> Result<Serial, Unspent>
        ensures { Spends L.Line act.Cancel self minute result section.old section.new tray.old tray.new }
    {
        let slip = self.matched(section, tray, minute)?;
        let answer = section.cancel(tray, slip.station, minute);
        slip.settle(answer)
    }

    // The slip, where the paper in hand at its station is its paper.
    fn matched<L: Line>(
        self,
        section: &Section<'_, L>,
        tray: &Queue<'_, Paper>,
        minute: u32,
    ) -> Result<Slip, Unspent>
        ensures { result ≡ matched self minute (items tray.now) (cabinet self.station (state L.Line section.now tray.now)) }
    {
        if self.is_of_paper_in_hand(tray) {
            return Ok(self);
        }
        let cabinet = section.cabinet(self.station);
        Err(self.unmatched(minute, cabinet))
    }

    // Whether the paper in hand at its station is the slip's.
    fn is_of_paper_in_hand(&self, tray: &Queue<'_, Paper>) -> bool
        ensures { result ≡ is_of_paper_in_hand self.now (items tray.now) }
    {
        self.is_of(tray.back())
    }

    // Whether a paper, if there is one, is the slip's and in hand.
    fn is_of(&self, paper: Option<Paper>) -> bool
        ensures { result ≡ is_of self.now paper }
    {
        is_in_hand(paper, self.station) && paper.is_some_and(|paper| paper.serial == self.serial)
    }

    // Refuses a slip whose paper is not in hand. It ends if its station has issued that serial.
    fn unmatched(self, minute: u32, cabinet: Cabinet) -> Unspent
        ensures { result ≡ unmatched self minute cabinet }
    {
        if minute > LAST_MINUTE {
            return Unspent::Back(self, CallFault::Field.into());
        }
        if minute < cabinet.clock {
            return Unspent::Back(self, CallFault::Clock.into());
        }
        let fault = CallFault::NothingThere.into();
        if self.serial > Serial(cabinet.issued) {
            return Unspent::Back(self, fault);
        }
        let _ = self.spend();
        Unspent::Ended(fault)
    }

    // Spends the slip if the call was carried out, and else hands it back.
    fn settle(self, answer: Result<u32, Fault>) -> Result<Serial, Unspent>
        ensures { result ≡ settled self answer }
    {
        match answer {
            Ok(_) => Ok(self.spend()),
            Err(fault) => Err(Unspent::Back(self, fault)),
        }
    }

    // Takes the slip apart.
    fn spend(self) -> Serial
        ensures { result ≡ self.serial }
    {
        let Slip { station: _, serial } = self;
        serial
    }
}
