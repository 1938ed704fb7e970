// How a cabinet stands: why it refuses a call, and what it does within one.
ghost use Rattle.std.specs.Prelude.{◌≡◌, ◌<◌, false, ◌&&◌, None, OnOk};
ghost use Rattle.std.specs.Result.{result_err};
ghost use Rattle.cabinets.specs.Cabinets.{with_ask_heard};
ghost use Rattle.cabinets.specs.Effects.{acceptance_heard, heard_as, heard_count, heard_train, is_ticket, paper_for, paper_record};
ghost use Rattle.cabinets.specs.Records.{next_record, records_used_up, taken_on, with_next_record};
ghost use Rattle.cabinets.specs.Refusals.{refusal};
ghost use Rattle.cabinets.specs.Rights.{b_has_right, has_right, learnt, learnt_from, right_at_end};
ghost use Rattle.cabinets.specs.Tests.{accept_tests, accepted_for, ask_tests, barred_when_dead, carries, dead, in_hand_tests, issue_tests, line_work_tests, nothing_to_release, release_tests, set_back_tests, too_soon, trains_out};

use crate::cabinet::{Acceptance, Ask, Cabinet, RecordEntry};
use crate::call::LAST_SERIAL;
use crate::paper::{Paper, PaperKind, Working, is_in_hand, is_out, is_plain_dead};
use crate::sight::Sight;
use crate::track::Track;
use line::message::{Message, MessageKind};
use vocabulary::fault::CallFault;
use vocabulary::kind::Nature;
use vocabulary::number::{RecordNumber, RightNumber, Serial};
use vocabulary::station::Station;

// The greatest numbers.
const MOST_ASKS: u32 = 999_999;

const LAST_RECORD: u32 = 999;

const LAST_RIGHT: RightNumber = RightNumber(1_000_000_000);

// The minutes of a day.
const DAY: u32 = 1_440;

impl Cabinet {
    // The tests that an ask, an acceptance and a release begin with.
    fn check_line_work(&self, minute: u32, sight: &Sight) -> Result<(), CallFault>
        ensures { result_err result ≡ refusal (line_work_tests minute self.now sight.now) }
    {
        if minute < self.clock {
            return Err(CallFault::Clock);
        }
        if sight.track.is_one_way() {
            return Err(CallFault::OneWay);
        }
        if self.is_dead() {
            return Err(CallFault::Working);
        }
        if sight.in_hand {
            return Err(CallFault::PaperInHand);
        }
        Ok(())
    }

    // Why an ask is refused.
    pub(crate) fn check_ask(&self, minute: u32, sight: &Sight) -> Result<(), CallFault>
        ensures value { result_err result ≡ refusal (ask_tests minute self.now sight.now) }
        ensures few { OnOk result (self.now.asks < 999_999) }
    {
        self.check_line_work(minute, sight)?;
        if self.trains_out() {
            return Err(CallFault::TrainsOut);
        }
        if self.acceptance.is_some() {
            return Err(CallFault::Acceptance);
        }
        if self.asks >= MOST_ASKS {
            return Err(CallFault::NumbersUsedUp);
        }
        Ok(())
    }

    // Why an acceptance is refused.
    pub(crate) fn check_accept(
        &self,
        at: Station,
        minute: u32,
        sight: &Sight,
    ) -> Result<(), CallFault>
        ensures value { result_err result ≡ refusal (accept_tests at minute self.now sight.now) }
        ensures records { OnOk result (records_used_up minute self.now ≡ false) }
        ensures right { OnOk result ((has_right at self.now && right_at_end self.now) ≡ false) }
    {
        self.check_line_work(minute, sight)?;
        if self.ask_heard.is_none() {
            return Err(CallFault::NothingThere);
        }
        if self.trains_out() {
            return Err(CallFault::TrainsOut);
        }
        if self.acceptance.is_some() {
            return Err(CallFault::Acceptance);
        }
        if self.records_used_up(minute) || (self.has_right(at) && self.right_at_end()) {
            return Err(CallFault::NumbersUsedUp);
        }
        Ok(())
    }

    // Why an issue is refused.
    pub(crate) fn check_issue(
        &self,
        at: Station,
        minute: u32,
        train: u32,
        nature: Nature,
        pass: bool,
        sight: &Sight,
    ) -> Result<(), CallFault>
        ensures value { result_err result ≡ refusal (issue_tests at minute train nature pass self.now sight.now) }
        ensures few { OnOk result (self.now.issued < 9_999) }
        ensures room { OnOk result (sight.now.tray_full ≡ false) }
        ensures right { OnOk result ((carries at pass self.now && right_at_end self.now) ≡ false) }
    {
        let dead = self.is_dead();
        let one_way = sight.track.is_one_way();
        if minute < self.clock {
            return Err(CallFault::Clock);
        }
        if one_way && pass {
            return Err(CallFault::OneWay);
        }
        if !dead && pass {
            return Err(CallFault::Working);
        }
        if sight.in_hand {
            return Err(CallFault::PaperInHand);
        }
        if !self.has_right(at) {
            return Err(CallFault::NoRight);
        }
        if !dead && self.trains_out() {
            return Err(CallFault::TrainsOut);
        }
        if !dead && !one_way && !self.is_accepted(train) {
            return Err(CallFault::Acceptance);
        }
        if dead && is_barred_when_dead(nature) {
            return Err(CallFault::Nature);
        }
        if dead && self.is_too_soon(minute, &sight.track) {
            return Err(CallFault::Interval);
        }
        if self.issued >= LAST_SERIAL || (self.carries(at, pass) && self.right_at_end()) {
            return Err(CallFault::NumbersUsedUp);
        }
        if sight.tray_full {
            return Err(CallFault::TrayFull);
        }
        Ok(())
    }

    // Why a departure or a cancellation is refused.
    pub(crate) fn check_in_hand(
        &self,
        at: Station,
        minute: u32,
        youngest: Option<Paper>,
    ) -> Result<(), CallFault>
        ensures { result_err result ≡ refusal (in_hand_tests at minute self.now youngest) }
    {
        if minute < self.clock {
            return Err(CallFault::Clock);
        }
        if !is_in_hand(youngest, at) {
            return Err(CallFault::NothingThere);
        }
        Ok(())
    }

    // Why a paper is not set back.
    pub(crate) fn check_set_back(
        &self,
        at: Station,
        minute: u32,
        number: Serial,
        youngest: Option<Paper>,
    ) -> Result<(), CallFault>
        ensures { result_err result ≡ refusal (set_back_tests at minute number.0 self.now youngest) }
    {
        if minute < self.clock {
            return Err(CallFault::Clock);
        }
        if is_in_hand(youngest, at) {
            return Err(CallFault::PaperInHand);
        }
        if !is_out(youngest, at, number) {
            return Err(CallFault::NotThatPaper);
        }
        if is_plain_dead(youngest) {
            return Err(CallFault::NoNumberCarried);
        }
        Ok(())
    }

    // Why a release is refused.
    pub(crate) fn check_release(
        &self,
        at: Station,
        minute: u32,
        sight: &Sight,
    ) -> Result<(), CallFault>
        ensures value { result_err result ≡ refusal (release_tests at minute self.now sight.now) }
        ensures records { OnOk result (records_used_up minute self.now ≡ false) }
        ensures right { OnOk result ((b_has_right at self.now && right_at_end self.now) ≡ false) }
    {
        self.check_line_work(minute, sight)?;
        if self.has_nothing_to_release(at) {
            return Err(CallFault::NothingThere);
        }
        if self.trains_out() {
            return Err(CallFault::TrainsOut);
        }
        if self.records_used_up(minute) || (self.b_has_right(at) && self.right_at_end()) {
            return Err(CallFault::NumbersUsedUp);
        }
        Ok(())
    }

    // Whether the working is dead.
    pub(crate) fn is_dead(&self) -> bool
        ensures { result ≡ dead self.now }
    {
        self.working == Working::Dead
    }

    // Whether some papers gone are not known to be handed in.
    fn trains_out(&self) -> bool
        ensures { result ≡ trains_out self.now }
    {
        self.known < self.gone
    }

    // Whether the right to send is here: the number is even at A, odd at B.
    pub(crate) fn has_right(&self, at: Station) -> bool
        ensures { result ≡ has_right at self.now }
    {
        match at {
            Station::A => self.right.0 % 2 == 0,
            Station::B => self.right.0 % 2 == 1,
        }
    }

    // Whether it is B that calls, and has the right.
    pub(crate) fn b_has_right(&self, at: Station) -> bool
        ensures { result ≡ b_has_right at self.now }
    {
        match at {
            Station::A => false,
            Station::B => self.has_right(at),
        }
    }

    // Whether the right number can be lifted no further.
    fn right_at_end(&self) -> bool
        ensures { result ≡ right_at_end self.now }
    {
        self.right >= LAST_RIGHT
    }

    // Whether an acceptance is held for a train.
    fn is_accepted(&self, train: u32) -> bool
        ensures { result ≡ accepted_for train self.now }
    {
        self.acceptance
            .is_some_and(|acceptance| acceptance.train == train)
    }

    // Whether a minute is before the last departure and the interval.
    fn is_too_soon(&self, minute: u32, track: &Track) -> bool
        ensures { result ≡ too_soon minute track.now self.now }
    {
        self.last_departure.is_some_and(|departure| (minute as u64)
            < departure as u64 + track.interval())
    }

    // Whether a paper takes the right with it: it is passed, or B issues it in telephone working.
    fn carries(&self, at: Station, pass: bool) -> bool
        ensures { result ≡ carries at pass self.now }
    {
        pass || (at == Station::B && !self.is_dead())
    }

    // Whether there is no open ask, no acceptance, and not B with the right.
    fn has_nothing_to_release(&self, at: Station) -> bool
        ensures { result ≡ nothing_to_release at self.now }
    {
        self.open_ask.is_none() && self.acceptance.is_none() && !self.b_has_right(at)
    }

    // The last record number taken on a day, 0 if none was.
    fn taken_on(&self, day: u32) -> u32
        ensures { result ≡ taken_on day self.now.last_record }
    {
        self.last_record
            .filter(|entry| entry.day == day)
            .map_or(0, |entry| entry.record.0)
    }

    // Whether the day's record numbers are used up.
    pub(crate) fn records_used_up(&self, minute: u32) -> bool
        ensures { result ≡ records_used_up minute self.now }
    {
        self.taken_on(minute / DAY) >= LAST_RECORD
    }

    // Takes the next record number.
    pub(crate) fn take_record(&mut self, minute: u32) -> RecordNumber
        requires { records_used_up minute self.old ≡ false }
        ensures value { result.0 ≡ next_record minute self.old }
        ensures after { self.new ≡ with_next_record minute self.old }
    {
        let day = minute / DAY;
        let record = RecordNumber(self.taken_on(day) + 1);
        self.last_record = Some(RecordEntry { record, day });
        record
    }

    // Takes the ask heard, or zeros where there is none.
    pub(crate) fn take_ask_heard(&mut self) -> Ask
        ensures train { result.train ≡ heard_train self.old.ask_heard }
        ensures count { result.count ≡ heard_count self.old.ask_heard }
        ensures after { self.new ≡ with_ask_heard None self.old }
    {
        self.ask_heard.take().unwrap_or(Ask { train: 0, count: 0 })
    }

    // The paper that an issue makes.
    pub(crate) fn paper(&self, at: Station, train: u32, pass: bool, sight: &Sight) -> Paper
        requires { (self.now.issued < 9_999) × ((carries at pass self.now && right_at_end self.now) ≡ false) }
        ensures { result ≡ paper_for at train pass sight.now.track self.now }
    {
        let carried = self
            .carries(at, pass)
            .then(|| RightNumber(self.right.0 + 1));
        let kind = if self.is_ticket(train) {
            PaperKind::Ticket
        } else {
            PaperKind::RedPermit
        };
        Paper {
            serial: Serial(self.issued + 1),
            station: at,
            train,
            kind,
            record: self.paper_record(train, &sight.track),
            carried,
            working: self.working,
            departed: None,
        }
    }

    // Whether a paper is a ticket: in telephone working, or if its train is accepted.
    fn is_ticket(&self, train: u32) -> bool
        ensures { result ≡ is_ticket train self.now }
    {
        !self.is_dead() || self.is_accepted(train)
    }

    // A paper's record number: its acceptance's, else on a one-way ticket the last arrival's, else 0.
    fn paper_record(&self, train: u32, track: &Track) -> RecordNumber
        ensures { result ≡ paper_record train track.now self.now }
    {
        if let Some(acceptance) = self.acceptance
            && acceptance.train == train
        {
            return acceptance.record;
        }
        if !track.is_one_way() || !self.is_ticket(train) {
            return RecordNumber(0);
        }
        self.last_arrival.unwrap_or(RecordNumber(0))
    }

    // Learns the number that a paper carries.
    pub(crate) fn learn_from(&mut self, carried: Option<RightNumber>)
        ensures { self.new ≡ learnt_from carried self.old }
    {
        self.learn(carried.unwrap_or(RightNumber(0)));
    }

    // Learns a right number: a higher one replaces the cabinet's own, and all papers gone are then known to be handed in.
    fn learn(&mut self, right: RightNumber)
        ensures { self.new ≡ learnt right.0 self.old }
    {
        if self.right < right {
            self.right = right;
            self.known = self.gone;
        }
    }

    // Notes what a message says.
    pub(crate) fn note(&mut self, message: &Message)
        ensures { self.new ≡ heard_as message.now.kind message.now self.old }
    {
        match message.kind {
            MessageKind::Ask => {
                self.learn(message.right);
                self.ask_heard = Some(Ask {
                    train: message.train,
                    count: message.count,
                });
            }
            MessageKind::Acceptance => {
                self.learn(message.right);
                self.note_acceptance(message);
            }
            MessageKind::Report => {
                self.last_arrival = Some(message.record);
                self.known = self.known.max(message.taken);
            }
            MessageKind::Release => {
                self.learn(message.right);
                self.ask_heard = None;
            }
        }
    }

    // Holds an acceptance whose count is the open ask's, which it ends.
    fn note_acceptance(&mut self, message: &Message)
        ensures { self.new ≡ acceptance_heard message.now self.old }
    {
        if let Some(ask) = self.open_ask
            && ask.count == message.count
        {
            self.acceptance = Some(Acceptance {
                train: message.train,
                record: message.record,
            });
            self.open_ask = None;
        }
    }
}

// Whether no train of a nature is sent in dead working: three of the five, which no derive tells apart.
fn is_barred_when_dead(nature: Nature) -> bool
    ensures { result ≡ barred_when_dead nature }
{
    matches!(
        nature,
        Nature::WorkingInSection | Nature::Returning | Nature::RadioFailed
    )
}
