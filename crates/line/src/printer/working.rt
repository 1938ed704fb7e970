// Making a printer, and the printer as a line.
ghost use Rattle.std.specs.Prelude.{◌≡◌, false, is_ok, OnOk};
ghost use Rattle.line.specs.Meaning.{posting};
ghost use Rattle.line.specs.Printer.{Prepared, SpaceKept, making_printer, new_meaning, preparing, printer_drops, printer_hears, printer_meaning, printer_mends, unfit};
ghost use Rattle.line.specs.PrinterLaws.{printer_laws};

use super::Printer;
use crate::line::Line;
use crate::message::Message;
use queue::Queue;
use vocabulary::fault::{Fault, MakingFault};
use vocabulary::station::Station;

// How many messages may wait for each station.
pub const MOST_MESSAGES: usize = 8;

impl<'a, 'b, 'c, 'd> Printer<'a, 'b, 'c, 'd> {
    // Makes two empty queues ready for a printer, each with room for just eight messages. Room for fewer in either is refused, and so is a queue that holds anything; then both are as they were.
    pub fn prepare(
        for_a: &mut Queue<'_, Message>,
        for_b: &mut Queue<'_, Message>,
    ) -> Result<(), Fault>
        ensures answer { result ≡ preparing for_a.old for_b.old }
        ensures done { OnOk result (Prepared for_a.old for_a.new × Prepared for_b.old for_b.new) }
        ensures refused { is_ok result ≡ false → (for_a.new ≡ for_a.old) × (for_b.new ≡ for_b.old) }
    {
        if unfit(for_a) || unfit(for_b) {
            return Err(Fault::Making(MakingFault::Space, 0));
        }
        make_ready(for_a);
        make_ready(for_b);
        Ok(())
    }

    // A printer over two queues, which are made ready for it. It is up, with no message. Unfit queues are refused; `prepare` says what they then hold.
    pub fn new(
        for_a: &'a mut Queue<'b, Message>,
        for_b: &'c mut Queue<'d, Message>,
    ) -> Result<Printer<'a, 'b, 'c, 'd>, Fault>
        ensures { new_meaning result ≡ making_printer for_a.old for_b.old }
    {
        Printer::prepare(for_a, for_b)?;
        Ok(Printer {
            up: true,
            for_a,
            for_b,
        })
    }
}

impl<'a, 'b, 'c, 'd> Line for Printer<'a, 'b, 'c, 'd> {
    ghost meaning = { printer_meaning };

    ghost hears = { printer_hears };

    ghost drops = { printer_drops };

    ghost mends = { printer_mends };

    ghost laws = { printer_laws };

    fn up(&self) -> bool {
        self.up
    }

    fn waiting(&self, at: Station) -> usize {
        match at {
            Station::A => self.for_a.len(),
            Station::B => self.for_b.len(),
        }
    }

    fn post(&mut self, to: Station, message: Message) -> bool
        ensures posted { (result, printer_meaning self.new) ≡ posting to message (printer_meaning self.old) }
        ensures kept { SpaceKept self.old self.new }
    {
        if !self.up {
            return false;
        }
        match to {
            Station::A => self.for_a.push_back(message).is_ok(),
            Station::B => self.for_b.push_back(message).is_ok(),
        }
    }

    fn hear(&mut self, at: Station) -> Option<Message>
        ensures heard { printer_hears self.old at result self.new }
        ensures kept { SpaceKept self.old self.new }
    {
        match at {
            Station::A => self.for_a.pop_front(),
            Station::B => self.for_b.pop_front(),
        }
    }

    fn drop_line(&mut self)
        ensures dropped { printer_drops self.old self.new }
        ensures kept { SpaceKept self.old self.new }
    {
        self.up = false;
    }

    fn mend_line(&mut self)
        ensures mended { printer_mends self.old self.new }
        ensures kept { SpaceKept self.old self.new }
    {
        self.up = true;
    }
}

// Whether a queue has room for fewer than eight messages, or holds any.
fn unfit(queue: &Queue<'_, Message>) -> bool
    ensures { result ≡ unfit queue.now }
{
    queue.room() < MOST_MESSAGES || !queue.is_empty()
}

// Gives an empty queue that has room for eight messages room for just as many.
fn make_ready(queue: &mut Queue<'_, Message>)
    requires { unfit queue.old ≡ false }
    ensures { Prepared queue.old queue.new }
{
    let _ = queue.set_room(MOST_MESSAGES);
}
