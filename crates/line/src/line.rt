// A line between the stations, by what it means.
ghost use Rattle.std.specs.Prelude.{◌≡◌, length, Option};
ghost use Rattle.vocabulary.specs.declared.station.Station.{Station};
ghost use Rattle.line.specs.declared.message.Message.{Message};
ghost use Rattle.line.specs.Laws.{Laws};
ghost use Rattle.line.specs.Meaning.{Meaning, posting, waits};

use crate::message::Message;
use vocabulary::station::Station;

// A line. What hearing, dropping and mending do is each line's own choice, within the laws.
pub trait Line {
    // the mark, and the messages that wait for each station
    ghost meaning: { Self → Meaning };

    // what a hearing at a station may answer and lead to
    ghost hears: { Self → Station → Option Message → Self → Type 0 };

    // what a drop may lead to
    ghost drops: { Self → Self → Type 0 };

    // what a mend may lead to
    ghost mends: { Self → Self → Type 0 };

    // the laws of a line hold
    ghost laws: { Laws meaning hears drops mends };

    // Whether the line is up.
    fn up(&self) -> bool
        ensures { result ≡ (meaning self.now).up };

    // How many messages wait for a station.
    fn waiting(&self, at: Station) -> usize
        ensures { result ≡ length (waits at (meaning self.now)) };

    // Posts a message to a station, and says whether it did: a bool, since a line that is down or full makes no error of its own.
    fn post(&mut self, to: Station, message: Message) -> bool
        ensures { (result, meaning self.new) ≡ posting to message (meaning self.old) };

    // Hears one message that waits for a station, if any does.
    fn hear(&mut self, at: Station) -> Option<Message>
        ensures { hears self.old at result self.new };

    // The line goes down.
    fn drop_line(&mut self)
        ensures { drops self.old self.new };

    // The line comes up again.
    fn mend_line(&mut self)
        ensures { mends self.old self.new };
}
