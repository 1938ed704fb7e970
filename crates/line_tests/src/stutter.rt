// A line that loses and repeats: every other hearing leaves the message to be heard again, a drop loses what waits for A, and a mend what waits for B.
ghost use Rattle.std.specs.Prelude.{◌≡◌};
ghost use Rattle.line.specs.Meaning.{fresh};
ghost use Rattle.line_tests.specs.Stutter.{stutter_drops, stutter_hears, stutter_laws, stutter_meaning, stutter_mends};

use line::line::Line;
use line::message::Message;
use line::per_station::PerStation;
use vocabulary::station::Station;

#[derive(Drop)]
pub struct Stutter {
    up: bool,
    repeats: bool,
    messages: PerStation<Option<Message>>,
}

impl Stutter {
    pub fn new() -> Stutter
        ensures { stutter_meaning result ≡ fresh 1 }
    {
        Stutter {
            up: true,
            repeats: true,
            messages: PerStation { a: None, b: None },
        }
    }
}

impl Line for Stutter {
    ghost meaning = { stutter_meaning };

    ghost hears = { stutter_hears };

    ghost drops = { stutter_drops };

    ghost mends = { stutter_mends };

    ghost laws = { stutter_laws };

    fn up(&self) -> bool {
        self.up
    }

    fn waiting(&self, at: Station) -> usize {
        usize::from(self.messages.get(at).is_some())
    }

    fn post(&mut self, to: Station, message: Message) -> bool {
        if !self.up || self.waiting(to) > 0 {
            return false;
        }
        let _ = self.messages.replace(to, Some(message));
        true
    }

    fn hear(&mut self, at: Station) -> Option<Message> {
        let message = self.messages.get(at);
        if !self.repeats {
            let _ = self.messages.replace(at, None);
        }
        self.repeats = !self.repeats;
        message
    }

    fn drop_line(&mut self) {
        self.up = false;
        self.messages.a = None;
    }

    fn mend_line(&mut self) {
        self.up = true;
        self.messages.b = None;
    }
}
