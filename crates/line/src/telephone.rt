// The telephone: one message each way, held by value.
ghost use Rattle.std.specs.Prelude.{◌≡◌};
ghost use Rattle.line.specs.Meaning.{fresh};
ghost use Rattle.line.specs.Telephone.{telephone_drops, telephone_hears, telephone_meaning, telephone_mends};
ghost use Rattle.line.specs.TelephoneLaws.{telephone_laws};

use crate::line::Line;
use crate::message::Message;
use crate::per_station::PerStation;
use vocabulary::station::Station;

// No message either way.
const NONE: PerStation<Option<Message>> = PerStation { a: None, b: None };

#[derive(Drop)]
pub struct Telephone {
    up: bool,
    messages: PerStation<Option<Message>>,
}

impl Telephone {
    // A telephone that is up, with no message.
    pub fn new() -> Telephone
        ensures { telephone_meaning result ≡ fresh 1 }
    {
        Telephone {
            up: true,
            messages: NONE,
        }
    }
}

impl Line for Telephone {
    ghost meaning = { telephone_meaning };

    ghost hears = { telephone_hears };

    ghost drops = { telephone_drops };

    ghost mends = { telephone_mends };

    ghost laws = { telephone_laws };

    fn up(&self) -> bool {
        self.up
    }

    fn waiting(&self, at: Station) -> usize {
        usize::from(self.messages.get(at).is_some())
    }

    fn post(&mut self, to: Station, message: Message) -> bool {
        if !self.up || self.waiting(to) > 0 {
            return false;
        }
        let _ = self.messages.replace(to, Some(message));
        true
    }

    fn hear(&mut self, at: Station) -> Option<Message> {
        self.messages.replace(at, None)
    }

    fn drop_line(&mut self) {
        self.up = false;
        self.messages = NONE;
    }

    fn mend_line(&mut self) {
        self.up = true;
    }
}
