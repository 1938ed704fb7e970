// What can be known over any line: only the laws.
ghost use Rattle.std.specs.Prelude.{◌≡◌, true, [], Some};
ghost use Rattle.line.specs.Meaning.{waits};

use line::line::Line;
use line::message::Message;
use vocabulary::station::Station;

// Posts a message to a station and hears there. Over any line that is up and has nothing waiting there, that message is heard.
pub fn post_and_hear<L: Line>(line: &mut L, to: Station, message: Message) -> Option<Message>
    ensures { (L.Line.meaning line.old).up ≡ true → waits to (L.Line.meaning line.old) ≡ [] → result ≡ Some message }
{
    let _ = line.post(to, message);
    line.hear(to)
}
