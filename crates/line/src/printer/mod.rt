// The printer: eight messages each way, in queues that the caller lends.
ghost use Rattle.std.specs.Prelude.{◌≡◌};
ghost use Rattle.queue.specs.Model.{room_of};

use crate::message::Message;
use queue::Queue;

mod working;

pub use working::MOST_MESSAGES;

// The two queues may be lent for different times, so no one reference, nor one pair, holds either: each act on a station's queue names both.
#[derive(Drop)]
pub struct Printer<'a, 'b, 'c, 'd> {
    up: bool,
    for_a: &'a mut Queue<'b, Message>,
    for_b: &'c mut Queue<'d, Message>,
    ghost sound: { (room_of for_a.now ≡ 8) × (room_of for_b.now ≡ 8) },
}
