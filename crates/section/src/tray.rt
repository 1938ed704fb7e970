// The tray: the live papers in order of issue, the oldest first.
ghost use Rattle.std.specs.Prelude.{◌≡◌, ◌<◌, min, [], ◌∷◌, ◌++◌, length, nat_le};
ghost use Rattle.queue.specs.Model.{items, room_of};
ghost use Rattle.cabinets.specs.Tray.{but_oldest, but_youngest, has_live, oldest, youngest, youngest_departed};
ghost use Rattle.section.specs.State.{TrayKept};

use cabinets::paper::Paper;
use queue::Queue;
use vocabulary::station::Station;

// The paper issued first.
pub(crate) fn oldest(tray: &Queue<'_, Paper>) -> Option<Paper>
    ensures { result ≡ oldest (items tray.now) }
{
    tray.front()
}

// The paper issued last.
#[tactic(auto, using(crate::proofs::Trays::last_is_youngest))]
pub(crate) fn youngest(tray: &Queue<'_, Paper>) -> Option<Paper>
    ensures { result ≡ youngest (items tray.now) }
{
    tray.back()
}

// Whether a tray for so many papers has no place for another.
pub(crate) fn is_full(tray: &Queue<'_, Paper>, size: usize) -> bool
    ensures { result ≡ nat_le (min size (room_of tray.now)) (length (items tray.now)) }
{
    tray.len() >= size.min(tray.room())
}

// Whether some paper of a station is live.
pub(crate) fn has_live(tray: &Queue<'_, Paper>, of: Station) -> bool
    ensures { result ≡ has_live of (items tray.now) }
{
    tray.iter().any(|paper| paper.station == of)
}

// Puts a paper behind the others.
pub(crate) fn put(tray: &mut Queue<'_, Paper>, paper: Paper)
    requires { length (items tray.old) < room_of tray.old }
    ensures papers { items tray.new ≡ items tray.old ++ paper ∷ [] }
    ensures kept { TrayKept tray.old tray.new }
{
    let _ = tray.push_back(paper);
}

// Marks the youngest paper as departed.
pub(crate) fn mark_departed(tray: &mut Queue<'_, Paper>, minute: u32)
    ensures papers { items tray.new ≡ youngest_departed minute (items tray.old) }
    ensures kept { TrayKept tray.old tray.new }
{
    if let Some(paper) = tray.pop_back() {
        let departed = Paper {
            departed: Some(minute),
            ..paper
        };
        let _ = tray.push_back(departed);
    }
}

// Takes the youngest paper out.
#[tactic(auto, using(crate::proofs::Trays::rest_is_older))]
pub(crate) fn take_youngest(tray: &mut Queue<'_, Paper>)
    ensures papers { items tray.new ≡ but_youngest (items tray.old) }
    ensures kept { TrayKept tray.old tray.new }
{
    let _ = tray.pop_back();
}

// Takes the oldest paper out.
pub(crate) fn take_oldest(tray: &mut Queue<'_, Paper>)
    ensures papers { items tray.new ≡ but_oldest (items tray.old) }
    ensures kept { TrayKept tray.old tray.new }
{
    let _ = tray.pop_front();
}
