// Slips: a token for each paper in hand, spent by its departure or cancellation.
#![tactic(auto)]

use vocabulary::fault::Fault;
use vocabulary::number::Serial;
use vocabulary::station::Station;

mod issuing;
mod spending;

// The slip of one paper, by its station and its serial. Only an issue makes one; it can neither be copied nor let go, since
// it derives neither `Copy` nor `Drop`.
pub struct Slip {
    station: Station,
    serial: Serial,
}

// Why a slip was not spent. It comes back, unless its paper is no longer in hand: then it ends.
pub enum Unspent {
    Back(Slip, Fault),
    Ended(Fault),
}
