// What a station sees of the section beside its own cabinet.
use crate::track::Track;

#[derive(Clone, Copy)]
pub struct Sight {
    pub track: Track,
    // A paper of this station is in hand.
    pub in_hand: bool,
    // The tray has no place for another paper.
    pub tray_full: bool,
}
