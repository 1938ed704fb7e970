// A section of track between two stations, worked by its two cabinets over a line.
#![tactic(auto)]

use cabinets::cabinet::Cabinet;
use cabinets::track::Track;
use line::line::Line;
use line::per_station::PerStation;

mod acting;
mod calling;
mod desk;
mod making;
pub mod plan;
mod running;
mod tray;
pub mod turn;

pub use running::play;

// A section over any line. The tray with its live papers is lent to each call.
#[derive(Drop)]
pub struct Section<'l, L> {
    track: Track,
    size: usize,
    cabinets: PerStation<Cabinet>,
    line: &'l mut L,
}
