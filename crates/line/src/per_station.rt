// One value for each station.
ghost use Rattle.std.specs.Prelude.{◌≡◌};

use std::mem;
use vocabulary::station::Station;

#[derive(Clone, Copy)]
pub struct PerStation<T> {
    pub a: T,
    pub b: T,
}

impl<T: Copy> PerStation<T> {
    ghost use Rattle.line.specs.PerStation.{value_at, with_value_at};

    // The value of a station.
    pub fn get(&self, at: Station) -> T
        ensures { result ≡ value_at at self.now }
    {
        match at {
            Station::A => self.a,
            Station::B => self.b,
        }
    }

    // Gives a station another value. The one that it had is the answer.
    pub fn replace(&mut self, at: Station, value: T) -> T
        ensures old { result ≡ value_at at self.old }
        ensures new { self.new ≡ with_value_at at value self.old }
    {
        match at {
            Station::A => mem::replace(&mut self.a, value),
            Station::B => mem::replace(&mut self.b, value),
        }
    }
}
