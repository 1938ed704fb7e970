// The two ends of the section.
ghost use Rattle.std.specs.Prelude.{◌≡◌, Some};
ghost use Rattle.vocabulary.specs.Bytes.{read_byte};
ghost use Rattle.vocabulary.specs.Stations.{opposite, station_of};
ghost use Rattle.vocabulary.specs.Words.{station_word};

use crate::byte::UnknownByte;
use std::fmt;

#[derive(Clone, Copy, PartialEq, Eq, Debug)]
pub enum Station {
    A,
    B,
}

// A log writes byte 0 for A and 1 for B.
impl TryFrom<u8> for Station {
    type Error = UnknownByte;

    ghost try_from_gives = { λ n r. r ≡ read_byte (station_of n) n };

    fn try_from(byte: u8) -> Result<Station, UnknownByte> {
        match byte {
            0 => Ok(Station::A),
            1 => Ok(Station::B),
            _ => Err(UnknownByte(byte)),
        }
    }
}

impl fmt::Display for Station {
    ghost output = { λ x. Some (station_word x) };

    fn fmt<W: fmt::Write>(&self, f: &mut fmt::Formatter<W>) -> fmt::Result {
        match self {
            Station::A => write!(f, "A"),
            Station::B => write!(f, "B"),
        }
    }
}

impl Station {
    // The station at the far end.
    pub fn other(self) -> Station
        ensures { result ≡ opposite self }
    {
        match self {
            Station::A => Station::B,
            Station::B => Station::A,
        }
    }
}
