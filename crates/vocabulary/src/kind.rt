// The kinds that a making and an issue name by a byte: of the track, of the line, the nature of a train, and its pass. Each has its bytes and its words written out, since no impl here may come from a macro.
ghost use Rattle.std.specs.Prelude.{◌≡◌, Some};
ghost use Rattle.vocabulary.specs.Bytes.{read_byte};
ghost use Rattle.vocabulary.specs.Kinds.{line_of, nature_of, pass_kind_of, track_of};
ghost use Rattle.vocabulary.specs.Words.{line_word, nature_word, pass_word, track_word};

use crate::byte::UnknownByte;
use std::fmt;

// How a track is worked: both ways, or from A to B alone.
#[derive(Clone, Copy, PartialEq, Eq, Debug)]
pub enum TrackKind {
    Single = 0,
    OneWay = 1,
}

// The two lines that are built between the stations.
#[derive(Clone, Copy, PartialEq, Eq, Debug)]
pub enum LineKind {
    Telephone = 0,
    Printer = 1,
}

// What a train is sent for.
#[derive(Clone, Copy, PartialEq, Eq, Debug)]
pub enum Nature {
    Ordinary = 0,
    // It stops to work in the section.
    WorkingInSection = 1,
    Rescue = 2,
    // It comes back out of the section.
    Returning = 3,
    RadioFailed = 4,
}

// Whether the right to send goes with a train.
#[derive(Clone, Copy, PartialEq, Eq, Debug)]
pub enum Pass {
    No = 0,
    Yes = 1,
}

impl TryFrom<u8> for TrackKind {
    type Error = UnknownByte;

    ghost try_from_gives = { λ n r. r ≡ read_byte (track_of n) n };

    fn try_from(byte: u8) -> Result<TrackKind, UnknownByte> {
        match byte {
            0 => Ok(TrackKind::Single),
            1 => Ok(TrackKind::OneWay),
            _ => Err(UnknownByte(byte)),
        }
    }
}

impl fmt::Display for TrackKind {
    ghost output = { λ x. Some (track_word x) };

    fn fmt<W: fmt::Write>(&self, f: &mut fmt::Formatter<W>) -> fmt::Result {
        match self {
            TrackKind::Single => write!(f, "single"),
            TrackKind::OneWay => write!(f, "one-way"),
        }
    }
}

impl TryFrom<u8> for LineKind {
    type Error = UnknownByte;

    ghost try_from_gives = { λ n r. r ≡ read_byte (line_of n) n };

    fn try_from(byte: u8) -> Result<LineKind, UnknownByte> {
        match byte {
            0 => Ok(LineKind::Telephone),
            1 => Ok(LineKind::Printer),
            _ => Err(UnknownByte(byte)),
        }
    }
}

impl fmt::Display for LineKind {
    ghost output = { λ x. Some (line_word x) };

    fn fmt<W: fmt::Write>(&self, f: &mut fmt::Formatter<W>) -> fmt::Result {
        match self {
            LineKind::Telephone => write!(f, "telephone"),
            LineKind::Printer => write!(f, "printer"),
        }
    }
}

impl TryFrom<u8> for Nature {
    type Error = UnknownByte;

    ghost try_from_gives = { λ n r. r ≡ read_byte (nature_of n) n };

    fn try_from(byte: u8) -> Result<Nature, UnknownByte> {
        match byte {
            0 => Ok(Nature::Ordinary),
            1 => Ok(Nature::WorkingInSection),
            2 => Ok(Nature::Rescue),
            3 => Ok(Nature::Returning),
            4 => Ok(Nature::RadioFailed),
            _ => Err(UnknownByte(byte)),
        }
    }
}

impl fmt::Display for Nature {
    ghost output = { λ x. Some (nature_word x) };

    fn fmt<W: fmt::Write>(&self, f: &mut fmt::Formatter<W>) -> fmt::Result {
        match self {
            Nature::Ordinary => write!(f, "ordinary"),
            Nature::WorkingInSection => write!(f, "working"),
            Nature::Rescue => write!(f, "rescue"),
            Nature::Returning => write!(f, "returning"),
            Nature::RadioFailed => write!(f, "radio-failed"),
        }
    }
}

impl TryFrom<u8> for Pass {
    type Error = UnknownByte;

    ghost try_from_gives = { λ n r. r ≡ read_byte (pass_kind_of n) n };

    fn try_from(byte: u8) -> Result<Pass, UnknownByte> {
        match byte {
            0 => Ok(Pass::No),
            1 => Ok(Pass::Yes),
            _ => Err(UnknownByte(byte)),
        }
    }
}

impl fmt::Display for Pass {
    ghost output = { λ x. Some (pass_word x) };

    fn fmt<W: fmt::Write>(&self, f: &mut fmt::Formatter<W>) -> fmt::Result {
        match self {
            Pass::No => write!(f, "no"),
            Pass::Yes => write!(f, "yes"),
        }
    }
}
