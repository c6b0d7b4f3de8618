// The kinds of record by their numbers.
ghost use Rattle.std.specs.Prelude.{◌≡◌};
ghost use Rattle.page.specs.Kinds.{kind_number, NamesKind};
ghost use Rattle.page.specs.Strokes.{mark_kind};

use crate::order::UnknownCode;
use tray::point::Mark;

// A page of strokes has the first four, a page of answers the last two.
#[derive(Clone, Copy, Debug, PartialEq, Eq)]
pub(crate) enum Kind {
    Start = 1,
    Plain = 2,
    Corner = 3,
    Order = 4,
    Kept = 5,
    Refused = 6,
}

impl TryFrom<u16> for Kind {
    type Error = UnknownCode;

    ghost try_from_gives = { NamesKind };

    fn try_from(number: u16) -> Result<Kind, UnknownCode> {
        match number {
            1 => Ok(Kind::Start),
            2 => Ok(Kind::Plain),
            3 => Ok(Kind::Corner),
            4 => Ok(Kind::Order),
            5 => Ok(Kind::Kept),
            6 => Ok(Kind::Refused),
            _ => Err(UnknownCode(number)),
        }
    }
}

// The low byte of its number; the high one is 0.
impl From<Kind> for u8 {
    ghost from_gives = { λ k n. n ≡ kind_number k };

    fn from(kind: Kind) -> u8 {
        kind as u8
    }
}

// The kind of a point's record.
impl From<Mark> for Kind {
    ghost from_gives = { λ m r. kind_number r ≡ mark_kind m };

    fn from(mark: Mark) -> Kind {
        match mark {
            Mark::Plain => Kind::Plain,
            Mark::Corner => Kind::Corner,
        }
    }
}
