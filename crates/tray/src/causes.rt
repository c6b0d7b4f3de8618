// Why a call on a tray is refused.
ghost use Rattle.std.specs.Prelude.{◌≡◌, ◌<◌};
ghost use Rattle.tray.specs.Refusals.{told as told_of};

use refusal::{Layer, Told};

// The cause, with the place where it is not the same for every call. Those from WideTolerance on refuse a reduce alone.
#[derive(Clone, Copy, Debug, PartialEq, Eq)]
pub enum Refusal {
    OffSheet(u16),
    StoppedClock(u16),
    LongStroke(u16),
    FullTray,
    BareTray,
    NoSuchPoint(u16),
    WideTolerance,
    ShortTable(u16),
    NoWay(u16),
    ShortList(u16),
}

// The number and the place of the cause, and the layer of the tray.
impl From<Refusal> for Told {
    ghost from_gives = { λ refusal told. (told ≡ told_of refusal) × (told.place < 65536) };

    fn from(refusal: Refusal) -> Told {
        let (number, place) = match refusal {
            Refusal::OffSheet(place) => (1, place),
            Refusal::StoppedClock(place) => (2, place),
            Refusal::LongStroke(place) => (3, place),
            Refusal::FullTray => (4, 513),
            Refusal::BareTray => (5, 0),
            Refusal::NoSuchPoint(place) => (6, place),
            Refusal::WideTolerance => (7, 0),
            Refusal::ShortTable(place) => (8, place),
            Refusal::NoWay(place) => (9, place),
            Refusal::ShortList(place) => (10, place),
        };
        Told {
            number,
            place: usize::from(place),
            layer: Layer::Tray,
        }
    }
}
