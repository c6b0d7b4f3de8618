// Why a page is refused, and what is told of it.
ghost use Rattle.std.specs.Prelude.{◌≡◌};
ghost use Rattle.page.specs.declared.fault.StepFault.TheVariants.{Page};
ghost use Rattle.page.specs.Faults.{told, step_told};

use refusal::{Layer, Told};

#[derive(Clone, Copy, Debug, PartialEq, Eq)]
pub enum PageCause {
    CutRecord = 11,
    StrangeKind = 12,
    WrongLength = 13,
    OutOfPlace = 14,
    WrongCode = 15,
    ShortPage = 16,
}

#[derive(Clone, Copy, Debug, PartialEq, Eq)]
pub struct PageFault {
    pub cause: PageCause,
    pub place: usize,
}

impl PageCause {
    pub(crate) fn at(self, place: usize) -> PageFault
        ensures { result ≡ record { cause = self; place = place } }
    {
        PageFault { cause: self, place }
    }
}

impl From<PageFault> for Told {
    ghost from_gives = { λ f r. r ≡ told f };

    fn from(fault: PageFault) -> Told {
        Told {
            number: fault.cause as u16,
            place: fault.place,
            layer: Layer::Page,
        }
    }
}

// What stops a caller who reads one page and writes another: the page of strokes, or the page of answers.
#[derive(Clone, Copy, Debug, PartialEq, Eq)]
pub enum StepFault {
    Page(PageFault),
    Answers(PageFault),
}

impl From<PageFault> for StepFault {
    ghost from_gives = { λ e r. r ≡ Page e };

    fn from(e: PageFault) -> StepFault {
        StepFault::Page(e)
    }
}

impl From<StepFault> for Told {
    ghost from_gives = { λ f r. r ≡ step_told f };

    fn from(fault: StepFault) -> Told {
        match fault {
            StepFault::Page(f) => Told::from(f),
            StepFault::Answers(f) => Told::from(f),
        }
    }
}
