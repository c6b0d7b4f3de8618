// The stroke whose records are being read.
ghost use Rattle.std.specs.Prelude.{◌≡◌, length};
ghost use Rattle.tray.specs.Trays.{writing};

use arrayvec::ArrayVec;
use tray::causes::Refusal;
use tray::point::Mark;
use tray::tray::Writing;

// Its points so far, their marks, which wait until the pen is lifted, and the refusal of its first refused put.
#[derive(Drop)]
pub(crate) struct OpenStroke {
    pub(crate) tray: Writing,
    pub(crate) marks: ArrayVec<Mark, 512>,
    pub(crate) drawn: Result<(), Refusal>,
    ghost paired: { length marks.items ≡ length (writing tray).points },
}
