// Where a job stands between two strokes.
ghost use Rattle.std.specs.Prelude.{◌≡◌, ◌+◌, ◌^◌, ◌<◌, true, length};
ghost use Rattle.job.specs.Between.{is_outside};

use page::fault::StepFault;
use page::walk::Walk;
use page::writer::Writer;

// The page that is left to read, how far the answer page is written, and how many strokes were answered.
#[derive(Clone, Copy)]
pub struct Job<'a> {
    pub(crate) walk: Walk<'a>,
    pub(crate) writer: Writer,
    pub(crate) count: usize,
    ghost between: { is_outside walk.part ≡ true },
    ghost few: { count + length walk.rest.now < 2 ^ 64 },
}

// What stops a job: the refusal of a page, whole, beside how many strokes were answered before it.
#[derive(Clone, Copy)]
pub struct JobFault {
    pub appended: usize,
    pub fault: StepFault,
}
