// The job's export, for callers in C and other languages to link.
#![tactic(auto)]

ghost use Rattle.std.specs.Prelude.{◌≡◌};
ghost use Rattle.job.specs.Jobs.{jobbed};
ghost use Rattle.plotter.specs.Status.{status_of};

use plotter::Status;

// Answers the strokes of a page on an answer page: the library's function under the name that C links.
#[unsafe(no_mangle)]
pub extern "C" fn fulgestam_reduce(page: &[u8], answers: &mut [u8], status: &mut Status)
    ensures answers { answers.new ≡ (jobbed page.now answers.old).bytes }
    ensures status { status.new ≡ status_of (jobbed page.now answers.old) }
{
    plotter::fulgestam_reduce(page, answers, status)
}
