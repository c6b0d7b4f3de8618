// The job for callers in other languages: bytes of a page in, bytes of its answers out.
#![tactic(auto)]

ghost use Rattle.std.specs.Prelude.{◌≡◌, []};
ghost use Rattle.job.specs.Jobs.{outcome_of, jobbed};
ghost use Rattle.plotter.specs.Status.{status_of};

use job::job::JobFault;
use job::next::run;
use refusal::Told;

// How many strokes were answered, and the number and the place of the refusal that stopped the job; number 0 where none did: C has no `Result`.
#[repr(C)]
#[derive(Clone, Copy)]
pub struct Status {
    pub strokes: usize,
    pub refusal: usize,
    pub place: usize,
}

impl From<Result<usize, JobFault>> for Status {
    ghost from_gives = { λ done status. status ≡ status_of (outcome_of done []) };

    fn from(done: Result<usize, JobFault>) -> Status {
        match done {
            Ok(strokes) => Status {
                strokes,
                refusal: 0,
                place: 0,
            },
            Err(stop) => {
                let told = Told::from(stop.fault);
                Status {
                    strokes: stop.appended,
                    refusal: usize::from(told.number),
                    place: told.place,
                }
            }
        }
    }
}

// Answers the strokes of a page on an answer page. C links it through `plotter_c`, since a static library is no library for crates.
#[unsafe(no_mangle)]
pub extern "C" fn fulgestam_reduce(page: &[u8], answers: &mut [u8], status: &mut Status)
    ensures answers { answers.new ≡ (jobbed page.now answers.old).bytes }
    ensures status { status.new ≡ status_of (jobbed page.now answers.old) }
{
    *status = Status::from(run(page, answers));
}
