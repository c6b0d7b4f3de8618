// The strokes of a page answered one after another.
ghost use Rattle.std.specs.Prelude.{◌≡◌, ◌<◌, length};
ghost use Rattle.page.specs.Steps.{reading};
ghost use Rattle.job.specs.Whole.{Shorter};
ghost use Rattle.job.specs.Jobs.{beside, to_read, next_from, next_done, outcome_of, jobbed, More, Side, RunSide};
ghost use Rattle.job.specs.Calls.{KeepsTheLaw};
ghost use Rattle.job.specs.Laws.{AnswersFit, FitsThePage, HoldsTheAnswers, OwnRecordsAlone, Never8Or10};

use crate::answered::Answered;
use crate::job::{Job, JobFault};
use crate::stroke::read_stroke;
use page::fault::StepFault;
use page::walk::Walk;
use page::writer::Writer;

impl<'a> Job<'a> {
    // From the front of a page, with nothing answered yet.
    pub fn new(page: &'a [u8]) -> Job<'a>
        ensures reads { to_read result ≡ reading page.now }
        ensures count { result.count ≡ 0 }
        ensures used { result.writer.used ≡ 0 }
        ensures fits { AnswersFit page.now }
        ensures roomy { Never8Or10 }
        ensures lawful { KeepsTheLaw }
    {
        Job {
            walk: Walk::new(page),
            writer: Writer::new(),
            count: 0,
        }
    }

    // Answers the next stroke and appends its record, or tells that there is none; a refused step leaves everything as it was.
    fn step(&mut self, answers: &mut [u8]) -> Result<Option<Answered>, StepFault>
        ensures next { next_done (beside self.old.count result) self.new answers.new ≡ next_from self.old answers.old }
        ensures side { Side (to_read self.old).strokes (beside self.old.count result) }
        ensures falls { More (length self.new.walk.rest.now) (length self.old.walk.rest.now) (beside self.old.count result) }
    {
        let mut walk = self.walk;
        let Some(stroke) = read_stroke(&mut walk)? else {
            return Ok(None);
        };
        let answered = stroke.answer();
        let mut writer = self.writer;
        answered
            .append(&mut writer, answers)
            .map_err(StepFault::Answers)?;
        *self = Job {
            walk,
            writer,
            count: self.count + 1,
        };
        Ok(Some(answered))
    }

    // The same, with the count of the strokes answered before it put around a refusal of a page.
    pub fn next(&mut self, answers: &mut [u8]) -> Result<Option<Answered>, JobFault>
        ensures next { next_done result self.new answers.new ≡ next_from self.old answers.old }
        ensures side { Side (to_read self.old).strokes result }
        ensures falls { More (length self.new.walk.rest.now) (length self.old.walk.rest.now) result }
    {
        let appended = self.count;
        self.step(answers)
            .map_err(|fault| JobFault { appended, fault })
    }
}

// Answers every stroke of a page on an answer page, and answers how many there were; or stops at the first refusal of a page.
pub fn run(page: &[u8], answers: &mut [u8]) -> Result<usize, JobFault>
    ensures outcome { outcome_of result answers.new ≡ jobbed page.now answers.old }
    ensures side { RunSide (reading page.now).strokes result }
    ensures fits { FitsThePage page.now answers.old }
    ensures holds { HoldsTheAnswers page.now answers.old }
    ensures alone { OwnRecordsAlone }
    ensures roomy { Never8Or10 }
    ensures lawful { KeepsTheLaw }
{
    let mut job = Job::new(page);
    while job.next(answers)?.is_some() {}
    Ok(job.count)
}
