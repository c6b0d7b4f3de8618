// A page walked from its front, a record a step.
ghost use Rattle.std.specs.Prelude.{◌≡◌, ℕ, ◌+◌, ◌^◌, ◌<◌, List, length};
ghost use Rattle.refusal.specs.Said.{said};
ghost use Rattle.page.specs.declared.kinds.Point.{Point};
ghost use Rattle.page.specs.Faults.{told};
ghost use Rattle.page.specs.Records.{payload, size_of};
ghost use Rattle.page.specs.Steps.{looked, meant, part_after, at_end, stepped, state_of, read_on, read_from};
ghost use Rattle.page.specs.Causes.{Judged, Alone};
ghost use Rattle.page.specs.Laws.{AcceptedStays};
ghost use Rattle.page.specs.Walks.{rec_of, looked_of, InPlace, seen, Falls, Parts};

use crate::decode;
use crate::fault::{PageCause, PageFault};
use crate::kinds::{Part, Placed, Record, Step};
use crate::order::KnownOrder;
use crate::record::first_record;
use crate::walk::Walk;
use tray::point::Mark;

// What a record says between strokes or inside one.
fn meaning(p: Placed, part: Part) -> Result<Step, PageFault>
    ensures { said told result ≡ meant p.entry.place part (rec_of p.entry.record) }
{
    let place = p.place;
    match (part, p.record) {
        (Part::Outside, Record::Start(b)) => Ok(Step::Begin(decode::number(b))),
        (Part::Inside, Record::Plain(b)) => Ok(Step::Point(decode::point(b, Mark::Plain))),
        (Part::Inside, Record::Corner(b)) => Ok(Step::Point(decode::point(b, Mark::Corner))),
        (Part::Inside, Record::Order(b)) => {
            let order = KnownOrder::try_from(decode::order(b)).map_err(|_| PageCause::WrongCode.at(
                place,
            ))?;
            Ok(Step::Finish(order))
        }
        _ => Err(PageCause::OutOfPlace.at(place)),
    }
}

// What the end of the page says there.
fn page_end(place: usize, part: Part) -> Result<Step, PageFault>
    ensures { said told result ≡ at_end place part }
{
    match part {
        Part::Outside => Ok(Step::End),
        Part::Inside => Err(PageCause::OutOfPlace.at(place)),
    }
}

fn part_after(step: Step) -> Part
    ensures { result ≡ part_after step }
{
    match step {
        Step::Begin(_) | Step::Point(_) => Part::Inside,
        Step::Finish(_) | Step::End => Part::Outside,
    }
}

// A walk that stands at a place, with these bytes left.
fn standing<'a>(rest: &'a [u8], place: usize, part: Part) -> Walk<'a>
    requires { place + length rest.now < 2 ^ 64 }
    ensures rest { result.rest.now ≡ rest.now }
    ensures place { result.place ≡ place }
    ensures part { result.part ≡ part }
{
    Walk { rest, place, part }
}

impl<'a> Walk<'a> {
    // From the front of a page, between strokes.
    pub fn new(page: &'a [u8]) -> Walk<'a>
        ensures rest { result.rest.now ≡ page.now }
        ensures place { result.place ≡ 0 }
        ensures part { result.part ≡ Part.Outside }
        ensures judged { Judged page.now }
        ensures alone { Alone page.now }
        ensures again { AcceptedStays page.now }
    {
        standing(page, 0, Part::Outside)
    }

    // The record at the front of what is left, with its payload still a part of the page; none at the end of the page.
    pub fn look(&self) -> Result<Option<Placed<'a>>, PageFault>
        ensures looks { looked_of result ≡ looked self.now.place self.now.rest.now }
        ensures in_place { InPlace self.now.place self.now.rest.now result }
    {
        if self.rest.is_empty() {
            return Ok(None);
        }
        let (placed, _) = first_record(self.rest, self.place)?;
        Ok(Some(placed))
    }

    // One record more, or the end of the page; a refused step moves nothing.
    pub fn step(&mut self) -> Result<Step, PageFault>
        ensures steps { seen result self.new ≡ stepped self.old.place self.old.part self.old.rest.now }
        ensures reads { (n : ℕ) (ps : List Point) → read_from self.old.place (state_of self.old.part n ps) self.old.rest.now ≡ read_on (state_of self.old.part n ps) read_from (seen result self.new) }
        ensures falls { Falls (length self.new.rest.now) (length self.old.rest.now) (said told result) }
        ensures parts { Parts self.old.part self.new.part (said told result) }
    {
        let place = self.place;
        let part = self.part;
        if self.rest.is_empty() {
            return page_end(place, part);
        }
        let (placed, after) = first_record(self.rest, place)?;
        let step = meaning(placed, part)?;
        *self = standing(
            after,
            place + (self.rest.len() - after.len()),
            part_after(step),
        );
        Ok(step)
    }
}
