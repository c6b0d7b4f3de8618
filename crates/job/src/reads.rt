// The steps of a walk, told apart by where it stands.
// Where it stands is asked and told by clauses: a type of walk for each part would have to repeat all that a walk has.
ghost use Rattle.std.specs.Prelude.{◌≡◌, ℕ, ◌<◌, List, length, OnOk};
ghost use Rattle.page.specs.declared.kinds.Part.TheVariants.{Outside, Inside};
ghost use Rattle.page.specs.declared.kinds.Point.{Point as Dot};
ghost use Rattle.page.specs.Steps.{outside, inside, read_from};
ghost use Rattle.job.specs.Reads.{begun, inner, Between, Fewer, Within};

use page::fault::PageFault;
use page::kinds::{Point, Step};
use page::order::KnownOrder;
use page::walk::Walk;
use std::ops::ControlFlow;

// The number of the stroke that begins, or none at the end of the page.
pub(crate) fn step_between(walk: &mut Walk<'_>) -> Result<Option<u32>, PageFault>
    requires { walk.old.part ≡ Outside }
    ensures reads { read_from walk.old.place outside walk.old.rest.now ≡ begun walk.new.place walk.new.rest.now result }
    ensures part { Between walk.new.part result }
    ensures falls { Fewer (length walk.new.rest.now) (length walk.old.rest.now) result }
{
    match walk.step()? {
        Step::Begin(number) => Ok(Some(number)),
        Step::End => Ok(None),
        _ => unreachable(),
    }
}

// A point of the open stroke, or the order that closes it.
pub(crate) fn step_within(walk: &mut Walk<'_>) -> Result<ControlFlow<KnownOrder, Point>, PageFault>
    requires { walk.old.part ≡ Inside }
    ensures reads { (n : ℕ) (ps : List Dot) → read_from walk.old.place (inside n ps) walk.old.rest.now ≡ inner n ps walk.new.place walk.new.rest.now result }
    ensures part { Within walk.new.part result }
    ensures falls { OnOk result (length walk.new.rest.now < length walk.old.rest.now) }
{
    match walk.step()? {
        Step::Point(p) => Ok(ControlFlow::Continue(p)),
        Step::Finish(order) => Ok(ControlFlow::Break(order)),
        _ => unreachable(),
    }
}
