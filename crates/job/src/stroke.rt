// One stroke of a page: its start, its points, its order.
ghost use Rattle.std.specs.Prelude.{◌≡◌, ℕ, ◌<◌, List, length, OnOk};
ghost use Rattle.page.specs.declared.kinds.Part.TheVariants.{Outside, Inside};
ghost use Rattle.page.specs.declared.kinds.Point.{Point as Dot};
ghost use Rattle.page.specs.Steps.{outside, read_from};
ghost use Rattle.job.specs.Open.{Holds};
ghost use Rattle.job.specs.Whole.{RestRead, StrokeRead, BetweenStrokes, Shorter};

use crate::open::OpenStroke;
use crate::reads::{step_between, step_within};
use crate::whole::WholeStroke;
use page::fault::PageFault;
use page::order::KnownOrder;
use page::walk::Walk;
use std::ops::ControlFlow;

// The points of the open stroke up to its order.
fn read_points(walk: &mut Walk<'_>, stroke: &mut OpenStroke) -> Result<KnownOrder, PageFault>
    requires { walk.old.part ≡ Inside }
    ensures reads { (ps : List Dot) → Holds stroke.old ps → RestRead walk.old ps walk.new stroke.new result }
    ensures part { OnOk result (walk.new.part ≡ Outside) }
    ensures falls { OnOk result (length walk.new.rest.now < length walk.old.rest.now) }
{
    loop {
        match step_within(walk)? {
            ControlFlow::Continue(p) => stroke.point(p),
            ControlFlow::Break(order) => return Ok(order),
        }
    }
}

// The next stroke, or none at the end of the page.
pub(crate) fn read_stroke(walk: &mut Walk<'_>) -> Result<Option<WholeStroke>, PageFault>
    requires { walk.old.part ≡ Outside }
    ensures reads { StrokeRead (read_from walk.old.place outside walk.old.rest.now) (read_from walk.new.place outside walk.new.rest.now) result }
    ensures part { BetweenStrokes walk.new.part result }
    ensures falls { Shorter (length walk.new.rest.now) (length walk.old.rest.now) result }
{
    let Some(number) = step_between(walk)? else {
        return Ok(None);
    };
    let mut open = OpenStroke::new();
    let order = read_points(walk, &mut open)?;
    Ok(Some(WholeStroke {
        number,
        open,
        order,
    }))
}
