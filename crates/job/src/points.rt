// The points of an open stroke, put on its tray one by one.
ghost use Rattle.std.specs.Prelude.{◌≡◌, List, [], ◌∷◌, ◌++◌, map, length, Ok, OnOk};
ghost use Rattle.tray.specs.Trays.{writing};
ghost use Rattle.page.specs.Codes.{coded};
ghost use Rattle.page.specs.declared.kinds.Point.{Point as Dot};
ghost use Rattle.job.specs.Answer.{drawn_with, drawing, point_of, answer_of, if_drawn, spoken};
ghost use Rattle.job.specs.Open.{put_or, Holds};

use crate::keep::keep;
use crate::kept::Kept;
use crate::marking::mark_corners;
use crate::open::OpenStroke;
use arrayvec::ArrayVec;
use page::kinds::Point;
use page::order::KnownOrder;
use tray::causes::Refusal;
use tray::point::Mark;
use tray::tray::Writing;

// Puts a point on the tray and notes its mark, or refuses and changes nothing.
fn put_point(tray: &mut Writing, marks: &mut ArrayVec<Mark, 512>, p: Point) -> Result<(), Refusal>
    requires { length marks.old.items ≡ length (writing tray.old).points }
    ensures puts { put_or result (writing tray.new).points ≡ drawn_with (Ok (writing tray.old).points) p }
    ensures notes { OnOk result (marks.new.items ≡ marks.old.items ++ p.mark ∷ []) }
    ensures paired { length marks.new.items ≡ length (writing tray.new).points }
{
    tray.put(i32::from(p.x), i32::from(p.y), p.t)?;
    marks.push(p.mark);
    Ok(())
}

// What was read is no function of the fields once a put is refused, so it stands in a relation, `Holds`, and in no view.
impl OpenStroke {
    // A stroke with no point yet.
    pub(crate) fn new() -> OpenStroke
        ensures { Holds result [] }
    {
        OpenStroke {
            tray: Writing::new(),
            marks: ArrayVec::new(),
            drawn: Ok(()),
        }
    }

    // One point more. After a refused put points are only read.
    pub(crate) fn point(&mut self, p: Point)
        ensures { (ps : List Dot) → Holds self.old ps → Holds self.new (ps ++ p ∷ []) }
    {
        if self.drawn.is_ok() {
            self.drawn = put_point(&mut self.tray, &mut self.marks, p);
        }
    }

    // The answer of the stroke: its first refused put, or what is kept of it once it is lifted and its corners are marked.
    pub(crate) fn finish(self, order: KnownOrder) -> Result<Kept, Refusal>
        ensures { (ps : List Dot) → Holds self ps → spoken result ≡ if_drawn (drawing ps) (answer_of (coded order) (map point_of ps)) }
    {
        let OpenStroke { tray, marks, drawn } = self;
        drawn?;
        let mut stroke = tray.lift();
        mark_corners(&mut stroke, marks.as_slice());
        keep(&stroke, order)
    }
}
