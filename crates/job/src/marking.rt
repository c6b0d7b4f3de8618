// The marks of a stroke, set once the pen is lifted.
ghost use Rattle.std.specs.Prelude.{◌≡◌, ◌<◌, ◌≤◌, length};
ghost use Rattle.tray.specs.Trays.{stroke as stroke_of};
ghost use Rattle.job.specs.Marking.{cornered_by, marked_at};

use tray::point::Mark;
use tray::tray::Lifted;

// Makes the point at the place k, counted from 0, a corner if it is marked so.
fn mark_one(stroke: &mut Lifted, k: usize, mark: Mark)
    requires { k < 512 }
    ensures { stroke_of stroke.new ≡ marked_at mark (stroke_of stroke.old) k }
{
    if mark == Mark::Corner {
        let _ = stroke.mark(k as u16 + 1);
    }
}

// Makes the points corners that are marked so.
pub(crate) fn mark_corners(stroke: &mut Lifted, marks: &[Mark])
    requires { length marks.now ≤ 512 }
    ensures { stroke_of stroke.new ≡ cornered_by marks.now (stroke_of stroke.old) }
{
    for (k, mark) in marks.iter().enumerate() {
        mark_one(stroke, k, *mark);
    }
}
