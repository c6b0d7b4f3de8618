// The area measure: twice the area between the stroke and the chord.
ghost use Rattle.std.specs.Prelude.{◌≡◌};
ghost use Rattle.measure.specs.Area.{area, area_error};
ghost use Rattle.measure.specs.Swept.{area_limit};
ghost use Rattle.measure.specs.Answered.{bare_limited, bare_within};

use crate::chord::Chord;
use crate::measure::Measure;
use crate::offset::Offset;
use tray::tray::Lifted;

#[derive(Clone, Copy)]
pub struct Area;

// The sum over the points of a chord of the way from its start to a point, cross the way from there to the next, without its sign.
fn area_of(chord: &Chord) -> u64
    ensures { result ≡ area_error chord.now.points.now chord.now.from chord.now.to }
{
    let o = chord.start();
    let mut last = Offset::between(o, o);
    let mut sum: i64 = 0;
    for p in chord.after_start() {
        let next = Offset::between(o, *p);
        sum += last.cross(next) as i64;
        last = next;
    }
    sum.unsigned_abs()
}

impl Measure for Area {
    ghost meaning = { λ _. area };

    ghost limited = { λ m. bare_limited area_error area_limit };

    ghost within = { λ m. bare_within area_error };

    fn error(&self, stroke: &Lifted, i: usize, j: usize) -> Option<u64> {
        let chord = Chord::of(stroke, i, j)?;
        Some(area_of(&chord))
    }
}
