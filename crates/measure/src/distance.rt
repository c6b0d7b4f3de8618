// The distance measure: the greatest squared distance from a point to the segment that a chord draws.
ghost use Rattle.std.specs.Prelude.{◌≡◌, ◌<◌, max};
ghost use Rattle.tray.specs.Trays.{stroke as stroke_of};
ghost use Rattle.measure.specs.Chords.{Within};
ghost use Rattle.measure.specs.Distance.{distance, distance_error, LeastDistance};
ghost use Rattle.measure.specs.Sides.{sided, risen};
ghost use Rattle.measure.specs.Offs.{distance_limit};
ghost use Rattle.measure.specs.Answered.{bare_limited, bare_within};

use crate::chord::Chord;
use crate::measure::Measure;
use crate::offset::Offset;
use tray::point::Point;
use tray::tray::Lifted;

#[derive(Clone, Copy)]
pub struct Distance;

// Where a point stands beside a segment: past one of its ends, with the square of the distance to that end,
// or along it, with the size of the cross product.
#[derive(Clone, Copy)]
pub(crate) enum Side {
    Past(u32),
    Along(u32),
}

// Where k stands beside the segment from p to q.
fn side_of(p: Point, q: Point, k: Point) -> Side
    requires { Within p q k }
    ensures { result ≡ sided p q k }
{
    let whole = Offset::between(p, q);
    let part = Offset::between(p, k);
    let s = part.dot(whole);
    if s <= 0 {
        Side::Past(part.dot(part).unsigned_abs())
    } else if s >= whole.dot(whole) {
        let rest = Offset::between(q, k);
        Side::Past(rest.dot(rest).unsigned_abs())
    } else {
        Side::Along(whole.cross(part).unsigned_abs())
    }
}

// The greater of what lies past the ends and of what lies along the segment, whose square of the length is whole.
fn settled(past: u32, along: u32, whole: u32) -> u64
    requires { 0 < along → 0 < whole }
    ensures { result ≡ max past (risen along whole) }
{
    if along == 0 {
        return past as u64;
    }
    let c = along as u64;
    (past as u64).max((c * c).div_ceil(whole as u64))
}

// The greatest squared distance from a point between the ends of a chord to its segment, rounded up.
fn distance_of(chord: &Chord) -> u64
    ensures { result ≡ distance_error chord.now.points.now chord.now.from chord.now.to }
{
    let p = chord.start();
    let q = chord.end();
    let mut past: u32 = 0;
    let mut along: u32 = 0;
    for k in chord.between() {
        match side_of(p, q, *k) {
            Side::Past(d) => past = past.max(d),
            Side::Along(c) => along = along.max(c),
        }
    }
    let whole = Offset::between(p, q);
    settled(past, along, whole.dot(whole).unsigned_abs())
}

impl Measure for Distance {
    ghost meaning = { λ _. distance };

    ghost limited = { λ m. bare_limited distance_error distance_limit };

    ghost within = { λ m. bare_within distance_error };

    // An answered error is the least whole number that is not below any point's squared distance to the segment.
    fn error(&self, stroke: &Lifted, i: usize, j: usize) -> Option<u64>
        ensures value { result ≡ distance (stroke_of stroke.now) i j }
        ensures least { LeastDistance (stroke_of stroke.now) i j result }
    {
        let chord = Chord::of(stroke, i, j)?;
        Some(distance_of(&chord))
    }
}
