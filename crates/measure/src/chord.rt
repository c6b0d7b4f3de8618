// A chord of a lifted stroke, with what lies on it.
ghost use Rattle.std.specs.Prelude.{◌≡◌, ℕ, ◌+◌, ◌-◌, ◌<◌, length, IfSome, is_some};
ghost use Rattle.tray.specs.Stroke.{at, numbered, Lawful};
ghost use Rattle.tray.specs.Trays.{stroke as stroke_of};
ghost use Rattle.measure.specs.Chords.{On, Within, Chord as IsChord, chord, lasting};

use tray::point::Point;
use tray::tray::Lifted;

// The points of a stroke, and the numbers of two of them, the first before the second.
#[derive(Clone, Copy)]
pub(crate) struct Chord<'a> {
    points: &'a [Point],
    from: usize,
    to: usize,
    ghost lawful: { Lawful points.now },
    ghost is_chord: { IsChord points.now from to },
}

impl<'a> Chord<'a> {
    // The chord from the point i to the point j, if these are numbers of two points, the first before the second.
    pub(crate) fn of(stroke: &'a Lifted, i: usize, j: usize) -> Option<Chord<'a>>
        ensures some { is_some result ≡ chord (stroke_of stroke.now) i j }
        ensures points { IfSome result (λ c. c.points.now ≡ stroke_of stroke.now) }
        ensures from { IfSome result (λ c. c.from ≡ i) }
        ensures to { IfSome result (λ c. c.to ≡ j) }
    {
        let points = stroke.points();
        if 1 <= i && i < j && j <= points.len() {
            Some(Chord {
                points,
                from: i,
                to: j,
            })
        } else {
            None
        }
    }

    // The point that it starts from.
    pub(crate) fn start(&self) -> Point
        ensures value { result ≡ numbered self.now.points.now self.now.from }
        ensures on { On result }
    {
        self.points[self.from - 1]
    }

    // The point that it ends at.
    pub(crate) fn end(&self) -> Point
        ensures value { result ≡ numbered self.now.points.now self.now.to }
        ensures on { On result }
    {
        self.points[self.to - 1]
    }

    // The time from its start to its end.
    pub(crate) fn lasting(&self) -> u32
        ensures value { result ≡ lasting self.now.points.now self.now.from self.now.to }
        ensures some { 0 < result }
    {
        self.end().t - self.start().t
    }

    // The points after its start, its end among them.
    pub(crate) fn after_start(&self) -> &'a [Point]
        ensures many { length result.now ≡ self.now.to - self.now.from }
        ensures numbered { (n : ℕ) → n < length result.now → at result.now n ≡ numbered self.now.points.now (self.now.from + 1 + n) }
        ensures on { (n : ℕ) → n < length result.now → On (at result.now n) }
    {
        &self.points[self.from..self.to]
    }

    // The points strictly between its ends.
    pub(crate) fn between(&self) -> &'a [Point]
        ensures many { length result.now ≡ self.now.to - (self.now.from + 1) }
        ensures numbered { (n : ℕ) → n < length result.now → at result.now n ≡ numbered self.now.points.now (self.now.from + 1 + n) }
        ensures within { (n : ℕ) → n < length result.now →
            Within (numbered self.now.points.now self.now.from) (numbered self.now.points.now self.now.to) (at result.now n) }
    {
        &self.points[self.from..self.to - 1]
    }
}
