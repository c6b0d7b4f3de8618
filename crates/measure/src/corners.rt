// Corners: a layer over any measure that bars a chord with a corner strictly between its ends.
ghost use Rattle.std.specs.Prelude.{◌≡◌};
ghost use Rattle.measure.specs.Layers.{barring, cornered};
ghost use Rattle.measure.specs.Answered.{passed_on};

use crate::chord::Chord;
use crate::measure::Measure;
use tray::point::Mark;
use tray::tray::Lifted;

#[derive(Clone, Copy)]
pub struct Corners<M> {
    pub below: M,
}

// Whether a corner stands strictly between the ends of a chord.
fn has_corner(chord: &Chord) -> bool
    ensures { result ≡ cornered chord.now.points.now chord.now.from chord.now.to }
{
    chord.between().iter().any(|p| p.mark == Mark::Corner)
}

impl<M: Measure> Measure for Corners<M> {
    ghost meaning = { λ m ps i j. barring (cornered ps i j) (M.Measure.meaning m.below ps i j) };

    ghost limited = { λ m ps i j e l q. M.Measure.limited m.below ps i j e l (passed_on _ _ e q) };

    ghost within = { λ m ps i j e q. M.Measure.within m.below ps i j e (passed_on _ _ e q) };

    fn error(&self, stroke: &Lifted, i: usize, j: usize) -> Option<u64> {
        let chord = Chord::of(stroke, i, j)?;
        if has_corner(&chord) {
            return None;
        }
        self.below.error(stroke, i, j)
    }
}
