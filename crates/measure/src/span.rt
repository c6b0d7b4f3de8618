// Span: a layer over any measure that bars a chord which lasts longer than its span.
ghost use Rattle.measure.specs.Layers.{barring, overlong};
ghost use Rattle.measure.specs.Answered.{passed_on};

use crate::chord::Chord;
use crate::measure::Measure;
use tray::tray::Lifted;

// Not one type with Corners: what bars would be a parameter then, and a caller would name two types for a layer in place of one.
#[derive(Clone, Copy)]
pub struct Span<M> {
    pub span: u32,
    pub below: M,
}

impl<M: Measure> Measure for Span<M> {
    ghost meaning = { λ m ps i j. barring (overlong m.span ps i j) (M.Measure.meaning m.below ps i j) };

    ghost limited = { λ m ps i j e l q. M.Measure.limited m.below ps i j e l (passed_on _ _ e q) };

    ghost within = { λ m ps i j e q. M.Measure.within m.below ps i j e (passed_on _ _ e q) };

    fn error(&self, stroke: &Lifted, i: usize, j: usize) -> Option<u64> {
        let chord = Chord::of(stroke, i, j)?;
        if chord.lasting() > self.span {
            return None;
        }
        self.below.error(stroke, i, j)
    }
}
