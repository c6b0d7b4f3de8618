// What every measure answers, and the laws that it keeps.
ghost use Rattle.std.specs.Prelude.{◌≡◌, ℕ, ◌<◌, ◌≤◌, List, length, Some, Option};
ghost use Rattle.tray.specs.declared.point.Point.{Point};
ghost use Rattle.tray.specs.Stroke.{Lawful};
ghost use Rattle.tray.specs.Trays.{stroke as stroke_of};
ghost use Rattle.total.specs.Laws.{limit};

use tray::tray::Lifted;

// A measure is asked about a lifted stroke and two point numbers.
pub trait Measure {
    // The error of the chord from i to j, or none where the chord is barred.
    ghost meaning: { Self → List Point → ℕ → ℕ → Option ℕ };

    // Its meaning at a lifted stroke and two numbers.
    fn error(&self, stroke: &Lifted, i: usize, j: usize) -> Option<u64>
        ensures { result ≡ meaning self.now (stroke_of stroke.now) i j };

    // No error is above the limit.
    ghost limited: { (m : Self) (ps : List Point) (i j e : ℕ) → Lawful ps → meaning m ps i j ≡ Some e → e ≤ limit };

    // What is no chord of the stroke is barred.
    ghost within: { (m : Self) (ps : List Point) (i j e : ℕ) → meaning m ps i j ≡ Some e → (1 ≤ i) × (i < j) × (j ≤ length ps) };
}
