// One step of a chain.
ghost use Rattle.std.specs.Prelude.{◌≡◌, cond};
ghost use Rattle.total.specs.Pairs.{better};
ghost use Rattle.reducer.specs.Scan.{no_step};

use total::pair::Pair;
use total::total::Total;

// A pair of a point, and the point that its last chord comes from: what the tables hold of the point.
#[derive(Clone, Copy)]
pub struct Step<T> {
    pub from: u16,
    pub pair: Pair<T>,
}

impl<T: Total> Step<T> {
    // What the tables hold of a point that no chord leads to.
    pub(crate) fn none() -> Step<T>
        ensures { result ≡ no_step T.start }
    {
        Step {
            from: 0,
            pair: Pair {
                chords: 0,
                total: T::none(),
            },
        }
    }

    // This step, or the other where that is better.
    pub(crate) fn or_better(self, other: Step<T>) -> Step<T>
        ensures { result ≡ cond (better T.order other.pair self.pair) other self }
    {
        if other.pair.is_better(self.pair) {
            other
        } else {
            self
        }
    }
}
