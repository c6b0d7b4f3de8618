// A number of chords with their total: what orders chains.
ghost use Rattle.std.specs.Prelude.{◌≡◌};
ghost use Rattle.total.specs.Pairs.{better};

use crate::total::Total;

// No `Ord`: the laws of a kind order only the totals that chains have, and `Ord` would ask an order of all values of every kind.
#[derive(Clone, Copy)]
pub struct Pair<T> {
    pub chords: u16,
    pub total: T,
}

impl<T: Total> Pair<T> {
    // Whether this pair is better than the other: fewer chords, or as many and a lesser total.
    pub fn is_better(self, other: Pair<T>) -> bool
        ensures { result ≡ better T.order self other }
    {
        self.chords < other.chords
            || (self.chords == other.chords && !other.total.at_most(self.total))
    }
}
