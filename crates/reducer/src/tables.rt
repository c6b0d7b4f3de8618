// The lent tables: what is known of each point, by its number.
ghost use Rattle.std.specs.Prelude.{◌≡◌, ◌-◌, ◌≤◌, [], length, slice_set};
ghost use Rattle.reducer.specs.Scan.{held};
ghost use Rattle.reducer.specs.Trail.{trail, Led};
ghost use Rattle.reducer.specs.Reduced.{short};
ghost use Rattle.reducer.specs.Asked.{lent_with, HasRoom, SameTables};

use crate::step::Step;
use total::pair::Pair;
use total::total::Total;

// The chords of each point's best chain, the point before it there, and the chain's total.
// A rule of the project: the caller lends the tables, and a count of 0 past the first point says that no chain leads there.
// How many entries they have is asked where one is read or written, as a slice asks it: of another number each time.
#[derive(Drop)]
pub(crate) struct Tables<'a, T> {
    pub(crate) counts: &'a mut [u16],
    pub(crate) preds: &'a mut [u16],
    pub(crate) totals: &'a mut [T],
}

impl<T: Total> Tables<'_, T> {
    // Whether one of the tables has no entry for the point n.
    pub(crate) fn is_short(&self, n: usize) -> bool
        ensures { result ≡ short n (lent_with self.now []) }
    {
        self.counts.len() < n || self.preds.len() < n || self.totals.len() < n
    }

    // The best pair of the point i, where a chain leads to it.
    pub(crate) fn pair(&self, i: usize) -> Option<Pair<T>>
        requires low { 1 ≤ i }
        requires room { HasRoom i self.now }
        ensures { result ≡ held T.start self.now.counts.now self.now.totals.now i }
    {
        let chords = self.counts[i - 1];
        if i != 1 && chords == 0 {
            return None;
        }
        Some(Pair {
            chords,
            total: self.totals[i - 1],
        })
    }

    // Writes what is known of the point i.
    pub(crate) fn set(&mut self, i: usize, step: Step<T>)
        requires low { 1 ≤ i }
        requires room { HasRoom i self.old }
        ensures same { SameTables self.old self.new }
        ensures counts { self.new.counts.now ≡ slice_set self.old.counts.now (i - 1) step.pair.chords }
        ensures preds { self.new.preds.now ≡ slice_set self.old.preds.now (i - 1) step.from }
        ensures totals { self.new.totals.now ≡ slice_set self.old.totals.now (i - 1) step.pair.total }
    {
        self.counts[i - 1] = step.pair.chords;
        self.preds[i - 1] = step.from;
        self.totals[i - 1] = step.pair.total;
    }

    // Fills the list with the last points on the way to `last`, in rising order.
    pub(crate) fn walk(&self, last: u16, list: &mut [u16])
        requires { Led self.now.preds.now last (length list.old) }
        ensures { list.new ≡ trail self.now.preds.now last (length list.old) }
    {
        let mut at = last;
        // By index: a proof does not know what a slice holds after `iter_mut`.
        for left in (0..list.len()).rev() {
            list[left] = at;
            at = self.preds[at as usize - 1];
        }
    }
}
