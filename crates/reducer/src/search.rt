// The search: for each point in turn the best chord into it, from what is known of the points before it.
ghost use Rattle.std.specs.Prelude.{◌≡◌, ℕ, ◌-◌, ◌<◌, ◌≤◌, length, slice_index};
ghost use Rattle.tray.specs.Trays.{stroke as stroke_of};
ghost use Rattle.total.specs.Laws.{limit};
ghost use Rattle.reducer.specs.Chains.{Relaxed};
ghost use Rattle.reducer.specs.Scan.{offer, choose, scan};
ghost use Rattle.reducer.specs.Outcome.{Outcome};
ghost use Rattle.reducer.specs.Asked.{asked, lent_with, HasRoom, SameTables};

use crate::answer::Answer;
use crate::step::Step;
use crate::tables::Tables;
use measure::measure::Measure;
use total::pair::Pair;
use total::total::{LIMIT, Total};
use tray::causes::Refusal;
use tray::tray::Lifted;

// What is asked: a stroke, the measure of its chords, and how great an error may be.
#[derive(Drop)]
pub(crate) struct Search<'a, M> {
    pub(crate) stroke: &'a Lifted,
    pub(crate) measure: &'a M,
    pub(crate) tolerance: u64,
}

// The better of what was found and what the point i offers; the earlier, where neither is better.
fn chosen<T: Total>(found: Option<Step<T>>, i: u16, offered: Option<Pair<T>>) -> Option<Step<T>>
    ensures { result ≡ choose T.order found i offered }
{
    match (found, offered) {
        (found, None) => found,
        (None, Some(pair)) => Some(Step { from: i, pair }),
        (Some(old), Some(pair)) => Some(old.or_better(Step { from: i, pair })),
    }
}

impl<M: Measure> Search<'_, M> {
    // How many points the stroke has.
    fn points(&self) -> usize
        ensures value { result ≡ length (stroke_of self.now.stroke.now) }
        ensures few { result ≤ 512 }
    {
        self.stroke.points().len()
    }

    // What the chord from i to j offers to j, after the best chain to i.
    fn offer<T: Total>(&self, tables: &Tables<T>, i: usize, j: usize) -> Option<Pair<T>>
        requires low { 1 ≤ i }
        requires room { HasRoom i tables.now }
        requires few { slice_index tables.now.counts.now (i - 1) < 512 }
        ensures { result ≡ offer (asked T.Total M.meaning self.now) tables.now.counts.now tables.now.totals.now j i }
    {
        let before = tables.pair(i)?;
        let error = self.measure.error(self.stroke, i, j)?;
        if error > self.tolerance {
            return None;
        }
        Some(Pair {
            chords: before.chords + 1,
            total: before.total.joined(T::of(error)),
        })
    }

    // The best chord into j from a point before it; the earliest of equals.
    fn best_step<T: Total>(&self, tables: &Tables<T>, j: usize) -> Option<Step<T>>
        requires low { 1 ≤ j }
        requires high { j ≤ 512 }
        requires room { HasRoom j tables.now }
        requires few { (i : ℕ) → 1 ≤ i → i < j → slice_index tables.now.counts.now (i - 1) < 512 }
        ensures { result ≡ scan T.order (offer (asked T.Total M.meaning self.now) tables.now.counts.now tables.now.totals.now j) (j - 1) }
    {
        let mut found = None;
        for i in 1..j {
            found = chosen(found, i as u16, self.offer(tables, i, j));
        }
        found
    }

    // Fills the tables up to the stroke's last point.
    fn relax<T: Total>(&self, tables: &mut Tables<T>)
        requires tolerated { self.now.tolerance ≤ limit }
        requires room { HasRoom (length (stroke_of self.now.stroke.now)) tables.old }
        ensures same { SameTables tables.old tables.new }
        ensures relaxed { Relaxed (asked T.Total M.meaning self.now) (length (stroke_of self.now.stroke.now)) tables.old.counts.now tables.old.preds.now tables.old.totals.now tables.new.counts.now tables.new.preds.now tables.new.totals.now }
    {
        let n = self.points();
        for j in 1..=n {
            let found = self.best_step(tables, j);
            tables.set(j, found.unwrap_or(Step::none()));
        }
    }

    // Fills the tables and lists the kept chain, or refuses.
    pub(crate) fn run<T: Total>(
        &self,
        tables: &mut Tables<T>,
        list: &mut [u16],
    ) -> Result<Answer<T>, Refusal>
        ensures same { SameTables tables.old tables.new }
        ensures outcome { Outcome (asked T.Total M.meaning self.now) (length (stroke_of self.now.stroke.now)) (lent_with tables.old list.old) (lent_with tables.new list.new) result }
    {
        let n = self.points();
        if n == 0 {
            return Err(Refusal::BareTray);
        }
        if self.tolerance > LIMIT {
            return Err(Refusal::WideTolerance);
        }
        let last = n as u16;
        if tables.is_short(n) {
            return Err(Refusal::ShortTable(last));
        }
        self.relax(tables);
        let best = tables.pair(n).ok_or(Refusal::NoWay(last))?;
        let needed = best.chords + 1;
        let count = needed as usize;
        if list.len() < count {
            return Err(Refusal::ShortList(needed));
        }
        tables.walk(last, &mut list[..count]);
        Ok(Answer {
            count,
            total: best.total,
        })
    }
}
