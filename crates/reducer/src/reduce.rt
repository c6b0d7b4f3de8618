// The call that reduces a stroke.
ghost use Rattle.std.specs.Prelude.{◌≡◌, length};
ghost use Rattle.tray.specs.Trays.{stroke as stroke_of, lifted};
ghost use Rattle.tray.specs.Refusals.{tells};
ghost use Rattle.tray.specs.History.{reduce as calls_reduce};
ghost use Rattle.reducer.specs.Chains.{task};
ghost use Rattle.reducer.specs.Lent.{lent};
ghost use Rattle.reducer.specs.Reduced.{done, reduced};
ghost use Rattle.reducer.specs.Outcome.{Outcome};
ghost use Rattle.reducer.specs.Recorded.{reduction};
ghost use Rattle.reducer.specs.Law.{Law};
ghost use Rattle.reducer.specs.Runs.{GoesOn, StepsGoOn};
ghost use Rattle.reducer.specs.Exact.{Exact, ExactGoesOn, ExactStepsGoOn, OneReply};
ghost use Rattle.reducer.specs.Worthless.{ShutsOut, OneKept};

use crate::answer::Answer;
use crate::search::Search;
use crate::tables::Tables;
use measure::measure::Measure;
use total::total::Total;
use tray::causes::Refusal;
use tray::tray::Lifted;

// Keeps the chain with the fewest points, and of these the least total. It changes no point and no mark.
// The caller lends three tables and a list: no memory is taken here.
pub fn reduce<M: Measure, T: Total>(
    stroke: &Lifted,
    measure: &M,
    tolerance: u64,
    counts: &mut [u16],
    preds: &mut [u16],
    totals: &mut [T],
    list: &mut [u16],
) -> Result<Answer<T>, Refusal>
    ensures equals { done (tells result) (lent counts.new preds.new totals.new list.new) ≡ reduced (task T.Total (M.Measure.meaning measure.now (stroke_of stroke.now)) tolerance) (length (stroke_of stroke.now)) (lent counts.old preds.old totals.old list.old) }
    ensures outcome { Outcome (task T.Total (M.Measure.meaning measure.now (stroke_of stroke.now)) tolerance) (length (stroke_of stroke.now)) (lent counts.old preds.old totals.old list.old) (lent counts.new preds.new totals.new list.new) result }
    ensures law { Law (stroke_of stroke.now) (reduction T.Total (M.Measure.meaning measure.now) tolerance (lent counts.old preds.old totals.old list.old) (lent counts.new preds.new totals.new list.new) result) }
    ensures runs { GoesOn (lifted stroke.now) (calls_reduce (reduction T.Total (M.Measure.meaning measure.now) tolerance (lent counts.old preds.old totals.old list.old) (lent counts.new preds.new totals.new list.new) result)) (lifted stroke.now) }
    ensures other_calls { StepsGoOn }
    ensures exact { Exact (stroke_of stroke.now) (reduction T.Total (M.Measure.meaning measure.now) tolerance (lent counts.old preds.old totals.old list.old) (lent counts.new preds.new totals.new list.new) result) }
    ensures exact_runs { ExactGoesOn (lifted stroke.now) (calls_reduce (reduction T.Total (M.Measure.meaning measure.now) tolerance (lent counts.old preds.old totals.old list.old) (lent counts.new preds.new totals.new list.new) result)) (lifted stroke.now) }
    ensures other_calls_exact { ExactStepsGoOn }
{
    let search = Search {
        stroke,
        measure,
        tolerance,
    };
    let mut tables = Tables {
        counts,
        preds,
        totals,
    };
    search.run(&mut tables, list)
}

// The law shuts out each reducer that is of no worth, a stroke has one kept chain, and a reduce one reply that is right and exact.
pub fn law_shuts_out() -> u8
    ensures worthless { ShutsOut }
    ensures one_kept { OneKept }
    ensures one_reply { OneReply }
{
    0
}
