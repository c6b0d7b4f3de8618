// A lifted stroke reduced as an order asks, with tables and a list of the job's own.
// Stroke and order go through all three functions: a struct of both would be made once and taken apart at once.
ghost use Rattle.std.specs.Prelude.{◌≡◌, replicate};
ghost use Rattle.tray.specs.Trays.{stroke as stroke_of};
ghost use Rattle.page.specs.Codes.{coded};
ghost use Rattle.job.specs.Answer.{spoken, kept_by, layered, over_span, answer_of};

use crate::figures::Figures;
use crate::kept::Kept;
use measure::area::Area;
use measure::corners::Corners;
use measure::distance::Distance;
use measure::measure::Measure;
use measure::span::Span;
use measure::synchronous::Synchronous;
use page::order::{KnownOrder, MeasureKind, TotalKind};
use reducer::reduce::reduce;
use total::sum::Sum;
use total::sum_then_worst::SumThenWorst;
use total::total::Total;
use total::worst::Worst;
use tray::causes::Refusal;
use tray::tray::Lifted;

// By one measure under the two layers. The tables and the list are arrays of the job's own, since memory is fixed.
fn keep_by<M: Measure + Drop, T: Figures>(
    stroke: &Lifted,
    below: M,
    order: KnownOrder,
    totals: &mut [T],
) -> Result<Kept, Refusal>
    requires { totals.old ≡ replicate 512 T.start }
    ensures { spoken result ≡ kept_by T.Total T.fields (over_span order.span (M.Measure.meaning below)) order.tolerance (stroke_of stroke.now) }
{
    let measure = Corners {
        below: Span {
            span: order.span,
            below,
        },
    };
    let mut counts = [0u16; 512];
    let mut preds = [0u16; 512];
    let mut list = [0u16; 512];
    let answer = reduce(
        stroke,
        &measure,
        order.tolerance,
        &mut counts,
        &mut preds,
        totals,
        &mut list,
    )?;
    Ok(Kept {
        totals: answer.total.figures(),
        count: answer.count,
        list,
    })
}

// By the measure that the order names. A match: the order has the name as a value, and a closure or a `dyn` would be chosen by the same match.
fn keep_as<T: Figures>(
    stroke: &Lifted,
    order: KnownOrder,
    totals: &mut [T],
) -> Result<Kept, Refusal>
    requires { totals.old ≡ replicate 512 T.start }
    ensures { spoken result ≡ kept_by T.Total T.fields (layered (coded order)) order.tolerance (stroke_of stroke.now) }
{
    match order.measure {
        MeasureKind::Synchronous => keep_by(stroke, Synchronous, order, totals),
        MeasureKind::Distance => keep_by(stroke, Distance, order, totals),
        MeasureKind::Area => keep_by(stroke, Area, order, totals),
    }
}

// By the kind of total that the order names. The table of totals is made here, where its type is known: nothing says that 512 values of a type parameter fit into memory.
pub(crate) fn keep(stroke: &Lifted, order: KnownOrder) -> Result<Kept, Refusal>
    ensures { spoken result ≡ answer_of (coded order) (stroke_of stroke.now) }
{
    match order.total {
        TotalKind::Sum => keep_as(stroke, order, &mut [Sum::none(); 512]),
        TotalKind::Worst => keep_as(stroke, order, &mut [Worst::none(); 512]),
        TotalKind::SumThenWorst => keep_as(stroke, order, &mut [SumThenWorst::none(); 512]),
    }
}
