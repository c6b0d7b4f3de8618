// Reduces of the hook and of smaller strokes: what is kept, what the tables and the list hold, and what is refused.
use super::{drawn, hook, refuses, wave};
use measure::area::Area;
use measure::corners::Corners;
use measure::measure::Measure;
use measure::span::Span;
use measure::synchronous::Synchronous;
use reducer::answer::Answer;
use reducer::reduce::reduce;
use refusal::Layer;
use std::fmt::Debug;
use std::process::Abort;
use std::test::Fail;
use total::sum::Sum;
use total::sum_then_worst::SumThenWorst;
use total::total::{LIMIT, Total};
use total::worst::Worst;
use tray::causes::Refusal;
use tray::tray::{Lifted, Writing};

// What is lent to a reduce of at most five points beside the totals. The last entries stay as they were.
#[derive(Clone, Copy, Debug, PartialEq, Eq)]
struct Lent {
    counts: [u16; 6],
    preds: [u16; 6],
    list: [u16; 6],
}

const BLANK: Lent = Lent {
    counts: [9; 6],
    preds: [9; 6],
    list: [9; 6],
};

const NO_SUM: Sum = Sum { sum: 9 };

fn run<M: Measure, T: Total>(
    stroke: &Lifted,
    measure: &M,
    tolerance: u64,
    lent: &mut Lent,
    totals: &mut [T],
) -> Result<Answer<T>, Refusal> {
    let Lent {
        counts,
        preds,
        list,
    } = lent;
    reduce(stroke, measure, tolerance, counts, preds, totals, list)
}

fn sums(of: [u64; 6]) -> [Sum; 6] {
    of.map(|sum| Sum { sum })
}

// A reduce by sums answers this count and this sum, and leaves this list.
fn keeps<M: Measure>(
    rt: &impl Abort,
    stroke: &Lifted,
    measure: &M,
    tolerance: u64,
    count: usize,
    sum: u64,
    list: [u16; 6],
) -> Result<(), Fail> {
    let mut lent = BLANK;
    let mut totals = [NO_SUM; 6];
    let answer = run(stroke, measure, tolerance, &mut lent, &mut totals)?;
    assert_eq!(rt;
        answer,
        Answer {
            count,
            total: Sum { sum },
        }
    );
    assert_eq!(rt; lent.list, list);
    Ok(())
}

// A reduce of the hook with the tolerance 5, lent tables of these totals, keeps three points with this total, and leaves these tables and list.
fn reduces_hook<T: Total + Debug + PartialEq>(
    rt: &impl Abort,
    mut totals: [T; 6],
    total: T,
    after: [T; 6],
    left: Lent,
) -> Result<(), Fail> {
    let hook = hook()?.lift();
    let mut lent = BLANK;
    let answer = run(&hook, &Synchronous, 5, &mut lent, &mut totals)?;
    assert_eq!(rt; answer, Answer { count: 3, total });
    assert_eq!(rt; totals, after);
    assert_eq!(rt; lent, left);
    Ok(())
}

#[test]
fn hook_by_sum(rt: HostRuntime) -> Result<(), Fail> {
    let left = Lent {
        counts: [0, 1, 1, 2, 2, 9],
        preds: [0, 1, 1, 2, 2, 9],
        list: [1, 2, 5, 9, 9, 9],
    };
    reduces_hook(
        &rt,
        [NO_SUM; 6],
        Sum { sum: 5 },
        sums([0, 0, 4, 1, 5, 9]),
        left,
    )
}

#[test]
fn hook_by_worst(rt: HostRuntime) -> Result<(), Fail> {
    let left = Lent {
        counts: [0, 1, 1, 2, 2, 9],
        preds: [0, 1, 1, 2, 3, 9],
        list: [1, 3, 5, 9, 9, 9],
    };
    let after = [0, 0, 4, 1, 4, 9].map(|worst| Worst { worst });
    reduces_hook(
        &rt,
        [Worst { worst: 9 }; 6],
        Worst { worst: 4 },
        after,
        left,
    )
}

#[test]
fn hook_by_sum_then_worst(rt: HostRuntime) -> Result<(), Fail> {
    let left = Lent {
        counts: [0, 1, 1, 2, 2, 9],
        preds: [0, 1, 1, 2, 3, 9],
        list: [1, 3, 5, 9, 9, 9],
    };
    let after = [(0, 0), (0, 0), (4, 4), (1, 1), (5, 4), (9, 9)].map(|(sum, worst)| SumThenWorst {
        sum,
        worst,
    });
    reduces_hook(
        &rt,
        [SumThenWorst { sum: 9, worst: 9 }; 6],
        SumThenWorst { sum: 5, worst: 4 },
        after,
        left,
    )
}

#[test]
fn tolerances_decide(rt: HostRuntime) -> Result<(), Fail> {
    let hook = hook()?.lift();
    keeps(&rt, &hook, &Synchronous, 41, 2, 41, [1, 5, 9, 9, 9, 9])?;
    keeps(&rt, &hook, &Synchronous, 40, 3, 5, [1, 2, 5, 9, 9, 9])?;
    keeps(&rt, &hook, &Synchronous, 0, 5, 0, [1, 2, 3, 4, 5, 9])?;
    keeps(&rt, &hook, &Synchronous, LIMIT, 2, 41, [1, 5, 9, 9, 9, 9])?;
    let wave = wave()?.lift();
    keeps(&rt, &wave, &Area, 0, 2, 0, [1, 5, 9, 9, 9, 9])
}

#[test]
fn corner_is_kept(rt: HostRuntime) -> Result<(), Fail> {
    let corners = Corners { below: Synchronous };
    let mut hook = hook()?.lift();
    keeps(&rt, &hook, &corners, 5, 3, 5, [1, 2, 5, 9, 9, 9])?;
    hook.mark(4)?;
    keeps(&rt, &hook, &Synchronous, 5, 3, 5, [1, 2, 5, 9, 9, 9])?;
    keeps(&rt, &hook, &corners, 5, 4, 1, [1, 2, 4, 5, 9, 9])?;
    let mut lent = BLANK;
    let mut totals = [NO_SUM; 6];
    run(&hook, &corners, 5, &mut lent, &mut totals)?;
    assert_eq!(rt; lent.counts, [0, 1, 1, 2, 3, 9]);
    assert_eq!(rt; lent.preds, [0, 1, 1, 2, 4, 9]);
    assert_eq!(rt; totals, sums([0, 0, 4, 1, 1, 9]));
    Ok(())
}

fn spanned(span: u32) -> Span<Synchronous> {
    Span {
        span,
        below: Synchronous,
    }
}

#[test]
fn span_0_leaves_points_unreached(rt: HostRuntime) -> Result<(), Fail> {
    let hook = hook()?.lift();
    keeps(&rt, &hook, &spanned(1), 5, 5, 0, [1, 2, 3, 4, 5, 9])?;
    let mut lent = BLANK;
    let mut totals = [NO_SUM; 6];
    refuses(
        &rt,
        Layer::Tray,
        run(&hook, &spanned(0), 5, &mut lent, &mut totals),
        9,
        5,
    )?;
    assert_eq!(rt; lent.counts, [0, 0, 0, 0, 0, 9]);
    assert_eq!(rt; lent.preds, [0, 0, 0, 0, 0, 9]);
    assert_eq!(rt; totals, sums([0, 0, 0, 0, 0, 9]));
    assert_eq!(rt; lent.list, [9; 6]);
    Ok(())
}

// Two points, and two more after a time of 8.
fn parted() -> Result<Lifted, Refusal> {
    Ok(drawn([(0, 0, 0), (0, 0, 1), (0, 0, 9), (0, 0, 10)])?.lift())
}

#[test]
fn points_after_a_gap_are_unreached(rt: HostRuntime) -> Result<(), Fail> {
    let stroke = parted()?;
    let mut lent = BLANK;
    let mut totals = [NO_SUM; 6];
    refuses(
        &rt,
        Layer::Tray,
        run(&stroke, &spanned(2), 5, &mut lent, &mut totals),
        9,
        4,
    )?;
    assert_eq!(rt; lent.counts, [0, 1, 0, 0, 9, 9]);
    assert_eq!(rt; lent.preds, [0, 1, 0, 0, 9, 9]);
    assert_eq!(rt; totals, sums([0, 0, 0, 0, 9, 9]));
    assert_eq!(rt; lent.list, [9; 6]);
    Ok(())
}

#[test]
fn one_point_is_kept(rt: HostRuntime) -> Result<(), Fail> {
    let mut tray = Writing::new();
    tray.put(0, 0, 0)?;
    let stroke = tray.lift();
    keeps(&rt, &stroke, &spanned(0), 5, 1, 0, [1, 9, 9, 9, 9, 9])?;
    keeps(&rt, &stroke, &Synchronous, 0, 1, 0, [1, 9, 9, 9, 9, 9])?;
    let mut counts = [9];
    let mut preds = [9];
    let mut totals = [NO_SUM];
    let said = reduce(
        &stroke,
        &Synchronous,
        5,
        &mut counts,
        &mut preds,
        &mut totals,
        &mut [],
    );
    refuses(&rt, Layer::Tray, said, 10, 1)?;
    assert_eq!(rt; counts, [0]);
    assert_eq!(rt; preds, [0]);
    assert_eq!(rt; totals, [Sum { sum: 0 }]);
    Ok(())
}

// A reduce of the hook by sums with the tolerance 5, and these entries lent.
fn reduce_hook(
    counts: &mut [u16],
    preds: &mut [u16],
    totals: &mut [Sum],
    list: &mut [u16],
) -> Result<Answer<Sum>, Refusal> {
    let hook = hook()?.lift();
    reduce(&hook, &Synchronous, 5, counts, preds, totals, list)
}

#[test]
fn exact_room_suffices(rt: HostRuntime) -> Result<(), Fail> {
    let mut counts = [9; 5];
    let mut preds = [9; 5];
    let mut totals = [NO_SUM; 5];
    let mut list = [9; 3];
    let answer = reduce_hook(&mut counts, &mut preds, &mut totals, &mut list)?;
    assert_eq!(rt; answer.count, 3);
    assert_eq!(rt; answer.total, Sum { sum: 5 });
    assert_eq!(rt; list, [1, 2, 5]);
    Ok(())
}

#[test]
fn short_list_is_refused(rt: HostRuntime) -> Result<(), Fail> {
    let mut lent = BLANK;
    let mut totals = [NO_SUM; 6];
    let mut list = [9; 2];
    let said = reduce_hook(&mut lent.counts, &mut lent.preds, &mut totals, &mut list);
    refuses(&rt, Layer::Tray, said, 10, 3)?;
    assert_eq!(rt; list, [9; 2]);
    assert_eq!(rt; lent.counts, [0, 1, 1, 2, 2, 9]);
    assert_eq!(rt; lent.preds, [0, 1, 1, 2, 2, 9]);
    assert_eq!(rt; totals, sums([0, 0, 4, 1, 5, 9]));
    Ok(())
}

#[test]
fn short_tables_are_refused(rt: HostRuntime) -> Result<(), Fail> {
    let mut short = [9; 4];
    let mut short_totals = [NO_SUM; 4];
    let mut lent = BLANK;
    let mut totals = [NO_SUM; 6];
    let said = reduce_hook(&mut short, &mut lent.preds, &mut totals, &mut lent.list);
    refuses(&rt, Layer::Tray, said, 8, 5)?;
    let said = reduce_hook(&mut lent.counts, &mut short, &mut totals, &mut lent.list);
    refuses(&rt, Layer::Tray, said, 8, 5)?;
    let said = reduce_hook(
        &mut lent.counts,
        &mut lent.preds,
        &mut short_totals,
        &mut lent.list,
    );
    refuses(&rt, Layer::Tray, said, 8, 5)?;
    assert_eq!(rt; short, [9; 4]);
    assert_eq!(rt; short_totals, [NO_SUM; 4]);
    assert_eq!(rt; totals, [NO_SUM; 6]);
    assert_eq!(rt; lent, BLANK);
    Ok(())
}

#[test]
fn refused_before_filling(rt: HostRuntime) -> Result<(), Fail> {
    let mut lent = BLANK;
    let mut totals = [NO_SUM; 6];
    let mut none: [Sum; 0] = [];
    let bare = Writing::new().lift();
    refuses(
        &rt,
        Layer::Tray,
        run(&bare, &Synchronous, 5, &mut lent, &mut totals),
        5,
        0,
    )?;
    refuses(
        &rt,
        Layer::Tray,
        run(&bare, &Synchronous, u64::MAX, &mut lent, &mut none),
        5,
        0,
    )?;
    let hook = hook()?.lift();
    refuses(
        &rt,
        Layer::Tray,
        run(&hook, &Synchronous, LIMIT + 1, &mut lent, &mut totals),
        7,
        0,
    )?;
    refuses(
        &rt,
        Layer::Tray,
        run(&hook, &Synchronous, u64::MAX, &mut lent, &mut totals),
        7,
        0,
    )?;
    refuses(
        &rt,
        Layer::Tray,
        run(&hook, &Synchronous, u64::MAX, &mut lent, &mut none),
        7,
        0,
    )?;
    assert_eq!(rt; totals, [NO_SUM; 6]);
    assert_eq!(rt; lent, BLANK);
    Ok(())
}
