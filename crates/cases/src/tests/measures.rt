// What measures and layers answer for chords of the worked strokes, and what they bar.
use super::{drawn, hook, wave};
use measure::area::Area;
use measure::corners::Corners;
use measure::distance::Distance;
use measure::measure::Measure;
use measure::span::Span;
use measure::synchronous::Synchronous;
use std::process::Abort;
use std::test::Fail;
use tray::tray::Lifted;

// The answers for the chords of five points that pass over a point: 1–3, 1–4, 1–5, 2–4, 2–5 and 3–5.
fn errors<M: Measure>(measure: &M, stroke: &Lifted) -> [Option<u64>; 6] {
    [
        measure.error(stroke, 1, 3),
        measure.error(stroke, 1, 4),
        measure.error(stroke, 1, 5),
        measure.error(stroke, 2, 4),
        measure.error(stroke, 2, 5),
        measure.error(stroke, 3, 5),
    ]
}

// The errors of those chords are these, neighbours have none, and what is no chord of five points is barred.
fn measures<M: Measure>(rt: &impl Abort, measure: &M, stroke: &Lifted, worked: [u64; 6]) {
    let [a, b, c, d, e, f] = worked;
    assert_eq!(rt;
        errors(measure, stroke),
        [Some(a), Some(b), Some(c), Some(d), Some(e), Some(f)]
    );
    assert_eq!(rt; measure.error(stroke, 1, 2), Some(0));
    assert_eq!(rt; measure.error(stroke, 4, 5), Some(0));
    assert_eq!(rt; measure.error(stroke, 0, 1), None);
    assert_eq!(rt; measure.error(stroke, 1, 1), None);
    assert_eq!(rt; measure.error(stroke, 3, 2), None);
    assert_eq!(rt; measure.error(stroke, 5, 6), None);
    assert_eq!(rt; measure.error(stroke, 0, 6), None);
}

#[test]
fn chords_have_errors(rt: HostRuntime) -> Result<(), Fail> {
    let hook = hook()?.lift();
    measures(&rt, &Synchronous, &hook, [4, 13, 41, 1, 5, 1]);
    measures(&rt, &Distance, &hook, [1, 5, 16, 1, 1, 1]);
    measures(&rt, &Area, &hook, [4, 10, 22, 1, 6, 2]);
    let wave = wave()?.lift();
    measures(&rt, &Synchronous, &wave, [4, 9, 8, 0, 9, 4]);
    measures(&rt, &Distance, &wave, [4, 5, 4, 0, 5, 4]);
    measures(&rt, &Area, &wave, [4, 8, 0, 0, 8, 4]);
    Ok(())
}

#[test]
fn corners_bar_between(rt: HostRuntime) -> Result<(), Fail> {
    let corners = Corners { below: Synchronous };
    let mut hook = hook()?.lift();
    hook.mark(1)?;
    hook.mark(5)?;
    measures(&rt, &corners, &hook, [4, 13, 41, 1, 5, 1]);
    hook.mark(4)?;
    assert_eq!(rt;
        errors(&corners, &hook),
        [Some(4), Some(13), None, Some(1), None, None]
    );
    assert_eq!(rt; corners.error(&hook, 4, 5), Some(0));
    hook.unmark(4)?;
    measures(&rt, &corners, &hook, [4, 13, 41, 1, 5, 1]);
    Ok(())
}

#[test]
fn spans_bar_above(rt: HostRuntime) -> Result<(), Fail> {
    let hook = hook()?.lift();
    let span = Span {
        span: 2,
        below: Synchronous,
    };
    assert_eq!(rt;
        errors(&span, &hook),
        [Some(4), None, None, Some(1), None, Some(1)]
    );
    let none = Span {
        span: 0,
        below: Synchronous,
    };
    assert_eq!(rt; none.error(&hook, 1, 2), None);
    let wide = Span {
        span: 4,
        below: Distance,
    };
    measures(&rt, &Corners { below: wide }, &hook, [1, 5, 16, 1, 1, 1]);
    Ok(())
}

#[test]
fn distance_to_one_place(rt: HostRuntime) -> Result<(), Fail> {
    let stroke = drawn([(7, 7, 0), (10, 11, 1), (7, 7, 2)])?.lift();
    assert_eq!(rt; Distance.error(&stroke, 1, 3), Some(25));
    assert_eq!(rt; Area.error(&stroke, 1, 3), Some(0));
    assert_eq!(rt; Synchronous.error(&stroke, 1, 3), Some(25));
    Ok(())
}
