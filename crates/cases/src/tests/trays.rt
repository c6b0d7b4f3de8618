// What a tray takes, refuses and marks at the edges of its limits.
use super::{answers, hook, refuses};
use refusal::Layer;
use std::test::Fail;
use tray::point::Mark;
use tray::tray::{Lifted, Writing};

#[test]
fn sheet_has_edges(rt: HostRuntime) -> Result<(), Fail> {
    let mut tray = Writing::new();
    refuses(&rt, Layer::Tray, tray.put(4096, 0, 0), 1, 1)?;
    refuses(&rt, Layer::Tray, tray.put(0, 4096, 0), 1, 1)?;
    refuses(&rt, Layer::Tray, tray.put(-4097, 0, 0), 1, 1)?;
    refuses(&rt, Layer::Tray, tray.put(0, -4097, 0), 1, 1)?;
    refuses(&rt, Layer::Tray, tray.put(i32::MAX, 0, 0), 1, 1)?;
    refuses(&rt, Layer::Tray, tray.put(i32::MIN, 0, 0), 1, 1)?;
    refuses(&rt, Layer::Tray, tray.put(0, i32::MAX, 0), 1, 1)?;
    refuses(&rt, Layer::Tray, tray.put(0, i32::MIN, 0), 1, 1)?;
    answers(&rt, tray.put(4095, -4096, 0), 1)?;
    answers(&rt, tray.put(-4096, 4095, 1), 2)
}

#[test]
fn clock_has_edges(rt: HostRuntime) -> Result<(), Fail> {
    let mut tray = Writing::new();
    answers(&rt, tray.put(0, 0, 7), 1)?;
    refuses(&rt, Layer::Tray, tray.put(0, 0, 7), 2, 2)?;
    refuses(&rt, Layer::Tray, tray.put(0, 0, 6), 2, 2)?;
    refuses(&rt, Layer::Tray, tray.put(4096, 0, 7), 1, 2)?;
    refuses(&rt, Layer::Tray, tray.put(0, 0, 8199), 3, 2)?;
    refuses(&rt, Layer::Tray, tray.put(0, 0, u32::MAX), 3, 2)?;
    refuses(&rt, Layer::Tray, tray.put(4096, 0, 8199), 1, 2)?;
    answers(&rt, tray.put(0, 0, 8198), 2)?;
    refuses(&rt, Layer::Tray, tray.put(0, 0, 8198), 2, 3)
}

#[test]
fn late_times_do_not_wrap(rt: HostRuntime) -> Result<(), Fail> {
    let mut tray = Writing::new();
    answers(&rt, tray.put(0, 0, u32::MAX), 1)?;
    refuses(&rt, Layer::Tray, tray.put(0, 0, u32::MAX), 2, 2)?;
    refuses(&rt, Layer::Tray, tray.put(0, 0, 0), 2, 2)?;
    answers(&rt, tray.take_back(), 1)?;
    answers(&rt, tray.put(0, 0, 4294967290), 1)?;
    answers(&rt, tray.put(0, 0, u32::MAX), 2)
}

#[test]
fn points_are_taken_back(rt: HostRuntime) -> Result<(), Fail> {
    let mut tray = Writing::new();
    refuses(&rt, Layer::Tray, tray.take_back(), 5, 0)?;
    answers(&rt, tray.put(0, 0, 100), 1)?;
    answers(&rt, tray.put(0, 0, 200), 2)?;
    answers(&rt, tray.take_back(), 2)?;
    answers(&rt, tray.put(0, 0, 101), 2)?;
    answers(&rt, tray.take_back(), 2)?;
    answers(&rt, tray.take_back(), 1)?;
    refuses(&rt, Layer::Tray, tray.take_back(), 5, 0)?;
    answers(&rt, tray.put(0, 0, 3), 1)
}

#[test]
fn tray_gets_full(rt: HostRuntime) -> Result<(), Fail> {
    let mut tray = Writing::new();
    for t in 0..512 {
        answers(&rt, tray.put(0, 0, t), t as u16 + 1)?;
    }
    refuses(&rt, Layer::Tray, tray.put(0, 0, 512), 4, 513)?;
    refuses(&rt, Layer::Tray, tray.put(4096, 0, 512), 1, 513)?;
    refuses(&rt, Layer::Tray, tray.put(0, 0, 511), 2, 513)?;
    refuses(&rt, Layer::Tray, tray.put(0, 0, 8192), 3, 513)?;
    answers(&rt, tray.take_back(), 512)?;
    answers(&rt, tray.put(0, 0, 512), 512)?;
    let stroke = tray.lift();
    assert_eq!(rt; stroke.points().len(), 512);
    let mut tray = stroke.clear();
    answers(&rt, tray.put(0, 0, 0), 1)?;
    let stroke = tray.clear().lift();
    assert_eq!(rt; stroke.points().len(), 0);
    Ok(())
}

// The mark of the point with this index.
fn mark_of(stroke: &Lifted, index: usize) -> Option<Mark> {
    stroke.points().get(index).map(|point| point.mark)
}

#[test]
fn points_are_marked(rt: HostRuntime) -> Result<(), Fail> {
    let mut stroke = hook()?.lift();
    refuses(&rt, Layer::Tray, stroke.mark(0), 6, 0)?;
    refuses(&rt, Layer::Tray, stroke.mark(6), 6, 6)?;
    refuses(&rt, Layer::Tray, stroke.mark(65535), 6, 65535)?;
    answers(&rt, stroke.mark(5), 5)?;
    answers(&rt, stroke.mark(5), 5)?;
    assert_eq!(rt; mark_of(&stroke, 4), Some(Mark::Corner));
    assert_eq!(rt; mark_of(&stroke, 3), Some(Mark::Plain));
    refuses(&rt, Layer::Tray, stroke.unmark(0), 6, 0)?;
    refuses(&rt, Layer::Tray, stroke.unmark(6), 6, 6)?;
    answers(&rt, stroke.unmark(5), 5)?;
    answers(&rt, stroke.unmark(5), 5)?;
    assert_eq!(rt; mark_of(&stroke, 4), Some(Mark::Plain));
    let mut bare = stroke.clear().lift();
    assert_eq!(rt; bare.points().len(), 0);
    refuses(&rt, Layer::Tray, bare.mark(1), 6, 1)
}
