// Pages written and read: a stroke there and back, answers, and what is refused.
use super::refuses;
use lines::output::{InputCause, write_page, write_refusal};
use page::fault::PageFault;
use page::kinds::{Order, Point, Record, Step, Totals};
use page::order::{KnownOrder, MeasureKind, TotalKind};
use page::walk::Walk;
use page::writer::Writer;
use refusal::{Layer, Told};
use std::process::Abort;
use std::test::Fail;
use tray::point::Mark;

const CORNER: Point = Point {
    x: -2,
    y: 3,
    t: 258,
    mark: Mark::Corner,
};

const ORDER: Order = Order {
    measure: 1,
    total: 3,
    span: 8191,
    tolerance: 5,
};

// The same order, read.
const KNOWN_ORDER: KnownOrder = KnownOrder {
    measure: MeasureKind::Synchronous,
    total: TotalKind::SumThenWorst,
    span: 8191,
    tolerance: 5,
};

// The stroke 7 with one corner, as 38 bytes.
const STROKE: [u8; 38] = [
    4, 0, 1, 0, 7, 0, 0, 0, 8, 0, 3, 0, 254, 255, 3, 0, 2, 1, 0, 0, 14, 0, 4, 0, 1, 3, 255, 31, 0,
    0, 5, 0, 0, 0, 0, 0, 0, 0,
];

// What a refusal of a page tells.
fn told(number: u16, place: usize) -> Told {
    Told {
        number,
        place,
        layer: Layer::Page,
    }
}

#[test]
fn stroke_is_written(rt: HostRuntime) -> Result<(), Fail> {
    let mut page = [0; 38];
    let mut writer = Writer::new();
    assert_eq!(rt; writer.append(&mut page, 7, &[CORNER], ORDER)?, 38);
    assert_eq!(rt; writer.used, 38);
    assert_eq!(rt; page, STROKE);
    refuses(
        &rt,
        Layer::Page,
        writer.append(&mut page, 8, &[], ORDER),
        16,
        38,
    )?;
    assert_eq!(rt; writer.used, 38);
    assert_eq!(rt; page, STROKE);
    Ok(())
}

#[test]
fn stroke_reads_back(rt: HostRuntime) -> Result<(), Fail> {
    let mut walk = Walk::new(&STROKE);
    assert_eq!(rt; walk.step()?, Step::Begin(7));
    assert_eq!(rt; walk.step()?, Step::Point(CORNER));
    assert_eq!(rt; walk.step()?, Step::Finish(KNOWN_ORDER));
    assert_eq!(rt; walk.step()?, Step::End);
    assert_eq!(rt; walk.step()?, Step::End);
    Ok(())
}

#[test]
fn record_is_looked_at_in_place(rt: HostRuntime) -> Result<(), Fail> {
    let mut walk = Walk::new(&STROKE);
    assert_eq!(rt; walk.step()?, Step::Begin(7));
    let Some(placed) = walk.look()? else {
        return Err(Fail::new("no record"));
    };
    assert_eq!(rt; placed.place, 8);
    match placed.record {
        Record::Corner(payload) => {
            assert_eq!(rt; payload.as_slice(), &STROKE[12..20]);
            Ok(())
        },
        _ => Err(Fail::new("another kind")),
    }
}

#[test]
fn refused_step_moves_nothing(rt: HostRuntime) -> Result<(), Fail> {
    let mut walk = Walk::new(&STROKE[0..20]);
    assert_eq!(rt; walk.step()?, Step::Begin(7));
    assert_eq!(rt; walk.step()?, Step::Point(CORNER));
    refuses(&rt, Layer::Page, walk.step(), 14, 20)?;
    refuses(&rt, Layer::Page, walk.step(), 14, 20)?;
    assert_eq!(rt; walk.place, 20);
    Ok(())
}

// What stops the reading of a page of at most six records, or none at its end.
fn stopped(page: &[u8]) -> Option<Told> {
    let mut walk = Walk::new(page);
    for _ in 0..6 {
        match walk.step() {
            Ok(Step::End) => return None,
            Ok(_) => {}
            Err(fault) => return Some(Told::from(fault)),
        }
    }
    None
}

#[test]
fn cut_pages_are_refused(rt: HostRuntime) {
    assert_eq!(rt; stopped(&STROKE), None);
    assert_eq!(rt; stopped(&[]), None);
    assert_eq!(rt; stopped(&STROKE[0..20]), Some(told(14, 20)));
    assert_eq!(rt; stopped(&STROKE[0..8]), Some(told(14, 8)));
    assert_eq!(rt; stopped(&STROKE[0..9]), Some(told(11, 8)));
    assert_eq!(rt; stopped(&STROKE[0..37]), Some(told(11, 20)));
    assert_eq!(rt; stopped(&STROKE[0..7]), Some(told(11, 0)));
    assert_eq!(rt; stopped(&STROKE[8..20]), Some(told(14, 0)));
    assert_eq!(rt; stopped(&[0]), Some(told(11, 0)));
    assert_eq!(rt; stopped(&[1, 0, 9, 0]), Some(told(11, 0)));
    assert_eq!(rt; stopped(&[0, 0, 9, 0]), Some(told(12, 0)));
    assert_eq!(rt; stopped(&[0, 0, 5, 0]), Some(told(12, 0)));
    assert_eq!(rt; stopped(&[0, 0, 1, 0]), Some(told(13, 0)));
    assert_eq!(rt; stopped(&[0, 0, 2, 0]), Some(told(13, 0)));
}

#[test]
fn wrong_records_are_refused(rt: HostRuntime) {
    let mut page = STROKE;
    page[24] = 0;
    assert_eq!(rt; stopped(&page), Some(told(15, 20)));
    page[24] = 3;
    assert_eq!(rt; stopped(&page), None);
    page[25] = 4;
    assert_eq!(rt; stopped(&page), Some(told(15, 20)));
    assert_eq!(rt;
        stopped(&[4, 0, 1, 0, 7, 0, 0, 0, 4, 0, 1, 0, 8, 0, 0, 0]),
        Some(told(14, 8))
    );
}

// An append of no points with these codes.
fn coded(page: &mut [u8], measure: u8, total: u8) -> Result<usize, PageFault> {
    let order = Order {
        measure,
        total,
        span: 0,
        tolerance: 0,
    };
    Writer::new().append(page, 1, &[], order)
}

#[test]
fn codes_come_before_room(rt: HostRuntime) -> Result<(), Fail> {
    let mut page = [9; 25];
    refuses(&rt, Layer::Page, coded(&mut page, 0, 1), 15, 0)?;
    refuses(&rt, Layer::Page, coded(&mut page, 4, 1), 15, 0)?;
    refuses(&rt, Layer::Page, coded(&mut page, 1, 0), 15, 0)?;
    refuses(&rt, Layer::Page, coded(&mut page, 3, 4), 15, 0)?;
    refuses(&rt, Layer::Page, coded(&mut page, 3, 3), 16, 0)?;
    assert_eq!(rt; page, [9; 25]);
    assert_eq!(rt; coded(&mut [9; 26], 3, 3)?, 26);
    Ok(())
}

// The answers for the strokes 7, kept, and 8, refused.
const ANSWERS: [u8; 42] = [
    26, 0, 5, 0, 7, 0, 0, 0, 5, 0, 0, 0, 0, 0, 0, 0, 4, 0, 0, 0, 0, 0, 0, 0, 1, 0, 2, 0, 5, 0, 8,
    0, 6, 0, 8, 0, 0, 0, 5, 0, 0, 0,
];

#[test]
fn answers_are_written(rt: HostRuntime) -> Result<(), Fail> {
    let totals = Totals {
        first: 5,
        second: 4,
    };
    let mut page = [0; 42];
    let mut writer = Writer::new();
    assert_eq!(rt; writer.append_kept(&mut page, 7, totals, &[1, 2, 5])?, 30);
    refuses(
        &rt,
        Layer::Page,
        writer.append_kept(&mut page, 9, totals, &[]),
        16,
        30,
    )?;
    assert_eq!(rt; writer.append_refused(&mut page, 8, 5, 0)?, 42);
    assert_eq!(rt; writer.used, 42);
    refuses(
        &rt,
        Layer::Page,
        writer.append_refused(&mut page, 9, 5, 0),
        16,
        42,
    )?;
    assert_eq!(rt; page, ANSWERS);
    Ok(())
}

#[test]
fn kept_record_needs_room(rt: HostRuntime) -> Result<(), Fail> {
    let totals = Totals {
        first: 0,
        second: 0,
    };
    let mut writer = Writer::new();
    refuses(
        &rt,
        Layer::Page,
        writer.append_kept(&mut [9; 29], 7, totals, &[1, 2, 5]),
        16,
        0,
    )?;
    assert_eq!(rt; writer.used, 0);
    assert_eq!(rt; writer.append_kept(&mut [9; 24], 7, totals, &[])?, 24);
    Ok(())
}

#[test]
fn lines_are_written(rt: HostRuntime) -> Result<(), Fail> {
    let heap = rt.alloc();
    let out = write_page(heap, Vec::new(heap), &STROKE)?;
    assert_eq!(rt; out.as_slice(), "stroke 7 kept 1 total 0 0\n".as_bytes());
    let told = Told::from(InputCause::TooLong);
    let out = write_refusal(heap, Vec::new(heap), told)?;
    assert_eq!(rt; out.as_slice(), "program refused 17 at 65536\n".as_bytes());
    Ok(())
}
