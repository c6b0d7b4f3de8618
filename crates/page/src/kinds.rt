// What the records of a page hold, and what a walk tells of them.
use crate::order::KnownOrder;
use tray::point::Mark;

// A record by its kind, with its payload, which is still a part of the page.
#[derive(Clone, Copy)]
pub enum Record<'a> {
    Start(&'a [u8; 4]),
    Plain(&'a [u8; 8]),
    Corner(&'a [u8; 8]),
    Order(&'a [u8; 14]),
}

// A record, and the place of its first byte on the page.
#[derive(Clone, Copy)]
pub struct Placed<'a> {
    pub record: Record<'a>,
    pub place: usize,
}

// A point as it stands on the page. No type parameter joins it with the tray's point, whose places are wider: it would stand at every mention of either.
#[derive(Clone, Copy, Debug, PartialEq, Eq)]
pub struct Point {
    pub x: i16,
    pub y: i16,
    pub t: u32,
    pub mark: Mark,
}

// How a stroke is to be reduced, as it stands on the page: measure and total are codes, known or not.
// They are numbers, since the writer takes any codes and refuses those that are not known.
#[derive(Clone, Copy, Debug, PartialEq, Eq)]
pub struct Order {
    pub measure: u8,
    pub total: u8,
    pub span: u32,
    pub tolerance: u64,
}

// The two total fields of a record of kept points.
#[derive(Clone, Copy, Debug, PartialEq, Eq)]
pub struct Totals {
    pub first: u64,
    pub second: u64,
}

// Where a walk stands: between strokes, or inside one.
#[derive(Clone, Copy, Debug, PartialEq, Eq)]
pub enum Part {
    Outside,
    Inside,
}

// What one record says where it stands, or that the page has ended.
// The end is a step like the others, with the part before it and the part after it; a `None` for it would split each rule of steps in two.
#[derive(Clone, Copy, Debug, PartialEq, Eq)]
pub enum Step {
    Begin(u32),
    Point(Point),
    Finish(KnownOrder),
    End,
}
