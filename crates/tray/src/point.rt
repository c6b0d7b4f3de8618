// One point of a stroke.

// A corner is a point that no chord may pass over where corners are minded; every other point is plain.
#[derive(Clone, Copy, Debug, Default, PartialEq, Eq)]
pub enum Mark {
    #[default]
    Plain,
    Corner,
}

// A place x and y in font units, a time t in ticks, and a mark.
#[derive(Clone, Copy, Debug, Default, PartialEq, Eq)]
pub struct Point {
    pub x: i32,
    pub y: i32,
    pub t: u32,
    pub mark: Mark,
}
