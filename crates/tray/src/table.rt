// The plain table inside every tray: at most 512 points, within the limits that every stroke keeps.
ghost use Rattle.std.specs.Prelude.{◌≡◌, ◌≤◌, length};
ghost use Rattle.tray.specs.Stroke.{OnSheet, Rising, Short};

use crate::point::Point;

// How many points the stroke has, and in their order the points; what the array holds after them does not matter.
// An array and no `ArrayVec`: that would take `Copy` from the table.
#[derive(Clone, Copy)]
pub struct Table {
    pub(crate) points: [Point; 512],
    pub(crate) len: usize,
    ghost whole: { length points ≡ 512 },
    ghost few: { len ≤ 512 },
    ghost placed: { OnSheet points len },
    ghost rising: { Rising points len },
    ghost short: { Short points len },
}
