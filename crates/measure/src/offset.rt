// Ways between the points of a stroke and their products, in 32 bits: every point lies on the sheet, so none of them wraps.
ghost use Rattle.std.specs.Prelude.{◌≡◌, ◌*◌, ◌≤◌, ◌+ℤ◌, ◌-ℤ◌, pos, ◌*ℤ◌, unsigned_abs};
ghost use Rattle.measure.specs.Chords.{Placed, On};

use tray::point::Point;

// How far it is from one point to another: across and up, or in one coordinate and in time.
#[derive(Clone, Copy)]
pub(crate) struct Offset {
    pub(crate) dx: i32,
    pub(crate) dy: i32,
    ghost narrow: { unsigned_abs dx ≤ 8191 },
    ghost low: { unsigned_abs dy ≤ 8191 },
}

impl Offset {
    // The way from o to p, across and up.
    pub(crate) fn between(o: Point, p: Point) -> Offset
        requires o { On o }
        requires p { On p }
        ensures across { result.dx ≡ p.x -ℤ o.x }
        ensures up { result.dy ≡ p.y -ℤ o.y }
    {
        Offset {
            dx: p.x - o.x,
            dy: p.y - o.y,
        }
    }

    // The way from one place to another in a single coordinate, with the ticks that it takes in the place of the way up.
    pub(crate) fn in_time(from: i32, to: i32, ticks: u32) -> Offset
        requires from { Placed from }
        requires to { Placed to }
        requires ticks { ticks ≤ 8191 }
        ensures across { result.dx ≡ to -ℤ from }
        ensures up { result.dy ≡ pos ticks }
    {
        Offset {
            dx: to - from,
            dy: ticks as i32,
        }
    }

    // The cross product of two ways.
    pub(crate) fn cross(self, other: Offset) -> i32
        ensures value { result ≡ self.dx *ℤ other.dy -ℤ self.dy *ℤ other.dx }
        ensures small { unsigned_abs result ≤ 2 * (8191 * 8191) }
    {
        self.dx * other.dy - self.dy * other.dx
    }

    // The dot product of two ways.
    pub(crate) fn dot(self, other: Offset) -> i32
        ensures value { result ≡ self.dx *ℤ other.dx +ℤ self.dy *ℤ other.dy }
        ensures small { unsigned_abs result ≤ 2 * (8191 * 8191) }
    {
        self.dx * other.dx + self.dy * other.dy
    }
}
