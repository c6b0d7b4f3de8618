// Numbers, points and orders taken from a payload.
// Functions and no `From`, for all three alike: the payload of a point does not tell its mark, and a stroke number is no type of this crate.
ghost use Rattle.std.specs.Prelude.{◌≡◌};
ghost use Rattle.page.specs.Little.{unle};
ghost use Rattle.page.specs.Strokes.{point_of, order_of};

use crate::kinds::{Order, Point};
use tray::point::Mark;

pub(crate) fn number(p: &[u8; 4]) -> u32
    ensures { result ≡ unle p.now }
{
    u32::from_le_bytes(*p)
}

pub(crate) fn point(p: &[u8; 8], mark: Mark) -> Point
    ensures { result ≡ point_of mark p.now }
{
    let [x0, x1, y0, y1, a, b, c, d] = *p;
    Point {
        x: i16::from_le_bytes([x0, x1]),
        y: i16::from_le_bytes([y0, y1]),
        t: u32::from_le_bytes([a, b, c, d]),
        mark,
    }
}

pub(crate) fn order(p: &[u8; 14]) -> Order
    ensures { result ≡ order_of p.now }
{
    let [measure, total, s0, s1, s2, s3, a, b, c, d, e, f, g, h] = *p;
    Order {
        measure,
        total,
        span: u32::from_le_bytes([s0, s1, s2, s3]),
        tolerance: u64::from_le_bytes([a, b, c, d, e, f, g, h]),
    }
}
