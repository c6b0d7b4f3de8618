// Records as bytes, and bytes put into a page.
// Functions and no `From`: a name says which record the bytes are, where a conversion to an array would not.
ghost use Rattle.std.specs.Prelude.{◌≡◌, ◌+◌, ◌*◌, ◌<◌, ◌≤◌, ◌++◌, length, nat_le};
ghost use Rattle.page.specs.Strokes.{start_bytes, point_bytes, order_bytes};
ghost use Rattle.page.specs.Little.{le};
ghost use Rattle.page.specs.Answers.{refused_bytes};
ghost use Rattle.page.specs.Fits.{PointFits};
ghost use Rattle.page.specs.Writes.{written};

use crate::kinds::{Order, Point};
use crate::record_kind::Kind;

pub(crate) fn start_record(number: u32) -> [u8; 8]
    ensures { result ≡ start_bytes number }
{
    let [a, b, c, d] = number.to_le_bytes();
    [4, 0, u8::from(Kind::Start), 0, a, b, c, d]
}

pub(crate) fn point_record(p: Point) -> [u8; 12]
    ensures bytes { result ≡ point_bytes p }
    ensures fits { PointFits p }
{
    let kind = u8::from(Kind::from(p.mark));
    let [x0, x1] = p.x.to_le_bytes();
    let [y0, y1] = p.y.to_le_bytes();
    let [a, b, c, d] = p.t.to_le_bytes();
    [8, 0, kind, 0, x0, x1, y0, y1, a, b, c, d]
}

pub(crate) fn order_record(o: Order) -> [u8; 18]
    ensures { result ≡ order_bytes o }
{
    let kind = u8::from(Kind::Order);
    let [s0, s1, s2, s3] = o.span.to_le_bytes();
    let [a, b, c, d, e, f, g, h] = o.tolerance.to_le_bytes();
    [
        14, 0, kind, 0, o.measure, o.total, s0, s1, s2, s3, a, b, c, d, e, f, g, h,
    ]
}

// The front of a record of `count` kept points, up to the stroke number.
pub(crate) fn kept_start(number: u32, count: usize) -> [u8; 8]
    requires { 20 + 2 * count < 65536 }
    ensures { result ≡ le 2 (20 + 2 * count) ++ (le 2 5 ++ le 4 number) }
{
    let size = 20 + 2 * count as u16;
    let [s0, s1] = size.to_le_bytes();
    let [a, b, c, d] = number.to_le_bytes();
    [s0, s1, u8::from(Kind::Kept), 0, a, b, c, d]
}

pub(crate) fn refused_record(number: u32, refusal: u16, place: u16) -> [u8; 12]
    ensures { result ≡ refused_bytes number refusal place }
{
    let [a, b, c, d] = number.to_le_bytes();
    let [r0, r1] = refusal.to_le_bytes();
    let [p0, p1] = place.to_le_bytes();
    [8, 0, u8::from(Kind::Refused), 0, a, b, c, d, r0, r1, p0, p1]
}

// Whether `head` bytes and `count` times `each` fit into `len` behind those used.
pub(crate) fn has_room(len: usize, used: usize, head: usize, each: usize, count: usize) -> bool
    requires { 0 < each }
    ensures { result ≡ nat_le (used + (head + each * count)) len }
{
    if len < used || len - used < head {
        return false;
    }
    count <= (len - used - head) / each
}

// Puts bytes into the page.
pub(crate) fn put(page: &mut [u8], at: usize, bytes: &[u8])
    requires { at + length bytes.now ≤ length page.old }
    ensures { page.new ≡ written at page.old bytes.now }
{
    page[at..at + bytes.len()].copy_from_slice(bytes);
}
