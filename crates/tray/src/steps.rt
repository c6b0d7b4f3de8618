// The steps of a tray over its table.
ghost use Rattle.std.specs.Prelude.{◌≡◌, []};
ghost use Rattle.tray.specs.Trays.{points as points_of};
ghost use Rattle.tray.specs.Refusals.{tells};
ghost use Rattle.tray.specs.Machine.{off_sheet, stopped, late, put_says, put_after, take_back_says, take_back_after, mark_says, mark_after};

use crate::causes::Refusal;
use crate::point::{Mark, Point};
use crate::table::Table;

// Whether x or y is no place on the sheet.
fn is_off_sheet(x: i32, y: i32) -> bool
    ensures { result ≡ off_sheet x y }
{
    let sheet = -4096..=4095;
    !sheet.contains(&x) || !sheet.contains(&y)
}

impl Table {
    // A table with no point.
    pub(crate) fn new() -> Table
        ensures { points_of result ≡ [] }
    {
        Table {
            points: [Point::default(); 512],
            len: 0,
        }
    }

    // Whether the time t is not above the last one.
    fn is_stopped(&self, t: u32) -> bool
        ensures { result ≡ stopped (points_of self.now) t }
    {
        0 < self.len && t <= self.points[self.len - 1].t
    }

    // Whether the time t is too far above the first one.
    fn is_late(&self, t: u32) -> bool
        ensures { result ≡ late (points_of self.now) t }
    {
        0 < self.len && 8191 < t.saturating_sub(self.points[0].t)
    }

    // Adds a plain point and answers its number.
    pub(crate) fn put(&mut self, x: i32, y: i32, t: u32) -> Result<u16, Refusal>
        ensures says { tells result ≡ put_says (points_of self.old) x y t }
        ensures after { points_of self.new ≡ put_after (points_of self.old) x y t }
    {
        let n = self.len;
        let place = n as u16 + 1;
        if is_off_sheet(x, y) {
            return Err(Refusal::OffSheet(place));
        }
        if self.is_stopped(t) {
            return Err(Refusal::StoppedClock(place));
        }
        if self.is_late(t) {
            return Err(Refusal::LongStroke(place));
        }
        if n >= 512 {
            return Err(Refusal::FullTray);
        }
        self.points[n] = Point {
            x,
            y,
            t,
            mark: Mark::Plain,
        };
        self.len = n + 1;
        Ok(place)
    }

    // Removes the last point and answers its number.
    pub(crate) fn take_back(&mut self) -> Result<u16, Refusal>
        ensures says { tells result ≡ take_back_says (points_of self.old) }
        ensures after { points_of self.new ≡ take_back_after (points_of self.old) }
    {
        let n = self.len;
        if n == 0 {
            return Err(Refusal::BareTray);
        }
        self.len = n - 1;
        Ok(n as u16)
    }

    // Gives the point i this mark and answers i.
    pub(crate) fn set_mark(&mut self, i: u16, mark: Mark) -> Result<u16, Refusal>
        ensures says { tells result ≡ mark_says (points_of self.old) i }
        ensures after { points_of self.new ≡ mark_after mark (points_of self.old) i }
    {
        let k = i as usize;
        if k == 0 || self.len < k {
            return Err(Refusal::NoSuchPoint(i));
        }
        let point = &mut self.points[k - 1];
        point.mark = mark;
        Ok(i)
    }
}
