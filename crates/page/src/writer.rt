// Strokes and answers appended to a page that is lent at each call.
ghost use Rattle.std.specs.Prelude.{◌≡◌, IfOk};
ghost use Rattle.page.specs.Strokes.{stroke_of};
ghost use Rattle.page.specs.Laws.{WrittenReadsBack};
ghost use Rattle.page.specs.Appends.{outcome, appends_stroke, appends_kept, appends_refused, OneMore};

use crate::encode::{
    has_room, kept_start, order_record, point_record, put, refused_record, start_record,
};
use crate::fault::{PageCause, PageFault};
use crate::kinds::{Order, Point, Totals};
use crate::order::KnownOrder;

// The most kept numbers whose record's length fits its two bytes.
const MOST_KEPT: usize = 32757;

// How many bytes of the page are used. The page itself is lent at each call: its memory is the caller's.
#[derive(Clone, Copy)]
pub struct Writer {
    pub used: usize,
}

impl Writer {
    pub fn new() -> Writer
        ensures used { result.used ≡ 0 }
        ensures back { WrittenReadsBack }
    {
        Writer { used: 0 }
    }

    // Appends a whole stroke and answers the bytes used then, or refuses and leaves all as it was.
    pub fn append(
        &mut self,
        page: &mut [u8],
        number: u32,
        points: &[Point],
        order: Order,
    ) -> Result<usize, PageFault>
        ensures appends { outcome result self.new.used page.new ≡ appends_stroke self.old.used page.old (stroke_of number points.now order) }
        ensures reads { IfOk result (λ n. OneMore self.old.used page.old (stroke_of number points.now order) n page.new) }
    {
        let used = self.used;
        if KnownOrder::try_from(order).is_err() {
            return Err(PageCause::WrongCode.at(used));
        }
        if !has_room(page.len(), used, 26, 12, points.len()) {
            return Err(PageCause::ShortPage.at(used));
        }
        put(page, used, &start_record(number));
        for (k, p) in points.iter().enumerate() {
            put(page, used + 8 + 12 * k, &point_record(*p));
        }
        let end = used + 8 + 12 * points.len();
        put(page, end, &order_record(order));
        self.used = end + 18;
        Ok(self.used)
    }

    // Appends the record of kept points in the same way.
    pub fn append_kept(
        &mut self,
        page: &mut [u8],
        number: u32,
        totals: Totals,
        numbers: &[u16],
    ) -> Result<usize, PageFault>
        ensures { outcome result self.new.used page.new ≡ appends_kept self.old.used page.old number totals numbers.now }
    {
        let used = self.used;
        let count = numbers.len();
        if count > MOST_KEPT || !has_room(page.len(), used, 24, 2, count) {
            return Err(PageCause::ShortPage.at(used));
        }
        put(page, used, &kept_start(number, count));
        put(page, used + 8, &totals.first.to_le_bytes());
        put(page, used + 16, &totals.second.to_le_bytes());
        for (k, n) in numbers.iter().enumerate() {
            put(page, used + 24 + 2 * k, &n.to_le_bytes());
        }
        self.used = used + 24 + 2 * count;
        Ok(self.used)
    }

    // Appends the record of a refusal in the same way. The refusal is a number here: whatever number is given is written.
    pub fn append_refused(
        &mut self,
        page: &mut [u8],
        number: u32,
        refusal: u16,
        place: u16,
    ) -> Result<usize, PageFault>
        ensures { outcome result self.new.used page.new ≡ appends_refused self.old.used page.old number refusal place }
    {
        let used = self.used;
        if !has_room(page.len(), used, 12, 1, 0) {
            return Err(PageCause::ShortPage.at(used));
        }
        put(page, used, &refused_record(number, refusal, place));
        self.used = used + 12;
        Ok(self.used)
    }
}
