// The chain that is kept of a stroke.
ghost use Rattle.std.specs.Prelude.{◌≡◌, ◌≤◌, length, take};

use page::kinds::Totals;

// The two figures of its total, and a list that begins with the numbers of its points.
// An `ArrayVec` for the list and its count would take `Copy` from this type and from `Answered`, which callers have.
#[derive(Clone, Copy)]
pub struct Kept {
    pub totals: Totals,
    pub(crate) count: usize,
    pub(crate) list: [u16; 512],
    ghost whole: { length list ≡ 512 },
    ghost fits: { count ≤ 512 },
}

impl Kept {
    ghost use Rattle.std.specs.Prelude.{[], Ok};
    ghost use Rattle.job.specs.Answer.{kept, spoken};

    // These figures with no number, for an answer that a caller writes.
    pub fn new(totals: Totals) -> Kept
        ensures { spoken (Ok result) ≡ kept totals [] }
    {
        Kept {
            totals,
            count: 0,
            list: [0; 512],
        }
    }

    // The numbers of the points, in rising order.
    pub fn numbers(&self) -> &[u16]
        ensures { result.now ≡ take self.now.count self.now.list }
    {
        &self.list[..self.count]
    }
}
