// A stroke whose records were all read.
ghost use Rattle.page.specs.Strokes.{Stroke};
ghost use Rattle.job.specs.Whole.{HoldsStroke};
ghost use Rattle.job.specs.Records.{Answers};

use crate::answered::Answered;
use crate::open::OpenStroke;
use page::order::KnownOrder;

// The open stroke stands first: else its table is moved as 8200 bytes, and glibc may turn to `rep movsb` above 8192.
#[derive(Drop)]
pub(crate) struct WholeStroke {
    pub(crate) open: OpenStroke,
    pub(crate) number: u32,
    pub(crate) order: KnownOrder,
}

impl WholeStroke {
    pub(crate) fn answer(self) -> Answered
        ensures { (s : Stroke) → HoldsStroke self s → Answers result s }
    {
        let WholeStroke {
            number,
            open,
            order,
        } = self;
        Answered {
            number,
            total: order.total as u8,
            reply: open.finish(order),
        }
    }
}
