// The answer of one stroke.
ghost use Rattle.std.specs.Prelude.{◌≡◌};
ghost use Rattle.page.specs.Appends.{outcome, appends};
ghost use Rattle.job.specs.Records.{shown, kept_of, answer_bytes};

use crate::kept::Kept;
use page::fault::PageFault;
use page::writer::Writer;
use refusal::Told;
use tray::causes::Refusal;

// The stroke's number, the code of its kind of total, and what is kept of it or why it is refused.
// The kind is a code here: a caller may write any over it, and all that takes an answer takes each.
#[derive(Clone, Copy)]
pub struct Answered {
    pub number: u32,
    pub total: u8,
    pub reply: Result<Kept, Refusal>,
}

impl Answered {
    // The kept numbers; none where the stroke is refused.
    pub fn kept_numbers(&self) -> &[u16]
        ensures { result.now ≡ kept_of (shown self.now) }
    {
        match &self.reply {
            Ok(kept) => kept.numbers(),
            Err(_) => &[],
        }
    }

    // Appends the record of the answer and answers the bytes used then, or refuses and leaves all as it was.
    pub fn append(&self, writer: &mut Writer, page: &mut [u8]) -> Result<usize, PageFault>
        ensures { outcome result writer.new.used page.new ≡ appends writer.old.used page.old (answer_bytes self.now.number (shown self.now)) }
    {
        match &self.reply {
            Ok(kept) => writer.append_kept(page, self.number, kept.totals, kept.numbers()),
            Err(refusal) => {
                let told = Told::from(*refusal);
                writer.append_refused(page, self.number, told.number, told.place as u16)
            }
        }
    }
}
