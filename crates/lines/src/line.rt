// The line of a stroke, part by part. The line of a refusal is that of what it tells.
ghost use Rattle.std.specs.Prelude.{Some};
ghost use Rattle.job.specs.Jobs.{line as line_of};
ghost use Rattle.job.specs.Records.{shown};
ghost use Rattle.lines.specs.Text.{kept_text, figures_text, reply_text, line_text};

use job::answered::Answered;
use page::kinds::Totals;
use page::order::TotalKind;
use refusal::Told;
use std::fmt;

// The kept numbers, each after a space.
#[derive(Clone, Copy)]
struct KeptNumbers<'a>(&'a [u16]);

impl fmt::Display for KeptNumbers<'_> {
    ghost output = { λ ks. Some (kept_text ks.0.now) };

    fn fmt<W: fmt::Write>(&self, f: &mut fmt::Formatter<W>) -> fmt::Result {
        for n in self.0 {
            write!(f, " {n}")?;
        }
        Ok(())
    }
}

// The figures of a total by its code: two for the sum and then the worst, and one for any other.
#[derive(Clone, Copy)]
struct Figures(u8, Totals);

impl fmt::Display for Figures {
    ghost output = { λ t. Some (figures_text t.0 t.1) };

    fn fmt<W: fmt::Write>(&self, f: &mut fmt::Formatter<W>) -> fmt::Result {
        let Totals { first, second } = self.1;
        match TotalKind::try_from(self.0) {
            Ok(TotalKind::SumThenWorst) => write!(f, " total {first} {second}"),
            _ => write!(f, " total {first}"),
        }
    }
}

// The kept numbers and the figures, or the refusal, as `Told` prints it but for the layer.
#[derive(Clone, Copy)]
struct Reply<'a>(&'a Answered);

impl fmt::Display for Reply<'_> {
    ghost output = { λ r. Some (reply_text r.0.now.total (shown r.0.now)) };

    fn fmt<W: fmt::Write>(&self, f: &mut fmt::Formatter<W>) -> fmt::Result {
        match self.0.reply {
            Ok(kept) => {
                let numbers = KeptNumbers(kept.numbers());
                let figures = Figures(self.0.total, kept.totals);
                write!(f, " kept{numbers}{figures}")
            }
            Err(refusal) => {
                let Told { number, place, .. } = Told::from(refusal);
                write!(f, " refused {number} at {place}")
            }
        }
    }
}

// The line of a stroke: its number and its reply, with no line feed.
#[derive(Clone, Copy)]
pub struct StrokeLine<'a>(pub &'a Answered);

impl fmt::Display for StrokeLine<'_> {
    ghost output = { λ l. Some (line_text (line_of l.0.now)) };

    fn fmt<W: fmt::Write>(&self, f: &mut fmt::Formatter<W>) -> fmt::Result {
        let number = self.0.number;
        let reply = Reply(self.0);
        write!(f, "stroke {number}{reply}")
    }
}
