// What a kind of total writes into the two total fields of an answer.
// A trait of its own and no `From`: both ends of the conversion are types of other crates. An impl for each kind, as a field of each is read by its name.
ghost use Rattle.std.specs.Prelude.{◌≡◌};
ghost use Rattle.page.specs.declared.kinds.Totals.{Totals as Fields};
ghost use Rattle.job.specs.Figures.{sum_figures, worst_figures, both_figures};

use page::kinds::Totals;
use total::sum::Sum;
use total::sum_then_worst::SumThenWorst;
use total::total::Total;
use total::worst::Worst;

pub trait Figures: Total {
    ghost fields: { Self → Fields };

    fn figures(self) -> Totals
        ensures { result ≡ fields self };
}

impl Figures for Sum {
    ghost fields = { sum_figures };

    fn figures(self) -> Totals {
        Totals {
            first: self.sum,
            second: 0,
        }
    }
}

impl Figures for Worst {
    ghost fields = { worst_figures };

    fn figures(self) -> Totals {
        Totals {
            first: self.worst,
            second: 0,
        }
    }
}

impl Figures for SumThenWorst {
    ghost fields = { both_figures };

    fn figures(self) -> Totals {
        Totals {
            first: self.sum,
            second: self.worst,
        }
    }
}
