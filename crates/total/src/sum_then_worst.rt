// The sum of the errors, and among equal sums the greatest error.
ghost use Rattle.total.specs.Kinds.{no_both, one_both, join_both, both_order};
ghost use Rattle.total.specs.BothLaws.{both_laws};

use crate::total::Total;

// The fields stand in the order in which two totals are compared.
#[derive(Clone, Copy, Debug, PartialEq, Eq, PartialOrd, Ord)]
pub struct SumThenWorst {
    pub sum: u64,
    pub worst: u64,
}

impl Total for SumThenWorst {
    ghost start = { no_both };

    ghost value = { one_both };

    ghost join = { join_both };

    ghost order = { both_order };

    ghost lawful = { both_laws };

    fn none() -> SumThenWorst {
        SumThenWorst { sum: 0, worst: 0 }
    }

    fn of(error: u64) -> SumThenWorst {
        SumThenWorst {
            sum: error,
            worst: error,
        }
    }

    fn joined(self, other: SumThenWorst) -> SumThenWorst {
        SumThenWorst {
            sum: self.sum.saturating_add(other.sum),
            worst: self.worst.max(other.worst),
        }
    }

    fn at_most(self, other: SumThenWorst) -> bool {
        self <= other
    }
}
