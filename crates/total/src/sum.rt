// The sum of the errors.
ghost use Rattle.total.specs.Kinds.{no_sum, one_sum, add_sums, sum_order};
ghost use Rattle.total.specs.SumLaws.{sum_laws};

use crate::total::Total;

#[derive(Clone, Copy, Debug, PartialEq, Eq, PartialOrd, Ord)]
pub struct Sum {
    pub sum: u64,
}

impl Total for Sum {
    ghost start = { no_sum };

    ghost value = { one_sum };

    ghost join = { add_sums };

    ghost order = { sum_order };

    ghost lawful = { sum_laws };

    fn none() -> Sum {
        Sum { sum: 0 }
    }

    fn of(error: u64) -> Sum {
        Sum { sum: error }
    }

    fn joined(self, other: Sum) -> Sum {
        Sum {
            sum: self.sum.saturating_add(other.sum),
        }
    }

    fn at_most(self, other: Sum) -> bool {
        self <= other
    }
}
