// The greatest of the errors.
ghost use Rattle.total.specs.Kinds.{no_worst, one_worst, greater_worst, worst_order};
ghost use Rattle.total.specs.WorstLaws.{worst_laws};

use crate::total::Total;

#[derive(Clone, Copy, Debug, PartialEq, Eq, PartialOrd, Ord)]
pub struct Worst {
    pub worst: u64,
}

impl Total for Worst {
    ghost start = { no_worst };

    ghost value = { one_worst };

    ghost join = { greater_worst };

    ghost order = { worst_order };

    ghost lawful = { worst_laws };

    fn none() -> Worst {
        Worst { worst: 0 }
    }

    fn of(error: u64) -> Worst {
        Worst { worst: error }
    }

    fn joined(self, other: Worst) -> Worst {
        Worst {
            worst: self.worst.max(other.worst),
        }
    }

    fn at_most(self, other: Worst) -> bool {
        self <= other
    }
}
