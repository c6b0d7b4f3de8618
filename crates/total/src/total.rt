// What every kind of total has, and the laws that it keeps.
ghost use Rattle.std.specs.Prelude.{◌≡◌, ℕ, Bool};
ghost use Rattle.total.specs.Laws.{Laws};

// The greatest error that a chord may have, and the greatest tolerance.
pub const LIMIT: u64 = 68_719_476_735;

// A kind of total: the total of no chords, the value of one error, the join of two totals, and their order.
pub trait Total: Copy {
    ghost start: { Self };

    ghost value: { ℕ → Self };

    ghost join: { Self → Self → Self };

    // Whether the first is not above the second.
    ghost order: { Self → Self → Bool };

    // The total of no chords.
    fn none() -> Self
        ensures { result ≡ start };

    // The value of one error.
    fn of(error: u64) -> Self
        ensures { result ≡ value error };

    fn joined(self, other: Self) -> Self
        ensures { result ≡ join self other };

    fn at_most(self, other: Self) -> bool
        ensures { result ≡ order self other };

    ghost lawful: { Laws start value join order };
}
