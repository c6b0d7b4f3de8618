// A kind of total that breaks the laws, though it looks like one that keeps them.
ghost use Rattle.total.specs.Unlawful.{WorstFirstIsUnlawful};

// The greatest error first and then the sum is no lawful kind: joined with the same total, two totals can change places.
#[tactic(auto, using(crate::proofs::Unlawfuls::worst_first_is_unlawful))]
pub fn worst_first_is_unlawful() -> u8
    ensures { WorstFirstIsUnlawful }
{
    0
}
