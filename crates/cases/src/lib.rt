// The worked cases: as one theorem over the definitions, and as runs of the public calls.
#![tactic(auto)]

ghost use Rattle.cases.specs.Premises.{PremisesMet};
ghost use Rattle.cases.specs.Worked.{WorkedCases};

// Reduces of the hook keep what was worked out by hand.
pub fn worked_cases_stand() -> u8
    ensures { WorkedCases }
{
    0
}

// The hook meets the premises of the laws of trays, pages, reduces and jobs.
pub fn premises_are_met() -> u8
    ensures { PremisesMet }
{
    0
}

#[cfg(test)]
mod tests;
