// Cases that are worked out: readings, and all of them, readings and derivations, in one statement.
#![tactic(auto)]

ghost use Rattle.worked.specs.Worked.{WorkedReadings};
ghost use Rattle.worked.specs.Cases.{WorkedCases};

#[tactic(auto, using(crate::proofs::Worked::worked))]
pub fn worked_readings()
    ensures { WorkedReadings }
{}

#[tactic(auto, using(crate::proofs::Worked::worked, crate::proofs::Derived::derivations))]
pub fn worked_cases()
    ensures { WorkedCases }
{}
