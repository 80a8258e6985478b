// Cases worked out by hand, from bytes, as one statement over the definitions.
#![tactic(auto)]

ghost use Rattle.worked_cases.specs.Worked.{Worked};

pub fn worked_cases_hold()
    ensures { Worked }
{}
