// What holds of all numbers.
ghost use Rattle.leb.specs.Number.{OneNumber};

// No number's bytes begin another's, so no number is written in two ways.
pub fn no_number_begins_another()
    ensures { OneNumber }
{}
