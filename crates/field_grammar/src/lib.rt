// The grammar of a field, said by concatenation, and that `fields` reads exactly by it.
#![tactic(auto)]

ghost use Rattle.field_grammar.specs.Laws.{OneReading, ReadsElements, ReadsParts};
ghost use Rattle.field_grammar.specs.Laws.{TakesSound, RefusesWrong, RefusesLeftmost, TakesFaultless};
ghost use Rattle.field_grammar.specs.Laws.{HoldsSaid, HoldsInRange, HoldsSome};

// No bytes have two readings, and an element is read as the grammar has it.
pub fn elements_are_read_by_the_grammar()
    ensures one_reading { OneReading }
    ensures elements { ReadsElements }
    ensures parts { ReadsParts }
{}

// An element is taken if it is sound, and else refused for what is wrong with it.
pub fn elements_are_taken_or_refused()
    ensures sound { TakesSound }
    ensures wrong { RefusesWrong }
{}

// A field is refused for its leftmost wrong element, and one that is taken has none.
pub fn fields_are_refused_for_their_leftmost_fault()
    ensures leftmost { RefusesLeftmost }
    ensures faultless { TakesFaultless }
{}

// A field that is taken holds the values that its elements say, all in its range, and at least one.
pub fn fields_hold_what_they_say()
    ensures said { HoldsSaid }
    ensures in_range { HoldsInRange }
    ensures some { HoldsSome }
{}
