// What the refusal of a join means.
ghost use Rattle.zone_join.specs.Laws.{AcceptsJoinable};

// Two zones are joined exactly if their joined offsets obey the law, with room on both sides.
pub fn joins_are_refused_exactly_for_the_law()
    ensures { AcceptsJoinable }
{}
