// The grammar of a crontab, said by concatenation, and that `crontab` reads exactly by it.
#![tactic(auto)]

ghost use Rattle.crontab_grammar.specs.Laws.{ReadsLines, ReadsIdle, ReadsJobs, TakesJobs};
ghost use Rattle.crontab_grammar.specs.Laws.{RefusesFirst, TakesFaultless};
ghost use Rattle.crontab_grammar.specs.Laws.{TakesInRange, TakesCommands, TakesBytes};

// Lines and jobs are read exactly as the grammar has them.
pub fn lines_are_read_by_the_grammar()
    ensures lines { ReadsLines }
    ensures idle { ReadsIdle }
    ensures jobs { ReadsJobs }
    ensures in_order { TakesJobs }
{}

// A file is refused exactly if it is at fault, by its first fault.
pub fn files_are_refused_for_their_first_fault()
    ensures first { RefusesFirst }
    ensures faultless { TakesFaultless }
{}

// What is taken lies within its bounds.
pub fn taken_files_keep_the_bounds()
    ensures ranges { TakesInRange }
    ensures commands { TakesCommands }
    ensures bytes { TakesBytes }
{}
