// What an engine is for, stated over whole histories of a service and proved: the order of launches, restarts after cuts, and
// that rounds catch up. Each function stands for one promise; its contract is the promise.
#![tactic(auto)]

ghost use Rattle.service.specs.Answers.{RightAnswers};
ghost use Rattle.service.specs.Causes.{Determined};
ghost use Rattle.service.specs.Script.{ScriptRuns};
ghost use Rattle.service.specs.Progress.{CatchingUp, Reached, RoundsFollow};
ghost use Rattle.service.specs.Promises.{CheckpointsKept, LaunchOrder, LaunchedAgain, PositionsOrdered};
ghost use Rattle.service.specs.Promises.{RangesKept, RestartAccepted, RestartFinds};

// A position is given by its rank: minute and line can be read off it, and ranks are ordered by minute, then by line.
pub fn positions_are_ordered_by_minute_then_line()
    ensures { PositionsOrdered }
{}

// Whatever is launched is due, runs its own line's command and has its start page synced, and every due ticket before it
// was launched earlier.
pub fn launches_are_in_order()
    ensures { LaunchOrder }
{}

// At every moment, whatever a cut leaves on the disk, the restart is accepted, and what it finds is determined: the state
// after the page synced last, or after the page in flight.
pub fn restarts_are_accepted()
    ensures { RestartAccepted }
{}

// Every restart that took place found what the page synced last before its cut had left, or what the page in flight at the
// cut was to leave.
pub fn restarts_find_what_was_synced_or_in_flight()
    ensures { RestartFinds }
{}

// A checkpoint shows the open tickets that replaying all events leaves, and its next position passes over nothing due.
pub fn checkpoints_pass_over_nothing_due()
    ensures { CheckpointsKept }
{}

// A ticket is launched again only if there was a cut since its launch before, and never once its done page is synced.
pub fn no_ticket_is_launched_again_without_a_cut()
    ensures { LaunchedAgain }
{}

// What the engine holds stays within the ranges of a journal page.
pub fn values_stay_in_range()
    ensures { RangesKept }
{}

// From any moment, if page numbers remain and collect yields, so many rounds launch all that is due.
pub fn rounds_catch_up()
    ensures { CatchingUp }
{}

// Whatever has happened, rounds can go on, as many as one likes: no call is ever stuck.
pub fn rounds_can_follow()
    ensures { RoundsFollow }
{}

// Some service launches any given due ticket: the promises are not about nothing.
pub fn due_tickets_can_be_launched()
    ensures { Reached }
{}

// Every call but collect and the cut can come to exactly one event and one world, which a function gives.
pub fn outcomes_are_determined()
    ensures { Determined }
{}

// A wrong engine is no service: what is valid is taken, a look ends and counts as it says, a launch finds a place in the
// launcher, and a rejection alters nothing.
pub fn answers_are_right()
    ensures { RightAnswers }
{}

// A ticket whose done page is torn by a cut is found open, launched once more and settled: a service event by event.
pub fn the_script_runs()
    ensures { ScriptRuns }
{}
