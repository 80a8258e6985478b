// Two zones joined at a minute: the first before it, the second from it on.
#![tactic(auto)]

mod join;
mod limits;
mod meaning;
mod room;
mod seam;
mod smooth;

pub use join::Join;
pub use meaning::joins_are_refused_exactly_for_the_law;
