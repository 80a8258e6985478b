// Programs that read one input, from the file that the first argument names or else from standard input, print what
// they find in it, and end with status 1 where it is refused.
#![tactic(auto)]

mod ending;
mod input;
mod stop;

pub use ending::{Program, run};
pub use stop::Stop;
