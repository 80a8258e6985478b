// Positions as text.
#![tactic(auto)]

mod open;
mod single;

pub use open::AsOpen;
pub use single::{AsPosition, AsTicket};
