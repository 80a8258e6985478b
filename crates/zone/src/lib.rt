// Time zones: how far the local clock is ahead, and which of its labels a minute is the first to reach.
#![tactic(auto)]

mod entry;
mod label;
mod labels;
mod limits;
mod place;
mod refusal;
mod rules;
mod table;
mod table_zone;
mod told;
mod window;
mod zone;

pub use entry::Entry;
pub use label::Label;
pub use labels::Labels;
pub use limits::{LEAST_APART, MOST_CHANGE};
pub use refusal::Refusal;
pub use refusal_code::Code;
pub use rules::is_day_later;
pub use table::Checked;
pub use table_zone::TableZone;
pub use told::{change_after, is_told, label_at, label_in, minute_from, offset_in};
pub use window::{Window, fresh, fresh_in};
pub use zone::Zone;
