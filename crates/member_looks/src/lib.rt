//! What is seen of a member: the looks of a script, the work that waits, and what a report tells.
#![tactic(auto)]

mod copying;
mod listing;
mod reporting;
mod showing;
mod working;

pub use listing::{show_certifier, show_queue, show_rows};
pub use reporting::report;
pub use showing::{show_config, show_gtids, show_kept, show_members, show_slots};
pub use working::{is_active, least_work, work_at};
