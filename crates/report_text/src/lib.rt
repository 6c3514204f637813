//! The texts of what a script's steps say, and the report.
#![tactic(auto)]

mod answers;
mod entries;
mod fault;
mod faults;
mod lines;
mod looks;
mod marks;
mod names;
mod said;
mod shown;
mod shown_lines;
mod summary;
mod worded;
mod world_report;

pub use fault::WorldFault;
pub use faults::fault_text;
pub use lines::line_text;
pub use said::{answer_text, step_text};
pub use summary::{Verdict, summary_text, verdict_of};
pub use world_report::{MemberReport, WorldReport, report};
