//! A member of the group: it takes events one after another, and says what each step leaves. Each event is a step, which composes the small acts of
//! `member_moment` as the rules compose them.
#![tactic(auto)]

mod acting;
mod event;
mod fault;
mod hearing;
mod holding;
mod ledger;
mod looks;
mod member;
mod operating;
mod points;
mod recovery;
mod slots;
mod ticking;

pub use event::{Event, StepLeft};
pub use fault::StepFault;
pub use ledger::Ledger;
pub use member::{Member, Started};
