//! The view: the members and their states, the mode and the primary, as the entries of the ordered list make them.
#![tactic(auto)]

mod changing;
mod seats;
mod settling;
mod view;
mod view_at;

pub use view::View;
pub use view_at::ViewAt;
