//! Bytes cut into numbers and slices, and numbers and slices packed into bytes.
#![tactic(auto)]

mod counted;
mod cutter;
mod faults;
mod lists;
mod numbers;
mod packer;
mod unread;

pub use counted::{put_counted, take_counted};
pub use cutter::Cutter;
pub use faults::{CutFault, Misfit};
pub use lists::{ListForm, put_list, take_list};
pub use packer::Packer;
pub use unread::Unread;
