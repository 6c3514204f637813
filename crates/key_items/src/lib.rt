//! Row keys and changes of rows, as a transaction carries them.
#![tactic(auto)]

mod change;
mod fits;
mod floors;
mod item;
mod laws;
mod spelling;
mod write_set;

pub use change::{Change, ChangeKind};
pub use fits::{item_fits, items_fit};
pub use item::{Item, KeptItem};
pub use laws::bytes_of_items;
pub use spelling::{put_item, put_write_set, take_item_after, take_write_set};
pub use write_set::WriteSet;
