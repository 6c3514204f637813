// Whether there is a row.
ghost use Rattle.std.specs.Prelude.{◌≡◌, is_some};
ghost use Rattle.group_rules.specs.Rows.{row_after};
ghost use Rattle.row_store.specs.Presence.{is_there};

use key_items::{Change, ChangeKind, Item};

/// Whether there is a row of the item after these changes.
pub(crate) fn is_there_after(there: bool, own: &[Change], item: &Item) -> bool
    ensures { result ≡ is_there item.now there own.now }
{
    let mut there = there;
    for change in own {
        if change.item == *item {
            there = leaves_row(&change.what);
        }
    }
    there
}

fn leaves_row(what: &ChangeKind) -> bool
    ensures { result ≡ is_some (row_after what.now) }
{
    match what {
        ChangeKind::Insert(_) | ChangeKind::Update(_) => true,
        ChangeKind::Delete => false,
    }
}
