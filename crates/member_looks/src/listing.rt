// What a member keeps, in lists: its rows, its queue, the items of its certifier.
ghost use Rattle.std.specs.Prelude.{◌≡◌, IfOk};
ghost use Rattle.group_rules.specs.Events.{Life};
ghost use Rattle.group_rules.specs.Looks.{show_certifier as shows_certifier, show_queue as shows_queue, show_rows as shows_rows};
ghost use Rattle.group_rules.specs.Member.{Member};
ghost use Rattle.member_moment.specs.Standing.{Stands};

use crate::copying::item_writers;
use gr_ids::Memory;
use group_rules::Look;
use member_moment::Moment;
use std::alloc::Global;

/// Its rows, by ascending item. Linear in the items that it ever wrote, and in the bytes of the rows.
pub fn show_rows(alloc: Global, moment: &Moment) -> Result<Look, Memory>
    ensures { IfOk result (λ l. (base : Life) (a : Member) → Stands base a moment.now → l ≡ shows_rows a) }
{
    Ok(Look::Rows {
        inc: moment.inc(),
        rows: moment.tables().tables().store.rows(alloc)?,
    })
}

/// The queued places, ascending, and which of them are done. Linear in them.
pub fn show_queue(alloc: Global, moment: &Moment) -> Result<Look, Memory>
    ensures { IfOk result (λ l. (base : Life) (a : Member) → Stands base a moment.now → l ≡ shows_queue a) }
{
    Ok(Look::Queue {
        inc: moment.inc(),
        places: moment.parts().queue().places(alloc)?,
    })
}

/// The items that its certifier keeps, ascending, each with its last writer. Linear in them.
pub fn show_certifier(alloc: Global, moment: &Moment) -> Result<Look, Memory>
    ensures { IfOk result (λ l. (base : Life) (a : Member) → Stands base a moment.now → l ≡ shows_certifier a) }
{
    let items = moment.parts().list().certifier().copy_items(alloc)?;
    Ok(Look::Certifier {
        inc: moment.inc(),
        items: item_writers(alloc, items)?,
    })
}
