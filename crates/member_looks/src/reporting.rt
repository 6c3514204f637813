// What a report tells of a member.
ghost use Rattle.std.specs.Prelude.{◌≡◌, IfOk};
ghost use Rattle.group_rules.specs.Events.{Life};
ghost use Rattle.group_rules.specs.Member.{Member};
ghost use Rattle.report_text.specs.Reporting.{member_report};
ghost use Rattle.member_moment.specs.Standing.{Stands};

use gr_ids::Memory;
use member_moment::Moment;
use report_text::MemberReport;
use std::alloc::Global;

/// What a report tells of it. Linear in what it has executed, in the items that it ever wrote, and in the bytes of its rows.
pub fn report(alloc: Global, moment: &Moment) -> Result<MemberReport, Memory>
    ensures { IfOk result (λ r. (base : Life) (a : Member) → Stands base a moment.now → r ≡ member_report a) }
{
    let list = moment.parts().list();
    let rows = moment.tables().tables().store.rows(alloc)?;
    Ok(MemberReport {
        inc: moment.inc(),
        state: moment.state(),
        view: list.view().number(),
        place: list.taken(),
        executed: moment.executed().try_copy(alloc)?,
        rows: rows.as_slice().len() as u64,
    })
}
