// What a report tells of the members.
ghost use Rattle.std.specs.Prelude.{◌≡◌, List, IfOk, map};
ghost use Rattle.group_rules.specs.World.{Server};
ghost use Rattle.report_text.specs.Reporting.{member_report, running as running_in};
ghost use Rattle.group_world.specs.Sites.{AreSites};

use crate::sites::Sites;
use gr_ids::{Memory, Sequence};
use report_text::MemberReport;
use std::alloc::Global;

impl Sites {
    /// What it tells of the incarnations that run, ascending.
    pub(crate) fn reports(&self, alloc: Global) -> Result<Sequence<MemberReport>, Memory>
        ensures { IfOk result (λ v. (ss : List Server) → AreSites ss self.now → v ≡ map member_report (running_in ss)) }
    {
        let mut reports = Vec::new(alloc);
        let mut left = self.list.as_slice();
        while let Some((site, behind)) = left.split_first() {
            if let Some(member) = site.member() {
                reports.push(member.report(alloc)?)?;
            }
            left = behind;
        }
        Ok(Sequence::from_vec(reports))
    }
}
