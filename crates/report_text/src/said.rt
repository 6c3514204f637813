// The output lines of what a step says.
ghost use Rattle.std.specs.Prelude.{◌≡◌, ◌++◌, IfOk, OnOk, codes, flat_map};
ghost use Rattle.group_rules.specs.declared.said.Said.TheVariants.{Marked, Offline};
ghost use Rattle.group_rules.specs.Texts.{after_inc, mark_text, said_texts, texts_or_ok};
ghost use Rattle.report_text.specs.Lines.{output_line, output_lines};

use crate::lines::{begin_inc_line, begin_line, end_line, line_text};
use crate::looks::put_look;
use crate::marks::put_mark;
use crate::worded::put_gtid_after;
use gr_ids::{Blob, Gtid, Inc, Memory};
use group_rules::{Mark, Said};
use std::alloc::Global;

/// The line of a mark.
fn put_mark_line(
    alloc: Global,
    to: &mut Blob,
    number: u64,
    inc: Inc,
    mark: &Mark,
) -> Result<(), Memory>
    ensures { OnOk result (to.new ≡ to.old ++ output_lines number (said_texts (Marked inc mark.now))) }
{
    begin_inc_line(to, number, inc)?;
    put_mark(alloc, to, mark)?;
    end_line(to)
}

/// The line of a worker that found nothing to do.
fn put_idle_line(to: &mut Blob, number: u64, inc: Inc) -> Result<(), Memory>
    ensures { OnOk result (to.new ≡ to.old ++ output_line number (after_inc inc (codes "reply idle"))) }
{
    begin_inc_line(to, number, inc)?;
    to.append(b"reply idle")?;
    end_line(to)
}

/// The line of a row that was written offline.
fn put_offline_line(to: &mut Blob, number: u64, gtid: Gtid) -> Result<(), Memory>
    ensures { OnOk result (to.new ≡ to.old ++ output_lines number (said_texts (Offline gtid))) }
{
    begin_line(to, number)?;
    put_gtid_after(to, b"offline ", gtid)?;
    end_line(to)
}

/// The lines of one thing that is said.
fn put_said(alloc: Global, to: &mut Blob, number: u64, said: &Said) -> Result<(), Memory>
    ensures { OnOk result (to.new ≡ to.old ++ output_lines number (said_texts said.now)) }
{
    match said {
        Said::Marked(inc, mark) => put_mark_line(alloc, to, number, *inc, mark),
        Said::Idle(inc) => put_idle_line(to, number, *inc),
        Said::Offline(gtid) => put_offline_line(to, number, *gtid),
        Said::Looked(look) => put_look(alloc, to, number, look),
    }
}

/// The text of one thing that a step says, on the line with this number of a script: an output line for a mark, several for a look,
/// each with the number in front and LF behind it. Linear in what is said.
pub fn answer_text(alloc: Global, number: u64, said: &Said) -> Result<Blob, Memory>
    ensures { IfOk result (λ text. text ≡ output_lines number (said_texts said.now)) }
{
    let mut text = Blob::from_vec(Vec::new(alloc));
    put_said(alloc, &mut text, number, said)?;
    Ok(text)
}

/// The lines of all that is said.
fn put_each(alloc: Global, to: &mut Blob, number: u64, said: &[Said]) -> Result<(), Memory>
    ensures { OnOk result (to.new ≡ to.old ++ output_lines number (flat_map said_texts said.now)) }
{
    for one in said {
        put_said(alloc, to, number, one)?;
    }
    Ok(())
}

/// The text of a step that is done, on the line with this number of a script: all that it says, or `ok` where it says nothing.
/// Linear in what is said.
pub fn step_text(alloc: Global, number: u64, said: &[Said]) -> Result<Blob, Memory>
    ensures { IfOk result (λ text. text ≡ output_lines number (texts_or_ok (flat_map said_texts said.now))) }
{
    if said.is_empty() {
        return line_text(alloc, number, b"ok");
    }
    let mut text = Blob::from_vec(Vec::new(alloc));
    put_each(alloc, &mut text, number, said)?;
    Ok(text)
}
