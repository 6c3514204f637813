// The output lines of the things that looks show.
ghost use Rattle.std.specs.Prelude.{◌≡◌, ◌++◌, OnOk, map};
ghost use Rattle.group_rules.specs.Texts.{member_text, wire_text};
ghost use Rattle.report_text.specs.Lines.{output_line, output_lines};
ghost use Rattle.report_text.specs.Shown.{each_line, inc_line, place_shown, row_shown, writer_shown};

use crate::lines::{begin_inc_line, begin_line, end_line};
use crate::shown::{put_member, put_queued, put_row, put_wire, put_writer};
use gr_ids::{Blob, Inc, Memory};
use group_rules::{ItemWriter, QueuedPlace, Row, ShownMember, WireLine};

/// The line of a member.
fn put_member_line(to: &mut Blob, number: u64, inc: Inc, member: ShownMember) -> Result<(), Memory>
    ensures { OnOk result (to.new ≡ to.old ++ inc_line number inc (member_text member)) }
{
    begin_inc_line(to, number, inc)?;
    put_member(to, member)?;
    end_line(to)
}

/// The lines of members.
pub fn put_member_lines(
    to: &mut Blob,
    number: u64,
    inc: Inc,
    members: &[ShownMember],
) -> Result<(), Memory>
    ensures { OnOk result (to.new ≡ to.old ++ each_line number inc member_text members.now) }
{
    for member in members {
        put_member_line(to, number, inc, *member)?;
    }
    Ok(())
}

/// The line of a row.
fn put_row_line(to: &mut Blob, number: u64, inc: Inc, row: &Row) -> Result<(), Memory>
    ensures { OnOk result (to.new ≡ to.old ++ inc_line number inc (row_shown row.now)) }
{
    begin_inc_line(to, number, inc)?;
    put_row(to, row)?;
    end_line(to)
}

/// The lines of rows.
pub fn put_row_lines(to: &mut Blob, number: u64, inc: Inc, rows: &[Row]) -> Result<(), Memory>
    ensures { OnOk result (to.new ≡ to.old ++ each_line number inc row_shown rows.now) }
{
    for row in rows {
        put_row_line(to, number, inc, row)?;
    }
    Ok(())
}

/// The line of a queued place.
fn put_place_line(to: &mut Blob, number: u64, inc: Inc, place: QueuedPlace) -> Result<(), Memory>
    ensures { OnOk result (to.new ≡ to.old ++ inc_line number inc (place_shown place)) }
{
    begin_inc_line(to, number, inc)?;
    put_queued(to, place)?;
    end_line(to)
}

/// The lines of queued places.
pub fn put_place_lines(
    to: &mut Blob,
    number: u64,
    inc: Inc,
    places: &[QueuedPlace],
) -> Result<(), Memory>
    ensures { OnOk result (to.new ≡ to.old ++ each_line number inc place_shown places.now) }
{
    for place in places {
        put_place_line(to, number, inc, *place)?;
    }
    Ok(())
}

/// The line of an item.
fn put_writer_line(to: &mut Blob, number: u64, inc: Inc, writer: &ItemWriter) -> Result<(), Memory>
    ensures { OnOk result (to.new ≡ to.old ++ inc_line number inc (writer_shown writer.now)) }
{
    begin_inc_line(to, number, inc)?;
    put_writer(to, writer)?;
    end_line(to)
}

/// The lines of items.
pub fn put_writer_lines(
    to: &mut Blob,
    number: u64,
    inc: Inc,
    writers: &[ItemWriter],
) -> Result<(), Memory>
    ensures { OnOk result (to.new ≡ to.old ++ each_line number inc writer_shown writers.now) }
{
    for writer in writers {
        put_writer_line(to, number, inc, writer)?;
    }
    Ok(())
}

/// The line of a message.
fn put_wire_line(to: &mut Blob, number: u64, message: WireLine) -> Result<(), Memory>
    ensures { OnOk result (to.new ≡ to.old ++ output_line number (wire_text message)) }
{
    begin_line(to, number)?;
    put_wire(to, message)?;
    end_line(to)
}

/// The lines of messages.
pub fn put_wire_lines(to: &mut Blob, number: u64, messages: &[WireLine]) -> Result<(), Memory>
    ensures { OnOk result (to.new ≡ to.old ++ output_lines number (map wire_text messages.now)) }
{
    for message in messages {
        put_wire_line(to, number, *message)?;
    }
    Ok(())
}
