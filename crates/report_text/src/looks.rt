// The output lines of looks: one for each thing that is shown, and a last one.
ghost use Rattle.std.specs.Prelude.{◌≡◌, ◌++◌, OnOk, codes};
ghost use Rattle.group_rules.specs.declared.said.Look.TheVariants.{Members, Slots, Config, Gtids, Rows, Queue, Certifier, Kept, Wire};
ghost use Rattle.group_rules.specs.Texts.{decimal, look_texts, mode_text};
ghost use Rattle.report_text.specs.Lines.{output_line, output_lines};
ghost use Rattle.report_text.specs.Shown.{inc_line};

use crate::lines::{begin_inc_line, begin_line, end_line};
use crate::shown::{put_count, put_slot_config, put_slots, put_view};
use crate::shown_lines::{
    put_member_lines, put_place_lines, put_row_lines, put_wire_lines, put_writer_lines,
};
use crate::worded::{put_number_after, put_set_after};
use gr_ids::{Ballot, Blob, Inc, Memory, Mode, Pos, Sequence};
use group_rules::{ItemWriter, Look, QueuedPlace, Row, ShownMember, WireLine};
use gtid_sets::GtidSet;
use std::alloc::Global;

/// The line of a view.
fn put_view_line(to: &mut Blob, number: u64, inc: Inc, view: u64, mode: Mode) -> Result<(), Memory>
    ensures { OnOk result (to.new ≡ to.old ++ inc_line number inc (codes "view " ++ decimal view ++ codes " " ++ mode_text mode)) }
{
    begin_inc_line(to, number, inc)?;
    put_view(to, view, mode)?;
    end_line(to)
}

/// The members of a view, and the view.
fn put_members(
    to: &mut Blob,
    number: u64,
    inc: Inc,
    members: &[ShownMember],
    view: u64,
    mode: Mode,
) -> Result<(), Memory>
    ensures { OnOk result (to.new ≡ to.old ++ output_lines number (look_texts (Members inc members.now view mode))) }
{
    put_member_lines(to, number, inc, members)?;
    put_view_line(to, number, inc, view, mode)
}

/// The line with the count of what was shown.
fn put_count_line(
    to: &mut Blob,
    number: u64,
    inc: Inc,
    name: &[u8],
    count: usize,
) -> Result<(), Memory>
    ensures { OnOk result (to.new ≡ to.old ++ inc_line number inc (name.now ++ codes " " ++ decimal count)) }
{
    begin_inc_line(to, number, inc)?;
    put_count(to, name, count)?;
    end_line(to)
}

/// Rows, and their count.
fn put_rows(to: &mut Blob, number: u64, inc: Inc, rows: &[Row]) -> Result<(), Memory>
    ensures { OnOk result (to.new ≡ to.old ++ output_lines number (look_texts (Rows inc rows.now))) }
{
    put_row_lines(to, number, inc, rows)?;
    put_count_line(to, number, inc, b"rows", rows.len())
}

/// Queued places, and their count.
fn put_places(to: &mut Blob, number: u64, inc: Inc, places: &[QueuedPlace]) -> Result<(), Memory>
    ensures { OnOk result (to.new ≡ to.old ++ output_lines number (look_texts (Queue inc places.now))) }
{
    put_place_lines(to, number, inc, places)?;
    put_count_line(to, number, inc, b"queue", places.len())
}

/// Items, and their count.
fn put_writers(to: &mut Blob, number: u64, inc: Inc, writers: &[ItemWriter]) -> Result<(), Memory>
    ensures { OnOk result (to.new ≡ to.old ++ output_lines number (look_texts (Certifier inc writers.now))) }
{
    put_writer_lines(to, number, inc, writers)?;
    put_count_line(to, number, inc, b"items", writers.len())
}

/// The line with the counts of messages: those shown, and all sent.
fn put_sent_line(to: &mut Blob, number: u64, shown: usize, sent: u64) -> Result<(), Memory>
    ensures { OnOk result (to.new ≡ to.old ++ output_line number (codes "wire " ++ decimal shown ++ codes " of " ++ decimal sent)) }
{
    begin_line(to, number)?;
    put_number_after(to, b"wire ", shown as u64)?;
    put_number_after(to, b" of ", sent)?;
    end_line(to)
}

/// Messages, and their counts.
fn put_messages(to: &mut Blob, number: u64, messages: &[WireLine], sent: u64) -> Result<(), Memory>
    ensures { OnOk result (to.new ≡ to.old ++ output_lines number (look_texts (Wire messages.now sent))) }
{
    put_wire_lines(to, number, messages)?;
    put_sent_line(to, number, messages.len(), sent)
}

/// The line of a member's slots.
fn put_slots_line(
    to: &mut Blob,
    number: u64,
    inc: Inc,
    next: u64,
    place: Pos,
    promise: Option<Ballot>,
) -> Result<(), Memory>
    ensures { OnOk result (to.new ≡ to.old ++ output_lines number (look_texts (Slots inc next place promise))) }
{
    begin_inc_line(to, number, inc)?;
    put_slots(to, next, place, promise)?;
    end_line(to)
}

/// The line of a configuration.
fn put_config_line(
    to: &mut Blob,
    number: u64,
    inc: Inc,
    slot: u64,
    members: &Option<Sequence<Inc>>,
) -> Result<(), Memory>
    ensures { OnOk result (to.new ≡ to.old ++ output_lines number (look_texts (Config inc slot members.now))) }
{
    begin_inc_line(to, number, inc)?;
    put_slot_config(to, slot, members)?;
    end_line(to)
}

/// The line of a set.
fn put_gtids_line(
    alloc: Global,
    to: &mut Blob,
    number: u64,
    inc: Inc,
    set: &GtidSet,
) -> Result<(), Memory>
    ensures { OnOk result (to.new ≡ to.old ++ output_lines number (look_texts (Gtids inc set.now))) }
{
    begin_inc_line(to, number, inc)?;
    put_set_after(alloc, to, b"gtids ", set)?;
    end_line(to)
}

/// The line of the least slot that is kept.
fn put_kept_line(to: &mut Blob, number: u64, inc: Inc, low: u64) -> Result<(), Memory>
    ensures { OnOk result (to.new ≡ to.old ++ output_lines number (look_texts (Kept inc low))) }
{
    begin_inc_line(to, number, inc)?;
    put_number_after(to, b"kept from ", low)?;
    end_line(to)
}

/// The lines of a look.
pub fn put_look(alloc: Global, to: &mut Blob, number: u64, look: &Look) -> Result<(), Memory>
    ensures { OnOk result (to.new ≡ to.old ++ output_lines number (look_texts look.now)) }
{
    match look {
        Look::Members {
            inc,
            members,
            view,
            mode,
        } => put_members(to, number, *inc, members.as_slice(), *view, *mode),
        Look::Slots {
            inc,
            next,
            place,
            promise,
        } => put_slots_line(to, number, *inc, *next, *place, *promise),
        Look::Config { inc, slot, members } => put_config_line(to, number, *inc, *slot, members),
        Look::Gtids { inc, set } => put_gtids_line(alloc, to, number, *inc, set),
        Look::Rows { inc, rows } => put_rows(to, number, *inc, rows.as_slice()),
        Look::Queue { inc, places } => put_places(to, number, *inc, places.as_slice()),
        Look::Certifier { inc, items } => put_writers(to, number, *inc, items.as_slice()),
        Look::Kept { inc, low } => put_kept_line(to, number, *inc, *low),
        Look::Wire { messages, sent } => put_messages(to, number, messages.as_slice(), *sent),
    }
}
