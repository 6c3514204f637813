// The texts of the things that looks show.
ghost use Rattle.std.specs.Prelude.{◌≡◌, ◌++◌, OnOk, codes};
ghost use Rattle.std.specs.List.{flat_map};
ghost use Rattle.group_rules.specs.Texts.{config_text, decimal, done_text, inc_text, kind_text};
ghost use Rattle.group_rules.specs.Texts.{member_text, mode_text, primary_text, promise_text, shown_text, wire_text};
ghost use Rattle.report_text.specs.Shown.{place_shown, row_shown, slots_shown, writer_shown};

use crate::names::{mode_name, put_item, put_promise, state_name};
use crate::worded::{put_after, put_gtid_after, put_inc_after, put_number_after, put_place_after};
use gr_ids::{Ballot, Blob, Inc, Memory, Mode, Pos, Sequence};
use group_rules::{ItemWriter, QueuedPlace, Row, Shown, ShownMember, WireLine};

/// A member's state as another one shows it.
fn shown_name(shown: Shown) -> &'static [u8]
    ensures { result.now ≡ shown_text shown }
{
    match shown {
        Shown::Unreachable => b"UNREACHABLE",
        Shown::State(state) => state_name(state).as_bytes(),
    }
}

fn primary_mark(primary: bool) -> &'static [u8]
    ensures { result.now ≡ primary_text primary }
{
    if primary { b" primary" } else { b"" }
}

fn done_mark(done: bool) -> &'static [u8]
    ensures { result.now ≡ done_text done }
{
    if done { b" done" } else { b" waiting" }
}

/// The name of a message's kind, by its byte.
fn kind_name(kind: u8) -> &'static [u8]
    ensures { result.now ≡ kind_text kind }
{
    match kind {
        0 | 1 => b"Prepare",
        2 => b"Promise",
        3 => b"Accept",
        4 => b"Accepted",
        5 => b"Learn",
        6 => b"Offer",
        7 => b"Welcome",
        8 => b"Ask",
        9 => b"Give",
        10 => b"Alive",
        11 => b"Gone",
        _ => b"",
    }
}

/// A member.
pub fn put_member(to: &mut Blob, member: ShownMember) -> Result<(), Memory>
    ensures { OnOk result (to.new ≡ to.old ++ member_text member) }
{
    put_inc_after(to, b"member ", member.inc)?;
    put_after(to, b" ", shown_name(member.shown))?;
    to.append(primary_mark(member.primary))
}

/// A view: its number and its mode.
pub fn put_view(to: &mut Blob, view: u64, mode: Mode) -> Result<(), Memory>
    ensures { OnOk result (to.new ≡ to.old ++ (codes "view " ++ decimal view ++ codes " " ++ mode_text mode)) }
{
    put_number_after(to, b"view ", view)?;
    put_after(to, b" ", mode_name(mode))
}

/// A member's slots: the next one, the place, and the promise.
pub fn put_slots(
    to: &mut Blob,
    next: u64,
    place: Pos,
    promise: Option<Ballot>,
) -> Result<(), Memory>
    ensures { OnOk result (to.new ≡ to.old ++ slots_shown next place promise) }
{
    put_number_after(to, b"slots next ", next)?;
    put_place_after(to, b" place ", place)?;
    put_promise_after(to, b" promise ", promise)
}

/// Words and a promise.
fn put_promise_after(to: &mut Blob, words: &[u8], promise: Option<Ballot>) -> Result<(), Memory>
    ensures { OnOk result (to.new ≡ to.old ++ (words.now ++ promise_text promise)) }
{
    to.append(words)?;
    put_promise(to, promise)
}

/// The incarnations of a configuration.
fn put_config_members(to: &mut Blob, members: &[Inc]) -> Result<(), Memory>
    ensures { OnOk result (to.new ≡ to.old ++ flat_map (λ i. codes " " ++ inc_text i) members.now) }
{
    for inc in members {
        put_inc_after(to, b" ", *inc)?;
    }
    Ok(())
}

/// The members of a configuration, if it is known.
fn put_config(to: &mut Blob, members: &Option<Sequence<Inc>>) -> Result<(), Memory>
    ensures { OnOk result (to.new ≡ to.old ++ config_text members.now) }
{
    match members {
        None => to.append(b" unknown"),
        Some(members) => put_config_members(to, members.as_slice()),
    }
}

/// A slot's configuration.
pub fn put_slot_config(
    to: &mut Blob,
    slot: u64,
    members: &Option<Sequence<Inc>>,
) -> Result<(), Memory>
    ensures { OnOk result (to.new ≡ to.old ++ (codes "config " ++ decimal slot ++ config_text members.now)) }
{
    put_number_after(to, b"config ", slot)?;
    put_config(to, members)
}

/// A row.
pub fn put_row(to: &mut Blob, row: &Row) -> Result<(), Memory>
    ensures { OnOk result (to.new ≡ to.old ++ row_shown row.now) }
{
    to.append(b"row ")?;
    put_item(to, &row.item)?;
    put_after(to, b" ", row.value.as_slice())
}

/// A queued place.
pub fn put_queued(to: &mut Blob, queued: QueuedPlace) -> Result<(), Memory>
    ensures { OnOk result (to.new ≡ to.old ++ place_shown queued) }
{
    put_place_after(to, b"queued ", queued.place)?;
    to.append(done_mark(queued.done))
}

/// An item with its last writer.
pub fn put_writer(to: &mut Blob, writer: &ItemWriter) -> Result<(), Memory>
    ensures { OnOk result (to.new ≡ to.old ++ writer_shown writer.now) }
{
    to.append(b"item ")?;
    put_item(to, &writer.item)?;
    put_gtid_after(to, b" ", writer.gtid)
}

/// A message that was neither delivered nor lost.
pub fn put_wire(to: &mut Blob, line: WireLine) -> Result<(), Memory>
    ensures { OnOk result (to.new ≡ to.old ++ wire_text line) }
{
    put_number_after(to, b"wire ", line.number)?;
    put_inc_after(to, b" ", line.from)?;
    put_inc_after(to, b" ", line.to)?;
    put_after(to, b" ", kind_name(line.kind))
}

/// The count of what was shown.
pub fn put_count(to: &mut Blob, name: &[u8], count: usize) -> Result<(), Memory>
    ensures { OnOk result (to.new ≡ to.old ++ (name.now ++ codes " " ++ decimal count)) }
{
    to.append(name)?;
    put_number_after(to, b" ", count as u64)
}
