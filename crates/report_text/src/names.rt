// The texts of names, each put behind a text. Where memory is refused, what stands behind the text isn't said.
ghost use Rattle.std.specs.Prelude.{◌≡◌, ◌++◌, OnOk};
ghost use Rattle.group_rules.specs.Texts.{decimal, inc_text, id_text, gtid_text, set_text, inc_or_dash, ballot_text, promise_text};
ghost use Rattle.group_rules.specs.Texts.{session_text, item_text, state_text, mode_text};

use gr_ids::{Ballot, Blob, Gtid, Inc, MemberState, Memory, Mode, SessionId, ValueId, write_uuid};
use gtid_sets::GtidSet;
use itoa::Buffer;
use key_items::Item;
use std::alloc::Global;

/// A number in decimal digits.
pub fn put_decimal(to: &mut Blob, n: u64) -> Result<(), Memory>
    ensures { OnOk result (to.new ≡ to.old ++ decimal n) }
{
    let mut buffer = Buffer::new();
    to.append(buffer.format(n).as_bytes())
}

/// An incarnation: its server and its start.
pub fn put_inc(to: &mut Blob, inc: Inc) -> Result<(), Memory>
    ensures { OnOk result (to.new ≡ to.old ++ inc_text inc) }
{
    put_decimal(to, inc.server as u64)?;
    to.append(b".")?;
    put_decimal(to, inc.start as u64)
}

/// A value's identity: its origin and its number.
pub fn put_id(to: &mut Blob, id: ValueId) -> Result<(), Memory>
    ensures { OnOk result (to.new ≡ to.old ++ id_text id) }
{
    put_inc(to, id.origin)?;
    to.append(b"#")?;
    put_decimal(to, id.number)
}

/// A GTID: the UUID of its source and its number.
pub fn put_gtid(to: &mut Blob, gtid: Gtid) -> Result<(), Memory>
    ensures { OnOk result (to.new ≡ to.old ++ gtid_text gtid) }
{
    to.append(&write_uuid(gtid.source))?;
    to.append(b":")?;
    put_decimal(to, gtid.number)
}

/// A set of GTIDs; the empty one is a dash. Linear in its runs.
pub fn put_set(alloc: Global, to: &mut Blob, set: &GtidSet) -> Result<(), Memory>
    ensures { OnOk result (to.new ≡ to.old ++ set_text set.now) }
{
    if set.runs().is_empty() {
        return to.append(b"-");
    }
    let text = set.write_text(alloc)?;
    to.append(text.as_slice())
}

/// An incarnation, or a dash.
pub fn put_inc_or_dash(to: &mut Blob, inc: Option<Inc>) -> Result<(), Memory>
    ensures { OnOk result (to.new ≡ to.old ++ inc_or_dash inc) }
{
    match inc {
        None => to.append(b"-"),
        Some(inc) => put_inc(to, inc),
    }
}

/// A ballot: its round and its incarnation.
pub fn put_ballot(to: &mut Blob, ballot: Ballot) -> Result<(), Memory>
    ensures { OnOk result (to.new ≡ to.old ++ ballot_text ballot) }
{
    put_decimal(to, ballot.round as u64)?;
    to.append(b"/")?;
    put_inc(to, ballot.inc)
}

/// The ballot that was promised, or a dash.
pub fn put_promise(to: &mut Blob, promise: Option<Ballot>) -> Result<(), Memory>
    ensures { OnOk result (to.new ≡ to.old ++ promise_text promise) }
{
    match promise {
        None => to.append(b"-"),
        Some(ballot) => put_ballot(to, ballot),
    }
}

/// The greatest number of a session that isn't that of a transaction of one statement.
const LAST_SESSION: u32 = 1_000_000_000;

/// A session: its number, or `o` and the number of its line.
pub fn put_session(to: &mut Blob, session: SessionId) -> Result<(), Memory>
    ensures { OnOk result (to.new ≡ to.old ++ session_text session) }
{
    if session.0 > LAST_SESSION {
        to.append(b"o")?;
        return put_decimal(to, (session.0 - LAST_SESSION) as u64);
    }
    put_decimal(to, session.0 as u64)
}

/// A row's table and key.
pub fn put_item(to: &mut Blob, item: &Item) -> Result<(), Memory>
    ensures { OnOk result (to.new ≡ to.old ++ item_text item.now) }
{
    to.append(item.table.as_slice())?;
    to.append(b" ")?;
    to.append(item.key.as_slice())
}

/// A member's state.
pub fn state_name(state: MemberState) -> &'static str
    ensures { result.now ≡ state_text state }
{
    match state {
        MemberState::Offline => "OFFLINE",
        MemberState::Recovering => "RECOVERING",
        MemberState::Online => "ONLINE",
        MemberState::Error => "ERROR",
    }
}

/// A group's mode.
pub fn mode_name(mode: Mode) -> &'static [u8]
    ensures { result.now ≡ mode_text mode }
{
    match mode {
        Mode::Single => b"single",
        Mode::Multi => b"multi",
    }
}
