// The report of a world, as JSON.
ghost use Rattle.std.specs.Prelude.{◌≡◌, IfOk, map, string_bytes};
ghost use Rattle.serde_json.specs.View.{view as view_of, items_view, items_of};
ghost use Rattle.gtid_sets.specs.Text.{set_text};
ghost use Rattle.group_rules.specs.Texts.{inc_text, state_text};
ghost use Rattle.report_text.specs.Reports.{member_data, named_data, report_data, report_json};

use crate::names::state_name;
use gr_ids::{Blob, Inc, MemberState, Memory, Pos, Sequence};
use gtid_sets::GtidSet;
use serde_json::{Value, json};
use std::alloc::{AllocError, Global};

/// What the report says of a running incarnation.
#[derive(Debug, Drop)]
pub struct MemberReport {
    pub inc: Inc,
    pub state: MemberState,
    pub view: u64,
    /// How many places it has taken.
    pub place: Pos,
    /// The GTIDs of what it has committed.
    pub executed: GtidSet,
    /// How many rows it has.
    pub rows: u64,
}

/// What the report says of a world.
#[derive(Debug, Drop)]
pub struct WorldReport {
    /// How many lines of the script were done.
    pub lines: u64,
    /// The running incarnations, ascending.
    pub members: Sequence<MemberReport>,
    /// How many messages were sent.
    pub messages: u64,
}

/// The text of a set; that of the empty one is empty.
fn set_name(alloc: Global, set: &GtidSet) -> Result<String, Memory>
    ensures { IfOk result (λ text. string_bytes text ≡ set_text set.now) }
{
    if set.runs().is_empty() {
        return Ok(String::new(alloc));
    }
    let text = set.write_text(alloc)?;
    match str::from_utf8(text.as_slice()) {
        Ok(text) => Ok(String::from_str(alloc, text)?),
        Err(_) => unreachable!(),
    }
}

/// The name of an incarnation.
fn inc_name(alloc: Global, server: u8, start: u32) -> Result<String, AllocError>
    ensures { IfOk result (λ text. string_bytes text ≡ inc_text (record { server = server; start = start })) }
{
    format!(in alloc; "{server}.{start}")
}

/// A running incarnation, by the texts of its names.
fn named_value(
    alloc: Global,
    executed: &str,
    inc: &str,
    state: &str,
    place: u64,
    rows: u64,
    view: u64,
) -> Result<Value, AllocError>
    ensures { IfOk result (λ v. view_of v ≡ named_data executed.now inc.now place rows state.now view) }
{
    json!(in alloc; {"executed": executed, "inc": inc, "place": place, "rows": rows, "state": state, "view": view})
}

/// A running incarnation.
fn member_value(alloc: Global, member: &MemberReport) -> Result<Value, Memory>
    ensures { IfOk result (λ v. view_of v ≡ member_data member.now) }
{
    let executed = set_name(alloc, &member.executed)?;
    let inc = inc_name(alloc, member.inc.server, member.inc.start)?;
    let state = state_name(member.state);
    Ok(named_value(
        alloc,
        executed.as_str(),
        inc.as_str(),
        state,
        member.place.0,
        member.rows,
        member.view,
    )?)
}

/// The running incarnations.
fn member_values(alloc: Global, members: &[MemberReport]) -> Result<Vec<Value>, Memory>
    ensures { IfOk result (λ values. items_view values.items ≡ items_of (map member_data members.now)) }
{
    let mut values = Vec::new(alloc);
    for member in members {
        values.push(member_value(alloc, member)?)?;
    }
    Ok(values)
}

fn world_value(alloc: Global, world: &WorldReport) -> Result<Value, Memory>
    ensures { IfOk result (λ v. view_of v ≡ report_data world.now) }
{
    let members = Value::Array(member_values(alloc, world.members.as_slice())?);
    let (lines, messages) = (world.lines, world.messages);
    Ok(json!(in alloc; {"lines": lines, "members": members, "messages": messages})?)
}

/// The report of a world, as one JSON object in compact text (RFC 8259), whose keys ascend. Linear in it.
pub fn report(alloc: Global, world: &WorldReport) -> Result<Blob, Memory>
    ensures { IfOk result (λ text. text ≡ report_json world.now) }
{
    let text = world_value(alloc, world)?.to_string(alloc)?;
    Blob::of(alloc, text.as_bytes())
}
