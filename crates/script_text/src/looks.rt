// The looks.
ghost use Rattle.std.specs.Prelude.{◌≡◌};
ghost use Rattle.script_text.specs.Words.{words_of};
ghost use Rattle.script_text.specs.Looks.{at_server, config_of, shown_of, look_of};

use crate::numbers::only_number;
use crate::servers::{next_server, only_server};
use crate::words::{has_no_word, is_word, next_word};
use group_rules::Step;

/// A look at a configuration, without its name: N T.
#[tactic(auto, unfolding(crate::specs::Looks::config_of))]
fn read_config(line: &[u8]) -> Option<Step>
    ensures { result ≡ config_of (words_of line.now) }
{
    let (server, rest) = next_server(line)?;
    let slot = only_number(rest, 1, u64::MAX)?;
    Some(Step::ShowConfig { server, slot })
}

/// A look: what is looked at, and what stands behind it.
#[tactic(auto, unfolding(crate::specs::Looks::shown_of))]
fn read_shown(name: &[u8], line: &[u8]) -> Option<Step>
    ensures { result ≡ shown_of name.now (words_of line.now) }
{
    if is_word(name, "config") {
        return read_config(line);
    }
    if is_word(name, "wire") {
        return has_no_word(line).then_some(Step::ShowWire);
    }
    let server = only_server(line)?;
    read_at_server(name, server)
}

/// A look at a server.
#[tactic(auto, unfolding(crate::specs::Looks::at_server))]
fn read_at_server(name: &[u8], server: u8) -> Option<Step>
    ensures { result ≡ at_server name.now server }
{
    if is_word(name, "members") {
        return Some(Step::ShowMembers { server });
    }
    if is_word(name, "slots") {
        return Some(Step::ShowSlots { server });
    }
    if is_word(name, "gtids") {
        return Some(Step::ShowGtids { server });
    }
    if is_word(name, "rows") {
        return Some(Step::ShowRows { server });
    }
    if is_word(name, "queue") {
        return Some(Step::ShowQueue { server });
    }
    if is_word(name, "certifier") {
        return Some(Step::ShowCertifier { server });
    }
    if is_word(name, "kept") {
        return Some(Step::ShowKept { server });
    }
    None
}

/// A look: the name of the line and what stands behind it.
#[tactic(auto, unfolding(crate::specs::Looks::look_of))]
pub fn read_look(name: &[u8], line: &[u8]) -> Option<Step>
    ensures { result ≡ look_of name.now (words_of line.now) }
{
    if !is_word(name, "show") {
        return None;
    }
    let (what, rest) = next_word(line)?;
    read_shown(what, rest)
}
