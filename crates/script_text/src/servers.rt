// The servers that a line names.
ghost use Rattle.std.specs.Prelude.{◌≡◌, ◌≤◌, IfOk, IfSome};
ghost use Rattle.std.specs.Option.{option_map};
ghost use Rattle.script_text.specs.Words.{words_of};
ghost use Rattle.script_text.specs.Servers.{server_of, first_server, only_server as the_server, all_servers, are_distinct as distinct};

use crate::numbers::{next_number, only_number, read_number_in};
use crate::words::next_word;
use gr_ids::{Memory, Sequence};
use std::alloc::Global;

/// A server's number, 1 to 32.
pub fn read_server(word: &[u8]) -> Option<u8>
    ensures { result ≡ server_of word.now }
{
    let number = read_number_in(word, 1, 32)?;
    Some(number as u8)
}

/// A server, and what stands behind it.
pub fn next_server(line: &[u8]) -> Option<(u8, &[u8])>
    ensures { option_map (λ found. (found.0, words_of found.1.now)) result ≡ first_server (words_of line.now) }
{
    let (server, rest) = next_number(line, 1, 32)?;
    Some((server as u8, rest))
}

/// The server that is all of a line.
pub fn only_server(line: &[u8]) -> Option<u8>
    ensures { result ≡ the_server (words_of line.now) }
{
    let number = only_number(line, 1, 32)?;
    Some(number as u8)
}

/// The servers that are all of a line. Linear in it.
pub fn read_servers(alloc: Global, line: &[u8]) -> Result<Option<Sequence<u8>>, Memory>
    ensures { IfOk result (λ servers. servers ≡ all_servers (words_of line.now)) }
{
    let mut servers = Vec::new(alloc);
    let mut rest = line;
    while let Some((word, more)) = next_word(rest) {
        let Some(server) = read_server(word) else {
            return Ok(None);
        };
        servers.push(server)?;
        rest = more;
    }
    Ok(Some(Sequence::from_vec(servers)))
}

/// Whether no server stands twice. Quadratic in the list.
pub fn are_distinct(servers: &[u8]) -> bool
    ensures { result ≡ distinct servers.now }
{
    let mut rest = servers;
    while let [first, others @ ..] = rest {
        if others.contains(first) {
            return false;
        }
        rest = others;
    }
    true
}
