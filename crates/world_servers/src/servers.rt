// The servers.
ghost use Rattle.std.specs.Prelude.{◌≡◌, [], false, nat_lt, not, OnErr, OnOk};
ghost use Rattle.std.specs.List.{find, prefix_len};
ghost use Rattle.std.specs.Option.{option_copied};
ghost use Rattle.gr_ids.specs.declared.memory.Memory.{Memory};
ghost use Rattle.world_servers.specs.Naming.{has_number, has_uuid as has_uuid_in, is_group_taken_in, is_taken_in, is_there, with_declared};

use crate::defaults::is_default_of_other;
use gr_ids::Memory;
use std::alloc::Global;
use std::marker::Model;

/// The greatest number of a server.
const MOST: u8 = 32;

/// A server as a line of a script declares it: its number, 1 to 32, its UUID, the version of MySQL that it runs, as major, minor and patch, and its
/// weight at an election, 0 to 100 (MySQL 8.0 Reference Manual, `server_uuid`, `group_replication_member_weight`).
#[derive(Clone, Copy, Debug, PartialEq, Eq)]
pub struct DeclaredServer {
    pub number: u8,
    pub uuid: [u8; 16],
    pub version: [u64; 3],
    pub weight: u8,
}

/// The servers that are declared, by ascending number. Each call is linear in them.
#[derive(Debug, Drop)]
pub struct Servers {
    list: Vec<DeclaredServer>,
}

impl Model for Servers {
    ghost use Rattle.std.specs.Prelude.{List};
    ghost use Rattle.world_servers.specs.declared.servers.DeclaredServer.{DeclaredServer as Declared};

    ghost Value = { List Declared };

    ghost view = { λ s. s.list.items };
}

impl Servers {
    /// None is declared; takes no memory.
    pub fn new(alloc: Global) -> Servers
        ensures { result ≡ [] }
    {
        Servers {
            list: Vec::new(alloc),
        }
    }

    /// Declares a server, whose number isn't declared.
    pub fn declare(&mut self, server: DeclaredServer) -> Result<(), Memory>
        requires { is_there self.old server.number ≡ false }
        ensures ok { OnOk result (self.new ≡ with_declared self.old server) }
        ensures err { OnErr result (self.new ≡ self.old) }
    {
        let at = place_of(&self.list, server.number);
        self.list.insert(at, server)?;
        Ok(())
    }

    /// Whether a server of this number is declared. Takes no memory.
    pub fn is_declared(&self, number: u8) -> bool
        ensures { result ≡ is_there self.now number }
    {
        self.list.iter().any(|server| server.number == number)
    }

    /// The server of this number, if it is declared. Takes no memory.
    pub fn get(&self, number: u8) -> Option<&DeclaredServer>
        ensures { option_copied result ≡ find (has_number number) self.now }
    {
        self.list.iter().find(|server| server.number == number)
    }

    /// Whether the number or the UUID is that of a declared server, or the UUID is the default of another number. Takes no memory.
    pub fn is_taken(&self, number: u8, uuid: [u8; 16]) -> bool
        ensures { result ≡ is_taken_in self.now number uuid }
    {
        if self.is_declared(number) {
            return true;
        }
        if self.has_uuid(uuid) {
            return true;
        }
        is_default_of_other(uuid, number, MOST)
    }

    /// Whether a group can't have this UUID: it is that of a declared server, or a default. Takes no memory.
    pub fn is_group_taken(&self, group: [u8; 16]) -> bool
        ensures { result ≡ is_group_taken_in self.now group }
    {
        if self.has_uuid(group) {
            return true;
        }
        is_default_of_other(group, 0, MOST)
    }

    fn has_uuid(&self, uuid: [u8; 16]) -> bool
        ensures { result ≡ has_uuid_in self.now uuid }
    {
        self.list.iter().any(|server| server.uuid == uuid)
    }
}

// Where a server of this number belongs.
fn place_of(list: &[DeclaredServer], number: u8) -> usize
    ensures { result ≡ prefix_len (λ x. not (nat_lt number x.number)) list.now }
{
    for (k, server) in list.iter().enumerate() {
        if number < server.number {
            return k;
        }
    }
    list.len()
}
