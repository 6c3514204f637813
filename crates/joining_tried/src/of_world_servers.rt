ghost use Rattle.std.specs.Prelude.{◌≡◌};

use slot_values::Joiner;
use std::alloc::Global;
use std::process::Abort;
use std::test::Fail;
use world_servers::{DeclaredServer, Servers};

const OWN: [u8; 16] = *b"ABCDEFGHIJKLMNOP";

/// The default UUID of a server below 10.
fn default_of(number: u8) -> [u8; 16] {
    [0, 0, 0, 0, 0, 0, 0, 0, 0, 0, 0, 0, 0, 0, 0, number]
}

fn declared(number: u8, uuid: [u8; 16]) -> DeclaredServer
    ensures { result.number ≡ number }
{
    DeclaredServer {
        number,
        uuid,
        version: [8, 0, 17],
        weight: 70,
    }
}

fn declare(rt: &impl Abort, servers: &mut Servers, number: u8, uuid: [u8; 16]) -> Result<(), Fail> {
    assert!(rt; !servers.is_declared(number));
    servers.declare(declared(number, uuid))?;
    Ok(())
}

fn check_taken(rt: &impl Abort, servers: &Servers) {
    assert!(rt; servers.is_declared(3) && !servers.is_declared(2));
    assert!(rt; servers.is_taken(3, default_of(3)));
    assert!(rt; servers.is_taken(2, OWN));
    assert!(rt; servers.is_taken(2, default_of(4)));
}

fn check_free(rt: &impl Abort, servers: &Servers) {
    assert!(rt; !servers.is_taken(2, default_of(2)));
    assert!(rt; servers.is_group_taken(default_of(9)));
    assert!(rt; !servers.is_group_taken([7; 16]));
}

/// A founder's number, UUID and weight.
#[derive(Clone, Copy)]
struct Founder {
    number: u8,
    uuid: [u8; 16],
    weight: u8,
}

fn check_founder(rt: &impl Abort, founder: &Joiner, wanted: &Founder) {
    assert!(rt; founder.inc.server == wanted.number);
    assert!(rt; founder.uuid == wanted.uuid);
    assert!(rt; founder.weight == wanted.weight);
}

fn check_founders(rt: &impl Abort, founders: &[Joiner], wanted: &[Founder]) {
    assert!(rt; founders.len() == wanted.len());
    for (founder, row) in founders.iter().zip(wanted.iter()) {
        check_founder(rt, founder, row);
    }
}

fn check_group(rt: &impl Abort, alloc: Global, servers: &Servers) -> Result<(), Fail> {
    let three: [u8; 3] = [3, 2, 1];
    assert!(rt; three.iter().all(|number| *number < 100));
    let founders = servers.founders(alloc, &three)?;
    let wanted = [
        Founder {
            number: 1,
            uuid: default_of(1),
            weight: 70,
        },
        Founder {
            number: 2,
            uuid: default_of(2),
            weight: 50,
        },
        Founder {
            number: 3,
            uuid: OWN,
            weight: 70,
        },
    ];
    check_founders(rt, &founders, &wanted);
    Ok(())
}

#[test]
fn servers_are_declared_once(rt: HostRuntime) -> Result<(), Fail> {
    let mut servers = Servers::new(rt.alloc());
    declare(&rt, &mut servers, 3, OWN)?;
    declare(&rt, &mut servers, 1, default_of(1))?;
    check_taken(&rt, &servers);
    check_free(&rt, &servers);
    check_group(&rt, rt.alloc(), &servers)
}
