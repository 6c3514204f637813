use crate::{BadWeight, VersionFault, elect, read_version, read_weight};
use gr_ids::Inc;
use slot_values::Joiner;
use std::test::Fail;

/// The first incarnation of a server whose UUID ends in its number.
fn candidate(server: u8, version: [u64; 3], weight: u8) -> Joiner {
    let mut uuid = [0; 16];
    uuid[15] = server;
    Joiner {
        inc: Inc { server, start: 1 },
        uuid,
        version,
        weight,
    }
}

#[test]
fn the_first_candidate_is_elected(rt: HostRuntime) -> Result<(), Fail> {
    let cases = [
        (
            [candidate(1, [8, 0, 36], 50), candidate(2, [8, 0, 36], 50)],
            1,
        ),
        (
            [candidate(1, [8, 0, 36], 100), candidate(2, [8, 0, 35], 50)],
            2,
        ),
    ];
    for (candidates, server) in cases.iter() {
        let primary = Inc {
            server: *server,
            start: 1,
        };
        assert_eq!(rt; elect(candidates), Some(primary));
    }
    assert_eq!(rt; elect(&[]), None);
    Ok(())
}

#[test]
fn texts_are_read(rt: HostRuntime) -> Result<(), Fail> {
    let alloc = rt.alloc();
    assert_eq!(rt; read_version(alloc, b"8.0.36"), Ok([8, 0, 36]));
    assert_eq!(rt;
        read_version(alloc, b"8.0.16"),
        Err(VersionFault::BadVersion)
    );
    assert_eq!(rt;
        read_version(alloc, b"8.0.36-debug"),
        Err(VersionFault::BadVersion)
    );
    assert_eq!(rt; read_weight(b"100"), Ok(100));
    assert_eq!(rt; read_weight(b"050"), Err(BadWeight));
    Ok(())
}
