use gr_ids::Pos;
use member_own::Own;
use std::test::Fail;

#[test]
fn what_happens_is_kept(rt: HostRuntime) -> Result<(), Fail> {
    let mut own = Own::new();
    assert_eq!(rt; own.make(false)?, 1);
    own.take(Pos(4), false);
    assert!(rt; !own.has_arrived() && own.online().is_none());
    assert_eq!(rt; own.make(true)?, 2);
    assert!(rt; own.has_arrived());
    own.take(Pos(7), true);
    own.take(Pos(8), false);
    assert!(rt; own.online() == Some(Pos(7)));
    own.tick();
    assert_eq!(rt; own.ticks(), 1);
    assert_eq!(rt; own.made(), 2);
    Ok(())
}
