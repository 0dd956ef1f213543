//! What no document can say: topologies that are made of values, the places of their actors and keys, and
//! copies.
use crate::{Actor, Mode, Place, Topology};
use ov_base::{Key, Plain};
use std::test::Fail;

#[test]
fn actors_and_keys_have_their_places(rt: HostRuntime) -> Result<(), Fail> {
    let topology = Topology::of(rt.alloc(), 3, 4, &[0, 1, 2], 2, 2)?;
    for (number, actor) in [
        (2, Actor::Gate(2)),
        (3, Actor::Node { centre: 0, part: 0 }),
        (4, Actor::Node { centre: 0, part: 1 }),
        (14, Actor::Node { centre: 2, part: 3 }),
        (15, Actor::Settler(0)),
    ] {
        assert!(rt; topology.actor(number) == Some(actor), "{number}");
    }
    assert!(rt; topology.actor(18).is_none());
    let key = Key::from_bytes(b"ab").ok_or("a key")?;
    assert_eq!(rt; topology.place(key), 3);
    Ok(())
}

#[test]
fn copies_equal_their_source(rt: HostRuntime) -> Result<(), Fail> {
    let topology = Topology::of(rt.alloc(), 2, 4, &[1], 2, 1)?;
    let copy = topology.copy()?;
    assert_eq!(rt; (copy.centres(), copy.partitions()), (2, 4));
    assert_eq!(rt; (copy.write(), copy.read_quorum()), (2, 1));
    assert_eq!(rt; copy.gateways(), 1);
    assert_eq!(rt; copy.centre_of(0), 1);
    let node = Actor::Node { centre: 1, part: 2 };
    assert!(rt; node.copy()? == node);
    let place = Place {
        entry: 7,
        letter: 2,
    };
    assert!(rt; place.copy()? == place);
    assert!(rt; Mode::One.copy()? == Mode::One);
    Ok(())
}
