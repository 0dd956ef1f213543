//! The serial executor on a worked example, and the calls of `ov_base` and `ov_functor` that take memory and
//! that no text reaches.
ghost use Rattle.std.specs.Prelude.{◌≡◌};
ghost use Rattle.std.specs.List.{list_all};
ghost use Rattle.ov_functor.specs.Transaction.{is_positive};

use crate::{are_distinct, run_serial};
use ov_base::{Amount, Key, Plain, Sequence, Value, Version};
use ov_functor::{Command, Part, Reply, Shown, Transaction, items_of, parse_parts};
use std::alloc::Global;
use std::test::Fail;

fn is_positive(part: &Part) -> bool
    ensures { result ≡ is_positive part.now }
{
    match part {
        Part::Move { amount, .. } => amount.get() >= 1,
        _ => true,
    }
}

fn are_positive(parts: &[Part]) -> bool
    ensures { result ≡ list_all is_positive parts.now }
{
    parts.iter().all(|part| is_positive(part))
}

/// The transaction that the text spells.
fn transaction_of(alloc: Global, text: &str) -> Result<Transaction, Fail> {
    let parts = parse_parts(alloc, text.as_bytes())?.ok_or("parts")?;
    let made = if are_positive(parts.as_slice()) {
        Transaction::new(parts).ok()
    } else {
        None
    };
    Ok(made.ok_or("a transaction")?)
}

#[test]
fn a_list_is_executed_in_the_order_of_its_versions(rt: HostRuntime) -> Result<(), Fail> {
    let mut list = Vec::new(rt.alloc());
    for (time, text) in [
        (3, "move a b 4"),
        (1, "put a 10"),
        (2, "move a b 11 ; get a"),
    ] {
        let version = Version::new(time, 0).ok_or("a version")?;
        list.push((version, transaction_of(rt.alloc(), text)?))?;
    }
    let serial = if are_distinct(list.as_slice()) {
        Some(run_serial(rt.alloc(), list.as_slice())?)
    } else {
        None
    };
    let serial = serial.ok_or("distinct versions")?;
    let mut text = Vec::new(rt.alloc());
    for reply in serial.replies.as_slice() {
        reply.print_to(&mut text)?;
        text.push(b'\n')?;
    }
    let replies = "done 1.0\naborted 2.0 a=10\ndone 3.0\n";
    assert_eq!(rt; text.as_slice(), replies.as_bytes());
    let a = Key::from_bytes(b"a").ok_or("a key")?;
    assert!(rt; serial.values.get(&a).copied() == Amount::new(6));
    assert_eq!(rt; serial.values.len(), 2);
    Ok(())
}

#[test]
fn a_transaction_has_an_item_for_each_key_that_it_writes(rt: HostRuntime) -> Result<(), Fail> {
    let transaction = transaction_of(rt.alloc(), "get x ; move a b 3 ; add x 1")?;
    let version = Version::new(1, 0).ok_or("a version")?;
    let items = items_of(rt.alloc(), version, &transaction)?;
    let mut keys = Vec::new(rt.alloc());
    for item in items.as_slice() {
        let copy = item.copy()?;
        assert!(rt; copy == *item);
        keys.extend_from_slice(copy.key.bytes())?;
    }
    assert_eq!(rt; keys.as_slice(), b"abx".as_slice());
    let command = Command::Transact(transaction);
    assert!(rt; command.copy()? == command);
    Ok(())
}

#[test]
fn a_snapshot_prints_what_it_shows(rt: HostRuntime) -> Result<(), Fail> {
    let mut shown = Sequence::new(rt.alloc());
    let key = Key::from_bytes(b"x").ok_or("a key")?;
    let value = Value::Absent;
    shown.push(Shown { key, value })?;
    let reply = Reply::Snap {
        watermark: 131_073,
        shown,
    };
    let copy = reply.copy()?;
    assert!(rt; copy == reply);
    let mut text = Vec::new(rt.alloc());
    copy.print_to(&mut text)?;
    assert_eq!(rt; text.as_slice(), b"snap 2.1 x=absent".as_slice());
    Ok(())
}
