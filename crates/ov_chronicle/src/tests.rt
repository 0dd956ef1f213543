//! Histories of a saga in which all may follow: an entry is its actor's number and a number.
ghost use Rattle.std.specs.Prelude.{◌≡◌, ◌<◌, length, slice_set, slice_get, Some, IfOk};
ghost use Rattle.ov_chronicle.specs.Seats.{AreAll};

use crate::{BookSeat, Chronicle, Full, Saga};
use ov_base::Memory;
use std::alloc::Global;
use std::sync::Wait;
use std::test::Fail;

struct Tale;

impl Saga for Tale {
    type Entry = (u32, u64);

    type Setting = ();

    ghost actor_of = { λ e. e.0 };

    ghost lawful = { λ s h. Unit {0} };

    ghost may_follow = { λ s h e. Unit {0} };

    fn actor(entry: &(u32, u64)) -> u32 {
        entry.0
    }

    fn copy(_alloc: Global, entry: &(u32, u64)) -> Result<(u32, u64), Memory> {
        Ok(*entry)
    }

    ghost begins = { λ s. tt };

    ghost goes_on = { λ s h e l m. tt };

    ghost stays = { λ s h more e m l nothing. tt };
}

// Threads can own a seat each and share the history.
fn is_send<T: Send>(_value: &T) {}

fn can_be_shared<S: Saga>(book: &Chronicle<S>, seat: &BookSeat<S>) {
    is_send(&book);
    is_send(seat);
}

// The actor of that number appends an entry: its number, or where the history is full the entry.
fn append_at<R: Wait>(
    rt: &R,
    book: &Chronicle<Tale>,
    seats: &mut Vec<BookSeat<Tale>>,
    actor: u32,
    number: u64,
) -> Result<u64, (u32, u64)>
    requires { AreAll book.now seats.old.items × (actor < length seats.old.items) }
    ensures { AreAll book.now seats.new.items × (length seats.new.items ≡ length seats.old.items) }
{
    match book.append(rt, &mut seats[actor as usize], (actor, number)) {
        Ok(place) => Ok(place),
        Err(Full { entry }) => Err(entry),
    }
}

// The actor of that number reads.
fn read_at<R: Wait>(
    rt: &R,
    alloc: Global,
    book: &Chronicle<Tale>,
    seats: &mut Vec<BookSeat<Tale>>,
    actor: u32,
    at: u64,
) -> Result<Option<(u32, u64)>, Memory>
    requires { AreAll book.now seats.old.items × (actor < length seats.old.items) }
    ensures { AreAll book.now seats.new.items × (length seats.new.items ≡ length seats.old.items) }
{
    book.read(rt, alloc, &mut seats[actor as usize], at)
}

#[test]
fn a_history_of_limit_two(rt: HostRuntime) -> Result<(), Fail> {
    let (book, mut seats) = Chronicle::<Tale>::start(rt.alloc(), 2, 2, &())?;
    assert!(rt; append_at(&rt, &book, &mut seats, 0, 7) == Ok(1));
    assert!(rt; read_at(&rt, rt.alloc(), &book, &mut seats, 1, 1)? == Some((0, 7)));
    assert!(rt; append_at(&rt, &book, &mut seats, 1, 8) == Ok(2));
    assert!(rt; append_at(&rt, &book, &mut seats, 0, 9) == Err((0, 9)));
    assert!(rt; read_at(&rt, rt.alloc(), &book, &mut seats, 0, 2)? == Some((1, 8)));
    assert!(rt; read_at(&rt, rt.alloc(), &book, &mut seats, 0, 3)?.is_none());
    assert!(rt; read_at(&rt, rt.alloc(), &book, &mut seats, 0, 0)?.is_none());
    let Ok(entries) = book.close(seats) else {
        unreachable!()
    };
    assert!(rt; entries.as_slice() == [(0, 7), (1, 8)].as_slice());
    Ok(())
}

#[test]
fn a_history_of_limit_zero(rt: HostRuntime) -> Result<(), Fail> {
    let (book, mut seats) = Chronicle::<Tale>::start(rt.alloc(), 0, 1, &())?;
    assert!(rt; append_at(&rt, &book, &mut seats, 0, 7) == Err((0, 7)));
    assert!(rt; read_at(&rt, rt.alloc(), &book, &mut seats, 0, 1)?.is_none());
    let Ok(entries) = book.close(seats) else {
        unreachable!()
    };
    assert!(rt; entries.is_empty());
    Ok(())
}
