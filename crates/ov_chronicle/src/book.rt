//! The history and its seats.
ghost use Rattle.std.specs.Prelude.{◌≡◌, ℕ, ◌+◌, ◌-◌, ◌<◌, ◌≤◌, ◌++◌, ◌∷◌, [], List, length, map, true, Some, IfOk, IfErr, IsOk, IsTrue};
ghost use Rattle.std.specs.Vec.{vec_capacity, vec_len};
ghost use mathlib.Core.List.{IsPrefix};
ghost use Rattle.ov_chronicle.specs.Lists.{entries_by};
ghost use Rattle.ov_chronicle.specs.Rules.{IsIdle, HasTurn, HasList, IsFounder, IsGathering, IsNext, past_of, served, lawful_in, may_in};
ghost use Rattle.ov_chronicle.specs.Seats.{IsSeatOf, AreSeats, AreAll, AreOf, AreTold, IsByActors, IsHistoryOfAll, SeeInTurn, IsSameSeat, EndsWith, mine, entry_at, kept_of};

use crate::rule::{Draw, Law, Makes, Serve, TakesIn, Terms, Turn, View};
use crate::saga::Saga;
use atomic_table::{Seat, Table};
use crossbeam_utils::Backoff;
use ov_base::Memory;
use std::alloc::Global;
use std::marker::Model;
use std::snapshot::Snapshot;
use std::sync::Wait;

/// One history, which the seats lengthen and read. Contracts see its limit of entries and how many actors write in
/// it. The room for all entries is taken at the start, so no entry takes memory of its own.
#[derive(Drop)]
pub struct Chronicle<S: Saga> {
    table: Table<
        Vec<S::Entry>,
        View<S::Entry, Option<S::Setting>>,
        Terms<S::Setting>,
        Law<S>,
        Global,
    >,
    limit: u64,
    actors: u32,
    alloc: Global,
}

impl<S: Saga> Model for Chronicle<S> {
    ghost use Rattle.std.specs.Prelude.{◌≡◌, ℕ, ◌<◌};
    ghost use Rattle.ov_chronicle.specs.Seats.{Book};

    ghost Value = { Book };

    ghost view = { λ c. record { table = c.table.shared.table_id; limit = c.limit; actors = c.actors } };

    ghost invariant = { λ c. (c.table.shared.table_id.words ≡ 2) × (c.table.shared.table_id.slots ≡ 1) × (0 < c.actors) };
}

/// An actor's seat of a history. Contracts see the actor's number, the setting, what the seat has seen and the
/// number of its last turn at the lock, 0 before the first.
#[derive(Drop)]
pub struct BookSeat<S: Saga> {
    seat: Seat<Vec<S::Entry>, View<S::Entry, Option<S::Setting>>>,
}

impl<S: Saga> Model for BookSeat<S> {
    ghost use Rattle.std.specs.Prelude.{Option};
    ghost use Rattle.ov_chronicle.specs.Rules.{IsIdle, IsPlaced};
    ghost use Rattle.ov_chronicle.specs.Seats.{Holder};

    ghost Value = { Holder S.Entry (Option S.Setting) };

    ghost view = { λ s. record { table = s.seat.table_id; limit = s.seat.me.0.limit; actors = s.seat.me.0.actors; actor = s.seat.me.0.actor; setting = s.seat.me.0.setting; seen = s.seat.me.0.seen; turn = s.seat.me.0.turn } };

    ghost invariant = { λ s. IsIdle s.seat.me × IsPlaced s.seat.me.0 };
}

/// The history has as many entries as its limit. The entry comes back.
#[derive(Drop)]
pub struct Full<E> {
    pub entry: E,
}

/// The history was not closed for want of memory, and nothing is touched. [`Chronicle::close`] takes no memory and
/// never answers this.
#[derive(Drop)]
pub struct UnclosedBook<S: Saga> {
    pub book: Chronicle<S>,
    pub seats: Vec<BookSeat<S>>,
}

impl<S: Saga> Chronicle<S> {
    /// A history without entries, with room for `limit` of them, and a seat for each actor, in the order of their
    /// numbers. The limit is at most 400,000, and there are 1 to 64 actors. Memory leaves nothing behind.
    pub fn start(
        alloc: Global,
        limit: u64,
        actors: u32,
        setting: &S::Setting,
    ) -> Result<(Chronicle<S>, Vec<BookSeat<S>>), Memory>
        requires limit { limit ≤ 400000 }
        requires actors { (0 < actors) × (actors ≤ 64) }
        ensures { IfOk result (λ b. (b.0.limit ≡ limit) × (b.0.actors ≡ actors) × (length b.1.items ≡ actors) × AreSeats 0 b.0 (Some setting.now) b.1.items) }
    {
        let list = Vec::with_capacity(alloc, limit as usize)?;
        let mut slots = Vec::with_capacity(alloc, 1)?;
        slots.push_reserved(list);
        let terms = Terms {
            limit,
            actors: actors as u64,
            setting: Snapshot::of(setting),
        };
        let Ok((table, mut first)) = Table::new(alloc, &[0, 0], slots, &terms) else {
            return Err(Memory);
        };
        let book = Chronicle {
            table,
            limit,
            actors,
            alloc,
        };
        let mut others = book.make_others(alloc, &mut first, actors, setting)?;
        let mut seats = Vec::with_capacity(alloc, actors as usize)?;
        seats.push_reserved(BookSeat { seat: first });
        seats.append(&mut others)?;
        Ok((book, seats))
    }

    // The seats of the other actors. The setting stands in contracts alone.
    fn make_others(
        &self,
        alloc: Global,
        first: &mut Seat<Vec<S::Entry>, View<S::Entry, Option<S::Setting>>>,
        actors: u32,
        setting: &S::Setting,
    ) -> Result<Vec<BookSeat<S>>, Memory>
        requires own { first.old.table_id ≡ self.now.table }
        requires actors { (0 < actors) × (actors ≤ 64) × (self.now.actors ≡ actors) }
        requires first { IsFounder 1 (Some setting.now) self.now.limit actors first.old.me }
        ensures own { first.new.table_id ≡ first.old.table_id }
        ensures first { IfOk result (λ _. IsFounder actors (Some setting.now) self.now.limit actors first.new.me) }
        ensures seats { IfOk result (λ seats. (vec_len seats + 1 ≡ actors) × AreSeats 1 self.now (Some setting.now) seats.items) }
    {
        let _ = setting;
        let mut others = Vec::with_capacity(alloc, actors as usize)?;
        for _ in 1..actors {
            others.push_reserved(BookSeat {
                seat: self.table.shared.split_seat::<Makes>(first),
            });
        }
        Ok(others)
    }

    // Waits for the turn of the seat.
    fn wait_turn<R: Wait>(
        &self,
        rt: &R,
        seat: &mut Seat<Vec<S::Entry>, View<S::Entry, Option<S::Setting>>>,
    )
        requires own { seat.old.table_id ≡ self.now.table }
        requires idle { IsIdle seat.old.me }
        ensures own { (seat.new.table_id ≡ seat.old.table_id) × (seat.new.id ≡ seat.old.id) }
        ensures turn { HasTurn (λ v. v.items) vec_capacity S.actor_of (lawful_in S.lawful) seat.old.me.0 seat.new.me }
    {
        let ticket = self.table.shared.fetch_add::<Draw>(seat, 0, 1);
        let backoff = Backoff::new();
        for _ in rt.forever() {
            if self.table.shared.load::<Turn<S>>(seat, 1) == ticket {
                return;
            }
            backoff.snooze();
        }
        unreachable!()
    }

    // Waits for the turn of the seat, and takes the list.
    fn enter<R: Wait>(
        &self,
        rt: &R,
        seat: &mut Seat<Vec<S::Entry>, View<S::Entry, Option<S::Setting>>>,
    ) -> Vec<S::Entry>
        requires own { seat.old.table_id ≡ self.now.table }
        requires idle { IsIdle seat.old.me }
        ensures own { (seat.new.table_id ≡ seat.old.table_id) × (seat.new.id ≡ seat.old.id) }
        ensures turn { HasList (λ v. v.items) vec_capacity S.actor_of (lawful_in S.lawful) seat.old.me.0 result seat.new.me }
    {
        self.wait_turn(rt, seat);
        self.table.shared.exchange(seat, 0, Vec::new(self.alloc))
    }

    // Gives the list back, and the turn.
    fn leave(
        &self,
        seat: &mut Seat<Vec<S::Entry>, View<S::Entry, Option<S::Setting>>>,
        list: Vec<S::Entry>,
    )
        requires own { (seat.old.table_id ≡ self.now.table) × ((page : _) × (seat.old.me.1 ≡ (0, page) ∷ [])) }
        requires turn { (seat.old.me.0.live ≡ true) × (seat.old.me.0.has ≡ true) }
        requires list { (seat.old.me.0.limit ≤ vec_capacity list) × (length list.items ≤ seat.old.me.0.limit) × IsNext S.actor_of (may_in S.may_follow) seat.old.me.0 list.items }
        ensures own { (seat.new.table_id ≡ seat.old.table_id) × (seat.new.id ≡ seat.old.id) }
        ensures turn { seat.new.me ≡ (served seat.old.me.0 list.items, []) }
    {
        drop(self.table.shared.exchange(seat, 0, list));
        self.table.shared.fetch_add::<Serve>(seat, 1, 1);
    }

    /// Adds the entry to the end of the history, once the seat's turn at the lock is come, and answers the entry's
    /// number, counted from 1. The entry is of the seat's actor, and it may follow what the seat has seen. Full comes
    /// exactly where the history has as many entries as its limit, which the seat has then seen. It takes no memory.
    pub fn append<R: Wait>(
        &self,
        rt: &R,
        seat: &mut BookSeat<S>,
        entry: S::Entry,
    ) -> Result<u64, Full<S::Entry>>
        requires own { IsSeatOf self.now seat.old }
        requires entry { (S.actor_of entry ≡ seat.old.actor) × may_in S.may_follow seat.old.setting seat.old.seen entry }
        ensures own { IsSameSeat seat.old seat.new }
        ensures seen { IsPrefix seat.old.seen seat.new.seen }
        ensures turn { seat.old.turn < seat.new.turn }
        ensures lawful { lawful_in S.lawful seat.new.setting seat.new.seen }
        ensures ok { IfOk result (λ number. EndsWith seat.new.seen entry × (number ≡ length seat.new.seen) × (number ≤ self.now.limit) × (mine S.actor_of seat.new ≡ mine S.actor_of seat.old ++ entry ∷ [])) }
        ensures full { IfErr result (λ full. (full.entry ≡ entry) × (length seat.new.seen ≡ self.now.limit) × (mine S.actor_of seat.new ≡ mine S.actor_of seat.old)) }
    {
        let inner = &mut seat.seat;
        let mut list = self.enter(rt, inner);
        if list.len() as u64 >= self.limit {
            self.leave(inner, list);
            return Err(Full { entry });
        }
        list.push_reserved(entry);
        let number = list.len() as u64;
        self.leave(inner, list);
        Ok(number)
    }

    /// A copy of the entry at that place of the history, counted from 1, once the seat's turn at the lock is come:
    /// None exactly where `at` is 0 or greater than the number of entries, which the seat has then seen. After Memory
    /// the seat has taken its turn too.
    pub fn read<R: Wait>(
        &self,
        rt: &R,
        alloc: Global,
        seat: &mut BookSeat<S>,
        at: u64,
    ) -> Result<Option<S::Entry>, Memory>
        requires own { IsSeatOf self.now seat.old }
        ensures own { IsSameSeat seat.old seat.new }
        ensures seen { IsPrefix seat.old.seen seat.new.seen }
        ensures turn { seat.old.turn < seat.new.turn }
        ensures mine { mine S.actor_of seat.new ≡ mine S.actor_of seat.old }
        ensures lawful { lawful_in S.lawful seat.new.setting seat.new.seen }
        ensures entry { IfOk result (λ entry. entry ≡ entry_at seat.new.seen at) }
    {
        let inner = &mut seat.seat;
        let list = self.enter(rt, inner);
        let found = copy_of::<S>(alloc, &list, at);
        self.leave(inner, list);
        found
    }

    /// The whole history, of which each seat has seen a beginning: the seats' own entries and no others. All its
    /// seats are handed in, in the order of their numbers. It takes no memory.
    pub fn close(self, mut seats: Vec<BookSeat<S>>) -> Result<Vec<S::Entry>, UnclosedBook<S>>
        requires seats { AreAll self seats.items }
        ensures ok { IsOk result }
        ensures limit { IfOk result (λ log. length log.items ≤ self.limit) }
        ensures actors { IfOk result (λ log. IsByActors S.actor_of self.actors log.items) }
        ensures history { IfOk result (λ log. IsHistoryOfAll S.actor_of (lawful_in S.lawful) log.items seats.items) }
        ensures turns { SeeInTurn seats.items }
    {
        // There is an actor, and so a first seat.
        let _ = &self.actors;
        let first = seats.remove(0);
        let first = self.gather(first, seats);
        Ok(self.open_with(first))
    }

    // The first seat takes all others in.
    fn gather(
        &self,
        first: BookSeat<S>,
        mut others: Vec<BookSeat<S>>,
    ) -> Seat<Vec<S::Entry>, View<S::Entry, Option<S::Setting>>>
        requires first { IsSeatOf self.now first × (first.actor ≡ 0) }
        requires others { AreOf self.now others.items × (length others.items + 1 ≡ self.now.actors) }
        ensures own { (result.table_id ≡ self.now.table) × (result.me.0.limit ≡ self.now.limit) × (result.me.0.made ≡ self.now.actors) }
        ensures gathered { IsGathering 1 (kept_of first) (map kept_of others.items) result.me }
    {
        let BookSeat { seat: mut first } = first;
        while let Some(other) = others.pop() {
            self.take_in(&mut first, other);
        }
        first
    }

    // The first seat takes another in.
    fn take_in(
        &self,
        first: &mut Seat<Vec<S::Entry>, View<S::Entry, Option<S::Setting>>>,
        other: BookSeat<S>,
    )
        requires own { (first.old.table_id ≡ self.now.table) × IsSeatOf self.now other }
        requires first { IsIdle first.old.me × (first.old.me.0.first ≡ true) }
        ensures own { (first.new.table_id ≡ first.old.table_id) × (first.new.me.0.limit ≡ first.old.me.0.limit) × (first.new.me.0.made ≡ first.old.me.0.made) }
        ensures first { IsGathering (first.old.me.0.alive - 1) (past_of first.old.me.0) (kept_of other ∷ first.old.me.0.joined) first.new.me }
    {
        let BookSeat { seat } = other;
        self.table.shared.join_seat::<TakesIn>(first, seat);
    }

    // The list in the slot, where the first seat has taken all others in.
    fn open_with(
        self,
        first: Seat<Vec<S::Entry>, View<S::Entry, Option<S::Setting>>>,
    ) -> Vec<S::Entry>
        requires own { first.table_id ≡ self.table }
        requires first { IsIdle first.me × (first.me.0.first ≡ true) × (first.me.0.alive ≡ 1) }
        ensures limit { length result.items ≤ first.me.0.limit }
        ensures actors { IsByActors S.actor_of first.me.0.made result.items }
        ensures told { AreTold S.actor_of (lawful_in S.lawful) result.items (past_of first.me.0 ∷ first.me.0.joined) }
    {
        let Chronicle {
            table,
            limit: _,
            actors: _,
            alloc: _,
        } = self;
        let mut closed = table.close_with(first);
        let list = closed.take(0);
        closed.free();
        list
    }
}

// A copy of the entry at a place, counted from 1.
fn copy_of<S: Saga>(
    alloc: Global,
    list: &Vec<S::Entry>,
    at: u64,
) -> Result<Option<S::Entry>, Memory>
    ensures { IfOk result (λ entry. entry ≡ entry_at list.now.items at) }
{
    if at == 0 || at > list.len() as u64 {
        return Ok(None);
    }
    let entry = S::copy(alloc, &list[(at - 1) as usize])?;
    Ok(Some(entry))
}
