//! The visitors that are there.

use crate::guest::Guest;
use crate::limits::{COMERS, GUESTS};
use osc_door::{Door, Knock, Visitor};
use std::alloc::{AllocError, Global};
use std::collections::VecDeque;
use std::marker::Model;

/// The visitors that are there, the one that came first in front. A contract sees each of them.
pub struct Hall<V: Visitor> {
    alloc: Global,
    guests: VecDeque<Guest<V>>,
}

impl<V: Visitor + Drop> Drop for Hall<V> {
    fn drop(self) {
        let Hall {
            alloc: _,
            guests: _,
        } = self;
    }
}

impl<V: Visitor> Model for Hall<V> {
    ghost use Rattle.std.specs.Prelude.{List, ◌≤◌};
    ghost use Rattle.std.specs.Coded.{coded_list};
    ghost use Rattle.std.specs.VecDeque.{deque_len, deque_capacity};
    ghost use Rattle.osc_hall.specs.declared.limits.TheConstants.{GUESTS};
    ghost use Rattle.osc_hall.specs.Turns.{Seen, seen_code};

    ghost Value = { List (Seen V) };

    ghost coded = { coded_list (seen_code V.code) };

    ghost view = { λ h. h.guests.items };

    ghost invariant = { λ h. (deque_len h.guests ≤ GUESTS)
        × (GUESTS ≤ deque_capacity h.guests) };
}

impl<V: Visitor + Drop> Hall<V> {
    ghost use Rattle.std.specs.Prelude.{◌≡◌, ◌+◌, ◌≤◌, ◌<◌, [], length, IfOk};
    ghost use Rattle.osc_hall.specs.declared.limits.TheConstants.{GUESTS, COMERS};
    ghost use Rattle.osc_hall.specs.Rounds.{AreLetIn, AreSeen, IsRound, SeesFirst};
    ghost use Rattle.osc_hall.specs.Rounds.{with_room, with_comer};

    /// Takes the memory for the table of visitors. Nobody is there.
    pub fn open(alloc: Global) -> Result<Hall<V>, AllocError>
        ensures { IfOk result (λ hall. hall ≡ []) }
    {
        let guests = VecDeque::with_capacity(alloc, GUESTS)?;
        Ok(Hall { alloc, guests })
    }

    /// How many visitors are there.
    pub fn count(&self) -> usize
        ensures count { result ≡ length self.now }
        ensures few { result ≤ GUESTS }
    {
        self.guests.len()
    }

    /// One round: some visitors are let in, and each that is there is heard once or told once. None
    /// is waited for.
    pub fn round<D: Door<Visitor = V>>(&mut self, door: &mut D, page: &[u8], state: &[u8])
        ensures round { IsRound V.left V.taken page.now state.now self.old self.new }
        ensures few { length self.new ≤ GUESTS }
        ensures comers { length self.new ≤ length self.old + COMERS }
    {
        self.let_in(door);
        self.see_all(page, state);
    }

    /// Lets visitors in; where the hall is full the one that came first makes room.
    fn let_in<D: Door<Visitor = V>>(&mut self, door: &mut D)
        ensures { AreLetIn V.taken self.old COMERS self.new }
    {
        for _comer in 0..COMERS {
            let Knock::Came(visitor) = door.next() else {
                return;
            };
            self.enter(visitor);
        }
    }

    /// One visitor comes in, as the last.
    fn enter(&mut self, visitor: V)
        ensures { self.new ≡ with_comer self.old visitor }
    {
        self.make_room();
        let guest = Guest::open(self.alloc, visitor);
        self.guests.push_back_reserved(guest);
    }

    /// The one that came first goes, where the hall is full.
    fn make_room(&mut self)
        ensures room { length self.new < GUESTS }
        ensures rest { self.new ≡ with_room self.old }
    {
        if self.guests.len() >= GUESTS {
            let _first = self.guests.pop_front();
        }
    }

    /// Hears or tells each that is there.
    fn see_all(&mut self, page: &[u8], state: &[u8])
        ensures few { length self.new ≤ GUESTS }
        ensures seen { AreSeen V.left V.taken page.now state.now self.old self.new }
    {
        for _one in 0..self.guests.len() {
            self.see_first(page, state);
        }
    }

    /// Hears or tells the one that is first, which is then the last if it stays.
    fn see_first(&mut self, page: &[u8], state: &[u8])
        ensures { SeesFirst V.left V.taken page.now state.now self.old self.new }
    {
        if let Some(mut guest) = self.guests.pop_front() {
            if guest.stays(self.alloc, page, state) {
                self.guests.push_back_reserved(guest);
            }
        }
    }
}
