//! The history with room that was found for it beforehand, so that no event is ever refused.

ghost use Rattle.std.specs.Prelude.{◌≡◌, ◌<◌, ◌-◌, ◌++◌, ◌∷◌, [], length, IfOk};
ghost use Rattle.early_engine.specs.Entering.{entered};

use page_base::NoMemory;
use plain_model::{Book, Event};
use std::alloc::Global;
use std::marker::Model;

/// The history so far, and for how many more events there is room.
#[derive(Drop)]
pub struct Ledger {
    events: Vec<Event>,
    room: u32,
}

impl Model for Ledger {
    ghost use Rattle.std.specs.Prelude.{◌≤◌, ◌+◌, vec_capacity, length};
    ghost use Rattle.plain_model.specs.contracts.event.Event as e;
    ghost use Rattle.std.specs.Coded.{codes};
    ghost use Rattle.early_engine.specs.Entering.{Kept};

    ghost Value = { Kept };

    ghost view = { λ a. record { events = a.events.items; room = a.room } };

    ghost invariant = { λ a. length a.events.items + a.room ≤ vec_capacity a.events };
}

impl Ledger {
    /// No event yet, and room for so many.
    pub fn new(alloc: Global, room: u32) -> Result<Ledger, NoMemory>
        ensures { IfOk result (λ ledger. ledger ≡ record { events = []; room = room }) }
    {
        let events = Vec::with_capacity(alloc, room as usize)?;
        Ok(Ledger { events, room })
    }

    /// How many events there are.
    pub fn len(&self) -> usize
        ensures { result ≡ length self.now.events }
    {
        self.events.len()
    }

    /// The events, in their order.
    pub fn events(&self) -> &[Event]
        ensures { result.now ≡ self.now.events }
    {
        self.events.as_slice()
    }

    /// Enters an event at the end, for which there is room. Takes no memory.
    pub fn enter(&mut self, event: Event)
        requires { 0 < self.old.room }
        ensures { self.new ≡ entered self.old event }
    {
        self.events.push_reserved(event);
        self.room -= 1;
    }

    /// The events as a list. Takes no memory.
    pub fn into_book(self) -> Book
        ensures { result ≡ self.events }
    {
        let Ledger { events, .. } = self;
        Book::from(events)
    }
}
