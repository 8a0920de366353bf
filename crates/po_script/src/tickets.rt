// SPDX-License-Identifier: MIT
//! The tickets of the calls of a script.

ghost use Rattle.std.specs.Prelude.{◌≡◌, ◌≢◌, ℕ, OnOk, None, Some};
ghost use Rattle.std.specs.Option.{option_map};
ghost use Rattle.po_calls.specs.declared.ticket.Ticket.{Ticket as Named};
ghost use Rattle.po_script.specs.Tickets.{key_of, ticket_of, HasRoom};

use po_core::Ticket;
use std::alloc::{AllocError, Global};
use std::collections::HashMap;

/// The tickets of the accepted calls that aren't collected: the key of each, by the call's number.
#[derive(Drop)]
pub struct Tickets {
    keys: HashMap<u64, usize>,
}

impl Tickets {
    /// Returns an empty table.
    pub fn new(alloc: Global) -> Tickets
        ensures { (n : ℕ) → key_of result n ≡ None }
    {
        Tickets {
            keys: HashMap::new(alloc),
        }
    }

    /// Makes room for one more ticket.
    pub fn reserve(&mut self) -> Result<(), AllocError>
        ensures same { (n : ℕ) → key_of self.new n ≡ key_of self.old n }
        ensures room { OnOk result (HasRoom self.new) }
    {
        self.keys.reserve(1)
    }

    /// Keeps a ticket, for which there is room.
    pub fn keep(&mut self, ticket: Ticket)
        requires { HasRoom self.old }
        ensures kept { key_of self.new ticket.number ≡ Some ticket.key }
        ensures others { (n : ℕ) → n ≢ ticket.number → key_of self.new n ≡ key_of self.old n }
    {
        let Ok(_) = self.keys.insert(ticket.number, ticket.key) else {
            unreachable!()
        };
    }

    /// Takes out the ticket of the call with this number, if it is kept.
    pub fn take(&mut self, number: u64) -> Option<Ticket>
        ensures ticket { result ≡ option_map (ticket_of number) (key_of self.old number) }
        ensures taken { key_of self.new number ≡ None }
        ensures others { (n : ℕ) → n ≢ number → key_of self.new n ≡ key_of self.old n }
    {
        let key = self.keys.remove(&number)?;
        Some(Ticket { key, number })
    }
}
