// SPDX-License-Identifier: MIT
//! The room in memory that is reserved for the next call of each free pass.

ghost use Rattle.std.specs.Prelude.{◌≡◌, ◌+◌, ◌<◌, ◌≤◌, Some, None, IfSome, is_some, option_map};
ghost use Rattle.po_object.specs.Reservations.{reserved};

use std::marker::Model;
use std::sync::ledger::{Blank, Book, Ledger, Share};

/// How many passes have room in memory reserved for their next call. Contracts see that number if the number of calls is fixed.
/// Otherwise memory is taken for each call, and nothing is reserved.
#[derive(Drop)]
pub(crate) struct Reservations<F: Ledger> {
    book: Option<Book<F>>,
}

impl<F: Ledger> Model for Reservations<F> {
    ghost use Rattle.std.specs.Prelude.{ℕ, Option, option_map as mapped};

    ghost Value = { Option ℕ };

    ghost view = { λ r. mapped (λ b. b.total) r.book };
}

/// Whether a pass has room reserved for its next call. Contracts see it as 1 or 0 if the number of calls is fixed.
#[derive(Drop)]
pub(crate) struct Reservation<F: Ledger> {
    share: Option<Share<F>>,
}

impl<F: Ledger> Model for Reservation<F> {
    ghost use Rattle.std.specs.Prelude.{ℕ, ◌≡◌, Option, IfSome as WhereSome, option_map as mapped};

    ghost Value = { Option ℕ };

    ghost view = { λ r. mapped (λ s. s.amount) r.share };

    ghost invariant = { λ r. WhereSome r.share (λ s. s.parts ≡ 1) };
}

/// The parts of the ledger that no pass has. Contracts see how many there are, if the number of calls is fixed.
#[derive(Drop)]
pub(crate) struct Unreserved<F: Ledger> {
    share: Option<Share<F>>,
}

impl<F: Ledger> Model for Unreserved<F> {
    ghost use Rattle.std.specs.Prelude.{ℕ, ◌≡◌, Option, IfSome as WhereSome, option_map as mapped};

    ghost Value = { Option ℕ };

    ghost view = { λ r. mapped (λ s. s.parts) r.share };

    ghost invariant = { λ r. WhereSome r.share (λ s. s.amount ≡ 0) };
}

impl<F: Ledger> Reservations<F> {
    /// Returns reservations that never reserve anything.
    pub(crate) fn without() -> (Reservations<F>, Unreserved<F>)
        ensures { (result.0 ≡ None) × (result.1 ≡ None) }
    {
        (Reservations { book: None }, Unreserved { share: None })
    }

    /// Opens the ledger, with nothing reserved yet.
    pub(crate) fn open(free: Blank) -> (Reservations<F>, Unreserved<F>)
        requires { (free.name ≡ F.name) × (free.parts ≡ F.parts) }
        ensures { (result.0 ≡ Some 0) × (result.1 ≡ Some free.parts) }
    {
        let (book, share) = free.open::<F>();
        let none = Reservations { book: Some(book) };
        (none, Unreserved { share: Some(share) })
    }

    /// Reserves room for one more pass.
    pub(crate) fn reserve(&mut self, rest: &mut Unreserved<F>) -> Reservation<F>
        requires both { is_some rest.old ≡ is_some self.old }
        requires left { IfSome rest.old (λ parts. 1 < parts) }
        ensures total { self.new ≡ option_map (λ n. n + 1) self.old }
        ensures rest { rest.old ≡ option_map (λ n. n + 1) rest.new }
        ensures own { result ≡ option_map (λ _. 1) self.old }
    {
        if let Some(book) = &mut self.book {
            if let Some(share) = &mut rest.share {
                let mut own = share.split_off(1, 0);
                book.add(&mut own, 1);
                return Reservation { share: Some(own) };
            }
        }
        Reservation { share: None }
    }

    /// Proves that the pass's room is among the reserved.
    pub(crate) fn audit(&mut self, own: &mut Reservation<F>)
        requires { own.old ≡ option_map (λ _. 1) self.old }
        ensures same { (self.new ≡ self.old) × (own.new ≡ own.old) }
        ensures some { IfSome self.old (λ n. 1 ≤ n) }
    {
        if let Some(book) = &mut self.book {
            if let Some(share) = &mut own.share {
                book.audit(share);
            }
        }
    }

    /// Uses the pass's room.
    pub(crate) fn take(&mut self, own: &mut Reservation<F>)
        requires { own.old ≡ option_map (λ _. 1) self.old }
        ensures total { self.old ≡ option_map (λ n. n + 1) self.new }
        ensures own { own.new ≡ option_map (λ _. 0) self.old }
    {
        if let Some(book) = &mut self.book {
            if let Some(share) = &mut own.share {
                book.audit(share);
                book.sub(share, 1);
            }
        }
    }

    /// Reserves room for the pass again.
    pub(crate) fn give(&mut self, own: &mut Reservation<F>)
        requires { own.old ≡ option_map (λ _. 0) self.old }
        ensures total { self.new ≡ option_map (λ n. n + 1) self.old }
        ensures own { own.new ≡ option_map (λ _. 1) self.old }
    {
        if let Some(book) = &mut self.book {
            if let Some(share) = &mut own.share {
                book.add(share, 1);
            }
        }
    }
}
