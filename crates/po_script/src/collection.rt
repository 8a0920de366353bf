// SPDX-License-Identifier: MIT
//! Collects the calls that a command ended.

ghost use Rattle.std.specs.Prelude.{◌≡◌, ℕ};
ghost use Rattle.po_script.specs.Tickets.{Knows, IsCollected, HasEnded, AreCollected};

use crate::tickets::Tickets;
use po_core::Core;
use po_unit::Unit;

/// Collects the call with this number, which has ended, unless it is already collected.
fn collect_one<U: Unit>(core: &mut Core<U>, tickets: &mut Tickets, number: u64)
    requires knows { Knows core.old.tickets tickets.old }
    requires ended { HasEnded core.old.object number }
    ensures object { core.new.object ≡ core.old.object }
    ensures knows { Knows core.new.tickets tickets.new }
    ensures collected { IsCollected core.new.tickets number }
    ensures others { (n : ℕ) → IsCollected core.old.tickets n → IsCollected core.new.tickets n }
{
    if let Some(ticket) = tickets.take(number) {
        core.collect(ticket);
    }
}

/// Collects the calls that the latest command ended.
pub fn collect<U: Unit>(core: &mut Core<U>, tickets: &mut Tickets)
    requires { Knows core.old.tickets tickets.old }
    ensures object { core.new.object ≡ core.old.object }
    ensures knows { Knows core.new.tickets tickets.new }
    ensures collected { AreCollected core.new }
{
    for index in 0..core.ended_now().len() {
        let number = core.ended_now()[index].number;
        collect_one(core, tickets, number);
    }
}
