// Which reading an interrupt awaits next, what a reading looks at and comes to, and how an interrupt's calls end (reference:
// `link_irq` and `on_interrupt` of device.rs).
#![tactic(auto)]

ghost use Rattle.std.specs.Prelude.{◌≡◌, cond};
ghost use Rattle.ops.specs.Lists.{Room, Adds};
ghost use Rattle.state.specs.Awaiting.{awaitingb};
ghost use Rattle.state.specs.Fresh.{nothing_awaited};
ghost use Rattle.state_slots.specs.Completing.{collected};
ghost use Rattle.state_slots.specs.Waking.{no_wakes};
ghost use Rattle.interrupt_asks.specs.Asking.{behind_timeout, behind_timeout_ops, behind_message, behind_message_ops, behind_sent, behind_sent_ops, sent_ops, behind_term_ops, behind_change, behind_change_ops, asked};

use ops::{Field, OpList};
use regs_link::{go_disabled, go_rx_det, link_ack, tx_port_cap};
use state::fresh::nothing_awaited;
use state::readings::is_awaiting;
use state::{Awaited, Awaiting, Events, LinkFlags, Refusal, State, Wakes};
use state_slots::completing::collect;
use state_slots::waking::no_wakes;

// `answer`: the reading that is awaited; none where handling has ended. `end`: how many numbers of the list are taken.
#[derive(Clone, Copy)]
pub struct InterruptResult {
    pub state: State,
    pub events: Events,
    pub answer: Result<Option<Awaiting>, Refusal>,
    pub end: usize,
    pub wakes: Wakes,
}

// How a call ends: what is still awaited, whom it leaves to be woken, and whom it wakes.
#[derive(Clone, Copy)]
pub struct Ending {
    pub awaited: Awaited,
    pub wake: u16,
    pub wakes: Wakes,
}

// What readings look at.
#[derive(Clone, Copy)]
pub struct Sight {
    // where EP0's memory begins
    pub ep0: u32,
    pub revision: u8,
    // the most packets of a chain
    pub limit: u8,
    // the window of the OUT endpoints
    pub window: u32,
    // the EP0 IN packet that is armed is the last of its data stage
    pub in_last: bool,
    pub awaited: Awaited,
    // the number of the slot that the reading is about
    pub place: usize,
}

// What a reading leaves of what it may change, and what is awaited behind it.
#[derive(Clone, Copy)]
pub struct Turn<E> {
    pub effect: E,
    pub awaited: Awaited,
}

// A warm reset asks for the link's status once more; else the transfer status is due.
fn behind_timeout(list: &mut OpList<'_>, flags: LinkFlags) -> Option<Awaiting>
    requires { Room 1 list.old }
    ensures next { result ≡ behind_timeout flags }
    ensures list { Adds list.old (behind_timeout_ops flags) list.new }
{
    if flags.link_if_warm_rst {
        link_ack(list, Field::LinkIfWarmRst);
        return Some(Awaiting::WarmResetStatus);
    }
    Some(Awaiting::TransferStatus)
}

// A message that timed out takes the link down and ends handling: the transfer flags are left for the next interrupt.
pub fn behind_message(list: &mut OpList<'_>, flags: LinkFlags) -> Option<Awaiting>
    requires { Room 3 list.old }
    ensures next { result ≡ behind_message flags }
    ensures list { Adds list.old (behind_message_ops flags) list.new }
{
    if flags.link_if_rx_lmp_tout {
        link_ack(list, Field::LinkIfRxLmpTout);
        go_disabled(list, true);
        go_rx_det(list);
        return None;
    }
    behind_timeout(list, flags)
}

fn behind_sent(list: &mut OpList<'_>, flags: LinkFlags) -> Option<Awaiting>
    requires { Room 3 list.old }
    ensures next { result ≡ behind_sent flags }
    ensures list { Adds list.old (behind_sent_ops flags) list.new }
{
    if flags.link_if_rx_lmp {
        link_ack(list, Field::LinkIfRxLmp);
        return Some(Awaiting::MessageWord);
    }
    behind_message(list, flags)
}

fn send(list: &mut OpList<'_>, flags: LinkFlags)
    requires { Room 4 list.old }
    ensures { Adds list.old (sent_ops flags) list.new }
{
    if flags.link_if_tx_lmp {
        link_ack(list, Field::LinkIfTxLmp);
        tx_port_cap(list);
    }
}

pub fn behind_term(list: &mut OpList<'_>, flags: LinkFlags) -> Option<Awaiting>
    requires { Room 7 list.old }
    ensures next { result ≡ behind_sent flags }
    ensures list { Adds list.old (behind_term_ops flags) list.new }
{
    send(list, flags);
    behind_sent(list, flags)
}

pub fn behind_change(list: &mut OpList<'_>, flags: LinkFlags) -> Option<Awaiting>
    requires { Room 7 list.old }
    ensures next { result ≡ behind_change flags }
    ensures list { Adds list.old (behind_change_ops flags) list.new }
{
    if flags.link_if_term_pres {
        link_ack(list, Field::LinkIfTermPres);
        return Some(Awaiting::TermPresStatus);
    }
    behind_term(list, flags)
}

// Another reading awaited, or none, with what is remembered.
pub fn ask(awaited: Awaited, next: Option<Awaiting>) -> Awaited
    ensures { result ≡ asked awaited next }
{
    Awaited { next, ..awaited }
}

// Where handling has ended, nothing is awaited or remembered, nobody is left to be woken, and those collected are woken.
pub fn settle(awaited: Awaited, events: Events, wake: u16) -> Ending
    ensures next { result.awaited.next ≡ awaited.next }
    ensures awaited { result.awaited ≡ cond (awaitingb awaited.next) awaited nothing_awaited }
    ensures wake { result.wake ≡ cond (awaitingb awaited.next) wake 0 }
    ensures wakes { result.wakes ≡ cond (awaitingb awaited.next) no_wakes (collected events wake) }
{
    if is_awaiting(awaited.next) {
        return Ending {
            awaited,
            wake,
            wakes: no_wakes(),
        };
    }
    Ending {
        awaited: nothing_awaited(),
        wake: 0,
        wakes: collect(events, wake),
    }
}
