// What a report is to its slot, and what follows (reference: `data_irq` of device.rs).
#![tactic(auto)]

ghost use Rattle.std.specs.Prelude.{◌≡◌, ◌+◌, ◌++◌, false};
ghost use Rattle.ops.specs.Lists.{Room, Adds};
ghost use Rattle.transfer_chain.specs.Chains.{queued_slot, queue_ops};
ghost use Rattle.transfer_step.specs.Step.{step_of, report_step, slot_after, wake_after, window_after, list_after};

use ops::OpList;
use regs_endpoint::set_out_window;
use state::{EndpointAddress, Slot};
use state_slots::completing::{Reported, done, waiter_of};
use state_slots::waking::add_slot;
use state_slots::{is_busy, slot_size};
use transfer_chain::{Report, after_report, in_goes_on, out_goes_on, queue};

// What a report is to its slot, which has the report counted.
#[derive(Clone, Copy)]
pub enum Step {
    Ignored,
    GoesOn(Slot),
    Completes(Slot),
}

fn step_of(busy: bool, more: bool, slot: Slot) -> Step
    ensures { result ≡ step_of busy more slot }
{
    if !busy {
        return Step::Ignored;
    }
    if more {
        return Step::GoesOn(slot);
    }
    Step::Completes(slot)
}

// OUT counts what the report says.
fn out_step(limit: u8, slot: Slot, report: Report) -> Step
    ensures { result ≡ report_step limit false report.packets report.last slot }
{
    let m = slot_size(slot);
    let received = after_report(limit, m, slot.transfer, report);
    let more = out_goes_on(m, received, report.last);
    let counted = Slot {
        transfer: received,
        ..slot
    };
    step_of(is_busy(slot.phase), more, counted)
}

// IN was counted when the chain was handed over.
fn report_step(limit: u8, incoming: bool, slot: Slot, report: Report) -> Step
    ensures { result ≡ report_step limit incoming report.packets report.last slot }
{
    if incoming {
        return step_of(is_busy(slot.phase), in_goes_on(slot.transfer), slot);
    }
    out_step(limit, slot, report)
}

// The next chain, and behind it the window of an OUT endpoint.
fn go_on(list: &mut OpList<'_>, limit: u8, window: u32, endpoint: EndpointAddress, slot: &mut Slot)
    requires { Room 6 list.old }
    ensures slot { slot.new ≡ queued_slot limit endpoint.incoming slot.old }
    ensures list { Adds list.old (queue_ops limit endpoint.index endpoint.incoming slot.old ++ window_after window endpoint.index endpoint.incoming) list.new }
{
    queue(list, limit, endpoint, slot);
    if !endpoint.incoming {
        set_out_window(list, endpoint.index as u32, window);
    }
}

// The next chain, or the end of the transfer, which wakes slot i when the interrupt ends, or nothing.
fn follow(
    list: &mut OpList<'_>,
    limit: u8,
    window: u32,
    endpoint: EndpointAddress,
    i: usize,
    wake: u16,
    slot: Slot,
    step: Step,
) -> Reported
    requires { Room 6 list.old }
    ensures slot { result.slot ≡ slot_after limit endpoint.incoming slot step }
    ensures wake { result.wake ≡ wake_after wake i step }
    ensures list { Adds list.old (list_after limit window endpoint.index endpoint.incoming step) list.new }
{
    match step {
        Step::Ignored => Reported { slot, wake },
        Step::GoesOn(mut counted) => {
            go_on(list, limit, window, endpoint, &mut counted);
            Reported {
                slot: counted,
                wake,
            }
        }
        Step::Completes(counted) => Reported {
            slot: done(counted),
            wake: add_slot(wake, waiter_of(i)),
        },
    }
}

// A report of slot i. IN tells no numbers. It stays a call of its own: inside its caller the compiler copies the state once
// more.
#[inline(never)]
pub fn report_slot(
    list: &mut OpList<'_>,
    limit: u8,
    window: u32,
    endpoint: EndpointAddress,
    i: usize,
    wake: u16,
    slot: Slot,
    report: Report,
) -> Reported
    requires { Room 6 list.old }
    ensures slot { result.slot ≡ slot_after limit endpoint.incoming slot (report_step limit endpoint.incoming report.packets report.last slot) }
    ensures wake { result.wake ≡ wake_after wake i (report_step limit endpoint.incoming report.packets report.last slot) }
    ensures list { Adds list.old (list_after limit window endpoint.index endpoint.incoming (report_step limit endpoint.incoming report.packets report.last slot)) list.new }
{
    let step = report_step(limit, endpoint.incoming, slot, report);
    follow(list, limit, window, endpoint, i, wake, slot, step)
}
