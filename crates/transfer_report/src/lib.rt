// The end of a chain of a data endpoint, as an interrupt reports it (reference: `data_irq` of device.rs).
#![tactic(auto)]

ghost use Rattle.std.specs.Prelude.{◌≡◌};
ghost use Rattle.ops.specs.Lists.{Room, Adds};
ghost use Rattle.transfer_report.specs.Report.{report_state, report_ops, slots_counted};

use ops::OpList;
use regs_endpoint::chain_ack;
use state::{EndpointAddress, State};
use state_slots::slot_number;
use transfer_chain::{CHAIN_PACKETS, Report};
use transfer_step::report_slot;
use transfer_window::{in_hand_count, window_of};

// How many slots are counted for the window. IN has none.
fn slots_counted(incoming: bool) -> usize
    ensures { result ≡ slots_counted incoming }
{
    if incoming { 0 } else { 14 }
}

// The end of a chain: its flag is acknowledged, then follows what the step asks for. IN tells no numbers.
pub fn report(
    list: &mut OpList<'_>,
    mut state: State,
    endpoint: EndpointAddress,
    report: Report,
) -> State
    requires { Room 7 list.old }
    ensures state { result ≡ report_state state endpoint.index endpoint.incoming report.packets report.last }
    ensures list { Adds list.old (report_ops state endpoint.index endpoint.incoming report.packets report.last) list.new }
{
    let most = slots_counted(endpoint.incoming);
    let window = window_of(in_hand_count(&state, most));
    let i = slot_number(endpoint);
    chain_ack(list, endpoint.index as u32, endpoint.incoming);
    if 16 <= i {
        return state;
    }
    let followed = report_slot(
        list,
        CHAIN_PACKETS,
        window,
        endpoint,
        i,
        state.wake,
        state.endpoints[i],
        report,
    );
    state.endpoints[i] = followed.slot;
    state.wake = followed.wake;
    state
}
