// The device as a whole.
#![tactic(auto)]

ghost use Rattle.ops.specs.Sequence.{up_to};
ghost use Rattle.ops.specs.Lists.{Room, Adds};
ghost use Rattle.regs_device.specs.Device.{shutdown_ops, protocol_ops, clear_both, ep0_memory_ops, protocol_reset_ops, bus_reset_ops};

use ops::Field::*;
use ops::Kind::*;
use ops::OpList;
use ops::Register::*;
use regs_control::{ep0_rx_ready, ep0_tx_clear, set_address};
use regs_endpoint::clear;
use regs_link::link_power_allow;

// Leaves the bus: the protocol and the link layer are reset, and the link is held down meanwhile.
pub fn shutdown(list: &mut OpList<'_>)
    requires { Room 8 list.old }
    ensures { Adds list.old shutdown_ops list.new }
{
    let rows = [
        (Write, UsbssCtrl, 0, ForceRst, 1),
        (Modify, LinkCfg, 0, LinkPhyReset, 1),
        (And, LinkCfg, 0, LinkReset, 1),
        (Modify, LinkCtrl, 0, LinkGoDisabled, 1),
        (Wait, Delay, 0, Cycles, 1000),
        (Modify, UsbssCtrl, 0, ForceRst, 0),
        (Modify, LinkCfg, 0, LinkPhyReset, 0),
        (And, LinkCfg, 0, LinkReset, 0),
    ];
    list.append(&rows);
}

// In two parts: the compiler makes constants of so many rows, and a loop of more.
fn reset_protocol_layer(list: &mut OpList<'_>)
    requires { Room 17 list.old }
    ensures { Adds list.old protocol_ops list.new }
{
    let flags = [
        (Modify, UsbssCtrl, 0, ForceRst, 1),
        (Write, Status, 0, UifTransfer, 1),
        (And, Status, 0, UdifSetup, 1),
        (And, Status, 0, UdifStatus, 1),
        (And, Status, 0, UifRxPing, 1),
        (And, Status, 0, UifItp, 1),
        (And, Status, 0, UifFifoTxov, 1),
        (And, Status, 0, UifFifoRxov, 1),
    ];
    let control = [
        (Write, UsbssCtrl, 0, UieTransfer, 1),
        (And, UsbssCtrl, 0, UdieSetup, 1),
        (And, UsbssCtrl, 0, UdieStatus, 1),
        (And, UsbssCtrl, 0, DmaEn, 1),
        (And, UsbssCtrl, 0, SetupFlow, 1),
        (Modify, UsbssCtrl, 0, UsbClrAll, 1),
        (Modify, UsbssCtrl, 0, UsbClrAll, 0),
        (Write, UepTxEn, 0, All, 0),
        (Write, UepRxEn, 0, All, 0),
    ];
    list.append(&flags);
    list.append(&control);
}

// Both directions of the endpoints 1 to 7, IN first.
#[tactic(auto, using(ops::specs::ListsLaws::up_to_start, crate::specs::DeviceLaws::clear_both_length))]
fn clear_all(list: &mut OpList<'_>)
    requires { Room 56 list.old }
    ensures { Adds list.old (up_to clear_both 7) list.new }
{
    for index in 1..=7 {
        clear(list, index, true);
        clear(list, index, false);
    }
}

fn set_ep0_memory(list: &mut OpList<'_>, ep0: u32)
    requires { Room 4 list.old }
    ensures { Adds list.old (ep0_memory_ops ep0) list.new }
{
    let rows = [
        (Write, Uep0TxDma, 0, All, ep0),
        (Write, Uep0RxDma, 0, All, ep0),
        (Write, Uep0TxDmaOfs, 0, All, 0),
        (Write, Uep0RxDmaOfs, 0, All, 0),
    ];
    list.append(&rows);
}

// Everything above the link starts over: flags, endpoints, address. EP0 has its memory at `ep0` and waits for a SETUP.
#[tactic(auto, using(crate::specs::DeviceLaws::clear_both_length))]
pub fn protocol_reset(list: &mut OpList<'_>, ep0: u32)
    requires { Room 81 list.old }
    ensures { Adds list.old (protocol_reset_ops ep0) list.new }
{
    reset_protocol_layer(list);
    clear_all(list);
    set_ep0_memory(list, ep0);
    ep0_tx_clear(list);
    ep0_rx_ready(list);
    set_address(list, 0);
}

// The registers of a bus reset: the host's requests to enter U1 and U2 are refused behind it.
#[tactic(auto, using(crate::specs::DeviceLaws::protocol_reset_length))]
pub fn bus_reset(list: &mut OpList<'_>, ep0: u32)
    requires { Room 83 list.old }
    ensures { Adds list.old (bus_reset_ops ep0) list.new }
{
    protocol_reset(list, ep0);
    link_power_allow(list, false);
}
