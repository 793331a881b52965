// The registers of endpoint 0, the transfer flags and the address.
#![tactic(auto)]

ghost use Rattle.ops.specs.Numbers.{value_number};
ghost use Rattle.ops.specs.Lists.{Room, Adds};
ghost use Rattle.regs_control.specs.Control.{ep0_rx_ready_ops, ep0_tx_ready_ops, ep0_stall_ops, ep0_tx_clear_ops, ep0_rx_clear_ops, ep0_tx_answer_ops, ep0_rx_answer_ops, status_ack_ops, status_others_ops, address_ops};

use ops::Field::{self, *};
use ops::Kind::*;
use ops::Register::*;
use ops::{OpList, Value};

pub fn ep0_rx_ready(list: &mut OpList<'_>)
    requires { Room 2 list.old }
    ensures { Adds list.old ep0_rx_ready_ops list.new }
{
    let rows = [
        (Write, Uep0RxCtrl, 0, Ep0RxRes, Value::Ack as u32),
        (And, Uep0RxCtrl, 0, Ep0RxErdy, 1),
    ];
    list.append(&rows);
}

pub fn ep0_tx_ready(list: &mut OpList<'_>, seq: u32, len: u32)
    requires { Room 4 list.old }
    ensures { Adds list.old (ep0_tx_ready_ops seq len) list.new }
{
    let rows = [
        (Write, Uep0TxCtrl, 0, Ep0TxRes, Value::Dph as u32),
        (And, Uep0TxCtrl, 0, Ep0TxSeq, seq),
        (And, Uep0TxCtrl, 0, Ep0TxLen, len),
        (Modify, Uep0TxCtrl, 0, Ep0TxErdy, 1),
    ];
    list.append(&rows);
}

pub fn ep0_stall(list: &mut OpList<'_>)
    requires { Room 3 list.old }
    ensures { Adds list.old ep0_stall_ops list.new }
{
    let rows = [
        (Write, Uep0TxCtrl, 0, Ep0TxRes, Value::Stall as u32),
        (Write, Uep0RxCtrl, 0, Ep0RxRes, Value::Stall as u32),
        (And, Uep0RxCtrl, 0, Ep0RxErdy, 1),
    ];
    list.append(&rows);
}

pub fn ep0_tx_clear(list: &mut OpList<'_>)
    requires { Room 1 list.old }
    ensures { Adds list.old ep0_tx_clear_ops list.new }
{
    list.append(&[(Write, Uep0TxCtrl, 0, All, 0)]);
}

pub fn ep0_rx_clear(list: &mut OpList<'_>)
    requires { Room 1 list.old }
    ensures { Adds list.old ep0_rx_clear_ops list.new }
{
    list.append(&[(Write, Uep0RxCtrl, 0, All, 0)]);
}

// What EP0 IN answers: DPH or NRDY.
pub fn ep0_tx_answer(list: &mut OpList<'_>, answer: Value)
    requires { Room 1 list.old }
    ensures { Adds list.old (ep0_tx_answer_ops (value_number answer)) list.new }
{
    list.append(&[(Write, Uep0TxCtrl, 0, Ep0TxRes, answer as u32)]);
}

// What EP0 OUT answers: NRDY.
pub fn ep0_rx_answer(list: &mut OpList<'_>, answer: Value)
    requires { Room 1 list.old }
    ensures { Adds list.old (ep0_rx_answer_ops (value_number answer)) list.new }
{
    list.append(&[(Write, Uep0RxCtrl, 0, Ep0RxRes, answer as u32)]);
}

// Acknowledges `UdifSetup` or `UdifStatus`.
pub fn status_ack(list: &mut OpList<'_>, flag: Field)
    requires { Room 1 list.old }
    ensures { Adds list.old (status_ack_ops flag) list.new }
{
    list.append(&[(Write, Status, 0, flag, 1)]);
}

// Acknowledges those of the other flags that were read as set.
pub fn status_others(list: &mut OpList<'_>, itp: bool, rx_ping: bool, txov: bool, rxov: bool)
    requires { Room 4 list.old }
    ensures { Adds list.old (status_others_ops itp rx_ping txov rxov) list.new }
{
    let rows = [
        (Write, Status, 0, UifItp, itp as u32),
        (And, Status, 0, UifRxPing, rx_ping as u32),
        (And, Status, 0, UifFifoTxov, txov as u32),
        (And, Status, 0, UifFifoRxov, rxov as u32),
    ];
    list.append(&rows);
}

pub fn set_address(list: &mut OpList<'_>, address: u32)
    requires { Room 1 list.old }
    ensures { Adds list.old (address_ops address) list.new }
{
    list.append(&[(Modify, UsbssCtrl, 0, DevAddr, address)]);
}
