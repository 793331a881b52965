// The registers of the link layer, and a write to the PHY.
#![tactic(auto)]

ghost use Rattle.ops.specs.Lists.{Room, Adds};
ghost use Rattle.regs_link.specs.Link.{phy_write_ops, link_power_allow_ops, tx_port_cap_ops, tx_cap_vld_ops, tx_port_cfg_res_ops, link_ack_ops, go_disabled_ops, go_rx_det_ops, ux_exit_ops, hot_reset_done_ops, u2_timer_ops, delay_ops};

use ops::Field::{self, *};
use ops::Kind::*;
use ops::OpList;
use ops::Register::*;

// Words of the link management packets that are sent.
const LMP_PORT_CAP: u32 = 0x4 << 5;

const LMP_PORT_CFG_RES: u32 = 0x6 << 5;

const LMP_LINK_SPEED: u32 = 1 << 9;

const NUM_HP_BUF: u32 = 4;

const UP_STREAM: u32 = 2 << 16;

// The hot reset bit of `link_tx_ts_cfg`.
const LINK_HOT_RESET: u32 = 1;

pub fn phy_write(list: &mut OpList<'_>, addr: u32, value: u32)
    requires { Room 4 list.old }
    ensures { Adds list.old (phy_write_ops addr value) list.new }
{
    let rows = [
        (Write, PhyCfgCr, 0, PhyCfgData, value),
        (And, PhyCfgCr, 0, PhyCfgAddr, addr),
        (And, PhyCfgCr, 0, PhyCfgWrite, 1),
        (Write, PhyCfgDat, 0, PhyCfgData, 1),
    ];
    list.append(&rows);
}

// Whether the host's requests to enter U1 and U2 (LGO_U1, LGO_U2) are accepted.
pub fn link_power_allow(list: &mut OpList<'_>, allow: bool)
    requires { Room 2 list.old }
    ensures { Adds list.old (link_power_allow_ops allow) list.new }
{
    let rows = [
        (Modify, LinkCfg, 0, LinkU1Allow, allow as u32),
        (And, LinkCfg, 0, LinkU2Allow, allow as u32),
    ];
    list.append(&rows);
}

pub fn tx_port_cap(list: &mut OpList<'_>)
    requires { Room 3 list.old }
    ensures { Adds list.old tx_port_cap_ops list.new }
{
    let rows = [
        (Write, LinkLmpTxData, 0, All, LMP_LINK_SPEED | LMP_PORT_CAP),
        (Write, LinkLmpTxData, 1, All, UP_STREAM | NUM_HP_BUF),
        (Write, LinkLmpTxData, 2, All, 0),
    ];
    list.append(&rows);
}

pub fn tx_cap_vld(list: &mut OpList<'_>)
    requires { Room 1 list.old }
    ensures { Adds list.old tx_cap_vld_ops list.new }
{
    list.append(&[(Modify, LinkLmpPortCap, 0, LinkLmpTxCapVld, 1)]);
}

pub fn tx_port_cfg_res(list: &mut OpList<'_>)
    requires { Room 4 list.old }
    ensures { Adds list.old tx_port_cfg_res_ops list.new }
{
    let rows = [
        (
            Write,
            LinkLmpTxData,
            0,
            All,
            LMP_LINK_SPEED | LMP_PORT_CFG_RES,
        ),
        (Write, LinkLmpTxData, 1, All, 0),
        (Write, LinkLmpTxData, 2, All, 0),
        (Modify, LinkLmpPortCap, 0, LinkLmpTxCapVld, 1),
    ];
    list.append(&rows);
}

// Acknowledges one of the seven flags of `link_int_flag`.
pub fn link_ack(list: &mut OpList<'_>, flag: Field)
    requires { Room 1 list.old }
    ensures { Adds list.old (link_ack_ops flag) list.new }
{
    list.append(&[(Write, LinkIntFlag, 0, flag, 1)]);
}

pub fn go_disabled(list: &mut OpList<'_>, on: bool)
    requires { Room 1 list.old }
    ensures { Adds list.old (go_disabled_ops on) list.new }
{
    list.append(&[(Modify, LinkCtrl, 0, LinkGoDisabled, on as u32)]);
}

pub fn go_rx_det(list: &mut OpList<'_>)
    requires { Room 1 list.old }
    ensures { Adds list.old go_rx_det_ops list.new }
{
    list.append(&[(Modify, LinkCtrl, 0, LinkGoRxDet, 1)]);
}

// Has the link leave U1, U2 or U3.
pub fn ux_exit(list: &mut OpList<'_>)
    requires { Room 1 list.old }
    ensures { Adds list.old ux_exit_ops list.new }
{
    list.append(&[(Modify, LinkCtrl, 0, LinkTxUxExit, 1)]);
}

// Ends the handshake of a hot reset.
pub fn hot_reset_done(list: &mut OpList<'_>)
    requires { Room 1 list.old }
    ensures { Adds list.old hot_reset_done_ops list.new }
{
    let rows = [(ClearBits, LinkCtrl, 0, LinkTxTsCfg, LINK_HOT_RESET)];
    list.append(&rows);
}

pub fn u2_timer(list: &mut OpList<'_>, timeout: u32)
    requires { Room 1 list.old }
    ensures { Adds list.old (u2_timer_ops timeout) list.new }
{
    let rows = [(Write, LinkU2InactTimer, 0, U2InactiveTimer, timeout)];
    list.append(&rows);
}

pub fn delay_cycles(list: &mut OpList<'_>, count: u32)
    requires { Room 1 list.old }
    ensures { Adds list.old (delay_ops count) list.new }
{
    list.append(&[(Wait, Delay, 0, Cycles, count)]);
}
