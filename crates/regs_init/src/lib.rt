// The link layer and the PHY from reset on.
#![tactic(auto)]

ghost use Rattle.ops.specs.Lists.{Room, Adds};
ghost use Rattle.regs_init.specs.Init.{phy_unnamed_ops, phy_tuning_ops, link_up_ops, init_ops};

use ops::Field::*;
use ops::Kind::*;
use ops::Register::*;
use ops::{OpList, Value};

fn phy_unnamed(list: &mut OpList<'_>)
    requires { Room 1 list.old }
    ensures { Adds list.old phy_unnamed_ops list.new }
{
    list.append(&[(Write, Unnamed5003C018, 0, All, 0xB005_4000)]);
}

// Has to follow the release of `link_phy_reset`. After a cold boot earlier writes are lost, and Recovery is entered
// again and again.
pub fn phy_tuning(list: &mut OpList<'_>)
    requires { Room 21 list.old }
    ensures { Adds list.old phy_tuning_ops list.new }
{
    regs_link::phy_write(list, 0x03, 0x7c12);
    regs_link::phy_write(list, 0x0d, 0x79aa);
    regs_link::phy_write(list, 0x15, 0x4430);
    regs_link::phy_write(list, 0x13, 0x0010);
    regs_link::phy_write(list, 0x11, 0x0501);
    phy_unnamed(list);
}

// In four parts: the compiler makes constants of so many rows, and a loop of more.
fn link_up(list: &mut OpList<'_>, revision: u32)
    requires { Room 23 list.old }
    ensures { Adds list.old (link_up_ops revision) list.new }
{
    let held = [
        (Write, LinkCfg, 0, LinkRxEqEn, 1),
        (And, LinkCfg, 0, LinkTxDeemph, Value::Db3_5 as u32),
        (And, LinkCfg, 0, LinkPhyReset, 1),
        (Write, LinkCtrl, 0, LinkPdMode, Value::P2 as u32),
        (And, LinkCtrl, 0, LinkGoDisabled, 1),
    ];
    let running = [
        (Write, LinkCfg, 0, LinkRxEqEn, 1),
        (And, LinkCfg, 0, LinkTxDeemph, Value::Db3_5 as u32),
        (And, LinkCfg, 0, LinkLtssmMode, 1),
        (And, LinkCfg, 0, LinkToutMode, 1),
        (Modify, LinkLpmCr, 0, LpmEn, 1),
        (Modify, LinkCfg, 0, LinkRxTermEn, 1),
    ];
    let interrupts = [
        (Write, LinkIntCtrl, 0, LinkIeTxLmp, 1),
        (And, LinkIntCtrl, 0, LinkIeRxLmp, 1),
        (And, LinkIntCtrl, 0, LinkIeRxLmpTout, 1),
        (And, LinkIntCtrl, 0, LinkIeStateChg, 1),
        (And, LinkIntCtrl, 0, LinkIeWarmRst, 1),
        (And, LinkIntCtrl, 0, LinkIeTermPres, 1),
        (And, LinkIntCtrl, 0, LinkIeRxSetFc, (3 <= revision) as u32),
    ];
    let timers = [
        (Write, LinkCtrl, 0, LinkPdMode, Value::P2 as u32),
        (Write, LinkU1WkupTmr, 0, U1WkupTmr, 120),
        (Write, LinkU1WkupFilter, 0, U1WkupFilter, 50),
        (Write, LinkU2WkupFilter, 0, U2WkupFilter, 0),
        (Write, LinkU3WkupFilter, 0, U3WkupFilter, 0),
    ];
    list.append(&held);
    list.append(&running);
    list.append(&interrupts);
    list.append(&timers);
}

// The link layer of a device from reset on, then the PHY.
pub fn init(list: &mut OpList<'_>, revision: u32)
    requires { Room 44 list.old }
    ensures { Adds list.old (init_ops revision) list.new }
{
    link_up(list, revision);
    phy_tuning(list);
}
