// The registers of a data endpoint, 1 to 7.
#![tactic(auto)]

ghost use Rattle.std.specs.Prelude.{◌≡◌};
ghost use Rattle.ops.specs.Lists.{Room, Adds};
ghost use Rattle.regs_endpoint.specs.Endpoint.{bank_of, clear_ops, cfg_ops, configure_ops, abort_ops, abort_busy_ops, window_ops, halt_ops, enable_ops, chain_in_ops, chain_out_ops, chain_ack_ops};

use ops::Field::{self, *};
use ops::Kind::*;
use ops::OpList;
use ops::Register::{self, *};

// The registers of an endpoint's direction, and the field of its enable bit.
#[derive(Clone, Copy)]
pub struct Bank {
    pub cfg: Register,
    pub cr: Register,
    pub st: Register,
    pub chain_st: Register,
    pub en: Register,
    pub ep_en: Field,
}

fn bank_of(incoming: bool) -> Bank
    ensures { result ≡ bank_of incoming }
{
    if incoming {
        Bank {
            cfg: TxCfg,
            cr: TxCr,
            st: TxSt,
            chain_st: TxChainSt,
            en: UepTxEn,
            ep_en: EpTxEn,
        }
    } else {
        Bank {
            cfg: RxCfg,
            cr: RxCr,
            st: RxSt,
            chain_st: RxChainSt,
            en: UepRxEn,
            ep_en: EpRxEn,
        }
    }
}

// A clean endpoint: no chain, not halted, sequence and window at their start. A further write of `cr` directly behind it
// has no effect.
pub fn clear(list: &mut OpList<'_>, index: u32, incoming: bool)
    requires { Room 4 list.old }
    ensures { Adds list.old (clear_ops index incoming) list.new }
{
    let ep = bank_of(incoming);
    let rows = [
        (Write, ep.cr, index, Clr, 1),
        (And, ep.cr, index, ChainClr, 1),
        (Write, ep.st, index, IntFlag, 1),
        (Write, ep.chain_st, index, ChainIf, 1),
    ];
    list.append(&rows);
}

// The controller runs chains, ERDY and sequence numbers by itself.
fn write_cfg(list: &mut OpList<'_>, index: u32, incoming: bool, iso: bool)
    requires { Room 4 list.old }
    ensures { Adds list.old (cfg_ops index incoming iso) list.new }
{
    let ep = bank_of(incoming);
    let rows = [
        (Write, ep.cfg, index, ChainAuto, 1),
        (And, ep.cfg, index, ErdyAuto, 1),
        (And, ep.cfg, index, SeqAuto, 1),
        (And, ep.cfg, index, IsoMode, iso as u32),
    ];
    list.append(&rows);
}

// Sets an endpoint up, with nothing in hand.
pub fn configure(list: &mut OpList<'_>, index: u32, incoming: bool, iso: bool)
    requires { Room 8 list.old }
    ensures { Adds list.old (configure_ops index incoming iso) list.new }
{
    write_cfg(list, index, incoming, iso);
    clear(list, index, incoming);
}

// Ends the chain in hand and leaves the sequence number alone, so that host and endpoint still agree on it.
pub fn abort(list: &mut OpList<'_>, index: u32, incoming: bool)
    requires { Room 3 list.old }
    ensures { Adds list.old (abort_ops index incoming) list.new }
{
    let ep = bank_of(incoming);
    let rows = [
        (Modify, ep.cr, index, ChainClr, 1),
        (Write, ep.chain_st, index, ChainIf, 1),
        (Write, ep.st, index, ErdyReq, 1), // a host that waits asks again
    ];
    list.append(&rows);
}

// The same where there is a chain, and else nothing.
pub fn abort_busy(list: &mut OpList<'_>, index: u32, incoming: bool, busy: bool)
    requires { Room 3 list.old }
    ensures { Adds list.old (abort_busy_ops index incoming busy) list.new }
{
    if busy {
        abort(list, index, incoming);
    }
}

// The window of an OUT endpoint: one more than the packets that may be sent ahead of their ACK.
pub fn set_out_window(list: &mut OpList<'_>, index: u32, nump: u32)
    requires { Room 1 list.old }
    ensures { Adds list.old (window_ops index nump) list.new }
{
    list.append(&[(ModifyIfDiffers, RxCr, index, ErdyNump, nump)]);
}

// Has the endpoint answer STALL.
pub fn halt(list: &mut OpList<'_>, index: u32, incoming: bool)
    requires { Room 2 list.old }
    ensures { Adds list.old (halt_ops index incoming) list.new }
{
    let ep = bank_of(incoming);
    let rows = [
        (Modify, ep.cr, index, Halt, 1),
        (Write, ep.st, index, ErdyReq, 1), // has a waiting host ask again, and find the STALL
    ];
    list.append(&rows);
}

// Each direction has one register with a bit for each endpoint.
pub fn set_enabled(list: &mut OpList<'_>, index: u32, incoming: bool, enabled: bool)
    requires { Room 1 list.old }
    ensures { Adds list.old (enable_ops index incoming enabled) list.new }
{
    let ep = bank_of(incoming);
    list.append(&[(Modify, ep.en, index, ep.ep_en, enabled as u32)]);
}

// Hands an IN chain over: `packets` packets from `dma` on, the last of `last` bytes.
pub fn chain_in(list: &mut OpList<'_>, index: u32, dma: u32, mps: u32, last: u32, packets: u32)
    requires { Room 5 list.old }
    ensures { Adds list.old (chain_in_ops index dma mps last packets) list.new }
{
    let rows = [
        (Write, TxDma, index, All, dma),
        (Write, TxDmaOfs, index, All, mps),
        (Write, TxChainLen, index, Len, last),
        (Write, TxChainExpNump, index, All, packets),
        (Write, TxChainSt, index, ChainIf, 1),
    ];
    list.append(&rows);
}

// Hands an OUT chain over: room for `packets` packets from `dma` on.
pub fn chain_out(list: &mut OpList<'_>, index: u32, dma: u32, mps: u32, packets: u32)
    requires { Room 4 list.old }
    ensures { Adds list.old (chain_out_ops index dma mps packets) list.new }
{
    let rows = [
        (Write, RxDma, index, All, dma),
        (Write, RxDmaOfs, index, All, mps),
        (Write, RxChainMaxNump, index, All, packets),
        (Write, RxChainSt, index, ChainIf, 1),
    ];
    list.append(&rows);
}

// Acknowledges the end of a chain.
pub fn chain_ack(list: &mut OpList<'_>, index: u32, incoming: bool)
    requires { Room 1 list.old }
    ensures { Adds list.old (chain_ack_ops index incoming) list.new }
{
    let ep = bank_of(incoming);
    list.append(&[(Write, ep.chain_st, index, ChainIf, 1)]);
}
