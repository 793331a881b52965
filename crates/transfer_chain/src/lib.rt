// Chains: the packets of a transfer that the controller gets at a time (reference: `chain_packets`, `queue` and
// `data_irq` of device.rs).
#![tactic(auto)]

ghost use Rattle.std.specs.Prelude.{◌≡◌, ◌≤◌, true};
ghost use Rattle.ops.specs.Lists.{Room, Adds};
ghost use Rattle.transfer_chain.specs.Chains.{chain_packets, left, place, in_chain, out_chain, sent, arrived, in_goes_on, out_goes_on, queued_slot, queue_ops};

use base::div_ceil;
use ops::OpList;
use regs_endpoint::{chain_in, chain_out};
use state::{EndpointAddress, Slot, Transfer};
use state_slots::{own_buffer, slot_size};

// How many packets a chain may have.
pub const CHAIN_PACKETS: u8 = 255;

// Packets from `dma` on: those of IN send `bytes`, the last packet `last` of them, and bring the transfer to `progress`.
#[derive(Clone, Copy)]
pub struct Chain {
    pub dma: u32,
    pub packets: u32,
    pub bytes: u32,
    pub last: u32,
    pub progress: u32,
}

// What the controller tells of an OUT chain: how many packets came, and of how many bytes the last one was.
#[derive(Clone, Copy)]
pub struct Report {
    pub packets: u32,
    pub last: u32,
}

// The bytes that remain.
fn left(transfer: Transfer) -> u32
    ensures { result ≡ left transfer }
{
    transfer.length.saturating_sub(transfer.progress)
}

// Where the transfer has come to.
fn place(transfer: Transfer) -> u32
    ensures { result ≡ place transfer }
{
    transfer.address.wrapping_add(transfer.progress)
}

// How many packets of m bytes the next chain has, with so many bytes left.
#[tactic(auto, unfolding(crate::specs::Chains::chain_packets))]
pub fn chain_packets(limit: u8, m: u16, bytes: u32) -> u32
    ensures packets { result ≡ chain_packets limit m bytes }
    ensures few { result ≤ limit }
{
    div_ceil(bytes, m as u32).max(1).min(limit as u32)
}

// The next chain of an IN transfer. An empty packet comes from the endpoint's own buffer.
#[tactic(auto, using(crate::specs::ChainsLaws::product_fits), unfolding(crate::specs::Chains::chain_bytes))]
pub fn in_chain(limit: u8, m: u16, own: u32, transfer: Transfer) -> Chain
    ensures { result ≡ in_chain limit m own transfer }
{
    let rest = left(transfer);
    let packets = chain_packets(limit, m, rest);
    let bytes = rest.min(packets * (m as u32));
    let before = packets.saturating_sub(1) * (m as u32);
    Chain {
        dma: if bytes == 0 { own } else { place(transfer) },
        packets,
        bytes,
        last: bytes.saturating_sub(before),
        progress: transfer.progress + bytes,
    }
}

// The next chain of an OUT transfer: room for whole packets.
pub fn out_chain(limit: u8, m: u16, transfer: Transfer) -> Chain
    ensures { result ≡ out_chain limit m transfer }
{
    Chain {
        dma: place(transfer),
        packets: chain_packets(limit, m, left(transfer)),
        bytes: 0,
        last: 0,
        progress: transfer.progress,
    }
}

// An IN transfer with a chain handed over. The chain without bytes is the empty packet that was due.
fn after_chain(transfer: Transfer, chain: Chain) -> Transfer
    ensures { result ≡ sent transfer chain }
{
    Transfer {
        progress: chain.progress,
        zlp: transfer.zlp & (chain.bytes != 0),
        ..transfer
    }
}

// An OUT transfer after a report of its chain. It never passes its length.
#[tactic(auto, using(crate::specs::ChainsLaws::product_fits))]
pub fn after_report(limit: u8, m: u16, transfer: Transfer, report: Report) -> Transfer
    ensures { result ≡ arrived limit m transfer report.packets report.last }
{
    let rest = left(transfer);
    let expected = chain_packets(limit, m, rest);
    let held = expected.min(report.packets.max(1));
    let before = held.saturating_sub(1) * (m as u32);
    let received = (before + report.last.min(m as u32)).min(rest);
    Transfer {
        progress: transfer.progress + received,
        ..transfer
    }
}

// Whether a report of an IN chain is followed by another chain.
pub fn in_goes_on(transfer: Transfer) -> bool
    ensures { result ≡ in_goes_on transfer }
{
    (transfer.progress < transfer.length) | transfer.zlp
}

// The same of OUT, once the report is counted.
pub fn out_goes_on(m: u16, transfer: Transfer, last: u32) -> bool
    ensures { result ≡ out_goes_on m transfer last }
{
    ((m as u32) <= last) & (transfer.progress < transfer.length)
}

// Hands the next chain of a slot's transfer over.
pub fn queue(list: &mut OpList<'_>, limit: u8, endpoint: EndpointAddress, slot: &mut Slot)
    requires { Room 5 list.old }
    ensures slot { slot.new ≡ queued_slot limit endpoint.incoming slot.old }
    ensures list { Adds list.old (queue_ops limit endpoint.index endpoint.incoming slot.old) list.new }
{
    let e = endpoint.index as u32;
    if endpoint.incoming {
        queue_in(list, limit, e, slot);
        return;
    }
    let m = slot_size(*slot);
    let chain = out_chain(limit, m, slot.transfer);
    chain_out(list, e, chain.dma, m as u32, chain.packets);
}

fn queue_in(list: &mut OpList<'_>, limit: u8, e: u32, slot: &mut Slot)
    requires { Room 5 list.old }
    ensures slot { slot.new ≡ queued_slot limit true slot.old }
    ensures list { Adds list.old (queue_ops limit e true slot.old) list.new }
{
    let m = slot_size(*slot);
    let own = own_buffer(*slot);
    let chain = in_chain(limit, m, own.address, slot.transfer);
    slot.transfer = after_chain(slot.transfer, chain);
    chain_in(list, e, chain.dma, m as u32, chain.last, chain.packets);
}
