// Whether a state is sound (refusal 26). Each call that gets one asks it.
#![tactic(auto)]

ghost use Rattle.std.specs.Prelude.{◌≡◌, Some};
ghost use Rattle.state_sound.specs.Clauses.{in_ram, aligned, multiple, whole_packets, address_fits};
ghost use Rattle.state_sound.specs.Sound.{soundb, configb, outb, busy_clausesb, slotb, awaitedb, ownb};

use state::readings::{is_awaiting, is_chain_reading};
use state::{Awaited, EP0_SIZE, EndpointConfig, Events, Slot, State};
use state_slots::{is_busy, is_data_endpoint, is_idle, slot_number, slot_size};

// Whether all of it lies in RAM. The sum is taken in 64 bits, so that it can't wrap.
pub fn in_ram(address: u32, length: u32) -> bool
    ensures { result ≡ in_ram address length }
{
    let end = (address as u64) + (length as u64);
    (0x200A0000 <= address) & (end <= 0x20180000)
}

pub fn is_aligned(address: u32) -> bool
    ensures { result ≡ aligned address }
{
    address % 4 == 0
}

// A multiple of m, which isn't 0.
pub fn is_multiple(n: u32, m: u32) -> bool
    ensures { result ≡ multiple n m }
{
    0 < m && n % m == 0
}

// A buffer of whole packets of m bytes, one at least. No division where it holds one packet, or one burst.
fn whole_packets(size: u32, m: u16, burst: u8) -> bool
    ensures { result ≡ whole_packets size m }
{
    let n = m as u32;
    if size == n {
        return 0 < n;
    }
    let most = (burst as u32 + 1) * n;
    if size == most {
        return 0 < n;
    }
    0 < size && is_multiple(size, n)
}

// A configuration of slot i.
pub fn config_fits(i: usize, config: EndpointConfig) -> bool
    ensures { result ≡ configb i (Some config) }
{
    if slot_number(config.endpoint) != i {
        return false;
    }
    let m = config.max_packet_size;
    let buffer = config.buffer;
    let inside = in_ram(buffer.address, buffer.size);
    let even = is_aligned(buffer.address);
    if ((1 <= m) & (m <= 1024)) & (inside & even) {
        return whole_packets(buffer.size, m, config.max_burst);
    }
    false
}

// A busy OUT transfer ends at whole packets and has some to come.
#[tactic(auto, unfolding(crate::specs::Sound::outb))]
fn out_sound(progress: u32, length: u32, m: u32) -> bool
    ensures { result ≡ outb progress length m }
{
    let room = is_multiple(length, m);
    let received = is_multiple(progress, m);
    ((0 < length) & room) & (!(progress == length) & received)
}

fn busy_sound(i: usize, x: Slot) -> bool
    ensures { result ≡ busy_clausesb i x }
{
    let t = x.transfer;
    let inside = in_ram(t.address, t.length);
    let even = is_aligned(t.address);
    if i % 2 == 1 {
        return inside & even;
    }
    let out = out_sound(t.progress, t.length, slot_size(x) as u32);
    inside & (even & out)
}

// A slot: only an enabled one that isn't stalled has a transfer, and only while powered. The commonest kind, configured
// and idle, is out of it first.
fn slot_sound(powered: bool, i: usize, x: Slot) -> bool
    ensures { result ≡ slotb powered i x }
{
    let idle = is_idle(x.phase);
    let Some(config) = x.config else {
        if i < 2 {
            return true;
        }
        return (idle & !x.enabled) & (x.transfer.progress <= x.transfer.length);
    };
    if !config_fits(i, config) {
        return false;
    }
    if i < 2 {
        return true;
    }
    if x.transfer.length < x.transfer.progress {
        return false;
    }
    if idle {
        return true;
    }
    if (powered & x.enabled) & !x.stalled {
        if is_busy(x.phase) {
            return busy_sound(i, x);
        }
        return true;
    }
    false
}

// The reading that an interrupt awaits.
#[tactic(auto, unfolding(crate::specs::Sound::awaitedb))]
fn awaited_sound(powered: bool, awaited: Awaited) -> bool
    ensures { result ≡ awaitedb powered awaited }
{
    let awaiting = is_awaiting(awaited.next);
    let chain = is_chain_reading(awaited.next);
    (!awaiting | powered) & (!chain | is_data_endpoint(awaited.endpoint))
}

// The device address that waits has 7 bits.
fn address_fits(address: Option<u8>) -> bool
    ensures { result ≡ address_fits address }
{
    address.is_none_or(|address| address <= 127)
}

// The state apart from its slots.
#[tactic(auto, unfolding(crate::specs::Sound::ownb, crate::specs::Sound::awaitedb))]
fn own_sound(state: State, events: Events) -> bool
    ensures { result ≡ ownb state events }
{
    let inside = in_ram(state.ep0_address, EP0_SIZE);
    let apart = state_events::events_sound(events);
    let asked = awaited_sound(state.powered, state.awaited);
    let fits = address_fits(state.address);
    ((state.ep0_address == 0) | inside) & (apart & (fits & ((state.tx_seq <= 31) & asked)))
}

pub fn sound(state: State, events: Events) -> bool
    ensures { result ≡ soundb state events }
{
    own_sound(state, events)
        && state
            .endpoints
            .iter()
            .enumerate()
            .all(|(i, slot)| slot_sound(state.powered, i, *slot))
}
