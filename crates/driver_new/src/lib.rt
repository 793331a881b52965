// Making a driver (reference: `Driver::new` of device.rs).
#![tactic(auto)]

ghost use Rattle.std.specs.Prelude.{◌≡◌};
ghost use Rattle.state.specs.Numbers.{check_number};
ghost use Rattle.driver_new.specs.New.{up4, capacity_of, new_check, empty_driver, no_driver, new_result};

use state::refusals::refuse_if;
use state::{Driver, EP0_SIZE, Refusal};
use state_sound::in_ram;

// The next multiple of 4, `n` itself if it is one.
pub fn up4_of(n: u32) -> u64
    ensures { result ≡ up4 n }
{
    (n as u64).next_multiple_of(4)
}

// What is left of the memory once its start is aligned.
fn capacity_of(address: u32, length: u32) -> u32
    ensures { result ≡ capacity_of address length }
{
    let gap = up4_of(address) - (address as u64);
    length.saturating_sub(gap as u32)
}

#[tactic(auto, unfolding(crate::specs::New::new_check))]
fn new_check(address: u32, length: u32) -> Result<(), Refusal>
    ensures { result ≡ new_check address length }
{
    refuse_if(!in_ram(address, length), Refusal::MemoryOutsideRam)?;
    let small = capacity_of(address, length) < EP0_SIZE;
    refuse_if(small, Refusal::MemoryTooSmall)
}

// A driver that has no endpoints.
fn empty(memory: u32, capacity: u32, used: u32) -> Driver
    ensures { result ≡ empty_driver memory capacity used }
{
    Driver {
        memory,
        capacity,
        used,
        endpoints: [None; 16],
    }
}

// A driver without memory, which every call refuses.
pub fn no_driver() -> Driver
    ensures { result ≡ no_driver }
{
    empty(0, 0, 0)
}

// A driver whose memory is the `length` bytes from `address` on.
#[tactic(auto, using(crate::specs::NewLaws::new_start), unfolding(crate::specs::New::new_result, state_call::specs::Outcome::or_else))]
pub fn new(address: u32, length: u32) -> Result<Driver, Refusal>
    ensures result { result ≡ new_result address length }
    ensures number { check_number result ≡ check_number (new_check address length) }
{
    new_check(address, length)?;
    let memory = up4_of(address) as u32;
    Ok(empty(memory, capacity_of(address, length), EP0_SIZE))
}
