// Whether a driver is sound (refusal 26).
#![tactic(auto)]

ghost use Rattle.std.specs.Prelude.{◌≡◌};
ghost use Rattle.state_sound.specs.Sound.{driver_soundb, configb, memoryb, allocationsb};

use state::{Driver, EP0_SIZE, EndpointConfig};
use state_sound::{config_fits, in_ram, is_aligned};

// Whether what is allocated for slot i fits it.
#[tactic(auto, unfolding(state_sound::specs::Sound::configb))]
fn allocation_sound(i: usize, allocation: Option<EndpointConfig>) -> bool
    ensures { result ≡ configb i allocation }
{
    allocation.is_none_or(|config| config_fits(i, config))
}

fn allocations_sound(driver: Driver) -> bool
    ensures { result ≡ allocationsb driver 16 }
{
    driver
        .endpoints
        .iter()
        .enumerate()
        .all(|(i, allocation)| allocation_sound(i, *allocation))
}

#[tactic(auto, unfolding(state_sound::specs::Sound::memoryb))]
fn memory_sound(memory: u32, capacity: u32, used: u32) -> bool
    ensures { result ≡ memoryb memory capacity used }
{
    in_ram(memory, capacity)
        && EP0_SIZE <= capacity
        && is_aligned(memory)
        && EP0_SIZE <= used
        && used <= capacity
}

pub fn driver_sound(driver: Driver) -> bool
    ensures { result ≡ driver_soundb driver }
{
    allocations_sound(driver) && memory_sound(driver.memory, driver.capacity, driver.used)
}
