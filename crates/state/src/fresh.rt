// The state before anything was done.
ghost use Rattle.std.specs.Prelude.{◌≡◌};
ghost use Rattle.state.specs.Fresh.{fresh_slot, nothing_awaited, fresh_state};

use super::{Awaited, Slot, State};

// A slot that nothing was done to.
pub fn fresh_slot() -> Slot
    ensures { result ≡ fresh_slot }
{
    Slot::default()
}

// Nothing is awaited, nothing remembered.
pub fn nothing_awaited() -> Awaited
    ensures { result ≡ nothing_awaited }
{
    Awaited::default()
}

// The state before the first start.
pub fn fresh() -> State
    ensures { result ≡ fresh_state }
{
    State {
        endpoints: [fresh_slot(); 16],
        ep0_address: 0,
        powered: false,
        suspended: false,
        wake: 0,
        setup: None,
        control_generation: 0,
        in_last: false,
        tx_seq: 0,
        address: None,
        revision: 0,
        reset_seen: false,
        low_power: false,
        awaited: nothing_awaited(),
    }
}
