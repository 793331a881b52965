// Prints the register operations of power-on, a record a line, registers and fields by name.
#![tactic(auto)]

use state::Events;

// Silicon revision 3, EP0 at the start of RAM.
fn main(rt: HostRuntime) {
    let mut list = [0u32; 640];
    let driver = usbss::new(0x200A_0000, 512).unwrap_or(driver_new::no_driver());
    let fresh = state::fresh::fresh();
    let started = usbss::start(fresh, Events { events: 0 }, driver, 512);
    let on = usbss::power_on(&mut list, started.state, started.events, 3);
    tool_print::header(&rt);
    tool_print::operations(&rt, &list, on.end);
}
