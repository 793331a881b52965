// When a refusal is given.
use state::Refusal;

pub fn reason(refusal: Refusal) -> &'static str {
    match refusal {
        Refusal::MemoryOutsideRam => "a driver's memory isn't wholly in RAM",
        Refusal::MemoryTooSmall => {
            "too little of that memory is left for endpoint 0's buffer, once its start is rounded up to a multiple of 4"
        }
        Refusal::UnfitPacketSize => {
            "an endpoint is to be a control endpoint; a bulk one's packets aren't to have 1024 bytes; or an interrupt \
             or isochronous one's aren't to have 1 to 1024, or its interval is 0"
        }
        Refusal::UnfitBurst => "an endpoint's burst is above 15, or its streams or mult aren't 0",
        Refusal::WrongDirection => "the address that is asked for has the other direction",
        Refusal::ControlPacketSize => "the packet size that is given for endpoint 0 isn't its own",
        Refusal::NoDataEndpoint => "the endpoint isn't one of 1 to 7",
        Refusal::UnfitBuffer => {
            "what a transfer is to move isn't in RAM, isn't at a multiple of 4, or, of OUT, isn't one whole packet or \
             several; or the endpoint's own buffer, or endpoint 0's, is lent with another length or address than the \
             state has for it"
        }
        Refusal::TooLong => {
            "more bytes are to be sent than a packet (where one packet is asked for) or endpoint 0's buffer has; or \
             more have come than there is room for"
        }
        Refusal::ListTooShort => "the list that is lent has fewer numbers than it has to have",
        Refusal::OutOfRange => {
            "a number that was read is above its range: revision 15, endpoint 0's length its buffer's, sequence 31, \
             endpoint 15, packets 255, last length 65535; or what is raised isn't one of the four events"
        }
        Refusal::NoFreeEndpoint => {
            "none of 1 to 7 is free in that direction, or not the one that is asked for"
        }
        Refusal::NoRoom => "the endpoint's own buffer would end beyond the driver's memory",
        Refusal::Disabled => {
            "of a begin, the device is off, or the endpoint is disabled or stalled; of a take, nothing is in hand; of \
             a stage of endpoint 0, the device is off or the generation is an old one; of `power_on`, nothing was \
             started yet"
        }
        Refusal::InHand => "the endpoint has a transfer that is busy, or done and not taken",
        Refusal::OutOfTurn => {
            "an interrupt awaits a reading; of `answer`, it awaits another one or none"
        }
        Refusal::NotSuspended => "the device is off, or the host hasn't suspended it",
        Refusal::Unsound => {
            "the state, the pending events or the driver breaks a clause of `crates/state_sound/specs/Clauses.antt`; \
             what the functions leave of sound ones breaks none"
        }
    }
}
