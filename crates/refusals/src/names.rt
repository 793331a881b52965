// The names that refusals and functions have in the code.
use state::Refusal;
use tool_refusals::Function;

pub fn refusal_name(refusal: Refusal) -> &'static str {
    match refusal {
        Refusal::MemoryOutsideRam => "MemoryOutsideRam",
        Refusal::MemoryTooSmall => "MemoryTooSmall",
        Refusal::UnfitPacketSize => "UnfitPacketSize",
        Refusal::UnfitBurst => "UnfitBurst",
        Refusal::WrongDirection => "WrongDirection",
        Refusal::ControlPacketSize => "ControlPacketSize",
        Refusal::NoDataEndpoint => "NoDataEndpoint",
        Refusal::UnfitBuffer => "UnfitBuffer",
        Refusal::TooLong => "TooLong",
        Refusal::ListTooShort => "ListTooShort",
        Refusal::OutOfRange => "OutOfRange",
        Refusal::NoFreeEndpoint => "NoFreeEndpoint",
        Refusal::NoRoom => "NoRoom",
        Refusal::Disabled => "Disabled",
        Refusal::InHand => "InHand",
        Refusal::OutOfTurn => "OutOfTurn",
        Refusal::NotSuspended => "NotSuspended",
        Refusal::Unsound => "Unsound",
    }
}

pub fn function_name(function: Function) -> &'static str {
    match function {
        Function::New => "new",
        Function::Allocate => "allocate",
        Function::Start => "start",
        Function::PowerOn => "power_on",
        Function::PowerOff => "power_off",
        Function::Wakeup => "wakeup",
        Function::EndpointSetEnabled => "endpoint_set_enabled",
        Function::EndpointSetStalled => "endpoint_set_stalled",
        Function::IsEnabled => "is_enabled",
        Function::IsStalled => "is_stalled",
        Function::Raise => "raise",
        Function::Poll => "poll",
        Function::Begin => "begin",
        Function::Take => "take",
        Function::Abandon => "abandon",
        Function::Send => "send",
        Function::Sent => "sent",
        Function::Receive => "receive",
        Function::Received => "received",
        Function::Setup => "setup",
        Function::DataOut => "data_out",
        Function::DataIn => "data_in",
        Function::TakeOut => "take_out",
        Function::TakeIn => "take_in",
        Function::Accept => "accept",
        Function::AcceptAddress => "accept_address",
        Function::Reject => "reject",
        Function::Interrupt => "interrupt",
        Function::Answer => "answer",
    }
}
