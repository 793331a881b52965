// The refusals and the functions of the driver, and what each function tests for, in which sequence. The program `refusals`
// prints them.
#![tactic(auto)]

ghost use Rattle.std.specs.Prelude.{◌≡◌, ◌++◌, length, map};
ghost use Rattle.state.specs.Numbers.{refusal_number};
ghost use Rattle.tool_refusals.specs.Tested.{Everything, Tests, all_numbers};

use state::Refusal;
use state::Refusal::*;

// The functions of the crate `usbss`.
#[derive(Clone, Copy, PartialEq, Eq)]
pub enum Function {
    New,
    Allocate,
    Start,
    PowerOn,
    PowerOff,
    Wakeup,
    EndpointSetEnabled,
    EndpointSetStalled,
    IsEnabled,
    IsStalled,
    Raise,
    Poll,
    Begin,
    Take,
    Abandon,
    Send,
    Sent,
    Receive,
    Received,
    Setup,
    DataOut,
    DataIn,
    TakeOut,
    TakeIn,
    Accept,
    AcceptAddress,
    Reject,
    Interrupt,
    Answer,
}

const FUNCTIONS: [Function; 29] = [
    Function::New,
    Function::Allocate,
    Function::Start,
    Function::PowerOn,
    Function::PowerOff,
    Function::Wakeup,
    Function::EndpointSetEnabled,
    Function::EndpointSetStalled,
    Function::IsEnabled,
    Function::IsStalled,
    Function::Raise,
    Function::Poll,
    Function::Begin,
    Function::Take,
    Function::Abandon,
    Function::Send,
    Function::Sent,
    Function::Receive,
    Function::Received,
    Function::Setup,
    Function::DataOut,
    Function::DataIn,
    Function::TakeOut,
    Function::TakeIn,
    Function::Accept,
    Function::AcceptAddress,
    Function::Reject,
    Function::Interrupt,
    Function::Answer,
];

const REFUSALS: [Refusal; 18] = [
    MemoryOutsideRam,
    MemoryTooSmall,
    UnfitPacketSize,
    UnfitBurst,
    WrongDirection,
    ControlPacketSize,
    NoDataEndpoint,
    UnfitBuffer,
    TooLong,
    ListTooShort,
    OutOfRange,
    NoFreeEndpoint,
    NoRoom,
    Disabled,
    InHand,
    OutOfTurn,
    NotSuspended,
    Unsound,
];

// What comes first: of a function that is lent a list, and of one that isn't.
const LENT: [Refusal; 3] = [ListTooShort, Unsound, OutOfTurn];

const UNLENT: [Refusal; 2] = [Unsound, OutOfTurn];

const ALLOCATE: [Refusal; 5] = [
    UnfitPacketSize,
    UnfitBurst,
    WrongDirection,
    NoFreeEndpoint,
    NoRoom,
];

// Every function, each once.
pub fn functions() -> &'static [Function]
    ensures every { Everything result.now }
    ensures once { length result.now ≡ 29 }
{
    &FUNCTIONS
}

// Every refusal, by its number.
pub fn numbered() -> &'static [Refusal]
    ensures every { Everything result.now }
    ensures numbers { map refusal_number result.now ≡ all_numbers }
{
    &REFUSALS
}

// What a function tests for, in its sequence: first what it shares with others, and then its own. What it never gives,
// whatever it is called with, isn't among them.
pub fn tests(function: Function) -> (&'static [Refusal], &'static [Refusal])
    ensures { Tests function (result.0.now ++ result.1.now) }
{
    match function {
        Function::New => (&[], &[MemoryOutsideRam, MemoryTooSmall]),
        Function::Allocate => (&[Unsound], &ALLOCATE),
        Function::Start => (&UNLENT, &[ControlPacketSize]),
        Function::PowerOn => (&LENT, &[OutOfRange, Disabled]),
        Function::PowerOff => (&LENT, &[]),
        Function::Wakeup => (&LENT, &[NotSuspended]),
        Function::EndpointSetEnabled => (&LENT, &[]),
        Function::EndpointSetStalled => (&LENT, &[]),
        Function::IsEnabled => (&UNLENT, &[]),
        Function::IsStalled => (&UNLENT, &[]),
        Function::Raise => (&UNLENT, &[OutOfRange]),
        Function::Poll => (&UNLENT, &[]),
        Function::Begin => (&LENT, &[NoDataEndpoint, Disabled, InHand, UnfitBuffer]),
        Function::Take => (&UNLENT, &[NoDataEndpoint, Disabled]),
        Function::Abandon => (&LENT, &[NoDataEndpoint]),
        Function::Send => (
            &LENT,
            &[NoDataEndpoint, TooLong, Disabled, InHand, UnfitBuffer],
        ),
        Function::Sent => (&UNLENT, &[NoDataEndpoint, Disabled, UnfitBuffer]),
        Function::Receive => (&LENT, &[NoDataEndpoint, Disabled, InHand, UnfitBuffer]),
        Function::Received => (&UNLENT, &[NoDataEndpoint, Disabled, UnfitBuffer, TooLong]),
        Function::Setup => (&UNLENT, &[]),
        Function::DataOut => (&LENT, &[Disabled]),
        Function::DataIn => (&LENT, &[TooLong, Disabled, UnfitBuffer]),
        Function::TakeOut => (&UNLENT, &[Disabled, UnfitBuffer, TooLong]),
        Function::TakeIn => (&UNLENT, &[Disabled]),
        Function::Accept => (&LENT, &[Disabled]),
        Function::AcceptAddress => (&LENT, &[Disabled]),
        Function::Reject => (&LENT, &[]),
        Function::Interrupt => (&LENT, &[]),
        Function::Answer => (&LENT, &[OutOfRange]),
    }
}
