// Prints the page of the refusals: their numbers, and which of them each function tests for, in which sequence.
#![tactic(auto)]

use names::{function_name, refusal_name};
use ops::LIST_NUMBERS;
use reasons::reason;
use state::{EP0_SIZE, Refusal};
use std::io;
use tool_refusals::Function;

mod names;
mod reasons;

// As in the other programs, a write that fails is passed over.
fn main(rt: HostRuntime) {
    let _ = page(&rt);
}

fn page(rt: &impl Print) -> io::Result<()> {
    introduction(rt)?;
    for refusal in tool_refusals::numbered() {
        number_row(rt, *refusal)?;
    }
    sequences(rt)?;
    for function in tool_refusals::functions() {
        function_row(rt, *function)?;
    }
    taken(rt)?;
    unrefused(rt)
}

fn introduction(rt: &impl Print) -> io::Result<()> {
    println!(rt; "# Refusals\n")?;
    println!(rt;
        "A call that can't be made is refused: its answer is `Err` with a `Refusal`, of which `u32::from` gives the number."
    )?;
    println!(rt;
        "RAM is 0x200A0000 up to, not including, 0x20180000; endpoint 0's packets and its buffer have {EP0_SIZE} bytes; and a"
    )?;
    println!(rt; "list that is lent has to have {LIST_NUMBERS} numbers.\n")?;
    println!(rt;
        "The program `refusals` prints this page. It has the numbers from the constants of the source, and the second table"
    )?;
    println!(rt;
        "is proved of the definitions of the calls (`crates/tool_refusals/specs/Tested.antt`); the words of the first are its own.\n"
    )?;
    println!(rt; "| number | name | when it is given |")?;
    println!(rt; "|---|---|---|")
}

fn number_row(rt: &impl Print, refusal: Refusal) -> io::Result<()> {
    let number = u32::from(refusal);
    println!(rt;
        "| {number} | `{}` | {} |",
        refusal_name(refusal),
        reason(refusal)
    )
}

fn sequences(rt: &impl Print) -> io::Result<()> {
    println!(rt;
        "\nA function tests for its refusals in the sequence that they have here, and gives the first that is due. Each of them"
    )?;
    println!(rt; "is given by some call of it, and no other is.\n")?;
    println!(rt; "| function | tests for |")?;
    println!(rt; "|---|---|")
}

fn function_row(rt: &impl Print, function: Function) -> io::Result<()> {
    let (shared, own) = tool_refusals::tests(function);
    print!(rt; "| `{}` | ", function_name(function))?;
    for (i, refusal) in shared.iter().chain(own).enumerate() {
        if i > 0 {
            print!(rt; ", ")?;
        }
        print!(rt; "{}", u32::from(*refusal))?;
    }
    println!(rt; " |")
}

// What a refused call leaves.
fn taken(rt: &impl Print) -> io::Result<()> {
    let (unfit, too_long) = (u32::from(Refusal::UnfitBuffer), u32::from(Refusal::TooLong));
    println!(rt;
        "\nWhat a function isn't lent it doesn't test either: `take` is lent no bytes, and gives neither {unfit} nor {too_long}.\n"
    )?;
    println!(rt;
        "A refused call changes nothing: it leaves state, events and driver as they were, writes no record, wakes nobody and"
    )?;
    println!(rt;
        "copies no byte. Only {too_long} on what has come (`received`, `take_out`) ends the transfer or the stage all the same; it copies"
    )?;
    println!(rt; "no byte either.\n")
}

// What isn't refused.
fn unrefused(rt: &impl Print) -> io::Result<()> {
    let disabled = u32::from(Refusal::Disabled);
    println!(rt; "Some calls do nothing, or not yet, and aren't refused:\n")?;
    println!(rt;
        "- `reject` with an old generation or while the device is off, and `accept_address` with an address above 127, whatever"
    )?;
    println!(rt;
        "  the generation, are answered without a number (`Stage::Unanswered`): nothing changes, and there is no record. Any other"
    )?;
    println!(rt; "  stage that comes too late is given {disabled}.")?;
    println!(rt;
        "- `endpoint_set_stalled` and `endpoint_set_enabled` on an endpoint that can't obey (it isn't one of 1 to 7 or isn't"
    )?;
    println!(rt;
        "  configured, the device is off, or a stall order finds it disabled) make no record. One of 1 to 7 still has its slot woken."
    )?;
    println!(rt; "- A take of what isn't done yet says that it is busy.")
}
