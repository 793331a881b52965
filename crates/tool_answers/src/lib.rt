// The line that ends what is printed of a call.
#![tactic(auto)]

ghost use Rattle.std.specs.Prelude.{◌≡◌};
ghost use Rattle.tool_answers.specs.Answers.{answer_numbers, answer_text, busy_text, more_text, not_allocated_text, unfit_text};

use state::{Refusal, Wakes};
use state_slots::waking::no_wakes;
use tool_print::Line;

pub fn answer(rt: &impl Print, said: Result<u32, Refusal>, wakes: Wakes) {
    answer_line(said, wakes).print(rt);
}

fn answer_line(said: Result<u32, Refusal>, wakes: Wakes) -> Line<60>
    ensures { result ≡ answer_text said wakes }
{
    let (number, value) = numbers(said);
    Line::row(
        b"answer",
        &[number, value, wakes.bus as u32, wakes.slots as u32],
    )
}

// The number and the value that are printed of an answer.
pub fn numbers(said: Result<u32, Refusal>) -> (u32, u32)
    ensures { result ≡ answer_numbers said }
{
    match said {
        Ok(value) => (0, value),
        Err(refusal) => (refusal.into(), 0),
    }
}

// A value, and nobody to wake.
pub fn done(rt: &impl Print, value: u32) {
    answer(rt, Ok(value), no_wakes());
}

pub fn refused(rt: &impl Print, refusal: Refusal) {
    answer(rt, Err(refusal), no_wakes());
}

// A take that has to wait.
pub fn busy(rt: &impl Print) {
    busy_line().print(rt);
}

fn busy_line() -> Line<50>
    ensures { result ≡ busy_text }
{
    Line::row(b"answer\tbusy", &[0, 0, 0])
}

// A send or receive that went on to its next piece.
pub fn more(rt: &impl Print, wakes: Wakes) {
    more_line(wakes).print(rt);
}

fn more_line(wakes: Wakes) -> Line<50>
    ensures { result ≡ more_text wakes }
{
    Line::row(b"answer\tmore", &[0, wakes.bus as u32, wakes.slots as u32])
}

// An allocation that is refused: the Rust has one error for its five numbers.
pub fn not_allocated(rt: &impl Print) {
    not_allocated_line().print(rt);
}

fn not_allocated_line() -> Line<50>
    ensures { result ≡ not_allocated_text }
{
    Line::row(b"answer\trefused", &[0, 0, 0])
}

// A line that can't be read; nothing is done.
pub fn unfit(rt: &impl Print) {
    let _ = rt.write_all(unfit_line());
}

fn unfit_line() -> &'static [u8]
    ensures { result.now ≡ unfit_text }
{
    b"unfit\n"
}
