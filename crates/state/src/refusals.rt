// Refusals and their numbers.
ghost use Rattle.std.specs.Prelude.{◌≡◌, Ok};
ghost use Rattle.state.specs.Refusals.{refuse_if};
ghost use Rattle.state.specs.Numbers.{refusal_number};

use super::Refusal;

// The refusal, where it is due.
pub fn refuse_if(due: bool, refusal: Refusal) -> Result<(), Refusal>
    ensures { result ≡ refuse_if due refusal (Ok tt) }
{
    if due {
        return Err(refusal);
    }
    Ok(())
}

impl From<Refusal> for u32 {
    ghost from_gives = { λ refusal number. number ≡ refusal_number refusal };

    fn from(refusal: Refusal) -> u32 {
        refusal as u32
    }
}
