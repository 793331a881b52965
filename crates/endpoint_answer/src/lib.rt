// What the calls of sends and receives answer.
#![tactic(auto)]

ghost use Rattle.std.specs.Prelude.{◌≡◌};
ghost use Rattle.endpoint_answer.specs.Answers.{begun_answer};

use state::Refusal;

// `Begun`: a piece of so many bytes is under way. `More`: the pieces so far have moved so many bytes, and another one is
// to be begun from there. `Ended`: so many bytes were moved in all.
#[derive(Clone, Copy, PartialEq, Eq)]
pub enum Move {
    Begun(usize),
    Busy,
    More(usize),
    Ended(usize),
}

// A piece of so many bytes was begun, or refused.
pub fn begun_answer(answer: Result<(), Refusal>, length: usize) -> Result<Move, Refusal>
    ensures { result ≡ begun_answer length answer }
{
    answer.map(|()| Move::Begun(length))
}
