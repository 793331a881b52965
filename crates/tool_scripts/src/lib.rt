// Lines of a script of calls (docs/REPLAY.md): which call a line asks for, and its numbers.
#![tactic(auto)]

ghost use Rattle.std.specs.Prelude.{◌≡◌, ◌≤◌, ltb};
ghost use Rattle.tool_scripts.specs.Script.{number_at, held_to, numbers_fit, read_call};

use tool_lines::Fields;
use tool_words::Word;

// The call that a line asks for, its line feed left out.
pub fn read_call(line: &[u8]) -> Word
    ensures { result ≡ read_call line.now }
{
    let mut fields = Fields::of(line);
    let meant = tool_words::meaning(fields.next().unwrap_or(b""));
    let fit = numbers_fit(fields, meant.most);
    if fit { meant.call } else { Word::Unfit }
}

// Whether what is left of a line are numbers, and no more than `most`.
fn numbers_fit(mut fields: Fields<'_>, most: usize) -> bool
    ensures { result ≡ numbers_fit most fields.entry }
{
    for _ in 0..most {
        if fields.is_empty() {
            return true;
        }
        if fields.number().is_none() {
            return false;
        }
    }
    fields.is_empty()
}

// A line's number `k`, the first being number 0; 0 where it is left out.
pub fn number(line: &[u8], k: usize) -> u32
    ensures { result ≡ number_at line.now k }
{
    let mut fields = Fields::of(line);
    fields.nth(k);
    fields.number().unwrap_or(0)
}

// The same, but a larger one is `most`.
pub fn number_up_to(line: &[u8], k: usize, most: u32) -> u32
    ensures small { result ≤ most }
    ensures value { result ≡ held_to most (number_at line.now k) }
{
    number(line, k).min(most)
}

// Whether number `k` sets a flag: 0 doesn't.
pub fn flag(line: &[u8], k: usize) -> bool
    ensures { result ≡ ltb 0 (number_at line.now k) }
{
    number(line, k) != 0
}
