// An input, line by line, through a buffer. A line that doesn't leave the buffer a free byte is too long.
#![tactic(auto)]

mod lent;

ghost use Rattle.std.specs.Prelude.{◌≡◌, ◌≤◌};

pub use lent::{Found, Next, Reader, at_start, next_line};
use std::io::Read;

// An input with a buffer of its own, whose bytes from `from` up to `end` came from it and haven't been given out.
#[derive(Clone, Copy)]
pub struct Input {
    buffer: [u8; 4096],
    from: usize,
    end: usize,
    ghost in_order: { from ≤ end },
    ghost in_bounds: { end ≤ 4096 },
}

#[derive(Clone, Copy, PartialEq, Eq)]
pub struct TooLong;

impl Input {
    pub fn new() -> Self
        ensures from_value { result.from ≡ 0 }
        ensures end_value { result.end ≡ 0 }
    {
        Input {
            buffer: [0; 4096],
            from: 0,
            end: 0,
        }
    }

    // The next line, its line feed left out. The last one may have none.
    pub fn next_line(&mut self, source: &mut impl Read) -> Option<Result<&[u8], TooLong>> {
        let reader = Reader {
            from: self.from,
            end: self.end,
        };
        let next = next_line(source, &mut self.buffer, reader);
        self.from = next.reader.from;
        self.end = next.reader.end;
        match next.found {
            Found::Line => Some(Ok(&self.buffer[next.start..next.stop])),
            Found::TooLong => Some(Err(TooLong)),
            Found::Ended => None,
        }
    }
}
