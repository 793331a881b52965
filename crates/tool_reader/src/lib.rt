// The lines of lent bytes, one after the other.
#![tactic(auto)]

ghost use Rattle.std.specs.Prelude.{◌≡◌, option_map};
ghost use Rattle.tool_reader.specs.Reader.{whole_line, behind_line, line_from};

use tool_lines::line_end;

// The bytes, and the position from which on they haven't been read.
#[derive(Drop)]
pub struct Reader<'a> {
    pub bytes: &'a [u8],
    pub position: usize,
}

impl<'a> Reader<'a> {
    pub fn new(bytes: &'a [u8]) -> Self
        ensures bytes { result.bytes ≡ bytes.entry }
        ensures position { result.position ≡ 0 }
    {
        Reader { bytes, position: 0 }
    }

    // The next line, its line feed left out; the position is behind that then. Where no line feed follows no line is whole,
    // and the position stays.
    pub fn next_line(&mut self) -> Option<&'a [u8]>
        ensures line { option_map (λ line. line.now) result ≡ whole_line self.old.bytes.now self.old.position }
        ensures bytes { self.new.bytes ≡ self.old.bytes }
        ensures position { self.new.position ≡ behind_line self.old.bytes.now self.old.position }
    {
        let start = self.position;
        let stop = line_end(self.bytes, start);
        if stop < self.bytes.len() {
            self.position = stop + 1;
            return Some(&self.bytes[start..stop]);
        }
        None
    }
}

// Where a line lies among the bytes, its line feed left out, and where the next one begins.
#[derive(Clone, Copy, PartialEq, Eq)]
pub struct Line {
    pub start: usize,
    pub stop: usize,
    pub next: usize,
}

// The place of the line from a position on, for a caller that keeps the bytes and the position.
pub fn line_from(bytes: &[u8], position: usize) -> Option<Line>
    ensures { result ≡ line_from bytes.now position }
{
    let mut reader = Reader { bytes, position };
    let line = reader.next_line()?;
    Some(Line {
        start: position,
        stop: position + line.len(),
        next: reader.position,
    })
}
