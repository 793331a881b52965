// The text of a line of output, in a buffer of its own.
ghost use Rattle.std.specs.Prelude.{ℕ, ◌≡◌, ◌+◌, ◌*◌, ◌≤◌, List, [], ◌++◌, length, take, decimal};
ghost use Rattle.tool_print.specs.Text.{tab, line_feed, cells, row};

use std::marker::Model;

#[derive(Drop)]
pub struct Line<const N: usize> {
    bytes: [u8; N],
    len: usize,
}

impl<const N: usize> Model for Line<N> {
    ghost Value = { List ℕ };

    ghost view = { λ line. take line.len line.bytes };

    ghost invariant = { λ line. line.len ≤ N };
}

impl<const N: usize> Line<N> {
    pub fn new() -> Self
        ensures { result ≡ [] }
    {
        Line {
            bytes: [0; N],
            len: 0,
        }
    }

    // A whole line of a text and numbers, each behind its tab.
    pub fn row(text: &[u8], numbers: &[u32]) -> Self
        requires { length text.now + 11 * length numbers.now + 1 ≤ N }
        ensures { result ≡ row text.now numbers.now }
    {
        let mut line = Line::new();
        line.text(text);
        line.cells(numbers);
        line.end();
        line
    }

    pub fn text(&mut self, bytes: &[u8])
        requires { length self.old + length bytes.now ≤ N }
        ensures text { self.new ≡ self.old ++ bytes.now }
        ensures len { length self.new ≡ length self.old + length bytes.now }
    {
        let end = self.len + bytes.len();
        let buffer = &mut self.bytes[..];
        buffer[self.len..end].copy_from_slice(bytes);
        self.len = end;
    }

    // A number's digits: no fewer would do, and ten always do.
    pub fn number(&mut self, n: u32)
        requires { length self.old + 10 ≤ N }
        ensures digits { self.new ≡ self.old ++ decimal n }
        ensures len { length self.new ≤ length self.old + 10 }
    {
        let mut digits = [0u8; 20];
        let count = io::decimal(n as u64, &mut digits);
        self.text(&digits[..count]);
    }

    // A number behind its tab.
    pub fn cell(&mut self, n: u32)
        requires { length self.old + 11 ≤ N }
        ensures digits { self.new ≡ self.old ++ tab ++ decimal n }
        ensures len { length self.new ≤ length self.old + 11 }
    {
        self.text(b"\t");
        self.number(n);
    }

    // Numbers, each behind its tab.
    pub fn cells(&mut self, numbers: &[u32])
        requires { length self.old + 11 * length numbers.now ≤ N }
        ensures digits { self.new ≡ cells self.old numbers.now }
        ensures len { length self.new ≤ length self.old + 11 * length numbers.now }
    {
        for n in numbers {
            self.cell(*n);
        }
    }

    // The line's end.
    pub fn end(&mut self)
        requires { length self.old + 1 ≤ N }
        ensures { self.new ≡ self.old ++ line_feed }
    {
        self.text(b"\n");
    }

    // What was put, to be written.
    pub fn as_bytes(&self) -> &[u8]
        ensures { result.now ≡ self.now }
    {
        &self.bytes[..self.len]
    }

    // Writes what was put. As in the programs, a write that fails is passed over.
    pub fn print(&self, rt: &impl Print) {
        let _ = rt.write_all(self.as_bytes());
    }
}
