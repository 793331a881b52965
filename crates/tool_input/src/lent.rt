// Lines through a lent buffer of any length.
ghost use Rattle.std.specs.Prelude.{◌≡◌, ◌≤◌, ◌<◌, length};

use std::io::Read;
use tool_reader::line_from;

// The buffer's bytes from `from` up to `end` came from the input and haven't been given out.
#[derive(Clone, Copy)]
pub struct Reader {
    pub from: usize,
    pub end: usize,
}

#[derive(Clone, Copy)]
pub enum Found {
    Line,
    TooLong,
    Ended,
}

// A line lies in the buffer from `start` up to `stop`, its line feed left out.
#[derive(Clone, Copy)]
pub struct Next {
    pub found: Found,
    pub start: usize,
    pub stop: usize,
    pub reader: Reader,
}

pub fn at_start() -> Reader
    ensures from_value { result.from ≡ 0 }
    ensures end_value { result.end ≡ 0 }
{
    Reader { from: 0, end: 0 }
}

// The next line. The last one may have no line feed.
pub fn next_line(source: &mut impl Read, buffer: &mut [u8], reader: Reader) -> Next
    requires { 0 < length buffer.old }
    ensures start_le_stop { result.start ≤ result.stop }
    ensures stop_in_bounds { result.stop ≤ length buffer.new }
    ensures reader_in_order { result.reader.from ≤ result.reader.end }
    ensures reader_in_bounds { result.reader.end ≤ length buffer.new }
{
    let mut end = reader.end.min(buffer.len());
    let mut from = reader.from.min(end);
    for _ in 0..u64::MAX {
        if let Some(line) = line_from(&buffer[..end], from) {
            let reader = Reader {
                from: line.next,
                end,
            };
            return Next {
                found: Found::Line,
                start: line.start,
                stop: line.stop,
                reader,
            };
        }
        let held = keep(buffer, from, end);
        if held == buffer.len() {
            return too_long(source, buffer);
        }
        from = 0;
        end = fill(source, buffer, held);
        if end == held {
            return last_line(held);
        }
    }
    last_line(0)
}

// What the input ended with: a line where something is held.
fn last_line(held: usize) -> Next
    ensures start_value { result.start ≡ 0 }
    ensures stop_value { result.stop ≡ held }
    ensures from_value { result.reader.from ≡ 0 }
    ensures end_value { result.reader.end ≡ 0 }
{
    Next {
        found: if held == 0 { Found::Ended } else { Found::Line },
        start: 0,
        stop: held,
        reader: at_start(),
    }
}

// Leaves out what comes up to the next line feed.
fn too_long(source: &mut impl Read, buffer: &mut [u8]) -> Next
    requires { 0 < length buffer.old }
    ensures start_value { result.start ≡ 0 }
    ensures stop_value { result.stop ≡ 0 }
    ensures in_order { result.reader.from ≤ result.reader.end }
    ensures in_bounds { result.reader.end ≤ length buffer.new }
{
    Next {
        found: Found::TooLong,
        start: 0,
        stop: 0,
        reader: skip(source, buffer),
    }
}

fn skip(source: &mut impl Read, buffer: &mut [u8]) -> Reader
    requires { 0 < length buffer.old }
    ensures in_order { result.from ≤ result.end }
    ensures in_bounds { result.end ≤ length buffer.new }
{
    for _ in 0..u64::MAX {
        let end = fill(source, buffer, 0);
        if end == 0 {
            break;
        }
        if let Some(line) = line_from(&buffer[..end], 0) {
            return Reader {
                from: line.next,
                end,
            };
        }
    }
    at_start()
}

// Reads into the buffer behind what is held: where that ends now. A read that fails is the input's end, and one without
// room would pass for it.
fn fill(source: &mut impl Read, buffer: &mut [u8], held: usize) -> usize
    requires { held < length buffer.old }
    ensures lower_bound { held ≤ result }
    ensures upper_bound { result ≤ length buffer.new }
{
    match source.read(&mut buffer[held..]) {
        Ok(n) => held + n,
        Err(_) => held,
    }
}

// Moves the bytes from `from` up to `end` to the buffer's start: how many there are.
fn keep(buffer: &mut [u8], from: usize, end: usize) -> usize
    requires from_le_end { from ≤ end }
    requires end_in_bounds { end ≤ length buffer.old }
    ensures { result ≤ length buffer.new }
{
    buffer.copy_within(from..end, 0);
    end - from
}
