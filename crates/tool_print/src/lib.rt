// Prints records of register operations, registers and fields by name. A line's text is put together first and written
// at once: what it is has a contract, and that it is written can have none.
#![tactic(auto)]

mod line;

ghost use Rattle.std.specs.Prelude.{◌≡◌, ◌≤◌, length};
ghost use Rattle.ops.specs.Ops.{records};
ghost use Rattle.tool_print.specs.Records.{header_text, record_line};

pub use line::Line;

pub fn header(rt: &impl Print) {
    let _ = rt.write_all(header_line());
}

fn header_line() -> &'static [u8]
    ensures { result.now ≡ header_text }
{
    b"kind\tregister\tindex\tfield\tvalue\n"
}

// The records in the first `end` numbers of a list.
pub fn operations(rt: &impl Print, list: &[u32], end: usize) {
    for numbers in list.chunks_exact(ops::WIDTH).take(end.div_ceil(ops::WIDTH)) {
        record(numbers).print(rt);
    }
}

fn record(numbers: &[u32]) -> Line<80>
    requires { records 1 ≤ length numbers.now }
    ensures { result ≡ record_line numbers.now }
{
    let mut line = Line::new();
    line.number(numbers[0]);
    line.text(b"\t");
    line.text(tool_names::register_name(numbers[1]).as_bytes());
    line.cell(numbers[2]);
    line.text(b"\t");
    line.text(tool_fields::field_name(numbers[3]).as_bytes());
    line.cell(numbers[4]);
    line.end();
    line
}
