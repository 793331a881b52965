// The list of register operations: records of 32-bit numbers, stored one after the other in a lent list.
//
// `put_at` alone knows how a record is stored. Whoever adds operations lends `append` an array of rows.
#![tactic(auto)]

ghost use Rattle.std.specs.Prelude.{◌≡◌, ◌+◌, ◌≤◌, length};
ghost use Rattle.ops.specs.Ops.{records};
ghost use Rattle.ops.specs.Stores.{Stored};
ghost use Rattle.ops.specs.Lists.{Room, Puts};
ghost use Rattle.ops.specs.Wrote.{row_record, row_records};

mod numbers;

pub use numbers::{Field, Kind, Register, Value};

// How many numbers a record has.
pub const WIDTH: usize = 5;

// How many a call is lent at least: room for 128 records.
pub const LIST_NUMBERS: usize = 128 * WIDTH;

// What a record says: kind, register, index, field, value.
pub type Row = (Kind, Register, u32, Field, u32);

// A lent list that operations are written into one after the other, and where the next one goes.
#[derive(Drop)]
pub struct OpList<'a> {
    pub numbers: &'a mut [u32],
    pub end: usize,
}

impl<'a> OpList<'a> {
    // With nothing written yet.
    pub fn new(numbers: &'a mut [u32]) -> OpList<'a>
        ensures same { result.numbers.ghost_name ≡ numbers.entry.ghost_name }
        ensures numbers { result.numbers.now ≡ numbers.old }
        ensures end { result.end ≡ 0 }
    {
        OpList { numbers, end: 0 }
    }

    // One record more.
    pub fn put(&mut self, row: &Row)
        requires { Room 1 self.old }
        ensures { Puts self.old (row_record row.now) self.new }
    {
        self.end = put_at(self.numbers, self.end, row);
    }

    // A record for each row. The end is kept in a local meanwhile: a store through `self` for each row costs twice as much.
    pub fn append(&mut self, rows: &[Row])
        requires { Room (length rows.now) self.old }
        ensures { Puts self.old (row_records rows.now) self.new }
    {
        let mut end = self.end;
        let numbers = &mut *self.numbers;
        for row in rows {
            end = put_at(numbers, end, row);
        }
        self.end = end;
    }
}

// One record, stored at `at`: the end position.
fn put_at(numbers: &mut [u32], at: usize, row: &Row) -> usize
    requires { at + records 1 ≤ length numbers.old }
    ensures { Stored numbers.old at (row_record row.now) result numbers.new }
{
    numbers[at] = row.0 as u32;
    numbers[at + 1] = row.1 as u32;
    numbers[at + 2] = row.2;
    numbers[at + 3] = row.3 as u32;
    numbers[at + 4] = row.4;
    at + WIDTH
}
