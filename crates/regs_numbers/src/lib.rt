// Records and acknowledgements by number: for whoever has a register's, a field's or a value's number and not its name.
//
// `ops` and the crates of the registers take the names. specs/TypedLaws says that both write the same where a number has one.
#![tactic(auto)]

ghost use Rattle.std.specs.Prelude.{◌+◌, ◌≤◌, length};
ghost use Rattle.ops.specs.Ops.{records};
ghost use Rattle.ops.specs.Stores.{Stored};
ghost use Rattle.regs_numbers.specs.Wrote.{Wrote, row_record, row_records};
ghost use Rattle.regs_numbers.specs.Control.{ep0_tx_answer_ops, ep0_rx_answer_ops, status_ack_ops};
ghost use Rattle.regs_numbers.specs.Link.{link_ack_ops};

use ops::Field::*;
use ops::Kind::*;
use ops::Register::*;
use ops::WIDTH;

// What a record says: kind, register, index, field, value.
pub type Row = [u32; 5];

// One record, stored at `at`: the end position.
pub fn put(ops: &mut [u32], at: usize, row: &Row) -> usize
    requires { at + records 1 ≤ length ops.old }
    ensures { Stored ops.old at (row_record row.now) result ops.new }
{
    ops[at] = row[0];
    ops[at + 1] = row[1];
    ops[at + 2] = row[2];
    ops[at + 3] = row[3];
    ops[at + 4] = row[4];
    at + WIDTH
}

// A record for each row, stored from `at` on: the end position.
pub fn append(ops: &mut [u32], at: usize, rows: &[Row]) -> usize
    requires { at + records (length rows.now) ≤ length ops.old }
    ensures { Stored ops.old at (row_records rows.now) result ops.new }
{
    let mut end = at;
    for row in rows {
        end = put(ops, end, row);
    }
    end
}

// What EP0 IN answers: DPH or NRDY.
pub fn ep0_tx_answer(ops: &mut [u32], at: usize, answer: u32) -> usize
    requires { at + records 1 ≤ length ops.old }
    ensures { Wrote ops.old at (ep0_tx_answer_ops answer) result ops.new }
{
    let rows = [[Write as u32, Uep0TxCtrl as u32, 0, Ep0TxRes as u32, answer]];
    append(ops, at, &rows)
}

// What EP0 OUT answers: NRDY.
pub fn ep0_rx_answer(ops: &mut [u32], at: usize, answer: u32) -> usize
    requires { at + records 1 ≤ length ops.old }
    ensures { Wrote ops.old at (ep0_rx_answer_ops answer) result ops.new }
{
    let rows = [[Write as u32, Uep0RxCtrl as u32, 0, Ep0RxRes as u32, answer]];
    append(ops, at, &rows)
}

// Acknowledges UDIF_SETUP or UDIF_STATUS.
pub fn status_ack(ops: &mut [u32], at: usize, flag: u32) -> usize
    requires { at + records 1 ≤ length ops.old }
    ensures { Wrote ops.old at (status_ack_ops flag) result ops.new }
{
    let rows = [[Write as u32, Status as u32, 0, flag, 1]];
    append(ops, at, &rows)
}

// Acknowledges one of the seven flags of `link_int_flag`.
pub fn link_ack(ops: &mut [u32], at: usize, flag: u32) -> usize
    requires { at + records 1 ≤ length ops.old }
    ensures { Wrote ops.old at (link_ack_ops flag) result ops.new }
{
    let rows = [[Write as u32, LinkIntFlag as u32, 0, flag, 1]];
    append(ops, at, &rows)
}
