// Tables of names: the place of a name is its number.
#![tactic(auto)]

ghost use Rattle.std.specs.Prelude.{◌≡◌};
ghost use Rattle.tool_rows.specs.Rows.{name_at};

// The name of a number. Past the table there is none.
pub fn name(table: &[&'static str], number: u32) -> &'static str
    ensures { result.now ≡ name_at table.now number }
{
    table.get(number as usize).copied().unwrap_or("")
}
