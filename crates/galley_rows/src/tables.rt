// The two lent tables: their length, and the duty of a row.
ghost use Rattle.std.specs.Prelude.{◌≡◌};
ghost use Rattle.galley_rules.specs.Table.{are_tables, in_force, duty_of, row_duty};

use galley_rules::TABLE_BYTES;

// The normal and the quiet table, which go from call to call together.
#[derive(Clone, Copy)]
pub struct Tables<'a> {
    pub normal: &'a [u8],
    pub quiet: &'a [u8],
}

impl<'a> Tables<'a> {
    // Both have a byte for each row, and no more.
    #[tactic(auto, unfolding(galley_rules::specs::Table::are_tables))]
    pub fn are_whole(self) -> bool
        ensures { result ≡ are_tables self.entry.normal.now self.entry.quiet.now }
    {
        (self.normal.len() == TABLE_BYTES) & (self.quiet.len() == TABLE_BYTES)
    }

    // The table in force: the quiet one while its flag is set.
    pub fn in_force(self, quiet: bool) -> &'a [u8]
        ensures { result.now ≡ in_force quiet self.entry.normal.now self.entry.quiet.now }
    {
        if quiet { self.quiet } else { self.normal }
    }
}

// A table's byte as a duty.
fn duty_of(v: u8) -> u16
    ensures { result ≡ duty_of v }
{
    if v == 0xFF { 511 } else { u16::from(v) * 2 }
}

// The duty of a row in a table: its byte is 0 where the table has none.
#[tactic(auto, unfolding(galley_rules::specs::Table::row_duty))]
pub fn row_duty(table: &[u8], row: u8) -> u16
    ensures { result ≡ row_duty table.now row }
{
    duty_of(table.get(usize::from(row)).copied().unwrap_or(0))
}
