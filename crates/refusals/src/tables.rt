// Refusals 1 and 2: whether a table may be lent.
ghost use Rattle.std.specs.Prelude.{◌≡◌};
ghost use Rattle.sets.specs.Rows.{rows_of};
ghost use Rattle.refusals.specs.Cases.{decided};
ghost use Rattle.refusals.specs.TableCases.{table_cases};

use crate::Refusal;
use sheet::Sheet;

// `most` is how many rows the table may have.
#[tactic(auto, unfolding(crate::specs::Cases::decided, crate::specs::TableCases::table_cases))]
pub fn judge(table: &[u64], d: usize, most: usize) -> Result<(), Refusal>
    ensures { result ≡ decided Err (table_cases most d (rows_of table.now)) (Ok tt) }
{
    if d == 0 || Sheet::VALUES < d || most < sets::row_count(table) {
        return Err(Refusal::TooLarge);
    }
    match sets::bad_row(table, d) {
        Some(i) => Err(Refusal::BadRow(i)),
        None => Ok(()),
    }
}
