ghost use Rattle.std.specs.Prelude.{◌≡◌, ◌+◌, length, slice_get, nat_lt, Some, MatchResult};
ghost use Rattle.int_polyhedra.specs.Chain.{rows_of};

use affine_core::Row;

/// The rows of a system, and after them those that the steps of a proof added, the last one at the end of the chain.
/// Each step holds its row in its own frame, so that a chain takes no memory.
#[derive(Clone, Copy)]
pub enum Rows<'a> {
    Given(&'a [Row]),
    More(&'a Rows<'a>, &'a Row),
}

/// The row of this number, or how far the number is past the last row.
pub fn find<'a>(rows: &'a Rows<'a>, number: usize) -> Result<&'a Row, usize>
    ensures { MatchResult result (λ row. slice_get (rows_of rows.now) number ≡ Some row.now)
        (λ past. number ≡ length (rows_of rows.now) + past) }
{
    match rows {
        Rows::Given(given) => {
            if number < given.len() {
                Ok(&given[number])
            } else {
                Err(number - given.len())
            }
        }
        Rows::More(above, row) => match find(&**above, number) {
            Ok(found) => Ok(found),
            Err(0) => Ok(row),
            Err(past) => Err(past - 1),
        },
    }
}

/// Whether a row has this number.
pub fn has_row(rows: &Rows, number: usize) -> bool
    ensures { result ≡ nat_lt number (length (rows_of rows.now)) }
{
    find(&*rows, number).is_ok()
}
