ghost use Rattle.std.specs.Prelude.{◌≡◌, length, IfSome};
ghost use Rattle.std.specs.Result.{result_ok};
ghost use Rattle.std.specs.Option.{option_and_then};
ghost use Rattle.affine_core.specs.Affine.{form_product, form_sum};
ghost use Rattle.affine_core.specs.Within.{form_in_128_bits};
ghost use Rattle.tree_facts.specs.Sums.{IsSumOnto};

use affine_core::{Form, Overflow, Row};
use int_polyhedra::Term;

// What comes before, and so many times a row.
fn with_row(sum: &Form, row: &Row, times: i128) -> Result<Form, Overflow>
    requires { length row.now.coefs ≡ length sum.now.coefs }
    ensures { result_ok result ≡ option_and_then
        (λ more. form_in_128_bits (form_sum sum.now more))
        (form_in_128_bits (form_product times row.now)) }
{
    let more = row.scale(times)?;
    sum.add(&more)
}

/// The sum and the terms, added one after the other, where they name rows, no multiplier is below 0, and all numbers stay
/// within 128 bits.
pub fn sum_onto(rows: &[Row], sum: Form, terms: &[Term]) -> Option<Form>
    ensures { IfSome result (IsSumOnto rows.now sum terms.now) }
{
    let Some((term, terms)) = terms.split_first() else {
        return Some(sum);
    };
    let row = rows.get(term.row as usize)?;
    if term.times < 0 || row.coefs.len() != sum.coefs.len() {
        return None;
    }
    match with_row(&sum, row, term.times) {
        Ok(next) => sum_onto(rows, next, terms),
        Err(Overflow) => None,
    }
}
