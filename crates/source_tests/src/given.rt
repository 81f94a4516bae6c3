//! What trees give at loop values, worked out here, apart from the crates that are tested.

use affine_core::{Form, KeptForm};
use source_tree::Tree;
use std::alloc::{AllocError, Global};

/// A point of the statement of this number.
#[derive(Clone, Copy)]
pub(crate) struct Turn<'a> {
    pub(crate) number: usize,
    pub(crate) at: &'a [i64],
}

fn value(form: &Form, at: &[i64]) -> Option<i128> {
    let mut total = form.constant;
    for (coef, value) in form.coefs.as_slice().iter().zip(at) {
        total = total.checked_add(coef.checked_mul(i128::from(*value))?)?;
    }
    Some(total)
}

// Whether these forms have the values of this point.
fn have_values(forms: &[KeptForm], at: &[i64], point: &[i64]) -> bool {
    forms.len() == point.len()
        && forms.iter().zip(point).all(|(form, wanted)| value(&form.get(), at)
            == Some(i128::from(*wanted)))
}

/// Whether the tree gives this turn, or none, at the values of its variables: those of the reader's loops, and the quotients.
pub(crate) fn gives(
    alloc: Global,
    tree: &Tree,
    at: &[i64],
    wanted: Option<Turn>,
) -> Result<bool, AllocError> {
    match tree {
        Tree::Test(form, above, below) => match value(&form.get(), at) {
            Some(value) if value >= 0 => gives(alloc, above.get(), at, wanted),
            Some(_) => gives(alloc, below.get(), at, wanted),
            None => Ok(false),
        },
        Tree::Divides(form, divisor, above, below) => {
            let Some((longer, divides)) = divided(alloc, value(&form.get(), at), divisor.get(), at)?
            else {
                return Ok(false);
            };
            if divides {
                gives(alloc, above.get(), longer.as_slice(), wanted)
            } else {
                gives(alloc, below.get(), longer.as_slice(), wanted)
            }
        }
        Tree::Writer(statement, place, _) => Ok(match wanted {
            Some(turn) => {
                *statement as usize == turn.number && have_values(place.as_slice(), at, turn.at)
            }
            None => false,
        }),
        Tree::Zero(_) => Ok(wanted.is_none()),
        Tree::Dead(_) => Ok(false),
    }
}

// The variables below a Divides, with the quotient behind those above it, and whether the divisor divides the value.
fn divided(
    alloc: Global,
    value: Option<i128>,
    divisor: i128,
    at: &[i64],
) -> Result<Option<(Vec<i64>, bool)>, AllocError> {
    let Some(value) = value else {
        return Ok(None);
    };
    let (Some(quotient), Some(rest)) = (
        value.checked_div_euclid(divisor),
        value.checked_rem_euclid(divisor),
    ) else {
        return Ok(None);
    };
    let Ok(quotient) = i64::try_from(quotient) else {
        return Ok(None);
    };
    let mut longer = Vec::new(alloc);
    longer.extend_from_slice(at)?;
    longer.push(quotient)?;
    Ok(Some((longer, rest == 0)))
}
