ghost use Rattle.std.specs.Prelude.{◌<◌, ◌^◌, All, IfSome, IsTrue, SomeIff};
ghost use Rattle.tree_bounds.specs.Bounds.{greatest_size, greatest_sum, HasValues, IsValueBound};

use affine_core::KeptForm;

/// The least absolute value that may leave 128 bits.
const LEAST_OUTSIDE: u128 = 170_141_183_460_469_231_731_687_303_715_884_105_728;

// How far from 0 a sum comes at most that is no further than `size` from it, when the products of these coefficients and of
// values no further than `limit` from 0 are added one by one; or `None`, where that may leave 128 bits.
fn sum_bound(size: u128, coefs: &[i128], limit: u128) -> Option<u128>
    ensures { SomeIff result (greatest_sum limit size coefs.now < 2 ^ 127)
        (greatest_sum limit size coefs.now) }
{
    if size >= LEAST_OUTSIDE {
        return None;
    }
    let Some((coef, coefs)) = coefs.split_first() else {
        return Some(size);
    };
    let product = coef.unsigned_abs().checked_mul(limit)?;
    let next = size.checked_add(product)?;
    sum_bound(next, coefs, limit)
}

/// How far from 0 the form's value is at most, where its variables' values are no further than `limit` from 0; or `None`, where
/// it may leave 128 bits.
pub(crate) fn value_bound(form: &KeptForm, limit: u128) -> Option<u128>
    ensures size { SomeIff result (greatest_size limit form.now < 2 ^ 127)
        (greatest_size limit form.now) }
    ensures values { IfSome result (IsValueBound limit form.now) }
{
    let form = form.get();
    sum_bound(form.constant.unsigned_abs(), form.coefs.as_slice(), limit)
}

/// Whether the sizes of a form's numbers tell that its value stays within 128 bits, where its variables' values are no further
/// than `limit` from 0.
pub(crate) fn has_values(form: &KeptForm, limit: u128) -> bool
    ensures { IsTrue result → HasValues limit form.now }
{
    value_bound(form, limit).is_some()
}

/// Whether they tell it of each form of a place.
pub(crate) fn all_have_values(place: &[KeptForm], limit: u128) -> bool
    ensures { IsTrue result → All (HasValues limit) place.now }
{
    let Some((form, place)) = place.split_first() else {
        return true;
    };
    if has_values(form, limit) {
        all_have_values(place, limit)
    } else {
        false
    }
}
