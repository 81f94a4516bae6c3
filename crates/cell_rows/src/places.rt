ghost use Rattle.std.specs.Prelude.{◌≡◌, ◌+◌, ◌*◌, length, map, IsTrue};
ghost use Rattle.std.specs.List.{list_all};
ghost use Rattle.affine_core.specs.Affine.{form_at};
ghost use Rattle.sanlp.specs.Cells.{natural};
ghost use Rattle.sanlp.specs.WellFormed.{form_fits};
ghost use Rattle.cell_rows.specs.RowPlaces.{place_after, place_from, within_limit};
ghost use Rattle.cell_rows.specs.SmallValues.{are_small_values};

use crate::narrow_form::NarrowForm;
use sanlp::natural_of;

/// The greatest number of cells that are kept in rows, of all arrays together.
pub(crate) const ROW_LIMIT: usize = 4_194_304;

// The place that a subscript within its extent leads to, if it is within the limit.
fn place_within(before: usize, extent: i64, subscript: usize) -> Option<usize>
    ensures { result ≡ within_limit (before * natural extent + subscript) }
{
    let place = before
        .saturating_mul(natural_of(extent))
        .saturating_add(subscript);
    if place < ROW_LIMIT { Some(place) } else { None }
}

// The place that one subscript more leads to, if it is within its extent and the place within the limit.
fn next_place(before: usize, extent: i64, subscript: i64) -> Option<usize>
    ensures { result ≡ place_after before extent subscript }
{
    if subscript < 0 || subscript >= extent {
        None
    } else {
        place_within(before, extent, subscript as usize)
    }
}

/// The same for a subscript in 128 bits.
pub(crate) fn next_wide_place(before: usize, extent: i64, subscript: i128) -> Option<usize>
    ensures { result ≡ place_after before extent subscript }
{
    if subscript < 0 || subscript >= extent as i128 {
        None
    } else {
        place_within(before, extent, subscript as usize)
    }
}

/// The place of the cell whose subscripts are the values of these forms at small loop values.
pub(crate) fn small_place(extents: &[i64], forms: &[NarrowForm], values: &[i64]) -> Option<usize>
    requires many { length extents.now ≡ length forms.now }
    requires fit { IsTrue (list_all (form_fits (length values.now)) forms.now) }
    requires small { IsTrue (are_small_values values.now) }
    ensures { result ≡ place_from 0 extents.now (map (λ form. form_at form values.now) forms.now) }
{
    let mut place = 0;
    for (number, form) in forms.iter().enumerate() {
        let next = next_place(place, extents[number], form.small_value(values))?;
        place = next;
    }
    Some(place)
}

/// The place of the cell whose subscripts are the values of these forms.
pub(crate) fn wide_place(extents: &[i64], forms: &[NarrowForm], values: &[i64]) -> Option<usize>
    requires many { length extents.now ≡ length forms.now }
    requires fit { IsTrue (list_all (form_fits (length values.now)) forms.now) }
    ensures { result ≡ place_from 0 extents.now (map (λ form. form_at form values.now) forms.now) }
{
    let mut place = 0;
    for (number, form) in forms.iter().enumerate() {
        let next = next_wide_place(place, extents[number], form.value(values))?;
        place = next;
    }
    Some(place)
}
