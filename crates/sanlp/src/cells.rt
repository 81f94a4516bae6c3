ghost use Rattle.std.specs.Prelude.{◌≡◌, min};
ghost use Rattle.sanlp.specs.Cells.{cell_count, natural, place_of};

/// A number, or 0 where it is negative.
pub fn natural_of(value: i64) -> usize
    ensures { result ≡ natural value }
{
    if value < 0 { 0 } else { value as usize }
}

/// How many cells an array with these extents has, or the greatest number where there are more.
pub fn capped_count(extents: &[i64]) -> usize
    ensures { result ≡ min (cell_count extents.now) usize.MAX }
{
    let Some((extent, inner)) = extents.split_first() else {
        return 1;
    };
    natural_of(*extent).saturating_mul(capped_count(inner))
}

/// The place of a cell in row-major order, or the greatest number where it is past it.
pub(crate) fn capped_place(extents: &[i64], at: &[i64]) -> usize
    ensures { result ≡ min (place_of extents.now at.now) usize.MAX }
{
    let (Some((_, extents)), Some((value, at))) = (extents.split_first(), at.split_first()) else {
        return 0;
    };
    natural_of(*value)
        .saturating_mul(capped_count(extents))
        .saturating_add(capped_place(extents, at))
}
