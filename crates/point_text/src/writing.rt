ghost use Rattle.std.specs.Prelude.{◌≡◌, ◌∷◌};
ghost use Rattle.std.specs.Fmt.{signed_decimal};
ghost use Rattle.std.specs.List.{flat_map};
ghost use Rattle.text_out.specs.Wrote.{Wrote};
ghost use Rattle.point_text.specs.PointText.{point_text, values_text, vector_text};

use text_out::{TextWriter, write_number};

/// Writes loop values with a comma before each.
fn write_others<W: TextWriter>(values: &[i64], out: &mut W)
    ensures { Wrote W.given out.old out.new
        (flat_map (λ value. 44 ∷ signed_decimal value) values.now) }
{
    for value in values {
        out.put(b",");
        write_number(*value, out);
    }
}

/// Writes loop values with commas between them.
fn write_values<W: TextWriter>(values: &[i64], out: &mut W)
    ensures { Wrote W.given out.old out.new (values_text values.now) }
{
    if let Some((first, others)) = values.split_first() {
        write_number(*first, out);
        write_others(others, out);
    }
}

/// Writes an iteration vector: its loop values in parentheses, as `(2,3)`. It takes no memory.
pub fn write_vector<W: TextWriter>(values: &[i64], out: &mut W)
    ensures { Wrote W.given out.old out.new (vector_text values.now) }
{
    out.put(b"(");
    write_values(values, out);
    out.put(b")");
}

/// Writes a point: the number of its statement and its loop values, as `1(2,3)`. It takes no memory.
pub fn write_point<W: TextWriter>(statement: u32, at: &[i64], out: &mut W)
    ensures { Wrote W.given out.old out.new
        (point_text (record { statement = statement; at = at.now })) }
{
    write_number(statement, out);
    write_vector(at, out);
}
