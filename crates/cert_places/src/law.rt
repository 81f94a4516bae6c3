ghost use Rattle.std.specs.Prelude.{◌≡◌, ℕ, List, Err};
ghost use Rattle.cert_lines.specs.declared.error.CertError.TheVariants.{Deep, Line, Number};
ghost use Rattle.cert_text.specs.Reading.{reading};
ghost use Rattle.cert_places.specs.Fronts.{IsDecidedBy};

use cert_text::reads_what_is_written;

// Each of these does nothing: its contract is a law over the definitions.

/// Lines are judged in order, and the first that fails decides. Where line n is refused, each text with the same first n lines
/// is refused just so, and none of them stands for a pair: no line behind it could have made it right.
pub fn first_lines_decide()
    ensures line { (text : List ℕ) (n : ℕ) → reading text ≡ Err (Line n)
        → IsDecidedBy text n (Line n) }
    ensures number { (text : List ℕ) (n : ℕ) → reading text ≡ Err (Number n)
        → IsDecidedBy text n (Number n) }
    ensures deep { (text : List ℕ) (n : ℕ) → reading text ≡ Err (Deep n)
        → IsDecidedBy text n (Deep n) }
{
    reads_what_is_written();
}
