ghost use Rattle.std.specs.Prelude.{◌≡◌, ◌≢◌, ◌⊎◌, ℕ, List, All, Ok, Err};
ghost use Rattle.net_core.specs.declared.network.Network.{Network as AnyNetwork};
ghost use Rattle.source_tree.specs.declared.cert.Cert.{Cert as AnyCert};
ghost use Rattle.cert_lines.specs.declared.error.CertError.TheVariants.{Deep, Line, Long, Memory, Number, Truncated};
ghost use Rattle.cert_text.specs.Reading.{reading};
ghost use Rattle.cert_text.specs.StandsFor.{StandsFor};
ghost use Rattle.cert_places.specs.Places.{IsCutShort, IsOutOfRangeAt, IsShallow, IsText, IsTooDeepAt, IsTooLong, IsWrongAt};

use cert_text::reads_what_is_written;

// It does nothing: its contract is a law over the definitions.

/// Where a text is refused. `Line` or `Number` comes at line n exactly where the lines before it are the first of some text, none
/// of them too deep, and with line n they are the first of none. It is `Number` exactly where line n isn't the first and the lines
/// before it go on to some text with another line, which differs from line n in its numbers alone. `Deep` comes at line n exactly
/// where the first n lines are the first of some text, in which line n is the first that nests more than 512 deep. `Truncated`
/// comes exactly where the whole lines are the first of some text, none of them too deep, and the bytes are no text. What stands
/// for a pair is a text of which no line nests too deep, and each such text is read, unless the pair is too long: `Long p` comes
/// exactly where that is so and p is the number told. No text is refused for want of memory, so each refusal has one of these
/// causes.
pub fn refusals_are_exact()
    ensures line { (text : List ℕ) (n : ℕ) → reading text ≡ Err (Line n)
        → IsWrongAt text n × (IsOutOfRangeAt text n → ⊥) }
    ensures wrong_words { (text : List ℕ) (n : ℕ) → IsWrongAt text n → (IsOutOfRangeAt text n → ⊥)
        → reading text ≡ Err (Line n) }
    ensures number { (text : List ℕ) (n : ℕ) → reading text ≡ Err (Number n)
        → IsOutOfRangeAt text n }
    ensures out_of_range { (text : List ℕ) (n : ℕ) → IsOutOfRangeAt text n
        → reading text ≡ Err (Number n) }
    ensures wrong { (text : List ℕ) (n : ℕ) → IsWrongAt text n
        → (reading text ≡ Err (Line n)) ⊎ (reading text ≡ Err (Number n)) }
    ensures deep { (text : List ℕ) (n : ℕ) → reading text ≡ Err (Deep n) → IsTooDeepAt text n }
    ensures too_deep { (text : List ℕ) (n : ℕ) → IsTooDeepAt text n
        → reading text ≡ Err (Deep n) }
    ensures truncated { (text : List ℕ) → reading text ≡ Err Truncated → IsCutShort text }
    ensures cut_short { (text : List ℕ) → IsCutShort text → reading text ≡ Err Truncated }
    ensures long { (text : List ℕ) (p : ℕ) → reading text ≡ Err (Long p) → IsTooLong text p }
    ensures too_long { (text : List ℕ) (p : ℕ) → IsTooLong text p → reading text ≡ Err (Long p) }
    ensures stands { (text : List ℕ) (network : AnyNetwork) (cert : AnyCert) →
        StandsFor text network cert
        → (depths : List ℕ) × IsText text depths × All IsShallow depths }
    ensures read { (text depths : List ℕ) → IsText text depths → All IsShallow depths
        → ((pair : AnyNetwork × AnyCert) × (reading text ≡ Ok pair))
        ⊎ ((p : ℕ) × (reading text ≡ Err (Long p))) }
    ensures caused { (text : List ℕ) → reading text ≢ Err Memory }
{
    reads_what_is_written();
}
