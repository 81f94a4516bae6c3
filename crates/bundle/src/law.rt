ghost use Rattle.std.specs.Prelude.{◌≡◌, ℕ, List, [], Some, None, Ok};
ghost use Rattle.bundle.specs.Parts.{after_separator, certificate_part, data_part, source_part};
ghost use Rattle.loop_grammar.specs.Lexemes.{sentence};
ghost use Rattle.loop_lex.specs.Tokens.{tokens};
ghost use Rattle.loop_lex.specs.declared.token.Token.{Token};
ghost use Rattle.bundle.specs.Certified.{certified, with_line_end};

// Each of these does nothing: its contract is a law over the definitions.

/// A source without a separator, two separators and a certificate are a bundle with these two parts and without data.
pub fn certified_bundle_has_its_parts()
    ensures source { (source text : List ℕ) → after_separator (with_line_end source) ≡ None
        → source_part (certified source text) ≡ with_line_end source }
    ensures between { (source text : List ℕ) → after_separator (with_line_end source) ≡ None
        → data_part (certified source text) ≡ [] }
    ensures certificate { (source text : List ℕ) → after_separator (with_line_end source) ≡ None
        → certificate_part (certified source text) ≡ Some text }
{}

/// The source part of a bundle has no separator.
pub fn source_part_has_no_separator()
    ensures { (bundle : List ℕ) → after_separator (source_part bundle) ≡ None }
{}

/// A line end behind a source without a separator makes none, where the source has tokens.
pub fn line_end_makes_no_separator()
    ensures { (source : List ℕ) (found : List Token) → after_separator source ≡ None
        → tokens source ≡ Ok found → after_separator (with_line_end source) ≡ None }
{}

/// A line end behind a source changes neither its tokens nor what they are to the grammar.
pub fn line_end_changes_no_token()
    ensures tokens { (source : List ℕ) → tokens (with_line_end source) ≡ tokens source }
    ensures sentence { (source : List ℕ) (found : List Token) → tokens source ≡ Ok found
        → sentence (with_line_end source) found ≡ sentence source found }
{}
