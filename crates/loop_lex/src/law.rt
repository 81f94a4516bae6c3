//! What every list of tokens keeps, and how tokens are read back.

ghost use Rattle.std.specs.Prelude.{◌≡◌, ◌≤◌, ℕ, List, length, map, true, Ok};
ghost use Rattle.loop_lex.specs.declared.token.Token.{Token};
ghost use Rattle.loop_lex.specs.Tokens.{tokens, token_limit, text_of, AreTokensOf};
ghost use Rattle.loop_lex.specs.Spaced.{are_token_texts, spaced, spaced_tokens};

/// Of every source: its tokens are at most 8,192, each lies within the bytes and has a text of its kind,
/// and each begins where the ones before have ended, or later.
pub fn tokens_are_in_order()
    ensures { (bytes : List ℕ) (found : List Token) → tokens bytes ≡ Ok found
        → AreTokensOf bytes found }
{}

/// Of at most 8,192 texts of tokens, written with a space behind each: they are read back as these tokens,
/// and each token has its text.
pub fn spaced_tokens_are_read_back()
    ensures read { (texts : List (List ℕ)) → are_token_texts texts ≡ true
        → length texts ≤ token_limit → tokens (spaced texts) ≡ Ok (spaced_tokens 0 texts) }
    ensures texts { (texts : List (List ℕ))
        → map (text_of (spaced texts)) (spaced_tokens 0 texts) ≡ texts }
{}
