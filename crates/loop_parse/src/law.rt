//! What holds of every source's tokens.

ghost use Rattle.std.specs.Prelude.{◌≡◌, ℕ, List};
ghost use Rattle.loop_lex.specs.declared.token.Token.{Token};
ghost use Rattle.loop_grammar.specs.Grammar.{Stops};
ghost use Rattle.loop_grammar.specs.Lexemes.{IsTree, sentence};
ghost use Rattle.loop_grammar.specs.declared.tree.Tree.{Tree};

/// Tokens have at most one tree.
pub fn one_tree()
    ensures { (bytes : List ℕ) (tokens : List Token) (a b : Tree) → IsTree bytes tokens a
        → IsTree bytes tokens b → a ≡ b }
{}

/// Tokens stop being a source at one place at most. So a parser that tells the place of a refusal one token early or late
/// doesn't keep to the contract of `parse`.
pub fn one_place()
    ensures { (bytes : List ℕ) (tokens : List Token) (j k : ℕ)
        → Stops (sentence bytes tokens) j → Stops (sentence bytes tokens) k → j ≡ k }
{}
