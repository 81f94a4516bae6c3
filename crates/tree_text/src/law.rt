ghost use Rattle.std.specs.Prelude.{◌≡◌, ◌++◌, ℕ, List, Ok};
ghost use Rattle.cert_lines.specs.Reading.{Place};
ghost use Rattle.source_tree.specs.declared.tree.Tree.{Tree};
ghost use Rattle.tree_text.specs.Reading.{tree};
ghost use Rattle.tree_text.specs.TreeText.{TreeIsInRange, tree_text};

// It does nothing: its contract is a law over the definitions.

/// What is read as a tree is the tree of which it is the text, and each tree that nests at most 512 deep with its numbers in
/// range is read from its text.
pub fn reads_what_is_written()
    ensures forth { (at next : Place) (t : Tree) →
        tree at ≡ Ok (t, next) → (at.text ≡ tree_text t ++ next.text) × TreeIsInRange t }
    ensures back { (t : Tree) (number : ℕ) (rest : List ℕ) → TreeIsInRange t →
        (after : ℕ) × (tree (record { line = number; text = tree_text t ++ rest })
        ≡ Ok (t, record { line = after; text = rest })) }
{}
