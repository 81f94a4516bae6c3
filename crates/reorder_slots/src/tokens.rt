ghost use Rattle.std.specs.Prelude.{◌≡◌, length, vec_len, IfOk};
ghost use Rattle.reorder_slots.specs.Slots.{gets_for};
ghost use Rattle.reorder_slots.specs.Readers.{HasLastUses};

use std::alloc::{AllocError, Global};

// How many tokens these uses need: 1 and the greatest of them.
fn tokens_of(uses: &[u32]) -> usize
    ensures { result ≡ gets_for uses.now }
{
    let mut tokens = 0;
    for token in uses {
        tokens = tokens.max(*token as usize + 1);
    }
    tokens
}

/// For each token the number of its last use, and 0 for a token without one.
pub(crate) fn last_uses(alloc: Global, uses: &[u32]) -> Result<Vec<usize>, AllocError>
    ensures tokens { IfOk result (λ last. vec_len last ≡ gets_for uses.now) }
    ensures last { IfOk result (λ last. HasLastUses uses.now (length uses.now) last.items) }
{
    let mut last = vec![in alloc; 0; tokens_of(uses)]?;
    for (number, token) in uses.iter().enumerate() {
        last[*token as usize] = number;
    }
    Ok(last)
}
