ghost use Rattle.std.specs.Prelude.{◌≡◌, [], ◌∷◌, IfSome};
ghost use Rattle.sanlp.specs.declared.nest.Node.TheVariants.{Assign};

use sanlp::Node;

/// The number of the statement in a body that has one part, which is an assignment.
pub fn only_assignment(parts: &[Node]) -> Option<u32>
    ensures { IfSome result (λ s. parts.now ≡ Assign s ∷ []) }
{
    if parts.len() != 1 {
        return None;
    }
    match &parts[0] {
        Node::Assign(statement) => Some(*statement),
        Node::Loop { .. } | Node::Guard { .. } => None,
    }
}
