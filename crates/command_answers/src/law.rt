//! What follows of the definitions alone.

ghost use Rattle.std.specs.Prelude.{◌≡◌};
ghost use Rattle.command_answers.specs.Statuses.{status_number};
ghost use Rattle.command_answers.specs.declared.status.Status.{Status};

/// Two statuses with one number are the same, so the number with which the program ends tells how it ended.
pub fn statuses_have_own_numbers()
    ensures { (a b : Status) → status_number a ≡ status_number b → a ≡ b }
{}
