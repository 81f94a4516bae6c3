ghost use Rattle.std.specs.Prelude.{◌≡◌, ℕ, Some, slice_get};
ghost use Rattle.channel_class.specs.Classes.{class_of};
ghost use Rattle.net_core.specs.declared.network.Channel.{Channel};
ghost use Rattle.net_core.specs.Machine.{net_of};
ghost use Rattle.net_core.specs.Sound.{NamesLastWriters};
ghost use Rattle.net_core.specs.Uses.{uses};
ghost use Rattle.process_derive.specs.Derived.{net};

use sanlp::Nest;

// Each of these does nothing: its contract is a law over the definitions.

/// Every reference of every fire of a nest's network names the last writer of what it reads, or nothing where there is none
/// (Feautrier 1991).
pub fn names_last_writers(nest: &Nest)
    ensures { NamesLastWriters nest.now (net_of (net nest.now)) }
{}

/// Each channel of a nest's network has the class of its uses.
pub fn has_classes_of_uses(nest: &Nest)
    ensures { (c : ℕ) (channel : Channel) → slice_get (net nest.now).channels c ≡ Some channel
        → channel.class ≡ class_of (uses (net_of (net nest.now)) c) }
{}
