ghost use Rattle.sanlp.specs.Size.{SizeIsOk};
ghost use Rattle.net_core.specs.Machine.{net_of};
ghost use Rattle.net_core.specs.Shape.{FitsNumbers};
ghost use Rattle.net_core.specs.Sound.{FitsNest};
ghost use Rattle.process_derive.specs.Derived.{net};
ghost use Rattle.process_derive.specs.Few.{HasFewEvents, HasFewSlots};

use sanlp::Nest;

/// The network of a nest has fewer than 2 ^ 32 processes, channels and events. It does nothing: its contract is a law
/// over the definitions.
pub fn numbers_fit(nest: &Nest)
    requires { SizeIsOk nest.now }
    ensures { FitsNumbers (net_of (net nest.now)) }
{}

/// The network of a nest has the shape of its points and reads. It does nothing: its contract is a law over the
/// definitions.
pub fn fits_nest(nest: &Nest)
    ensures { FitsNest nest.now (net nest.now) }
{}

/// The network of a nest has at most 17 events for each entry of the trace. It does nothing: its contract is a law over
/// the definitions.
pub fn few_events(nest: &Nest)
    ensures { HasFewEvents nest.now }
{}

/// No process of the network of a nest has more slots than Gets, and all together have at most eight for each entry of
/// the trace. It does nothing: its contract is a law over the definitions.
pub fn few_slots(nest: &Nest)
    ensures { HasFewSlots nest.now }
{}
