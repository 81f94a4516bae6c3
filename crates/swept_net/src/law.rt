ghost use Rattle.swept_net.specs.Certificates.{swept_cert, IsCertificate};
ghost use Rattle.witness_plan.specs.declared.schedules.Policy.{Policy};
ghost use Rattle.witness_plan.specs.Schedules.{schedule};

use derived_names::{has_classes_of_uses, names_last_writers};
use process_derive::fits_nest;
use sanlp::Nest;
use witness_plan::{other_capacities, schedule_runs};

/// A nest has a certificate for each policy: the one by which every read has its values from the last writers, with the
/// policy's schedule. It does nothing: its contract is a law over the definitions.
pub fn has_certificate(nest: &Nest)
    ensures { (policy : Policy)
        → IsCertificate nest.now policy (swept_cert nest.now (schedule nest.now policy)) }
{
    fits_nest(nest);
    names_last_writers(nest);
    has_classes_of_uses(nest);
    other_capacities();
    schedule_runs(nest);
}
