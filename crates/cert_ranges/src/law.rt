ghost use Rattle.cert_text.specs.StandsFor.{HasText};
ghost use Rattle.sanlp.specs.Size.{SizeIsOk};
ghost use Rattle.swept_net.specs.Certificates.{IsCertificate};
ghost use Rattle.sanlp.specs.declared.nest.Nest.{Nest};
ghost use Rattle.source_tree.specs.declared.cert.Cert.{Cert};
ghost use Rattle.witness_plan.specs.declared.schedules.Policy.{Policy};
ghost use Rattle.witness_plan.specs.Schedules.{planned_network};

/// Where the size of a nest is within its limit, each number of its network, with the capacities that its schedule under a
/// policy needs, and of a certificate of it is within its range, each fire has at most eight references, and all scripts
/// together have at most 17 events for each entry of the trace, as the schedule has. So the pair has a text. It does nothing: its
/// contract is a law over the definitions.
pub fn certificate_has_text()
    ensures { (n : Nest) (policy : Policy) (cert : Cert) → IsCertificate n policy cert → SizeIsOk n
        → HasText (planned_network n policy) cert }
{}
