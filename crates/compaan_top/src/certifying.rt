ghost use Rattle.std.specs.Prelude.{◌<◌, ◌^◌, length};
ghost use Rattle.command_answers.specs.Judging.{Judges};
ghost use Rattle.command_answers.specs.Replying.{JudgesTexts};
ghost use Rattle.compaan_top.specs.CertOutcomes.{PrintsCertificate};

use bundle::parts_of;
use command_answers::{CertificateAnswer, Stop, sized_nest};
use loop_class::Params;
use net_maker::compile;
use std::alloc::Global;
use witness_plan::Policy;

/// The network of a bundle's source with its certificate.
pub fn print_certificate(
    alloc: Global,
    policy: Policy,
    params: &Params,
    bundle: &[u8],
) -> Result<CertificateAnswer, Stop>
    requires { length bundle.now < 2 ^ 32 }
    ensures { Judges (JudgesTexts (PrintsCertificate policy params.now bundle.now)) result }
{
    let parts = parts_of(bundle);
    let nest = sized_nest(alloc, parts.source, params)?;
    let (network, cert) = compile(alloc, &nest, policy)?;
    Ok(CertificateAnswer { network, cert })
}
