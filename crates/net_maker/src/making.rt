ghost use Rattle.std.specs.Prelude.{◌≡◌, IfOk};
ghost use Rattle.sanlp.specs.Size.{SizeIsOk};
ghost use Rattle.net_checker.specs.Fits.{Fits};
ghost use Rattle.net_core.specs.Machine.{net_of};
ghost use Rattle.net_core.specs.Shape.{FitsNumbers};
ghost use Rattle.witness_plan.specs.Schedules.{planned_network};
ghost use Rattle.swept_net.specs.Certificates.{IsCertificate};

use crate::origins::origins;
use net_core::Network;
use sanlp::Nest;
use source_tree::Cert;
use std::alloc::{AllocError, Global};
use swept_net::{NetworkPlan, has_certificate, plan_network};
use witness_plan::Policy;

/// The network of `swept_net::compile_network`, and a certificate of it with trees: a read of the difference class has its values
/// from the points that its tree gives, where the tree overflows at no point of the reader, and it and its proofs nest at most
/// 512 deep. Other reads have theirs from the last writers. The checker accepts both, and they have a text. Nothing is refused
/// but want of memory.
pub fn compile(alloc: Global, nest: &Nest, policy: Policy) -> Result<(Network, Cert), AllocError>
    requires { SizeIsOk nest.now }
    ensures network { IfOk result (λ made. made.0 ≡ planned_network nest.now policy) }
    ensures numbers { IfOk result (λ made. FitsNumbers (net_of made.0)) }
    ensures certificate { IfOk result (λ made. IsCertificate nest.now policy made.1) }
    ensures fits { IfOk result (λ made. Fits nest.now made.0 made.1) }
{
    has_certificate(nest);
    let NetworkPlan { network, schedule } = plan_network(alloc, nest, policy)?;
    let sources = origins(alloc, nest)?;
    Ok((network, Cert { sources, schedule }))
}
