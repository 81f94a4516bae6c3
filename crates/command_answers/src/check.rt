ghost use Rattle.std.specs.Prelude.{◌≡◌, ◌<◌, ◌^◌, length, IfOk};
ghost use Rattle.sanlp.specs.Size.{SizeIsOk};
ghost use Rattle.cert_text.specs.FoldedCerts.{whole_cert};
ghost use Rattle.net_checker.specs.Fits.{first, verdict_of};
ghost use Rattle.net_core.specs.Machine.{net_of};
ghost use Rattle.net_core.specs.Shape.{FitsNumbers};
ghost use Rattle.command_answers.specs.Checking.{Checks};
ghost use Rattle.command_answers.specs.Judging.{Judges};
ghost use Rattle.command_answers.specs.Replying.{as_reply};
ghost use Rattle.command_answers.specs.Steps.{TellsError};

use crate::answer::Answer;
use crate::refusal::{Refusal, Stop};
use crate::source::sized_nest;
use bundle::parts_of;
use cert_lines::CertError;
use cert_text::{FoldedCert, read_folded};
use loop_class::Params;
use loop_walk::points;
use net_checker::{Verdict, check_folded};
use net_core::Network;
use sanlp::Nest;
use std::alloc::{AllocError, Global};

// The checker's verdict.
fn verdict_on(
    alloc: Global,
    nest: &Nest,
    network: &Network,
    cert: &FoldedCert,
) -> Result<Verdict, AllocError>
    requires size { SizeIsOk nest.now }
    requires numbers { FitsNumbers (net_of network.now) }
    ensures { IfOk result
        (λ verdict. verdict ≡ verdict_of (first nest.now network.now (whole_cert cert.now))) }
{
    let points = points(alloc, nest)?;
    check_folded(alloc, nest, &points, network, &cert.rest, &cert.schedule)
}

/// The answer that tells why a certificate can't be read.
fn unread(error: CertError) -> Result<Answer, Stop>
    ensures { Judges (TellsError error) result }
{
    match error {
        CertError::Line(_)
        | CertError::Number(_)
        | CertError::Truncated
        | CertError::Deep(_)
        | CertError::Long(_) => Ok(Answer::Unread(error)),
        CertError::Memory => Err(Stop::Memory),
    }
}

/// What the checker says of the certificate of a bundle.
pub fn check_certificate(alloc: Global, params: &Params, bundle: &[u8]) -> Result<Answer, Stop>
    requires { length bundle.now < 2 ^ 32 }
    ensures { Judges (λ answer. Checks params.now bundle.now (as_reply answer)) result }
{
    let parts = parts_of(bundle);
    let Some(part) = parts.certificate else {
        return Err(Stop::Refused(Refusal::NoPart));
    };
    let nest = sized_nest(alloc, parts.source, params)?;
    match read_folded(alloc, part) {
        Ok((network, cert)) => {
            let verdict = verdict_on(alloc, &nest, &network, &cert)?;
            Ok(Answer::Verdict(verdict))
        }
        Err(error) => unread(error),
    }
}
