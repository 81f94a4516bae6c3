//! What follows of the definitions alone, for all orders and bundles.

ghost use Rattle.std.specs.Prelude.{◌≡◌, ℕ, ℤ, List, Option, Result};
ghost use Rattle.bundle.specs.Certified.{certified};
ghost use Rattle.bundle.specs.Parts.{source_part};
ghost use Rattle.command_line.specs.declared.words.Order.{Order};
ghost use Rattle.call_endings.specs.Changes.{Change};
ghost use Rattle.call_endings.specs.Outcomes.{Outcome, outcome_of};
ghost use Rattle.compaan_top.specs.Answers.{Ends};
ghost use Rattle.compaan_top.specs.Calls.{IsCallOf};
ghost use Rattle.compaan_top.specs.CheckAnswers.{Accepts, AgreeOn, Call, Certifies, HasCertificate, ReadCertificate, StandsForPlanned, WroteCertificate};
ghost use Rattle.command_answers.specs.Checking.{Checks};
ghost use Rattle.compaan_top.specs.Headline.{AcceptsWhatFits, HasFittingCertificate, SaysAccepted};
ghost use Rattle.command_answers.specs.Replies.{Reply};
ghost use Rattle.command_answers.specs.Statuses.{status_number};
ghost use Rattle.command_answers.specs.declared.refusal.Refusal.{Refusal};
ghost use Rattle.command_answers.specs.declared.status.Status.{Status};
ghost use Rattle.command_answers.specs.declared.status.Status.TheVariants.{Done, NoMemory};
ghost use Rattle.compaan_top.specs.Laws.{DetermineStatus, HasStatusOf, HaveOwnStatuses, MayEndWith, Succeeds};
ghost use Rattle.compaan_top.specs.InputBytes.{IsDecision};

use bundle::{
    certified_bundle_has_its_parts, line_end_changes_no_token, line_end_makes_no_separator,
    source_part_has_no_separator,
};
use cert_ranges::certificate_has_text;
use cert_text::{reads_what_is_written, what_is_written_stands};
use loop_parse::one_tree;
use net_checker::{accepts_what_fits, is_sound};

/// The status is determined by the order, or that the words are refused, and the bundle: two outcomes of theirs have the same.
/// Each command has its own statuses: `check` alone comes to a refused certificate, `run`, `seq` and `sim` alone to refused
/// data, refused words alone to theirs, and `load` to none of a bundle, a text, a class or data. No command comes to the status
/// of a failed read, a failed write or want of memory. Where nothing is refused the order is done; for `check` it is, or a
/// refusal of the certificate is written.
pub fn status_is_determined()
    ensures determined { (wanted : Option Order) (bundle : List ℕ) → DetermineStatus wanted bundle }
    ensures own { (wanted : Option Order) (bundle : List ℕ) → HaveOwnStatuses wanted bundle }
    ensures success { (wanted : Option Order) (bundle : List ℕ) → Succeeds wanted bundle }
{
    one_tree();
}

/// A call ends with one of the statuses that its order has, or with that of a failed write, of want of memory, or, where the
/// order reads something, of a failed read.
pub fn calls_have_their_statuses()
    ensures { (wanted : Option Order) (input output complaint : Change) (status : Status)
        → Ends wanted input output complaint status
        → HasStatusOf wanted status }
{}

/// What one can rely on of a call follows of how it ended.
pub fn what_ends_is_a_call()
    ensures { (wanted : Option Order) (input output complaint : Change) (status : Status)
        → Ends wanted input output complaint status
        → IsCallOf wanted input output complaint (status_number status) }
{
    what_is_accepted_fits();
    what_fits_is_accepted();
    status_is_determined();
    is_sound();
}

/// A program that always answers one status other than that of want of memory isn't what `compaan` promises: no other status
/// may end every call, where no sink has a fault.
pub fn no_status_ends_every_call()
    ensures { (status : Status) → ((wanted : Option Order) → MayEndWith wanted status)
        → status ≡ NoMemory }
{}

/// An order to `check` comes to `accepted` exactly where the certificate part stands for a network and a certificate that fit
/// the source's nest (`exact`). On a bundle within the limit where they do, it comes to `accepted` and to nothing else (`fitting`).
pub fn what_fits_is_accepted()
    ensures exact { (wanted : Option Order) (bundle : List ℕ) → AcceptsWhatFits wanted bundle }
    ensures fitting { (check : Order) (bundle : List ℕ)
        → HasFittingCertificate check.params bundle → Accepts check bundle }
{
    one_tree();
    accepts_what_fits();
    reads_what_is_written();
}

/// Where `cert` is done, what was written stands for the network of the source's nest, with the capacities that its
/// schedule needs, and for a certificate with that schedule, which fit the nest. And `check` comes to `accepted`, and to nothing
/// else, on every bundle within the limit with that source and with what was written as its certificate; so on the source, two
/// separators and what was written. The values of the parameters are to agree, name by name, on those that the source declares. `calls` says it of two
/// calls: the first wrote a text, and the second read it behind the source.
pub fn what_cert_writes_is_accepted()
    ensures stands { (cert : Order) (bundle : List ℕ) (written : Outcome)
        → Certifies cert bundle written → StandsForPlanned cert bundle written.output }
    ensures parts { (cert check : Order) (bundle other : List ℕ) (written : Outcome)
        → AgreeOn (source_part bundle) cert.params check.params
        → Certifies cert bundle written → HasCertificate bundle other written.output
        → Accepts check other }
    ensures bytes { (cert check : Order) (bundle : List ℕ) (written : Outcome)
        → AgreeOn (source_part bundle) cert.params check.params
        → Certifies cert bundle written
        → Accepts check (certified (source_part bundle) written.output) }
    ensures calls { (cert check : Call) (bundle text : List ℕ)
        → AgreeOn (source_part bundle) cert.order.params check.order.params
        → WroteCertificate cert bundle text
        → ReadCertificate check (certified (source_part bundle) text)
        → IsDecision check.status → SaysAccepted check.output check.status }
{
    what_fits_is_accepted();
    certificate_has_text();
    what_is_written_stands();
    line_end_changes_no_token();
    line_end_makes_no_separator();
    source_part_has_no_separator();
    certified_bundle_has_its_parts();
}

/// Where `check` is done, the bundle has a fitting certificate.
pub(crate) fn what_is_accepted_fits()
    ensures { (params : List (List ℕ × ℤ)) (bundle : List ℕ) (answer : Result Reply Refusal)
        → Checks params bundle answer
        → (outcome_of answer).status ≡ Done → HasFittingCertificate params bundle }
{
    accepts_what_fits();
    reads_what_is_written();
}
