ghost use Rattle.std.specs.Prelude.{◌≡◌, ℕ, ℤ, List, Some, Ok};
ghost use Rattle.bundle.specs.Certified.{certified};
ghost use Rattle.bundle.specs.Parts.{source_part};
ghost use Rattle.cert_text.specs.StandsFor.{StandsFor};
ghost use Rattle.command_answers.specs.Source.{GivesWithinSize};
ghost use Rattle.command_line.specs.declared.words.Order.{Order};
ghost use Rattle.compaan_top.specs.CheckAnswers.{AgreeOn, Certifies, HasCertificate};
ghost use Rattle.compaan_top.specs.Headline.{HasFittingCertificate};
ghost use Rattle.call_endings.specs.Outcomes.{Outcome};
ghost use Rattle.net_checker.specs.Fits.{Fits};
ghost use Rattle.net_core.specs.Machine.{net_of};
ghost use Rattle.net_core.specs.Orders.{EndsAll};
ghost use Rattle.net_core.specs.Rules.{tags};
ghost use Rattle.net_core.specs.declared.network.Network.{Network};
ghost use Rattle.network_laws.specs.Entries.{text_with_run};
ghost use Rattle.sanlp.specs.declared.nest.Nest.{Nest};
ghost use Rattle.source_tree.specs.declared.cert.Cert.{Cert};
ghost use Rattle.trace_text.specs.TraceText.{trace_text};
ghost use Rattle.witness_plan.specs.Schedules.{planned_network};
ghost use Rattle.schedule_laws.specs.Calls.{AcceptsText, SurelyAccepts, WritesRun};

use bundle::{
    certified_bundle_has_its_parts, line_end_changes_no_token, line_end_makes_no_separator,
    source_part_has_no_separator,
};
use cert_text::reads_what_is_written;
use compaan_top::{what_cert_writes_is_accepted, what_fits_is_accepted};
use loop_parse::one_tree;
use net_checker::accepts_what_fits;
use network_laws::{any_full_run_has_a_text, any_full_run_is_a_schedule};

// Each of these does nothing: its contract is a law over the definitions.

/// A source and the text of a fitting certificate with a run that ends all in the place of its schedule are a fitting certificate.
fn has_fitting_certificate_with_run()
    ensures parts { (params : List (List ℕ × ℤ)) (bundle other text run : List ℕ) (nest : Nest)
        (network : Network) (cert : Cert)
        → GivesWithinSize (source_part bundle) params (Ok nest)
        → (stands : StandsFor text network cert) → Fits nest network cert
        → EndsAll (net_of network) tags run
        → HasCertificate bundle other (text_with_run stands run)
        → HasFittingCertificate params other }
    ensures bytes { (params : List (List ℕ × ℤ)) (bundle text : List ℕ) (nest : Nest)
        → GivesWithinSize (source_part bundle) params (Ok nest)
        → HasCertificate bundle (certified (source_part bundle) text) text }
{
    any_full_run_is_a_schedule();
    any_full_run_has_a_text();
    line_end_changes_no_token();
    line_end_makes_no_separator();
    source_part_has_no_separator();
    certified_bundle_has_its_parts();
}

/// Any run that ends all may stand as the schedule of a certificate, over the bytes of bundles. Let `check` come to `accepted` on a
/// bundle, let its certificate stand for a network, and let a run of this network end all. Then `check` comes to `accepted`, and to
/// nothing else, on every bundle within the limit that has the same source and this run in the place of the certificate's schedule:
/// a line for each event and their number in the line of sizes, and all else of the certificate as it was (`parts`). So it does on
/// the source, two separators and that text (`bytes`). And the text with the run stands for the same network (`stands`), so that
/// another run may take the place of this one in turn. Nothing is asked of the run but that it ends all, and no limit but that of
/// the bundle. That much is needed: where `check` comes to `accepted`, the schedule that the certificate stands for is a run that
/// ends all (`only`).
pub fn any_full_run_is_accepted()
    ensures parts { (check : Order) (bundle other text run : List ℕ) (network : Network)
        (cert : Cert)
        → AcceptsText check bundle text → (stands : StandsFor text network cert)
        → EndsAll (net_of network) tags run
        → HasCertificate bundle other (text_with_run stands run)
        → SurelyAccepts check other (text_with_run stands run) }
    ensures bytes { (check : Order) (bundle text run : List ℕ) (network : Network) (cert : Cert)
        → AcceptsText check bundle text → (stands : StandsFor text network cert)
        → EndsAll (net_of network) tags run
        → SurelyAccepts check (certified (source_part bundle) (text_with_run stands run))
        (text_with_run stands run) }
    ensures stands { (check : Order) (bundle text run : List ℕ) (network : Network) (cert : Cert)
        → AcceptsText check bundle text → (stands : StandsFor text network cert)
        → EndsAll (net_of network) tags run
        → StandsFor (text_with_run stands run) network
        (record { sources = cert.sources; schedule = run }) }
    ensures only { (check : Order) (bundle text : List ℕ) (network : Network) (cert : Cert)
        → AcceptsText check bundle text → StandsFor text network cert
        → EndsAll (net_of network) tags cert.schedule }
{
    has_fitting_certificate_with_run();
    what_fits_is_accepted();
    accepts_what_fits();
    any_full_run_has_a_text();
    reads_what_is_written();
}

/// What `trace` writes may stand as the schedule of a certificate. Where `trace` is done, it has written the text of a run, of the
/// network of its source with the capacities that its policy's schedule needs, that ends all (`run`). Where `check` comes to
/// `accepted` on a bundle whose certificate stands for that network, it does so, and comes to nothing else, on the bundle with the
/// run in the place of the certificate's schedule, where this is within the limit (`accepted`). And so it does with what `cert`
/// wrote of that bundle under that policy, where the values of the parameters agree, name by name, on those that the source
/// declares (`cert`).
pub fn what_trace_writes_is_accepted()
    ensures run { (trace : Order) (bundle : List ℕ) (nest : Nest) (trace_outcome : Outcome)
        → GivesWithinSize (source_part bundle) trace.params (Ok nest)
        → WritesRun trace bundle trace_outcome
        → (run : List ℕ) × (trace_outcome.output ≡ trace_text run)
        × EndsAll (net_of (planned_network nest trace.policy)) tags run }
    ensures accepted { (check trace : Order) (check_bundle trace_bundle text : List ℕ)
        (nest : Nest) (cert : Cert) (trace_outcome : Outcome)
        → GivesWithinSize (source_part trace_bundle) trace.params (Ok nest)
        → WritesRun trace trace_bundle trace_outcome → AcceptsText check check_bundle text
        → (stands : StandsFor text (planned_network nest trace.policy) cert)
        → (run : List ℕ) × (trace_outcome.output ≡ trace_text run)
        × SurelyAccepts check
        (certified (source_part check_bundle) (text_with_run stands run))
        (text_with_run stands run) }
    ensures cert { (cert trace check : Order) (bundle : List ℕ) (network : Network)
        (certificate : Cert) (cert_outcome trace_outcome : Outcome)
        → trace.policy ≡ cert.policy → AgreeOn (source_part bundle) cert.params trace.params
        → AgreeOn (source_part bundle) cert.params check.params
        → Certifies cert bundle cert_outcome → WritesRun trace bundle trace_outcome
        → (stands : StandsFor cert_outcome.output network certificate)
        → (run : List ℕ) × (trace_outcome.output ≡ trace_text run)
        × SurelyAccepts check (certified (source_part bundle) (text_with_run stands run))
        (text_with_run stands run) }
{
    has_fitting_certificate_with_run();
    what_fits_is_accepted();
    any_full_run_is_accepted();
    what_cert_writes_is_accepted();
    reads_what_is_written();
    one_tree();
}
