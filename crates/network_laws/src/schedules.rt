ghost use Rattle.std.specs.Prelude.{◌≡◌, ◌<◌, ◌≤◌, ◌++◌, ℕ, List, length};
ghost use Rattle.sanlp.specs.declared.nest.Inputs.{Inputs};
ghost use Rattle.sanlp.specs.declared.nest.Nest.{Nest as NestOf};
ghost use Rattle.source_tree.specs.declared.cert.Cert.{Cert};
ghost use Rattle.net_core.specs.declared.network.Network.{Network};
ghost use Rattle.net_core.specs.Machine.{net_of};
ghost use Rattle.net_core.specs.Orders.{EndsAll};
ghost use Rattle.net_core.specs.Rules.{tags, values};
ghost use Rattle.net_core.specs.Sound.{IsSound};
ghost use Rattle.net_checker.specs.Fits.{Fits};
ghost use Rattle.swept_net.specs.Certificates.{swept_cert};
ghost use Rattle.witness_plan.specs.Sequential.{with_capacities};
ghost use Rattle.cap_trim.specs.Capacities.{IsPlanned, capacity_list, trimmed_network, with_room};
ghost use Rattle.cap_trim.specs.Rests.{least_run};
ghost use Rattle.cert_text.specs.CertText.{entry_text, head_text, parts_text};
ghost use Rattle.cert_text.specs.StandsFor.{StandsFor};
ghost use Rattle.network_laws.specs.Entries.{text_with_run, text_with_lines};

use crate::capacities::least_capacities_are_minimal;
use derived_names::{has_classes_of_uses, names_last_writers};
use net_checker::is_sound;
use net_core::every_order;
use process_derive::fits_nest;
use sanlp::{Nest, Tag};

// Each of these does nothing: its contract is a law over the definitions.

/// Any run that ends all, over tags or over values, may stand as the schedule of a certificate: where a network and a certificate
/// fit a nest, they do so with this run as the schedule. So what `trace` writes is a schedule that the checker accepts.
pub fn any_full_run_is_a_schedule()
    ensures tags { (n : NestOf) (network : Network) (cert : Cert) (run : List ℕ)
        → Fits n network cert → EndsAll (net_of network) tags run
        → Fits n network (record { sources = cert.sources; schedule = run }) }
    ensures values { (n : NestOf) (network : Network) (cert : Cert) (d : Inputs) (run : List ℕ)
        → Fits n network cert → EndsAll (net_of network) (values n d) run
        → Fits n network (record { sources = cert.sources; schedule = run }) }
{
    every_order::<i64, Tag>();
}

/// So it is with texts: where a text stands for a network and a certificate that fit a nest, the same text with a run that ends all
/// in the place of its schedule stands for the network and the certificate with that run. It has a line for each event of the run,
/// those that `trace` writes between its first line and its last, and their number in the line of sizes; before and behind them
/// all is as it was. So the checker accepts what the text stands for.
pub fn any_full_run_has_a_text()
    ensures stands { (n : NestOf) (network : Network) (cert : Cert) (text run : List ℕ)
        → (stands : StandsFor text network cert) → Fits n network cert
        → EndsAll (net_of network) tags run
        → StandsFor (text_with_run stands run) network
        (record { sources = cert.sources; schedule = run }) }
    ensures before { (network : Network) (cert : Cert) (text : List ℕ)
        → (stands : StandsFor text network cert)
        → text ≡ head_text stands.version
        ++ text_with_lines stands.folded (length stands.folded.schedule.parts)
        (parts_text entry_text stands.folded.schedule.parts) }
{
    any_full_run_is_a_schedule();
}

/// The network of a nest with the capacities that `trim` tells fits the nest and is sound for it, and no capacities that are
/// nowhere above these and below them at some channel let any run end all.
pub fn trimmed_network_is_sound(nest: &Nest)
    ensures fits { (network : Network) (capacities : List ℕ) → IsPlanned nest.now network
        → capacities ≡ capacity_list (trimmed_network (net_of network))
        → Fits nest.now (with_capacities network capacities)
        (swept_cert nest.now (least_run (net_of (with_capacities network capacities)))) }
    ensures sound { (network : Network) (capacities : List ℕ) → IsPlanned nest.now network
        → capacities ≡ capacity_list (trimmed_network (net_of network))
        → IsSound nest.now (with_capacities network capacities) }
    ensures minimal { (network : Network) (lesser : ℕ → ℕ) (c : ℕ) (run : List ℕ)
        → IsPlanned nest.now network → c < length network.channels
        → ((d : ℕ) → d < length network.channels
        → lesser d ≤ (trimmed_network (net_of network)).capacity d)
        → lesser c < (trimmed_network (net_of network)).capacity c
        → EndsAll (with_room (net_of network) lesser) tags run → ⊥ }
{
    fits_nest(nest);
    names_last_writers(nest);
    has_classes_of_uses(nest);
    is_sound();
    least_capacities_are_minimal::<Tag>();
}
