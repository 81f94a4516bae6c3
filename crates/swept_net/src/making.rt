ghost use Rattle.std.specs.Prelude.{◌≡◌, ◌++◌, IfOk, OnOk, replicate};
ghost use Rattle.sanlp.specs.Size.{SizeIsOk};
ghost use Rattle.net_checker.specs.Fits.{Fits};
ghost use Rattle.net_checker.specs.Shapes.{read_total};
ghost use Rattle.source_tree.specs.Sources.{sources_of};
ghost use Rattle.source_tree.specs.declared.cert.Origin.TheVariants.{Sweep};
ghost use Rattle.net_core.specs.Machine.{net_of};
ghost use Rattle.net_core.specs.Shape.{FitsNumbers};
ghost use Rattle.net_core.specs.Sound.{IsSound};
ghost use Rattle.process_derive.specs.Derived.{net};
ghost use Rattle.witness_plan.specs.Schedules.{planned_network, schedule};
ghost use Rattle.swept_net.specs.Certificates.{swept_cert};

use crate::law::has_certificate;
use net_checker::is_sound;
use net_core::Network;
use plain_data::Items;
use process_derive::{derive_by_turns, numbers_fit};
use sanlp::Nest;
use shadow_sweep::sweep_counted;
use source_tree::{Cert, Origin, SourceTable};
use std::alloc::{AllocError, Global};
use witness_plan::{Policy, other_capacities, plan_for, with_capacities};

// Adds so many origins, each of which says that a read's values come from the last writers.
fn add_swept(sources: &mut Items<Origin>, count: usize) -> Result<(), AllocError>
    ensures { OnOk result (sources.new ≡ sources.old ++ replicate count Sweep) }
{
    for _ in 0..count {
        sources.push(Origin::Sweep)?;
    }
    Ok(())
}

// For each read, that its values come from the last writers.
fn all_swept(alloc: Global, nest: &Nest) -> Result<Items<Origin>, AllocError>
    ensures { IfOk result (λ sources. sources ≡ replicate (read_total nest.now) Sweep) }
{
    let mut sources = Items::new(alloc);
    for statement in nest.statements.as_slice() {
        add_swept(&mut sources, statement.reads.len())?;
    }
    Ok(sources)
}

// The network of a nest, each channel with the number of its tokens as its capacity. The table of sources ends here.
fn derived_network(alloc: Global, nest: &Nest) -> Result<Network, AllocError>
    requires { SizeIsOk nest.now }
    ensures { IfOk result (λ network. network ≡ net nest.now) }
{
    let swept = sweep_counted(alloc, nest)?;
    let network = derive_by_turns(alloc, nest, &swept.turns, &swept.sources)?;
    Ok(network)
}

/// A network with the capacities that a schedule needs, and that schedule.
#[derive(Drop)]
pub struct NetworkPlan {
    pub network: Network,
    /// The number of the process that makes each event.
    pub schedule: Items<u32>,
}

// The network with the capacities that its schedule under a policy needs, from the network that was derived.
fn plan_derived(
    alloc: Global,
    nest: &Nest,
    policy: Policy,
    derived: Network,
) -> Result<NetworkPlan, AllocError>
    requires size { SizeIsOk nest.now }
    requires derived { derived ≡ net nest.now }
    ensures network { IfOk result (λ made. made.network ≡ planned_network nest.now policy) }
    ensures numbers { IfOk result (λ made. FitsNumbers (net_of made.network)) }
    ensures schedule { IfOk result (λ made. made.schedule ≡ schedule nest.now policy) }
{
    numbers_fit(nest);
    other_capacities();
    let witness = plan_for(alloc, nest, &derived, policy)?;
    let network = with_capacities(alloc, derived, witness.capacities.as_slice())?;
    Ok(NetworkPlan {
        network,
        schedule: witness.schedule,
    })
}

/// The network of a nest (Compaan 2000, pn 2007) with the capacities that its schedule under a policy needs, and that schedule.
/// Nothing is refused but want of memory.
pub fn plan_network(alloc: Global, nest: &Nest, policy: Policy) -> Result<NetworkPlan, AllocError>
    requires { SizeIsOk nest.now }
    ensures network { IfOk result (λ made. made.network ≡ planned_network nest.now policy) }
    ensures numbers { IfOk result (λ made. FitsNumbers (net_of made.network)) }
    ensures schedule { IfOk result (λ made. made.schedule ≡ schedule nest.now policy) }
{
    let derived = derived_network(alloc, nest)?;
    plan_derived(alloc, nest, policy, derived)
}

/// The network of `plan_network`. It is sound, as each network is that the checker accepts: in every order of events it computes
/// what the nest computes. Neither points nor a certificate are made. Nothing is refused but want of memory.
pub fn compile_network(alloc: Global, nest: &Nest, policy: Policy) -> Result<Network, AllocError>
    requires { SizeIsOk nest.now }
    ensures network { IfOk result (λ network. network ≡ planned_network nest.now policy) }
    ensures numbers { IfOk result (λ network. FitsNumbers (net_of network)) }
    ensures sound { IfOk result (λ network. IsSound nest.now network) }
{
    has_certificate(nest);
    is_sound();
    let made = plan_network(alloc, nest, policy)?;
    Ok(made.network)
}

/// A network of a nest, a certificate of it, and the last writers that the network was derived from.
#[derive(Drop)]
pub struct SweptNetwork {
    pub network: Network,
    pub cert: Cert,
    pub sources: SourceTable,
}

/// The network of `compile_network`, its certificate whose reads all have their values from the last writers, and these, with
/// which `check_with_sources` needs no sweep of its own. Network and certificate fit the nest, so the checker accepts them.
/// Nothing is refused but want of memory.
pub fn compile_with_sources(
    alloc: Global,
    nest: &Nest,
    policy: Policy,
) -> Result<SweptNetwork, AllocError>
    requires { SizeIsOk nest.now }
    ensures network { IfOk result (λ made. made.network ≡ planned_network nest.now policy) }
    ensures numbers { IfOk result (λ made. FitsNumbers (net_of made.network)) }
    ensures cert { IfOk result
        (λ made. made.cert ≡ swept_cert nest.now (schedule nest.now policy)) }
    ensures fits { IfOk result (λ made. Fits nest.now made.network made.cert) }
    ensures sources { IfOk result (λ made. made.sources.of ≡ sources_of nest.now) }
{
    has_certificate(nest);
    let swept = sweep_counted(alloc, nest)?;
    let derived = derive_by_turns(alloc, nest, &swept.turns, &swept.sources)?;
    let made = plan_derived(alloc, nest, policy, derived)?;
    let cert = Cert {
        sources: all_swept(alloc, nest)?,
        schedule: made.schedule,
    };
    Ok(SweptNetwork {
        network: made.network,
        cert,
        sources: swept.sources,
    })
}
