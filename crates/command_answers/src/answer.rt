ghost use Rattle.std.specs.Prelude.{◌≡◌, None, IsTrue, length};
ghost use Rattle.std.specs.List.{list_all};
ghost use Rattle.deps_text.specs.FireLines.{IsSweptOfIfAny, can_be_told};
ghost use Rattle.vhdl_text.specs.Refusal.{first_too_long};
ghost use Rattle.net_core.specs.Machine.{net_of};
ghost use Rattle.net_core.specs.Shape.{FitsNumbers};

use cap_trim::Trimmed;
use cert_lines::CertError;
use clock_sim::Clocked;
use deps_text::{Dependence, Swept};
use matrix_load::Summary;
use net_checker::Verdict;
use net_core::Network;
use node_automata::NodeAuto;
use number_text::NetworkNumbers;
use plain_data::Items;
use sanlp::{Arrays, Nest};
use source_tree::Cert;

/// The values of the output arrays of a nest.
#[derive(Drop)]
pub struct ArrayAnswer {
    pub nest: Nest,
    pub arrays: Arrays,
    ghost whole: { length arrays.arrays ≡ length nest.arrays },
}

/// A network of a nest.
#[derive(Drop)]
pub struct NetworkAnswer {
    pub nest: Nest,
    pub network: Network,
    ghost numbers: { FitsNumbers (net_of network) },
}

/// What the text tells of a nest's network, where there is no network.
#[derive(Drop)]
pub struct NumbersAnswer {
    pub nest: Nest,
    pub numbers: NetworkNumbers,
}

/// A network with its certificate.
#[derive(Drop)]
pub struct CertificateAnswer {
    pub network: Network,
    pub cert: Cert,
}

/// A network with the automata of its processes, none of which has too long a script.
#[derive(Drop)]
pub struct NodesAnswer {
    pub network: Network,
    pub autos: Items<NodeAuto>,
    ghost short: { first_too_long autos ≡ None },
}

/// What the clocked run of a nest's network gives.
#[derive(Drop)]
pub struct ClockedAnswer {
    pub nest: Nest,
    pub clocked: Clocked,
    ghost whole: { length clocked.arrays.arrays ≡ length nest.arrays },
}

/// Where each read of a nest has its values from, with what was swept of the nest where some read has no tree.
#[derive(Drop)]
pub struct DependencesAnswer {
    pub nest: Nest,
    pub dependences: Items<Dependence>,
    pub swept: Option<Swept>,
    pub ghost swept_of_nest: { IsSweptOfIfAny nest swept },
    pub ghost told: { IsTrue (list_all (can_be_told nest swept) dependences) },
}

/// What is to be written on the output.
#[derive(Drop)]
pub enum Answer {
    Arrays(ArrayAnswer),
    Network(NetworkAnswer),
    /// A network by its numbers.
    Numbers(NumbersAnswer),
    /// What the checker says of a certificate.
    Verdict(Verdict),
    /// Why a certificate can't be read. It isn't want of memory.
    Unread(CertError),
    Summary(Summary),
    Nodes(NodesAnswer),
    Clocked(ClockedAnswer),
    /// Least capacities, and where the network sticks with one place less.
    Trimmed(Trimmed),
    /// A run of a network: the process of each event.
    Trace(Items<u32>),
    Dependences(DependencesAnswer),
}
