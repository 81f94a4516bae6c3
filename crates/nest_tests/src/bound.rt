//! Nests of sources, and what is made of them.

ghost use Rattle.std.specs.Prelude.{◌≡◌, IfOk};
ghost use Rattle.sanlp.specs.Points.{points_of};
ghost use Rattle.sanlp.specs.Size.{SizeIsOk};
ghost use Rattle.net_core.specs.Machine.{net_of};
ghost use Rattle.net_core.specs.Orders.{EndsAll};
ghost use Rattle.net_core.specs.Rules.{tags};
ghost use Rattle.net_core.specs.Shape.{FitsNumbers};
ghost use Rattle.net_core.specs.Sound.{IsSound};
ghost use Rattle.net_checker.specs.Fits.{Fits};
ghost use Rattle.witness_plan.specs.Schedules.{planned_network};

use loop_class::{Params, bind};
use loop_lex::lex;
use loop_parse::parse;
use loop_walk::{points, size};
use net_checker::{Verdict, check, is_sound};
use net_core::Network;
use net_maker::compile;
use plain_data::Items;
use sanlp::{Inputs, Nest, Points};
use source_tree::Cert;
use std::alloc::{AllocError, Global};
use std::test::Fail;
use witness_plan::Policy;

// The nest of a source with these values of its parameters.
fn nest_by(alloc: Global, source: &[u8], params: &Params) -> Result<Nest, Fail> {
    if source.len() > u32::MAX as usize {
        return Err(Fail::new("the source is long"));
    }
    let tokens = lex(alloc, source)?;
    let tree = parse(alloc, source, &tokens)?;
    let nest = bind(alloc, source, &tokens, &tree, params);
    drop(tree);
    Ok(nest?)
}

// The nest, where its size is within the limit.
fn sized(nest: Nest) -> Result<Nest, Fail>
    ensures { IfOk result (λ sized. SizeIsOk sized) }
{
    if size(&nest).is_ok() {
        return Ok(nest);
    }
    drop(nest);
    Err(Fail::new("the size is past the limit"))
}

/// The nest of a source whose parameter N, if it has one, has this value. Its size is within the limit.
pub(crate) fn nest_of(alloc: Global, source: &[u8], value: i64) -> Result<Nest, Fail>
    ensures { IfOk result (λ nest. SizeIsOk nest) }
{
    let mut params = Params::empty(alloc);
    params.add(b"N", value)?;
    let nest = nest_by(alloc, source, &params);
    drop(params);
    sized(nest?)
}

/// A nest with its points, and its network and certificate as `compile` makes them.
#[derive(Drop)]
pub(crate) struct Made {
    pub nest: Nest,
    pub points: Points,
    pub network: Network,
    pub cert: Cert,
    ghost size: { SizeIsOk nest },
    ghost points_of_nest: { points.of ≡ points_of nest },
    ghost numbers: { FitsNumbers (net_of network) },
}

// What is accepted is sound. It does nothing.
fn fitting_is_sound(nest: &Nest, network: &Network, cert: &Cert)
    requires { Fits nest.now network.now cert.now }
    ensures { IsSound nest.now network.now }
{
    is_sound();
}

// What is made of a nest and its points.
fn with_network(alloc: Global, nest: Nest, points: Points, policy: Policy) -> Result<Made, Fail>
    requires size { SizeIsOk nest }
    requires points { points.of ≡ points_of nest }
    ensures planned { IfOk result (λ made. made.network ≡ planned_network made.nest policy) }
    ensures sound { IfOk result (λ made. IsSound made.nest made.network) }
    ensures ends { IfOk result
        (λ made. EndsAll (net_of made.network) tags made.cert.schedule) }
{
    match compile(alloc, &nest, policy) {
        Ok((network, cert)) => {
            fitting_is_sound(&nest, &network, &cert);
            Ok(Made {
                nest,
                points,
                network,
                cert,
            })
        }
        Err(error) => {
            drop(nest);
            drop(points);
            Err(Fail::from(error))
        }
    }
}

/// What is made of a source whose parameter N, if it has one, has this value, with the capacities that the schedule under this
/// policy needs.
pub(crate) fn make(alloc: Global, source: &[u8], value: i64, policy: Policy) -> Result<Made, Fail>
    ensures planned { IfOk result (λ made. made.network ≡ planned_network made.nest policy) }
    ensures sound { IfOk result (λ made. IsSound made.nest made.network) }
    ensures ends { IfOk result
        (λ made. EndsAll (net_of made.network) tags made.cert.schedule) }
{
    let nest = nest_of(alloc, source, value)?;
    match points(alloc, &nest) {
        Ok(points) => with_network(alloc, nest, points, policy),
        Err(error) => {
            drop(nest);
            Err(Fail::from(error))
        }
    }
}

/// Whether the checker accepts a network of the nest with a certificate.
pub(crate) fn accepts(
    alloc: Global,
    made: &Made,
    network: &Network,
    cert: &Cert,
) -> Result<bool, AllocError>
    requires { FitsNumbers (net_of network.now) }
{
    let verdict = check(alloc, &made.nest, &made.points, network, cert)?;
    let is_accepted = matches!(verdict, Verdict::Accepted);
    drop(verdict);
    Ok(is_accepted)
}

/// Whether the checker accepts the nest's network with its certificate.
pub(crate) fn is_accepted(alloc: Global, made: &Made) -> Result<bool, AllocError> {
    accepts(alloc, made, &made.network, &made.cert)
}

/// The values of each declared array; none where it is no input.
pub(crate) fn inputs(alloc: Global, arrays: &[&[i64]]) -> Result<Inputs, AllocError> {
    let mut lists = Items::new(alloc);
    for values in arrays {
        lists.push(Items::from_slice(alloc, *values)?)?;
    }
    Ok(Inputs { arrays: lists })
}

/// Whether one of these lists is this one.
pub(crate) fn has_list(lists: &[Items<i64>], wanted: &[i64]) -> bool {
    lists.iter().any(|values| values.as_slice() == wanted)
}

/// It adds 1 to each value.
pub(crate) const INCREMENT: &[u8] =
    b"param N; in x[N]; out y[N]; for (i = 0; i < N; i++) y[i] = x[i] + 1;";
