ghost use Rattle.std.specs.Prelude.{◌≡◌, ◌<◌, length, true, false, IfSome, IfNone};
ghost use Rattle.net_core.specs.Held.{held_of, run_of, IsFor};
ghost use Rattle.net_core.specs.Machine.{net_of};
ghost use Rattle.trace_board.specs.Advances.{Tells};
ghost use Rattle.trace_board.specs.Lanes.{IsLeastEnabled, IsLaneStuck, HasLaneEnded, IsUnendedInLane};

use net_core::{Network, State, enabled, position};
use sanlp::Tag;

/// What an advance of a lane did.
#[derive(Clone, Copy, Debug, PartialEq, Eq)]
pub enum Advance {
    /// The process of this number made its next event.
    Stepped(u32),
    /// Nothing: no process of the lane is enabled, and one hasn't ended.
    Idle,
    /// Nothing: all processes of the lane have ended.
    Done,
}

// The least enabled process of a lane, if there is one.
fn least_enabled(state: &State<Tag>, network: &Network, lane: u32, lanes: u32) -> Option<u32>
    requires state { IsFor (net_of network.now) (held_of state.now) }
    requires lane { lane < lanes }
    ensures none { IfNone result
        (IsLaneStuck (net_of network.now) (run_of state.now) lane lanes) }
    ensures least { IfSome result
        (λ p. IsLeastEnabled (net_of network.now) (run_of state.now) lane lanes p) }
{
    for at in 0..network.processes.len() {
        let process = at as u32;
        if process % lanes != lane {
            continue;
        }
        if enabled(state, network, process) {
            return Some(process);
        }
    }
    None
}

// Whether a process isn't at its script's end.
fn is_unended(state: &State<Tag>, network: &Network, process: u32) -> bool
    requires state { IsFor (net_of network.now) (held_of state.now) }
    requires process { process < (net_of network.now).processes }
    ensures ended { result ≡ false
        → ((run_of state.now).local process).position
        ≡ length ((net_of network.now).script process) }
    ensures unended { result ≡ true
        → ((run_of state.now).local process).position
        < length ((net_of network.now).script process) }
{
    let script = &network.processes.as_slice()[process as usize].script;
    position(state, process) < script.len()
}

// The least process of a lane that isn't at its script's end, if there is one.
fn unended_in_lane(state: &State<Tag>, network: &Network, lane: u32, lanes: u32) -> Option<u32>
    requires state { IsFor (net_of network.now) (held_of state.now) }
    requires lane { lane < lanes }
    ensures none { IfNone result
        (HasLaneEnded (net_of network.now) (run_of state.now) lane lanes) }
    ensures some { IfSome result
        (λ p. IsUnendedInLane (net_of network.now) (run_of state.now) lane lanes p) }
{
    for at in 0..network.processes.len() {
        let process = at as u32;
        if process % lanes != lane {
            continue;
        }
        if is_unended(state, network, process) {
            return Some(process);
        }
    }
    None
}

/// What an advance of a lane does in this state. It takes no memory, and the time of at most two looks at each
/// process.
pub(crate) fn look(state: &State<Tag>, network: &Network, lane: u32, lanes: u32) -> Advance
    requires state { IsFor (net_of network.now) (held_of state.now) }
    requires lane { lane < lanes }
    ensures { Tells (net_of network.now) (run_of state.now) lane lanes result }
{
    if let Some(process) = least_enabled(state, network, lane, lanes) {
        return Advance::Stepped(process);
    }
    match unended_in_lane(state, network, lane, lanes) {
        Some(_) => Advance::Idle,
        None => Advance::Done,
    }
}
