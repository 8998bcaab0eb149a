// Which processors count as ended, and how many run.
ghost use Rattle.std.specs.Prelude.{◌≡◌, ◌≤◌, true, length, slice_set};
ghost use Rattle.partition.specs.PartView.{has_ended, is_running, running_of};

use crate::checks::{is_called, standing};
use vsm_base::{Items, VpIndex};
use vsm_core::PartitionState;

/// From now on a processor counts as ended, where there is one.
pub fn end(ended: &mut Items<bool>, vp: VpIndex)
    ensures { ended.new ≡ slice_set ended.old vp.0 true }
{
    let at = usize::from(vp.0);
    if at < ended.len() {
        ended.set(at, true);
    }
}

fn has_ended(ended: &Items<bool>, vp: u8) -> bool
    ensures { result ≡ has_ended ended.now vp }
{
    match ended.as_slice().get(usize::from(vp)) {
        Some(ended) => *ended,
        None => false,
    }
}

fn is_running(state: &PartitionState, ended: &Items<bool>, vp: u8) -> bool
    ensures { result ≡ is_running state.now ended.now vp }
{
    is_called(&standing(state, u32::from(vp))) && !has_ended(ended, vp)
}

/// How many processors are started or accepted and don't count as ended.
pub fn running_of(state: &PartitionState, ended: &Items<bool>) -> u8
    requires { length state.now.vps ≤ 8 }
    ensures { result ≡ running_of state.now ended.now }
{
    let mut count = 0;
    for vp in 0..state.vps.len() as u8 {
        if is_running(state, ended, vp) {
            count += 1;
        }
    }
    count
}
