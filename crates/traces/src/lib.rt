// A trace gone through by time: the releases of one time, from the place that a walk over the slots has come to, and whether there are any.
#![tactic(auto)]

ghost use Rattle.std.specs.Prelude.{◌≡◌, suc, ◌≤◌};
ghost use Rattle.rules.specs.Case.{release_count};
ghost use Rattle.bridge.specs.Turn.{Reached};
ghost use Rattle.traces.specs.Traces.{Orderly, releases, due};

use rules::MAX_TASKS;

// The releases of one time: the first that comes later, with the tasks that are released.
pub fn take_releases(
    trace: &[u32],
    from: usize,
    clock: u32,
    released: &mut [bool; MAX_TASKS],
) -> usize
    requires orderly { Orderly trace.now }
    requires reached { Reached trace.now from clock }
    ensures { (from ≤ result) × Reached trace.now result (suc clock)
        × (released.new ≡ releases trace.now (release_count trace.now) clock) }
{
    *released = [false; MAX_TASKS];
    let n = cases::release_count(trace);
    for k in from..n {
        if cases::time_of(trace, k) != clock {
            return k;
        }
        let i = cases::name_of(trace, k) as usize - 1;
        released[i] = true;
    }
    n
}

// Whether the next release is one of this time.
pub fn is_due(trace: &[u32], next: usize, clock: u32) -> bool
    ensures { result ≡ due trace.now next clock }
{
    next < cases::release_count(trace) && cases::time_of(trace, next) == clock
}
