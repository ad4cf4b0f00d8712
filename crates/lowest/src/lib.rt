// The lowest task and the lowest release that is at fault: one loop each. One test alone is in the crate faults.
#![tactic(auto)]

ghost use Rattle.std.specs.Prelude.{◌≡◌, ◌≤◌, ◌<◌, Err, Ok};
ghost use Rattle.rules.specs.Words.{pick};
ghost use Rattle.rules.specs.Limits.{max_tasks, max_end, max_releases};
ghost use Rattle.rules.specs.Case.{task_count, release_count};
ghost use Rattle.rules.specs.Refusals.{checked, first_of, tasks_fault, release_fault};
ghost use Rattle.lowest.specs.Needs.{Sound, lasts, Early, ReleasesTested, unkept_fault};

use faults::refuse_unless;
use rules::{Fault, MAX_TASKS};

// 6, task by task
#[tactic(auto, using(legal::specs::Firsts::many))]
pub fn tasks_fault(table: &[u32]) -> Result<(), Fault>
    requires { task_count table.now ≤ max_tasks }
    ensures { result ≡ checked (tasks_fault table.now) }
{
    for i in 0..cases::task_count(table) {
        faults::task_fault(table, i)?;
    }
    Ok(())
}

// The tests of a release, of which the first that fails is the fault. What `last` holds of a task is one more than the time of its last
// release, or 0.
#[tactic(auto, using(legal::specs::Firsts::refused, legal::specs::Firsts::rows), unfolding(rules::specs::Refusals::release_fault))]
pub fn release_fault(
    table: &[u32],
    end: u32,
    trace: &[u32],
    j: usize,
    last: &[u32; MAX_TASKS],
) -> Result<(), Fault>
    requires { Sound table.now × (j < release_count trace.now) × (release_count trace.now ≤ max_releases)
        × (last.now ≡ lasts trace.now j) × Early trace.now j }
    ensures { result ≡ checked (release_fault table.now end trace.now j) }
{
    let time = cases::time_of(trace, j);
    let name = cases::name_of(trace, j);
    let place = (j + 1) as u32;
    refuse_unless(faults::is_named(table, name), 8, place)?;
    refuse_unless(time < end, 11, place)?;
    refuse_unless(faults::in_order(trace, j), 9, place)?;
    let i = name as usize - 1;
    let period = cases::period_of(table, i);
    refuse_unless(faults::is_apart(last[i], period, time), 10, place)
}

// Release by release, each after those before it; what `last` then holds is known where none is refused. It is lent: an array that is
// answered is on the stack twice.
pub fn releases_fault(
    table: &[u32],
    end: u32,
    trace: &[u32],
    last: &mut [u32; MAX_TASKS],
) -> Result<(), Fault>
    requires { Sound table.now × (release_count trace.now ≤ max_releases) × (end ≤ max_end) }
    ensures { ReleasesTested table.now end trace.now last.new result }
{
    *last = [0; MAX_TASKS];
    for j in 0..cases::release_count(trace) {
        release_fault(table, end, trace, j, last)?;
        let time = cases::time_of(trace, j);
        let i = cases::name_of(trace, j) as usize - 1;
        last[i] = time + 1;
    }
    Ok(())
}

// 16, task by task, from what is kept of each one's last release: the trace is not gone through again.
#[tactic(auto, using(legal::specs::Firsts::many), unfolding(crate::specs::Needs::unkept_fault))]
pub fn absences_fault(table: &[u32], last: &[u32; MAX_TASKS]) -> Result<(), Fault>
    requires { task_count table.now ≤ max_tasks }
    ensures { result ≡ checked (first_of (unkept_fault last.now) (task_count table.now)) }
{
    for k in 0..cases::task_count(table) {
        faults::absent_fault(last[k], k)?;
    }
    Ok(())
}
