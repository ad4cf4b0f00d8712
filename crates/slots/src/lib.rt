// The slots of a case one after the other, with the records written as they stand (crate notes): one loop for every call that plays a case.
#![tactic(auto)]

ghost use Rattle.std.specs.Prelude.{◌≡◌, true, suc, ◌≤◌};
ghost use Rattle.rules.specs.Limits.{max_releases};
ghost use Rattle.rules.specs.Case.{release_count};
ghost use Rattle.rules.specs.Replay.{fresh};
ghost use Rattle.legal.specs.Passing.{Procs, Sound};
ghost use Rattle.counts.specs.Needs.{Counts};
ghost use Rattle.bridge.specs.Turn.{Reached};
ghost use Rattle.traces.specs.Traces.{Orderly, releases};
ghost use Rattle.slots.specs.Walks.{places, Rests, room_at, LastRan};

use cases::AcceptedCase;
use rules::{MAX_TASKS, Run};

// ---- the trace

// The place of each task's last release, kept on over the releases from one place to another.
#[tactic(auto, using(crate::proofs::Trace::places_more))]
fn keep_places(trace: &[u32], from: usize, next: usize, place: &mut [u16; MAX_TASKS])
    requires orderly { Orderly trace.now }
    requires from_le_next { from ≤ next }
    requires next_bound { next ≤ release_count trace.now }
    requires trace_bound { release_count trace.now ≤ max_releases }
    requires place_value { place.old ≡ places trace.now from }
    ensures { place.new ≡ places trace.now next }
{
    for k in from..next {
        let i = cases::name_of(trace, k) as usize - 1;
        place[i] = k as u16;
    }
}

// The releases of one time: the first that comes later, with the tasks that are released and the place of each task's last release.
fn pass_releases(
    trace: &[u32],
    from: usize,
    clock: u32,
    place: &mut [u16; MAX_TASKS],
    released: &mut [bool; MAX_TASKS],
) -> usize
    requires orderly { Orderly trace.now }
    requires reached { Reached trace.now from clock }
    requires trace_bound { release_count trace.now ≤ max_releases }
    requires place_value { place.old ≡ places trace.now from }
    ensures { Reached trace.now result (suc clock) × (place.new ≡ places trace.now result)
        × (released.new ≡ releases trace.now (release_count trace.now) clock) }
{
    let next = traces::take_releases(trace, from, clock, released);
    keep_places(trace, from, next, place);
    next
}

// Whether the slot at `clock` has nothing to do, so that it can be passed over: the last slot had no job, and no release comes now.
fn rests(trace: &[u32], next: usize, jobs: usize, clock: u32) -> bool
    ensures { result ≡ true → Rests trace.now next jobs clock }
{
    jobs == 0 && !traces::is_due(trace, next, clock)
}

// ---- the slots of a case

// Before the first slot: the free count of each task of the table, and every task idle. One loop makes both: where a loop only numbers the
// tasks the compiler unrolls it, takes the run apart into 32 tasks, and copies them one by one in every slot.
fn start(procs: u32, table: &[u32], counts: &mut [u32; MAX_TASKS]) -> Run
    requires { Sound table.now × Procs procs }
    ensures { (result ≡ fresh) × Counts procs table.now counts.new }
{
    *counts = [0; MAX_TASKS];
    let tasks = cases::task_count(table);
    let none = slot::idle_task(0);
    let mut s = Run {
        tasks: [none; MAX_TASKS],
    };
    for i in 0..MAX_TASKS {
        if i < tasks {
            counts[i] = counts::free_count(procs, table, i);
        }
        s.tasks[i] = slot::idle_task(i as u32 + 1);
    }
    s
}

// The slots before a time: the set that ran in the last of them, with the records where they are wanted. This one loop serves every call.
// It calls the parts of a slot itself, and each puts the run where it was: a function for the slot as a whole would hold it once more
// between its parts, on the stack. `late` has the tasks whose job step 1 removes as missed, in this slot and then in the next; `bound` is
// what the choice found last, from which it goes on.
pub fn walk(accepted: &AcceptedCase, until: u32, noting: bool, out: &mut [u32]) -> [bool; MAX_TASKS]
    requires until_le_end { until ≤ accepted.now.end }
    requires out_value { noting ≡ true → out.old ≡ room_at accepted.now 0 out.old }
    ensures { LastRan accepted.now until result × (noting ≡ true → out.new ≡ room_at accepted.now until out.old) }
{
    let case = &accepted.case;
    let (procs, policy) = (case.procs, case.policy);
    let mut counts = [0; MAX_TASKS];
    let mut run = start(procs, case.table, &mut counts);
    let mut place = [0; MAX_TASKS];
    let mut next = 0;
    let mut jobs = 0;
    let mut bound = 0;
    let mut ran = [false; MAX_TASKS];
    for clock in 0..until {
        if rests(case.trace, next, jobs, clock) {
            ran = [false; MAX_TASKS];
        } else {
            let mut released = [false; MAX_TASKS];
            let mut demoted = [false; MAX_TASKS];
            let mut done = [false; MAX_TASKS];
            let mut late = [false; MAX_TASKS];
            next = pass_releases(case.trace, next, clock, &mut place, &mut released);
            run = slot::settle(
                run,
                procs,
                policy,
                case.table,
                &counts,
                &released,
                clock,
                &mut jobs,
                &mut late,
                &mut demoted,
                &mut ran,
            );
            bound = choice::choose(run, procs, policy, clock, jobs, bound, &mut ran);
            run = slot::work(run, procs, policy, clock, jobs, &ran, &mut done, &mut late);
            if noting {
                notes::note_slot(out, &place, &done, &demoted, &late, clock);
            }
        }
    }
    ran
}
