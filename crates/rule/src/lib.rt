// Whether a set that a log names keeps the rule of a slot: min(m, N) of the jobs present run, and no job that waits comes before one that
// runs, by kind and then deadline. One pass over the tasks tells it: of all turns it needs the least of a job that waits and the greatest
// of one that runs.
#![tactic(auto)]

ghost use Rattle.std.specs.Prelude.{◌≡◌, List, ℕ};
ghost use Rattle.rules.specs.Words.{holds_below};
ghost use Rattle.rules.specs.Limits.{max_tasks};
ghost use Rattle.rules.specs.Slot.{setup_of, present, jobs_now};
ghost use Rattle.rules.specs.Log.{keeps_rule};
ghost use Rattle.lists.specs.Lists.{members};
ghost use Rattle.rule.specs.NoneWait.{same_at, absent};

use rules::{MAX_TASKS, Run};

// Whether nobody is named, which is all that the rule asks where no task has a job. The loop has no early exit: all tasks are looked at
// alike, so that many can be at once.
pub fn is_nobody(named: &[bool; MAX_TASKS]) -> bool
    ensures { result ≡ holds_below (absent (members named.now)) max_tasks }
{
    let mut none = true;
    for is_named in named {
        none &= !*is_named;
    }
    none
}

// Whether just the tasks that have a job are named. No early exit here either: each task is compared alike, so that many can be at once.
fn all_run(r: Run, named: &[bool; MAX_TASKS]) -> bool
    ensures { result ≡ holds_below (same_at (present r) (members named.now)) max_tasks }
{
    let mut same = true;
    for i in 0..MAX_TASKS {
        same &= jobs::has_job(r.tasks[i].job) == named[i];
    }
    same
}

// The table has no say in it. Where no job waits the set must be that of the tasks that have a job, and nothing else is looked at. A turn
// is below 3 * 2^32, so the largest number stands for no job that waits and 0 for none that runs: no turn is above the one or below the
// other. Jobs with the same turn may run in either's place.
pub fn keeps(
    r: Run,
    procs: u32,
    policy: u32,
    clock: u32,
    jobs: usize,
    named: &[bool; MAX_TASKS],
) -> bool
    requires { jobs ≡ jobs_now r }
    ensures { (table : List ℕ) → result ≡ keeps_rule (setup_of procs policy table) clock r (members named.now) }
{
    if jobs <= procs as usize {
        return all_run(r, named);
    }
    let mut count = 0;
    let mut all_there = true;
    let mut waiting = u64::MAX;
    let mut running = 0;
    for i in 0..MAX_TASKS {
        let t = r.tasks[i];
        let there = jobs::has_job(t.job);
        if named[i] {
            count += 1;
            if there {
                running = running.max(choice::turn_of(t.job, policy, clock));
            } else {
                all_there = false;
            }
        } else if there {
            waiting = waiting.min(choice::turn_of(t.job, policy, clock));
        }
    }
    if count != procs as usize {
        return false;
    }
    running <= waiting && all_there
}
