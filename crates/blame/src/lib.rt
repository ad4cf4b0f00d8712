// The words for a log's slot: which part of the rule it breaks, and by which tasks. A task is looked for by its index, and written as its
// number.
#![tactic(auto)]

ghost use Rattle.std.specs.Prelude.{◌≡◌, ◌&&◌, not, ◌+◌, ◌≤◌, ◌<◌, min, length, ℕ, List};
ghost use Rattle.rules.specs.Limits.{max_tasks};
ghost use Rattle.rules.specs.Slot.{job_at, jobs_now, present};
ghost use Rattle.rules.specs.Log.{sooner, wronged};
ghost use Rattle.puts.specs.Laid.{Laid};
ghost use Rattle.blame.specs.Blames.{setup_with, ran_count, kind_words, job_words, pair_words, absent_words, count_words};
ghost use Rattle.lists.specs.Lists.{members};
ghost use Rattle.blame.specs.Blames.{kind_room, job_room, fault_room, blame_room};
ghost use Rattle.blame.specs.Blames.{Absent, Overtaking, Waiting, WaitingLaid, FaultLaid, Blamed};

use choice::kind_of;
use jobs::{due_of, has_job, is_demoted};
use puts::{put_bytes, put_number};
use rules::{Job, MAX_TASKS, Run};

// The bytes that the words of every slot fit into.
pub const BLAME_ROOM: usize = 122;

// A slot of a log: the run as it stands after steps 1 to 3, what the rule goes by, and the set that the line names.
#[derive(Clone, Copy)]
struct Slot<'a> {
    run: &'a Run,
    procs: u32,
    policy: u32,
    clock: u32,
    named: &'a [bool; MAX_TASKS],
}

// ---- what is wrong

// Whether a job comes strictly before another by kind and then deadline.
fn is_sooner(a: Job, b: Job, policy: u32, clock: u32) -> bool
    ensures { result ≡ sooner policy clock a b }
{
    let ours = kind_of(a, policy, clock);
    let theirs = kind_of(b, policy, clock);
    ours < theirs || (ours == theirs && due_of(a) < due_of(b))
}

impl Slot<'_> {
    // The job of a task.
    fn job(&self, i: usize) -> Job
        requires { i < max_tasks }
        ensures { result ≡ job_at self.now.run.now i }
    {
        self.run.tasks[i].job
    }

    // Whether a task runs without a job.
    #[tactic(auto, unfolding(rules::specs::Slot::present))]
    fn is_absent(&self, i: usize) -> bool
        requires { i < max_tasks }
        ensures { result ≡ (members self.now.named.now i && not (present self.now.run.now i)) }
    {
        self.named[i] && !has_job(self.job(i))
    }

    // The lowest task that runs without a job.
    fn absent_task(&self) -> Option<usize>
        ensures { Absent self.now.run.now self.now.named.now result }
    {
        for i in 0..MAX_TASKS {
            if self.is_absent(i) {
                return Some(i);
            }
        }
        None
    }

    // How many run.
    fn ran_count(&self) -> usize
        ensures { result ≡ ran_count (members self.now.named.now) }
    {
        let named = self.named;
        named.iter().filter(|runs| **runs).count()
    }

    // The N of step 4: how many jobs are present.
    fn jobs_now(&self) -> usize
        ensures { result ≡ jobs_now self.now.run.now }
    {
        let run = self.run;
        run.tasks.iter().filter(|t| has_job(t.job)).count()
    }

    // How many should run: as many as there are processors, where there are more jobs.
    fn due_count(&self) -> usize
        ensures { result ≡ min self.now.procs (jobs_now self.now.run.now) }
    {
        self.jobs_now().min(self.procs as usize)
    }

    // Whether the job of the task at j is left waiting though it comes strictly before that of the task at i, which runs.
    #[tactic(auto, unfolding(rules::specs::Slot::present))]
    fn is_wronged(&self, j: usize, i: usize) -> bool
        requires j_in_bounds { j < max_tasks }
        requires i_in_bounds { i < max_tasks }
        ensures { (table : List ℕ) → result
            ≡ wronged (setup_with self.now table) self.now.clock self.now.run.now (members self.now.named.now) j i }
    {
        has_job(self.job(j))
            && !self.named[j]
            && self.named[i]
            && is_sooner(self.job(j), self.job(i), self.policy, self.clock)
    }

    // The lowest task that runs though the job of the task at j, left waiting, comes strictly before its own.
    fn overtaking_task(&self, j: usize) -> Option<usize>
        requires { j < max_tasks }
        ensures { Overtaking self.now j result }
    {
        for i in 0..MAX_TASKS {
            if self.is_wronged(j, i) {
                return Some(i);
            }
        }
        None
    }

    // The lowest task that waits though it comes strictly before one that runs, and the lowest such one.
    fn waiting_task(&self) -> Option<(usize, usize)>
        ensures { Waiting self.now result }
    {
        for j in 0..MAX_TASKS {
            if let Some(i) = self.overtaking_task(j) {
                return Some((j, i));
            }
        }
        None
    }
}

// ---- in words

// Writes the kind of a job, between its task's number and its deadline.
fn put_kind(out: &mut [u8], at: usize, j: Job) -> usize
    requires { at + kind_room ≤ length out.old }
    ensures { Laid at (kind_words j) out.old out.new result }
{
    if is_demoted(j) {
        return put_bytes(out, at, b" (demoted, deadline ");
    }
    put_bytes(out, at, b" (normal, deadline ")
}

// Writes a task and its job.
fn put_job(out: &mut [u8], at: usize, task: u32, j: Job) -> usize
    requires { at + job_room ≤ length out.old }
    ensures { Laid at (job_words task j) out.old out.new result }
{
    let task_at = put_bytes(out, at, b"task ");
    let kind_at = put_number(out, task_at, task);
    let due_at = put_kind(out, kind_at, j);
    let end = put_number(out, due_at, due_of(j));
    put_bytes(out, end, b")")
}

// Writes a task that waits and one that runs, each with its job.
fn put_pair(out: &mut [u8], at: usize, waiting: u32, a: Job, running: u32, b: Job) -> usize
    requires { at + fault_room ≤ length out.old }
    ensures { Laid at (pair_words waiting a running b) out.old out.new result }
{
    let waits_at = put_job(out, at, waiting, a);
    let running_at = put_bytes(out, waits_at, b" waits, ");
    let runs_at = put_job(out, running_at, running, b);
    put_bytes(out, runs_at, b" runs")
}

// Writes the task that runs without a job.
fn put_absent(out: &mut [u8], at: usize, task: u32) -> usize
    requires { at + fault_room ≤ length out.old }
    ensures { Laid at (absent_words task) out.old out.new result }
{
    let task_at = put_bytes(out, at, b"task ");
    let runs_at = put_number(out, task_at, task);
    put_bytes(out, runs_at, b" runs without a job")
}

// Writes how many ran and how many should.
fn put_count(out: &mut [u8], at: usize, ran: u32, due: u32) -> usize
    requires { at + fault_room ≤ length out.old }
    ensures { Laid at (count_words ran due) out.old out.new result }
{
    let ran_at = put_number(out, at, ran);
    let due_at = put_bytes(out, ran_at, b" ran of ");
    let end = put_number(out, due_at, due);
    put_bytes(out, end, b" that should")
}

// Writes which task waits, and which runs before it; or that none does.
fn put_waiting(out: &mut [u8], at: usize, slot: &Slot) -> usize
    requires { at + fault_room ≤ length out.old }
    ensures { WaitingLaid slot.now at out.old out.new result }
{
    let Some((j, i)) = slot.waiting_task() else {
        return put_bytes(out, at, b"keeps the rule");
    };
    let a = slot.job(j);
    let b = slot.job(i);
    let waiting = j as u32 + 1;
    let running = i as u32 + 1;
    put_pair(out, at, waiting, a, running, b)
}

// Writes what is wrong, the first that applies.
fn put_fault(out: &mut [u8], at: usize, slot: &Slot, names: bool) -> usize
    requires { at + fault_room ≤ length out.old }
    ensures { FaultLaid slot.now names at out.old out.new result }
{
    if !names {
        return put_bytes(out, at, b"names a number that is no task");
    }
    if let Some(i) = slot.absent_task() {
        return put_absent(out, at, i as u32 + 1);
    }
    let ran = slot.ran_count();
    let due = slot.due_count();
    if ran != due {
        return put_count(out, at, ran as u32, due as u32);
    }
    put_waiting(out, at, slot)
}

// Writes the words for a slot, of which the line names a set, at the start of the lent bytes and returns their length. `names` says
// whether every number that the line names is one of a task, and the run is as it stands after steps 1 to 3.
pub fn put_blame(
    out: &mut [u8],
    r: Run,
    procs: u32,
    policy: u32,
    clock: u32,
    names: bool,
    named: &[bool; MAX_TASKS],
) -> usize
    requires { blame_room ≤ length out.old }
    ensures { Blamed procs policy clock r names named.now out.old out.new result }
{
    let slot = Slot {
        run: &r,
        procs,
        policy,
        clock,
        named,
    };
    let time_at = put_bytes(out, 0, b"slot ");
    let parted_at = put_number(out, time_at, clock);
    let at = put_bytes(out, parted_at, b": ");
    put_fault(out, at, &slot, names)
}
