// What a job has, and what each step of a slot makes of one job and of one task. Here alone a job is opened by its kind.
#![tactic(auto)]

ghost use Rattle.std.specs.Prelude.{◌≡◌, true, ◌&&◌, ◌||◌, ◌+◌, ◌<◌, leb};
ghost use Rattle.rules.specs.Words.{bit};
ghost use Rattle.rules.specs.Limits.{max_tasks};
ghost use Rattle.rules.specs.Slot.{is_present, is_demoted, left_of, free_of, due_of, is_missed, judged_task, is_demoted_now};
ghost use Rattle.rules.specs.Slot.{lowered_job, lowered_task, is_last, worked_job, worked_task};
ghost use Rattle.rules.specs.Policies.{demoting};
ghost use Rattle.jobs.specs.Tasks.{Early, Startable, started_task, readied_task, demoted_job, demoted_if, worked_on};

use rules::{Job, Task};

// ---- what a job has

pub fn has_job(j: Job) -> bool
    ensures { result ≡ is_present j }
{
    !matches!(j, Job::Idle)
}

pub fn is_demoted(j: Job) -> bool
    ensures { result ≡ is_demoted j }
{
    matches!(j, Job::Demoted { .. })
}

pub fn left_of(j: Job) -> u32
    ensures { result ≡ left_of j }
{
    match j {
        Job::Idle => 0,
        Job::Normal { left, .. } | Job::Demoted { left, .. } => u32::from(left),
    }
}

pub fn free_of(j: Job) -> u32
    ensures { result ≡ free_of j }
{
    match j {
        Job::Normal { free, .. } => u32::from(free),
        Job::Idle | Job::Demoted { .. } => 0,
    }
}

pub fn due_of(j: Job) -> u32
    ensures { result ≡ due_of j }
{
    match j {
        Job::Idle => 0,
        Job::Normal { due, .. } | Job::Demoted { due, .. } => due,
    }
}

// Whether the next unit of a job is its last: nothing remains after it.
pub fn is_last(j: Job) -> bool
    ensures { result ≡ is_last j }
{
    left_of(j) <= 1
}

// Whether steps 1 to 3 can change a task: one is released, or it has a job.
pub fn can_change(j: Job, released: bool) -> bool
    ensures { result ≡ (released || is_present j) }
{
    released || has_job(j)
}

// ---- step 1: an unfinished job whose deadline is now is removed as missed

pub fn is_missed(j: Job, clock: u32) -> bool
    ensures { result ≡ is_missed clock j }
{
    has_job(j) && due_of(j) == clock
}

pub fn judged_task(t: Task, clock: u32) -> Task
    ensures { result ≡ judged_task clock t }
{
    if is_missed(t.job, clock) {
        Task {
            job: Job::Idle,
            ..t
        }
    } else {
        t
    }
}

// ---- step 2: a released job becomes normal with its execution, its free count and its deadline

// Steps 1 and 2 for the task at i: a released task has its new job, whatever it had.
pub fn readied_task(t: Task, table: &[u32], i: usize, free: u32, released: bool, clock: u32) -> Task
    requires early { Early clock }
    requires startable { released ≡ true → Startable table.now i free }
    ensures { result ≡ readied_task table.now i free released clock t }
{
    if released {
        let execution = cases::execution_of(table, i);
        let due = clock + cases::deadline_of(table, i);
        Task {
            last: clock + 1,
            job: Job::Normal {
                left: execution as u16,
                free: free as u16,
                due,
            },
            ..t
        }
    } else {
        judged_task(t, clock)
    }
}

// ---- step 3: a normal job whose free count is at least its remaining execution is demoted

fn is_demoted_now(j: Job) -> bool
    ensures { result ≡ is_demoted_now j }
{
    matches!(j, Job::Normal { left, free, .. } if left <= free)
}

// Whether step 3 demotes the job of a task.
pub fn is_demoted_under(t: Task, policy: u32) -> bool
    ensures { result ≡ (demoting policy && is_demoted_now t.job) }
{
    policies::is_demoting(policy) && is_demoted_now(t.job)
}

// Whether steps 1 to 3 change a task: it is released, or its job is missed or demoted. In most slots none is.
pub fn is_changed(t: Task, released: bool, policy: u32, clock: u32) -> bool
    ensures { result ≡ (released || is_missed clock t.job || (demoting policy && is_demoted_now t.job)) }
{
    released || is_missed(t.job, clock) || is_demoted_under(t, policy)
}

fn demoted_job(j: Job) -> Job
    ensures { result ≡ demoted_job j }
{
    match j {
        Job::Idle => Job::Demoted { left: 0, due: 0 },
        Job::Normal { left, due, .. } | Job::Demoted { left, due } => Job::Demoted { left, due },
    }
}

pub fn demoted_task(t: Task, is: bool) -> Task
    ensures { result ≡ demoted_if is t }
{
    if is {
        Task {
            job: demoted_job(t.job),
            ..t
        }
    } else {
        t
    }
}

// ---- step 4: in a contention-free slot each normal job's free count goes down by 1, but not below 0

// The jobs counted so far, with one more.
pub fn counted(jobs: usize, j: Job) -> usize
    requires { jobs < max_tasks }
    ensures { result ≡ jobs + bit (is_present j) }
{
    jobs + usize::from(has_job(j))
}

pub fn is_contention_free(jobs: usize, procs: u32) -> bool
    ensures { result ≡ leb jobs procs }
{
    jobs <= procs as usize
}

// Whether step 4 lowers the free counts in a slot with so many jobs.
pub fn is_lowering(jobs: usize, procs: u32, policy: u32) -> bool
    ensures { result ≡ (demoting policy && leb jobs procs) }
{
    policies::is_demoting(policy) && is_contention_free(jobs, procs)
}

fn lowered_job(j: Job) -> Job
    ensures { result ≡ lowered_job j }
{
    match j {
        Job::Normal { left, free, due } => Job::Normal {
            left,
            free: free.saturating_sub(1),
            due,
        },
        Job::Idle | Job::Demoted { .. } => j,
    }
}

// Step 4 for the task.
pub fn lowered_task(t: Task) -> Task
    ensures { result ≡ lowered_task t }
{
    Task {
        job: lowered_job(t.job),
        ..t
    }
}

// ---- step 6: a job that ran has one unit less; one with nothing remaining is finished

fn worked_job(j: Job) -> Job
    ensures { result ≡ worked_job j }
{
    if is_last(j) {
        return Job::Idle;
    }
    match j {
        Job::Idle => Job::Idle,
        Job::Normal { left, free, due } => Job::Normal {
            left: left - 1,
            free,
            due,
        },
        Job::Demoted { left, due } => Job::Demoted {
            left: left - 1,
            due,
        },
    }
}

// Step 6 for a task that runs.
pub fn run_task(t: Task) -> Task
    ensures { result ≡ worked_task t }
{
    Task {
        job: worked_job(t.job),
        ..t
    }
}

// Steps 4 and 6 for one task.
pub fn worked_task(t: Task, lowers: bool, runs: bool) -> Task
    ensures { result ≡ worked_on lowers runs t }
{
    let lowered = if lowers { lowered_job(t.job) } else { t.job };
    let job = if runs { worked_job(lowered) } else { lowered };
    Task { job, ..t }
}

// Whether a job finishes in the slot: it runs its last unit.
pub fn is_finished(j: Job, runs: bool) -> bool
    ensures { result ≡ (runs && is_last j) }
{
    runs && is_last(j)
}
