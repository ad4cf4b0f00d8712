// The contention-free counts of a task table.
#![tactic(auto)]

ghost use Rattle.std.specs.Prelude.{◌≡◌, ℕ, ◌≤◌, ◌<◌, min, List, ◌++◌, length, get_or, drop};
ghost use Rattle.rules.specs.Limits.{max_period};
ghost use Rattle.rules.specs.Case.{task_count};
ghost use Rattle.rules.specs.Counts.{availability, count, free_count, free_counts};
ghost use Rattle.rules.specs.Calls.{CountsPromise};
ghost use Rattle.legal.specs.Passing.{Procs, Sound};
ghost use Rattle.counts.specs.Needs.{max_availability, Counts};

use rules::{Fault, MAX_TASKS};

// The availability of a task in so many slots; the bound keeps the sum over all tasks within a u32.
fn availability_of(period: u32, deadline: u32, slots: u32) -> u32
    requires { (1 ≤ period) × (deadline ≤ max_period) × (slots ≤ max_period) }
    ensures { (result ≡ availability period deadline slots) × (result ≤ max_availability) }
{
    slots / period * deadline + deadline.min(slots % period)
}

// The count for so many slots.
fn count_of(procs: u32, table: &[u32], slots: u32) -> u32
    requires { Sound table.now × Procs procs × (slots ≤ max_period) }
    ensures { result ≡ count procs table.now slots }
{
    let mut sum: u32 = 0;
    for i in 0..cases::task_count(table) {
        let period = cases::period_of(table, i);
        let deadline = cases::deadline_of(table, i);
        sum += availability_of(period, deadline, slots);
    }
    slots.saturating_sub(sum / (procs + 1))
}

// The free count of a task: the count for as many slots as its deadline is long.
pub fn free_count(procs: u32, table: &[u32], i: usize) -> u32
    requires { Sound table.now × Procs procs × (i < task_count table.now) }
    ensures { result ≡ free_count procs table.now i }
{
    let slots = cases::deadline_of(table, i);
    count_of(procs, table, slots)
}

// Writes each task's free count, in table order.
fn put_counts(procs: u32, table: &[u32], out: &mut [u32])
    requires { Sound table.now × Procs procs × (task_count table.now ≤ length out.old) }
    ensures { out.new ≡ free_counts procs table.now
        ++ drop (task_count table.now) out.old }
{
    for i in 0..cases::task_count(table) {
        out[i] = free_count(procs, table, i);
    }
}

// The free counts of a table that stands, by value.
pub fn free_counts(procs: u32, table: &[u32]) -> [u32; MAX_TASKS]
    requires { Sound table.now × Procs procs }
    ensures { Counts procs table.now result }
{
    let mut counts = [0; MAX_TASKS];
    put_counts(procs, table, &mut counts);
    counts
}

// The counts of any table: a refusal that leaves the room as it was, or the number of tasks and their free counts.
pub fn counts(procs: u32, table: &[u32], out: &mut [u32]) -> Result<usize, Fault>
    ensures { CountsPromise procs table.now out.old result out.new }
{
    checks::counts_fault(procs, table, out.len())?;
    put_counts(procs, table, out);
    Ok(cases::task_count(table))
}
