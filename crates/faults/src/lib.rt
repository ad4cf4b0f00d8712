// The refusals on numbers one by one: each test as a function.
#![tactic(auto)]

ghost use Rattle.std.specs.Prelude.{◌≡◌, Bool, true, false, ◌&&◌, ◌||◌, List, [], ◌∷◌, ℕ, suc, ◌+◌, ◌*◌, ◌-◌, ◌≤◌, ◌<◌, eqb, leb, ltb};
ghost use Rattle.std.specs.Prelude.{length, get_or, Ok, Err};
ghost use Rattle.rules.specs.Words.{pick};
ghost use Rattle.rules.specs.Limits.{max_tasks, max_period, max_end};
ghost use Rattle.rules.specs.Case.{task_count, release_count};
ghost use Rattle.rules.specs.Refusals.{fault_of, checked, unless, procs_fault, policy_fault, table_fault, task_stands};
ghost use Rattle.rules.specs.Refusals.{task_fault};
ghost use Rattle.rules.specs.Refusals.{end_fault, trace_fault, named, later_than, in_order, apart, room_fault, slot_fault};

use rules::{
    Fault, MAX_END, MAX_PERIOD, MAX_PROCS, MAX_RELEASES, MAX_TASKS, RELEASE_WIDTH, TASK_WIDTH,
};

// A refusal by its number and place unless the test holds.
pub fn refuse_unless(holds: bool, number: u32, place: u32) -> Result<(), Fault>
    ensures { result ≡ pick holds (Ok tt) (Err (fault_of number place)) }
{
    if holds {
        Ok(())
    } else {
        Err(Fault { number, place })
    }
}

// 4
#[tactic(auto, using(legal::specs::Firsts::refused), unfolding(rules::specs::Refusals::procs_fault))]
pub fn procs_fault(procs: u32) -> Result<(), Fault>
    ensures { result ≡ checked (procs_fault procs) }
{
    refuse_unless(1 <= procs && procs <= MAX_PROCS, 4, 0)
}

// 14
#[tactic(auto, using(legal::specs::Firsts::refused), unfolding(rules::specs::Refusals::policy_fault))]
pub fn policy_fault(policy: u32) -> Result<(), Fault>
    ensures { result ≡ checked (policy_fault policy) }
{
    refuse_unless(policies::is_policy(policy), 14, 0)
}

// 5
#[tactic(auto, using(legal::specs::Firsts::refused), unfolding(rules::specs::Refusals::table_fault))]
pub fn table_fault(table: &[u32]) -> Result<(), Fault>
    ensures { result ≡ checked (table_fault table.now) }
{
    let tasks = cases::task_count(table);
    let threes = table.len() % TASK_WIDTH == 0;
    refuse_unless(threes && 1 <= tasks && tasks <= MAX_TASKS, 5, 0)
}

pub fn task_stands(period: u32, execution: u32, deadline: u32) -> bool
    ensures { result ≡ task_stands period execution deadline }
{
    1 <= execution && execution <= deadline && deadline <= period && period <= MAX_PERIOD
}

// 6, of one task
#[tactic(auto, using(legal::specs::Firsts::refused), unfolding(rules::specs::Refusals::task_fault))]
pub fn task_fault(table: &[u32], i: usize) -> Result<(), Fault>
    requires { (i < task_count table.now) × (task_count table.now ≤ max_tasks) }
    ensures { result ≡ checked (task_fault table.now i) }
{
    let t = cases::period_of(table, i);
    let c = cases::execution_of(table, i);
    let d = cases::deadline_of(table, i);
    refuse_unless(task_stands(t, c, d), 6, (i + 1) as u32)
}

// 7
#[tactic(auto, using(legal::specs::Firsts::refused), unfolding(rules::specs::Refusals::end_fault))]
pub fn end_fault(end: u32) -> Result<(), Fault>
    ensures { result ≡ checked (end_fault end) }
{
    refuse_unless(end <= MAX_END, 7, 0)
}

// 12
#[tactic(auto, using(legal::specs::Firsts::refused), unfolding(rules::specs::Refusals::trace_fault))]
pub fn trace_fault(trace: &[u32]) -> Result<(), Fault>
    ensures { result ≡ checked (trace_fault trace.now) }
{
    let releases = cases::release_count(trace);
    let twos = trace.len() % RELEASE_WIDTH == 0;
    refuse_unless(twos && releases <= MAX_RELEASES, 12, 0)
}

// 8
pub fn is_named(table: &[u32], name: u32) -> bool
    ensures { result ≡ named table.now name }
{
    1 <= name && name as usize <= cases::task_count(table)
}

pub fn later_than(t0: u32, n0: u32, t: u32, n: u32) -> bool
    ensures { result ≡ later_than t0 n0 t n }
{
    t0 < t || t0 == t && n0 < n
}

// 9
pub fn in_order(trace: &[u32], j: usize) -> bool
    requires { j < release_count trace.now }
    ensures { result ≡ in_order trace.now j }
{
    if j == 0 {
        return true;
    }
    let i = j - 1;
    let t0 = cases::time_of(trace, i);
    let n0 = cases::name_of(trace, i);
    let t = cases::time_of(trace, j);
    let n = cases::name_of(trace, j);
    later_than(t0, n0, t, n)
}

// 10, of one more than the task's last release, or 0
pub fn is_apart(last: u32, period: u32, time: u32) -> bool
    requires { (last ≤ max_end) × (period ≤ max_period) }
    ensures { result ≡ apart last period time }
{
    last == 0 || last - 1 + period <= time
}

// 16, of one task, from one more than the time of its last release, or 0
pub fn absent_fault(last: u32, i: usize) -> Result<(), Fault>
    requires { i < max_tasks }
    ensures { result ≡ checked (unless (leb 1 last) 16 (suc i)) }
{
    refuse_unless(1 <= last, 16, (i + 1) as u32)
}

// 13
#[tactic(auto, using(legal::specs::Firsts::refused), unfolding(rules::specs::Refusals::room_fault))]
pub fn room_fault(need: usize, room: usize) -> Result<(), Fault>
    ensures { result ≡ checked (room_fault need room) }
{
    refuse_unless(need <= room, 13, 0)
}

// 15
#[tactic(auto, using(legal::specs::Firsts::refused), unfolding(rules::specs::Refusals::slot_fault))]
pub fn slot_fault(end: u32, slot: u32) -> Result<(), Fault>
    ensures { result ≡ checked (slot_fault end slot) }
{
    refuse_unless(slot < end, 15, 0)
}
