// The checks on numbers: each call's tests in their order, a row of them at a time. One test alone is in the crate faults, and those that
// go through a table or a trace are in the crate lowest.
#![tactic(auto)]

ghost use Rattle.std.specs.Prelude.{◌≡◌};
ghost use Rattle.rules.specs.Case.{Case};
ghost use Rattle.rules.specs.Refusals.{unless_fault, checked, first, case_fault, counts_fault, replay_fault, running_fault};
ghost use Rattle.checks.specs.Rows.{Sound, table_tests, head_tests, trace_tests};

use cases::{AcceptedCase, Case};
use lowest::{absences_fault, releases_fault, tasks_fault};
use rules::{Fault, MAX_TASKS, RECORD_WIDTH};

// ---- rows of tests

// 5, then 6, which is asked of few tasks alone
#[tactic(auto, using(legal::specs::Firsts::rows))]
pub fn table_checks(table: &[u32]) -> Result<(), Fault>
    ensures { result ≡ checked (first (table_tests table.now)) }
{
    faults::table_fault(table)?;
    tasks_fault(table)
}

// 4, 14, 5, 6
#[tactic(auto, using(legal::specs::Firsts::rows))]
pub fn head_checks(case: &Case) -> Result<(), Fault>
    ensures { result ≡ checked (first (head_tests case.now.procs case.now.policy case.now.table)) }
{
    faults::procs_fault(case.procs)?;
    faults::policy_fault(case.policy)?;
    table_checks(case.table)
}

// 7, 12, then release by release, which is asked of few releases before an end that stands, then 16
#[tactic(auto, using(legal::specs::Firsts::rows, lowest::proofs::Walk::both_tested))]
pub fn trace_checks(case: &Case) -> Result<(), Fault>
    requires { Sound case.now.table }
    ensures { result ≡ checked (first (trace_tests case.now.table case.now.end case.now.trace)) }
{
    faults::end_fault(case.end)?;
    faults::trace_fault(case.trace)?;
    let mut last = [0; MAX_TASKS];
    releases_fault(case.table, case.end, case.trace, &mut last)?;
    absences_fault(case.table, &last)
}

// ---- what each call asks

// The checks on the numbers of a whole case, in their order.
#[tactic(auto, using(legal::specs::Firsts::rows), unfolding(rules::specs::Refusals::case_fault))]
pub fn case_fault(case: &Case) -> Result<(), Fault>
    ensures { result ≡ checked (case_fault case.now) }
{
    head_checks(case)?;
    trace_checks(case)
}

// A case that passes them, as an accepted one: whoever is handed it asks no more.
#[tactic(auto, using(legal::specs::Firsts::gives))]
pub fn accept<'a>(case: Case<'a>) -> Result<AcceptedCase<'a>, Fault>
    ensures { result ≡ unless_fault (case_fault case.entry) case.entry }
{
    case_fault(&case)?;
    Ok(AcceptedCase { case })
}

// The counts call's checks: 4, 5, 6, then the room.
#[tactic(auto, using(legal::specs::Firsts::rows), unfolding(rules::specs::Refusals::counts_fault))]
pub fn counts_fault(procs: u32, table: &[u32], room: usize) -> Result<(), Fault>
    ensures { result ≡ checked (counts_fault procs table.now room) }
{
    faults::procs_fault(procs)?;
    table_checks(table)?;
    faults::room_fault(cases::task_count(table), room)
}

// The replay's: those of the case, then the room.
#[tactic(auto, using(legal::specs::Firsts::rows, legal::specs::Firsts::gives), unfolding(rules::specs::Refusals::replay_fault))]
pub fn accept_replay<'a>(case: Case<'a>, room: usize) -> Result<AcceptedCase<'a>, Fault>
    ensures { result ≡ unless_fault (replay_fault case.entry room) case.entry }
{
    let replayed = accept(case)?;
    let need = cases::release_count(replayed.case.trace) * RECORD_WIDTH;
    faults::room_fault(need, room)?;
    Ok(replayed)
}

// The running set's: those of the case, then the named slot.
#[tactic(auto, using(legal::specs::Firsts::rows, legal::specs::Firsts::gives), unfolding(rules::specs::Refusals::running_fault))]
pub fn accept_running<'a>(case: Case<'a>, slot: u32) -> Result<AcceptedCase<'a>, Fault>
    ensures { result ≡ unless_fault (running_fault case.entry slot) case.entry }
{
    let accepted = accept(case)?;
    faults::slot_fault(accepted.case.end, slot)?;
    Ok(accepted)
}
