// What is printed of an accepted case: each function makes a call on the case and writes the answer's lines to the start of lent bytes.
#![tactic(auto)]

ghost use Rattle.std.specs.Prelude.{◌≡◌, ℕ, ◌+◌, ◌*◌, ◌≤◌, ◌<◌, length};
ghost use Rattle.rules.specs.Limits.{max_tasks};
ghost use Rattle.rules.specs.Case.{release_count};
ghost use Rattle.rules.specs.Refusals.{counts_fault};
ghost use Rattle.rules.specs.Writer.{case_text};
ghost use Rattle.rules.specs.Report.{report};
ghost use Rattle.prints.specs.Lines.{line_room, job_room, Printed};
ghost use Rattle.report.specs.Cases.{job_text, count_text, counts_text, slot_text, print_room, Listed, Stands};

use cases::AcceptedCase;
use prints::{put_count, put_job, put_refused, put_run, put_total};
use rules::{MAX_RELEASES, MAX_TASKS, RECORD_WIDTH};
use sets::put_running;

// Room for the records of as many releases as a case may have.
const RECORDS_ROOM: usize = MAX_RELEASES * RECORD_WIDTH;

// Writes the job line of release j.
fn put_release(out: &mut [u8], table: &[u32], trace: &[u32], records: &[u32], j: usize) -> usize
    requires job_room_in_bounds { job_room ≤ length out.old }
    requires stands { Stands table.now trace.now records.now j }
    ensures { Printed job_room (job_text table.now trace.now records.now j) out.old
        out.new result }
{
    let time = cases::time_of(trace, j);
    let task = cases::name_of(trace, j);
    let place = task as usize - 1;
    let due = time + cases::deadline_of(table, place);
    let verdict = records[j * RECORD_WIDTH];
    let finish = records[j * RECORD_WIDTH + 1];
    let demotion = records[j * RECORD_WIDTH + 2];
    put_job(out, time, task, due, verdict, finish, demotion)
}

// Writes the job lines, in trace order, from index `at` on.
fn put_jobs(out: &mut [u8], at: usize, table: &[u32], trace: &[u32], records: &[u32]) -> usize
    requires job_room_in_bounds { at + release_count trace.now * job_room ≤ length out.old }
    requires by_index { (j : ℕ) → j < release_count trace.now → Stands table.now trace.now records.now j }
    ensures { Listed (job_text table.now trace.now records.now) job_room at
        (release_count trace.now) out.old out.new result }
{
    let mut end = at;
    for j in 0..cases::release_count(trace) {
        let length = put_release(&mut out[end..], table, trace, records, j);
        end += length;
    }
    end
}

// Writes what the replay of a case says: its run line, its job lines and its total line.
pub fn put_report(out: &mut [u8], accepted: &AcceptedCase) -> usize
    requires { print_room ≤ length out.old }
    ensures { Printed print_room (report accepted.now) out.old out.new result }
{
    let case = &accepted.case;
    let mut records = [0u32; RECORDS_ROOM];
    let totals = engine::replay_run(accepted, &mut records);
    let tasks = cases::task_count(case.table) as u32;
    let releases = cases::release_count(case.trace) as u32;
    let at = put_run(out, case.policy, case.procs, tasks, case.end);
    let last = put_jobs(out, at, case.table, case.trace, &records);
    let length = put_total(&mut out[last..], releases, totals);
    last + length
}

// Writes a line for each of the first n free counts, in table order.
fn put_count_lines(out: &mut [u8], free: &[u32], n: usize) -> usize
    requires n_le_max_tasks { n ≤ max_tasks }
    requires n_in_bounds { n ≤ length free.now }
    requires line_room_in_bounds { n * line_room ≤ length out.old }
    ensures { Listed (count_text free.now) line_room 0 n out.old out.new result }
{
    let mut end: usize = 0;
    for i in 0..n {
        let length = put_count(&mut out[end..], i as u32 + 1, free[i]);
        end += length;
    }
    end
}

// Writes the free count of each task.
pub fn put_free_counts(out: &mut [u8], procs: u32, table: &[u32]) -> usize
    requires print_room_in_bounds { print_room ≤ length out.old }
    requires max_tasks_value { (counts_fault procs table.now max_tasks).number ≡ 0 }
    ensures { Printed print_room (counts_text procs table.now) out.old out.new result }
{
    let mut free = [0u32; MAX_TASKS];
    match counts::counts(procs, table, &mut free) {
        Err(fault) => put_refused(out, fault),
        Ok(tasks) => put_count_lines(out, &free, tasks),
    }
}

// Writes which tasks run in a slot.
pub fn put_slot(out: &mut [u8], accepted: &AcceptedCase, slot: u32) -> usize
    requires { print_room ≤ length out.old }
    ensures { Printed print_room (slot_text accepted.now slot) out.old out.new result }
{
    match engine::running(accepted.case.again(), slot) {
        Err(fault) => put_refused(out, fault),
        Ok(set) => put_running(out, slot, set),
    }
}

// Writes the text of a case.
pub fn put_text(out: &mut [u8], accepted: &AcceptedCase) -> usize
    requires { print_room ≤ length out.old }
    ensures { Printed print_room (case_text accepted.now) out.old out.new result }
{
    match writer::write(&accepted.case, out) {
        Err(fault) => put_refused(out, fault),
        Ok(length) => length,
    }
}
