// The printed lines: each function writes one to the start of a lent part and returns its length.
#![tactic(auto)]

ghost use Rattle.std.specs.Prelude.{◌∷◌, ◌+◌, ◌≤◌, length};
ghost use Rattle.rules.specs.Replay.{record_of};
ghost use Rattle.rules.specs.Report.{space_byte, verdict_name, job_line, refused_line};
ghost use Rattle.puts.specs.Laid.{Laid};
ghost use Rattle.prints.specs.Lines.{line_room, job_room, field_room, verdict_room, outcome_room, Printed, outcome_fields, time_field};
ghost use Rattle.prints.specs.Lines.{run_text, total_text, count_line};

use policies::put_policy;
use puts::{COUNT, JOB, REFUSED, RUN, SPACE, TOTAL, put_bytes, put_line, put_numbers, put_word};
use rules::{Fault, Totals};

// No line is longer than this: `line_room` of specs/Lines.antt.
pub const LINE_ROOM: usize = 400;

// ---- lines of a word and numbers

// Writes the total line.
pub fn put_total(out: &mut [u8], releases: u32, totals: Totals) -> usize
    requires { line_room ≤ length out.old }
    ensures { Printed line_room (total_text releases totals.met totals.missed totals.«open») out.old out.new result }
{
    let Totals { met, missed, open } = totals;
    put_line(out, SPACE, TOTAL, &[releases, met, missed, open])
}

// Writes the line of a refusal: its number and its place.
pub fn put_refused(out: &mut [u8], fault: Fault) -> usize
    requires { line_room ≤ length out.old }
    ensures { Printed line_room (refused_line fault.number fault.place) out.old out.new result }
{
    put_line(out, SPACE, REFUSED, &[fault.number, fault.place])
}

// Writes the line of a task's free count.
pub fn put_count(out: &mut [u8], task: u32, count: u32) -> usize
    requires { line_room ≤ length out.old }
    ensures { Printed line_room (count_line task count) out.old out.new result }
{
    put_line(out, SPACE, COUNT, &[task, count])
}

// ---- the run line and the job line, which have words among their fields

// Writes the run line.
pub fn put_run(out: &mut [u8], policy: u32, procs: u32, tasks: u32, end: u32) -> usize
    requires { line_room ≤ length out.old }
    ensures { Printed line_room (run_text policy procs tasks end) out.old out.new result }
{
    let at = put_word(out, RUN);
    let numbers_at = put_policy(out, at, SPACE, policy);
    let last = put_numbers(out, numbers_at, SPACE, &[procs, tasks, end]);
    out[last] = b'\n';
    last + 1
}

// Writes a space and the verdict's word, chosen by its number.
#[tactic(auto, unfolding(rules::specs::Report::verdict_name))]
fn put_verdict(out: &mut [u8], at: usize, verdict: u32) -> usize
    requires { at + verdict_room ≤ length out.old }
    ensures { Laid at (space_byte ∷ verdict_name verdict) out.old out.new result }
{
    match verdict {
        1 => put_bytes(out, at, b" met"),
        2 => put_bytes(out, at, b" missed"),
        3 | _ => put_bytes(out, at, b" open"),
    }
}

// Writes a space and a time, or `-` where there is none.
fn put_time(out: &mut [u8], at: usize, time: Option<u32>) -> usize
    requires { at + field_room ≤ length out.old }
    ensures { Laid at (space_byte ∷ time_field time) out.old out.new result }
{
    match time {
        Some(t) => put_numbers(out, at, SPACE, &[t]),
        None => put_bytes(out, at, b" -"),
    }
}

// Writes what a record says of its job, each field with a space in front: verdict, finish time, demotion time. A record holds 0 for no
// time, and a demotion time as one more.
fn put_outcome(out: &mut [u8], at: usize, verdict: u32, finish: u32, demotion: u32) -> usize
    requires { at + outcome_room ≤ length out.old }
    ensures { Laid at (outcome_fields (record_of verdict finish demotion)) out.old out.new result }
{
    let finish_at = put_verdict(out, at, verdict);
    let demotion_at = put_time(out, finish_at, (finish != 0).then_some(finish));
    put_time(out, demotion_at, demotion.checked_sub(1))
}

// Writes the job line of a release: its time, task and deadline, and the numbers of its record.
pub fn put_job(
    out: &mut [u8],
    time: u32,
    task: u32,
    due: u32,
    verdict: u32,
    finish: u32,
    demotion: u32,
) -> usize
    requires { job_room ≤ length out.old }
    ensures { Printed job_room (job_line time task due (record_of verdict finish demotion)) out.old
        out.new result }
{
    let at = put_word(out, JOB);
    let verdict_at = put_numbers(out, at, SPACE, &[time, task, due]);
    let line_end = put_outcome(out, verdict_at, verdict, finish, demotion);
    out[line_end] = b'\n';
    line_end + 1
}
