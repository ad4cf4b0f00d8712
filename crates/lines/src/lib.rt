// The lines of a case text, one by one: those of the head, through `end`, and the release lines after it. The smallest line at fault, or
// the case that the lines say, kept as far as it matters.
#![tactic(auto)]

ghost use Rattle.std.specs.Prelude.{◌≡◌, ℕ, ◌+◌, ◌≤◌, ◌<◌, List, length};
ghost use Rattle.std.specs.Fn.{FnReturnsAt};
ghost use Rattle.rules.specs.Limits.{max_text, task_width, release_width};
ghost use Rattle.rules.specs.Refusals.{checked};
ghost use Rattle.rules.specs.Reader.{kind_of, case_order};
ghost use Rattle.kinds.specs.declared.Said.{Said};
ghost use Rattle.kinds.specs.Says.{Opens, Says};
ghost use Rattle.lines.specs.Held.{table_room, trace_room, line_fault, no_head, no_lines, head_with, row_numbers, release_numbers, Whole};
ghost use Rattle.lines.specs.Held.{Added};
ghost use Rattle.lines.specs.Gathers.{NextLine, InHead, HeadLine, Heads, Releases, Gathers};

use faults::refuse_unless;
use kinds::Said;
use rules::{END, Fault, Line, MAX_RELEASES, MAX_TASKS, RELEASE_WIDTH, TASK_WIDTH};

// Room for one task and one release more than a case may have.
pub const TABLE_ROOM: usize = (MAX_TASKS + 1) * TASK_WIDTH;

pub const TRACE_ROOM: usize = (MAX_RELEASES + 1) * RELEASE_WIDTH;

// What the lines read so far say, their tasks and releases apart.
#[derive(Clone, Copy)]
pub struct Head {
    pub procs: u32,
    pub policy: u32,
    pub end: u32,
}

// A line: the kind that its word opens, what it says, and where the next one starts.
#[derive(Clone, Copy)]
pub struct Step {
    pub kind: u32,
    pub said: Line,
    pub next: usize,
}

// The lines read so far, at most through `end`: their head, how many task numbers were kept, the kind of the last one, and the number and
// the start of the next.
#[derive(Clone, Copy)]
pub struct HeadRead {
    pub head: Head,
    pub tasks: usize,
    pub before: u32,
    pub line: u32,
    pub next: usize,
}

// What the lines of a text come to: their head, and how many task and release numbers were kept.
#[derive(Clone, Copy)]
pub struct Gathered {
    pub head: Head,
    pub tasks: usize,
    pub releases: usize,
}

// The line at `at`, of which `says` tells what it says; badly formed where it has no newline.
fn line_at<F: Fn(&[u8]) -> Said>(text: &[u8], at: usize, says: F) -> Step
    requires at_in_bounds { at < length text.now }
    requires callable { F.IsAlwaysCallable says }
    requires tells { (line : List ℕ) (said : Said) → FnReturnsAt F.Fn says line said → Says line said }
    ensures { NextLine text.now at result }
{
    let end = scan::line_end(text, at);
    if end < text.len() {
        let Said { kind, line } = says(scan::line(text, at, end));
        Step {
            kind,
            said: line,
            next: end + 1,
        }
    } else {
        Step {
            kind: 0,
            said: Line::Bad,
            next: end,
        }
    }
}

// The line at `at`.
pub fn next_line(text: &[u8], at: usize) -> Step
    requires { at < length text.now }
    ensures { NextLine text.now at result }
{
    line_at(text, at, kinds::line_says)
}

// The same where it is most likely a release, so that word is looked for first.
pub fn next_release(text: &[u8], at: usize) -> Step
    requires { at < length text.now }
    ensures { NextLine text.now at result }
{
    line_at(text, at, kinds::release_says)
}

// What is at fault with line n, whose word opens that kind, after a line of kind `before`: 2 before 3.
#[tactic(auto, using(legal::specs::Firsts::refused, legal::specs::Firsts::rows), unfolding(crate::specs::Held::line_fault))]
pub fn line_fault(before: u32, kind: u32, said: Line, n: u32) -> Result<(), Fault>
    requires { Opens kind said }
    ensures { result ≡ checked (line_fault case_order before (kind_of said) n) }
{
    refuse_unless(!matches!(said, Line::Bad), 2, n)?;
    refuse_unless(kinds::may_follow(before, kind), 3, n)
}

// The head before the first line; without a policy line the policy is EDF.
pub fn no_head() -> Head
    ensures { result ≡ no_head }
{
    Head {
        procs: 0,
        policy: policies::EDF,
        end: 0,
    }
}

// No line read yet.
fn no_lines() -> HeadRead
    ensures { result ≡ no_lines }
{
    HeadRead {
        head: no_head(),
        tasks: 0,
        before: 0,
        line: 1,
        next: 0,
    }
}

// The head with what one more line says.
fn head_with(h: Head, l: Line) -> Head
    ensures { result ≡ head_with h l }
{
    match l {
        Line::Procs { procs } => Head { procs, ..h },
        Line::Policy { policy } => Head { policy, ..h },
        Line::End { end } => Head { end, ..h },
        Line::Bad | Line::Row { .. } | Line::Release { .. } => h,
    }
}

// Puts a task's numbers behind the n that are kept, where there is room, and returns how many are kept now.
fn keep_row(table: &mut [u32], n: usize, l: Line) -> usize
    requires { Whole table_room task_width n table.old }
    ensures { Added table_room task_width n (row_numbers l) table.old result table.new }
{
    let Line::Row {
        period,
        execution,
        deadline,
    } = l
    else {
        return n;
    };
    if n == TABLE_ROOM {
        return n;
    }
    table[n] = period;
    table[n + 1] = execution;
    table[n + 2] = deadline;
    n + TASK_WIDTH
}

// Puts a release's numbers behind the n that are kept, where there is room, and returns how many are kept now. It is asked of nearly every
// line: one copy of a slice, shared with `keep_row`, would cost the reader a tenth of its time.
fn keep_release(trace: &mut [u32], n: usize, l: Line) -> usize
    requires { Whole trace_room release_width n trace.old }
    ensures { Added trace_room release_width n (release_numbers l) trace.old result trace.new }
{
    let Line::Release { time, task } = l else {
        return n;
    };
    if n == TRACE_ROOM {
        return n;
    }
    trace[n] = time;
    trace[n + 1] = task;
    n + RELEASE_WIDTH
}

// Reads one more line of the head after those that were read, or finds it missing where the text stops.
fn head_line(text: &[u8], top: HeadRead, table: &mut [u32]) -> Result<HeadRead, Fault>
    requires text_len_bound { length text.now ≤ max_text }
    requires in_head { InHead text.now top table.old }
    requires before_bound { top.before < 4 }
    ensures { HeadLine text.now top.next result table.new }
{
    refuse_unless(top.next < text.len(), 3, top.line)?;
    let step = next_line(text, top.next);
    line_fault(top.before, step.kind, step.said, top.line)?;
    Ok(HeadRead {
        head: head_with(top.head, step.said),
        tasks: keep_row(table, top.tasks, step.said),
        before: step.kind,
        line: top.line + 1,
        next: step.next,
    })
}

// Reads the lines through `end`: the smallest one at fault, or the head and the tasks that they say.
pub fn read_head(text: &[u8], table: &mut [u32]) -> Result<HeadRead, Fault>
    requires text_len_bound { length text.now ≤ max_text }
    requires table_len { length table.old ≡ table_room }
    ensures { Heads text.now result table.new }
{
    let mut top = no_lines();
    while top.before != END {
        top = head_line(text, top, table)?;
    }
    Ok(top)
}

// Reads the release lines, of which the first is line n and starts at `at`: the smallest one at fault, or how many release numbers were
// kept.
pub fn read_releases(text: &[u8], at: usize, n: u32, trace: &mut [u32]) -> Result<usize, Fault>
    requires text_len_bound { length text.now ≤ max_text }
    requires at_in_bounds { at ≤ length text.now }
    requires n_bound { n ≤ at + 1 }
    requires trace_len { length trace.old ≡ trace_room }
    ensures { Releases text.now at n result trace.new }
{
    let mut releases: usize = 0;
    let mut line = n;
    let mut next = at;
    while next < text.len() {
        let step = next_release(text, next);
        line_fault(END, step.kind, step.said, line)?;
        releases = keep_release(trace, releases, step.said);
        line += 1;
        next = step.next;
    }
    Ok(releases)
}

// Reads the lines of a text: the smallest line at fault, or the case that they say, as far as it matters.
pub fn gather(text: &[u8], table: &mut [u32], trace: &mut [u32]) -> Result<Gathered, Fault>
    requires text_len_bound { length text.now ≤ max_text }
    requires table_len { length table.old ≡ table_room }
    requires trace_len { length trace.old ≡ trace_room }
    ensures { Gathers text.now result table.new trace.new }
{
    let top = read_head(text, table)?;
    let releases = read_releases(text, top.next, top.line, trace)?;
    Ok(Gathered {
        head: top.head,
        tasks: top.tasks,
        releases,
    })
}
