// The writer: the text of a case, or a refusal that leaves every byte as it was.
#![tactic(auto)]

ghost use Rattle.std.specs.Prelude.{◌≡◌, ◌+◌, ◌*◌, ◌≤◌, length};
ghost use Rattle.rules.specs.Calls.{WritePromise};
ghost use Rattle.rules.specs.Writer.{policy_text, case_text};
ghost use Rattle.puts.specs.Laid.{Laid};
ghost use Rattle.writer.specs.Rows.{rows_text, head_text, tail_text, WholeRows};

use cases::Case;
use checks::case_fault;
use faults::room_fault;
use policies::{policy_width, put_policy};
use puts::{TAB, numbers_width, put_line, put_word, width};
use rules::{END, Fault, POLICY, PROCS, RELEASE, RELEASE_WIDTH, TASK, TASK_WIDTH};

// Writes the policy line at the start.
fn put_policy_line(out: &mut [u8], policy: u32) -> usize
    requires { length (policy_text policy) ≤ length out.old }
    ensures { Laid 0 (policy_text policy) out.old out.new result }
{
    let at = put_word(out, POLICY);
    let end = put_policy(out, at, TAB, policy);
    out[end] = b'\n';
    end + 1
}

// Writes a line for each row of numbers, from index `at` on: each goes into the unused end of the output.
fn put_rows(out: &mut [u8], at: usize, word: u32, width: usize, rows: usize, vs: &[u32]) -> usize
    requires width_in_bounds { rows * width ≤ length vs.now }
    requires rows_in_bounds { at + length (rows_text word width vs.now rows) ≤ length out.old }
    ensures { Laid at (rows_text word width vs.now rows) out.old out.new result }
{
    let mut end = at;
    for i in 0..rows {
        let from = i * width;
        end += put_line(&mut out[end..], TAB, word, &vs[from..from + width]);
    }
    end
}

// Writes the lines of processors and policy at the start.
fn put_head(out: &mut [u8], procs: u32, policy: u32) -> usize
    requires { length (head_text procs policy) ≤ length out.old }
    ensures { Laid 0 (head_text procs policy) out.old out.new result }
{
    let numbers = [procs];
    let second = put_line(out, TAB, PROCS, &numbers);
    let n = put_policy_line(&mut out[second..], policy);
    second + n
}

// Writes the end line and the lines of the releases, from index `at` on.
fn put_tail(out: &mut [u8], at: usize, end: u32, trace: &[u32]) -> usize
    requires { at + length (tail_text end trace.now) ≤ length out.old }
    ensures { Laid at (tail_text end trace.now) out.old out.new result }
{
    let numbers = [end];
    let n = put_line(&mut out[at..], TAB, END, &numbers);
    put_rows(
        out,
        at + n,
        RELEASE,
        RELEASE_WIDTH,
        trace.len() / RELEASE_WIDTH,
        trace,
    )
}

// Writes the text of a case at the start.
fn put_case(case: &Case, out: &mut [u8]) -> usize
    requires { length (case_text case.now) ≤ length out.old }
    ensures { Laid 0 (case_text case.now) out.old out.new result }
{
    let table = case.table;
    let tasks = put_head(out, case.procs, case.policy);
    let tail = put_rows(
        out,
        tasks,
        TASK,
        TASK_WIDTH,
        table.len() / TASK_WIDTH,
        table,
    );
    put_tail(out, tail, case.end, case.trace)
}

// How long the text of a case is: a word and a newline a line, and the fields with their tabs.
#[tactic(auto, using(texts::specs::Digits::at_most_ten, texts::specs::PolicyNames::name_short, puts::proofs::Lines::numbers_room))]
fn text_length(case: &Case) -> usize
    requires { WholeRows case.now.table case.now.trace }
    ensures { result ≡ length (case_text case.now) }
{
    // `procs`, `policy` and `end` have one field each, whose tab is counted with the word and the newline
    let head = 7 + width(case.procs) + 8 + policy_width(case.policy);
    let tasks = case.table.len() / TASK_WIDTH * 5 + numbers_width(case.table);
    let releases = case.trace.len() / RELEASE_WIDTH * 8 + numbers_width(case.trace);
    head + tasks + 5 + width(case.end) + releases
}

// Writes the text of a case to the start of `out`, if it is a case and the text fits.
pub fn write(case: &Case, out: &mut [u8]) -> Result<usize, Fault>
    ensures { WritePromise case.now out.old result out.new }
{
    case_fault(case)?;
    room_fault(text_length(case), out.len())?;
    Ok(put_case(case, out))
}
