// What is printed for what is asked of a text: the reader's refusal alone, or what the case says.
#![tactic(auto)]

ghost use Rattle.std.specs.Prelude.{◌≡◌, ◌≤◌, length};
ghost use Rattle.rules.specs.Refusals.{checked, unless_fault};
ghost use Rattle.rules.specs.Answers.{answer_as};
ghost use Rattle.rules.specs.Reader.{case_in, case_values, text_fault};
ghost use Rattle.prints.specs.Lines.{line_room, Printed};
ghost use Rattle.report.specs.Cases.{refusal_text, print_room};
ghost use Rattle.answers.specs.Prints.{case_says, text_says, wish_fault};

use cases::{AcceptedCase, Case};
use reader::{RELEASES_ROOM, TASKS_ROOM};
use report::{put_free_counts, put_report, put_slot, put_text};
use rules::{Fault, RELEASE_WIDTH, TASK_WIDTH};
use wishes::Wish;

// The case of a text, read into two rooms, as an accepted one; or the reader's refusal.
pub fn accepted_case<'a>(
    text: &[u8],
    rows: &'a mut [u32; TASKS_ROOM],
    times: &'a mut [u32; RELEASES_ROOM],
) -> Result<AcceptedCase<'a>, Fault>
    ensures { result ≡ unless_fault (text_fault text.now) (case_in text.now) }
{
    let taken = reader::read(text, rows, times)?;
    let case = Case {
        procs: taken.procs,
        policy: taken.policy,
        table: &rows[..taken.tasks * TASK_WIDTH],
        end: taken.end,
        trace: &times[..taken.releases * RELEASE_WIDTH],
    };
    Ok(AcceptedCase { case })
}

// Writes the line of the reader's refusal.
fn put_refusal(out: &mut [u8], read: &Result<AcceptedCase, Fault>) -> usize
    requires { line_room ≤ length out.old }
    ensures { Printed line_room (refusal_text (answer_as case_values read.now)) out.old out.new result }
{
    match read {
        Err(fault) => prints::put_refused(out, *fault),
        Ok(_) => 0,
    }
}

// Writes what a wish asks of a case. A log, asked for or checked, may be of any length: the program writes it a piece at a time, and
// nothing of it is put here.
#[tactic(auto, using(crate::proofs::Said::nothing_shown), unfolding(crate::specs::Prints::case_says))]
fn put_wish(out: &mut [u8], wish: Wish, accepted: &AcceptedCase) -> usize
    requires { print_room ≤ length out.old }
    ensures { Printed print_room (case_says wish accepted.now) out.old out.new result }
{
    let case = &accepted.case;
    match wish {
        Wish::Replay => put_report(out, accepted),
        Wish::Counts => put_free_counts(out, case.procs, case.table),
        Wish::Slot { slot } => put_slot(out, accepted, slot),
        Wish::Write => put_text(out, accepted),
        Wish::Help | Wish::Unknown | Wish::Slots | Wish::Log { .. } => 0,
    }
}

// Writes what a wish asks of the case of a text. A refused case is parted from an accepted one before any line is written.
pub fn answer(wish: Wish, text: &[u8], out: &mut [u8]) -> usize
    requires { print_room ≤ length out.old }
    ensures { Printed print_room (text_says wish text.now) out.old out.new result }
{
    let mut rows = [0u32; TASKS_ROOM];
    let mut times = [0u32; RELEASES_ROOM];
    let read = accepted_case(text, &mut rows, &mut times);
    let Ok(accepted) = &read else {
        return put_refusal(out, &read);
    };
    put_wish(out, wish, accepted)
}

// What is at fault in what a wish asks of a text: the refusal that `answer` prints, where it prints one.
pub fn fault_of(wish: Wish, text: &[u8]) -> Result<(), Fault>
    ensures { result ≡ checked (wish_fault wish text.now) }
{
    let mut rows = [0u32; TASKS_ROOM];
    let mut times = [0u32; RELEASES_ROOM];
    let taken = reader::read(text, &mut rows, &mut times)?;
    wishes::asked_fault(wish, taken.end)
}
