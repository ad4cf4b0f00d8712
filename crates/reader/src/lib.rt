// The reader of the case text: the case of a text is read into rooms of its own, and put into the lent rooms once nothing is at fault.
#![tactic(auto)]

ghost use Rattle.std.specs.Prelude.{◌≡◌, ◌++◌, ◌≤◌, leb, length, drop};
ghost use Rattle.rules.specs.Limits.{max_text};
ghost use Rattle.rules.specs.Case.{case_of};
ghost use Rattle.rules.specs.Refusals.{checked, unless};
ghost use Rattle.rules.specs.Calls.{ReadPromise};
ghost use Rattle.lines.specs.Held.{table_room, trace_room};
ghost use Rattle.reader.specs.Reads.{rooms_fault, ReadsCase, PutsCase};

use cases::Case;
use faults::{refuse_unless, room_fault};
use lines::{Gathered, Head, TABLE_ROOM, TRACE_ROOM};
use rules::{Fault, MAX_RELEASES, MAX_TASKS, MAX_TEXT, RELEASE_WIDTH, TASK_WIDTH, Taken};

// The rooms that the reader needs: for as many tasks and releases as a case may have.
pub const TASKS_ROOM: usize = MAX_TASKS * TASK_WIDTH;

pub const RELEASES_ROOM: usize = MAX_RELEASES * RELEASE_WIDTH;

// What is at fault with the lent rooms.
#[tactic(auto, using(legal::specs::Firsts::rows), unfolding(crate::specs::Reads::rooms_fault))]
fn rooms_fault(tasks: usize, releases: usize) -> Result<(), Fault>
    ensures { result ≡ checked (rooms_fault tasks releases) }
{
    room_fault(TASKS_ROOM, tasks)?;
    room_fault(RELEASES_ROOM, releases)
}

// What is at fault with the length of a text.
#[tactic(auto, using(legal::specs::Firsts::refused))]
pub fn length_fault(length: usize) -> Result<(), Fault>
    ensures { result ≡ checked (unless (leb length max_text) 1 0) }
{
    refuse_unless(length <= MAX_TEXT, 1, 0)
}

// Reads the case of a text into two rooms: what is at fault with the text, or the case, whose numbers stand at the front of the rooms.
pub fn read_case(text: &[u8], table: &mut [u32], trace: &mut [u32]) -> Result<Gathered, Fault>
    requires table_len { length table.old ≡ table_room }
    requires trace_len { length trace.old ≡ trace_room }
    ensures { ReadsCase text.now result table.new trace.new }
{
    length_fault(text.len())?;
    let found = lines::gather(text, table, trace)?;
    checks::case_fault(&Case {
        procs: found.head.procs,
        policy: found.head.policy,
        table: &table[..found.tasks],
        end: found.head.end,
        trace: &trace[..found.releases],
    })?;
    Ok(found)
}

// Copies numbers to the front of a room; those after them stay. One by one, as `puts::put_bytes` does and for its reason.
fn put_numbers(room: &mut [u32], numbers: &[u32])
    requires { length numbers.now ≤ length room.old }
    ensures { room.new ≡ numbers.now ++ drop (length numbers.now) room.old }
{
    for (i, n) in numbers.iter().enumerate() {
        room[i] = *n;
    }
}

// Puts the numbers of a case to the front of the lent rooms, where those after them stay; its values are the answer.
#[tactic(auto, unfolding(rules::specs::Reader::case_values))]
fn put_case(
    head: Head,
    table: &[u32],
    trace: &[u32],
    tasks: &mut [u32],
    releases: &mut [u32],
) -> Taken
    requires table_in_bounds { length table.now ≤ length tasks.old }
    requires trace_in_bounds { length trace.now ≤ length releases.old }
    ensures { PutsCase (case_of head.procs head.policy table.now head.end trace.now)
        tasks.old releases.old result tasks.new releases.new }
{
    put_numbers(tasks, table);
    put_numbers(releases, trace);
    Taken {
        procs: head.procs,
        policy: head.policy,
        end: head.end,
        tasks: table.len() / TASK_WIDTH,
        releases: trace.len() / RELEASE_WIDTH,
    }
}

// The reader: the case of a text, its numbers put into the lent rooms; on a refusal nothing is put there.
pub fn read(text: &[u8], tasks: &mut [u32], releases: &mut [u32]) -> Result<Taken, Fault>
    ensures { ReadPromise text.now tasks.old releases.old result tasks.new
        releases.new }
{
    rooms_fault(tasks.len(), releases.len())?;
    let mut table = [0; TABLE_ROOM];
    let mut trace = [0; TRACE_ROOM];
    let found = read_case(text, &mut table, &mut trace)?;
    Ok(put_case(
        found.head,
        &table[..found.tasks],
        &trace[..found.releases],
        tasks,
        releases,
    ))
}
