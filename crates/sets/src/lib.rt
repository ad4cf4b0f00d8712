// The lines that name the tasks of a set: of the set as a number, as the running call answers it, and of the set as an array, as a slot
// leaves it. The numbers of the line are gathered first: the slot, and behind it the tasks.
#![tactic(auto)]

ghost use Rattle.std.specs.Prelude.{false, ℕ, ◌∷◌, ◌<◌, ◌≤◌, length, get_or};
ghost use Rattle.rules.specs.Limits.{max_tasks};
ghost use Rattle.rules.specs.Slot.{TaskSet, tasks_in};
ghost use Rattle.rules.specs.Log.{slot_line_text};
ghost use Rattle.puts.specs.Fields.{number_line};
ghost use Rattle.prints.specs.Lines.{line_room, Printed};
ghost use Rattle.sets.specs.Sets.{running_line};

use puts::{RUNNING, SLOT, SPACE, TAB, put_line};
use rules::MAX_TASKS;

// Writes the line of a slot and the tasks of a set, in rising order; `is_in` says which are in it, the first at 0.
fn put_set_line<F: Fn(usize) -> bool>(
    out: &mut [u8],
    between: u8,
    word: u32,
    slot: u32,
    is_in: F,
) -> usize
    requires room { line_room ≤ length out.old }
    requires callable { (i : ℕ) → i < max_tasks → F.pre is_in i }
    ensures { (set : TaskSet) × ((i : ℕ) → i < max_tasks → F.post is_in i (set i))
        × Printed line_room (number_line between word (slot ∷ tasks_in set)) out.old out.new result }
{
    let mut numbers = [slot; MAX_TASKS + 1];
    let mut n = 1;
    for i in 0..MAX_TASKS {
        if is_in(i) {
            numbers[n] = i as u32 + 1;
            n += 1;
        }
    }
    put_line(out, between, word, &numbers[..n])
}

// Writes the line of a slot's running set, a number whose lowest bit stands for the first task.
pub fn put_running(out: &mut [u8], slot: u32, set: u32) -> usize
    requires { line_room ≤ length out.old }
    ensures { Printed line_room (running_line slot set) out.old out.new result }
{
    put_set_line(out, SPACE, RUNNING, slot, |i| (set >> i) & 1 == 1)
}

// Writes the line of a slot log: the time of the slot and the tasks that ran in it.
pub fn put_slot_line(out: &mut [u8], time: u32, ran: &[bool; MAX_TASKS]) -> usize
    requires { line_room ≤ length out.old }
    ensures { Printed line_room (slot_line_text time (tasks_in (λ i. get_or ran.now i false))) out.old
        out.new result }
{
    put_set_line(out, TAB, SLOT, time, |i| ran[i])
}
