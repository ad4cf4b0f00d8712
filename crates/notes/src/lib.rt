// The records of a replay in the lent room: every record open at first, then what happens to a job in a slot, and the totals. Nothing here
// knows how a slot is played: it takes the sets of a slot and the place of each task's last release.
#![tactic(auto)]

ghost use Rattle.std.specs.Prelude.{◌≡◌, true, false, ◌++◌, suc, ◌+◌, ◌*◌, ◌≤◌, ◌<◌, eqb, length, get_or, drop};
ghost use Rattle.rules.specs.Words.{pick, tab, count_in};
ghost use Rattle.rules.specs.Limits.{max_tasks, max_end, max_releases, record_width};
ghost use Rattle.rules.specs.Replay.{numbers};
ghost use Rattle.bridge.specs.Events.{event, entry};
ghost use Rattle.bridge.specs.Notes.{put3, note_to};
ghost use Rattle.notes.specs.Noted.{Roomy, Uneventful, open_record};

use rules::{MAX_TASKS, RECORD_WIDTH};

// ---- what happens to a job

fn is_event(finished: bool, demoted: bool, missed: bool) -> bool
    ensures { result ≡ event finished demoted missed }
{
    finished || demoted || missed
}

fn verdict_after(finished: bool, missed: bool) -> u32
    ensures { result ≡ pick finished 1 (pick missed 2 3) }
{
    if finished {
        1
    } else if missed {
        2
    } else {
        3
    }
}

// The time after the slot where the test holds, else what was there.
fn time_after(is: bool, clock: u32, old: u32) -> u32
    requires { clock < max_end }
    ensures { result ≡ pick is (suc clock) old }
{
    if is { clock + 1 } else { old }
}

// Writes the record at place p after a slot in which its job finished, was demoted or came to its deadline.
fn note_task(out: &mut [u32], p: usize, finished: bool, demoted: bool, missed: bool, clock: u32)
    requires record_width_in_bounds { p * record_width + 2 < length out.old }
    requires clock_lt_max_end { clock < max_end }
    ensures { out.new ≡ put3 out.old p
        (entry clock finished demoted missed (get_or out.old (p * record_width + 2) 0)) }
{
    let v = verdict_after(finished, missed);
    let f = time_after(finished, clock, 0);
    let old = out[p * RECORD_WIDTH + 2];
    let d = time_after(demoted, clock, old);
    out[p * RECORD_WIDTH] = v;
    out[p * RECORD_WIDTH + 1] = f;
    out[p * RECORD_WIDTH + 2] = d;
}

// Writes what happened to each job in a slot.
fn note_all(
    out: &mut [u32],
    place: &[u16; MAX_TASKS],
    finished: &[bool; MAX_TASKS],
    demoted: &[bool; MAX_TASKS],
    missed: &[bool; MAX_TASKS],
    clock: u32,
)
    requires roomy { Roomy place.now finished.now demoted.now missed.now (length out.old) }
    requires clock_lt_max_end { clock < max_end }
    ensures { out.new ≡ note_to clock place.now finished.now demoted.now
        missed.now max_tasks out.old }
{
    for i in 0..MAX_TASKS {
        let fin = finished[i];
        let dem = demoted[i];
        let mis = missed[i];
        if is_event(fin, dem, mis) {
            note_task(out, usize::from(place[i]), fin, dem, mis, clock);
        }
    }
}

// Whether anything happened to a job in a slot. All 32 are looked at whatever comes first: such a loop is made into a few steps.
fn any_event(
    finished: &[bool; MAX_TASKS],
    demoted: &[bool; MAX_TASKS],
    missed: &[bool; MAX_TASKS],
) -> bool
    ensures { result ≡ false → Uneventful finished.now demoted.now missed.now max_tasks }
{
    let mut any = false;
    for i in 0..MAX_TASKS {
        any |= is_event(finished[i], demoted[i], missed[i]);
    }
    any
}

// Writes what a slot changes in the records; in most slots that is nothing.
pub fn note_slot(
    out: &mut [u32],
    place: &[u16; MAX_TASKS],
    finished: &[bool; MAX_TASKS],
    demoted: &[bool; MAX_TASKS],
    missed: &[bool; MAX_TASKS],
    clock: u32,
)
    requires roomy { Roomy place.now finished.now demoted.now missed.now (length out.old) }
    requires clock_lt_max_end { clock < max_end }
    ensures { out.new ≡ note_to clock place.now finished.now demoted.now
        missed.now max_tasks out.old }
{
    if any_event(finished, demoted, missed) {
        note_all(out, place, finished, demoted, missed, clock);
    }
}

// Every record open, before the first slot.
pub fn open_records(out: &mut [u32], len: usize)
    requires { len * record_width ≤ length out.old }
    ensures { out.new ≡ numbers (tab (λ j. open_record) 0 len) ++ drop (len * record_width) out.old }
{
    for j in 0..len {
        out[j * RECORD_WIDTH] = 3;
        out[j * RECORD_WIDTH + 1] = 0;
        out[j * RECORD_WIDTH + 2] = 0;
    }
}

// How many of the n records are marked v.
pub fn marked_in(out: &[u32], n: usize, v: u32) -> u32
    requires record_width_in_bounds { n * record_width ≤ length out.now }
    requires n_le_max_releases { n ≤ max_releases }
    ensures { result ≡ count_in (λ j. eqb (get_or out.now (j * record_width) 0) v) 0 n }
{
    let mut s: u32 = 0;
    for j in 0..n {
        if out[j * RECORD_WIDTH] == v {
            s += 1;
        }
    }
    s
}
