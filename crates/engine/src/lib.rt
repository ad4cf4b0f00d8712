// The replay of a case, into lent room; and the running set of one slot.
#![tactic(auto)]

ghost use Rattle.std.specs.Prelude.{◌≡◌, false, [], ◌∷◌, ◌*◌, ◌≤◌, length, get_or};
ghost use Rattle.rules.specs.Limits.{record_width};
ghost use Rattle.rules.specs.Case.{release_count};
ghost use Rattle.rules.specs.Replay.{met_jobs, missed_jobs, open_jobs};
ghost use Rattle.rules.specs.Answers.{total_values};
ghost use Rattle.rules.specs.Calls.{room_after, ReplayPromise, RunningPromise};
ghost use Rattle.rules.specs.Slot.{set_number};

use cases::{AcceptedCase, Case};
use rules::{Fault, MAX_TASKS, Totals};

// ---- the replay

// The replay of an accepted case, into room that is long enough: the records, and their totals.
#[tactic(auto, using(crate::proofs::Calls::replayed))]
pub fn replay_run(accepted: &AcceptedCase, out: &mut [u32]) -> Totals
    requires { release_count accepted.now.trace * record_width ≤ length out.old }
    ensures records { out.new ≡ room_after accepted.now out.old }
    ensures totals { total_values result ≡ met_jobs accepted.now ∷ missed_jobs accepted.now ∷ open_jobs accepted.now ∷ [] }
{
    let case = &accepted.case;
    let n = cases::release_count(case.trace);
    notes::open_records(out, n);
    slots::walk(accepted, case.end, true, out);
    let met = notes::marked_in(out, n, 1);
    let missed = notes::marked_in(out, n, 2);
    let open = notes::marked_in(out, n, 3);
    Totals { met, missed, open }
}

// The replay of any case: a refusal that leaves the room as it was, or the records and their totals.
pub fn replay(case: Case, out: &mut [u32]) -> Result<Totals, Fault>
    ensures { ReplayPromise case.entry out.old result out.new }
{
    let accepted = checks::accept_replay(case, out.len())?;
    Ok(replay_run(&accepted, out))
}

// ---- the running set

// A set as a number: bit i for the task at i.
#[tactic(auto, using(crate::proofs::Powers::doubling_none), unfolding(rules::specs::Slot::set_number))]
fn set_number(set: &[bool; MAX_TASKS]) -> u32
    ensures { result ≡ set_number (λ i. get_or set.now i false) }
{
    let mut number: u64 = 0;
    let mut power: u64 = 1;
    for runs in set {
        if *runs {
            number += power;
        }
        power *= 2;
    }
    number as u32
}

// The running set of a named slot of any case.
pub fn running(case: Case, slot: u32) -> Result<u32, Fault>
    ensures { RunningPromise case.entry slot result }
{
    let accepted = checks::accept_running(case, slot)?;
    let ran = slots::walk(&accepted, slot + 1, false, &mut []);
    Ok(set_number(&ran))
}
