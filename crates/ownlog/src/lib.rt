// Our own slot log (request P2), a piece at a time: the lines of as many slots as a lent part has room for, and the replay as it then
// stands, from which the next piece goes on. No memory grows with the number of slots.
#![tactic(auto)]

ghost use Rattle.std.specs.Prelude.{◌≡◌, ◌≤◌, length};
ghost use Rattle.rules.specs.Case.{Case};
ghost use Rattle.counts.specs.Needs.{Counts};
ghost use Rattle.prints.specs.Lines.{line_room};
ghost use Rattle.ownlog.specs.Pieces.{Plays, Wrote};

use cases::AcceptedCase;
use prints::LINE_ROOM;
use rules::{MAX_TASKS, Run};
use sets::put_slot_line;

// Our own replay as it stands at a time, before step 1: the run, and the place of the first release that is not before the time.
#[derive(Clone, Copy)]
pub struct Play {
    pub run: Run,
    pub next: usize,
    pub clock: u32,
}

// The replay of any case before its first slot.
#[tactic(auto, using(crate::proofs::Writing::plays_none))]
pub fn start() -> Play
    ensures { ((c : Case) → Plays c result) × (result.clock ≡ 0) }
{
    Play {
        run: slot::fresh_run(),
        next: 0,
        clock: 0,
    }
}

// Writes the lines of the slots from the play's time on, each into the unused end of the output, while there is another slot and room
// for a line; and answers how many bytes they are. The play is then the one after them. A slot goes straight from run to run, as in the
// engine's walk.
pub fn put_slots(
    play: &mut Play,
    accepted: &AcceptedCase,
    counts: &[u32; MAX_TASKS],
    out: &mut [u8],
) -> usize
    requires counts { Counts accepted.now.procs accepted.now.table counts.now }
    requires plays { Plays accepted.now play.old }
    requires line_room_in_bounds { line_room ≤ length out.old }
    ensures { Wrote accepted.now play.old.clock play.new out.old out.new result }
{
    let case = &accepted.case;
    let Play {
        mut run,
        mut next,
        mut clock,
    } = *play;
    let mut bound = 0;
    let mut at = 0;
    while clock < case.end && LINE_ROOM <= out.len() - at {
        let mut jobs = 0;
        let mut released = [false; MAX_TASKS];
        let mut missed = [false; MAX_TASKS];
        let mut demoted = [false; MAX_TASKS];
        let mut ran = [false; MAX_TASKS];
        let mut finished = [false; MAX_TASKS];
        let mut missed_next = [false; MAX_TASKS];
        next = traces::take_releases(case.trace, next, clock, &mut released);
        run = slot::step(
            run,
            case.procs,
            case.policy,
            case.table,
            counts,
            &released,
            clock,
            &mut bound,
            &mut jobs,
            &mut missed,
            &mut demoted,
            &mut ran,
            &mut finished,
            &mut missed_next,
        );
        at += put_slot_line(&mut out[at..], clock, &ran);
        clock += 1;
    }
    *play = Play { run, next, clock };
    at
}
