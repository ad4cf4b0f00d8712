// The check of a vendor's slot log: a state by value that takes the log in pieces of any length, and the call that takes it whole. The
// state follows the log, not our own replay: each slot works the set that its line names.
#![tactic(auto)]

ghost use Rattle.std.specs.Prelude.{◌≡◌, Bool, ◌&&◌, ◌||◌, not, List, [], suc, ◌+◌, ◌≤◌, ◌^◌, eqb, ltb};
ghost use Rattle.rules.specs.Words.{pick};
ghost use Rattle.rules.specs.Case.{Case};
ghost use Rattle.rules.specs.Slot.{jobs_now, lowered, worked};
ghost use Rattle.rules.specs.Replay.{setup_in};
ghost use Rattle.rules.specs.Refusals.{Accepted};
ghost use Rattle.rules.specs.Answers.{logged_as, settled};
ghost use Rattle.rules.specs.Calls.{LogPromise};
ghost use Rattle.rules.specs.Log.{keeps_rule};
ghost use Rattle.lists.specs.Lists.{members};
ghost use Rattle.bridge.specs.Steps.{Full};
ghost use Rattle.counts.specs.Needs.{Counts};
ghost use Rattle.traces.specs.Traces.{due};
ghost use Rattle.feeds.specs.Feed.{Feed, opening, formed_heard, names_heard, feed, fed_fault};
ghost use Rattle.slot.specs.Calm.{Ahead};
ghost use Rattle.heard.specs.Scans.{start_of, ended_as};
ghost use Rattle.follow.specs.Follows.{Follows, Followed, Openable, Opens};

use cases::{AcceptedCase, Case};
use heard::{Ended, Scan};
use rules::{Fault, MAX_TASKS, Run};

// The check so far: the run, the tasks that the unfinished line names, how far that line is heard, how many lines were before it, the
// first release that is not taken, how many jobs the run has and whether steps 1 and 3 of the next slot surely change none of them, and the
// number of the first fault, 0 where there is none: the loop asks for it at each line, and its place is that of the line. Once at fault it
// stays as it is: of a slot that breaks the rule the run is that after step 3, for the words that say why.
#[derive(Clone, Copy)]
pub struct Log {
    pub run: Run,
    pub named: [bool; MAX_TASKS],
    pub scan: Scan,
    pub lines: u32,
    pub next: usize,
    pub jobs: usize,
    pub calm: bool,
    pub number: u32,
}

// ---- one slot

// Whether a slot has to be opened: in most slots nothing is released and steps 1 and 3 change no job. That the case is accepted is said for
// the caller, who does not look into it.
fn must_open(accepted: &AcceptedCase, next: usize, clock: u32, calm: bool) -> bool
    ensures asked { result ≡ (not calm || due accepted.now.trace next clock) }
    ensures accepted { Accepted accepted.now }
{
    !calm || traces::is_due(accepted.case.trace, next, clock)
}

// Steps 1 to 3 of the slot at a time, with the releases of that time: the run, the first release after them, and how many jobs there are.
// The run is changed where it lies: one that is given back has a place of its own on the stack of the loop that calls.
fn open_at(
    run: &mut Run,
    accepted: &AcceptedCase,
    counts: &[u32; MAX_TASKS],
    clock: u32,
    next: &mut usize,
    jobs: &mut usize,
)
    requires openable { Openable accepted.now counts.now clock next.old }
    requires full { Full run.old }
    ensures { Opens (setup_in accepted.now) accepted.now.trace clock run.old run.new next.new jobs.new }
{
    let case = &accepted.case;
    let mut released = [false; MAX_TASKS];
    let from = *next;
    *next = traces::take_releases(case.trace, from, clock, &mut released);
    *run = slot::open_run(
        *run,
        case.procs,
        case.policy,
        case.table,
        counts,
        &released,
        clock,
        jobs,
    );
}

// The number of a slot by whether it stands.
fn told(stands: bool) -> u32
    ensures { result ≡ pick stands 0 18 }
{
    if stands { 0 } else { 18 }
}

// What is at fault in a slot after step 3, whose line names this set: 18, or nothing. Without any job only the set is looked at.
#[tactic(auto, using(rule::specs::NoneWait::nobody_keeps))]
fn slot_number(
    run: Run,
    accepted: &AcceptedCase,
    clock: u32,
    ended: Ended,
    jobs: usize,
    named: &[bool; MAX_TASKS],
) -> u32
    requires { jobs ≡ jobs_now run }
    ensures { (xs : List Bool) → result ≡ pick (names_heard (ended_as ended xs)
        && keeps_rule (setup_in accepted.now) clock run (members named.now)) 0 18 }
{
    let names = names_tasks(ended);
    if jobs == 0 {
        return told(names && rule::is_nobody(named));
    }
    let case = &accepted.case;
    told(names && rule::keeps(run, case.procs, case.policy, clock, jobs, named))
}

// Whether the set of a slot works: where the slot stands. Where there is no job there is nothing to do.
fn is_worked(number: u32, jobs: usize) -> bool
    ensures { result ≡ (eqb number 0 && not (eqb jobs 0)) }
{
    number == 0 && jobs != 0
}

// Steps 4 to 6 for the set that is named: the run, changed where it lies, and what is known of it before the next slot.
fn work_at(
    run: &mut Run,
    accepted: &AcceptedCase,
    clock: u32,
    named: &[bool; MAX_TASKS],
    jobs: &mut usize,
    calm: &mut bool,
)
    requires early { clock ≤ 10 ^ 9 }
    requires jobs_value { jobs.old ≡ jobs_now run.old }
    ensures { (run.new ≡ worked (members named.now) (lowered (setup_in accepted.now) run.old))
        × Ahead accepted.now.policy (suc clock) run.new jobs.new calm.new }
{
    let case = &accepted.case;
    *run = slot::work_run(*run, case.procs, case.policy, clock, named, jobs, calm);
}

// ---- one line

// Whether what is heard of a line with so many before it is well formed.
fn is_formed(ended: Ended, lines: u32) -> bool
    ensures { (xs : List Bool) → result ≡ formed_heard lines (ended_as ended xs) }
{
    match ended {
        Ended::Bad => false,
        Ended::Slot { time, rises, .. } => time == lines && rises,
    }
}

// Whether each number named is one of a task.
pub fn names_tasks(ended: Ended) -> bool
    ensures { (xs : List Bool) → result ≡ names_heard (ended_as ended xs) }
{
    match ended {
        Ended::Bad => true,
        Ended::Slot { names, .. } => names,
    }
}

// Whether a line that ends with so many before it has a slot to be followed: it is well formed and stands before the end. What is wrong
// with its form goes into `number`: 17, or nothing.
fn has_slot(ended: Ended, accepted: &AcceptedCase, lines: u32, number: &mut u32) -> bool
    ensures { ((xs : List Bool) → number.new ≡ pick (formed_heard lines (ended_as ended xs)) 0 17)
        × (result ≡ (eqb number.new 0 && ltb lines accepted.now.end)) }
{
    if is_formed(ended, lines) {
        *number = 0;
        return lines < accepted.case.end;
    }
    *number = 17;
    false
}

// ---- the log in pieces

// Before the first byte.
pub fn open_log() -> Log
    ensures { (c : Case) → Follows c opening result }
{
    Log {
        run: slot::fresh_run(),
        named: [false; MAX_TASKS],
        scan: heard::line_start(),
        lines: 0,
        next: 0,
        jobs: 0,
        calm: true,
        number: 0,
    }
}

// Behind a line without fault the next one begins; behind one at fault nothing changes any more.
fn next_scan(scan: Scan, number: u32) -> Scan
    ensures { result ≡ pick (eqb number 0) start_of scan }
{
    match number {
        0 => heard::line_start(),
        _ => scan,
    }
}

fn next_line(lines: u32, number: u32) -> u32
    requires { lines ≤ 10 ^ 9 }
    ensures { result ≡ pick (eqb number 0) (lines + 1) lines }
{
    if number == 0 { lines + 1 } else { lines }
}

// A piece of the log, line by line: up to the newline by the bytes alone, then the slot. A turn goes on by a line and not by one byte, and
// what follows a fault does not matter. The run is changed where this loop holds it, and only where a slot changes it: a function that took
// it and gave it back would copy it in every slot. Run and set stay in the state: the compiler takes a run that is a local of its own apart
// into its 32 tasks and copies it part by part.
pub fn feed(log: Log, accepted: &AcceptedCase, counts: &[u32; MAX_TASKS], piece: &[u8]) -> Log
    requires counts { Counts accepted.now.procs accepted.now.table counts.now }
    requires followed { Followed accepted.now log }
    ensures { (f : Feed) → Follows accepted.now f log
        → Follows accepted.now (feed accepted.now f piece.now) result }
{
    let mut s = log;
    let mut scan = log.scan;
    let mut lines = log.lines;
    let mut next = log.next;
    let mut jobs = log.jobs;
    let mut calm = log.calm;
    let mut number = log.number;
    let mut i: usize = 0;
    while i < piece.len() && number == 0 {
        scan = heard::scan_line(scan, piece, i, &mut i, &mut s.named);
        if i == piece.len() {
            break;
        }
        let ended = heard::line_end(scan, &mut s.named);
        if has_slot(ended, accepted, lines, &mut number) {
            if must_open(accepted, next, lines, calm) {
                open_at(&mut s.run, accepted, counts, lines, &mut next, &mut jobs);
            }
            number = slot_number(s.run, accepted, lines, ended, jobs, &s.named);
            if is_worked(number, jobs) {
                work_at(&mut s.run, accepted, lines, &s.named, &mut jobs, &mut calm);
            }
        }
        scan = next_scan(scan, number);
        lines = next_line(lines, number);
        i += 1;
    }
    Log {
        scan,
        lines,
        next,
        jobs,
        calm,
        number,
        ..s
    }
}

// The log is over: what is at fault in it, if anything is.
pub fn close_log(log: Log, end: u32) -> Result<(), Fault>
    requires { log.lines ≤ 10 ^ 9 }
    ensures { (c : Case) (f : Feed) → c.end ≡ end → Follows c f log → logged_as result ≡ settled (fed_fault c f) [] }
{
    let number = log.number;
    let place = log.lines + 1;
    if number != 0 {
        return Err(Fault { number, place });
    }
    if !heard::is_start(log.scan) {
        return Err(Fault { number: 17, place });
    }
    if log.lines != end {
        return Err(Fault {
            number: 19,
            place: 0,
        });
    }
    Ok(())
}

// ---- the call

// The check of a whole log: one piece.
pub fn check_log(case: Case, log: &[u8]) -> Result<(), Fault>
    ensures { LogPromise case.entry log.now result }
{
    let accepted = checks::accept(case)?;
    let free = counts::free_counts(accepted.case.procs, accepted.case.table);
    let last = feed(open_log(), &accepted, &free, log);
    close_log(last, accepted.case.end)
}
