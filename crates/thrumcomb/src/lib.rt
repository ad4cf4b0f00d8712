// The public calls for C and Rust. Each returns 0 or a refusal's number; `results` is changed by a result alone and `place` by a
// refusal alone. A slice is passed as a pointer and then a length. include/thrumcomb.h says the same to a C program.
#![tactic(auto)]

ghost use Rattle.std.specs.Prelude.{◌≡◌, []};
ghost use Rattle.rules.specs.Case.{case_of};
ghost use Rattle.rules.specs.Told.{seen, CountsTold, ReplayTold, RunningTold, ReadTold, WriteTold, ConvertTold, LogTold};

use cases::Case;
use rules::Fault;

// Tells a refusal: its place is written, its number is returned.
fn refuse(fault: Fault, place: &mut u32) -> u32
    ensures { (result ≡ fault.number) × (place.new ≡ fault.place) }
{
    *place = fault.place;
    fault.number
}

// The contention-free counts of a table. The result: how many tasks.
#[unsafe(no_mangle)]
pub extern "C" fn thrumcomb_counts(
    procs: u32,
    table: &[u32],
    out: &mut [u32],
    results: &mut [usize; 1],
    place: &mut u32,
) -> u32
    ensures { CountsTold procs table.now out.old out.new
        (seen result place.old place.new results.old results.new) }
{
    match counts::counts(procs, table, out) {
        Ok(tasks) => {
            *results = [tasks];
            0
        }
        Err(fault) => refuse(fault, place),
    }
}

// The replay of a case. The results: the totals of met, missed and open.
#[unsafe(no_mangle)]
pub extern "C" fn thrumcomb_replay(
    procs: u32,
    policy: u32,
    table: &[u32],
    end: u32,
    trace: &[u32],
    out: &mut [u32],
    results: &mut [usize; 3],
    place: &mut u32,
) -> u32
    ensures { ReplayTold (case_of procs policy table.now end trace.now) out.old out.new
        (seen result place.old place.new results.old results.new) }
{
    let case = Case {
        procs,
        policy,
        table,
        end,
        trace,
    };
    match engine::replay(case, out) {
        Ok(totals) => {
            *results = [
                totals.met as usize,
                totals.missed as usize,
                totals.open as usize,
            ];
            0
        }
        Err(fault) => refuse(fault, place),
    }
}

// The running set of a named slot. The result: the set.
#[unsafe(no_mangle)]
pub extern "C" fn thrumcomb_running_set(
    procs: u32,
    policy: u32,
    table: &[u32],
    end: u32,
    trace: &[u32],
    slot: u32,
    results: &mut [usize; 1],
    place: &mut u32,
) -> u32
    ensures { RunningTold (case_of procs policy table.now end trace.now) slot (seen result place.old
        place.new results.old results.new) }
{
    let case = Case {
        procs,
        policy,
        table,
        end,
        trace,
    };
    match engine::running(case, slot) {
        Ok(set) => {
            *results = [set as usize];
            0
        }
        Err(fault) => refuse(fault, place),
    }
}

// The reader of a case text. The results: processors, policy, end, how many tasks and releases.
#[unsafe(no_mangle)]
pub extern "C" fn thrumcomb_read(
    text: &[u8],
    tasks: &mut [u32],
    releases: &mut [u32],
    results: &mut [usize; 5],
    place: &mut u32,
) -> u32
    ensures { ReadTold text.now tasks.old tasks.new releases.old releases.new
        (seen result place.old place.new results.old results.new) }
{
    match reader::read(text, tasks, releases) {
        Ok(taken) => {
            *results = [
                taken.procs as usize,
                taken.policy as usize,
                taken.end as usize,
                taken.tasks,
                taken.releases,
            ];
            0
        }
        Err(fault) => refuse(fault, place),
    }
}

// The writer of a case text. The result: the text's length.
#[unsafe(no_mangle)]
pub extern "C" fn thrumcomb_write(
    procs: u32,
    policy: u32,
    table: &[u32],
    end: u32,
    trace: &[u32],
    out: &mut [u8],
    results: &mut [usize; 1],
    place: &mut u32,
) -> u32
    ensures { WriteTold (case_of procs policy table.now end trace.now) out.old out.new
        (seen result place.old place.new results.old results.new) }
{
    let case = Case {
        procs,
        policy,
        table,
        end,
        trace,
    };
    match writer::write(&case, out) {
        Ok(length) => {
            *results = [length];
            0
        }
        Err(fault) => refuse(fault, place),
    }
}

// The converter of a text without a policy line. The result: the new text's length.
#[unsafe(no_mangle)]
pub extern "C" fn thrumcomb_convert(
    text: &[u8],
    out: &mut [u8],
    results: &mut [usize; 1],
    place: &mut u32,
) -> u32
    ensures { ConvertTold text.now out.old out.new
        (seen result place.old place.new results.old results.new) }
{
    match converter::convert(text, out) {
        Ok(bytes) => {
            *results = [bytes];
            0
        }
        Err(fault) => refuse(fault, place),
    }
}

// The check of a slot log. There is no result: 0 says that the log is accepted.
#[unsafe(no_mangle)]
pub extern "C" fn thrumcomb_check_log(
    procs: u32,
    policy: u32,
    table: &[u32],
    end: u32,
    trace: &[u32],
    log: &[u8],
    place: &mut u32,
) -> u32
    ensures { LogTold (case_of procs policy table.now end trace.now) log.now
        (seen result place.old place.new [] []) }
{
    let case = Case {
        procs,
        policy,
        table,
        end,
        trace,
    };
    match follow::check_log(case, log) {
        Ok(()) => 0,
        Err(fault) => refuse(fault, place),
    }
}
