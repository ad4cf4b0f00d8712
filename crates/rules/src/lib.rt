// The declared types of document 01 and the numbers that it fixes. There is no function here: what they mean is said in specs/.
#![tactic(auto)]

// The limits and widths of specs/Limits.antt, each under its name there. No other code writes these numbers.
pub const MAX_PROCS: u32 = 32;

pub const MAX_TASKS: usize = 32;

pub const MAX_PERIOD: u32 = 10000;

pub const MAX_END: u32 = 100000;

pub const MAX_RELEASES: usize = 2000;

pub const MAX_TEXT: usize = 60000;

pub const TASK_WIDTH: usize = 3;

pub const RELEASE_WIDTH: usize = 2;

pub const RECORD_WIDTH: usize = 3;

// The state of a task: no job, a normal one or a demoted one.
// `left` is the remaining execution, `free` the remaining free count, `due` the absolute deadline. Neither of the first two is above
// MAX_PERIOD, so 16 bits hold them: a run is copied where it is handed on, and each copy is on the stack.
#[derive(Clone, Copy)]
pub enum Job {
    Idle,
    Normal { left: u16, free: u16, due: u32 },
    Demoted { left: u16, due: u32 },
}

// A task in a run: its number, one more than the time of its last release (0 before the first), its state.
#[derive(Clone, Copy)]
pub struct Task {
    pub number: u32,
    pub last: u32,
    pub job: Job,
}

// A run: one record for each of 32 tasks.
#[derive(Clone, Copy)]
pub struct Run {
    pub tasks: [Task; MAX_TASKS],
}

// What a check finds at fault: a refusal's number and place. A check answers `Ok` where it finds nothing, and `Err` with the fault else; a
// call answers `Ok` with its results, or `Err` with the fault for which it refuses. That number is never 0.
#[derive(Clone, Copy)]
pub struct Fault {
    pub number: u32,
    pub place: u32,
}

// The results of the replay: how many jobs met their deadline, missed it, or are open at the end.
#[derive(Clone, Copy)]
pub struct Totals {
    pub met: u32,
    pub missed: u32,
    pub open: u32,
}

// The results of the reader: the case's numbers, beside its tasks and releases, and how many of these there are.
#[derive(Clone, Copy)]
pub struct Taken {
    pub procs: u32,
    pub policy: u32,
    pub end: u32,
    pub tasks: usize,
    pub releases: usize,
}

// The kinds of line of a case text, in their order: one numbering for the words that are read and those that are written.
pub const PROCS: u32 = 1;

pub const POLICY: u32 = 2;

pub const TASK: u32 = 3;

pub const END: u32 = 4;

pub const RELEASE: u32 = 5;

// What a line of a case text says.
#[derive(Clone, Copy)]
pub enum Line {
    Bad,
    Procs {
        procs: u32,
    },
    Policy {
        policy: u32,
    },
    Row {
        period: u32,
        execution: u32,
        deadline: u32,
    },
    End {
        end: u32,
    },
    Release {
        time: u32,
        task: u32,
    },
}
