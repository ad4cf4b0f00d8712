// A line of a slot log, heard byte by byte in a state that does not grow with it; the tasks that it names stand in a lent set.
#![tactic(auto)]

ghost use Rattle.std.specs.Prelude.{◌≡◌, Bool, List, ◌+◌, ◌*◌, ◌-◌, ◌≤◌, ◌<◌, ◌^◌, length, get_or};
ghost use Rattle.rules.specs.Limits.{max_tasks};
ghost use Rattle.rules.specs.Text.{return_byte, tab_byte};
ghost use Rattle.rules.specs.Log.{slot_word};
ghost use Rattle.lists.specs.Lists.{members};
ghost use Rattle.feeds.specs.NumScan.{fits, num_so_far, num_end};
ghost use Rattle.feeds.specs.LineScan.{wrong, is_name, with_name, field_byte, scan_byte, heard_time, heard_task, line_end, at_start};
ghost use Rattle.feeds.specs.Bounds.{LineSmall};
ghost use Rattle.heard.specs.Scans.{InWord, InNumber, start_of, next_low, scan_as, ended_as};
ghost use Rattle.heard.specs.Lines.{NumberSmall, Goes, HeardLine};

use rules::MAX_TASKS;

// What is heard of a line: its word, its time, a task; that it cannot become a line any more; that it is one, and a return stands behind
// it.
#[derive(Clone, Copy)]
pub enum Phase {
    Word,
    Time,
    Task,
    Wrong,
    Returned,
}

// The phase that a number stands for: 4 and every larger one for the last, so that a state of any number is one still.
impl From<u32> for Phase {
    ghost use Rattle.heard.specs.Scans.{phase_of};

    ghost from_gives = { λ number phase. phase ≡ phase_of number };

    fn from(number: u32) -> Phase {
        match number {
            0 => Phase::Word,
            1 => Phase::Time,
            2 => Phase::Task,
            3 => Phase::Wrong,
            _ => Phase::Returned,
        }
    }
}

// How far a line is heard: its phase, and what that phase goes by: the bytes of the word that were read, or the digits of a number and
// what they are worth; of the tasks the time before them, the least number that would rise, and whether all before rise and are tasks.
// Behind a return the time is that of the line, and all its tasks are those before. The phases hold none of this: the fields stay in
// registers from byte to byte.
#[derive(Clone, Copy)]
pub struct Scan {
    pub phase: Phase,
    pub digits: u32,
    pub value: u32,
    pub time: u32,
    pub low: u32,
    pub rises: bool,
    pub names: bool,
}

// The byte that ends a line.
const NEWLINE: u8 = b'\n';

// What a line says at its end, beside the set of the tasks that it names.
#[derive(Clone, Copy)]
pub enum Ended {
    Bad,
    Slot { time: u32, rises: bool, names: bool },
}

// ---- numbers

// Whether one more byte may stand in a number of so many digits: a digit, not the tenth, not behind a first 0.
fn fits(digits: u32, value: u32, b: u8) -> bool
    ensures { result ≡ fits digits value b }
{
    matches!(b, b'0'..=b'9') && digits <= 8 && (digits != 1 || value != 0)
}

// What digits are worth with one more.
fn with_digit(value: u32, b: u8) -> u32
    requires value_bound { value < 10 ^ 8 }
    requires le_b { 48 ≤ b }
    ensures { result ≡ value * 10 + (b - 48) }
{
    value * 10 + u32::from(b - b'0')
}

// ---- tasks

// Whether a number is one of a task.
fn is_task(value: u32) -> bool
    ensures { result ≡ is_name value }
{
    1 <= value && value as usize <= MAX_TASKS
}

// Puts a task into the set; a number that is no task has no place in it.
fn name_task(named: &mut [bool; MAX_TASKS], value: u32)
    requires { length named.old ≡ max_tasks }
    ensures { (length named.new ≡ max_tasks)
        × (members named.new ≡ with_name (members named.old) value) }
{
    if is_task(value) {
        named[value as usize - 1] = true;
    }
}

// ---- the end of a field, which is that of the line or has a tab behind it

// The time's end: nobody is named yet.
fn end_time(digits: u32, value: u32, named: &mut [bool; MAX_TASKS]) -> Ended
    ensures { (length named.new ≡ max_tasks)
        × (ended_as result named.new ≡ heard_time (num_end (num_so_far digits value))) }
{
    *named = [false; MAX_TASKS];
    if digits == 0 {
        return Ended::Bad;
    }
    Ended::Slot {
        time: value,
        rises: true,
        names: true,
    }
}

// A task's end.
fn end_task(s: Scan, named: &mut [bool; MAX_TASKS]) -> Ended
    requires { length named.old ≡ max_tasks }
    ensures { (length named.new ≡ max_tasks) × (ended_as result named.new
        ≡ heard_task s.time s.low s.rises s.names (members named.old)
        (num_end (num_so_far s.digits s.value))) }
{
    if s.digits == 0 {
        return Ended::Bad;
    }
    name_task(named, s.value);
    Ended::Slot {
        time: s.time,
        rises: s.rises && s.low <= s.value,
        names: s.names && is_task(s.value),
    }
}

// What the line says where its field ends here, or its return stands.
pub fn line_end(s: Scan, named: &mut [bool; MAX_TASKS]) -> Ended
    requires { length named.old ≡ max_tasks }
    ensures { (length named.new ≡ max_tasks)
        × (ended_as result named.new ≡ line_end (scan_as s named.old)) }
{
    match s.phase {
        Phase::Word | Phase::Wrong => Ended::Bad,
        Phase::Time => end_time(s.digits, s.value, named),
        Phase::Task => end_task(s, named),
        Phase::Returned => Ended::Slot {
            time: s.time,
            rises: s.rises,
            names: s.names,
        },
    }
}

// ---- a byte more

// Before the first byte of a line.
pub fn line_start() -> Scan
    ensures { result ≡ start_of }
{
    Scan {
        phase: Phase::Word,
        digits: 0,
        value: 0,
        time: 0,
        low: 0,
        rises: true,
        names: true,
    }
}

// Whether no byte of a line was heard.
pub fn is_start(s: Scan) -> bool
    ensures { (xs : List Bool) → result ≡ at_start (scan_as s xs) }
{
    matches!(s.phase, Phase::Word) && s.digits == 0
}

// A line that cannot become one any more.
fn lost(s: Scan) -> Scan
    ensures { (xs : List Bool) → scan_as result xs ≡ wrong }
{
    Scan {
        phase: Phase::Wrong,
        ..s
    }
}

// The byte of the word at a place, by a match: a table of the four is slower.
fn letter(place: u32) -> u8
    requires { place < 4 }
    ensures { result ≡ get_or slot_word place 0 }
{
    match place {
        0 => b's',
        1 => b'l',
        2 => b'o',
        _ => b't',
    }
}

// A byte within the word, or the tab behind it.
fn word_byte(s: Scan, b: u8) -> Scan
    requires { InWord s }
    ensures { (xs : List Bool) → scan_as result xs ≡ field_byte (scan_as s xs) b }
{
    let read = s.digits;
    if 4 <= read {
        if b == b'\t' {
            return Scan {
                phase: Phase::Time,
                digits: 0,
                value: 0,
                ..s
            };
        }
        return lost(s);
    }
    if b == letter(read) {
        return Scan {
            digits: read + 1,
            ..s
        };
    }
    lost(s)
}

// The least task that rises behind a field: any behind the time, and behind a task one that is larger.
fn next_low(phase: Phase, value: u32) -> u32
    requires { value < 10 ^ 9 }
    ensures { result ≡ next_low phase value }
{
    match phase {
        Phase::Task => value + 1,
        _ => 0,
    }
}

// A tab behind a number: a task is to come.
fn after_field(s: Scan, named: &mut [bool; MAX_TASKS]) -> Scan
    requires in_number { InNumber s }
    requires named_len { length named.old ≡ max_tasks }
    ensures { (length named.new ≡ max_tasks)
        × (scan_as result named.new ≡ field_byte (scan_as s named.old) tab_byte) }
{
    let low = next_low(s.phase, s.value);
    match line_end(s, named) {
        Ended::Bad => lost(s),
        Ended::Slot { time, rises, names } => Scan {
            phase: Phase::Task,
            digits: 0,
            value: 0,
            time,
            low,
            rises,
            names,
        },
    }
}

// A byte within a number, or the tab behind it.
fn number_byte(s: Scan, b: u8, named: &mut [bool; MAX_TASKS]) -> Scan
    requires in_number { InNumber s }
    requires named_len { length named.old ≡ max_tasks }
    ensures { (length named.new ≡ max_tasks)
        × (scan_as result named.new ≡ field_byte (scan_as s named.old) b) }
{
    if b == b'\t' {
        return after_field(s, named);
    }
    if fits(s.digits, s.value, b) {
        return Scan {
            digits: s.digits + 1,
            value: with_digit(s.value, b),
            ..s
        };
    }
    lost(s)
}

// A return: behind a time or a task the line is heard, and only its newline may follow.
fn at_return(s: Scan, named: &mut [bool; MAX_TASKS]) -> Scan
    requires { length named.old ≡ max_tasks }
    ensures { (length named.new ≡ max_tasks)
        × (scan_as result named.new ≡ scan_byte (scan_as s named.old) return_byte) }
{
    let wrong = lost(s);
    if let Phase::Returned = s.phase {
        return wrong;
    }
    match line_end(s, named) {
        Ended::Bad => wrong,
        Ended::Slot { time, rises, names } => Scan {
            phase: Phase::Returned,
            time,
            rises,
            names,
            ..s
        },
    }
}

// One more byte of a line, which is no newline.
fn scan_byte(s: Scan, b: u8, named: &mut [bool; MAX_TASKS]) -> Scan
    requires line_small { LineSmall (scan_as s named.old) }
    requires named_len { length named.old ≡ max_tasks }
    ensures { (length named.new ≡ max_tasks)
        × (scan_as result named.new ≡ scan_byte (scan_as s named.old) b) }
{
    if b == b'\r' {
        return at_return(s, named);
    }
    match s.phase {
        Phase::Word => word_byte(s, b),
        Phase::Time | Phase::Task => number_byte(s, b, named),
        Phase::Wrong | Phase::Returned => lost(s),
    }
}

// ---- a line within a piece of bytes

// The digits of a number from a place on, as far as they fit, in a loop that asks nothing else, and where they end.
fn scan_digits(s: Scan, piece: &[u8], from: usize) -> (Scan, usize)
    requires in_number { InNumber s }
    requires from_in_bounds { from ≤ length piece.now }
    ensures { (xs : List Bool) → Goes piece.now from (scan_as s xs) result.1 (scan_as result.0 xs) }
{
    let mut digits = s.digits;
    let mut value = s.value;
    let mut i = from;
    while i < piece.len() && fits(digits, value, piece[i]) {
        value = with_digit(value, piece[i]);
        digits += 1;
        i += 1;
    }
    (Scan { digits, value, ..s }, i)
}

// The same where a number is being read; any other state stays where it is.
fn scan_number(s: Scan, piece: &[u8], from: usize) -> (Scan, usize)
    requires number_small { NumberSmall s }
    requires from_in_bounds { from ≤ length piece.now }
    ensures { (xs : List Bool) → Goes piece.now from (scan_as s xs) result.1 (scan_as result.0 xs) }
{
    match s.phase {
        Phase::Time | Phase::Task => scan_digits(s, piece, from),
        _ => (s, from),
    }
}

// The line from a place on, up to its newline or the end of the piece; where that is stands in `at`.
pub fn scan_line(
    s: Scan,
    piece: &[u8],
    from: usize,
    at: &mut usize,
    named: &mut [bool; MAX_TASKS],
) -> Scan
    requires line_small { LineSmall (scan_as s named.old) }
    requires from_in_bounds { from ≤ length piece.now }
    requires named_len { length named.old ≡ max_tasks }
    ensures { HeardLine piece.now from at.new (scan_as s named.old) (scan_as result named.new)
        named.new }
{
    let mut i = from;
    let mut scan = s;
    while i < piece.len() && piece[i] != NEWLINE {
        scan = scan_byte(scan, piece[i], named);
        (scan, i) = scan_number(scan, piece, i + 1);
    }
    *at = i;
    scan
}
