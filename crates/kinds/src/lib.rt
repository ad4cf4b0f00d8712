// What one line of a case text says: its word gives its kind, its kind what its fields are, and its kind where it may stand.
#![tactic(auto)]

ghost use Rattle.std.specs.Prelude.{◌≡◌, true};
ghost use Rattle.rules.specs.Reader.{one_number, two_numbers, three_numbers, policy_in, word_kind, fields_say, may_follow};
ghost use Rattle.rules.specs.declared.Line.TheVariants.{Procs, Row, End, Release};
ghost use Rattle.kinds.specs.Says.{Says, StartsRelease};

use rules::{END, Line, POLICY, PROCS, RELEASE, TASK};
use scan::{after_field, field, number};
use words::same_bytes;

// What a line says, with the kind that its word opens.
#[derive(Clone, Copy)]
pub struct Said {
    pub kind: u32,
    pub line: Line,
}

// The kind of line that a word opens: 1 procs, 2 policy, 3 task, 4 end, 5 release; 0 where it opens none.
#[tactic(auto, unfolding(rules::specs::Reader::word_kind))]
pub fn word_kind(w: &[u8]) -> u32
    ensures { result ≡ word_kind w.now }
{
    if same_bytes(w, b"procs") {
        return PROCS;
    }
    if same_bytes(w, b"policy") {
        return POLICY;
    }
    if same_bytes(w, b"task") {
        return TASK;
    }
    if same_bytes(w, b"end") {
        return END;
    }
    if same_bytes(w, b"release") {
        return RELEASE;
    }
    0
}

// The fields of a `procs` line: one number.
#[tactic(auto, unfolding(rules::specs::Reader::one_number))]
pub fn procs_fields(s: &[u8]) -> Line
    ensures { result ≡ one_number s.now Procs }
{
    let Some(procs) = number(s) else {
        return Line::Bad;
    };
    Line::Procs { procs }
}

// The field of a `policy` line: a policy's word.
#[tactic(auto, unfolding(rules::specs::Reader::policy_in))]
pub fn policy_fields(s: &[u8]) -> Line
    ensures { result ≡ policy_in s.now }
{
    let Some(policy) = policies::policy_of(s) else {
        return Line::Bad;
    };
    Line::Policy { policy }
}

// The fields of a `task` line: T, C and D, each looked for in what follows the tab before it.
#[tactic(auto, unfolding(rules::specs::Reader::three_numbers, rules::specs::Reader::two_numbers, rules::specs::Reader::one_number))]
pub fn task_fields(s: &[u8]) -> Line
    ensures { result ≡ three_numbers s.now Row }
{
    let first = field(s);
    let Some(period) = number(first) else {
        return Line::Bad;
    };
    let t = after_field(s, first.len());
    let second = field(t);
    let Some(execution) = number(second) else {
        return Line::Bad;
    };
    let Some(deadline) = number(after_field(t, second.len())) else {
        return Line::Bad;
    };
    Line::Row {
        period,
        execution,
        deadline,
    }
}

// The fields of an `end` line: one number.
#[tactic(auto, unfolding(rules::specs::Reader::one_number))]
pub fn end_fields(s: &[u8]) -> Line
    ensures { result ≡ one_number s.now End }
{
    let Some(end) = number(s) else {
        return Line::Bad;
    };
    Line::End { end }
}

// The fields of a `release` line: time and task.
#[tactic(auto, unfolding(rules::specs::Reader::two_numbers, rules::specs::Reader::one_number))]
pub fn release_fields(s: &[u8]) -> Line
    ensures { result ≡ two_numbers s.now Release }
{
    let first = field(s);
    let Some(time) = number(first) else {
        return Line::Bad;
    };
    let Some(task) = number(after_field(s, first.len())) else {
        return Line::Bad;
    };
    Line::Release { time, task }
}

// What the fields s of a line of that kind say.
#[tactic(auto, unfolding(rules::specs::Reader::fields_say))]
pub fn fields_say(kind: u32, s: &[u8]) -> Line
    ensures { result ≡ fields_say kind s.now }
{
    match kind {
        PROCS => procs_fields(s),
        POLICY => policy_fields(s),
        TASK => task_fields(s),
        END => end_fields(s),
        RELEASE => release_fields(s),
        _ => Line::Bad,
    }
}

// What a line says: one of the words with just its fields.
#[tactic(auto, using(crate::proofs::Opening::fields_open), unfolding(rules::specs::Reader::line_says))]
pub fn line_says(s: &[u8]) -> Said
    ensures { Says s.now result }
{
    let word = field(s);
    let kind = word_kind(word);
    let line = fields_say(kind, after_field(s, word.len()));
    Said { kind, line }
}

// Where the fields of a release start: behind its word and a tab.
const RELEASE_FIELDS: usize = 8;

// Whether a line starts with the word of a release and a tab. The tab is looked for where it has to stand, and not along the word.
#[tactic(auto, using(crate::proofs::Opening::starts))]
fn starts_release(s: &[u8]) -> bool
    ensures { result ≡ true → StartsRelease s.now }
{
    RELEASE_FIELDS <= s.len()
        && s[RELEASE_FIELDS - 1] == b'\t'
        && same_bytes(&s[0..RELEASE_FIELDS - 1], b"release")
}

// The same, for a line that is most likely a release, as nearly all lines of a text are: that word is looked for first.
pub fn release_says(s: &[u8]) -> Said
    ensures { Says s.now result }
{
    if starts_release(s) {
        let line = release_fields(&s[RELEASE_FIELDS..]);
        return Said {
            kind: RELEASE,
            line,
        };
    }
    line_says(s)
}

// Whether a line of that kind may follow one of kind `before`, which is 0 before the first line.
#[tactic(auto, unfolding(rules::specs::Reader::may_follow))]
pub fn may_follow(before: u32, kind: u32) -> bool
    ensures { result ≡ may_follow before kind }
{
    match kind {
        PROCS => before == 0,
        POLICY => before == PROCS,
        TASK => matches!(before, PROCS | POLICY | TASK),
        END => before == TASK,
        RELEASE => matches!(before, END | RELEASE),
        _ => false,
    }
}
