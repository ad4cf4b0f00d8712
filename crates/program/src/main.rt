// Reads a case from standard input and prints what is asked of it: what is printed is put into bytes first and then written whole, or,
// where it is a log, a piece at a time; a log in a file is read a piece at a time. The exit status says how it ended (`tell`).
#![tactic(auto)]

ghost use Rattle.std.specs.Prelude.{◌≡◌, ◌≤◌, length, take, IfSome, IfOk, OnOk};
ghost use Rattle.std.specs.Io.KnownBytes.{Appends};
ghost use Rattle.std.specs.Process.{exit_status};
ghost use Rattle.rules.specs.Refusals.{checked};
ghost use Rattle.rules.specs.Report.{refused_line};
ghost use Rattle.rules.specs.Log.{own_log};
ghost use Rattle.report.specs.Cases.{print_room};
ghost use Rattle.counts.specs.Needs.{Counts};
ghost use Rattle.follow.specs.Follows.{Followed};
ghost use Rattle.answers.specs.Prints.{text_says, wish_fault};
ghost use Rattle.program.specs.Ends.{status_of, answered};

use blame::BLAME_ROOM;
use cases::AcceptedCase;
use follow::Log;
use prints::LINE_ROOM;
use reader::{RELEASES_ROOM, TASKS_ROOM};
use rules::{Fault, MAX_TASKS, MAX_TEXT};
use std::env::FillError;
use std::fs::{self, File};
use std::io::{self, Cursor, Read, Write};
use std::process::ExitCode;
use std::rt::{Env, Files};
use wishes::{Asked, Wish};

// ---- what the words of the command line ask

// The bytes of a word, put at the start of the room. One that does not fit, and one that is not there, is taken for an empty one.
fn word<R: Env>(rt: &R, i: usize, room: &mut [u8]) -> usize
    ensures { result ≤ length room.new }
{
    rt.arg(i, room).unwrap_or(0)
}

// Whether there is a word i, the program's name being word 0.
fn has_word<R: Env>(rt: &R, i: usize) -> bool {
    let mut room = [0u8; 1];
    !matches!(rt.arg(i, &mut room), Err(FillError::NotPresent))
}

// How many words the program was started with, its name being one of them.
fn word_count<R: Env>(rt: &R) -> usize {
    for i in 0..usize::MAX {
        if !has_word(rt, i) {
            return i;
        }
    }
    usize::MAX
}

// What the program's words ask. One that does not fit its room is taken for an empty one, which asks nothing either.
fn wished<R: Env>(rt: &R) -> Asked {
    let mut first = [0u8; 16];
    let mut second = [0u8; 16];
    let mut third = [0u8; 16];
    let a = word(rt, 1, &mut first);
    let b = word(rt, 2, &mut second);
    let c = word(rt, 3, &mut third);
    wishes::words_ask(word_count(rt), &first[..a], &second[..b], &third[..c])
}

// ---- in and out

// How the program ended: all was written; a read, a write or the opening of a file failed; the case or the log is refused; or the words
// ask for nothing that there is.
#[derive(Clone, Copy)]
enum Outcome {
    Done,
    Failed,
    Refused,
    Unknown,
}

// Where the answer is written, and where what is said of it goes.
#[derive(Drop)]
struct Streams<O, E> {
    out: O,
    err: E,
}

// Why there is no answer: what failed, and what the system says of it.
#[derive(Drop)]
enum Failure {
    Read(io::Error),
    Write(io::Error),
    Open(io::Error),
}

// Reads until the input ends, a read fails or the room is full. Only a read that answers 0 ends the input: one that fails is told apart.
// Where none failed, what came is what the input had, as far as there is room.
fn read_text<R: Read>(from: &mut R, text: &mut [u8]) -> io::Result<usize>
    ensures fits { IfOk result (λ n. n ≤ length text.new) }
    ensures whole { IfOk result (λ n. IfSome (R.remaining from.old)
        (λ xs. take n text.new ≡ take (length text.old) xs)) }
{
    let mut n: usize = 0;
    while n < text.len() {
        let more = from.read(&mut text[n..])?;
        if more == 0 {
            return Ok(n);
        }
        n += more;
    }
    Ok(n)
}

// Writes an answer to its end.
fn write_out<O: Write>(out: &mut O, bytes: &[u8]) -> io::Result<()>
    ensures { OnOk result (Appends (O.contents out.old) (O.contents out.new) bytes.now) }
{
    out.write_all(bytes)?;
    out.flush()
}

// The exit status that tells how the program ended.
fn tell(outcome: Outcome) -> ExitCode
    ensures { exit_status result ≡ status_of outcome }
{
    let status: u8 = match outcome {
        Outcome::Done => 0,
        Outcome::Failed => 1,
        Outcome::Refused => 2,
        Outcome::Unknown => 64,
    };
    ExitCode::from(status)
}

// Writes on standard error. Where that fails nobody is left to be told of it: the exit status is what it was.
fn put<E: Write>(err: &mut E, bytes: &[u8]) {
    let _ = err.write_all(bytes);
}

// The words of a failure without the number of the system's error, which std puts behind them in brackets.
fn plain(words: &str) -> &str {
    match words.rsplit_once(" (os error ") {
        Some((before, _)) => before,
        None => words,
    }
}

// Says on standard error what failed and why.
fn fail<E: Write>(err: &mut E, failure: Failure) -> Outcome
    ensures { result ≡ Outcome.Failed }
{
    let (what, why) = match failure {
        Failure::Read(why) => ("thrumcomb: read", why),
        Failure::Write(why) => ("thrumcomb: write", why),
        Failure::Open(why) => ("thrumcomb: open", why),
    };
    let mut words = Cursor::new([0u8; 300]);
    let _ = write!(words, "{why}");
    let n = words.position() as usize;
    let room = words.into_inner();
    let said = room.get(..n).unwrap_or(b"");
    put(err, what.as_bytes());
    put(err, b": ");
    put(err, plain(str::from_utf8(said).unwrap_or("")).as_bytes());
    put(err, b"\n");
    Outcome::Failed
}

// Says a sentence on standard error.
fn say<E: Write>(err: &mut E, words: &[u8]) {
    put(err, b"thrumcomb: ");
    put(err, words);
    put(err, b"\n");
}

// Says a refusal in words.
fn say_refusal<E: Write>(err: &mut E, fault: Fault) {
    let mut words = [0u8; 100];
    let n = reasons::put_reason(&mut words, fault);
    say(err, &words[..n]);
}

fn say_usage<W: Write>(to: &mut W) -> io::Result<()> {
    write_out(
        to,
        b"usage: thrumcomb [-q] [counts | slot N | write | slots | log FILE] < CASE
       thrumcomb help | -h | --help | --version

without a word  the replay: run, a job line for each release, total
counts          the contention-free count of each task
slot N          the tasks that run in slot N
write           the case in its canonical text
slots           the slot log of the replay: slot, time and the tasks that run, a line a slot
log FILE        whether the slot log in FILE keeps the rules of the case: accepted, or refused
-q              leaves out the words on standard error for a refused case or log

A case that breaks a rule, or has a task that is never released, prints refused, number, place.
Lines of a case and of a slot log end with a newline. One carriage return right before it is left
out; anywhere else a return is badly formed. What is written has bare newlines.
A slot log may break equal deadlines either way. In it a number of ten digits or with a leading
zero is 17, a number that is no task of the table 18.
The exit status is 0; 2 for a refused case or log; 64 for words that ask for nothing that there
is; 1 where the case or FILE could not be read, the answer not be written, or the program not be
built.
",
    )
}

// Says which word is not known: its first bytes where it is long.
fn say_word<R: Env, E: Write>(rt: &R, err: &mut E, i: usize) {
    let mut room = [0u8; 64];
    let got = rt.arg(i, &mut room);
    put(err, b"thrumcomb: unknown word: ");
    match got {
        Ok(n) => put(err, &room[..n]),
        Err(_) => {
            // what did not fit has filled the room
            put(err, &room);
            put(err, b"..");
        }
    }
    put(err, b"\n");
}

// Whether word i is one of the command line's, wherever it stands.
fn knows<R: Env>(rt: &R, i: usize) -> bool {
    let mut room = [0u8; 16];
    let n = word(rt, i, &mut room);
    wishes::is_known(&room[..n])
}

// The first of so many words that is none of the command line's, or their number where each is one.
fn odd_word<R: Env>(rt: &R, words: usize) -> usize {
    for i in 1..words {
        if !knows(rt, i) {
            return i;
        }
    }
    words
}

// Says why the words ask for nothing, and what may be asked.
fn say_unknown<R: Env, E: Write>(rt: &R, err: &mut E) -> Outcome
    ensures { result ≡ Outcome.Unknown }
{
    let words = word_count(rt);
    let i = odd_word(rt, words);
    if i < words {
        say_word(rt, err, i);
    } else {
        say(err, b"these words do not go together");
    }
    let _ = say_usage(err);
    Outcome::Unknown
}

fn print_help<O: Write>(out: &mut O) -> Result<Outcome, Failure> {
    say_usage(out).map_err(Failure::Write)?;
    Ok(Outcome::Done)
}

// The bytes that everything printed fits into.
fn blank() -> [u8; 132800]
    ensures { print_room ≡ length result }
{
    [0; 132800]
}

// How a case was answered whose answer is written: a refusal is said in words too.
fn finish<E: Write>(err: &mut E, found: Result<(), Fault>, quiet: bool) -> Outcome
    ensures { (f : Fault) → found ≡ checked f → result ≡ answered f.number }
{
    let Err(fault) = found else {
        return Outcome::Done;
    };
    if !quiet {
        say_refusal(err, fault);
    }
    Outcome::Refused
}

// Reads the case, of which one byte more than a text may have is enough to refuse it, and writes the answer. Where a read failed nothing is
// written: what came may be a shorter case than what was there.
fn run<I: Read, O: Write, E: Write>(
    from: &mut I,
    to: &mut Streams<O, E>,
    wish: Wish,
    quiet: bool,
) -> Result<Outcome, Failure>
    ensures { IfOk result (λ outcome. IfSome (I.remaining from.old)
        (λ xs. (outcome ≡ answered (wish_fault wish (take 60001 xs)).number)
        × Appends (O.contents to.old.out) (O.contents to.new.out) (text_says wish (take 60001 xs)))) }
{
    let mut text = [0u8; MAX_TEXT + 1];
    let mut out = blank();
    let n = read_text(from, &mut text).map_err(Failure::Read)?;
    let found = answers::fault_of(wish, &text[..n]);
    let length = answers::answer(wish, &text[..n], &mut out);
    write_out(&mut to.out, &out[..length]).map_err(Failure::Write)?;
    Ok(finish(&mut to.err, found, quiet))
}

// ---- a refusal that is the whole answer

fn print_refusal<O: Write>(out: &mut O, fault: Fault) -> io::Result<()>
    ensures { OnOk result (Appends (O.contents out.old) (O.contents out.new) (refused_line fault.number fault.place)) }
{
    let mut line = [0u8; LINE_ROOM];
    let n = prints::put_refused(&mut line, fault);
    write_out(out, &line[..n])
}

fn refuse_case<O: Write, E: Write>(
    to: &mut Streams<O, E>,
    fault: Fault,
    quiet: bool,
) -> Result<Outcome, Failure>
    ensures { IfOk result (λ outcome. (outcome ≡ Outcome.Refused)
        × Appends (O.contents to.old.out) (O.contents to.new.out) (refused_line fault.number fault.place)) }
{
    print_refusal(&mut to.out, fault).map_err(Failure::Write)?;
    if !quiet {
        say_refusal(&mut to.err, fault);
    }
    Ok(Outcome::Refused)
}

// ---- the check of a slot log

// How many bytes of a log are read or written at once, where each call of the system costs time of its own.
const PIECE: usize = 65536;

// Follows the bytes of a file until they end or something is at fault: what comes behind a fault does not matter, and is not waited for.
// Where a read fails there is no check, since it would stand for a part of the file alone.
fn follow_file<F: Read>(
    file: &mut F,
    accepted: &AcceptedCase,
    counts: &[u32; MAX_TASKS],
) -> io::Result<Log>
    requires { Counts accepted.now.procs accepted.now.table counts.now }
    ensures { IfOk result (λ log. Followed accepted.now log) }
{
    let mut piece = [0u8; PIECE];
    let mut log = follow::open_log();
    // a proved loop has to end, and nothing says that a file does: so its turns are counted, up to a number that no run uses up
    for _ in 0..u64::MAX {
        let n = file.read(&mut piece)?;
        if n == 0 {
            return Ok(log);
        }
        log = follow::feed(log, accepted, counts, &piece[..n]);
        if log.number != 0 {
            return Ok(log);
        }
    }
    Err(io::Error::other("the file does not end"))
}

// Says what is wrong in a slot that breaks the rule, by the check as it stopped there. The end of its line is heard once more, for
// whether all that it names are tasks: to name its last task again changes nothing.
fn say_blame<E: Write>(err: &mut E, log: Log, procs: u32, policy: u32) {
    let mut words = [0u8; BLAME_ROOM];
    let mut named = log.named;
    let ended = heard::line_end(log.scan, &mut named);
    let names = follow::names_tasks(ended);
    let n = blame::put_blame(&mut words, log.run, procs, policy, log.lines, names, &named);
    say(err, &words[..n]);
}

// Refuses a log: the refusal is said in words too, and where a slot breaks the rule, what is wrong in it.
fn refuse_log<O: Write, E: Write>(
    to: &mut Streams<O, E>,
    log: Log,
    accepted: &AcceptedCase,
    fault: Fault,
    quiet: bool,
) -> Result<Outcome, Failure>
    ensures { IfOk result (λ outcome. (outcome ≡ Outcome.Refused)
        × Appends (O.contents to.old.out) (O.contents to.new.out) (refused_line fault.number fault.place)) }
{
    let outcome = refuse_case(to, fault, quiet)?;
    if !quiet && fault.number == 18 {
        say_blame(&mut to.err, log, accepted.case.procs, accepted.case.policy);
    }
    Ok(outcome)
}

fn accept_log<O: Write>(out: &mut O) -> Result<Outcome, Failure> {
    write_out(out, b"accepted\n").map_err(Failure::Write)?;
    Ok(Outcome::Done)
}

// Checks the log in a file against a case. Where a read failed nothing is written: what came may be a shorter log than what was there.
fn judge_file<F: Read, O: Write, E: Write>(
    file: &mut F,
    to: &mut Streams<O, E>,
    accepted: &AcceptedCase,
    quiet: bool,
) -> Result<Outcome, Failure> {
    let case = &accepted.case;
    let free = counts::free_counts(case.procs, case.table);
    let log = follow_file(file, accepted, &free).map_err(Failure::Read)?;
    match follow::close_log(log, case.end) {
        Err(fault) => refuse_log(to, log, accepted, fault, quiet),
        Ok(()) => accept_log(&mut to.out),
    }
}

// ---- our own slot log

// Writes the slot log of a case, a piece at a time.
fn write_slots<O: Write>(out: &mut O, accepted: &AcceptedCase) -> io::Result<()>
    ensures { OnOk result (Appends (O.contents out.old) (O.contents out.new) (own_log accepted.now)) }
{
    let mut piece = [0u8; PIECE];
    let case = &accepted.case;
    let free = counts::free_counts(case.procs, case.table);
    let mut play = ownlog::start();
    while play.clock < case.end {
        let n = ownlog::put_slots(&mut play, accepted, &free, &mut piece);
        out.write_all(&piece[..n])?;
    }
    out.flush()
}

// Prints the slot log of a case.
fn print_slots<O: Write>(out: &mut O, accepted: &AcceptedCase) -> Result<Outcome, Failure>
    ensures { IfOk result (λ outcome. (outcome ≡ Outcome.Done)
        × Appends (O.contents out.old) (O.contents out.new) (own_log accepted.now)) }
{
    write_slots(out, accepted).map_err(Failure::Write)?;
    Ok(Outcome::Done)
}

// ---- what is asked of a log

// Checks the log in the file, or prints our own where no file is named.
fn serve_case<F: Read, O: Write, E: Write>(
    file: Option<&mut F>,
    to: &mut Streams<O, E>,
    accepted: &AcceptedCase,
    quiet: bool,
) -> Result<Outcome, Failure> {
    match file {
        None => print_slots(&mut to.out, accepted),
        Some(file) => judge_file(file, to, accepted, quiet),
    }
}

// Takes the case of a text: the log in the file is checked against it, or its own is printed. A refused case is parted from an accepted
// one before any line is written.
fn serve_text<F: Read, O: Write, E: Write>(
    file: Option<&mut F>,
    to: &mut Streams<O, E>,
    text: &[u8],
    quiet: bool,
) -> Result<Outcome, Failure> {
    let mut rows = [0u32; TASKS_ROOM];
    let mut times = [0u32; RELEASES_ROOM];
    match answers::accepted_case(text, &mut rows, &mut times) {
        Err(fault) => refuse_case(to, fault, quiet),
        Ok(accepted) => serve_case(file, to, &accepted, quiet),
    }
}

// Linux's number for a name that is too long.
const ENAMETOOLONG: i32 = 36;

// Linux's number for bytes that are no text.
const EILSEQ: i32 = 84;

// Opens the file that a word of the program names. A word that is too long for a path is not cut short.
fn open_named<R: Env + Files>(rt: &R, word: usize) -> io::Result<R::File> {
    let mut path = [0u8; 4096];
    let Ok(n) = rt.arg(word, &mut path) else {
        return Err(io::Error::from_raw_os_error(ENAMETOOLONG));
    };
    match str::from_utf8(&path[..n]) {
        Ok(path) => fs::open(rt, path),
        Err(_) => Err(io::Error::from_raw_os_error(EILSEQ)),
    }
}

// Reads the case and prints its own log.
fn run_slots<I: Read, O: Write, E: Write>(
    from: &mut I,
    to: &mut Streams<O, E>,
    quiet: bool,
) -> Result<Outcome, Failure> {
    let mut text = [0u8; MAX_TEXT + 1];
    let n = read_text(from, &mut text).map_err(Failure::Read)?;
    let no_file: Option<&mut File> = None;
    serve_text(no_file, to, &text[..n], quiet)
}

// Reads the case and checks the log in the file that a word names. Where the file cannot be opened nothing is written, be the case what
// it may.
fn run_log<R: Env + Files, I: Read, O: Write, E: Write>(
    rt: &R,
    from: &mut I,
    to: &mut Streams<O, E>,
    word: usize,
    quiet: bool,
) -> Result<Outcome, Failure> {
    let mut text = [0u8; MAX_TEXT + 1];
    let n = read_text(from, &mut text).map_err(Failure::Read)?;
    let mut file = open_named(rt, word).map_err(Failure::Open)?;
    serve_text(Some(&mut file), to, &text[..n], quiet)
}

// How the program ended: a failure is said on standard error, and is told as one.
fn ended<E: Write>(err: &mut E, answered: Result<Outcome, Failure>) -> Outcome
    ensures done { IfOk answered (λ outcome. result ≡ outcome) }
    ensures failed { (why : Failure) → answered ≡ Err why → result ≡ Outcome.Failed }
{
    match answered {
        Ok(outcome) => outcome,
        Err(failure) => fail(err, failure),
    }
}

fn main(rt: HostRuntime) -> ExitCode {
    let Asked { wish, quiet } = wished(&rt);
    let mut from = rt.stdin();
    let mut to = Streams {
        out: rt.stdout(),
        err: rt.stderr(),
    };
    let answered = match wish {
        Wish::Unknown => Ok(say_unknown(&rt, &mut to.err)),
        Wish::Help => print_help(&mut to.out),
        Wish::Slots => run_slots(&mut from, &mut to, quiet),
        Wish::Log { word } => run_log(&rt, &mut from, &mut to, word as usize, quiet),
        _ => run(&mut from, &mut to, wish, quiet),
    };
    tell(ended(&mut to.err, answered))
}
