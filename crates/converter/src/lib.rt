// The converter: an old text, in which no policy line meant EDF, as a text that says so; or a refusal that leaves every byte as it was.
#![tactic(auto)]

ghost use Rattle.std.specs.Prelude.{◌≡◌, [], ◌∷◌, ◌++◌, ◌+◌, ◌≤◌, eqb, leb, length, take, drop};
ghost use Rattle.rules.specs.Words.{pick};
ghost use Rattle.rules.specs.Limits.{max_text};
ghost use Rattle.rules.specs.Refusals.{checked, unless, first, room_fault};
ghost use Rattle.rules.specs.Policies.{edf};
ghost use Rattle.rules.specs.Text.{line_of, field_of};
ghost use Rattle.rules.specs.Reader.{word_kind, text_fault};
ghost use Rattle.rules.specs.Writer.{policy_text};
ghost use Rattle.rules.specs.Calls.{ConvertPromise};
ghost use Rattle.puts.specs.Laid.{Laid};

use lines::{TABLE_ROOM, TRACE_ROOM};
use puts::put_bytes;
use rules::{Fault, POLICY};

// What is at fault with a text, as the reader finds it.
fn text_fault(text: &[u8]) -> Result<(), Fault>
    ensures { result ≡ checked (text_fault text.now) }
{
    let mut table = [0; TABLE_ROOM];
    let mut trace = [0; TRACE_ROOM];
    reader::read_case(text, &mut table, &mut trace)?;
    Ok(())
}

// Whether a policy line stands at `at`.
fn policy_at(text: &[u8], at: usize) -> bool
    requires { at ≤ length text.now }
    ensures { result ≡ eqb (word_kind (field_of (line_of (drop at text.now)))) 2 }
{
    let end = scan::line_end(text, at);
    let word = scan::field(scan::line(text, at, end));
    kinds::word_kind(word) == POLICY
}

// How many bytes the line that is put in takes up, where one is: `policy`, a tab, `edf`, a newline.
fn added(given: bool) -> usize
    ensures { result ≡ pick given 0 (length (policy_text edf)) }
{
    if given { 0 } else { 11 }
}

// What is at fault with the size of a text to which so many bytes are added: 1 before 13.
#[tactic(auto, using(legal::specs::Firsts::rows))]
fn size_fault(length: usize, more: usize, room: usize) -> Result<(), Fault>
    requires length_le_max_text { length ≤ max_text }
    requires more_le_max_text { more ≤ max_text }
    ensures { result ≡ checked (first (unless (leb (length + more) max_text) 1 0 ∷ room_fault (length + more) room ∷ [])) }
{
    let need = length + more;
    reader::length_fault(need)?;
    faults::room_fault(need, room)
}

// Writes a text with the line put in behind its first `at` bytes. The newline is bare, whatever those of the text are.
fn put_between(out: &mut [u8], text: &[u8], at: usize) -> usize
    requires at_in_bounds { at ≤ length text.now }
    requires edf_in_bounds { length text.now + length (policy_text edf) ≤ length out.old }
    ensures { Laid 0 (take at text.now ++ (policy_text edf ++ drop at text.now)) out.old
        out.new result }
{
    let second = put_bytes(out, 0, &text[0..at]);
    let third = put_bytes(out, second, b"policy\tedf\n");
    put_bytes(out, third, &text[at..])
}

// Writes the converted text: as it is where its policy line is given, else with the line put in behind its first `at` bytes.
fn put_converted(out: &mut [u8], text: &[u8], at: usize, given: bool) -> usize
    requires at_in_bounds { at ≤ length text.now }
    requires edf_in_bounds { length text.now + pick given 0 (length (policy_text edf)) ≤ length out.old }
    ensures { Laid 0 (pick given text.now (take at text.now ++ (policy_text edf ++ drop at
        text.now))) out.old out.new result }
{
    if given {
        put_bytes(out, 0, text)
    } else {
        put_between(out, text, at)
    }
}

// Writes the converted text to the start of `out`, if the reader accepts the text and the converted one is neither too long nor without
// room.
pub fn convert(text: &[u8], out: &mut [u8]) -> Result<usize, Fault>
    ensures { ConvertPromise text.now out.old result out.new }
{
    text_fault(text)?;
    let at = scan::line_end(text, 0) + 1;
    let given = policy_at(text, at);
    size_fault(text.len(), added(given), out.len())?;
    Ok(put_converted(out, text, at, given))
}
