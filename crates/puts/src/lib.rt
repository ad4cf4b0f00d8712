// Bytes, decimal numbers, words and lines, written into lent bytes from an index on. Each writer returns the index behind what it wrote.
#![tactic(auto)]

ghost use Rattle.std.specs.Prelude.{◌≡◌, ◌+◌, ◌*◌, ◌<◌, ◌≤◌, length};
ghost use Rattle.rules.specs.Limits.{max_releases, release_width};
ghost use Rattle.rules.specs.Text.{digits_of};
ghost use Rattle.puts.specs.Laid.{Laid};
ghost use Rattle.puts.specs.Fields.{number_fields, number_line, word_of};

use rules::{END, POLICY, PROCS, RELEASE, TASK};

// The numbers of the words of what is printed, behind those of the case text (rules, `PROCS` to `RELEASE`); `SLOT` is a slot log's.
pub const JOB: u32 = 6;

pub const TOTAL: u32 = 7;

pub const REFUSED: u32 = 8;

pub const COUNT: u32 = 9;

pub const RUNNING: u32 = 10;

pub const SLOT: u32 = 11;

pub const RUN: u32 = 12;

// The bytes that part the fields of the case text and of what is printed.
pub const TAB: u8 = b'\t';

pub const SPACE: u8 = b' ';

// The byte of a digit.
fn digit(v: u32) -> u8
    requires { v < 10 }
    ensures { result ≡ 48 + v }
{
    b'0' + v as u8
}

// How many digits v has.
#[tactic(auto, using(crate::proofs::Digits::digits_length))]
pub fn width(v: u32) -> usize
    ensures { result ≡ length (digits_of v) }
{
    v.max(1).ilog10() as usize + 1
}

// Writes the decimal digits of v, the last one first.
pub fn put_number(out: &mut [u8], at: usize, v: u32) -> usize
    requires { at + length (digits_of v) ≤ length out.old }
    ensures { Laid at (digits_of v) out.old out.new result }
{
    let end = at + width(v);
    let mut w = v;
    for i in (at..end).rev() {
        out[i] = digit(w % 10);
        w /= 10;
    }
    end
}

// Writes the bytes of s, one by one: `copy_from_slice` would have the archive call `memmove`, and it calls `memcpy` and `memset` alone.
pub fn put_bytes(out: &mut [u8], at: usize, s: &[u8]) -> usize
    requires { at + length s.now ≤ length out.old }
    ensures { Laid at s.now out.old out.new result }
{
    for (i, b) in s.iter().enumerate() {
        out[at + i] = *b;
    }
    at + s.len()
}

// Writes each number with the byte `between` in front.
pub fn put_numbers(out: &mut [u8], at: usize, between: u8, vs: &[u32]) -> usize
    requires { at + length (number_fields between vs.now) ≤ length out.old }
    ensures { Laid at (number_fields between vs.now) out.old out.new result }
{
    let mut end = at;
    for v in vs {
        out[end] = between;
        end = put_number(out, end + 1, *v);
    }
    end
}

// How many bytes the numbers take as fields, each with its parting byte.
pub fn numbers_width(vs: &[u32]) -> usize
    requires { length vs.now ≤ max_releases * release_width }
    ensures { result ≡ length (number_fields 9 vs.now) }
{
    let mut sum: usize = 0;
    for v in vs {
        sum += 1 + width(*v);
    }
    sum
}

// Writes the word of a line, chosen by its number, at the start.
#[tactic(auto, unfolding(crate::specs::Fields::word_of))]
pub fn put_word(out: &mut [u8], word: u32) -> usize
    requires { length (word_of word) ≤ length out.old }
    ensures { Laid 0 (word_of word) out.old out.new result }
{
    match word {
        PROCS => put_bytes(out, 0, b"procs"),
        POLICY => put_bytes(out, 0, b"policy"),
        TASK => put_bytes(out, 0, b"task"),
        END => put_bytes(out, 0, b"end"),
        RELEASE => put_bytes(out, 0, b"release"),
        JOB => put_bytes(out, 0, b"job"),
        TOTAL => put_bytes(out, 0, b"total"),
        REFUSED => put_bytes(out, 0, b"refused"),
        COUNT => put_bytes(out, 0, b"count"),
        RUNNING => put_bytes(out, 0, b"running"),
        SLOT => put_bytes(out, 0, b"slot"),
        _ => put_bytes(out, 0, b"run"),
    }
}

// Writes a line of a word and numbers at the start.
pub fn put_line(out: &mut [u8], between: u8, word: u32, vs: &[u32]) -> usize
    requires { length (number_line between word vs.now) ≤ length out.old }
    ensures { Laid 0 (number_line between word vs.now) out.old out.new result }
{
    let at = put_word(out, word);
    let end = put_numbers(out, at, between, vs);
    out[end] = b'\n';
    end + 1
}
