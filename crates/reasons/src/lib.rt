// The words of a refusal, for a person to read: what is wrong and where.
#![tactic(auto)]

ghost use Rattle.std.specs.Prelude.{◌++◌, ◌+◌, ◌≤◌, length};
ghost use Rattle.rules.specs.Text.{digits_of};
ghost use Rattle.puts.specs.Laid.{Laid};
ghost use Rattle.reasons.specs.Reasons.{plain_reason, reason_of, reason_room, Said, NotEarly};

use puts::{put_bytes, put_number};
use rules::Fault;

// Writes words with a place between them at the start.
fn put_placed(out: &mut [u8], before: &[u8], place: u32, after: &[u8]) -> usize
    requires { length before.now + 10 + length after.now ≤ length out.old }
    ensures { Laid 0 (before.now ++ (digits_of place ++ after.now)) out.old out.new result }
{
    let place_at = put_bytes(out, 0, before);
    let after_at = put_number(out, place_at, place);
    put_bytes(out, after_at, after)
}

// Writes a number that has no words of its own, and its place.
fn put_plain(out: &mut [u8], number: u32, place: u32) -> usize
    requires { reason_room ≤ length out.old }
    ensures { Laid 0 (plain_reason number place) out.old out.new result }
{
    let at = put_placed(out, b"refusal ", number, b" at ");
    put_number(out, at, place)
}

// Writes the words of a refusal with none of the numbers that a case's text and numbers have, 1 to 12.
fn put_late_reason(out: &mut [u8], number: u32, place: u32) -> usize
    requires reason_room_in_bounds { reason_room ≤ length out.old }
    requires not_early { NotEarly number }
    ensures { Said (reason_of number place) out.old out.new result }
{
    match number {
        13 => put_bytes(out, 0, b"room: too short"),
        14 => put_bytes(out, 0, b"policy: not 0 or 1"),
        15 => put_bytes(out, 0, b"slot: not before the end"),
        16 => put_placed(
            out,
            b"task ",
            place,
            b": is never released, so no verdict covers it",
        ),
        17 => put_placed(
            out,
            b"log line ",
            place,
            b": badly formed, tasks that do not rise, or a wrong time",
        ),
        18 => put_placed(out, b"log line ", place, b": its slot breaks the rule"),
        19 => put_bytes(out, 0, b"log: its number of lines is not the end"),
        _ => put_plain(out, number, place),
    }
}

// Writes the words of a refusal, chosen by its number, at the start of the lent bytes and returns their length.
pub fn put_reason(out: &mut [u8], fault: Fault) -> usize
    requires { reason_room ≤ length out.old }
    ensures { Said (reason_of fault.number fault.place) out.old out.new result }
{
    let Fault { number, place } = fault;
    match number {
        1 => put_bytes(out, 0, b"text: over 60,000 bytes"),
        2 => put_placed(out, b"line ", place, b": badly formed"),
        3 => put_placed(out, b"line ", place, b": out of order or missing"),
        4 => put_bytes(out, 0, b"processors: not 1 to 32"),
        5 => put_bytes(out, 0, b"tasks: not 1 to 32, or not three numbers each"),
        6 => put_placed(
            out,
            b"task ",
            place,
            b": needs 1 \xe2\x89\xa4 C \xe2\x89\xa4 D \xe2\x89\xa4 T \xe2\x89\xa4 10,000",
        ),
        7 => put_bytes(out, 0, b"end: over 100,000"),
        8 => put_placed(out, b"release ", place, b": names no task of the table"),
        9 => put_placed(
            out,
            b"release ",
            place,
            b": not later by (time, task) than the one before",
        ),
        10 => put_placed(
            out,
            b"release ",
            place,
            b": comes less than T after the last release of its task",
        ),
        11 => put_placed(out, b"release ", place, b": its time is not before the end"),
        12 => put_bytes(out, 0, b"releases: over 2,000, or not two numbers each"),
        _ => put_late_reason(out, number, place),
    }
}
