// What the words of the command line ask, and what is at fault in that.
#![tactic(auto)]

ghost use Rattle.std.specs.Prelude.{◌≡◌, true};
ghost use Rattle.rules.specs.Words.{pick};
ghost use Rattle.rules.specs.Text.{number_in};
ghost use Rattle.wishes.specs.Asks.{asked_of, word_asks, slot_asks, log_asks, is_quiet, one_asks, two_ask, three_ask, words_ask, is_known};
ghost use Rattle.wishes.specs.Asks.{asked_fault, is_number, is_asked};
ghost use Rattle.rules.specs.Refusals.{checked};

use rules::Fault;

// What the words after the program's name ask for. `word` is the index of the log's name among the program's words: it may be any word
// at all, and a longer one than is handed here.
#[derive(Clone, Copy)]
pub enum Wish {
    Unknown,
    Help,
    Replay,
    Counts,
    Slot { slot: u32 },
    Write,
    Slots,
    Log { word: u32 },
}

// What is asked, and whether the words of a refusal are left out.
#[derive(Clone, Copy)]
pub struct Asked {
    pub wish: Wish,
    pub quiet: bool,
}

fn asking(wish: Wish, quiet: bool) -> Asked
    ensures { result ≡ asked_of wish quiet }
{
    Asked { wish, quiet }
}

// The wish of the word that stands alone after the program's name.
#[tactic(auto, unfolding(crate::specs::Asks::word_asks, reasons::specs::Reasons::words, reasons::specs::Reasons::sign_bytes))]
fn alone(word: &[u8]) -> Wish
    ensures { result ≡ word_asks word.now }
{
    if words::same_bytes(word, b"counts") {
        return Wish::Counts;
    }
    if words::same_bytes(word, b"write") {
        return Wish::Write;
    }
    if words::same_bytes(word, b"slots") {
        return Wish::Slots;
    }
    if words::same_bytes(word, b"help") {
        return Wish::Help;
    }
    if words::same_bytes(word, b"-h") {
        return Wish::Help;
    }
    if words::same_bytes(word, b"--help") {
        return Wish::Help;
    }
    Wish::Unknown
}

// The wish of two words: `slot` and its number.
#[tactic(auto, unfolding(crate::specs::Asks::slot_named, reasons::specs::Reasons::words, reasons::specs::Reasons::sign_bytes))]
fn named_slot(word: &[u8], number: &[u8]) -> Wish
    ensures { result ≡ slot_asks word.now number.now }
{
    match scan::number(number) {
        Some(slot) if words::same_bytes(word, b"slot") => Wish::Slot { slot },
        _ => Wish::Unknown,
    }
}

// The wish of two words of which the second is the program's word `at`: `log` and its file, or `slot` and its number.
#[tactic(auto, unfolding(crate::specs::Asks::log_asks, reasons::specs::Reasons::words, reasons::specs::Reasons::sign_bytes))]
fn named(word: &[u8], name: &[u8], at: u32) -> Wish
    ensures { result ≡ log_asks word.now name.now at }
{
    if words::same_bytes(word, b"log") {
        return Wish::Log { word: at };
    }
    named_slot(word, name)
}

// Whether a word is `-q`.
#[tactic(auto, unfolding(reasons::specs::Reasons::words, reasons::specs::Reasons::sign_bytes))]
fn is_quiet(word: &[u8]) -> bool
    ensures { result ≡ is_quiet word.now }
{
    words::same_bytes(word, b"-q")
}

// What one word asks.
#[tactic(auto, unfolding(crate::specs::Asks::one_asks, reasons::specs::Reasons::words, reasons::specs::Reasons::sign_bytes))]
fn one_asks(first: &[u8]) -> Asked
    ensures { result ≡ one_asks first.now }
{
    if is_quiet(first) {
        return asking(Wish::Replay, true);
    }
    asking(alone(first), false)
}

// What two words ask.
#[tactic(auto, unfolding(crate::specs::Asks::two_ask, reasons::specs::Reasons::words, reasons::specs::Reasons::sign_bytes))]
fn two_ask(first: &[u8], second: &[u8]) -> Asked
    ensures { result ≡ two_ask first.now second.now }
{
    if is_quiet(first) {
        return asking(alone(second), true);
    }
    if is_quiet(second) {
        return asking(alone(first), true);
    }
    asking(named(first, second, 2), false)
}

// What three words ask.
#[tactic(auto, unfolding(crate::specs::Asks::three_ask, reasons::specs::Reasons::words, reasons::specs::Reasons::sign_bytes))]
fn three_ask(first: &[u8], second: &[u8], third: &[u8]) -> Asked
    ensures { result ≡ three_ask first.now second.now third.now }
{
    if is_quiet(first) {
        return asking(named(second, third, 3), true);
    }
    if is_quiet(third) {
        return asking(named(first, second, 2), true);
    }
    asking(Wish::Unknown, false)
}

// What so many words ask, the program's name being one of them.
#[tactic(auto, unfolding(crate::specs::Asks::words_ask))]
pub fn words_ask(words: usize, first: &[u8], second: &[u8], third: &[u8]) -> Asked
    ensures { result ≡ words_ask words first.now second.now third.now }
{
    match words {
        1 => asking(Wish::Replay, false),
        2 => one_asks(first),
        3 => two_ask(first, second),
        4 => three_ask(first, second, third),
        _ => asking(Wish::Unknown, false),
    }
}

// Whether a word is a number, as behind `slot`, or asks for something alone.
#[tactic(auto, unfolding(crate::specs::Asks::is_number, crate::specs::Asks::is_asked))]
fn asks(word: &[u8]) -> bool
    ensures { result ≡ pick (is_number (number_in word.now)) true (is_asked (word_asks word.now)) }
{
    scan::number(word).is_some() || !matches!(alone(word), Wish::Unknown)
}

// Whether a word is one of the command line's, wherever it stands.
#[tactic(auto, unfolding(crate::specs::Asks::is_known, reasons::specs::Reasons::words, reasons::specs::Reasons::sign_bytes))]
pub fn is_known(word: &[u8]) -> bool
    ensures { result ≡ is_known word.now }
{
    is_quiet(word)
        || words::same_bytes(word, b"slot")
        || words::same_bytes(word, b"log")
        || asks(word)
}

// What is at fault in what a wish asks of an accepted case that ends there.
#[tactic(auto, unfolding(crate::specs::Asks::asked_fault))]
pub fn asked_fault(wish: Wish, end: u32) -> Result<(), Fault>
    ensures { result ≡ checked (asked_fault wish end) }
{
    match wish {
        Wish::Slot { slot } => faults::slot_fault(end, slot),
        _ => Ok(()),
    }
}
