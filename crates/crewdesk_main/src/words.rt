//! The words that the program is given.
ghost use Rattle.std.specs.Prelude.{◌≡◌, drop, string_bytes, IfOk};
ghost use Rattle.std.specs.Vec.Iter.{into_iter_items};
ghost use Rattle.crewdesk_main.specs.Words.{are_names, behind_guard, has_dash, is_alone, is_before, number_in};

use desk_base::NoMemory;
use itoa::Buffer;
use kept_desk::Guard;
use std::alloc::Global;
use std::env::Args;

/// Copies the words behind the program's name, which is the first.
pub fn behind_the_name(alloc: Global, given: Args) -> Result<Vec<String>, NoMemory>
    ensures { IfOk result (λ words. words.items ≡ drop 1 (into_iter_items given)) }
{
    let mut given = given;
    let _name = given.next();
    let mut words = Vec::with_capacity(alloc, given.len())?;
    while let Some(word) = given.next() {
        words.push_reserved(word);
    }
    Ok(words)
}

/// The words behind the first, which says what they are.
pub fn behind_the_first(words: &[String]) -> &[String]
    ensures { result.now ≡ drop 1 words.now }
{
    match words {
        [_, others @ ..] => others,
        [] => words,
    }
}

/// The words behind those of a guard, if there is one.
pub fn behind_the_guard(guard: Option<Guard>, words: &[String]) -> &[String]
    ensures { result.now ≡ behind_guard guard words.now }
{
    match guard {
        Some(_) => words.get(4..).unwrap_or(&[]),
        None => words,
    }
}

/// Whether the words are just this one.
pub fn is_alone(words: &[String], form: &str) -> bool
    ensures { result ≡ is_alone form.now words.now }
{
    match words {
        [word] => word.as_str() == form,
        _ => false,
    }
}

/// The number that a word spells in decimal, without a sign or a leading zero, 0 to 2^64 - 1; `None` for any other word.
pub fn read_number(word: &str) -> Option<u64>
    ensures { result ≡ number_in word.now }
{
    let number = word.parse::<u64>().ok()?;
    if Buffer::new().format(number) == word {
        Some(number)
    } else {
        None
    }
}

/// Whether the words may name callers: none begins with a dash or has a slash, and no two are the same.
pub fn are_names(words: &[String]) -> bool
    ensures { result ≡ are_names words.now }
{
    for at in 0..words.len() {
        if !is_before(&words[at], &words[at + 1..]) {
            return false;
        }
    }
    true
}

// Whether a word may name a caller before these.
fn is_before(word: &String, others: &[String]) -> bool
    ensures { result ≡ is_before (string_bytes word.now) others.now }
{
    let bytes = word.as_bytes();
    !has_dash(bytes) && !bytes.contains(&b'/') && !others.contains(word)
}

/// Whether a text begins with a dash.
pub fn has_dash(text: &[u8]) -> bool
    ensures { result ≡ has_dash text.now }
{
    match text {
        [first, ..] => *first == b'-',
        [] => false,
    }
}
