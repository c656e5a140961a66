//! What the values of a command's arguments are.
ghost use Rattle.std.specs.Prelude.{◌≡◌, ◌≤◌, All, IfOk, IfSome, map, option_map, Some};
ghost use Rattle.std.specs.Option.{ForSome};
ghost use Rattle.clap.specs.Words.{IsUnsignedIn, first_of, found_of, one_of, rows_of};
ghost use Rattle.tsn_words.specs.Grammar.{IsFlag, IsGiven, IsNumberIf, IsNumberOr, number_of};

use crate::words::{MAX_OFFSET, WordsFault};
use clap::ArgMatches;
use std::alloc::{AllocError, Global};

// Refuses a word that is none of those that an option takes.
pub(crate) fn unknown_word(
    alloc: Global,
    option: &str,
    word: Option<&str>,
    taken: &str,
) -> WordsFault {
    let word = word.unwrap_or("");
    let text = format!(in alloc;
        "error: invalid value '{word}' for '{option}'\n  [possible values: {taken}]\n\nFor more information, try '--help'.\n"
    );
    match text {
        Ok(text) => WordsFault::Refused(text),
        Err(_) => WordsFault::Memory,
    }
}

// The word of an argument, if it is given.
pub(crate) fn word_of<'a>(words: &ArgMatches<'a>, id: &str) -> Option<&'a str>
    ensures { first_of id.now (rows_of (found_of words.now)) ≡ option_map (λ word. word.now) result }
{
    words.get_str(id)
}

pub(crate) fn text_of<'a>(words: &ArgMatches<'a>, id: &str) -> &'a str
    requires { IsGiven id.now (rows_of (found_of words.now)) }
    ensures { first_of id.now (rows_of (found_of words.now)) ≡ Some result.now }
{
    match word_of(words, id) {
        Some(text) => text,
        None => unreachable!(),
    }
}

pub(crate) fn flag_of(words: &ArgMatches<'_>, id: &str) -> bool
    ensures { IsFlag (one_of id.now (rows_of (found_of words.now))) result }
{
    words.get_flag(id)
}

// The number of an option, from 1 to `most`; the default where it isn't given.
pub(crate) fn number_or(words: &ArgMatches<'_>, id: &str, most: usize, default: usize) -> usize
    requires some { 1 ≤ default }
    requires within { default ≤ most }
    requires number { IfSome (first_of id.now (rows_of (found_of words.now))) (IsUnsignedIn 1 most) }
    ensures some { 1 ≤ result }
    ensures most { result ≤ most }
    ensures value { IsNumberOr (first_of id.now (rows_of (found_of words.now))) default result }
{
    let Some(word) = word_of(words, id) else {
        return default;
    };
    match word.parse::<usize>() {
        Ok(number) => number,
        Err(_) => unreachable!(),
    }
}

// The number of an option, from 0 to `most`, if it is given.
pub(crate) fn number_if(words: &ArgMatches<'_>, id: &str, most: u64) -> Option<u64>
    requires { IfSome (first_of id.now (rows_of (found_of words.now))) (IsUnsignedIn 0 most) }
    ensures small { ForSome result (λ number. number ≤ most) }
    ensures value { IsNumberIf (first_of id.now (rows_of (found_of words.now))) result }
{
    match word_of(words, id) {
        Some(word) => Some(unsigned_of(word, most)),
        None => None,
    }
}

// The numbers that words are, from 0 to `MAX_OFFSET`.
pub(crate) fn offsets_of(alloc: Global, words: &[&str]) -> Result<Vec<u64>, AllocError>
    requires { All (IsUnsignedIn 0 MAX_OFFSET) (map (λ word. word.now) words.now) }
    ensures small { IfOk result (λ offsets. All (λ offset. offset ≤ MAX_OFFSET) offsets.items) }
    ensures values { IfOk result (λ offsets. offsets.items ≡ map number_of (map (λ word. word.now) words.now)) }
{
    let mut offsets = Vec::new(alloc);
    for word in words {
        let offset = unsigned_of(word, MAX_OFFSET);
        offsets.push(offset)?;
    }
    Ok(offsets)
}

// The number that a word is, from 0 to `most`.
fn unsigned_of(word: &str, most: u64) -> u64
    requires { IsUnsignedIn 0 most word.now }
    ensures small { result ≤ most }
    ensures value { result ≡ number_of word.now }
{
    match word.parse::<u64>() {
        Ok(number) => number,
        Err(_) => unreachable!(),
    }
}
