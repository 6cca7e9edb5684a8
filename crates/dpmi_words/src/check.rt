// The check of the words: what is an option, what is its value, and what is an operand.
ghost use Rattle.std.specs.{Prelude.{◌≡◌, IfOk, map, option_map, Some, None, is_some, cond}, String.{string_bytes}};
ghost use Rattle.dpmi_words.specs.Reading.{after_hyphen, name_and_value, option_of, has_given, gives, is_hyphened, is_option_name};
ghost use Rattle.dpmi_words.specs.{Reading.{operand_word, option_word, step, finished, given_by}, Seen.{names_of, pairs, reading_of}};
ghost use Rattle.dpmi_words.specs.Seen.{texts};

use crate::options::CommandOption;
use std::alloc::{AllocError, Global};

/// The name under which the operand of `run` and `soak`, FILE or N, is kept.
pub const OPERAND: &str = "operand";

/// The operands of `run` and of `soak`.
pub const ONE_OPERAND: [&str; 1] = [OPERAND];

/// The operands of `pair`.
pub const PAIR_OPERANDS: [&str; 2] = ["first", "second"];

/// A value with its name.
#[derive(Drop)]
pub struct Given<'a> {
    pub name: &'a str,
    pub value: &'a str,
}

/// What the words so far gave: the option that waits for its value, the operands that are still to come, and the values.
#[derive(Drop)]
pub struct Seen<'a> {
    pub waiting: Option<&'a str>,
    pub left: &'a [&'a str],
    pub given: Vec<Given<'a>>,
}

// Whether a value was given under the name.
fn has(given: &[Given<'_>], name: &str) -> bool
    ensures { result ≡ has_given name.now (pairs given.now) }
{
    for g in given {
        if g.name == name {
            return true;
        }
    }
    false
}

// Whether the name is that of one of these options.
fn is_option_name(options: &[CommandOption], name: &str) -> bool
    ensures { result ≡ is_option_name (names_of options.now) name.now }
{
    for option in options {
        if option.name == name {
            return true;
        }
    }
    false
}

// Whether the word begins with a hyphen.
fn begins_with_hyphen(word: &str) -> bool
    ensures { result ≡ is_hyphened word.now }
{
    word.starts_with('-')
}

// The text after a hyphen.
fn strip_hyphen(text: &str) -> Option<&str>
    ensures { option_map (λ s. s.now) result ≡ after_hyphen text.now }
{
    text.strip_prefix('-')
}

// The name before the first `=`, and the value after it.
fn split_value(text: &str) -> (&str, Option<&str>)
    ensures { (result.0.now, option_map (λ s. s.now) result.1) ≡ name_and_value text.now }
{
    match text.split_once('=') {
        Some((name, value)) => (name, Some(value)),
        None => (text, None),
    }
}

// The name and the value of `--name` or `--name=value`.
fn split_option(word: &str) -> Option<(&str, Option<&str>)>
    ensures { option_map (λ p. (p.0.now, option_map (λ s. s.now) p.1)) result ≡ option_of word.now }
{
    let rest = strip_hyphen(strip_hyphen(word)?)?;
    if rest.is_empty() {
        return None;
    }
    Some(split_value(rest))
}

// Takes a value under a name, unless it is empty or the name has one. Returns whether it did.
fn give<'a>(seen: &mut Seen<'a>, name: &'a str, value: &'a str) -> Result<bool, AllocError>
    ensures { IfOk result (λ is_taken.
        gives name.now value.now (reading_of seen.old) ≡ cond is_taken (Some (reading_of seen.new)) None) }
{
    if has(seen.given.as_slice(), name) || value.is_empty() {
        return Ok(false);
    }
    seen.given.push(Given { name, value })?;
    seen.waiting = None;
    Ok(true)
}

// Takes an option, with its value or without. Returns whether it did.
fn take_option<'a>(
    seen: &mut Seen<'a>,
    options: &[CommandOption],
    word: &'a str,
) -> Result<bool, AllocError>
    ensures { IfOk result (λ is_taken.
        option_word (names_of options.now) (option_of word.now) (reading_of seen.old) ≡ cond is_taken (Some (reading_of seen.new)) None) }
{
    let Some((name, value)) = split_option(word) else {
        return Ok(false);
    };
    if !is_option_name(options, name) || has(seen.given.as_slice(), name) {
        return Ok(false);
    }
    match value {
        Some(text) => give(seen, name, text),
        None => {
            seen.waiting = Some(name);
            Ok(true)
        }
    }
}

// Takes the next operand, unless none is left. Returns whether it did.
fn take_operand<'a>(seen: &mut Seen<'a>, word: &'a str) -> Result<bool, AllocError>
    ensures { IfOk result (λ is_taken.
        operand_word (texts seen.old.left.now) word.now (reading_of seen.old) ≡ cond is_taken (Some (reading_of seen.new)) None) }
{
    let [name, rest @ ..] = seen.left else {
        return Ok(false);
    };
    seen.left = rest;
    give(seen, *name, word)
}

// Takes one word. Returns whether it did.
fn take_word<'a>(
    seen: &mut Seen<'a>,
    options: &[CommandOption],
    word: &'a str,
) -> Result<bool, AllocError>
    ensures { IfOk result (λ is_taken.
        step (names_of options.now) word.now (reading_of seen.old) ≡ cond is_taken (Some (reading_of seen.new)) None) }
{
    let is_option = begins_with_hyphen(word);
    match seen.waiting {
        Some(name) => {
            if is_option {
                return Ok(false);
            }
            give(seen, name, word)
        }
        None => {
            if is_option {
                return take_option(seen, options, word);
            }
            take_operand(seen, word)
        }
    }
}

// Whether no option waits, and no operand is left.
fn is_finished(seen: &Seen<'_>) -> bool
    ensures { result ≡ is_some (finished (reading_of seen.now)) }
{
    seen.waiting.is_none() && seen.left.is_empty()
}

/// Whether the words give values as the rules ask, where these are the options, and the operands have these names. Fails where memory is
/// out. Source: own.
#[tactic(auto, using(crate::proofs::InTurn::reads_none, crate::proofs::InTurn::reads_more))]
pub fn passes<'a>(
    alloc: Global,
    options: &[CommandOption],
    operands: &'a [&'a str],
    words: &'a [String],
) -> Result<bool, AllocError>
    ensures { IfOk result (λ passes. passes ≡ is_some (given_by (names_of options.now) (texts operands.now) (map string_bytes words.now))) }
{
    let mut seen = Seen {
        waiting: None,
        left: operands,
        given: Vec::new(alloc),
    };
    for word in words {
        if !take_word(&mut seen, options, word.as_str())? {
            return Ok(false);
        }
    }
    Ok(is_finished(&seen))
}
