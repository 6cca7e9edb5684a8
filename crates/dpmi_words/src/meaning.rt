// What the words after the program's name mean.
ghost use Rattle.std.specs.{Prelude.{◌≡◌, IfOk, map, option_map, Some}, String.{string_bytes}};
ghost use Rattle.clap.specs.Matches.{found_of, first_value};
ghost use Rattle.dpmi_words.specs.Meaning.{keys_of, keys_in, number_of_option, optional_number_of_option, run_of_numbers, run_of_values};
ghost use Rattle.dpmi_words.specs.Meaning.{soak_of_values, pair_of_values, run_in, pair_in, run_meaning, soak_meaning, pair_meaning};
ghost use Rattle.dpmi_words.specs.{Meaning.{meaning, meaning_in}, Options.{row_of}};

use crate::check::{ONE_OPERAND, OPERAND, PAIR_OPERANDS, passes};
use crate::command::assign;
use crate::number::{number_if_given, optional_number, seed};
use crate::options::{
    BOUND, CommandOption, KEYS, KEYS_FILE, PAGES, PAGES_A, PAGES_B, SLICE, TIMER, TRACE, ValueKind,
    pair_options, run_options, soak_options,
};
use clap::ArgMatches;
use hex::FromHexError;
use std::alloc::{AllocError, Global};

/// Where the keystrokes of a run come from.
#[derive(Drop)]
pub enum KeySource<'a> {
    /// These bytes; none where the words say nothing of keys.
    Pressed(Vec<u8>),
    /// The file of this name.
    Stored(&'a str),
}

/// A run.
#[derive(Drop)]
pub struct Run<'a> {
    /// The name of the client's file.
    pub file: &'a str,
    /// The keystrokes.
    pub keys: KeySource<'a>,
    /// The most turns.
    pub bound: u32,
    /// The most pages, of 4096 bytes, that the client's memory blocks take together.
    pub pages: u32,
    /// The most lines of the trace that are kept.
    pub trace: u32,
    /// After how many rounds the timer's interrupt becomes due, if there is a timer.
    pub timer: Option<u32>,
}

/// Two runs in turns.
#[derive(Drop)]
pub struct Pair<'a> {
    /// The name of the first client's file.
    pub first: &'a str,
    /// The name of the second client's file.
    pub second: &'a str,
    /// The turns of a slice.
    pub slice: u32,
    /// The most turns of each client.
    pub bound: u32,
    /// The most pages, of 4096 bytes, that the first client's memory blocks take together.
    pub pages_a: u32,
    /// The most pages of the second client.
    pub pages_b: u32,
}

/// What words mean.
#[derive(Drop)]
pub enum Words<'a> {
    /// The run of a client's file.
    Run(Run<'a>),
    /// The run of the client that is made from this number.
    Soak(u64),
    /// The runs of two clients' files in turns.
    Pair(Pair<'a>),
}

// The keystrokes of the values of `keys` and `keys-file`.
fn read_keys<'a>(
    alloc: Global,
    keys: Option<&'a str>,
    keys_file: Option<&'a str>,
) -> Result<Option<KeySource<'a>>, AllocError>
    ensures { IfOk result (λ r. option_map keys_in r
        ≡ keys_of (option_map (λ s. s.now) keys.entry) (option_map (λ s. s.now) keys_file.entry)) }
{
    match (keys, keys_file) {
        (None, None) => Ok(Some(KeySource::Pressed(Vec::new(alloc)))),
        (None, Some(name)) => Ok(Some(KeySource::Stored(name))),
        (Some(digits), None) => match hex::decode(alloc, digits.as_bytes()) {
            Ok(bytes) => Ok(Some(KeySource::Pressed(bytes))),
            Err(FromHexError::OutOfMemory) => Err(AllocError),
            Err(_) => Ok(None),
        },
        (Some(_), Some(_)) => Ok(None),
    }
}

// The number of an option, by the values that were assigned.
fn number_of_option(values: &ArgMatches<'_>, option: CommandOption) -> Option<u32>
    ensures { result ≡ number_of_option (row_of option) (first_value (found_of values.now)) }
{
    let text = values.get_str(option.name);
    match option.kind {
        ValueKind::Number(least, most, usual) => optional_number(text, usual, least, most),
        _ => None,
    }
}

// The number of an option that may be left out.
fn optional_number_of_option(values: &ArgMatches<'_>, option: CommandOption) -> Option<Option<u32>>
    ensures { result ≡ optional_number_of_option (row_of option) (first_value (found_of values.now)) }
{
    let text = values.get_str(option.name);
    match option.kind {
        ValueKind::OptionalNumber(least, most) => number_if_given(text, least, most),
        _ => None,
    }
}

// The run of a file with these keystrokes, and the numbers that were assigned.
fn run_with<'a>(values: &ArgMatches<'a>, file: &'a str, keys: KeySource<'a>) -> Option<Run<'a>>
    ensures { option_map run_in result ≡ run_of_numbers (Some file.now) (Some (keys_in keys.entry)) (first_value (found_of values.now)) }
{
    Some(Run {
        file,
        keys,
        bound: number_of_option(values, BOUND)?,
        pages: number_of_option(values, PAGES)?,
        trace: number_of_option(values, TRACE)?,
        timer: optional_number_of_option(values, TIMER)?,
    })
}

// The run of the values that were assigned.
fn run_of<'a>(alloc: Global, values: &ArgMatches<'a>) -> Result<Option<Run<'a>>, AllocError>
    ensures { IfOk result (λ r. option_map run_in r ≡ run_of_values (first_value (found_of values.now))) }
{
    let Some(file) = values.get_str(OPERAND) else {
        return Ok(None);
    };
    let (hex, name) = (values.get_str(KEYS.name), values.get_str(KEYS_FILE.name));
    let Some(keys) = read_keys(alloc, hex, name)? else {
        return Ok(None);
    };
    Ok(run_with(values, file, keys))
}

// The number of the values that were assigned.
fn soak_of(values: &ArgMatches<'_>) -> Option<u64>
    ensures { result ≡ soak_of_values (first_value (found_of values.now)) }
{
    match values.get_str(OPERAND) {
        Some(text) => seed(text),
        None => None,
    }
}

// The pair of the values that were assigned.
fn pair_of<'a>(values: &ArgMatches<'a>) -> Option<Pair<'a>>
    ensures { option_map pair_in result ≡ pair_of_values (first_value (found_of values.now)) }
{
    let [first_name, second_name] = PAIR_OPERANDS;
    Some(Pair {
        first: values.get_str(first_name)?,
        second: values.get_str(second_name)?,
        slice: number_of_option(values, SLICE)?,
        bound: number_of_option(values, BOUND)?,
        pages_a: number_of_option(values, PAGES_A)?,
        pages_b: number_of_option(values, PAGES_B)?,
    })
}

// What the words after `run` mean.
fn read_run<'a>(alloc: Global, words: &'a [String]) -> Result<Option<Run<'a>>, AllocError>
    ensures { IfOk result (λ r. option_map run_in r ≡ run_meaning (map string_bytes words.now)) }
{
    let options = run_options();
    if !passes(alloc, &options, &ONE_OPERAND, words)? {
        return Ok(None);
    }
    match assign(alloc, "run", &options, &ONE_OPERAND, words) {
        Ok(values) => run_of(alloc, &values),
        Err(_) => Err(AllocError),
    }
}

// What the words after `soak` mean.
fn read_soak(alloc: Global, words: &[String]) -> Result<Option<u64>, AllocError>
    ensures { IfOk result (λ r. r ≡ soak_meaning (map string_bytes words.now)) }
{
    let options = soak_options();
    if !passes(alloc, &options, &ONE_OPERAND, words)? {
        return Ok(None);
    }
    match assign(alloc, "soak", &options, &ONE_OPERAND, words) {
        Ok(values) => Ok(soak_of(&values)),
        Err(_) => Err(AllocError),
    }
}

// What the words after `pair` mean.
fn read_pair<'a>(alloc: Global, words: &'a [String]) -> Result<Option<Pair<'a>>, AllocError>
    ensures { IfOk result (λ r. option_map pair_in r ≡ pair_meaning (map string_bytes words.now)) }
{
    let options = pair_options();
    if !passes(alloc, &options, &PAIR_OPERANDS, words)? {
        return Ok(None);
    }
    match assign(alloc, "pair", &options, &PAIR_OPERANDS, words) {
        Ok(values) => Ok(pair_of(&values)),
        Err(_) => Err(AllocError),
    }
}

/// Reads the words after the program's name: `run FILE`, `soak N` or `pair A B`, each with its options (`src/options.rt`). Returns `None`
/// exactly where they mean nothing.
/// Fails where memory is out. Source: own.
pub fn read_words<'a>(alloc: Global, words: &'a [String]) -> Result<Option<Words<'a>>, AllocError>
    ensures { IfOk result (λ r. option_map meaning_in r ≡ meaning (map string_bytes words.now)) }
{
    let [first, rest @ ..] = words else {
        return Ok(None);
    };
    if first.as_str() == "run" {
        return match read_run(alloc, rest)? {
            Some(run) => Ok(Some(Words::Run(run))),
            None => Ok(None),
        };
    }
    if first.as_str() == "soak" {
        return match read_soak(alloc, rest)? {
            Some(number) => Ok(Some(Words::Soak(number))),
            None => Ok(None),
        };
    }
    if first.as_str() == "pair" {
        return match read_pair(alloc, rest)? {
            Some(pair) => Ok(Some(Words::Pair(pair))),
            None => Ok(None),
        };
    }
    Ok(None)
}
