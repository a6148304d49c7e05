ghost use Rattle.std.specs.Prelude.{◌≡◌, ◌≢◌, ◌-◌, None, Some, map, string_bytes, IfOk, IfErr, if◌then◌else◌};
ghost use Rattle.std.specs.List.{list_all};
ghost use Rattle.std.specs.Str.Parse.{digits_value};
ghost use Rattle.clap.specs.Words.{app_of, subcommand_name_of};
ghost use Rattle.c_lexer.specs.Bytes.{is_word_byte, is_word_start};
ghost use Rattle.c_lexer.specs.Kinds.{is_word_shape};
ghost use Rattle.commands.specs.Commands.{commands, matched_work, told_work};
ghost use Rattle.commands.specs.Words.{cost_of, count_of, is_digit, is_short_number, sample_of, work_named, work_of, work_with};

use clap::error::ErrorKind;
use clap::{Arg, ArgMatches, Command};
use items::Items;
use std::alloc::{AllocError, Global};

/// What the words of a command line ask for.
#[derive(Drop)]
pub enum Work {
    /// The report of a text.
    Analyse,
    /// The certificate file of a text.
    Certify,
    /// Whether a certificate file passes.
    Check,
    /// What comes of each version of a text that is edited.
    Edit,
    /// The counts of a made text of so many procedures.
    Sample(u32),
    /// The certificate file of the text of one that passes.
    Renew,
    /// One execution of a text on given values.
    Replay,
    /// The bounds on the change of the global of this name.
    Cost(Items<u8>),
    /// The report of a text under the rule of phases.
    Prove,
    /// The report of a text under the rule of facets.
    Facets,
    Help,
    Version,
}

/// What one word asks for.
fn work_named(word: &str) -> Option<Work>
    ensures { result ≡ work_named word.now }
{
    match word {
        "analyse" => Some(Work::Analyse),
        "certify" => Some(Work::Certify),
        "check" => Some(Work::Check),
        "edit" => Some(Work::Edit),
        "renew" => Some(Work::Renew),
        "replay" => Some(Work::Replay),
        "prove" => Some(Work::Prove),
        "facets" => Some(Work::Facets),
        "--help" => Some(Work::Help),
        "--version" => Some(Work::Version),
        _ => None,
    }
}

/// The commands of the program, each a subcommand.
fn command<'a>(alloc: Global) -> Result<Command<'a>, AllocError>
    ensures { IfOk result (λ command. app_of command ≡ commands) }
{
    let count = Arg::new(alloc, "count").required(true);
    let sample = Command::new(alloc, "sample").arg(count)?;
    let name = Arg::new(alloc, "name").required(true);
    let cost = Command::new(alloc, "cost").arg(name)?;
    Ok(
        Command::new(alloc, "cra")
            .version("0.1.0")
            .subcommand(Command::new(alloc, "analyse"))?
            .subcommand(Command::new(alloc, "certify"))?
            .subcommand(Command::new(alloc, "check"))?
            .subcommand(Command::new(alloc, "edit"))?
            .subcommand(sample)?
            .subcommand(Command::new(alloc, "renew"))?
            .subcommand(Command::new(alloc, "replay"))?
            .subcommand(cost)?
            .subcommand(Command::new(alloc, "prove"))?
            .subcommand(Command::new(alloc, "facets"))?,
    )
}

/// The value of a decimal digit.
fn digit_of(byte: u8) -> Option<u32>
    ensures { result ≡ (if is_digit byte then Some (byte - 48) else None) }
{
    if byte.is_ascii_digit() {
        Some(u32::from(byte - b'0'))
    } else {
        None
    }
}

/// The value of one to three decimal digits.
fn number_of(text: &[u8]) -> Option<u32>
    ensures { result ≡ (if is_short_number text.now then Some (digits_value 10 text.now)
        else None) }
{
    match text {
        [b'0', ..] => None,
        [a] => digit_of(*a),
        [a, b] => Some(10 * digit_of(*a)? + digit_of(*b)?),
        [a, b, c] => Some(100 * digit_of(*a)? + 10 * digit_of(*b)? + digit_of(*c)?),
        _ => None,
    }
}

/// A number of procedures, where the text is one.
fn count_of(text: &str) -> Option<u32>
    ensures { result ≡ count_of text.now }
{
    number_of(text.as_bytes()).filter(|number| *number <= MOST_PROCEDURES)
}

/// The most procedures of a made text, without `main`.
const MOST_PROCEDURES: u32 = 250;

fn is_word_start(byte: u8) -> bool
    ensures { result ≡ is_word_start byte }
{
    byte.is_ascii_alphabetic() || byte == b'_'
}

fn is_word_byte(byte: u8) -> bool
    ensures { result ≡ is_word_byte byte }
{
    byte.is_ascii_alphanumeric() || byte == b'_'
}

fn are_word_bytes(bytes: &[u8]) -> bool
    ensures { result ≡ list_all is_word_byte bytes.now }
{
    bytes.iter().all(|byte| is_word_byte(*byte))
}

/// Whether a text is a word of the programs that are read: a letter or `_`, and then letters,
/// digits and `_`.
fn is_word(text: &[u8]) -> bool
    ensures { result ≡ is_word_shape text.now }
{
    let Some((first, rest)) = text.split_first() else {
        return false;
    };
    is_word_start(*first) && are_word_bytes(rest)
}

/// The bounds on a global's change, where the text is a word.
fn cost_of(alloc: Global, text: &[u8]) -> Result<Option<Work>, AllocError>
    ensures { IfOk result (λ work. work ≡ cost_of text.now) }
{
    if !is_word(text) {
        return Ok(None);
    }
    let name = Items::from_slice(alloc, text)?;
    Ok(Some(Work::Cost(name)))
}

/// What a command asks for that has an argument.
#[tactic(auto, unfolding(crate::specs::Words::work_with))]
fn work_with(alloc: Global, name: &str, text: &str) -> Result<Option<Work>, AllocError>
    ensures { IfOk result (λ work. work ≡ work_with name.now text.now) }
{
    match name {
        "sample" => Ok(count_of(text).map(Work::Sample)),
        "cost" => cost_of(alloc, text.as_bytes()),
        _ => Ok(None),
    }
}

/// What words ask for that name this command.
fn work_under(alloc: Global, name: &str, words: &[String]) -> Result<Option<Work>, AllocError>
    ensures { IfOk result (λ work. work
        ≡ matched_work (Some name.now) (map string_bytes words.now)) }
{
    match words {
        [_, word] => {
            if word.as_str() == name {
                Ok(work_named(name))
            } else {
                Ok(None)
            }
        }
        [_, word, text] => {
            if word.as_str() == name {
                work_with(alloc, name, text.as_str())
            } else {
                Ok(None)
            }
        }
        [_, word, dashes, text] => {
            if word.as_str() == name && dashes.as_str() == "--" {
                work_with(alloc, name, text.as_str())
            } else {
                Ok(None)
            }
        }
        _ => Ok(None),
    }
}

/// What words ask for that name a command.
fn work_matched(
    alloc: Global,
    matches: &ArgMatches<'_>,
    words: &[String],
) -> Result<Option<Work>, AllocError>
    ensures { IfOk result (λ work. work
        ≡ matched_work (subcommand_name_of matches.now) (map string_bytes words.now)) }
{
    match matches.subcommand_name() {
        Some(name) => work_under(alloc, name, words),
        None => Ok(None),
    }
}

/// What words ask for that are no command.
fn work_told(words: &[String]) -> Option<Work>
    ensures { result ≡ told_work (map string_bytes words.now) }
{
    match words {
        [_, word] => work_named(word.as_str()),
        _ => None,
    }
}

/// What the words ask for. The first of them is the program's name.
pub fn work_of(alloc: Global, words: &[String]) -> Result<Option<Work>, AllocError>
    ensures { IfOk result (λ work. work ≡ work_of (map string_bytes words.now)) }
{
    match command(alloc)?.try_get_matches_from(words) {
        Ok(matches) => work_matched(alloc, &matches, words),
        Err(error) => match error.kind() {
            ErrorKind::OutOfMemory => Err(AllocError),
            ErrorKind::DisplayHelp | ErrorKind::DisplayVersion => Ok(work_told(words)),
            _ => Ok(None),
        },
    }
}
