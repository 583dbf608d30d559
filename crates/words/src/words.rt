ghost use Rattle.std.specs.Prelude.{◌≡◌, ◌≤◌, IfOk, IfSome, false, map, option_map};
ghost use Rattle.std.specs.List.{list_any};
ghost use Rattle.clap.specs.Words.{app_of, found_of, rows_of, rule_of, subcommand_rows_of};
ghost use Rattle.words.specs.PrivateCommand.{argument, begins_with, command, edit_in, found, number_in, written};
ghost use Rattle.words.specs.Words.{IsInRange, invocation, words_of};

use clap::builder::ValueParser;
use clap::error::ErrorKind;
use clap::{Arg, ArgMatches, Command};
use cm_plain::Str;
use std::alloc::{AllocError, Global};
use std::convert::AsStr;
use viewport::MAX_SIZE;
use workload::MAX_TRANSACTIONS;

/// The most decimal digits of a number of rows or of columns.
const SIZE_DIGITS: usize = 3;

/// The most decimal digits of a number of transactions.
const TRANSACTION_DIGITS: usize = 7;

/// What the words of the command line ask for.
#[derive(Debug, Drop)]
pub enum Words {
    /// `replay`: each line of standard input is answered.
    Replay,
    /// `collab`: each line of standard input is answered, as a world of clients and an authority.
    Collab,
    /// `edit FILE ROWS COLS`: a file is edited in a window of 1 to 500 rows and 1 to 500 columns. Its name has at least one
    /// character and doesn't begin with `-`.
    Edit { file: Str, rows: u32, cols: u32 },
    /// `make N`: the lines of a workload of 1 to 1,000,000 transactions are answered.
    Make { transactions: u32 },
}

impl Words {
    /// What these words, without the program's name, ask for. ROWS and COLS are one to three decimal digits, N is one to seven;
    /// they may begin with zeros. `None`: the words have no accepted form. `Err`: out of memory.
    ///
    /// `clap` parses words of which none begins with `-`, so it meets no option and no `--`.
    pub fn of<T: AsStr>(alloc: Global, words: &[T]) -> Result<Option<Words>, AllocError>
        ensures value { IfOk result (λ asked. option_map invocation asked ≡ words_of (map T.text words.now)) }
        ensures range { IfOk result (λ asked. IfSome asked IsInRange) }
    {
        if has_option(words) {
            return Ok(None);
        }
        match command(alloc)?.try_get_matches_from(words) {
            Ok(matches) => asked(alloc, &matches),
            Err(error) => match error.kind() {
                ErrorKind::OutOfMemory => Err(AllocError),
                _ => Ok(None),
            },
        }
    }
}

/// Whether a word begins with `-`.
fn is_option(word: &str) -> bool
    ensures { result ≡ begins_with 45 word.now }
{
    word.starts_with('-')
}

/// Whether one of the words begins with `-`.
fn has_option<T: AsStr>(words: &[T]) -> bool
    ensures { result ≡ list_any (begins_with 45) (map T.text words.now) }
{
    words.iter().any(|word| is_option(word.as_str()))
}

/// What takes a number from 1 to the greatest one.
fn up_to<'a>(greatest: u32) -> ValueParser<'a>
    ensures { result ≡ ValueParser.Unsigned 1 greatest }
{
    ValueParser::unsigned(1, u64::from(greatest))
}

/// An argument that has to be given.
fn argument<'a>(alloc: Global, id: &'a str, takes: ValueParser<'a>) -> Arg<'a>
    ensures rule { rule_of result ≡ argument id.entry.now takes.entry }
    ensures local { result.global ≡ false }
{
    Arg::new(alloc, id).required(true).value_parser(takes)
}

/// The command line: one subcommand for each form, without help.
fn command<'a>(alloc: Global) -> Result<Command<'a>, AllocError>
    ensures { IfOk result (λ c. app_of c ≡ command) }
{
    let edit = Command::new(alloc, "edit")
        .arg(argument(alloc, "FILE", ValueParser::NonEmptyString))?
        .arg(argument(alloc, "ROWS", up_to(MAX_SIZE)))?
        .arg(argument(alloc, "COLS", up_to(MAX_SIZE)))?;
    let make = Command::new(alloc, "make").arg(argument(alloc, "N", up_to(MAX_TRANSACTIONS)))?;
    Command::new(alloc, "ccm")
        .no_binary_name(true)
        .disable_help_flag(true)
        .disable_help_subcommand(true)
        .subcommand_required(true)
        .subcommand(Command::new(alloc, "replay"))?
        .subcommand(Command::new(alloc, "collab"))?
        .subcommand(edit)?
        .subcommand(make)
}

/// What the subcommand that was met asks for.
fn asked(alloc: Global, matches: &ArgMatches<'_>) -> Result<Option<Words>, AllocError>
    ensures { IfOk result (λ asked. option_map invocation asked ≡ found (subcommand_rows_of matches.now)) }
{
    let Some((name, given)) = matches.subcommand() else {
        return Ok(None);
    };
    match name {
        "replay" => Ok(Some(Words::Replay)),
        "collab" => Ok(Some(Words::Collab)),
        "edit" => edit(alloc, given),
        "make" => {
            let transactions = number(given, "N", TRANSACTION_DIGITS);
            Ok(transactions.map(|transactions| Words::Make { transactions }))
        }
        _ => Ok(None),
    }
}

/// What `edit` with these arguments asks for.
fn edit(alloc: Global, given: &ArgMatches<'_>) -> Result<Option<Words>, AllocError>
    ensures { IfOk result (λ asked. option_map invocation asked ≡ edit_in (rows_of (found_of given.now))) }
{
    let Some(file) = given.get_str("FILE") else {
        return Ok(None);
    };
    let Some(rows) = number(given, "ROWS", SIZE_DIGITS) else {
        return Ok(None);
    };
    let Some(cols) = number(given, "COLS", SIZE_DIGITS) else {
        return Ok(None);
    };
    let file = Str::of_text(alloc, file)?;
    Ok(Some(Words::Edit { file, rows, cols }))
}

/// The number that was given for an argument in at most `places` decimal digits.
fn number(given: &ArgMatches<'_>, id: &str, places: usize) -> Option<u32>
    requires { places ≤ 9 }
    ensures { result ≡ number_in places id.now (rows_of (found_of given.now)) }
{
    number_of(given.get_str(id)?, places)
}

/// The number that a text of 1 to `places` decimal digits writes. `None`: the text is no such number.
fn number_of(text: &str, places: usize) -> Option<u32>
    requires { places ≤ 9 }
    ensures { result ≡ written places text.now }
{
    if text.len() > places || text.starts_with('+') {
        return None;
    }
    text.parse().ok()
}
