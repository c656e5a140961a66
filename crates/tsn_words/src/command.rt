//! The words as `clap` reads them by the table of commands.
ghost use Rattle.std.specs.Prelude.{◌≡◌, ◌≢◌, IfErr, IfOk, false, map, true};
ghost use Rattle.std.specs.List.{fold};
ghost use Rattle.clap.specs.Words.{app_of, kind_of, new_rule, rule_of, subcommand_rows_of, with_rule};
ghost use Rattle.clap.specs.declared.builder.command.Command.TheViews.{out-Command as fields_of};
ghost use Rattle.tsn_words.specs.Grammar.{AsksFor, IsRefused, IsWhole, takes_words};
ghost use Rattle.tsn_words.specs.Grammar as grammar;
ghost use Rattle.tsn_words.specs.Table.{IsReadOf, app_by, rule_by, rule_for, with_form};
ghost use Rattle.tsn_words.specs.declared.table.Takes.TheVariants as takes;

use crate::table::{Argument, Form, Takes};
use crate::words::{FORMS, VERSION, Words, WordsFault};
use clap::builder::ValueParser;
use clap::error::ErrorKind;
use clap::{Arg, ArgAction, ArgMatches, Command, Error};
use std::alloc::{AllocError, Global};

// What help says of the program's statuses.
const STATUSES: &str = "\
Status:
  0  done: the plan is optimal, the offsets are a schedule, the certificate is accepted
  2  the words are refused
  3  a file is refused
  4  there is no schedule
  5  the limit of --steps is met
  6  the offsets, the plan or the certificate are refused
  7  there is no memory
  8  a file or a stream can't be read or written
With status 2, 3, 6 and 8 a line on standard error says why.";

/// The command that the words ask for; the first word is the program's name.
pub fn words_from<'a>(alloc: Global, words: &'a [&'a str]) -> Result<Words<'a>, WordsFault>
    ensures asked { IfOk result (AsksFor (map (λ word. word.now) words.entry.now)) }
    ensures taken { IfOk result (λ _. takes_words (map (λ word. word.now) words.entry.now) ≡ true) }
    ensures refused { IfErr result (λ fault. IsRefused fault
        → takes_words (map (λ word. word.now) words.entry.now) ≢ true) }
    ensures memory { takes_words (map (λ word. word.now) words.entry.now) ≡ true
        → IfErr result (λ fault. fault ≡ WordsFault.Memory) }
{
    match program(alloc)?.try_get_matches_from(words) {
        Ok(matches) => command_of(alloc, &matches),
        Err(error) => Err(fault_of(alloc, &error)),
    }
}

fn program<'a>(alloc: Global) -> Result<Command<'a>, AllocError>
    ensures { IfOk result (λ c. app_of c ≡ grammar.tsn) }
{
    let alone = Command::new(alloc, "tsn")
        .about("Plans no-wait schedules for time-triggered Ethernet networks")
        .version(VERSION)
        .after_help(STATUSES)
        .subcommand_required(true);
    with_forms(alloc, alone, forms())
}

// The table of commands.
#[tactic(auto, unfolding(crate::specs::Table::with_form))]
fn forms() -> &'static [Form]
    ensures { fold with_form grammar.alone result.now ≡ grammar.tsn }
{
    FORMS
}

// A command with those of some forms below it.
fn with_forms<'a>(
    alloc: Global,
    command: Command<'a>,
    forms: &[Form],
) -> Result<Command<'a>, AllocError>
    ensures { IfOk result (λ c. app_of c ≡ fold with_form (app_of command.entry) forms.now) }
{
    let mut command = command;
    for form in forms {
        command = with_form(alloc, command, *form)?;
    }
    Ok(command)
}

#[tactic(auto, unfolding(crate::specs::Table::with_form))]
fn with_form<'a>(alloc: Global, command: Command<'a>, form: Form) -> Result<Command<'a>, AllocError>
    ensures { IfOk result (λ c. app_of c ≡ with_form (app_of command.entry) form) }
{
    let below = command_by(alloc, form)?;
    command.subcommand(below)
}

// The command of a form.
fn command_by<'a>(alloc: Global, form: Form) -> Result<Command<'a>, AllocError>
    ensures app { IfOk result (λ c. app_of c ≡ app_by form) }
    ensures local { IfOk result (λ c. (fields_of c).has_globals ≡ false) }
{
    let alone = Command::new(alloc, form.name).about(form.about);
    with_arguments(alloc, alone, form.arguments)
}

// A command with some arguments more.
fn with_arguments<'a>(
    alloc: Global,
    command: Command<'a>,
    rows: &[Argument],
) -> Result<Command<'a>, AllocError>
    requires local { (fields_of command).has_globals ≡ false }
    ensures app { IfOk result (λ c. app_of c ≡ fold with_rule (app_of command.entry) (map rule_by rows.now)) }
    ensures local { IfOk result (λ c. (fields_of c).has_globals ≡ false) }
{
    let mut command = command;
    for row in rows {
        command = command.arg(argument_by(alloc, *row))?;
    }
    Ok(command)
}

fn argument_by<'a>(alloc: Global, row: Argument) -> Arg<'a>
    ensures rule { rule_of result ≡ rule_by row }
    ensures local { result.global ≡ false }
{
    match row.takes {
        Takes::File => file(alloc, row),
        Takes::Numbers(most) => numbers(alloc, row, most),
        Takes::Number(least, most, range) => number(alloc, row, least, most, range),
        Takes::Word(word) => option(alloc, row, word),
        Takes::Nothing => named(alloc, row).long(row.name).action(ArgAction::SetTrue),
    }
}

fn file<'a>(alloc: Global, row: Argument) -> Arg<'a>
    ensures rule { rule_of result ≡ rule_for row.name.now takes.File }
    ensures local { result.global ≡ false }
{
    named(alloc, row).required(true).action(ArgAction::Set)
}

fn numbers<'a>(alloc: Global, row: Argument, most: u64) -> Arg<'a>
    ensures rule { rule_of result ≡ rule_for row.name.now (takes.Numbers most) }
    ensures local { result.global ≡ false }
{
    named(alloc, row)
        .required(true)
        .action(ArgAction::Append)
        .num_args(1..)
        .value_parser(ValueParser::unsigned(0, most))
}

fn number<'a>(alloc: Global, row: Argument, least: u64, most: u64, range: &'static str) -> Arg<'a>
    ensures rule { rule_of result ≡ rule_for row.name.now (takes.Number least most range.entry) }
    ensures local { result.global ≡ false }
{
    option(alloc, row, range).value_parser(ValueParser::unsigned(least, most))
}

fn option<'a>(alloc: Global, row: Argument, value: &'static str) -> Arg<'a>
    ensures rule { rule_of result ≡ rule_for row.name.now (takes.Word value.entry) }
    ensures local { result.global ≡ false }
{
    named(alloc, row)
        .long(row.name)
        .value_name(value)
        .action(ArgAction::Set)
}

fn named<'a>(alloc: Global, row: Argument) -> Arg<'a>
    ensures rule { rule_of result ≡ new_rule row.name.now }
    ensures local { result.global ≡ false }
{
    Arg::new(alloc, row.name).help(row.help)
}

// Why `clap` refuses the words.
fn fault_of(alloc: Global, error: &Error) -> WordsFault
    ensures { IsRefused result → kind_of error.now ≢ ErrorKind.OutOfMemory }
{
    if error.kind() == ErrorKind::OutOfMemory {
        return WordsFault::Memory;
    }
    match (error.to_string(alloc), error.kind()) {
        (Ok(text), ErrorKind::DisplayVersion) => WordsFault::Asked(text),
        (Ok(text), _) => WordsFault::Refused(text),
        (Err(_), _) => WordsFault::Memory,
    }
}

fn command_of<'a>(alloc: Global, matches: &ArgMatches<'a>) -> Result<Words<'a>, WordsFault>
    requires { IsWhole (subcommand_rows_of matches.now) }
    ensures { IsReadOf (subcommand_rows_of matches.now) result }
{
    match matches.subcommand() {
        Some((name, words)) => Words::read(alloc, name, words),
        None => unreachable!(),
    }
}
