//! The program's command line.
ghost use Rattle.std.specs.Prelude.{◌≡◌, ◌∷◌, [], Some, IfOk, IfErr, MatchResult, codes, map, true, false, is_some};
ghost use Rattle.clap.specs.Words.{app_of, first_of, found_of, rows_of, rule_of, App};
ghost use Rattle.clap.specs.declared.builder.command.Command.TheViews.{out-Command as fields_of};
ghost use Rattle.zonewire_words.specs.Command.{IsReceive, IsSend, IsZonewire, choice_option, number_option, text_app, text_option, with_text_options};
ghost use Rattle.zonewire_words.specs.Words.{HasNumber, IsFaultOf, IsJobOf, IsNameFault, IsNameIn, IsValueFault, Reads, class_in, layout_in, layout_named, number_or, spelling_in, spelling_named};
ghost use Rattle.zonewire_words.specs.declared.command_line.WordsFault.TheVariants.{Line, OutOfMemory};
ghost use Rattle.zonewire_words.specs.Fault.{of_name};

use crate::jobs::Job;
use clap::{Arg, ArgMatches, Command, value_parser};
use dns_name::{Class, FromStrError, Name};
use dns_text::DisplayKind;
use std::alloc::{AllocError, Global};
use thiserror::Error;
use zone_core::Spelling;

/// Why a command line names no job.
#[derive(Debug, Drop, Error)]
pub enum WordsFault {
    /// The words are not a command line of the program, or ask for help.
    #[error("{0}")]
    Line(clap::Error),
    /// The value of an option is not a name.
    #[error("bad name")]
    BadName,
    /// The value of an option is not a class.
    #[error("bad class")]
    BadClass,
    /// Out of memory. One variant covers every allocation.
    #[error("out of memory")]
    OutOfMemory,
}

impl From<clap::Error> for WordsFault {
    ghost from_gives = { λ error fault. fault ≡ Line error };

    fn from(error: clap::Error) -> WordsFault {
        WordsFault::Line(error)
    }
}

impl From<AllocError> for WordsFault {
    ghost from_gives = { λ _ fault. fault ≡ OutOfMemory };

    fn from(_error: AllocError) -> WordsFault {
        WordsFault::OutOfMemory
    }
}

impl From<FromStrError> for WordsFault {
    ghost from_gives = { λ error fault. fault ≡ of_name error };

    fn from(error: FromStrError) -> WordsFault {
        match error {
            FromStrError::Presentation(_) => WordsFault::BadName,
            FromStrError::ShortBuf => WordsFault::OutOfMemory,
        }
    }
}

/// The values of `--spelling`.
static SPELLINGS: &[&str] = &["plain", "static", "tree", "hash"];

/// The values of `--layout`.
static LAYOUTS: &[&str] = &["simple", "tabbed", "multiline"];

/// Returns the job that the words of a command line name. The first word is the program's name.
///
/// One command of `clap` parses the words, with these subcommands:
///
/// - `send` with `--origin`, a name; `--class`, by default IN; `--id` and `--max`, numbers from 0 to 65535, by default
///   0 and 65535; `--apex`, a name; and `--spelling`: `tree`, the default, `plain`, `static` or `hash`;
/// - `receive` with `--apex`, a name; `--id` and `--class`, as for `send`; and `--layout`: `simple`, the default,
///   `tabbed` or `multiline`;
/// - `check` and `canon` with `--origin` and `--class`, as for `send`.
///
/// `receive` requires its `--apex`. The last dot of a name may be left out.
///
/// Fails with `Line`, an error of `clap`, if the command rejects the words; a call for help is such an error too. If it
/// accepts them, fails with `BadName` if the origin or the apex is not a name, and with `BadClass` if they are names
/// and the class is not a class (RFC 3597 5). Fails with `OutOfMemory`, or a `Line` of that kind, only if out of
/// memory.
pub fn job(alloc: Global, words: &[&str]) -> Result<Job, WordsFault>
    ensures { (a : App) × IsZonewire a × Reads a (map (λ word. word.now) words.now) result }
{
    let command = command(alloc)?;
    let matches = command.try_get_matches_from(words)?;
    let Some((name, options)) = matches.subcommand() else {
        unreachable!();
    };
    match name {
        "send" => send_job(alloc, options),
        "receive" => receive_job(alloc, options),
        "check" => check_job(alloc, options),
        "canon" => canon_job(alloc, options),
        _ => unreachable!(),
    }
}

/// Returns the job of `send` with these options. Fails with `BadName`, `BadClass` or `OutOfMemory`, as `job` does.
fn send_job(alloc: Global, options: &ArgMatches<'_>) -> Result<Job, WordsFault>
    requires id { HasNumber (codes "id") (rows_of (found_of options.now)) }
    requires max { HasNumber (codes "max") (rows_of (found_of options.now)) }
    ensures { MatchResult result (IsJobOf (codes "send", rows_of (found_of options.now)))
        (IsValueFault (codes "send", rows_of (found_of options.now))) }
{
    let origin = name_or_none(alloc, options, "origin")?;
    let apex = name_or_none(alloc, options, "apex")?;
    let Some(class) = class(options) else {
        return Err(WordsFault::BadClass);
    };
    Ok(Job::Send {
        origin,
        class,
        id: number_or(options, "id", 0),
        apex,
        max: number_or(options, "max", 65535),
        spelling: spelling(options),
    })
}

/// Returns the job of `receive` with these options. Fails with `BadName`, `BadClass` or `OutOfMemory`, as `job` does.
fn receive_job(alloc: Global, options: &ArgMatches<'_>) -> Result<Job, WordsFault>
    requires id { HasNumber (codes "id") (rows_of (found_of options.now)) }
    requires apex { is_some (first_of (codes "apex") (rows_of (found_of options.now))) ≡ true }
    ensures { MatchResult result (IsJobOf (codes "receive", rows_of (found_of options.now)))
        (IsValueFault (codes "receive", rows_of (found_of options.now))) }
{
    let Some(apex) = options.get_str("apex") else {
        unreachable!();
    };
    let apex = Name::vec_from_str(alloc, apex)?;
    let Some(class) = class(options) else {
        return Err(WordsFault::BadClass);
    };
    let id = number_or(options, "id", 0);
    let layout = layout(options);
    Ok(Job::Receive {
        class,
        id,
        apex,
        layout,
    })
}

/// Returns the job of `check` with these options. Fails with `BadName`, `BadClass` or `OutOfMemory`, as `job` does.
fn check_job(alloc: Global, options: &ArgMatches<'_>) -> Result<Job, WordsFault>
    ensures { MatchResult result (IsJobOf (codes "check", rows_of (found_of options.now)))
        (IsValueFault (codes "check", rows_of (found_of options.now))) }
{
    let (origin, class) = text_options(alloc, options)?;
    Ok(Job::Check { origin, class })
}

/// Returns the job of `canon` with these options. Fails with `BadName`, `BadClass` or `OutOfMemory`, as `job` does.
fn canon_job(alloc: Global, options: &ArgMatches<'_>) -> Result<Job, WordsFault>
    ensures { MatchResult result (IsJobOf (codes "canon", rows_of (found_of options.now)))
        (IsValueFault (codes "canon", rows_of (found_of options.now))) }
{
    let (origin, class) = text_options(alloc, options)?;
    Ok(Job::Canon { origin, class })
}

/// Returns the origin and the class that the options give for a zone's text. Fails with `BadName` if the origin is not
/// a name, with `BadClass` if the class is not a class, or if out of memory.
fn text_options(
    alloc: Global,
    options: &ArgMatches<'_>,
) -> Result<(Option<Name<Vec<u8>>>, Class), WordsFault>
    ensures ok { IfOk result (λ given. IsNameIn (codes "origin") (rows_of (found_of options.now)) given.0
        × (class_in (rows_of (found_of options.now)) ≡ Some given.1)) }
    ensures err { IfErr result (IsFaultOf (codes "origin" ∷ []) (rows_of (found_of options.now))) }
{
    let origin = name_or_none(alloc, options, "origin")?;
    let Some(class) = class(options) else {
        return Err(WordsFault::BadClass);
    };
    Ok((origin, class))
}

/// Returns the name that an option gives, or None if the option is left out. Fails with `BadName` if its text is not a
/// name, or if out of memory.
fn name_or_none(
    alloc: Global,
    options: &ArgMatches<'_>,
    option: &str,
) -> Result<Option<Name<Vec<u8>>>, WordsFault>
    ensures ok { IfOk result (IsNameIn option.now (rows_of (found_of options.now))) }
    ensures err { IfErr result (IsNameFault option.now (rows_of (found_of options.now))) }
{
    let Some(text) = options.get_str(option) else {
        return Ok(None);
    };
    let name = Name::vec_from_str(alloc, text)?;
    Ok(Some(name))
}

/// Returns the layout that the options give, or the simple one if the option is left out.
fn layout(options: &ArgMatches<'_>) -> DisplayKind
    ensures { result ≡ layout_in (rows_of (found_of options.now)) }
{
    match options.get_str("layout") {
        Some(word) => layout_named(word),
        None => DisplayKind::Simple,
    }
}

/// Returns the layout of a word.
fn layout_named(word: &str) -> DisplayKind
    ensures { result ≡ layout_named word.now }
{
    match word {
        "tabbed" => DisplayKind::Tabbed,
        "multiline" => DisplayKind::Multiline,
        _ => DisplayKind::Simple,
    }
}

/// Returns the spelling that the options give, or that of a tree if the option is left out.
fn spelling(options: &ArgMatches<'_>) -> Spelling
    ensures { result ≡ spelling_in (rows_of (found_of options.now)) }
{
    match options.get_str("spelling") {
        Some(word) => spelling_named(word),
        None => Spelling::Tree,
    }
}

/// Returns the spelling of a word.
fn spelling_named(word: &str) -> Spelling
    ensures { result ≡ spelling_named word.now }
{
    match word {
        "plain" => Spelling::Plain,
        "static" => Spelling::Static,
        "hash" => Spelling::Hash,
        _ => Spelling::Tree,
    }
}

/// Returns the class that the options give, or IN if the option is left out. Returns None if the text is not a class.
fn class(options: &ArgMatches<'_>) -> Option<Class>
    ensures { result ≡ class_in (rows_of (found_of options.now)) }
{
    match options.get_str("class") {
        Some(word) => Class::from_bytes(word.as_bytes()),
        None => Some(Class::IN),
    }
}

/// Returns the number of an option, or the default if the option is left out.
fn number_or(options: &ArgMatches<'_>, name: &str, default: u16) -> u16
    requires { HasNumber name.now (rows_of (found_of options.now)) }
    ensures { result ≡ number_or default name.now (rows_of (found_of options.now)) }
{
    options.get_one::<u16>(name).unwrap_or(default)
}

fn command<'a>(alloc: Global) -> Result<Command<'a>, AllocError>
    ensures { IfOk result (λ c. IsZonewire (app_of c)) }
{
    Command::new(alloc, "zonewire")
        .about("Sends, receives and checks DNS zones")
        .subcommand_required(true)
        .disable_help_subcommand(true)
        .subcommand(send_command(alloc)?)?
        .subcommand(receive_command(alloc)?)?
        .subcommand(text_command(alloc, "check", "Counts the records of zone text")?)?
        .subcommand(text_command(alloc, "canon", "Turns zone text into canonical octets")?)
}

fn send_command<'a>(alloc: Global) -> Result<Command<'a>, AllocError>
    ensures { IfOk result (λ c. IsSend (app_of c) × ((fields_of c).has_globals ≡ false)) }
{
    let spelling = choice_option(alloc, "spelling", SPELLINGS);
    let bare = Command::new(alloc, "send").about(
        "Turns zone text into the messages of a zone transfer",
    );
    let send = with_text_options(alloc, bare)?
        .arg(number_option(alloc, "id").help("The query's id, 0 where left out"))?
        .arg(text_option(alloc, "apex").help("The query's name, the zone's where left out"))?
        .arg(number_option(alloc, "max").help(
            "The most octets of a message, 65535 where left out",
        ))?
        .arg(spelling.help("How names are written"))?;
    Ok(send)
}

/// Returns the subcommand of this name, which reads zone text and has no further options. Fails if out of memory.
fn text_command<'a>(alloc: Global, name: &'a str, about: &'a str) -> Result<Command<'a>, AllocError>
    ensures { IfOk result (λ c. (app_of c ≡ text_app name.entry.now) × ((fields_of c).has_globals ≡ false)) }
{
    let bare = Command::new(alloc, name).about(about);
    let text = with_text_options(alloc, bare)?;
    Ok(text)
}

/// Adds the options for reading zone text. Fails if out of memory.
fn with_text_options<'a>(alloc: Global, command: Command<'a>) -> Result<Command<'a>, AllocError>
    requires { (fields_of command).has_globals ≡ false }
    ensures { IfOk result (λ c. (app_of c ≡ with_text_options (app_of command.entry)) × ((fields_of c).has_globals ≡ false)) }
{
    let read = command
        .arg(text_option(alloc, "origin").help("What relative names stand under"))?
        .arg(text_option(alloc, "class").help("The zone's class, IN where left out"))?;
    Ok(read)
}

fn receive_command<'a>(alloc: Global) -> Result<Command<'a>, AllocError>
    ensures { IfOk result (λ c. IsReceive (app_of c) × ((fields_of c).has_globals ≡ false)) }
{
    let layout = choice_option(alloc, "layout", LAYOUTS);
    let receive = Command::new(alloc, "receive")
        .about("Turns the messages of a zone transfer into zone text")
        .arg(
            text_option(alloc, "apex")
                .required(true)
                .help("The zone's name"),
        )?
        .arg(number_option(alloc, "id").help("The query's id, 0 where left out"))?
        .arg(text_option(alloc, "class").help("The zone's class, IN where left out"))?
        .arg(layout.help("How the text is laid out"))?;
    Ok(receive)
}

fn text_option<'a>(alloc: Global, name: &'a str) -> Arg<'a>
    ensures rule { rule_of result ≡ text_option name.entry.now }
    ensures local { result.global ≡ false }
{
    Arg::new(alloc, name).long(name)
}

fn number_option<'a>(alloc: Global, name: &'a str) -> Arg<'a>
    ensures rule { rule_of result ≡ number_option name.entry.now }
    ensures local { result.global ≡ false }
{
    Arg::new(alloc, name)
        .long(name)
        .value_parser(value_parser!(u16))
}

fn choice_option<'a>(alloc: Global, name: &'a str, choices: &'a [&'a str]) -> Arg<'a>
    ensures rule { rule_of result ≡ choice_option name.entry.now choices.entry }
    ensures local { result.global ≡ false }
{
    Arg::new(alloc, name).long(name).value_parser(choices)
}
