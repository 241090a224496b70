//! The program's command line.
ghost use Rattle.std.specs.Prelude.{◌≡◌, IfOk};
ghost use Rattle.tool_words.specs.Task.{ReadsInputOnce};
ghost use Rattle.tool_words.specs.declared.command_line.WordsFault.TheVariants.{Line, OutOfMemory};

use crate::color_choice::ColorChoice;
use crate::reading::{Reading, STANDARD_INPUT};
use crate::task::Task;
use clap::{Arg, ArgAction, ArgMatches, Command, value_parser};
use dns_field_texts::read_type;
use dns_name::{Class, FromStrError, Name, Rtype, ToName, ToRelativeName};
use dns_text::{DisplayKind, UncertainName};
use std::alloc::{AllocError, Global};
use thiserror::Error;

/// Why a command line names no task.
#[derive(Debug, Drop, Error)]
pub enum WordsFault {
    /// The words are not a command line of the program, or ask for help or the version.
    #[error("{0}")]
    Line(clap::Error),
    /// No command is named. `clap` rejects such words before.
    #[error("no command")]
    NoCommand,
    /// The value of an option is not a name.
    #[error("bad name")]
    BadName,
    /// The value of an option is not a class.
    #[error("bad class")]
    BadClass,
    /// The value of an option is not a type.
    #[error("bad type")]
    BadType,
    /// Both zones are to be read from standard input.
    #[error("standard input is read once")]
    InputTwice,
    /// Out of memory.
    #[error("out of memory")]
    OutOfMemory,
}

impl From<clap::Error> for WordsFault {
    ghost from_gives = { λ error fault. fault ≡ Line error };

    fn from(error: clap::Error) -> WordsFault {
        WordsFault::Line(error)
    }
}

impl From<AllocError> for WordsFault {
    ghost from_gives = { λ _ fault. fault ≡ OutOfMemory };

    fn from(_error: AllocError) -> WordsFault {
        WordsFault::OutOfMemory
    }
}

/// The values of `--layout`.
static LAYOUTS: &[&str] = &["simple", "tabbed", "multiline"];

/// The values of `--color`.
static COLORS: &[&str] = &["auto", "always", "never"];

/// Returns the task that the words of a command line name. The first word is the program's name.
///
/// One command of `clap` parses the words, with a subcommand for each kind of task.
///
/// Fails with `Line` if `clap` rejects the words; a call for help or the version is such an error too. If it accepts them, `diff`
/// fails with `InputTwice` if both zones are standard input, and each command with `BadName`, `BadClass` or `BadType` for the
/// first value, in this order, that is none. Fails with `OutOfMemory`, or a `Line` of that kind, if out of memory.
pub fn task_of<'a>(alloc: Global, words: &'a [&'a str]) -> Result<Task<'a>, WordsFault>
    ensures { IfOk result ReadsInputOnce }
{
    let command = command(alloc)?;
    let matches = command.try_get_matches_from(words)?;
    let Some((name, options)) = matches.subcommand() else {
        return Err(WordsFault::NoCommand);
    };
    match name {
        "explain" => explain_task(alloc, options),
        "diff" => diff_task(alloc, options),
        "sort" => sort_task(alloc, options),
        "stats" => stats_task(alloc, options),
        "query" => query_task(alloc, options),
        "general" => general_task(alloc, options),
        "present" => present_task(alloc, options),
        _ => Err(WordsFault::NoCommand),
    }
}

fn explain_task<'a>(alloc: Global, options: &ArgMatches<'a>) -> Result<Task<'a>, WordsFault>
    ensures { IfOk result ReadsInputOnce }
{
    let reading = reading(alloc, options)?;
    Ok(Task::Explain {
        file: file_or_input(options, "file"),
        reading,
        all: options.get_flag("all"),
        color: color(options),
    })
}

fn diff_task<'a>(alloc: Global, options: &ArgMatches<'a>) -> Result<Task<'a>, WordsFault>
    ensures { IfOk result ReadsInputOnce }
{
    let old = file_or_input(options, "old");
    let new = file_or_input(options, "new");
    if old == STANDARD_INPUT && new == STANDARD_INPUT {
        return Err(WordsFault::InputTwice);
    }
    let reading = reading(alloc, options)?;
    Ok(Task::Diff {
        old,
        new,
        reading,
        without: left_out(alloc, options)?,
        ignore_ttl: options.get_flag("ignore-ttl"),
        ignore_serial: options.get_flag("ignore-serial"),
        present: options.get_flag("present"),
        color: color(options),
    })
}

fn sort_task<'a>(alloc: Global, options: &ArgMatches<'a>) -> Result<Task<'a>, WordsFault>
    ensures { IfOk result ReadsInputOnce }
{
    let reading = reading(alloc, options)?;
    Ok(Task::Sort {
        file: file_or_input(options, "file"),
        reading,
        present: options.get_flag("present"),
        layout: layout(options),
    })
}

fn stats_task<'a>(alloc: Global, options: &ArgMatches<'a>) -> Result<Task<'a>, WordsFault>
    ensures { IfOk result ReadsInputOnce }
{
    let reading = reading(alloc, options)?;
    Ok(Task::Stats {
        file: file_or_input(options, "file"),
        reading,
        present: options.get_flag("present"),
    })
}

fn general_task<'a>(alloc: Global, options: &ArgMatches<'a>) -> Result<Task<'a>, WordsFault>
    ensures { IfOk result ReadsInputOnce }
{
    let reading = reading(alloc, options)?;
    Ok(Task::General {
        file: file_or_input(options, "file"),
        reading,
    })
}

fn present_task<'a>(alloc: Global, options: &ArgMatches<'a>) -> Result<Task<'a>, WordsFault>
    ensures { IfOk result ReadsInputOnce }
{
    let reading = reading(alloc, options)?;
    Ok(Task::Present {
        file: file_or_input(options, "file"),
        reading,
        layout: layout(options),
    })
}

fn query_task<'a>(alloc: Global, options: &ArgMatches<'a>) -> Result<Task<'a>, WordsFault>
    ensures { IfOk result ReadsInputOnce }
{
    let apex = apex(alloc, options)?;
    let class = class(options)?;
    let id = options.get_one::<u16>("id").unwrap_or(0);
    Ok(Task::Query { apex, class, id })
}

/// Returns the name of the zone. It is relative to the origin, if an option gives one and the name has no last dot.
fn apex(alloc: Global, options: &ArgMatches<'_>) -> Result<Name<Vec<u8>>, WordsFault> {
    let text = options.get_str("apex").unwrap_or("");
    let Some(origin) = name_or_none(alloc, options, "origin")? else {
        return name_of(alloc, text);
    };
    match UncertainName::from_str(alloc, text) {
        Ok(UncertainName::Absolute(name)) => Ok(name),
        Ok(UncertainName::Relative(name)) => match name.chain(origin) {
            Ok(name) => Ok(name.to_vec(alloc)?),
            Err(_) => Err(WordsFault::BadName),
        },
        Err(FromStrError::Presentation(_)) => Err(WordsFault::BadName),
        Err(FromStrError::ShortBuf) => Err(WordsFault::OutOfMemory),
    }
}

/// Returns the file of this argument, or standard input if it is left out.
fn file_or_input<'a>(options: &ArgMatches<'a>, argument: &str) -> &'a str {
    options.get_str(argument).unwrap_or(STANDARD_INPUT)
}

/// Returns how the options say that a zone's text is read.
fn reading(alloc: Global, options: &ArgMatches<'_>) -> Result<Reading, WordsFault> {
    let origin = name_or_none(alloc, options, "origin")?;
    let class = class(options)?;
    Ok(Reading { origin, class })
}

/// Returns the types that the options leave out.
fn left_out(alloc: Global, options: &ArgMatches<'_>) -> Result<Vec<Rtype>, WordsFault> {
    let mut types = Vec::new(alloc);
    let Some(words) = options.get_strs("without") else {
        return Ok(types);
    };
    for word in words {
        let Some(rtype) = read_type(word.as_bytes()) else {
            return Err(WordsFault::BadType);
        };
        types.push(rtype).map_err(AllocError::from)?;
    }
    Ok(types)
}

/// Returns the name that an option gives, or None if the option is left out.
fn name_or_none(
    alloc: Global,
    options: &ArgMatches<'_>,
    option: &str,
) -> Result<Option<Name<Vec<u8>>>, WordsFault> {
    match options.get_str(option) {
        Some(text) => Ok(Some(name_of(alloc, text)?)),
        None => Ok(None),
    }
}

/// Returns the name that a text spells, with or without its last dot.
fn name_of(alloc: Global, text: &str) -> Result<Name<Vec<u8>>, WordsFault> {
    match Name::vec_from_str(alloc, text) {
        Ok(name) => Ok(name),
        Err(FromStrError::Presentation(_)) => Err(WordsFault::BadName),
        Err(FromStrError::ShortBuf) => Err(WordsFault::OutOfMemory),
    }
}

/// Returns the class that the options give, or IN if the option is left out.
fn class(options: &ArgMatches<'_>) -> Result<Class, WordsFault> {
    let Some(word) = options.get_str("class") else {
        return Ok(Class::IN);
    };
    match Class::from_bytes(word.as_bytes()) {
        Some(class) => Ok(class),
        None => Err(WordsFault::BadClass),
    }
}

/// Returns when the output has colours, by the options: on a terminal if the option is left out.
fn color(options: &ArgMatches<'_>) -> ColorChoice {
    match options.get_str("color") {
        Some("always") => ColorChoice::Always,
        Some("never") => ColorChoice::Never,
        _ => ColorChoice::Auto,
    }
}

/// Returns the layout that the options give, or the simple one if the option is left out.
fn layout(options: &ArgMatches<'_>) -> DisplayKind {
    match options.get_str("layout") {
        Some("tabbed") => DisplayKind::Tabbed,
        Some("multiline") => DisplayKind::Multiline,
        _ => DisplayKind::Simple,
    }
}

fn command<'a>(alloc: Global) -> Result<Command<'a>, AllocError> {
    let bare = Command::new(alloc, "zonetool")
        .about(
            "Checks, compares, sorts, counts and rewrites DNS zones, and asks for their transfers",
        )
        .version("0.1.0")
        .subcommand_required(true)
        .disable_help_subcommand(true);
    let zonetool = with_subcommand(bare, explain_command(alloc))?;
    let zonetool = with_subcommand(zonetool, diff_command(alloc))?;
    let zonetool = with_subcommand(zonetool, sort_command(alloc))?;
    let zonetool = with_subcommand(zonetool, stats_command(alloc))?;
    let zonetool = with_subcommand(zonetool, query_command(alloc))?;
    let zonetool = with_subcommand(zonetool, general_command(alloc))?;
    with_subcommand(zonetool, present_command(alloc))
}

/// Adds the subcommand. Fails as it did, or if out of memory.
fn with_subcommand<'a>(
    command: Command<'a>,
    subcommand: Result<Command<'a>, AllocError>,
) -> Result<Command<'a>, AllocError> {
    // A `?` in `command` itself would have to drop the command that it makes, and each such drop makes its proof longer.
    command.subcommand(subcommand?)
}

fn explain_command<'a>(alloc: Global) -> Result<Command<'a>, AllocError> {
    let arguments = vec![in alloc;
        origin_option(alloc),
        class_option(alloc),
        file_argument(alloc),
        flag(alloc, "all").help("Each fault is told, not only the first"),
        color_option(alloc),
    ]?;
    Command::new(alloc, "explain")
        .about("Says why a zone is refused")
        .args(arguments)
}

fn diff_command<'a>(alloc: Global) -> Result<Command<'a>, AllocError> {
    let arguments = vec![in alloc;
        origin_option(alloc),
        class_option(alloc),
        required(alloc, "old", "OLD").help("The old zone, - for standard input"),
        required(alloc, "new", "NEW").help("The new zone, - for standard input"),
        option(alloc, "without", "TYPE")
            .action(ArgAction::Append)
            .help("A type whose records are not compared; may be given again"),
        flag(alloc, "ignore-ttl").help("TTLs are not compared"),
        flag(alloc, "ignore-serial").help("The SOA's serial is not compared"),
        present_flag(alloc),
        color_option(alloc),
    ]?;
    Command::new(alloc, "diff")
        .about("Prints what changed between two zones")
        .args(arguments)
}

fn sort_command<'a>(alloc: Global) -> Result<Command<'a>, AllocError> {
    let arguments = vec![in alloc;
        origin_option(alloc),
        class_option(alloc),
        file_argument(alloc),
        present_flag(alloc),
        layout_option(alloc).help("How the text is laid out"),
    ]?;
    Command::new(alloc, "sort")
        .about("Prints a zone in canonical order")
        .args(arguments)
}

fn stats_command<'a>(alloc: Global) -> Result<Command<'a>, AllocError> {
    let arguments = vec![in alloc;
        origin_option(alloc),
        class_option(alloc),
        file_argument(alloc),
        flag(alloc, "present").help("Types are named by all mnemonics"),
    ]?;
    Command::new(alloc, "stats")
        .about("Prints the numbers of a zone and of its transfer")
        .args(arguments)
}

fn query_command<'a>(alloc: Global) -> Result<Command<'a>, AllocError> {
    let arguments = vec![in alloc;
        required(alloc, "apex", "APEX").help("The zone's name"),
        option(alloc, "origin", "NAME").help("The origin of a name without a last dot"),
        class_option(alloc),
        option(alloc, "id", "NUMBER")
            .value_parser(value_parser!(u16))
            .help("The query's ID, 0 where left out"),
    ]?;
    Command::new(alloc, "query")
        .about("Writes the query for a zone's transfer after its length")
        .args(arguments)
}

fn general_command<'a>(alloc: Global) -> Result<Command<'a>, AllocError> {
    let arguments = vec![in alloc;
        origin_option(alloc),
        class_option(alloc),
        file_argument(alloc),
    ]?;
    Command::new(alloc, "general")
        .about("Prints a zone's text with further types in the general form")
        .args(arguments)
}

fn present_command<'a>(alloc: Global) -> Result<Command<'a>, AllocError> {
    let arguments = vec![in alloc;
        origin_option(alloc),
        class_option(alloc),
        file_argument(alloc),
        layout_option(alloc).help("How the data is laid out"),
    ]?;
    Command::new(alloc, "present")
        .about("Prints a zone's text with further types in their own forms")
        .args(arguments)
}

fn origin_option<'a>(alloc: Global) -> Arg<'a> {
    option(alloc, "origin", "NAME").help("The origin of relative names")
}

fn class_option<'a>(alloc: Global) -> Arg<'a> {
    option(alloc, "class", "CLASS").help("The zone's class, IN where left out")
}

fn file_argument<'a>(alloc: Global) -> Arg<'a> {
    argument(alloc, "file", "FILE").help("The zone, - or left out for standard input")
}

fn present_flag<'a>(alloc: Global) -> Arg<'a> {
    flag(alloc, "present").help("Data of further types is written in its own form")
}

fn color_option<'a>(alloc: Global) -> Arg<'a> {
    option(alloc, "color", "WHEN").value_parser(COLORS).help(
        "Whether the output has colours, auto where left out: on a terminal",
    )
}

fn layout_option<'a>(alloc: Global) -> Arg<'a> {
    option(alloc, "layout", "LAYOUT").value_parser(LAYOUTS)
}

fn option<'a>(alloc: Global, name: &'a str, shown: &'a str) -> Arg<'a> {
    Arg::new(alloc, name).long(name).value_name(shown)
}

fn flag<'a>(alloc: Global, name: &'a str) -> Arg<'a> {
    Arg::new(alloc, name).long(name).action(ArgAction::SetTrue)
}

fn required<'a>(alloc: Global, name: &'a str, shown: &'a str) -> Arg<'a> {
    argument(alloc, name, shown).required(true)
}

fn argument<'a>(alloc: Global, name: &'a str, shown: &'a str) -> Arg<'a> {
    Arg::new(alloc, name).value_name(shown)
}
