//! The words of the command line.
ghost use Rattle.std.specs.Prelude.{◌≡◌, ◌⊎◌, map, codes, IfOk, IfErr, OnErr, MatchResult};
ghost use Rattle.clap.specs.Words.{App, found_of, kind_of, new_app, rows_of, subcommand_rows_of, with_subcommand};
ghost use Rattle.wb.specs.CommandLine.{AsksTask, IsAsked, IsTaskFound, IsMade, bare_app, command_line, filter_app, host_app, filter_name, run_app};

use crate::constants::{Constants, WrongConstants};
use clap::error::ErrorKind;
use clap::{Arg, ArgAction, ArgMatches, Command, Error, value_parser};
use std::alloc::{AllocError, Global};
use wb_commands::MAX_WORKERS;
use wb_filters::{Direction, Filter};

/// What the program is asked to do.
#[derive(Drop)]
pub enum Task {
    /// Run a script, by `workers` workers if a number is given.
    Run { workers: Option<u32> },
    /// Say whether each line of a script parses.
    Check,
    /// Turn the lines of a script.
    Turn(Filter),
    /// Answer the lines of a driver, with these constants of the timers.
    Host(Constants),
}

const ABOUT: &str = "Runs scripts of wb, a shared whiteboard";

const VERSION: &str = "0.1.0";

const NO_TASK: &str = "a command is missing";

const WRONG_CONSTANTS: &str = "the value of '--tuning' is four numbers from 1 to 16, as in 2,2,1,1";

const SCRIPT_HELP: &str = "\
A script is lines of words, read from standard input. This one, lost.txt, opens a board
for member 1, with room for 16 drawops, and loses the second of three drawops that
source 7 made on page 1 of creator 7:

    board 1 16 1 42
    draw 7 7/1 1 10 line 0 0 4 0 *
    draw 7 7/1 3 12 line 0 2 4 2 *
    look 7 1
    tick 400000
    draw 7 7/1 2 11 text 0 1 \"found\"
    show 7 1 5 3

The look finds a number missing and sets its timer; at 0.4 seconds the timer is due, and
the host asks all others; one of them repairs. So `wb run < lost.txt | wb words`
prints the counts of the first batch (new, known, clashing and left over), the look, what
is sent, the second batch, and the page on a canvas 5 cells wide and 3 high:

    batch 2 0 0 0
    look 1
    send request 1 7 7/1 2
    batch 1 0 0 0
    *****
    found
    *****

`wb run` takes datagrams in words, as `wb hex --help` shows them, and in hexadecimal, after
`datagram`. It prints them in hexadecimal, after `send`; `wb words` turns these into words.

The line `gaps 7 1` prints the numbers that are missing on that page, as ranges; `report 7 1`
prints the greatest number of each source there, `pages` the pages that were drawn on, and
`session 7 1` the session message of the page. `distance 7 5000` says that source 7 is 5,000
microseconds away, and `tuning 2 8 1 6` gives the timers other constants.

Lines that are blank or begin with # are skipped.

A program that holds a session in real time talks to `wb host`: `wb host --help` and docs/HOST.md
say how.";

fn run_command<'a>(alloc: Global) -> Result<Command<'a>, AllocError>
    ensures { IfOk result (IsMade run_app) }
{
    let workers = Arg::new(alloc, "workers")
        .long("workers")
        .value_name("N")
        .help(
            "Takes each batch of arrivals with N workers, 1 to 8, instead of those that the script's board names. One is the fastest",
        )
        .value_parser(value_parser!(u32).range(1..=i64::from(MAX_WORKERS)))
        .action(ArgAction::Set);
    Command::new(alloc, "run")
        .about("Runs a script from standard input, and prints what it shows")
        .after_help(SCRIPT_HELP)
        .arg(workers)
}

const HEX_HELP: &str = "\
A datagram in words is a line such as

    draw 7 7/1 1 10 line 0 1 4 1 *
    draw 8 7/1 1 20 text 1 1 \"say \\\"hi\\\"\"
    draw 8 7/1 2 30 delete 7 1
    request 8 7 7/4 2

The first is: source 7 draws, on page 1 of creator 7, its drawop number 1, at time 10,
a line from (0, 1) to (4, 1) of stars. Such a line becomes `arrive` of a drawop, or `hear`
of any other datagram, with its bytes. All other lines stay as they are. If a word is
wrong, the fault has its line and its place; with --keep-going a comment with the fault
replaces that line.
A line of over 65,536 bytes ends the filter in any case: `endless`.";

const WORDS_HELP: &str = "\
Lines of `arrive`, `hear` or `send` with a datagram in hexadecimal become the datagram in
words, as `wb hex --help` shows them; what was sent stays after the word `send`. All other
lines stay as they are. With --keep-going a comment with the fault replaces a line whose
word after `arrive`, `hear` or `send` is not a datagram in hexadecimal. A line of over
65,536 bytes ends the filter in any case: `endless`.";

fn filter_command<'a>(
    alloc: Global,
    name: &'static str,
    about: &'static str,
    help: &'static str,
) -> Result<Command<'a>, AllocError>
    ensures { IfOk result (IsMade (filter_app name.entry.now)) }
{
    let keeps_going = Arg::new(alloc, "keep-going")
        .long("keep-going")
        .help("Writes a comment with the fault for a line that can't be turned, and goes on")
        .action(ArgAction::SetTrue);
    Command::new(alloc, name)
        .about(about)
        .after_help(help)
        .arg(keeps_going)
}

fn check_command<'a>(alloc: Global) -> Command<'a>
    ensures { IsMade (new_app (codes "check")) result }
{
    Command::new(alloc, "check").about("Says `ok` and the number of lines, where each line parses")
}

fn hex_command<'a>(alloc: Global) -> Result<Command<'a>, AllocError>
    ensures { IfOk result (IsMade (filter_app (codes "hex"))) }
{
    filter_command(
        alloc,
        "hex",
        "Copies a script, with its datagrams in words turned into hexadecimal",
        HEX_HELP,
    )
}

fn words_command<'a>(alloc: Global) -> Result<Command<'a>, AllocError>
    ensures { IfOk result (IsMade (filter_app (codes "words"))) }
{
    filter_command(
        alloc,
        "words",
        "Copies lines, with their datagrams in hexadecimal turned into words",
        WORDS_HELP,
    )
}

const HOST_HELP: &str = "\
A driver, in any language, has the sockets, the clock and the screen. It starts `wb host`, writes
lines to it and reads what they give. Each line is answered by one block: what it prints, and then
`ok DUE`, with the next moment at which a timer is due in microseconds, or `never`; or
`refused FAULT`, and then nothing has changed. Among the lines are those of a script, and:

    datagram HEX               a datagram that came in, whichever it is; or the datagram in words
    say WORDS                  a datagram of ours: what to send is printed as `send HEX`
    next C N                   the number for our next drawop on a page
    view C N                   what a page shows, in words
    known                      the pages that were heard of
    ask C N SOURCE NUMBER      asks the others for one drawop
    stop C N SOURCE NUMBER     gives up asking for it

Or the host is self-managing: it decides what to ask for and to report. A driver then writes:

    keep RATE LISTEN           once: all reports take RATE bytes a second
    came NOW HEX               a datagram came in at the moment NOW
    tick NOW                   time is NOW: to be written when it comes to DUE
    add NOW TIME C/N DRAWING   the user draws, as `line 0 0 4 0 *`

Or the host is judged: it decides besides which datagrams it takes. WALL is the time of day, ORIGIN
is PLACE or PLACE@OWNER, and a driver writes:

    judge NOW RATE LISTEN WALL HERE STRANGERS    once, in place of `keep`
    held LINE                  a line of its record, before all others
    came NOW ORIGIN HEX        a datagram came in from there
    tick NOW                   as above
    add NOW C/N DRAWING        the user draws
    wall NOW WALL              the time of day
    gone NOW ORIGIN            whoever spoke from there is gone
    members                    which numbers were heard lately
    list MOST                  the first pages that are drawn on

docs/HOST.md says what to write when.";

fn host_command<'a>(alloc: Global) -> Result<Command<'a>, AllocError>
    ensures { IfOk result (IsMade host_app) }
{
    let tuning = Arg::new(alloc, "tuning")
        .long("tuning")
        .value_name("C1,C2,D1,D2")
        .help("The constants of the timers, 1 to 16 each; 2,2,1,1 if none are given")
        .action(ArgAction::Set);
    Command::new(alloc, "host")
        .about("Answers the lines of a program, which has the sockets, the clock and the screen")
        .after_help(HOST_HELP)
        .arg(tuning)
}

/// The program without its subcommands. It is handed no name in front of its words, so the name
/// that usage lines begin with is given here.
fn bare_command<'a>(alloc: Global) -> Result<Command<'a>, AllocError>
    ensures { IfOk result (IsMade bare_app) }
{
    Command::new(alloc, "wb")
        .about(ABOUT)
        .version(VERSION)
        .after_help(SCRIPT_HELP)
        .no_binary_name(true)
        .subcommand_required(true)
        .bin_name("wb")
}

/// Adds a subcommand. One that could not be made is answered here, so that an early return drops
/// one command and not two.
fn with_subcommand<'a>(
    program: Command<'a>,
    subcommand: Result<Command<'a>, AllocError>,
) -> Result<Command<'a>, AllocError>
    ensures { (app : App) (below : App) → IsMade app program.entry → IfOk subcommand.entry (IsMade below)
        → IfOk result (IsMade (with_subcommand app below.top)) }
{
    let subcommand = subcommand?;
    program.subcommand(subcommand)
}

fn command<'a>(alloc: Global) -> Result<Command<'a>, AllocError>
    ensures { IfOk result (IsMade command_line) }
{
    let program = with_subcommand(bare_command(alloc)?, run_command(alloc))?;
    let program = with_subcommand(program, Ok(check_command(alloc)))?;
    let program = with_subcommand(program, hex_command(alloc))?;
    let program = with_subcommand(program, words_command(alloc))?;
    let program = with_subcommand(program, host_command(alloc))?;
    Ok(program)
}

/// The task of a run.
fn run_task<'a>(options: &ArgMatches<'a>) -> Task
    ensures { IsAsked (codes "run") (rows_of (found_of options.now)) result }
{
    Task::Run {
        workers: options.get_one::<u32>("workers"),
    }
}

/// The task of a filter.
fn filter_task<'a>(direction: Direction, options: &ArgMatches<'a>) -> Task
    ensures { IsAsked (filter_name direction) (rows_of (found_of options.now)) result }
{
    Task::Turn(Filter {
        direction,
        keeps_going: options.get_flag("keep-going"),
    })
}

/// The task of a host: its constants are those of a script if no word gives others.
fn host_task<'a>(options: &ArgMatches<'a>) -> Result<Task, WrongConstants>
    ensures { MatchResult result (λ task. IsAsked (codes "host") (rows_of (found_of options.now)) task)
        (λ _. (task : Task) → IsAsked (codes "host") (rows_of (found_of options.now)) task → ⊥) }
{
    let constants = options.try_get_one::<Constants>("tuning")?;
    Ok(Task::Host(constants.unwrap_or_default()))
}

/// The task of a command, by its name and its options; or why they ask for none.
fn named_task<'a>(name: &str, options: &ArgMatches<'a>) -> Result<Task, (ErrorKind, &'static str)>
    ensures asked { IfOk result (IsAsked name.now (rows_of (found_of options.now))) }
    ensures refused { OnErr result
        ((task : Task) → IsAsked name.now (rows_of (found_of options.now)) task → ⊥) }
{
    if name == "run" {
        Ok(run_task(options))
    } else if name == "check" {
        Ok(Task::Check)
    } else if name == "hex" {
        Ok(filter_task(Direction::Hex, options))
    } else if name == "words" {
        Ok(filter_task(Direction::Words, options))
    } else if name == "host" {
        match host_task(options) {
            Ok(task) => Ok(task),
            Err(WrongConstants) => Err((ErrorKind::ValueValidation, WRONG_CONSTANTS)),
        }
    } else {
        Err((ErrorKind::InvalidSubcommand, NO_TASK))
    }
}

/// The task that what was found of the words asks for; or why they ask for none.
fn found_task<'a>(matches: &ArgMatches<'a>) -> Result<Task, (ErrorKind, &'static str)>
    ensures asked { IfOk result (IsTaskFound (subcommand_rows_of matches.now)) }
    ensures refused { OnErr result
        ((task : Task) → IsTaskFound (subcommand_rows_of matches.now) task → ⊥) }
{
    match matches.subcommand() {
        Some((name, options)) => named_task(name, options),
        None => Err((ErrorKind::MissingSubcommand, NO_TASK)),
    }
}

/// The task that the words after the program's name ask for. The error has the parser's text: of
/// help, if it was asked for, or else of what is wrong with the words.
pub fn task_of<'a>(alloc: Global, words: &'a [&'a str]) -> Result<Task, Error>
    ensures asked { IfOk result (AsksTask (map (λ word. word.now) words.entry.now)) }
    ensures refused { IfErr result (λ e. (kind_of e ≡ ErrorKind.OutOfMemory)
        ⊎ ((task : Task) → AsksTask (map (λ word. word.now) words.entry.now) task → ⊥)) }
{
    let mut program = command(alloc)?;
    let matches = program.try_get_matches_from_mut(words)?;
    match found_task(&matches) {
        Ok(task) => Ok(task),
        Err((kind, text)) => {
            let error = program.error(kind, text)?;
            Err(error)
        }
    }
}
