//! The program's arguments.

use crate::session::{Options, Orders, Wanted};
use cics_names::NoMemory;
use clap::builder::ValueParser;
use clap::error::ErrorKind;
use clap::{Arg, ArgAction, ArgMatches, Command, Error};
use std::alloc::{AllocError, Global};

/// The version of the product. `tools/door/version.txt` has it too.
const VERSION: &str = "1.0.0";

const ABOUT: &str = "\
Runs a script of CICS commands on a region in memory.

A script defines and loads files, attaches tasks, issues their commands and sets
the clock. The journal goes to standard output: each answer, then the commands
that resume and the tasks that time out. The program then lists all files and
queues, and the tasks that have not ended.";

const MORE: &str = "\
The replay is the listing again, without tasks. It applies the history to what
was loaded, without what backed-out units did to recoverable files and queues.

The serial run is a script that can be run. It begins with the definitions and
loads. What committed units of work did to recoverable files and queues follows,
one unit after the other in commit order, and then the open units. It leaves
recoverable files and queues as the run has left them.

The picture has a row for each line of the journal, and a lane for each of the
first sixteen tasks. Marks in a lane show events of its task, and bars show its
units of work. An arrow goes from each wait to the task that is waited for, if
both have lanes. The picture is written at the end of the run.

The page shows the run line by line in a browser: at each step what stands, who
changed it and what it was before, who holds what, and who waits for whom.

With --reads the output tells what reads without a lock saw and missed, with the
numbers of the lines. DIRTY READ: a read saw what wasn't committed. LOST UPDATE: a
task replaced a change that its last look had missed. READ SKEW: a turn saw one
part of a unit and missed another. WRITE SKEW: two turns each changed what the
other one had only looked at.

The report on the orders has what all endings share, and then each ending: how
many orders and serial orders lead to it, the first of these orders, and the rest
of the ending. In a serial order each turn of a task, up to SYNCPOINT or its end,
is over before another task gives a line. AS WRITTEN marks the ending of the
lines in the script's own order. The script of an ending can be run: it gives the
lines in its first order.

Exit status:
  0  all that was asked for was done: a run, a check, a picture, a report on
     orders, the help or the version
  1  a line or a definition has a fault: the output ends with it, or with --check
     standard error says it of each line
  2  bad arguments, a script that can't be opened, or no ending has this number
  3  no memory
  4  a read or a write failed, the script has more than 16,777,216 bytes, or a
     picture or a page would show more than 100,000 lines of the journal, or a page
     would have more than 64 MiB of them
  5  with --strict: the whole script was run, and an event was refused, a task was
     abended by a condition or a time-out, or a task still waits at the end; with
     --reads also a finding that doesn't end in COMMITTED; with --orders: an ending
     has a deadlock, or no serial order leads to it

Each option, on examples of the repository:
  cicsrun examples/lost-update.cics
  cicsrun --no-list examples/lost-update.cics
  cicsrun --replay examples/rollback.cics
  cicsrun --serial examples/turns.cics
  cicsrun --with-script examples/turns.cics
  cicsrun --strict examples/deadlock.cics
  cicsrun --why examples/race.cics
  cicsrun --check examples/race.cics
  cicsrun --reads examples/lost-update.cics
  cicsrun --picture examples/deadlock.cics > deadlock.svg
  cicsrun --page examples/deadlock.cics > deadlock.html
  cicsrun --orders --limit 5 examples/race.cics
  cicsrun --orders --told examples/race.cics
  cicsrun --orders --told --ending 2 examples/race.cics
  cicsrun --orders --progress examples/race.cics
The language of a script: the page cicsrun(5), or docs/LANGUAGE.md.

Example. T2 waits for the record until T1's rollback undoes its delete:

cicsrun <<END
DEFINE FILE('ACCT') KEYLENGTH(4) RECOVERABLE
LOAD FILE('ACCT') FROM('0001 100')
ATTACH T1 TRANSID('MOVE')
ATTACH T2 TRANSID('LOOK')
T1 EXEC CICS DELETE FILE('ACCT') RIDFLD('0001')
T2 EXEC CICS READ FILE('ACCT') RIDFLD('0001') UPDATE
T1 EXEC CICS SYNCPOINT ROLLBACK
END";

/// About how many states are followed, if the command line doesn't say.
const STATES: u64 = 30_000;

/// What the help says of that.
const STATES_HELP: &str = "Follow about N states (30000)";

/// The options of a run, and those that go with none of them: the pictures and the check. The first
/// two go with orders too.
static RUNS: [&str; 10] = [
    "strict",
    "reads",
    "no-list",
    "replay",
    "serial",
    "with-script",
    "why",
    "picture",
    "page",
    "check",
];

/// What words ask of a run that reads standard input.
///
/// - `Run`: a run of a script.
/// - `Help`: the help or the version, which is to go to standard output.
/// - `Bad`: nothing of these. The text says what is wrong, and is to go to standard error.
#[derive(Drop)]
pub enum Asked {
    Run(Options),
    Help(String),
    Bad(String),
}

/// What the program is to do.
///
/// - `Run`: a run of a script.
/// - `Check`: what is at fault in the lines of a script, which isn't run.
/// - `Picture`: the picture of a run.
/// - `Page`: a run as a page to step through.
/// - `Orders`: a report on the orders of a script's lines, or one of them as a script. `progress`
///   asks for lines on standard error that say how far the search is.
/// - `Help`: the help or the version, which is to go to standard output.
/// - `Bad`: nothing that the program knows. The text says what is wrong, and is to go to standard
///   error.
#[derive(Drop)]
pub enum Action {
    Run(Wanted),
    Check,
    Picture,
    Page,
    Orders { wanted: Orders, progress: bool },
    Help(String),
    Bad(String),
}

/// A command line: what the program is to do, and the name of the script's file. Without a name the
/// script comes from standard input.
#[derive(Drop)]
pub struct CommandLine {
    pub action: Action,
    pub script: Option<String>,
}

// What is said of words that the program knows and `Asked` has no form for.
const BEYOND: &str = "error: more is asked for than a run of standard input\n";

/// Reads the words of a command line, of which the first is the program's name.
///
/// The options are those of the help. A word that is none names the script's file; `-` is standard
/// input. These are bad:
///
/// - an option that is given twice, and a second file;
/// - `--serial` beside `--with-script`, and any option beside `--picture`, `--page` or `--check`;
/// - `--told`, `--limit`, `--ending` and `--progress` without `--orders`, any other option but
///   `--strict` and `--reads` beside it, and a number that isn't from 1 on;
/// - `--reads` beside `--ending`, and beside `--orders` without `--told`;
/// - an option that the help doesn't have. Behind `--` each word names a file.
///
/// The only error is `NoMemory`.
pub fn read_arguments(alloc: Global, words: Vec<String>) -> Result<CommandLine, NoMemory> {
    match read_words(alloc, &words) {
        Ok(line) => Ok(line),
        Err(error) => told_error(alloc, &error),
    }
}

/// Returns what the words of a command line ask of a run that reads standard input, with no option
/// beyond `Options`. Words that ask for more are bad: `read_arguments` reads them.
pub fn arguments(alloc: Global, words: Vec<String>) -> Result<Asked, NoMemory> {
    let CommandLine { action, script } = read_arguments(alloc, words)?;
    Ok(match action {
        Action::Run(wanted) if script.is_none() && !wanted.goes_beyond() => {
            Asked::Run(wanted.options)
        }
        Action::Help(text) => Asked::Help(text),
        Action::Bad(text) => Asked::Bad(text),
        _ => Asked::Bad(BEYOND.to_string(alloc)?),
    })
}

// Returns what an error asks for. The help and the version are errors too.
fn told_error(alloc: Global, error: &Error) -> Result<CommandLine, NoMemory> {
    let text = error.to_string(alloc)?;
    let action = match error.kind() {
        ErrorKind::DisplayHelp | ErrorKind::DisplayVersion => Action::Help(text),
        ErrorKind::OutOfMemory => return Err(NoMemory),
        _ => Action::Bad(text),
    };
    Ok(CommandLine {
        action,
        script: None,
    })
}

// Returns an option that is given or not, with what the help says of it.
fn flag<'a>(alloc: Global, name: &'a str, help: &'a str) -> Arg<'a> {
    Arg::new(alloc, name)
        .long(name)
        .action(ArgAction::SetTrue)
        .help(help)
}

// Returns an option with a number from 1 on, which belongs to the orders.
fn number<'a>(alloc: Global, name: &'a str, help: &'a str) -> Result<Arg<'a>, AllocError> {
    let number = Arg::new(alloc, name)
        .long(name)
        .value_name("N")
        .value_parser(ValueParser::unsigned(1, u64::MAX))
        .help(help);
    apart_from_runs(number.requires_arg("orders")?)
}

// Returns an option that goes with no option of a run but `--strict` and `--reads`.
fn apart_from_runs<'a>(arg: Arg<'a>) -> Result<Arg<'a>, AllocError> {
    arg.conflicts_with_all(&RUNS[2..])
}

// Returns an option that goes with no option of a run, not even `--strict`.
fn apart_from_options<'a>(arg: Result<Arg<'a>, AllocError>) -> Result<Arg<'a>, AllocError> {
    arg?.conflicts_with_all(&RUNS[..7])
}

// Returns an option that goes with none of the pictures.
fn apart_from_pictures<'a>(arg: Arg<'a>) -> Result<Arg<'a>, AllocError> {
    arg.conflicts_with_all(&RUNS[7..9])
}

// Adds an option to a command line. It takes the results of the calls before: so a row of calls has
// no `?`, which would drop all that was made so far.
fn with<'a>(
    command: Result<Command<'a>, AllocError>,
    arg: Result<Arg<'a>, AllocError>,
) -> Result<Command<'a>, AllocError> {
    let arg = arg?;
    command?.arg(arg)
}

// Adds the options of a report on orders.
fn with_orders<'a>(
    alloc: Global,
    runs: Result<Command<'a>, AllocError>,
) -> Result<Command<'a>, AllocError> {
    let orders = "Print a report on every order of the tasks' lines instead";
    let told = "Tell endings apart by what tasks are answered too";
    let ending = "Print the first order of ending N as a script";
    let progress = "Print on standard error how far the search is";
    let command = with(runs, apart_from_runs(flag(alloc, "orders", orders)));
    let told = orders_flag(flag(alloc, "told", told));
    let command = with(command, wanted_by_reads(told));
    let command = with(command, number(alloc, "limit", STATES_HELP));
    let ending = number(alloc, "ending", ending);
    let command = with(command, apart_from_reads(ending));
    with(command, orders_flag(flag(alloc, "progress", progress)))
}

// Returns a flag that belongs to the orders.
fn orders_flag<'a>(flag: Arg<'a>) -> Result<Arg<'a>, AllocError> {
    apart_from_runs(flag.requires_arg("orders")?)
}

// Returns `--told`, which `--orders --reads` needs.
fn wanted_by_reads<'a>(told: Result<Arg<'a>, AllocError>) -> Result<Arg<'a>, AllocError> {
    told?.required_if_eq_all(&[("orders", "true"), ("reads", "true")])
}

// Returns `--ending`, which goes without `--reads`.
fn apart_from_reads<'a>(ending: Result<Arg<'a>, AllocError>) -> Result<Arg<'a>, AllocError> {
    ending?.conflicts_with("reads")
}

// Adds the options of a run.
fn with_runs<'a>(alloc: Global, command: Command<'a>) -> Result<Command<'a>, AllocError> {
    let serial = "Print the serial run after the listing and the replay";
    let script = "Print each line of the script before its journal lines";
    let script = flag(alloc, "with-script", script).conflicts_with("serial");
    let strict = "End with status 5 if something is amiss";
    let why = "Say why each condition was raised, handled ones too";
    let reads = "Print dirty reads, lost updates and skews";
    let command = command.arg(flag(alloc, "no-list", "Leave out the listing"));
    let replay = flag(alloc, "replay", "Print the replay after the listing");
    let command = with(command, Ok(replay));
    let command = with(command, Ok(flag(alloc, "reads", reads)));
    let command = with(command, Ok(flag(alloc, "serial", serial)));
    let command = with(command, script);
    let command = with(command, Ok(flag(alloc, "strict", strict)));
    with(command, Ok(flag(alloc, "why", why)))
}

// Adds the options that go with no other: the pictures and the check.
fn with_lone_options<'a>(
    alloc: Global,
    command: Result<Command<'a>, AllocError>,
) -> Result<Command<'a>, AllocError> {
    let picture = "Print a picture of the run (SVG) in place of all that";
    let page = "Print a page to step through the run (HTML) instead";
    let check = "Say what is at fault in each line, and run nothing";
    let picture = Ok(flag(alloc, "picture", picture));
    let page = flag(alloc, "page", page).conflicts_with("picture");
    let check = apart_from_pictures(flag(alloc, "check", check));
    let command = with(command, apart_from_options(picture));
    let command = with(command, apart_from_options(page));
    with(command, apart_from_options(check))
}

// Returns the command line, with its options in the order of the help.
fn command<'a>(alloc: Global) -> Result<Command<'a>, AllocError> {
    let named = Command::new(alloc, "cicsrun")
        .version(VERSION)
        .about(ABOUT)
        .after_help(MORE);
    let runs = with_lone_options(alloc, with_runs(alloc, named));
    let command = with_orders(alloc, runs);
    let script = Arg::new(alloc, "script")
        .value_name("SCRIPT")
        .help("The script's file; without it, or for -, standard input");
    with(command, Ok(script))
}

fn read_words(alloc: Global, words: &[String]) -> Result<CommandLine, Error> {
    let matches = command(alloc)?.try_get_matches_from(words)?;
    let script = match matches.get_str("script") {
        None | Some("-") => None,
        Some(name) => Some(name.to_string(alloc)?),
    };
    Ok(CommandLine {
        action: chosen(&matches),
        script,
    })
}

// Returns what the options that were given ask for.
fn chosen(matches: &ArgMatches) -> Action {
    if matches.get_flag("check") {
        return Action::Check;
    }
    if matches.get_flag("picture") {
        return Action::Picture;
    }
    if matches.get_flag("page") {
        return Action::Page;
    }
    if matches.get_flag("orders") {
        let wanted = Orders {
            told: matches.get_flag("told"),
            limit: matches.get_one("limit").unwrap_or(STATES),
            ending: matches.get_one("ending"),
            strict: matches.get_flag("strict"),
            reads: matches.get_flag("reads"),
        };
        let progress = matches.get_flag("progress");
        return Action::Orders { wanted, progress };
    }
    Action::Run(Wanted {
        options: Options {
            replay: matches.get_flag("replay"),
            no_list: matches.get_flag("no-list"),
        },
        reads: matches.get_flag("reads"),
        serial: matches.get_flag("serial"),
        with_script: matches.get_flag("with-script"),
        strict: matches.get_flag("strict"),
        why: matches.get_flag("why"),
    })
}
