//! The commands of the program, with their arguments.

ghost use Rattle.std.specs.Prelude.{◌≡◌, find, map, option_map};
ghost use Rattle.std.specs.Str.{bytes_eq};
ghost use Rattle.signal_office_line.specs.CommandLine.{commands, named_in, usage_as};

use crate::arguments::{Argument, Form, Given, Range, Usage, command_of};
use clap::Command;
use std::alloc::{AllocError, Global};

/// The number of an intersection; also how many are listed at most.
pub(crate) const IDS: Range = Range(1, 9_999);

/// The number of a pattern.
pub(crate) const PATTERNS: Range = Range(1, 48);

/// The days from one inspection to the next.
pub(crate) const INTERVALS: Range = Range(1, 3_650);

/// The ports of TCP.
pub(crate) const PORTS: Range = Range(1, 65_535);

/// How many connections a server serves.
pub(crate) const COUNTS: Range = Range(1, 1_000_000);

/// How often a plan was committed.
pub(crate) const REVISIONS: Range = Range(0, 999_999);

/// For how many seconds a file is waited for.
pub(crate) const WAITS: Range = Range(0, 3_600);

// The arguments of the commands. Several have one name where commands require it differently.
const DB: Argument = Argument("db", Form::Choice("FILE"), None, Given::Always);

const ANY_DB: Argument = Argument("db", Form::Choice("FILE"), None, Given::Maybe);

const DB_OR_FILE: Argument = Argument("db", Form::Choice("FILE"), None, Given::InsteadOf("file"));

const WAIT: Argument = Argument("wait", Form::Choice("SECONDS"), Some(WAITS), Given::Maybe);

const ANY_WAIT: Argument = Argument(
    "wait",
    Form::Choice("SECONDS"),
    Some(WAITS),
    Given::With("db"),
);

const WAIT_FOR_DB: Argument = Argument(
    "wait",
    Form::Choice("SECONDS"),
    Some(WAITS),
    Given::Without("file"),
);

const PORT: Argument = Argument("port", Form::Choice("N"), Some(PORTS), Given::Always);

const COUNT: Argument = Argument("count", Form::Choice("N"), Some(COUNTS), Given::Maybe);

const FIRST: Argument = Argument("first", Form::Choice("N"), Some(IDS), Given::Maybe);

const ON_DAY: Argument = Argument("day", Form::Choice("DAY"), None, Given::Maybe);

const UNTIL: Argument = Argument("until", Form::Choice("DAY"), None, Given::Maybe);

const FROM: Argument = Argument("from", Form::Choice("DAY"), None, Given::Always);

const TO_DAY: Argument = Argument("to", Form::Choice("DAY"), None, Given::Always);

const ANY_FROM: Argument = Argument("from", Form::Choice("DAY"), None, Given::With("to"));

const ANY_TO_DAY: Argument = Argument("to", Form::Choice("DAY"), None, Given::With("from"));

const BY_AGE: Argument = Argument("by-age", Form::Choice("DAY"), None, Given::Maybe);

const CLERK: Argument = Argument("clerk", Form::Choice("NAME"), None, Given::Always);

const FILE: Argument = Argument("file", Form::Choice("FILE"), None, Given::Maybe);

const CSV: Argument = Argument("csv", Form::Flag, None, Given::Maybe);

const HEADINGS: Argument = Argument("headings", Form::Flag, None, Given::With("csv"));

const EXPLAIN: Argument = Argument("explain", Form::Flag, None, Given::Maybe);

const REVISION: Argument = Argument("revision", Form::Choice("N"), Some(REVISIONS), Given::Maybe);

const ADVISE: Argument = Argument("advise", Form::Flag, None, Given::Maybe);

const PADDED: Argument = Argument("padded", Form::Flag, None, Given::Maybe);

const FORCE: Argument = Argument("force", Form::Flag, None, Given::Maybe);

const CHECK: Argument = Argument("check", Form::Flag, None, Given::Maybe);

const DRAFT: Argument = Argument("draft", Form::Flag, None, Given::Without("cabinet"));

const CABINET: Argument = Argument("cabinet", Form::Flag, None, Given::Without("all"));

const ALL: Argument = Argument("all", Form::Choice("DIR"), None, Given::Without("draft"));

const REPLACE: Argument = Argument("replace", Form::Flag, None, Given::With("CSV"));

const COMMIT: Argument = Argument("commit", Form::Flag, None, Given::Maybe);

const ID: Argument = Argument("ID", Form::Word, Some(IDS), Given::Always);

const ANY_ID: Argument = Argument("ID", Form::Word, Some(IDS), Given::Maybe);

const ID_OR_ALL: Argument = Argument("ID", Form::Word, Some(IDS), Given::InsteadOf("all"));

const ID_OR_FILE: Argument = Argument("ID", Form::Word, Some(IDS), Given::InsteadOf("file"));

const DAY: Argument = Argument("DAY", Form::Word, None, Given::Always);

const INTERVAL: Argument = Argument("INTERVAL", Form::Word, Some(INTERVALS), Given::Always);

const NAME: Argument = Argument("NAME", Form::Word, None, Given::Always);

const PART: Argument = Argument("PART", Form::Word, None, Given::Maybe);

const PART_ALONE: Argument = Argument("PART", Form::Word, None, Given::Without("csv"));

const DIR: Argument = Argument("DIR", Form::Word, None, Given::Always);

const TO: Argument = Argument("TO", Form::Word, None, Given::Always);

const RECORDS: Argument = Argument("CSV", Form::Word, None, Given::Always);

const RECORDS_OR_COMMIT: Argument = Argument("CSV", Form::Word, None, Given::Unless("commit"));

const PLAN: Argument = Argument("PLAN", Form::Word, None, Given::Always);

const OTHER_OR_DB: Argument = Argument("OTHER", Form::Word, None, Given::Unless("db"));

const PATTERN_OR_FILE: Argument = Argument(
    "PATTERN",
    Form::Word,
    Some(PATTERNS),
    Given::InsteadOf("file"),
);

/// The commands with their arguments, in the order of the help. What the help says of them is in
/// `help.rt`.
const COMMANDS: &[Usage] = &[
    Usage("batch", &[ANY_DB, ANY_WAIT]),
    Usage("serve", &[PORT, COUNT, ANY_DB, ANY_WAIT]),
    Usage("sheet", &[DB, WAIT, ID]),
    Usage("overdue", &[DB, WAIT, FIRST, CSV, HEADINGS, DAY]),
    Usage("add", &[DB, WAIT, ID, INTERVAL, NAME]),
    Usage("list", &[DB, WAIT, CSV, HEADINGS]),
    Usage("stock", &[DB, WAIT, CSV, HEADINGS, PART_ALONE]),
    Usage("orders", &[DB, WAIT, BY_AGE, CSV, HEADINGS, ANY_ID]),
    Usage(
        "used",
        &[DB, WAIT, ANY_FROM, ANY_TO_DAY, CSV, HEADINGS, PART],
    ),
    Usage("work", &[DB, WAIT, FROM, TO_DAY, CSV, HEADINGS]),
    Usage("cabinet", &[DB, WAIT, ID]),
    Usage("pages", &[DB, WAIT, ON_DAY, DIR]),
    Usage("verify-file", &[EXPLAIN, ADVISE, PADDED, RECORDS]),
    Usage("migrate", &[DB, WAIT]),
    Usage("backup", &[DB, WAIT, FORCE, TO]),
    Usage(
        "import",
        &[DB, WAIT, CHECK, UNTIL, EXPLAIN, PADDED, RECORDS],
    ),
    Usage("export", &[DB, WAIT, DRAFT, CABINET, ALL, ID_OR_ALL]),
    Usage(
        "edit",
        &[
            DB,
            WAIT,
            CLERK,
            REPLACE,
            COMMIT,
            REVISION,
            EXPLAIN,
            ADVISE,
            PADDED,
            ID,
            RECORDS_OR_COMMIT,
        ],
    ),
    Usage("abandon", &[DB, WAIT, CLERK, ID]),
    Usage(
        "compare",
        &[ANY_DB, ANY_WAIT, CSV, EXPLAIN, PADDED, PLAN, OTHER_OR_DB],
    ),
    Usage(
        "diagram",
        &[DB_OR_FILE, WAIT_FOR_DB, FILE, PADDED, ID, PATTERN_OR_FILE],
    ),
    Usage("page", &[DB_OR_FILE, WAIT_FOR_DB, FILE, PADDED, ID_OR_FILE]),
];

/// The commands with their arguments. Only this function names the table, since each function that
/// does is slower to prove.
fn commands() -> &'static [Usage]
    ensures { map usage_as result.now ≡ commands }
{
    COMMANDS
}

/// The command of this name, with its arguments, if the program has it.
fn usage_of(name: &str) -> Option<Usage>
    ensures { option_map usage_as result ≡ find (λ command. bytes_eq command.0 name.now) commands }
{
    let usages = commands();
    for usage in usages {
        let Usage(own, ..) = *usage;
        if *own == *name {
            return Some(*usage);
        }
    }
    None
}

/// The command that the first word after the program's name names, and the words from that name on;
/// `None` if there is no such command.
pub(crate) fn named_in<'a>(words: &'a [&'a str]) -> Option<(Usage, &'a [&'a str])>
    ensures { option_map (λ found. (usage_as found.0, map (λ word. word.now) found.1.now)) result
        ≡ named_in (map (λ word. word.now) words.entry.now) }
{
    let name = words.get(1)?;
    let usage = usage_of(name)?;
    Some((usage, words.split_at(1).1))
}

/// The program with all its commands and their help, as `clap` takes it. It has no version, since
/// the program prints its own for `--version`.
pub(crate) fn program<'a>(alloc: Global) -> Result<Command<'a>, AllocError> {
    let mut program = Command::new(alloc, "signal_office")
        .about("The office of a city's traffic signals: timing plans, cabinets and stock")
        .version("")
        .subcommand_required(true);
    for usage in commands() {
        program = program.subcommand(command_of(alloc, usage, true)?)?;
    }
    Ok(program)
}
