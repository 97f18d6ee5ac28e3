//! What the help says of the commands and of their arguments. Nothing is proved of these texts.

/// What the help says of the statuses of a command that reads no CSV file.
const STATUSES: &str = "Status: 0 done, 1 a fault, 2 refused words";

/// What the help says of the records of a plan, and of the statuses of a command that reads a plan.
const PLAN_RECORDS: &str = "\
A CSV file may be -, which is standard input.
Records of CSV, the fields in this order:
  phase,PHASE,RING,MIN_GREEN,PASSAGE,MAX1,YELLOW,RED,MATES
  phase, the same, then WALK,CLEAR,WIDTH,SETBACK,SHORT,LEAD
  seq,SEQUENCE,RING,PHASES
  split,SPLIT,PHASE,TIME,MODE,COORD
  pattern,PATTERN,CYCLE,OFFSET,SPLIT,SEQUENCE
Seconds: MIN_GREEN, MAX1, WALK, CLEAR, LEAD, TIME, CYCLE, OFFSET
Tenths of a second: PASSAGE, YELLOW, RED. Tenths of a foot: WIDTH, SETBACK
MATES, PHASES: numbers with one space between them. SHORT, COORD: 0 or 1. MODE: 2 to 7

Status: 0 done, 1 a fault or a bad record, 2 refused words,
3 the plan breaks a rule (verify-file, edit --commit), 4 the plans differ (compare)";

/// What the help says of the records that change a plan, and of the statuses of `edit`.
const PLAN_CHANGES: &str = "\
CSV may be -, which is standard input.
Records of CSV: those of a plan, which `verify-file --help` lists, and
  remove,phase,PHASE
  remove,seq,SEQUENCE,RING
  remove,split,SPLIT,PHASE
  remove,pattern,PATTERN

Status: 0 done, 1 a fault or a bad record, 2 refused words,
3 a draft that was to be committed breaks a rule";

/// What the help says of the records of cabinets, and of the statuses of `import`.
const CABINET_RECORDS: &str = "\
CSV may be -, which is standard input.
Records of CSV, the fields in this order:
  inspection,ID,NUMBER,DAY,CLERK,TEXT
  order,ID,NUMBER,DAY,CLERK,TEXT
  use,ID,ORDER,LINE,PART,COUNT
  close,ID,ORDER,DAY,CLERK
  delivery,PART,NUMBER,DAY,COUNT
DAY: YYYY-MM-DD. PART: a part's code. COUNT: pieces

Status: 0 done, 1 a fault, a bad or a refused record (then none is taken), 2 refused words";

/// What the help of a command says after its arguments.
pub(crate) fn ending_of(command: &str) -> &'static str {
    match command {
        "verify-file" | "compare" | "diagram" | "page" => PLAN_RECORDS,
        "edit" => PLAN_CHANGES,
        "import" => CABINET_RECORDS,
        _ => STATUSES,
    }
}

/// What the help says of the commands and of their arguments: a line for each,
/// `COMMAND itself: TEXT` or `COMMAND ARGUMENT: TEXT`. A line `any ARGUMENT: TEXT` is for each
/// command that has no such line of its own, and comes after those: the first that fits holds.
const HELP: &str = "\
batch itself: Reads HTTP requests from standard input, at most 1,000,000, and writes the answers \
to standard output
serve itself: Listens on 127.0.0.1 and answers HTTP requests, one connection at a time
sheet itself: Prints the timing sheet of an intersection's committed plan; times in seconds, \
distances in feet
overdue itself: Prints the intersections that were never inspected, or whose inspection was due \
before a day, and how many they are
add itself: Adds an intersection; says whether it is new, or is there already with the same \
values
list itself: Prints all intersections: the days between inspections, the revision, the state and \
owner of the draft, and how many rows are committed
stock itself: Prints how many of each part are on hand, of all parts that were ever delivered; or \
of one part what is on hand, its deliveries, its uses, and the next free delivery number
orders itself: Prints the open work orders of an intersection, or of all intersections
used itself: Prints what was used of all parts, or of one: with the intersection and the work \
order, open or closed, and how many pieces of each part
work itself: Prints what was inspected, opened, used and closed between two days, in all \
intersections, by day
cabinet itself: Prints the records of an intersection's cabinet: when its next inspection is due, \
its inspections, and its work orders with their used parts and closings
pages itself: Writes the pages of all intersections, and an index of them with the open orders \
and the stock, into a folder that a browser shows
verify-file itself: Checks the timing plan in a CSV file against the fourteen rules; ends with \
status 3 if it breaks one
migrate itself: Brings a file of an older version to today's; says how many rows were rewritten
backup itself: Copies an office into another file, which is whole without a log; the office's own \
log is copied into its file before
import itself: Takes the cabinet records of a CSV file in turn, all of them or none; says how \
many are new
export itself: Prints the committed timing plan of an intersection as CSV, or its draft, or its \
cabinet; or writes the lists, all plans and all cabinets into a folder
edit itself: Changes a timing plan by a CSV file, in a draft that stays open; prints the rules \
that the draft breaks
abandon itself: Drops the draft of an intersection, whoever holds it
compare itself: Prints the differences between two timing plans, or what a draft changes; ends \
with status 4 if there are any
diagram itself: Draws a pattern as SVG: the phases of each ring over the seconds of the cycle
page itself: Prints an intersection as one HTML page: its plan with pictures of all patterns, its \
draft and its cabinet; or the plan of a file
batch db: The SQLite file of the tables; it is made if there is none. Without --db the tables are \
in memory and are gone at the end
serve db: The SQLite file of the tables; it is made if there is none. Without --db the tables are \
in memory and are gone at the end
add db: The SQLite file of the tables; it is made if there is none
compare db: The SQLite file of the tables: compares the committed plan of an intersection with \
its draft, or with the plan of OTHER
diagram db: The SQLite file of the tables: draws a pattern of a committed plan, with ID and \
PATTERN
page db: The SQLite file of the tables: shows an intersection, with ID
any db: The SQLite file of the tables; it must be there
orders ID: The intersection's number, 1 to 9999; without it all are printed
export ID: The intersection's number, 1 to 9999; not with --all
diagram ID: The intersection's number, 1 to 9999; with --file the pattern's
page ID: The intersection's number, 1 to 9999; not with --file
any ID: The intersection's number, 1 to 9999
verify-file CSV: The CSV file: one record for each phase, sequence, split and pattern
import CSV: The CSV file: one record for each inspection, order, used part, closing, delivery
any CSV: The CSV file: one record for each row to put or remove. With --commit it may be left \
out; the clerk's draft is then committed as it is
any DAY: The day, as YYYY-MM-DD, from 1970-01-01 to 2199-12-31
any INTERVAL: Days from one inspection of its cabinet to the next, 1 to 3650
any NAME: Its name, 1 to 120 bytes without control characters
stock PART: The part's code, 1 to 20 of A to Z, 0 to 9 and -; without it all are printed. Not with \
--csv
any PART: The part's code, 1 to 20 of A to Z, 0 to 9 and -; without it all are printed
any DIR: The folder, which is made if there is none
any TO: The file of the copy; none with this name, or with a log, may be there
any PLAN: The CSV file of a plan; with --db the intersection's number, 1 to 9999
any OTHER: The CSV file of the other plan; with --db it may be left out
any PATTERN: The pattern's number, 1 to 48; not with --file
any wait: How long to wait where another run has FILE open, 0 to 3600 (default 10)
any port: The TCP port, 1 to 65535
any count: How many connections to serve before the program ends, 1 to 1000000 (default 1000000); \
each may send at most 10,000 requests
any first: List at most N intersections, 1 to 9999, those with the lowest numbers; without it all \
are listed
any day: Mark the intersections that are overdue for inspection on this day, YYYY-MM-DD, and put \
them first
used from: What was used for orders that were closed on this day or later, or are open and were \
opened then; YYYY-MM-DD
used to: What was used for orders that were closed on this day or before, or are open and were \
opened then; YYYY-MM-DD
any from: The first day, as YYYY-MM-DD
any to: The last day, as YYYY-MM-DD
any by-age: Print the orders that were opened on this day or before, the oldest first, with their \
age in days; YYYY-MM-DD
any until: Take none where one is of a later day, as YYYY-MM-DD; a used part has no day
abandon clerk: Who drops it, 1 to 40 bytes
any clerk: Who edits, 1 to 40 bytes; the draft of another clerk is not touched
page file: The CSV file of a plan, to show that alone
any file: The CSV file of a plan, with the pattern's number alone
compare csv: Print the changes as CSV, as `edit` takes them
any csv: Print as CSV, without heading or count
verify-file explain: Also print, for each broken rule, the numbers that break it, and each bad \
record with its line, what stands there and what may stand there
edit explain: Also print, for each broken rule, the numbers that break it, each bad record with \
its line, what stands there and what may stand there, who owns the draft of another clerk, and up \
to ten changes of a commit
any explain: Also print each bad record, with its line, what stands there and what may stand there
any headings: Print first a record with the names of the fields
any advise: Also print, after the broken rules, what breaks none and may surprise; the status stays
any padded: Drop the empty fields with which spreadsheets pad the records of CSV, and records of \
nothing but commas
any revision: Change nothing, with status 1, unless the committed revision is N, 0 to 999999
any force: Replace the file TO
any check: Take nothing; print each record that would be refused, with its line and what is \
there. Status 1 if there is one
any draft: Print the draft
any cabinet: Print the cabinet
any all: Write intersections.csv, stock.csv and, for each ID, ID-plan.csv and ID-cabinet.csv into \
a folder, which is made if there is none
any replace: Make the draft exactly the plan of CSV: remove the rows that CSV does not have. \
Without it they stay
any commit: Commit the draft if it breaks no rule; ends with status 3 if it breaks one. A plan \
that would not change is not committed
";

/// What the help says of an argument of a command, or of the command for `itself`; empty if it says
/// nothing.
pub(crate) fn help_of(command: &str, argument: &str) -> &'static str {
    for line in HELP.lines() {
        if let Some((subject, text)) = line.split_once(": ") {
            if let Some((own, of)) = subject.split_once(" ") {
                if *of == *argument && (*own == *command || *own == *"any") {
                    return text;
                }
            }
        }
    }
    ""
}

/// What the help says of a command.
pub(crate) fn about_of(command: &str) -> &'static str {
    help_of(command, "itself")
}
