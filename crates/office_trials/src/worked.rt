//! One script over maps and over a database, by streams, as a list of commands, and request by
//! request: both answer it equally, and hold the same after it.

use crate::asking::{Bench, Script, answers_to, bytes_of, in_maps, same, script_of, state_of};
use crate::files::{Work, after};
use crate::streams::serve_worked;
use cabinet_core::{PartCode, RecordCommand};
use office_desk::office::Office;
use office_http::{Form, Front, answer_of, command_of, next_request};
use office_machine::command::Command;
use office_tables_shelf::rows::Table;
use office_tables_shelf::shelf::Shelf;
use signal_records::PhaseList;
use std::process::Abort;

/// How many requests come by streams, and how many before those that come one by one.
const STREAMED: usize = 7;

const LISTED: usize = 19;

/// How many committed rows (the first two digits) and draft rows (the last two) are written before
/// the requests that come one by one, and by each of these. First come a plan of eleven rows and a
/// draft of two, which is abandoned; then a draft of six, four of them changed; in the last draft a
/// row is removed, put back twice as it is committed, and removed. A draft that is dropped counts
/// each of its rows.
static WRITES: [u64; 14] = [11_26, 0, 4, 0, 0, 4_04, 0, 1, 1, 0, 1, 0, 0, 1_01];

/// A command; one of the register is made again from its record.
fn of_record(command: Command) -> Command {
    let record = match command {
        Command::Record(record) => record,
        other => return other,
    };
    match record {
        RecordCommand::Inspect { id, inspection } => Command::inspect(id, inspection),
        RecordCommand::OpenOrder { id, opening } => Command::open_order(id, opening),
        RecordCommand::UsePart { id, line } => Command::use_part(id, line),
        RecordCommand::CloseOrder { id, order, closing } => {
            Command::close_order(id, order, closing)
        }
        RecordCommand::Receive { delivery } => Command::receive(delivery),
    }
}

/// The commands that requests ask for, with the forms of their answers.
fn commands(rt: &Bench<impl Abort>, requests: &[&'static str]) -> (Vec<Command>, Vec<Form>) {
    let (mut commands, mut forms) = (Vec::new(rt.1), Vec::new(rt.1));
    for request in requests {
        let bytes = bytes_of(rt, &[*request]);
        let asked = match next_request(bytes.as_bytes()) {
            Front::Whole { request, .. } => command_of(rt.1, &request).ok(),
            _ => None,
        };
        let asked = asked.expect(rt, "a command");
        commands.push(of_record(asked.command)).expect(rt, "memory");
        forms.push(asked.form).expect(rt, "memory");
    }
    (commands, forms)
}

/// Runs some requests as one list of commands.
fn run_list<S: Shelf>(rt: &Bench<impl Abort>, office: &mut Office<S>, script: &Script) {
    let listed = script.requests.get(STREAMED..LISTED).unwrap_or(&[]);
    let (commands, forms) = commands(rt, listed);
    let replies = office.run_all(rt.1, &commands).ok().expect(rt, "memory");
    let answers = script.answers.iter().skip(STREAMED);
    assert!(rt; replies.len() == LISTED - STREAMED, "the replies of a list");
    for ((reply, form), answer) in replies.iter().zip(&forms).zip(answers) {
        let came = answer_of(rt.1, reply, *form).expect(rt, "memory");
        same(rt, "an answer of a list", answer, &came);
    }
}

/// Makes the other requests one by one, and counts the rows that each writes.
fn run_counted<S: Shelf>(rt: &Bench<impl Abort>, office: &mut Office<S>, script: &Script) {
    let mut wanted = WRITES[0];
    let steps = script.requests.iter().zip(&script.answers).skip(LISTED);
    for ((request, answer), writes) in steps.zip(&WRITES[1..]) {
        same(rt, request, answer, &answers_to(rt, office, &[*request]));
        wanted = wanted.saturating_add(*writes);
        let shelf = office.shelf();
        let timing = shelf.writes(Table::Timing).saturating_mul(100);
        let came = timing.saturating_add(shelf.writes(Table::Draft));
        assert!(rt; came == wanted, "the rows that {request} writes: {came}");
    }
}

/// Runs the script by an office with new tables, its streams by reads of at most `most` bytes, and
/// gives what the office shows then.
pub(crate) fn play_all<S: Shelf>(
    rt: &Bench<impl Abort>,
    office: &mut Office<S>,
    script: &Script,
    most: usize,
) -> Vec<u8> {
    serve_worked(rt, office, &script.requests, most);
    run_list(rt, office, script);
    run_counted(rt, office, script);
    state_of(rt, office)
}

/// How many relays there are on a shelf.
fn relays<S: Shelf>(rt: &Bench<impl Abort>, shelf: &mut S) -> u32 {
    let part = PartCode::new(rt.1, b"RELAY").ok().expect(rt, "memory");
    match shelf.hand(rt.1, &part.expect(rt, "a part")) {
        Ok(Some(hand)) => hand.get(),
        _ => 0,
    }
}

#[test]
fn both_kinds_of_tables_answer_equally(host: HostRuntime) {
    let rt = (&host, host.alloc());
    let script = script_of(&rt, usize::MAX);
    assert!(rt; script.requests.len() == LISTED + WRITES.len() - 1);
    for most in [usize::MAX, 1] {
        let mut office = in_maps(&rt);
        let wanted = play_all(&rt, &mut office, &script, most);
        let (came, _) = after(&rt, b"", Work::Script(&script, most));
        same(&rt, "what is there", &wanted, &came);
        assert!(rt; relays(&rt, &mut office.into_shelf()) == 999_999_997);
    }
    let mates = PhaseList::new(rt.1, &[6, 2]).ok().expect(&rt, "memory");
    assert!(rt; mates.expect(&rt, "phases").as_slice().len() == 2);
}
