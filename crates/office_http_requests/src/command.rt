//! From a request to a command: the order in which its faults are found.
ghost use Rattle.std.specs.Prelude.{◌≡◌};
ghost use Rattle.office_http_requests.specs.FaultsInOrder.{Gives};
ghost use Rattle.office_http_requests.specs.Commands.{added_intersection, asked_at, asked_in_csv, asked_in_json, command_at, edited_by_csv, edited_in, id_and_clerk_in, imported_in};

use crate::fault::AskFault;
use crate::field::Field;
use crate::form::Form;
use crate::route::{Endpoint, Routes};
use crate::{body, csv_body, path, recording, rows};
use office_http_framing::front::Request;
use office_machine::command::Command;
use signal_records::{InterId, Words};
use std::alloc::Global;

/// What a request asks of the office, and the form in which it asks to be answered.
#[derive(Drop)]
pub struct Asked {
    pub command: Command,
    pub form: Form,
}

impl Routes {
    /// What a request asks, or the first fault: no route, another method, a path field from the
    /// left, no JSON object, a key of the body by name, a bad row or a bad record of a CSV text.
    /// `NoMemory` may come in place of any result.
    #[tactic(auto, unfolding(crate::specs::Commands::command_at))]
    pub fn command_of(&self, alloc: Global, request: &Request) -> Result<Asked, AskFault>
        ensures { Gives result
            (command_at request.now.method.now request.now.path.now request.now.body.now) }
    {
        let endpoint = self.endpoint_at(request.path)?;
        if !endpoint.allows(request.method) {
            return Err(AskFault::Method);
        }
        ask_at_endpoint(alloc, endpoint, request.path, request.body)
    }
}

/// What a request asks, or its first fault, by a table of routes that is made only for this call.
pub fn command_of(alloc: Global, request: &Request) -> Result<Asked, AskFault>
    ensures { Gives result
        (command_at request.now.method.now request.now.path.now request.now.body.now) }
{
    let routes = Routes::new(alloc)?;
    routes.command_of(alloc, request)
}

// What a request to an endpoint asks, by its path and its body, or the first fault. The body of a
// GET is not looked at.
#[tactic(auto, unfolding(crate::specs::Commands::asked_at))]
fn ask_at_endpoint(
    alloc: Global,
    endpoint: Endpoint,
    path: &[u8],
    body: &[u8],
) -> Result<Asked, AskFault>
    ensures { Gives result (asked_at endpoint path.now body.now) }
{
    match endpoint {
        Endpoint::AddIntersection => add_intersection(alloc, body),
        Endpoint::State => path::id(path).map(|id| in_json(Command::State { id })),
        Endpoint::Timing => path::id(path).map(|id| in_json(Command::Timing { id })),
        Endpoint::TimingCsv => path::id(path).map(|id| in_csv(Command::Timing { id })),
        Endpoint::Draft => path::id(path).map(|id| in_json(Command::Draft { id })),
        Endpoint::Begin => {
            let (id, clerk) = id_and_clerk(alloc, path, body)?;
            Ok(in_json(Command::Begin { id, clerk }))
        }
        Endpoint::Edit => edit(alloc, path, body),
        Endpoint::EditCsv => edit_csv(alloc, path, body),
        Endpoint::Verify => {
            let (id, clerk) = id_and_clerk(alloc, path, body)?;
            Ok(in_json(Command::Verify { id, clerk }))
        }
        Endpoint::Check => {
            let (id, clerk) = id_and_clerk(alloc, path, body)?;
            Ok(in_json(Command::Check { id, clerk }))
        }
        Endpoint::Commit => {
            let (id, clerk) = id_and_clerk(alloc, path, body)?;
            Ok(in_json(Command::Commit { id, clerk }))
        }
        Endpoint::Reopen => {
            let (id, clerk) = id_and_clerk(alloc, path, body)?;
            Ok(in_json(Command::Reopen { id, clerk }))
        }
        Endpoint::Abandon => {
            let (id, clerk) = id_and_clerk(alloc, path, body)?;
            Ok(in_json(Command::Abandon { id, clerk }))
        }
        Endpoint::Record(kind) => {
            let command = recording::command_of(alloc, kind, path, body)?;
            Ok(in_json(Command::Record(command)))
        }
        Endpoint::Import => import(alloc, body),
        Endpoint::Cabinet => path::id(path).map(|id| in_json(Command::Cabinet { id })),
        Endpoint::CabinetCsv => path::id(path).map(|id| in_csv(Command::Cabinet { id })),
        Endpoint::OpenOrders => path::id(path).map(|id| in_json(Command::OpenOrders { id })),
        Endpoint::Stock => Ok(in_json(Command::Stock)),
        Endpoint::Overdue => path::day(path).map(|day| in_json(Command::Overdue { day })),
    }
}

// A command whose answer is JSON.
fn in_json(command: Command) -> Asked
    ensures { result ≡ asked_in_json command }
{
    Asked {
        command,
        form: Form::Json,
    }
}

// A command whose answer is CSV, if its reply has that form.
fn in_csv(command: Command) -> Asked
    ensures { result ≡ asked_in_csv command }
{
    Asked {
        command,
        form: Form::Csv,
    }
}

#[tactic(auto, unfolding(crate::specs::Commands::added_intersection))]
fn add_intersection(alloc: Global, body: &[u8]) -> Result<Asked, AskFault>
    ensures { Gives result (added_intersection body.now) }
{
    let body = body::read_object(alloc, body)?;
    let id = body::number(&body, Field::Id)?;
    let interval = body::number(&body, Field::Interval)?;
    let name = body::words(alloc, &body, Field::Name)?;
    Ok(in_json(Command::AddIntersection { id, interval, name }))
}

// The intersection of the path and the clerk of the body, or the first fault of these.
#[tactic(auto, unfolding(crate::specs::Commands::id_and_clerk_in))]
fn id_and_clerk(alloc: Global, path: &[u8], body: &[u8]) -> Result<(InterId, Words<40>), AskFault>
    ensures { Gives result (id_and_clerk_in path.now body.now) }
{
    let id = path::id(path)?;
    let body = body::read_object(alloc, body)?;
    let clerk = body::words(alloc, &body, Field::Clerk)?;
    Ok((id, clerk))
}

#[tactic(auto, unfolding(crate::specs::Commands::edited_in))]
fn edit(alloc: Global, path: &[u8], body: &[u8]) -> Result<Asked, AskFault>
    ensures { Gives result (edited_in path.now body.now) }
{
    let id = path::id(path)?;
    let body = body::read_object(alloc, body)?;
    let clerk = body::words(alloc, &body, Field::Clerk)?;
    let changes = rows::of_body(alloc, &body)?;
    Ok(in_json(Command::Edit { id, clerk, changes }))
}

#[tactic(auto, unfolding(crate::specs::Commands::edited_by_csv))]
fn edit_csv(alloc: Global, path: &[u8], body: &[u8]) -> Result<Asked, AskFault>
    ensures { Gives result (edited_by_csv path.now body.now) }
{
    let id = path::id(path)?;
    let body = body::read_object(alloc, body)?;
    let clerk = body::words(alloc, &body, Field::Clerk)?;
    let changes = csv_body::changes(alloc, &body)?;
    Ok(in_json(Command::Edit { id, clerk, changes }))
}

#[tactic(auto, unfolding(crate::specs::Commands::imported_in))]
fn import(alloc: Global, body: &[u8]) -> Result<Asked, AskFault>
    ensures { Gives result (imported_in body.now) }
{
    let body = body::read_object(alloc, body)?;
    let records = csv_body::records(alloc, &body)?;
    Ok(in_json(Command::Import { records }))
}
