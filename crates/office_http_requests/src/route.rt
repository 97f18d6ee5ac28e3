//! The routes of the office, and the table that finds the route of a path.
ghost use Rattle.std.specs.Prelude.{◌≡◌, bytes_eq, IfOk, IfErr};
ghost use Rattle.matchit.specs.declared.error.InsertError.TheVariants.{OutOfMemory};
ghost use Rattle.office_http_requests.specs.FaultsInOrder.{or_no_route};
ghost use Rattle.office_http_requests.specs.Routes.{route_rows, route_text, record_route_text, method_of, endpoint_of};

use crate::fault::AskFault;
use crate::kind::RecordKind;
use http::Method;
use matchit::{InsertError, Router};
use signal_records::NoMemory;
use std::alloc::Global;
use std::marker::Model;
use std::str;

/// What a route leads to. Each route has one endpoint, and each endpoint one method.
#[derive(Clone, Copy)]
pub enum Endpoint {
    AddIntersection,
    State,
    Timing,
    TimingCsv,
    Draft,
    Begin,
    Edit,
    EditCsv,
    Verify,
    Check,
    Commit,
    Reopen,
    Abandon,
    Record(RecordKind),
    Import,
    Cabinet,
    CabinetCsv,
    OpenOrders,
    Stock,
    Overdue,
}

impl Endpoint {
    /// Every endpoint, in the order of the table of routes.
    pub const ALL: [Endpoint; 24] = [
        Endpoint::AddIntersection,
        Endpoint::State,
        Endpoint::Timing,
        Endpoint::TimingCsv,
        Endpoint::Draft,
        Endpoint::Begin,
        Endpoint::Edit,
        Endpoint::EditCsv,
        Endpoint::Verify,
        Endpoint::Check,
        Endpoint::Commit,
        Endpoint::Reopen,
        Endpoint::Abandon,
        Endpoint::Record(RecordKind::Inspect),
        Endpoint::Record(RecordKind::OpenOrder),
        Endpoint::Record(RecordKind::UsePart),
        Endpoint::Record(RecordKind::CloseOrder),
        Endpoint::Record(RecordKind::Receive),
        Endpoint::Import,
        Endpoint::Cabinet,
        Endpoint::CabinetCsv,
        Endpoint::OpenOrders,
        Endpoint::Stock,
        Endpoint::Overdue,
    ];

    /// The one method of the route.
    pub fn method(self) -> Method
        ensures { result ≡ method_of self }
    {
        match self {
            Endpoint::AddIntersection => Method::POST,
            Endpoint::State => Method::GET,
            Endpoint::Timing => Method::GET,
            Endpoint::TimingCsv => Method::GET,
            Endpoint::Draft => Method::GET,
            Endpoint::Begin => Method::POST,
            Endpoint::Edit => Method::POST,
            Endpoint::EditCsv => Method::POST,
            Endpoint::Verify => Method::POST,
            Endpoint::Check => Method::POST,
            Endpoint::Commit => Method::POST,
            Endpoint::Reopen => Method::POST,
            Endpoint::Abandon => Method::POST,
            Endpoint::Record(_) => Method::POST,
            Endpoint::Import => Method::POST,
            Endpoint::Cabinet => Method::GET,
            Endpoint::CabinetCsv => Method::GET,
            Endpoint::OpenOrders => Method::GET,
            Endpoint::Stock => Method::GET,
            Endpoint::Overdue => Method::GET,
        }
    }

    /// Whether a request's method is that of the route.
    pub fn allows(self, method: &[u8]) -> bool
        ensures { result ≡ bytes_eq method.now (method_of self) }
    {
        method == self.method().as_str().as_bytes()
    }

    /// The route that leads here, as `matchit` spells it.
    pub fn route(self) -> &'static str
        ensures { result.now ≡ route_text self }
    {
        match self {
            Endpoint::AddIntersection => "/intersections",
            Endpoint::State => "/intersections/{id}",
            Endpoint::Timing => "/intersections/{id}/timing",
            Endpoint::TimingCsv => "/intersections/{id}/timing-csv",
            Endpoint::Draft => "/intersections/{id}/draft",
            Endpoint::Begin => "/intersections/{id}/begin",
            Endpoint::Edit => "/intersections/{id}/edit",
            Endpoint::EditCsv => "/intersections/{id}/edit-csv",
            Endpoint::Verify => "/intersections/{id}/verify",
            Endpoint::Check => "/intersections/{id}/check",
            Endpoint::Commit => "/intersections/{id}/commit",
            Endpoint::Reopen => "/intersections/{id}/reopen",
            Endpoint::Abandon => "/intersections/{id}/abandon",
            Endpoint::Record(kind) => record_route(kind),
            Endpoint::Import => "/import",
            Endpoint::Cabinet => "/intersections/{id}/cabinet",
            Endpoint::CabinetCsv => "/intersections/{id}/cabinet-csv",
            Endpoint::OpenOrders => "/intersections/{id}/open-orders",
            Endpoint::Stock => "/stock",
            Endpoint::Overdue => "/overdue/{day}",
        }
    }
}

// The route that records something in the register.
fn record_route(kind: RecordKind) -> &'static str
    ensures { result.now ≡ record_route_text kind }
{
    match kind {
        RecordKind::Inspect => "/intersections/{id}/inspections",
        RecordKind::OpenOrder => "/intersections/{id}/orders",
        RecordKind::UsePart => "/intersections/{id}/orders/{order}/parts",
        RecordKind::CloseOrder => "/intersections/{id}/orders/{order}/close",
        RecordKind::Receive => "/deliveries",
    }
}

// The router of the whole table.
fn router(alloc: Global) -> Result<Router<Endpoint>, InsertError>
    ensures ok { IfOk result (λ router. router ≡ route_rows) }
    ensures err { IfErr result (λ fault. fault ≡ OutOfMemory) }
{
    let mut router = Router::new(alloc);
    for endpoint in Endpoint::ALL {
        router.insert(endpoint.route(), endpoint)?;
    }
    Ok(router)
}

/// The table of routes. Making it takes memory, so it is made once and asked for each request.
#[derive(Drop)]
pub struct Routes {
    router: Router<Endpoint>,
}

impl Model for Routes {
    ghost use Rattle.std.specs.Prelude.{◌≡◌};
    ghost use Rattle.office_http_requests.specs.Routes.{RouteRows, route_rows};

    ghost Value = { RouteRows };

    ghost view = { λ routes. routes.router };

    ghost invariant = { λ routes. routes.router ≡ route_rows };
}

impl Routes {
    /// The whole table of routes.
    pub fn new(alloc: Global) -> Result<Routes, NoMemory>
        ensures { IfOk result (λ routes. routes ≡ route_rows) }
    {
        // No route is wrong and no two conflict, so only memory can be refused.
        let router = router(alloc).map_err(|_| NoMemory)?;
        Ok(Routes { router })
    }

    /// The endpoint of a path, or `NoRoute` if no route has it, as for bytes that are not UTF-8. It
    /// takes no memory.
    pub fn endpoint_at(&self, path: &[u8]) -> Result<Endpoint, AskFault>
        ensures { result ≡ or_no_route (endpoint_of path.now) }
    {
        let Ok(path) = str::from_utf8(path) else {
            return Err(AskFault::NoRoute);
        };
        match self.router.at(path) {
            Ok(found) => Ok(copy_endpoint(found.value)),
            Err(_) => Err(AskFault::NoRoute),
        }
    }
}

fn copy_endpoint(endpoint: &Endpoint) -> Endpoint
    ensures { result ≡ endpoint.now }
{
    *endpoint
}
