//! A table of routes that is kept from one request to the next.
ghost use Rattle.std.specs.Prelude.{◌≡◌, None, OnOk, IsSome};
ghost use Rattle.office_http_requests.specs.FaultsInOrder.{Gives};
ghost use Rattle.office_http_requests.specs.Commands.{command_at};

use crate::command::Asked;
use crate::fault::AskFault;
use crate::route::Routes;
use office_http_framing::front::Request;
use std::alloc::Global;

/// A table of routes that is made at the first request and kept.
#[derive(Drop)]
pub struct RouteCache {
    routes: Option<Routes>,
}

impl RouteCache {
    /// A cache that has no table yet. It takes no memory.
    pub fn new() -> RouteCache
        ensures { result.routes ≡ None }
    {
        RouteCache { routes: None }
    }

    /// What a request asks, or its first fault, by the table that is kept. If none is kept yet, it
    /// is made first.
    pub fn command_of(&mut self, alloc: Global, request: &Request) -> Result<Asked, AskFault>
        ensures gives { Gives result
            (command_at request.now.method.now request.now.path.now request.now.body.now) }
        ensures made { OnOk result (IsSome self.new.routes) }
        ensures kept { IsSome self.old.routes → self.new ≡ self.old }
    {
        if let Some(routes) = &self.routes {
            return routes.command_of(alloc, request);
        }
        let routes = Routes::new(alloc)?;
        let asked = routes.command_of(alloc, request);
        self.routes = Some(routes);
        asked
    }
}
