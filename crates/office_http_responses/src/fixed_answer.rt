//! The answer 503: memory or the database was refused, and no later answer of the run shows an
//! effect of the request.
ghost use Rattle.std.specs.Prelude.{◌≡◌};
ghost use Rattle.office_http_responses.specs.Unavailable.{unavailable_bytes};

const UNAVAILABLE: &[u8] = b"HTTP/1.1 503 Service Unavailable\r\nContent-Type: application/json\r\n\
      Content-Length: 35\r\n\r\n{\"error\":\"Unavailable\",\"number\":90}";

/// The answer in place of any other if memory or the database was refused. It takes no memory.
pub fn unavailable() -> &'static [u8]
    ensures { result.now ≡ unavailable_bytes }
{
    UNAVAILABLE
}
