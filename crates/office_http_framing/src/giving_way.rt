//! When a connection gives way to another client.

ghost use Rattle.std.specs.Prelude.{◌≡◌, ◌↔◌, true, false, IsTrue};

/// What is ready while a connection awaits its next request and no byte of that is buffered.
#[derive(Clone, Copy)]
pub struct Ready {
    /// A read of the connection returns at once: with bytes, the end, or a failure.
    pub is_readable: bool,
    /// Another client waits to be accepted.
    pub is_awaited: bool,
}

/// Whether the connection ends for another client: one waits, and a read would not return at once.
pub fn gives_way(ready: Ready) -> bool
    ensures { IsTrue result ↔ ((ready.is_awaited ≡ true) × (ready.is_readable ≡ false)) }
{
    ready.is_awaited && !ready.is_readable
}
