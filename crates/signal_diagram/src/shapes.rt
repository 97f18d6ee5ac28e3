//! What a picture is made of. A time is in tenths of a second from the beginning of the cycle, and
//! a lane is numbered from the top, from 0.

use signal_records::{PhaseNo, RingNo};

/// An interval of a phase, drawn in a colour of its own.
#[derive(Clone, Copy)]
pub enum Band {
    Green,
    Lead,
    Yellow,
    Red,
    Walk,
    Clearance,
}

/// One thing that is drawn. A lane is given by its number; a tenth is a tenth of a second.
#[derive(Clone, Copy)]
pub enum Shape {
    /// A lane, with the name of its ring.
    Ring(u32, RingNo),
    /// In a lane, an interval from one tenth to another. If only a button may call it (false), only
    /// its edge is drawn, in dashes.
    Interval(u32, Band, bool, u32, u32),
    /// In a lane, the mark of a walk whose clearance is not over at a tenth.
    Cut(u32, u32),
    /// In a lane, the edge of a phase from one tenth to another, with whether it is coordinated.
    Edge(u32, u32, u32, bool),
    /// In a lane, from a tenth on, a phase and its seconds, with whether it is coordinated.
    Label(u32, u32, PhaseNo, u16, bool),
    /// Over so many lanes, a line at a tenth, with whether it is a barrier.
    Line(u32, u32, bool),
    /// Below so many lanes, the line of the scale up to a tenth.
    Scale(u32, u32),
    /// Below so many lanes, a tick of the scale at a tenth, with its second.
    Tick(u32, u32),
}
