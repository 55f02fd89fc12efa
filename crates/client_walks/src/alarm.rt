//! Alarms: a call and a clause, with a program that describes a path to the call.
use cv_base::List;

/// What a segment tells of a walk of its procedure, in order.
#[derive(Clone, Copy, Debug)]
pub enum Item {
    /// The outcome of a test.
    Test(bool),
    /// A procedure call at this point, whose inside is the segment of this number, and whether it returned.
    Inside {
        point: u32,
        segment: u32,
        returned: bool,
    },
}

/// A walk of a procedure, or its beginning.
#[derive(Debug, Drop)]
pub struct Segment {
    pub procedure: u32,
    pub items: List<Item>,
}

/// Segments by number. The first one is of `main`, and begins with the initialisers.
#[derive(Debug, Drop)]
pub struct PathProgram {
    pub segments: List<Segment>,
}

/// At the end of this path the clause of the call may be false. Clauses are counted from 1.
#[derive(Debug, Drop)]
pub struct Alarm {
    pub call: u32,
    pub clause: u32,
    pub path: PathProgram,
}
