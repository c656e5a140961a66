//! Why a bound was narrowed.
use crate::literal::Literal;

/// Why a bound was narrowed.
#[derive(Clone, Copy)]
pub enum Why {
    /// It was decided, or given.
    Decided,
    /// The learned clause of this number in the record has one literal.
    Shown(u32),
    /// Of the clause of this number the others are contradicted.
    Clause(u32),
    /// By the arc of the block that a bound of a gap passes.
    Go(Literal),
    /// By the arrival of a stream.
    Arrive(u32),
    /// The block's other side can't be met: the bound where its arc ends is at least this.
    Turn(i64),
    /// By the placing of this number.
    Placing(u32),
    /// By the filling of this number.
    Filling(u32),
}

/// Frames of a link: so many places of a list of lists, from one place on.
#[derive(Clone, Copy)]
pub struct Part {
    pub start: usize,
    pub count: usize,
}

/// That a frame of a link goes last, or first, of itself and others; frames by their places on the link. Seen from the end of the
/// cycle first is last, with each number's sign turned.
#[derive(Clone, Copy)]
pub struct Placing {
    pub link: u32,
    pub side: u32,
    pub place: usize,
    /// The others. All but the first ones, so many, give the bound of the frame's stream.
    pub others: Part,
    pub idle: usize,
    /// The least head of all.
    pub begin: i64,
    /// The least head of those that give the bound.
    pub part: i64,
    /// The greatest end of the others.
    pub end: i64,
    /// Its number in the record, where it's kept.
    pub kept: u32,
}

/// That frames don't fit on a link.
#[derive(Clone, Copy)]
pub struct Packing {
    pub link: u32,
    pub frames: Part,
}

/// That a frame of a link can't start before an instant in a room between two frames that can't move: at each instant before it sums of the
/// works of frames leave more of the room than all of them may leave. Seen from the end of the cycle each number's sign is turned.
#[derive(Clone, Copy)]
pub struct Filling {
    pub link: u32,
    pub side: u32,
    pub place: usize,
    /// All of the frames.
    pub frames: Part,
    /// The frames that bound the room; none where all of them do.
    pub before: u32,
    pub after: u32,
    /// The instant.
    pub head: i64,
    /// The literals by which it holds.
    pub needs: Part,
    /// Its number in the record, where it's kept.
    pub kept: u32,
}

/// That in the rooms between frames that can't move sums of works leave more than all frames may leave.
#[derive(Clone, Copy)]
pub struct Wasting {
    pub link: u32,
    pub frames: Part,
    /// Those that part the rooms, an earlier one first.
    pub fixed: Part,
}

/// What a clause follows by, as its argument has it.
#[derive(Clone, Copy)]
pub enum Deed {
    /// The arc of the block that a bound of a gap passes.
    Go(Literal),
    /// The block's other side can't be met.
    Turn(Literal),
    /// The clause of this number in the record.
    Use(u32),
    /// The arrival of a stream.
    Arrive(u32),
    /// The placing of this number.
    Place(u32),
    /// The packing of this number.
    Pack(u32),
    /// The round of this number.
    Round(u32),
    /// The filling of this number.
    Fill(u32),
    /// The wasting of this number.
    Waste(u32),
}
