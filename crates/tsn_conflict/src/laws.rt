//! The law of the definitions. The function does nothing: its contract is the law.

ghost use Rattle.tsn_conflict.specs.Laws.{ParentsOverlapStarts};

/// A look at raised offsets may start at the parent's first overlap.
pub fn parents_overlap_starts()
    ensures { ParentsOverlapStarts }
{}
