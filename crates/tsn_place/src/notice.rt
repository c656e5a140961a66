//! Who is told how far first schedules have got.

/// Who is told.
pub trait Notice {
    /// The best schedule that was found so far has this flowspan, in nanoseconds.
    fn notice(&self, flowspan: i64);
}
