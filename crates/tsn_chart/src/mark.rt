//! Frames that stand out.
use crate::picture::Sheet;
use std::alloc::{AllocError, Global};
use std::collections::BTreeSet;
use tsn_model::Frame;

/// How a frame's bar is drawn.
#[derive(Clone, Copy)]
pub enum MarkStyle {
    /// In the stream's colour: no frame is marked.
    Plain,
    /// In the stream's colour, with a dark outline: the frame is marked.
    Outlined,
    /// Pale: others are marked.
    Pale,
}

impl MarkStyle {
    /// The rest of the element of the bar, behind its fill.
    pub fn shade(self) -> &'static str {
        match self {
            MarkStyle::Plain => "\"/>",
            MarkStyle::Outlined => "\" stroke=\"#000000\" stroke-width=\"20\"/>",
            MarkStyle::Pale => "\" fill-opacity=\"0.3\"/>",
        }
    }

    /// What the bar's title says behind its instants.
    pub fn title(self) -> &'static str {
        match self {
            MarkStyle::Plain | MarkStyle::Pale => "",
            MarkStyle::Outlined => ", marked",
        }
    }
}

/// How the bar of a frame on a link is drawn.
pub fn look_of(sheet: &Sheet<'_>, frame: Frame, link: usize) -> MarkStyle {
    if sheet.marked.is_empty() {
        return MarkStyle::Plain;
    }
    if sheet.marked.contains(&(link, frame.stream, frame.shift)) {
        MarkStyle::Outlined
    } else {
        MarkStyle::Pale
    }
}

/// The marked frames, each by its link, its stream and its shift.
pub(crate) fn marks_of(
    alloc: Global,
    marked: &[(Frame, usize)],
) -> Result<BTreeSet<(usize, usize, u64)>, AllocError> {
    let mut marks = BTreeSet::new(alloc);
    for (frame, link) in marked {
        marks.insert((*link, frame.stream, frame.shift))?;
    }
    Ok(marks)
}
