//! The picture of a schedule.
ghost use Rattle.std.specs.Prelude.{◌≡◌, ◌≤◌, ◌<◌, length, All};
ghost use Rattle.tsn_model.specs.Network.{stream_count};
ghost use Rattle.tsn_model.specs.Schedule.{IsValid};

use crate::canvas::Canvas;
use crate::choice::{LinkChoice, Shown};
use crate::frame::{write_axis, write_background, write_flowspan, write_head};
use crate::key::{key_height, write_key};
use crate::mark::marks_of;
use crate::rows::{Line, write_row};
use crate::scale::Scale;
use std::alloc::{AllocError, Global};
use std::collections::BTreeSet;
use tsn_gate::GateList;
use tsn_model::{Frame, NoMemory};
use tsn_timing::{Problem, Timing, Valid};

/// What is drawn.
#[derive(Clone, Copy)]
pub(crate) struct Sheet<'a> {
    pub(crate) problem: &'a Problem,
    pub(crate) timing: &'a Timing,
    pub(crate) offsets: &'a [u64],
    pub(crate) lists: &'a [GateList],
    pub(crate) choice: LinkChoice,
    pub(crate) shown: &'a Shown,
    /// The frames that are marked, each by its link, its stream and its shift.
    pub(crate) marked: &'a BTreeSet<(usize, usize, u64)>,
    pub(crate) scale: Scale,

    ghost same: { timing.now ≡ problem.now.network },
    ghost count: { length offsets.now ≡ stream_count timing.now },
    ghost exist: { All (λ list. list.link < length problem.now.network.links) lists.now },
}

impl<'a> Sheet<'a> {
    /// The name of a stream.
    pub(crate) fn name(&self, stream: usize) -> &'a str
        requires { stream < stream_count self.now.timing.now }
    {
        // Each stream has a name.
        let _named = self.problem.streams();
        self.problem.stream_name(stream)
    }
}

/// What is drawn of a schedule.
#[derive(Clone, Copy)]
pub struct Drawing {
    /// The instant at the right edge, in nanoseconds; the cycle's end where that is sooner.
    pub until: u64,
    /// Which links have a row.
    pub shown: LinkChoice,
    pub ghost some: { 1 ≤ until },
    pub ghost few: { until ≤ 1000000000 },
}

/// The picture of a schedule as `chart_of` draws it, with the rows of `LinkChoice::Auto`.
///
/// # Errors
///
/// There was no memory.
pub fn chart(
    alloc: Global,
    problem: &Problem,
    valid: &Valid,
    lists: &[GateList],
    until: u64,
) -> Result<String, NoMemory>
    requires some { 1 ≤ until }
    requires few { until ≤ 1_000_000_000 }
    requires valid { IsValid problem.now.network valid.now }
    requires exist { All (λ list. list.link < length problem.now.network.links) lists.now }
{
    let shown = LinkChoice::Auto;
    chart_of(alloc, problem, valid, lists, Drawing { until, shown })
}

/// The schedule as an SVG document: time runs from 0 to `until` nanoseconds, but no further than the cycle, and each list that
/// is shown has a row with its link's number and the names of the nodes that this joins. A row is shaded by the gates of its
/// list, and has a bar in the stream's colour for each frame with the gap behind it, with the stream's name where there is
/// room. A line marks the flowspan. Below stands a table of the streams, with their offsets, arrivals and latest instants: of
/// all, or, where there are more than 128, of the first 128 of those with a frame on a link that has a row.
///
/// Names are cut where they are too long, and written so that XML may hold them: a character that it can't hold becomes
/// U+FFFD.
///
/// # Errors
///
/// There was no memory.
pub fn chart_of(
    alloc: Global,
    problem: &Problem,
    valid: &Valid,
    lists: &[GateList],
    drawing: Drawing,
) -> Result<String, NoMemory>
    requires valid { IsValid problem.now.network valid.now }
    requires exist { All (λ list. list.link < length problem.now.network.links) lists.now }
{
    marked_chart(alloc, problem, valid, lists, drawing, &[])
}

/// The picture as `chart_of` draws it, where some frames are marked, each on a link of its route: they have a dark outline, and all
/// others are pale. Of frames that aren't there nothing is drawn.
///
/// # Errors
///
/// There was no memory.
pub fn marked_chart(
    alloc: Global,
    problem: &Problem,
    valid: &Valid,
    lists: &[GateList],
    drawing: Drawing,
    marked: &[(Frame, usize)],
) -> Result<String, NoMemory>
    requires valid { IsValid problem.now.network valid.now }
    requires exist { All (λ list. list.link < length problem.now.network.links) lists.now }
{
    let timing = problem.timing();
    let shown = Shown::of(alloc, timing, lists, drawing.shown)?;
    let marked = marks_of(alloc, marked)?;
    let scale = Scale::new(drawing.until.min(timing.cycle()), shown.rows());
    let sheet = Sheet {
        problem,
        timing,
        offsets: valid.offsets(),
        lists,
        choice: drawing.shown,
        shown: &shown,
        marked: &marked,
        scale,
    };
    Ok(draw(alloc, &sheet)?)
}

// The text of the picture.
fn draw(alloc: Global, sheet: &Sheet<'_>) -> Result<String, AllocError> {
    let height = sheet.scale.bottom() + key_height(sheet.shown);
    let mut canvas = Canvas::new(alloc);
    write_head(&mut canvas, sheet, height);
    write_background(&mut canvas, sheet);
    write_rows(&mut canvas, sheet);
    write_axis(&mut canvas, sheet.scale);
    write_flowspan(&mut canvas, sheet);
    write_key(&mut canvas, sheet);
    canvas.words("</svg>\n");
    canvas.finish()
}

// Writes the rows of the lists that are shown.
fn write_rows(canvas: &mut Canvas, sheet: &Sheet<'_>) {
    let mut row: usize = 0;
    for number in 0..sheet.lists.len() {
        if sheet.shown.has_row(number) {
            let y = sheet.scale.y(row);
            write_row(canvas, sheet, Line { number, y });
            row = row.saturating_add(1);
        }
    }
}
