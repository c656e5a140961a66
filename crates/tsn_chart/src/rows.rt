//! The rows of the links.
ghost use Rattle.std.specs.Prelude.{◌≤◌, ◌<◌, length};
ghost use Rattle.tsn_model.specs.Network.{stream_count, hop_count};

use crate::canvas::Canvas;
use crate::mark::{MarkStyle, look_of};
use crate::picture::Sheet;
use crate::scale::{LEFT, PAGE};
use crate::words::{letters_in, letters_on};
use tsn_gate::{GateEntry, GateList};
use tsn_model::Frame;

// A bar that is narrower has an outline, in tenths of a pixel.
const NARROW: u64 = 6;

// The narrowest bar: an element of no width isn't drawn.
const NARROWEST: u64 = 1;

// The gate of the scheduled class alone open.
const SCHEDULED: u8 = 0x80;

/// A row: the number of its list, and its upper edge.
#[derive(Clone, Copy)]
pub struct Line {
    pub(crate) number: usize,
    pub(crate) y: u64,
    ghost low: { y ≤ 1300000 },
}

// A frame in a row, and how it is drawn.
#[derive(Clone, Copy)]
struct Framed {
    line: Line,
    frame: Frame,
    look: MarkStyle,
}

// The bar of a frame: where it begins, and how wide it is, in tenths of a pixel.
#[derive(Clone, Copy)]
struct Bar {
    framed: Framed,
    x: u64,
    wide: u64,
}

/// Writes a row: its label, its gates, and its frames.
pub fn write_row(canvas: &mut Canvas, sheet: &Sheet<'_>, line: Line)
    requires { line.number < length sheet.now.lists.now }
{
    write_label(canvas, sheet, line);
    write_gates(canvas, sheet, line);
    for is_marked in [false, true] {
        write_bars(canvas, sheet, line, is_marked);
    }
    canvas.begin_line((0, line.y), (PAGE, line.y));
    canvas.words("#cccccc\" stroke-width=\"5\"/>\n");
}

// Writes the bars of the frames that are marked, or of the others.
fn write_bars(canvas: &mut Canvas, sheet: &Sheet<'_>, line: Line, is_marked: bool)
    requires { line.number < length sheet.now.lists.now }
{
    let link = sheet.lists[line.number].link();
    for user in sheet.timing.users(link) {
        write_frames(canvas, sheet, line, (user.stream, user.hop), is_marked);
    }
}

// Writes the names of the nodes that the row's link joins.
fn write_label(canvas: &mut Canvas, sheet: &Sheet<'_>, line: Line)
    requires { line.number < length sheet.now.lists.now }
{
    let link = sheet.lists[line.number].link();
    let (from, to) = sheet.lists[line.number].names(sheet.problem);
    canvas.begin_text(LEFT - 100, letters_line(sheet, line));
    canvas.number(" text-anchor=\"end\">", link as u64);
    write_cut_names(canvas, sheet, from, to);
    canvas.number("<title>link ", link as u64);
    canvas.words(": ");
    canvas.whole(from);
    canvas.words(" to ");
    canvas.whole(to);
    canvas.words("</title></text>\n");
}

// Writes the names of a row's label as far as there is room.
fn write_cut_names(canvas: &mut Canvas, sheet: &Sheet<'_>, from: &str, to: &str) {
    let most = letters_in(LEFT - 200, sheet.scale.font()).saturating_sub(8) / 2;
    canvas.words(" ");
    canvas.name(from, most);
    canvas.words(" &#8594; ");
    canvas.name(to, most);
}

// Where letters stand in a row.
fn letters_line(sheet: &Sheet<'_>, line: Line) -> u64 {
    line.y + sheet.scale.row_height() / 2 + sheet.scale.font() / 3
}

// Writes the shades of a row's gates.
fn write_gates(canvas: &mut Canvas, sheet: &Sheet<'_>, line: Line)
    requires { line.number < length sheet.now.lists.now }
{
    let mut start: u64 = 0;
    for entry in sheet.lists[line.number].entries() {
        if start >= sheet.scale.until() {
            break;
        }
        write_gate(canvas, sheet, line, start, *entry);
        start = start.saturating_add(entry.interval);
    }
}

// Writes the shade of an entry that begins at an instant.
fn write_gate(canvas: &mut Canvas, sheet: &Sheet<'_>, line: Line, start: u64, entry: GateEntry) {
    let end = start.saturating_add(entry.interval);
    let x = sheet.scale.x(start);
    let wide = sheet.scale.x(end).saturating_sub(x);
    canvas.begin_rect(x, line.y, wide, sheet.scale.row_height());
    canvas.words(shade_of(entry.octet));
    canvas.words("\"><title>gates ");
    canvas.octet(entry.octet);
    canvas.number(": ", start);
    canvas.number(" to ", end);
    canvas.words(" ns</title></rect>\n");
}

// How gates are shaded.
fn shade_of(octet: u8) -> &'static str {
    match octet {
        0 => "url(#guard)",
        SCHEDULED => "#fff3c4",
        0x01..=0x7F => "#d9ecd9",
        _ => "#ffffff",
    }
}

// Writes the bars of the frames of a stream on a hop of it, those that are marked or the others.
fn write_frames(
    canvas: &mut Canvas,
    sheet: &Sheet<'_>,
    line: Line,
    visit: (usize, usize),
    is_marked: bool,
)
    requires stream { visit.0 < stream_count sheet.now.timing.now }
    requires hop { visit.1 < hop_count sheet.now.timing.now visit.0 }
{
    let (stream, hop) = visit;
    let link = sheet.timing.route_link(stream, hop);
    for shift in sheet.timing.shifts(stream) {
        let frame = Frame {
            stream,
            shift: *shift,
        };
        let look = look_of(sheet, frame, link);
        if is_marked == (look == MarkStyle::Outlined) {
            write_bar(canvas, sheet, Framed { line, frame, look }, hop);
        }
    }
}

// Writes the bar of a frame on a hop, unless it is past the picture.
fn write_bar(canvas: &mut Canvas, sheet: &Sheet<'_>, framed: Framed, hop: usize)
    requires stream { framed.frame.stream < stream_count sheet.now.timing.now }
    requires hop { hop < hop_count sheet.now.timing.now framed.frame.stream }
{
    let Frame { stream, shift } = framed.frame;
    let begin = sheet.offsets[stream].saturating_add(shift);
    let start = begin.saturating_add(sheet.timing.start(stream, hop));
    let end = start.saturating_add(sheet.timing.occupancy(stream, hop));
    if start >= sheet.scale.until() {
        return;
    }
    let x = sheet.scale.x(start);
    let wide = sheet.scale.x(end).saturating_sub(x).max(NARROWEST);
    canvas.words("<g><title>");
    canvas.whole(sheet.name(stream));
    canvas.number(": ", start);
    canvas.number(" to ", end);
    canvas.words(" ns with the gap");
    let bar = Bar { framed, x, wide };
    write_bar_shape(canvas, sheet, bar);
    write_bar_name(canvas, sheet, bar);
    canvas.words("</g>\n");
}

// Writes the rest of a bar's title, and its shape.
fn write_bar_shape(canvas: &mut Canvas, sheet: &Sheet<'_>, bar: Bar) {
    let Bar { framed, x, wide } = bar;
    let high = sheet.scale.row_height().saturating_sub(40);
    canvas.words(framed.look.title());
    canvas.words("</title>");
    canvas.begin_rect(x, framed.line.y + 20, wide, high);
    canvas.colour(framed.frame.stream);
    // A narrow bar is seen by an outline in the stream's colour.
    if wide < NARROW && framed.look != MarkStyle::Outlined {
        canvas.words("\" stroke-width=\"6\" stroke=\"");
        canvas.colour(framed.frame.stream);
    }
    canvas.words(framed.look.shade());
}

// Writes a stream's name into its bar, where there is room for some of it.
fn write_bar_name(canvas: &mut Canvas, sheet: &Sheet<'_>, bar: Bar)
    requires stream { bar.framed.frame.stream < stream_count sheet.now.timing.now }
    requires x { bar.x ≤ 14_000 }
    requires wide { bar.wide ≤ 14_000 }
{
    let room = letters_in(bar.wide.saturating_sub(40), sheet.scale.font());
    if room < 3 {
        return;
    }
    let stream = bar.framed.frame.stream;
    let letters = match bar.framed.look {
        MarkStyle::Pale => "#000000",
        MarkStyle::Plain | MarkStyle::Outlined => letters_on(stream),
    };
    canvas.begin_text(bar.x + bar.wide / 2, letters_line(sheet, bar.framed.line));
    canvas.words(" fill=\"");
    canvas.words(letters);
    canvas.words("\" text-anchor=\"middle\">");
    canvas.name(sheet.name(stream), room);
    canvas.words("</text>");
}
