//! The table of the streams, with their colours.
ghost use Rattle.std.specs.Prelude.{◌≤◌, ◌<◌};
ghost use Rattle.tsn_model.specs.Network.{stream_count};

use crate::canvas::Canvas;
use crate::choice::Shown;
use crate::picture::Sheet;
use crate::words::letters_in;

// How many streams stand beside each other.
const COLUMNS: usize = 2;

// How wide a column is.
const COLUMN: u64 = 6900;

// How high a line is.
const LINE: u64 = 170;

// How high letters are.
const FONT: u64 = 110;

// Where the octets, the offset, the arrival and the latest instant end, counted from a column's left edge.
const OCTETS: u64 = 3100;

const OFFSET: u64 = 4200;

const ARRIVAL: u64 = 5350;

const LATEST: u64 = 6500;

// How many lines the table has below its head.
fn lines_of(streams: usize) -> usize
    requires { streams ≤ 128 }
    ensures some { 1 ≤ result }
    ensures few { result ≤ 128 }
{
    (streams / COLUMNS + streams % COLUMNS).max(1)
}

/// How high the table of the streams is.
pub fn key_height(shown: &Shown) -> u64
    ensures { result ≤ 100_000 }
{
    let more = if shown.left_out() == 0 { 0 } else { LINE };
    700 + lines_of(shown.listed()) as u64 * LINE + more
}

/// Writes the table of the streams with their colours.
pub fn write_key(canvas: &mut Canvas, sheet: &Sheet<'_>) {
    let listed = sheet.shown.listed();
    for column in 0..listed.min(COLUMNS) {
        write_head(canvas, sheet, column);
    }
    let mut place: usize = 0;
    for stream in 0..sheet.timing.streams() {
        if place < listed && sheet.shown.has_stream(stream) {
            write_stream(canvas, sheet, stream, place);
            place = place.saturating_add(1);
        }
    }
    if sheet.shown.left_out() > 0 {
        write_more(canvas, sheet);
    }
}

// Writes how many more streams there are.
fn write_more(canvas: &mut Canvas, sheet: &Sheet<'_>) {
    let lines = lines_of(sheet.shown.listed());
    let count = sheet.shown.left_out();
    canvas.begin_text(400, sheet.scale.bottom() + 590 + lines as u64 * LINE);
    canvas.number(" font-size=\"", FONT);
    canvas.number("\">and ", count as u64);
    canvas.words(if count == 1 {
        " more stream</text>\n"
    } else {
        " more streams</text>\n"
    });
}

// Writes the head of a column.
fn write_head(canvas: &mut Canvas, sheet: &Sheet<'_>, column: usize)
    requires { column ≤ 128 }
{
    let x = 200 + column as u64 * COLUMN;
    let y = sheet.scale.bottom() + 420;
    canvas.begin_text(x + 200, y);
    canvas.number(" font-size=\"", FONT);
    canvas.words("\" font-weight=\"bold\">stream</text>\n");
    write_heading(canvas, x + OCTETS, y, "octets");
    write_heading(canvas, x + OFFSET, y, "offset ns");
    write_heading(canvas, x + ARRIVAL, y, "arrives ns");
    write_heading(canvas, x + LATEST, y, "latest ns");
}

// Writes what the numbers are that end there.
fn write_heading(canvas: &mut Canvas, right: u64, y: u64, words: &str) {
    canvas.begin_text(right, y);
    canvas.number(" font-size=\"", FONT);
    canvas.words("\" font-weight=\"bold\" text-anchor=\"end\">");
    canvas.words(words);
    canvas.words("</text>\n");
}

// Writes a stream's colour, its name and its numbers at this place among those that are listed.
fn write_stream(canvas: &mut Canvas, sheet: &Sheet<'_>, stream: usize, place: usize)
    requires stream { stream < stream_count sheet.now.timing.now }
    requires place { place < 128 }
{
    let lines = lines_of(sheet.shown.listed());
    let x = 200 + (place / lines) as u64 * COLUMN;
    let y = sheet.scale.bottom() + 480 + (place % lines) as u64 * LINE;
    canvas.begin_rect(x, y, 140, 130);
    canvas.colour(stream);
    canvas.words("\"/>");
    canvas.begin_text(x + 200, y + 110);
    canvas.number(" font-size=\"", FONT);
    canvas.words("\">");
    canvas.name(sheet.name(stream), letters_in(2240, FONT));
    canvas.words("</text>\n");
    write_numbers(canvas, sheet, stream, x, y + 110);
}

// Writes the numbers of a stream.
fn write_numbers(canvas: &mut Canvas, sheet: &Sheet<'_>, stream: usize, x: u64, y: u64)
    requires stream { stream < stream_count sheet.now.timing.now }
    requires x { x ≤ 20_000_000 }
{
    let offset = sheet.offsets[stream];
    let arrival = offset.saturating_add(sheet.timing.arrival(stream));
    write_number(canvas, x + OCTETS, y, sheet.timing.plain().octets(stream));
    write_number(canvas, x + OFFSET, y, offset);
    write_number(canvas, x + ARRIVAL, y, arrival);
    write_number(canvas, x + LATEST, y, sheet.timing.latest(stream));
}

// Writes a number that ends there.
fn write_number(canvas: &mut Canvas, right: u64, y: u64, number: u64) {
    canvas.begin_text(right, y);
    canvas.number(" font-size=\"", FONT);
    canvas.number("\" text-anchor=\"end\">", number);
    canvas.words("</text>\n");
}
