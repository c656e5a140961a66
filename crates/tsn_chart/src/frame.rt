//! What stands round the rows: the head, the axis and the flowspan.
ghost use Rattle.std.specs.Prelude.{◌≤◌};

use crate::canvas::Canvas;
use crate::choice::LinkChoice;
use crate::picture::Sheet;
use crate::scale::{LEFT, PAGE, Scale, TOP, WIDTH};

// The most marks of the axis.
const MOST_MARKS: u64 = 12;

// Half of the width of the flowspan's label, at most: 24 letters.
const HALF_LABEL: u64 = 900;

// The steps of the axis but for the longest, in nanoseconds.
const STEPS: [u64; 24] = [
    1, 2, 5, 10, 20, 50, 100, 200, 500, 1000, 2000, 5000, 10_000, 20_000, 50_000, 100_000, 200_000,
    500_000, 1_000_000, 2_000_000, 5_000_000, 10_000_000, 20_000_000, 50_000_000,
];

/// Writes the first elements: the page, its title, and how the gates are shaded.
pub fn write_head(canvas: &mut Canvas, sheet: &Sheet<'_>, height: u64) {
    canvas.number(
        "<svg xmlns=\"http://www.w3.org/2000/svg\" width=\"",
        PAGE / 10,
    );
    canvas.number("\" height=\"", height / 10);
    canvas.number("\" viewBox=\"0 0 ", PAGE);
    canvas.number(" ", height);
    canvas.number(
        "\" font-family=\"monospace\" font-size=\"",
        sheet.scale.font(),
    );
    canvas.words(
        "\">\n<defs><pattern id=\"guard\" width=\"60\" height=\"60\" patternUnits=\"userSpaceOnUse\" patternTransform=\"rotate(45)\"><rect width=\"60\" height=\"60\" fill=\"#f0f0f0\"/><rect width=\"18\" height=\"60\" fill=\"#b4b4b4\"/></pattern></defs>\n",
    );
    canvas.number("<rect width=\"", PAGE);
    canvas.number("\" height=\"", height);
    canvas.words("\" fill=\"#ffffff\"/>\n");
    write_title(canvas, sheet);
}

// Writes the title: how many streams there are, their flowspan, the cycle, and how many links are shown.
fn write_title(canvas: &mut Canvas, sheet: &Sheet<'_>) {
    let streams = sheet.timing.streams();
    canvas.number(
        "<text x=\"200\" y=\"260\" font-size=\"170\" font-weight=\"bold\">",
        streams as u64,
    );
    canvas.words(if streams == 1 { " stream" } else { " streams" });
    canvas.microseconds(", flowspan ", flowspan(sheet));
    canvas.microseconds(" &#181;s, cycle ", sheet.timing.cycle());
    canvas.number(" &#181;s, ", sheet.shown.rows() as u64);
    canvas.number(" of ", sheet.lists.len() as u64);
    canvas.words(" links in use");
    if sheet.shown.rows() == 0 {
        write_why_empty(canvas, sheet);
    }
    canvas.words("</text>\n");
}

// Writes why no link has a row.
fn write_why_empty(canvas: &mut Canvas, sheet: &Sheet<'_>) {
    match sheet.choice {
        LinkChoice::Link(link) if link < sheet.problem.links() => {
            canvas.number(": no stream uses link ", link as u64);
        }
        LinkChoice::Link(link) => canvas.number(": there is no link ", link as u64),
        LinkChoice::Auto | LinkChoice::All => canvas.words(": none is shared"),
    }
}

// When the stream that finishes last has arrived.
fn flowspan(sheet: &Sheet<'_>) -> u64 {
    let mut last: u64 = 0;
    for stream in 0..sheet.timing.streams() {
        let arrived = sheet.offsets[stream].saturating_add(sheet.timing.arrival(stream));
        last = last.max(arrived);
    }
    last
}

/// Writes what says how the gates are shaded.
pub fn write_background(canvas: &mut Canvas, sheet: &Sheet<'_>) {
    write_sample(
        canvas,
        (2000, 380),
        "url(#guard)",
        "guard: all gates closed",
    );
    write_sample(canvas, (5000, 380), "#d9ecd9", "open for background");
    write_sample(canvas, (8000, 380), "#fff3c4", "open for scheduled frames");
    write_sample(canvas, (11_000, 380), "#ffffff", "other gates");
    let gap = "a bar: a frame, and the gap that has to follow it";
    write_sample(canvas, (2000, 580), "#555555", gap);
    if !sheet.marked.is_empty() {
        write_marked_sample(canvas);
    }
    let high = sheet.scale.bottom().saturating_sub(TOP);
    canvas.begin_rect(LEFT, TOP, WIDTH, high);
    canvas.words("none\" stroke=\"#888888\" stroke-width=\"8\"/>\n");
}

// Writes a sample of a bar that is marked, and what that means.
fn write_marked_sample(canvas: &mut Canvas) {
    canvas.words(
        "<rect x=\"8000\" y=\"580\" width=\"260\" height=\"140\" fill=\"#999999\" stroke=\"#000000\" stroke-width=\"20\"/><text x=\"8320\" y=\"695\" font-size=\"110\">dark outline: a frame that the certificate is about</text>\n",
    );
}

// Writes a sample of a shade and what it means.
fn write_sample(canvas: &mut Canvas, at: (u64, u64), fill: &str, meaning: &str)
    requires x { at.0 ≤ 20_000 }
    requires y { at.1 ≤ 20_000 }
{
    let (x, y) = at;
    canvas.begin_rect(x, y, 260, 140);
    canvas.words(fill);
    canvas.words("\" stroke=\"#888888\" stroke-width=\"6\"/>");
    canvas.begin_text(x + 320, y + 115);
    canvas.words(" font-size=\"110\">");
    canvas.words(meaning);
    canvas.words("</text>\n");
}

/// Writes the axis: marks at equal steps from 0 on, in microseconds.
pub fn write_axis(canvas: &mut Canvas, scale: Scale) {
    let step = step_of(scale.until());
    for mark in 0..=MOST_MARKS {
        let instant = step.saturating_mul(mark);
        if instant <= scale.until() {
            write_mark(canvas, scale, instant);
        }
    }
    canvas.words("<text x=\"1900\" y=\"880\" text-anchor=\"end\">&#181;s</text>\n");
}

// Writes a mark of the axis.
fn write_mark(canvas: &mut Canvas, scale: Scale, instant: u64) {
    let x = scale.x(instant);
    canvas.begin_line((x, 910), (x, scale.bottom()));
    canvas.words("#888888\" stroke-width=\"5\" stroke-opacity=\"0.6\"/>");
    canvas.begin_text(x, 880);
    canvas.microseconds(" text-anchor=\"middle\">", instant);
    canvas.words("</text>\n");
}

// The least step, in nanoseconds, of which no more than the most marks are needed to reach an instant.
fn step_of(until: u64) -> u64 {
    for step in STEPS {
        if step.saturating_mul(MOST_MARKS) >= until {
            return step;
        }
    }
    100_000_000
}

/// Writes the line that marks the flowspan, where it is in the picture. Its label ends at the page's edge where it would be cut.
pub fn write_flowspan(canvas: &mut Canvas, sheet: &Sheet<'_>) {
    let end = flowspan(sheet);
    if end > sheet.scale.until() {
        return;
    }
    let x = sheet.scale.x(end);
    let bottom = sheet.scale.bottom();
    canvas.begin_line((x, TOP), (x, bottom));
    canvas.words("#c00000\" stroke-width=\"16\" stroke-dasharray=\"60 40\"/>");
    if x + HALF_LABEL > PAGE {
        canvas.begin_text(PAGE - 60, bottom + 150);
        canvas.words(" fill=\"#c00000\" text-anchor=\"end\">flowspan ");
    } else {
        canvas.begin_text(x, bottom + 150);
        canvas.words(" fill=\"#c00000\" text-anchor=\"middle\">flowspan ");
    }
    canvas.microseconds("", end);
    canvas.words(" &#181;s</text>\n");
}
