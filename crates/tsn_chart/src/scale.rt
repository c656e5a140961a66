//! Where things stand: in units of a tenth of a pixel.
ghost use Rattle.std.specs.Prelude.{◌≡◌, ◌≤◌};

/// The left edge of the rows, after their labels.
pub const LEFT: u64 = 2000;

/// How wide the rows are.
pub const WIDTH: u64 = 12_000;

/// How wide the picture is.
pub const PAGE: u64 = LEFT + WIDTH + 400;

/// The upper edge of the first row.
pub const TOP: u64 = 960;

// The most rows that are drawn.
const MOST_ROWS: usize = 4096;

/// How instants and rows are placed.
#[derive(Clone, Copy)]
pub struct Scale {
    /// The instant at the right edge, in nanoseconds.
    until: u64,
    rows: usize,
    row_height: u64,
    font: u64,

    ghost some: { 1 ≤ until },
    ghost few: { until ≤ 1000000000 },
    ghost rows_few: { rows ≤ 4096 },
    ghost height: { row_height ≤ 300 },
    ghost font_small: { font ≤ 120 },
}

impl Scale {
    /// The scale of so many rows, the lower the more there are, from 0 to an instant.
    pub fn new(until: u64, rows: usize) -> Scale
        requires some { 1 ≤ until }
        requires few { until ≤ 1_000_000_000 }
    {
        let rows = rows.min(MOST_ROWS);
        let (row_height, font) = if rows <= 32 {
            (300, 120)
        } else if rows <= 96 {
            (220, 110)
        } else {
            (160, 100)
        };
        Scale {
            until,
            rows,
            row_height,
            font,
        }
    }

    /// The instant at the right edge.
    pub fn until(&self) -> u64
        ensures some { 1 ≤ result }
        ensures few { result ≤ 1_000_000_000 }
    {
        self.until
    }

    /// How high a row is.
    pub fn row_height(&self) -> u64
        ensures { result ≤ 300 }
    {
        self.row_height
    }

    /// How high letters are.
    pub fn font(&self) -> u64
        ensures { result ≤ 120 }
    {
        self.font
    }

    /// Where an instant stands; one past the right edge stands there.
    pub fn x(&self, instant: u64) -> u64
        ensures { result ≤ 14_000 }
    {
        let along = instant.min(self.until) * WIDTH / self.until;
        LEFT + along.min(WIDTH)
    }

    /// The upper edge of a row.
    pub fn y(&self, row: usize) -> u64
        ensures { result ≤ 1_300_000 }
    {
        TOP + row.min(MOST_ROWS) as u64 * self.row_height
    }

    /// The lower edge of the last row.
    pub fn bottom(&self) -> u64
        ensures { result ≤ 1_300_000 }
    {
        self.y(self.rows)
    }
}
