//! The bounds on a network's times that follow from its limits, in nanoseconds, where nothing else is said.

/// The least octets of a frame, from the destination address to the check sequence (IEEE 802.3).
pub const MIN_OCTETS: u64 = 64;

/// The most octets of a frame, from the destination address to the check sequence (IEEE 802.3: the greatest tagged one).
pub const MAX_OCTETS: u64 = 1522;

/// The octets that go before a frame on a link: the preamble and the start of the frame (IEEE 802.3).
pub const PREAMBLE_OCTETS: u64 = 8;

/// The octets that a frame takes on a link besides its own: those before it, and the interframe gap of 12 behind it.
pub const OVERHEAD_OCTETS: u64 = PREAMBLE_OCTETS + 12;

/// The most octets that a frame takes on a link.
pub const MAX_OCTETS_ON_LINK: u64 = MAX_OCTETS + OVERHEAD_OCTETS;

/// The longest that an octet takes: at 10 Mb/s.
pub const MAX_OCTET_TIME: u64 = 800;

/// The longest that a frame occupies a link.
pub const MAX_OCCUPANCY: u64 = MAX_OCTETS_ON_LINK * MAX_OCTET_TIME;

/// The longest from a frame's start on a link until its last octet is at the other end: propagation takes at most 1,000,000.
pub const MAX_TRANSFER: u64 = (MAX_OCTETS + PREAMBLE_OCTETS) * MAX_OCTET_TIME + 1_000_000;

/// The longest from a frame's start on a link until the node at its end may start it again: processing takes at most
/// 1,000,000.
pub const MAX_HOP_DELAY: u64 = MAX_TRANSFER + 1_000_000;

/// The most frames that a stream sends in a period.
pub const MAX_BURST: u64 = 16;

/// The longest from the first frame of a period to the last.
pub const MAX_SPREAD: u64 = (MAX_BURST - 1) * MAX_OCCUPANCY;

/// The latest start on a hop, counted from a frame's start on the first one: a route has at most 64 hops.
pub const MAX_START: u64 = 64 * MAX_HOP_DELAY;

/// The latest arrival and the latest end of an occupancy, counted from the stream's offset, are below this.
pub const MAX_SPAN: u64 = 230_000_000;

/// The most frames that all streams together send in a cycle.
pub const MAX_FRAMES: u64 = 65_536;

/// The longest that all frames of a cycle together occupy a link.
pub const MAX_WORK: u64 = MAX_FRAMES * MAX_OCCUPANCY;
