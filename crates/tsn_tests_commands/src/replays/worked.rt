//! Replays that were worked by hand.

use crate::replays::playing::{Play, expect_shown};
use std::process::Abort;
use std::test::Fail;
use tsn_networks::{Network, ONE, TWO};

// A frame of 64 octets occupies a link for (64 + 20) 8 = 672 ns, and is ready behind the bridge after
// (64 + 8) 8 + 50 + 1000 = 1626 ns. One of 1522 octets occupies a link for 1542 * 8 = 12336 ns.

/// One stream in a cycle of 10000 ns by these lists.
fn one<'a>(lists: &'a [&'a str]) -> Play<'a> {
    Play {
        network: ONE,
        cycle: 10_000,
        offsets: &[0],
        lists,
        cycles: 1,
        background: "",
    }
}

/// Both links are open to all for two cycles of 40000 ns, and a background frame always waits on each.
///
/// On link 0 the frame of cycle 0 goes first at instant 0, and background frames from 672 on, the fourth from 37680 until
/// 50016. So the frame of cycle 1, ready at 40000, starts at 50016, and background frames from 50688 on.
///
/// On link 4 a background frame starts at 0. The frame of cycle 0, ready at 1626, goes first when the wire is free, at
/// 12336, and background frames from 13008 on, the fourth from 50016 until 62352. The frame of cycle 1 was ready at
/// 50016 + 1626 = 51642 and goes first then, and background frames from 63024 on.
const COMPETED: &str = "one 0 0 0 0
one 0 1 1626 12336
one 1 0 40000 50016
one 1 1 41626 62352
late 3
0 672 1522
0 13008 1522
0 25344 1522
0 37680 1522
0 50688 1522
0 63024 1522
0 75360 1522
4 0 1522
4 13008 1522
4 25344 1522
4 37680 1522
4 50016 1522
4 63024 1522
4 75360 1522
";

#[test]
fn a_frame_waits_for_the_wire_alone(rt: HostRuntime) -> Result<(), Fail> {
    let play = Play {
        cycle: 40_000,
        cycles: 2,
        background: "greedy",
        ..one(&["0: FF 40000", "4: FF 40000"])
    };
    expect_shown(&rt, play, COMPETED)
}

/// Five frames wait, in this order: of 200, 64, 80, 105 and 100 octets. The third waits on link 0 from 100 on, where the
/// stream's frame has the wire until 672.
///
/// On link 4 the fourth waits from 50 on, the others from 100 on. So the fourth goes first, from 50 until
/// 50 + 125 * 8 = 1050, then the first, until 1050 + 220 * 8 = 2810. The stream's frame was ready at 1626 and goes before
/// the background, from 2810 until 3482. Then the second goes, until 4154, and then the last.
const IN_LINE: &str = "one 0 0 0 0
one 0 1 1626 2810
late 1
0 672 80
4 50 105
4 1050 200
4 3482 64
4 4154 100
";

const LINE: &str = "4 100 200, 4 100 64, 0 100 80, 4 50 105, 4 100 100";

#[test]
fn frames_of_one_instant_go_in_line(rt: HostRuntime) -> Result<(), Fail> {
    let play = Play {
        background: LINE,
        ..one(&["0: FF 10000", "4: FF 10000"])
    };
    expect_shown(&rt, play, IN_LINE)
}

/// One stream by its own lists, with background frames on the link to its receiver, for two cycles.
const LISTED: &str = "one 0 0 0 0
one 0 1 1626 1626
one 1 0 1000000 1000000
one 1 1 1001626 1001626
late 0
4 2298 64
4 2970 1522
4 989289 64
4 1002298 64
";

const FRAMES: &str = "4 2298 64, 4 2298 1522, 4 989289 64, 4 989290 64";

#[test]
fn background_frames_leave_room(rt: HostRuntime) -> Result<(), Fail> {
    let play = Play {
        cycle: 1_000_000,
        cycles: 2,
        background: FRAMES,
        ..one(&[])
    };
    expect_shown(&rt, play, LISTED)
}

/// Both frames start on their first links at 672, and are ready on link 4 at 2298: the first stream goes first there.
const TIED: &str = "one 0 0 0 672
one 0 1 1626 2298
two 0 0 672 672
two 0 1 2298 2970
late 3
";

/// The first starts at 673 and is ready at 2299, the second at 2298. Link 4 opens for both at 5000.
const BEHIND: &str = "one 0 0 0 673
one 0 1 1626 5672
two 0 0 672 672
two 0 1 2298 5000
late 3
";

/// Both are ready at 2298, and link 4 opens for both at 5000.
const TIED_LONGER: &str = "one 0 0 0 672
one 0 1 1626 5000
two 0 0 672 672
two 0 1 2298 5672
late 3
";

/// Replays the two streams by these lists, the second 672 ns behind the first.
fn expect_queue<R: Abort + AllocGlobal>(rt: &R, lists: &[&str], answer: &str) -> Result<(), Fail> {
    let play = Play {
        network: TWO,
        offsets: &[0, 672],
        ..one(lists)
    };
    expect_shown(rt, play, answer)
}

#[test]
fn streams_queue_by_readiness_then_by_number(rt: HostRuntime) -> Result<(), Fail> {
    let early = ["0: 00 672, FF 9328", "2: FF 10000", "4: FF 10000"];
    expect_queue(&rt, &early, TIED)?;
    let behind = ["0: 00 673, FF 9327", "2: FF 10000", "4: 7F 5000, FF 5000"];
    expect_queue(&rt, &behind, BEHIND)?;
    let longer = ["0: 00 672, FF 9328", "2: FF 10000", "4: 7F 5000, FF 5000"];
    expect_queue(&rt, &longer, TIED_LONGER)
}

/// Two cycles whose frames start on link 4 when they are ready.
const AT_ONCE: &str = "one 0 0 0 0
one 0 1 1626 1626
one 1 0 4000 4000
one 1 1 5626 5626
late 0
";

const NEVER: &str = "one 0 0 0 0
one 0 1 1626 -
one 1 0 4000 4000
one 1 1 5626 -
late 2
";

/// The first frame starts in the second's cycle, and the second doesn't start.
const A_CYCLE_LATER: &str = "one 0 0 0 0
one 0 1 1626 5625
one 1 0 4000 4000
one 1 1 5626 -
late 2
";

const ACROSS_THE_END: &str = "one 0 0 0 0
one 0 1 1626 3900
one 1 0 4000 4000
one 1 1 5626 7900
late 2
";

const AT_THE_SECOND_OPENING: &str = "one 0 0 0 0
one 0 1 1626 2372
one 1 0 4000 4000
one 1 1 5626 6372
late 2
";

/// In a cycle of 4000 ns.
#[test]
fn a_frame_fits_to_the_nanosecond(rt: HostRuntime) -> Result<(), Fail> {
    for (list, answer) in [
        // Open for 672 ns from the frame's readiness on, or for 671 ns.
        ("4: 00 1626, 80 672, 00 1702", AT_ONCE),
        ("4: 00 1626, 80 671, 00 1703", NEVER),
        // Open 1 ns too early: the first frame starts in the second's cycle, and has the wire until the gate closes.
        ("4: 00 1625, 80 672, 00 1703", A_CYCLE_LATER),
        // Open for the last 100 ns of a cycle and for 572 ns of the next one, also of that after the end; or for 571 ns.
        ("4: 80 572, 00 3328, 80 100", ACROSS_THE_END),
        ("4: 80 571, 00 3329, 80 100", NEVER),
        // A first opening that is 1 ns too short, and a second one.
        (
            "4: 00 1700, 80 671, 00 1, 80 672, 00 956",
            AT_THE_SECOND_OPENING,
        ),
        // What opens to other classes beside makes no difference.
        ("4: 7F 1626, 80 300, FF 371, 81 1, 7F 1702", AT_ONCE),
        ("4: 7F 1626, 80 300, FF 371, 01 1, 7F 1702", NEVER),
    ] {
        let lists = ["0: FF 4000", list];
        let play = Play {
            cycle: 4000,
            cycles: 2,
            ..one(&lists)
        };
        expect_shown(&rt, play, answer)?;
    }
    Ok(())
}

/// Three bridges in a ring, each with a station. Each stream goes two hops round the ring: link 6 (P to Q) feeds link 8
/// (Q to R), which feeds link 10 (R to P), which feeds link 6.
///
/// A frame of 105 octets occupies a link for (105 + 20) 8 = 1000 ns, and is ready on the next after
/// (105 + 8) 8 + 1096 = 2000 ns.
const RING: Network = Network {
    stations: &["A", "B", "C"],
    bridges: &[("P", 1096), ("Q", 1096), ("R", 1096)],
    cables: &[
        ("A", "P", 1000, 0),
        ("B", "Q", 1000, 0),
        ("C", "R", 1000, 0),
        ("P", "Q", 1000, 0),
        ("Q", "R", 1000, 0),
        ("R", "P", 1000, 0),
    ],
    streams: &[
        ("one", 105, "'A', 'P', 'Q', 'R', 'C'"),
        ("two", 105, "'B', 'Q', 'R', 'P', 'A'"),
        ("three", 105, "'C', 'R', 'P', 'Q', 'B'"),
    ],
};

/// Link 6 opens at 2500 in each cycle, and the lists of the other links leave 1000 ns for each frame when it is planned.
///
/// In cycle 0 stream `one` starts on link 6 at 2500, is ready on link 8 at 4500, and finds 500 ns left there. So it takes
/// `two`'s window there at 12000, for which it was ready first, and the next of its own windows on its last link, at 16000.
///
/// In cycle 1 `two` starts on link 8 in `one`'s window, at 14000, is ready on link 10 at 16000, and takes `three`'s window
/// there at 22000. `one` is on link 6 from 12500, is ready on link 8 at 14500, and takes `two`'s window at 22000 again.
///
/// In cycle 2 `three` so starts on link 10 at 24000, is ready on link 6 at 26000, and goes there at once, since `one` had
/// the wire from 22500 until 23500. On its last link it is ready at 28000, past the window at 26000. `one` is ready on
/// link 8 at 24500, and `two`, which started there at 24000, on link 10 at 26000: neither finds a window before the end.
const DELAYED: &str = "one 0 0 0 0
one 0 1 2000 2500
one 0 2 4000 12000
one 0 3 6000 16000
two 0 0 0 0
two 0 1 2000 2000
two 0 2 4000 4000
two 0 3 6000 6000
three 0 0 0 0
three 0 1 2000 2000
three 0 2 4000 4000
three 0 3 6000 6000
one 1 0 10000 10000
one 1 1 12000 12500
one 1 2 14000 22000
one 1 3 16000 26000
two 1 0 10000 10000
two 1 1 12000 14000
two 1 2 14000 22000
two 1 3 16000 26000
three 1 0 10000 10000
three 1 1 12000 12000
three 1 2 14000 14000
three 1 3 16000 16000
one 2 0 20000 20000
one 2 1 22000 22500
one 2 2 24000 -
one 2 3 26000 -
two 2 0 20000 20000
two 2 1 22000 24000
two 2 2 24000 -
two 2 3 26000 -
three 2 0 20000 20000
three 2 1 22000 24000
three 2 2 24000 26000
three 2 3 26000 -
late 18
";

#[test]
fn a_delay_goes_round_a_ring(rt: HostRuntime) -> Result<(), Fail> {
    let play = Play {
        network: RING,
        offsets: &[0, 0, 0],
        cycles: 3,
        ..one(&["6: 00 2500, 80 7500"])
    };
    expect_shown(&rt, play, DELAYED)
}
