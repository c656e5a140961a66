//! The planner by each method, and what its supervisor hears: of phases, of what no schedule undercuts, of what is learned, and of the
//! nodes on the way along a known schedule.

use crate::workers::planner::{expect, expect_stopped, planned};
use crate::workers::witness::{Account, Order, Witness};
use std::process::Abort;
use std::test::*;
use tsn_networks::{TEN, TWO};
use tsn_worker::Method;

/// Both streams are on the last link for 672 ns, the first no sooner than 1626, and arrive 46 ns before they are done with it: so
/// none finishes before 1626 + 1344 - 46.
#[test]
fn each_method_plans(rt: HostRuntime) -> Result<(), Fail> {
    for (method, workers, phases, settled) in [
        (Method::Auto, 1, 1, 3),
        (Method::FileOrder, 1, 1, 3),
        (Method::Learn, 1, 2, 2),
        (Method::Learn, 2, 2, 2),
    ] {
        let witness = Witness::new(rt, workers, Order::Work);
        let found = planned(&rt, TWO, &witness, (method, workers, 10))?;
        expect(&rt, &found, 2_924);
        assert_eq!(&rt; found.settled, settled);
        let account = witness.account();
        assert_eq!(&rt; (account.bound, account.phases), (2_924, phases));
    }
    Ok(())
}

/// How many nodes are settled by so many workers where the conflict-driven search has given up: no argument for the star of ten is as short
/// as the limit.
const FEW: usize = 5;

/// Where learning gives up the file is gone through along a schedule. A node on the way is settled by itself; without a known schedule
/// there would be a batch. Of two workers the caller settles these nodes, and passes once more before it finds that no more may be settled;
/// without a known schedule it would settle one node, and leave the others to the workers.
#[test]
fn where_learning_gives_up_a_schedule_is_followed(rt: HostRuntime) -> Result<(), Fail> {
    for workers in 1..3 {
        let witness = Witness::new(rt, workers, Order::Work);
        expect_stopped(&rt, TEN, &witness, (Method::Learn, workers, FEW))?;
        let account = witness.account();
        assert_eq!(&rt; (account.bound, account.phases), (8_300, 23));
        if workers == 1 {
            assert_eq!(&rt; (account.nodes, account.splits, account.most), (5, 5, 1));
        } else {
            assert_eq!(&rt; account.before, 6);
        }
    }
    Ok(())
}

/// What the link that both streams share has to carry asks for 2924. So the first question is whether both may arrive before: one
/// contradiction shows that they may not, and then when each begins. The second search asks that again. The first one tells behind that
/// question and before it asks of a stream, the second before it asks of a stream, and at its end.
#[test]
fn what_is_learned_is_heard(rt: HostRuntime) -> Result<(), Fail> {
    let witness = Witness::new(rt, 1, Order::Work);
    let found = planned(&rt, TWO, &witness, (Method::Learn, 1, 10))?;
    assert_eq!(&rt; found.settled, 2);
    expect_learned(&rt, &witness.account());
    Ok(())
}

fn expect_learned(rt: &impl Abort, account: &Account) {
    assert_eq!(rt; account.times, 6);
    assert_eq!(rt; account.aims, 12_122);
    assert_eq!(rt; account.conflicts, 111_222);
    assert_eq!(rt; account.least_bound, 2_924);
    assert!(rt; !account.has_changed);
    match account.learned {
        Some(last) => assert_eq!(rt;
            (last.flowspan, last.streams, last.bound),
            (Some(2_924), 2, 2_924)
        ),
        None => panic!(rt; "nothing was learned"),
    }
}
