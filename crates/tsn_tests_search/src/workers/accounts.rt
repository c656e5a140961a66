//! What a supervisor hears, added up: each node is told of once, behind a pass of the supervisor.

use crate::workers::planner::{Outcome, by, expect, expect_stopped, few_by, planned};
use crate::workers::witness::{Account, Order, Witness};
use std::process::Abort;
use std::test::*;
use tsn_networks::{TEN, TWELVE, TWO};

/// The least flowspan of the star of ten.
const LEAST: u64 = 8_300;

/// By one worker, by several, by the caller behind workers that are stopped, and by as many as there may be. Of several the caller
/// has the last number.
const PLANS: [(usize, Order, usize); 4] = [
    (1, Order::Work, 0),
    (4, Order::Work, 4),
    (4, Order::StopBatches, 4),
    (16, Order::Work, 16),
];

#[test]
fn each_node_is_told_of_once(rt: HostRuntime) -> Result<(), Fail> {
    for (workers, order, last) in PLANS {
        let witness = Witness::new(rt, workers, order);
        let found = planned(&rt, TEN, &witness, by(workers))?;
        expect(&rt, &found, LEAST);
        expect_sums(&rt, &witness.account(), &found, last);
    }
    Ok(())
}

/// Nothing is open at the end, so one node more is closed than is split.
fn expect_sums(rt: &impl Abort, account: &Account, found: &Outcome, last: usize) {
    assert_eq!(rt; account.nodes, found.settled as u64);
    assert_eq!(rt;
        account.nodes,
        account.splits.saturating_mul(2).saturating_add(1)
    );
    assert_eq!(rt; Some(account.least), found.flowspan);
    assert_eq!(rt; account.late, 0);
    assert!(rt; account.passes_of(last) > 0);
    assert_eq!(rt;
        account.passes_below(last.saturating_add(1)),
        account.all_passes()
    );
}

/// Where a worker is held at the supervisor until the other one has settled what may be settled, it has settled nothing.
#[test]
fn what_is_held_by_the_supervisor_isnt_settled(rt: HostRuntime) -> Result<(), Fail> {
    // Less nodes than are below each side of the star's root.
    let witness = Witness::new(rt, 2, Order::HoldZero(50));
    expect_stopped(&rt, TEN, &witness, few_by(2, 50))?;
    let account = witness.account();
    assert_eq!(&rt; (account.by_zero, account.nodes), (0, 50));
    Ok(())
}

/// A batch has 64 nodes where there are as many above the first schedule.
#[test]
fn a_batch_has_sixty_four_nodes(rt: HostRuntime) -> Result<(), Fail> {
    for workers in 1..3 {
        let witness = Witness::new(rt, workers, Order::Work);
        expect_stopped(&rt, TWELVE, &witness, few_by(workers, 100))?;
        let account = witness.account();
        assert_eq!(&rt; (account.nodes, account.most), (100, 64));
        assert!(&rt; account.splits <= account.nodes);
    }
    Ok(())
}

/// The last node that may be settled is the first that is solved: twelve frames of 672 ns after one another, the last of which
/// arrives 2252 ns after it is sent; and one of the two streams' three nodes, which is solved by one of the workers.
#[test]
fn what_is_solved_last_is_told(rt: HostRuntime) -> Result<(), Fail> {
    for (network, workers, limit, flowspan) in [(TWELVE, 1, 67, 9_644), (TWO, 2, 2, 2_924)] {
        let witness = Witness::new(rt, workers, Order::Work);
        expect_stopped(&rt, network, &witness, few_by(workers, limit))?;
        let account = witness.account();
        assert_eq!(&rt; account.nodes, limit as u64);
        assert_eq!(&rt; account.splits.saturating_add(1), account.nodes);
        assert_eq!(&rt; account.least, flowspan);
    }
    Ok(())
}

/// One worker settles the root and its two sides, as far as the limit goes, each behind one pass.
#[test]
fn one_worker_passes_once_a_settlement(rt: HostRuntime) -> Result<(), Fail> {
    for (limit, flowspan) in [
        (1, None),
        (2, None),
        (3, Some(2_924)),
        (1_000_000, Some(2_924)),
    ] {
        let witness = Witness::new(rt, 1, Order::Work);
        let found = planned(&rt, TWO, &witness, few_by(1, limit))?;
        assert_eq!(&rt; (found.flowspan, found.settled), (flowspan, limit.min(3)));
        assert_eq!(&rt; witness.account().passes_of(0), found.settled as u64);
    }
    Ok(())
}

/// A worker that waits for the other one meets it only where each has a thread of its own.
#[test]
fn a_plan_by_two_is_made_by_two(rt: HostRuntime) -> Result<(), Fail> {
    let witness = Witness::new(rt, 2, Order::Meet);
    expect(&rt, &planned(&rt, TWO, &witness, by(2))?, 2_924);
    assert!(&rt; !witness.account().went_alone);
    Ok(())
}
