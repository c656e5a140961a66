//! Two tellers that share a search, without threads.
ghost use Rattle.std.specs.Prelude.{◌≡◌};
ghost use Rattle.tsn_core.specs.Shared.{IsProved};

use crate::nodes::nodes::event_of;
use crate::nodes::rows::{cut, expect_text, number, place, timing_of};
use std::process::Abort;
use std::test::*;
use tsn_core::{Core, Reply, Step};
use tsn_networks::TWO;
use tsn_timing::Timing;

/// A whole search by tellers 0 and 1: what a teller does, the reply to it, and whether the search is quiet then. Its right side
/// is to be pruned by the least flowspan, and is tied with the schedule in which the first stream goes first.
const SEARCH: &str = "\
0, root: split 4 = Settled false
1, observe = Found(1000001) false
1, Right 4: 2924 = NotAllowed false
0, Left 4: 1000001 = Settled false
1, post 2924 = NotAllowed false
0, post 2924 = Found(1000001) false
1, observe = Found(2924) false
1, Right 4: 2924 = NotAllowed false
1, Right 4: 2925 beside 0 672 = Settled true
1, Right 4: 2925 beside 0 672 = Refused(NotOpen(Some(2))) true";

/// The step of a teller, as `0, observe`, `0, post 2924` or `0, Left 4: 2924`.
fn step_of<R: Abort + AllocGlobal>(rt: &R, timing: &Timing, asked: &str) -> Step
    ensures { IsProved timing.now result }
{
    let (teller, act) = cut(rt, asked, ", ");
    let teller = place(rt, teller);
    if act == "observe" {
        return Step::Observe(teller);
    }
    match act.strip_prefix("post ") {
        Some(flowspan) => Step::Post(teller, number(rt, flowspan)),
        None => Step::Settle(teller, event_of(rt, timing, act)),
    }
}

fn core_of<R: Abort + AllocGlobal>(rt: &R, timing: &Timing) -> Core
    ensures { result.network ≡ timing.now }
{
    Core::new(rt.alloc(), timing, 2, 10).expect(rt, "memory")
}

fn is_quiet(core: &Core) -> bool {
    core.quiet()
}

/// Takes a step.
fn taken(rt: &impl Abort, core: &mut Core, step: Step) -> Reply
    requires { IsProved core.old.network step }
    ensures { core.new.network ≡ core.old.network }
{
    core.apply(step).expect(rt, "memory")
}

fn reply_text<R: Abort + AllocGlobal>(rt: &R, reply: Reply, quiet: bool) -> String {
    format!(in rt.alloc(); "{reply:?} {quiet}").expect(rt, "memory")
}

/// Takes the step of a row, with that reply.
fn expect_reply<R: Abort + AllocGlobal>(rt: &R, core: &mut Core, timing: &Timing, row: &str)
    requires { core.old.network ≡ timing.now }
    ensures { core.new.network ≡ core.old.network }
{
    let (asked, wanted) = cut(rt, row, " = ");
    let reply = taken(rt, core, step_of(rt, timing, asked));
    let found = reply_text(rt, reply, is_quiet(core));
    expect_text(rt, found.as_str(), wanted, asked);
}

/// Takes the steps of all rows.
fn one_by_one<R: Abort + AllocGlobal>(rt: &R, core: &mut Core, timing: &Timing, rows: &str)
    requires { core.old.network ≡ timing.now }
{
    for row in rows.lines() {
        expect_reply(rt, core, timing, row);
    }
}

#[test]
fn two_tellers_share_a_search(rt: HostRuntime) {
    let timing = timing_of(&rt, TWO, "1000000");
    let mut core = core_of(&rt, &timing);
    assert!(rt; !is_quiet(&core));
    one_by_one(&rt, &mut core, &timing, SEARCH);
    drop(core);
    drop(timing);
}
