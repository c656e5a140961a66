//! What is told of a tree of more than twelve nodes where no argument is told in its place. No row has a network without one.

use std::alloc::Global;
use std::test::Fail;
use tsn_codec::{certificate_from_json, plan_from_json};
use tsn_explain::{Tracker, explanation};
use tsn_networks::TWO;

fn explained(alloc: Global, plan: &str, certificate: &str) -> Result<String, Fail> {
    let problem = TWO.problem(alloc, 1_000_000).ok_or("no network")?;
    let plan = plan_from_json(alloc, plan.as_bytes())?;
    let certificate = certificate_from_json(alloc, certificate.as_bytes())?;
    let tracker = Tracker::new(alloc, &certificate);
    let text = explanation(alloc, &problem, &plan, &certificate, tracker);
    drop(certificate);
    drop(plan);
    drop(problem);
    Ok(text?)
}

/// The frames are on link 4 from 1626 on at the earliest, for 672 ns each. Of a path that has both orders, the second load's entries are
/// each behind the other: 2298 + 1344 - 46 = 3596. By each other load nothing is done before 1626 + 1344 - 46 = 2924, or, alone on link 0
/// behind the other one, 672 + 2252 = 2924.
const TREE: &str = "{\"format\":1,\"nodes\":[\
[\"branch\",0,1,4],\
[\"branch\",0,1,4],[\"late\",1,[0]],[\"load\",4,[[0,[1]],[1,[0]]]],\
[\"branch\",0,1,4],\
[\"branch\",0,1,4],[\"cycle\",[0,1]],[\"load\",4,[[0,[]],[1,[]]]],\
[\"branch\",0,1,4],[\"load\",0,[[0,[0]]]],\
[\"branch\",0,1,4],[\"late\",0,[0]],[\"late\",0,[1]]\
],\"target\":2924}";

const TOLD: &str = "\
No schedule is done before 2,924 ns.
7 ways to order frames are ruled out: 3 by a frame that arrives too late, 3 by the load of a link, 1 by orders that can't all hold.
The load of link 4, S to C, rules out 2.
The load of link 0, A to S, rules out 1.
In the tightest of these ways, on link 4, S to C, the frames of one and two take 1,344 ns together; the first can't start before 1,626, and the last one has arrived 46 ns before the gap behind it ends: so nothing is done before 2,924.
";

#[test]
fn large_trees_are_counted(rt: HostRuntime) -> Result<(), Fail> {
    let text = explained(rt.alloc(), "{\"flowspan\":2924,\"offsets\":[0,672]}", TREE)?;
    assert_eq!(rt; text.as_str(), TOLD);
    Ok(())
}
