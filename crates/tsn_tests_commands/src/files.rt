//! Plans and certificates: what their files say, how they are made and printed, and the check of a plan alone.
ghost use Rattle.std.specs.Prelude.{◌≡◌, IfOk, length};

use std::alloc::Global;
use std::process::Abort;
use std::test::Fail;
use tsn_cert::{
    Cert, Chain, Chains, Entries, Entry, Format, Leaf, LowerBound, Node, Nodes, Offsets, Plan,
};
use tsn_check::{CheckFault, check_plan};
use tsn_codec::{cert_from_json, cert_to_json, plan_from_json, plan_to_json};
use tsn_model::{Frame, Triple};
use tsn_networks::TWO;
use tsn_timing::{Timing, Valid};

// The certificate file as it is printed.
fn printed(alloc: Global, file: &str) -> Result<String, Fail> {
    let cert = cert_from_json(alloc, file.as_bytes())?;
    let text = cert_to_json(alloc, &cert);
    drop(cert);
    Ok(text?)
}

// A text that isn't laid out as certificates are written is read as one that is.
#[test]
fn certificates_are_read_and_printed(rt: HostRuntime) -> Result<(), Fail> {
    let written =
        "{\"format\":2,\"nodes\":[[\"branch\",0,1,4],[\"late\",1,[0,65536]],[\"tie\",0,[0],[[],[0]]]],\"target\":9}\n";
    for file in [
        written,
        "{\"target\": 9,\n \"nodes\": [[\"branch\",0,1,4], [\"late\",1,[ 0,65536 ]],[\"tie\",0,[0],[[],[0]]]], \"format\": 2}",
    ] {
        assert_eq!(rt; printed(rt.alloc(), file)?.as_str(), written);
    }
    Ok(())
}

fn two_chains(alloc: Global) -> Result<Vec<Chain>, Fail>
    ensures { IfOk result (λ list. length list.items ≡ 2) }
{
    let none = Chain::of(alloc, &[])?;
    let two = Chain::of(alloc, &[2, 0])?;
    Ok(vec![in alloc; none, two]?)
}

fn two_entries(alloc: Global) -> Result<Vec<Entry>, Fail>
    ensures { IfOk result (λ list. length list.items ≡ 2) }
{
    let first = Entry {
        frame: Frame {
            stream: 3,
            shift: 0,
        },
        chain: Chain::of(alloc, &[])?,
    };
    let second = Entry {
        frame: Frame {
            stream: 5,
            shift: 1000,
        },
        chain: Chain::of(alloc, &[1, 0])?,
    };
    Ok(vec![in alloc; first, second]?)
}

fn a_branch() -> Node {
    Node::Branch(Triple {
        left: 0,
        right: 1,
        link: 4,
        lag: 0,
    })
}

// A node of each kind that a tree of format 2 has.
fn nodes(alloc: Global) -> Result<Vec<Node>, Fail> {
    let load = LowerBound::Load(7, Entries::of(two_entries(alloc)?));
    let late = LowerBound::Late(1, Chain::of(alloc, &[2, 0])?);
    let tie = Node::Tie(late, Chains::of(two_chains(alloc)?));
    Ok(vec![in alloc; a_branch(), Node::Leaf(Leaf::Bound(load)), tie]?)
}

#[test]
fn certificates_are_made(rt: HostRuntime) -> Result<(), Fail> {
    let cert = Cert {
        format: Format::Two,
        target: 9,
        nodes: Nodes::of(nodes(rt.alloc())?),
    };
    let text = cert_to_json(rt.alloc(), &cert);
    drop(cert);
    assert_eq!(rt;
        text?.as_str(),
        "{\"format\":2,\"nodes\":[[\"branch\",0,1,4],[\"load\",7,[[3,[]],[5,1000,[1,0]]]],[\"tie\",1,[2,0],[[],[2,0]]]],\"target\":9}\n"
    );
    Ok(())
}

fn expect_depths<R: Abort + AllocGlobal>(rt: &R, depths: &[usize]) -> Result<(), Fail> {
    assert!(rt; depths.len() <= 128);
    let chain = Chain::of(rt.alloc(), depths)?;
    assert!(rt; chain.to_vec(rt.alloc())?.as_slice() == depths);
    Ok(())
}

#[test]
fn chains_have_depths_of_any_size(rt: HostRuntime) -> Result<(), Fail> {
    expect_depths(&rt, &[])?;
    expect_depths(&rt, &[5; 128])?;
    expect_depths(&rt, &[65_535])?;
    expect_depths(&rt, &[65_535, 65_536, 4_294_967_295, 4_294_967_296])
}

const TWO_OFFSETS: &str = "{\"flowspan\":2924,\"offsets\":[0,672]}\n";

#[test]
fn plans_are_printed(rt: HostRuntime) -> Result<(), Fail> {
    let plan = Plan::Schedule {
        flowspan: 2924,
        offsets: Offsets::of(vec![in rt.alloc(); 0, 672]?),
    };
    let text = plan_to_json(rt.alloc(), &plan);
    drop(plan);
    assert_eq!(rt; text?.as_str(), TWO_OFFSETS);
    Ok(())
}

/// What the check of a plan alone says of its file.
fn checked(alloc: Global, timing: &Timing, file: &str) -> Result<Result<Valid, CheckFault>, Fail> {
    let plan = plan_from_json(alloc, file.as_bytes())?;
    let found = check_plan(alloc, timing, &plan);
    drop(plan);
    Ok(found)
}

#[test]
fn plans_alone_are_checked(rt: HostRuntime) -> Result<(), Fail> {
    let timing = TWO.timing(rt.alloc(), 1_000_000).ok_or("no network")?;
    let found = checked(rt.alloc(), &timing, TWO_OFFSETS)?;
    drop(timing);
    match found {
        Ok(valid) => assert!(rt; valid.offsets() == [0, 672].as_slice()),
        Err(_) => panic!(rt; "it is refused"),
    }
    Ok(())
}
