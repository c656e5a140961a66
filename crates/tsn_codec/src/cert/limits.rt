//! Which number of a tree is above its limit in a file.
ghost use Rattle.std.specs.Prelude.{◌≡◌, position, not};
ghost use Rattle.std.specs.List.{list_all};
ghost use Rattle.tsn_model.specs.Certificate.{load};
ghost use Rattle.tsn_cert.specs.Json.{all_within};
ghost use Rattle.tsn_cert.specs.Leaf.{bound_leaf, leaf_of};
ghost use Rattle.tsn_cert.specs.Node.{tree_node};
ghost use Rattle.tsn_cert.specs.Cert.{triple_fits, entry_fits, leaf_fits, node_fits, max_number, cert_fits};
ghost use Rattle.tsn_codec.specs.Matter.{node_lags, FindsExcess, IsTreeExcess};

use tsn_cert::chain::{Chain, MAX_NUMBER};
use tsn_cert::plan::MAX_TIME;
use tsn_cert::{Cert, Entries, Entry, Excess, Key, Leaf, LowerBound, Node, limits};
use tsn_model::Triple;

fn chain_fits(chain: &Chain) -> bool
    ensures { result ≡ all_within max_number chain.now }
{
    chain.fits()
}

fn entry_fits(entry: &Entry) -> bool
    ensures { result ≡ entry_fits entry.now }
{
    limits::frame_fits(entry.frame) && chain_fits(&entry.chain)
}

fn entries_fit(entries: &[Entry]) -> bool
    ensures { result ≡ list_all entry_fits entries.now }
{
    for entry in entries {
        if !entry_fits(entry) {
            return false;
        }
    }
    true
}

fn chains_fit(chains: &[Chain]) -> bool
    ensures { result ≡ list_all (all_within max_number) chains.now }
{
    for chain in chains {
        if !chain_fits(chain) {
            return false;
        }
    }
    true
}

fn load_fits(link: usize, entries: &Entries) -> bool
    ensures { result ≡ leaf_fits (load link entries.now) }
{
    link <= MAX_NUMBER && entries_fit(entries.list())
}

fn bound_fits(bound: &LowerBound) -> bool
    ensures { result ≡ leaf_fits (bound_leaf bound.now) }
{
    match bound {
        LowerBound::Late(stream, chain) => *stream <= MAX_NUMBER && chain_fits(chain),
        LowerBound::Load(link, entries) => load_fits(*link, entries),
    }
}

fn leaf_fits(leaf: &Leaf) -> bool
    ensures { result ≡ leaf_fits (leaf_of leaf.now) }
{
    match leaf {
        Leaf::Bound(bound) => bound_fits(bound),
        Leaf::Overrun(stream, chain) => *stream <= MAX_NUMBER && chain_fits(chain),
        Leaf::Cycle(chain) => chain_fits(chain),
        Leaf::Overload(link, entries) => load_fits(*link, entries),
    }
}

fn triple_fits(triple: &Triple) -> bool
    ensures { result ≡ triple_fits triple.now }
{
    triple.left <= MAX_NUMBER
        && triple.right <= MAX_NUMBER
        && triple.link <= MAX_NUMBER
        && limits::lag_fits(triple.lag)
}

fn node_fits(node: &Node) -> bool
    ensures { result ≡ node_fits (tree_node node.now) }
{
    match node {
        Node::Branch(triple) => triple_fits(triple),
        Node::Leaf(leaf) => leaf_fits(leaf),
        Node::Tie(bound, chains) => bound_fits(bound) && chains_fit(chains.list()),
    }
}

// Whether the node has a lag other than 0.
fn has_lag(node: &Node) -> bool
    ensures { result ≡ node_lags (tree_node node.now) }
{
    matches!(node, Node::Branch(triple) if triple.lag != 0)
}

// The number of the first node with a number above its limit.
fn first_large(nodes: &[Node]) -> Option<usize>
    ensures { result ≡ position (λ node. not (node_fits (tree_node node))) nodes.now }
{
    for (number, node) in nodes.iter().enumerate() {
        if !node_fits(node) {
            return Some(number);
        }
    }
    None
}

/// The first number above its limit; none where each is within.
pub(super) fn excess(cert: &Cert) -> Option<Excess>
    ensures { FindsExcess (cert_fits cert.now) (IsTreeExcess cert.now) result }
{
    if cert.target > MAX_TIME {
        return Some(Excess::At(Key::Target, cert.target));
    }
    let nodes = cert.nodes.list();
    match first_large(nodes) {
        Some(number) => {
            let lags = has_lag(&nodes[number]);
            Some(Excess::OfNode { number, lags })
        }
        None => None,
    }
}
