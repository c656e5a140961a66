//! The parts of a certificate, read from tokens.
ghost use Rattle.std.specs.Prelude.{◌≡◌, Some, drop, nat_le, option_and_then};
ghost use Rattle.tsn_model.specs.Certificate.{split_node, leaf_node, tie_node, late, positive_cycle, load};
ghost use Rattle.tsn_cert.specs.Form.{becomes, closed, either_row, next, over, row_of};
ghost use Rattle.tsn_cert.specs.Json.{when};
ghost use Rattle.tsn_cert.specs.Leaf.{bound_leaf};
ghost use Rattle.tsn_cert.specs.Node.{tree_node};
ghost use Rattle.tsn_cert.specs.Cert.{chain_form, chain_row, chains_form, first_frame, reason_row, triple_row, cycle_row, first_entry_row, later_entry_row, entry_form, entries_form, chain_value, entry_value, node_value, load_row, tie_row, tie_load_row, node_rows, node_form, nodes_form, format_form, format_numbered};
ghost use Rattle.tsn_codec.specs.Takes.{Takes};
ghost use Rattle.tsn_codec.specs.CertSays.{chain_element, entry_element, node_element};

use crate::cert::print;
use crate::list::{Element, few, list};
use crate::tokens::{Tokens, Unread};
use serde_json::Value;
use std::alloc::{AllocError, Global};
use tsn_cert::chain::{Chain, Chains, MAX_CHAINS};
use tsn_cert::entry::{Entries, Entry, MAX_ENTRIES};
use tsn_cert::{Format, Leaf, LowerBound, Node, Nodes};
use tsn_model::{Frame, Triple};

// ---- chains and entries

impl Element for Chain {
    ghost use Rattle.std.specs.Prelude.{ℕ, List};

    ghost Said = { List ℕ };

    ghost seen = { λ chain. chain };

    ghost form = { chain_form };

    fn take(tokens: &mut Tokens<'_>) -> Result<Chain, Unread> {
        tokens.chain()
    }

    ghost written = { chain_value };

    #[tactic(auto, using(crate::proofs::CertLemmas::chain_back))]
    fn print(&self, alloc: Global) -> Result<Value, AllocError> {
        print::chain_value(alloc, self)
    }

    ghost says = { chain_element };
}

// Chains of a tie.
#[tactic(auto, using(crate::proofs::Elements::map_same))]
fn chains(tokens: &mut Tokens<'_>) -> Result<Chains, Unread>
    ensures { Takes (λ chains. chains) result (chains_form.taken tokens.old) tokens.new }
{
    let found = few::<Chain>(tokens, MAX_CHAINS)?;
    Ok(Chains::of(found))
}

// A chain, and a shift before it where that isn't 0, behind the stream of a frame, with the end of their array.
fn entry(tokens: &mut Tokens<'_>, stream: usize) -> Result<Entry, Unread>
    ensures { Takes (λ entry. entry) result
        ((either_row (first_entry_row stream) (later_entry_row stream)).rest tokens.old) tokens.new }
{
    match tokens.number_or_open()? {
        Some(shift) => later_entry(tokens, stream, shift),
        None => first_entry(tokens, stream),
    }
}

// A chain behind the stream of a frame and the bracket that opens the chain, with the end of their array.
fn first_entry(tokens: &mut Tokens<'_>, stream: usize) -> Result<Entry, Unread>
    ensures { Takes (λ entry. entry) result
        (option_and_then (λ p. closed (record { frame = first_frame stream; chain = p.0 }) p.1) (chain_row.rest tokens.old)) tokens.new }
{
    let chain = tokens.chain_behind()?;
    tokens.close_array()?;
    let frame = Frame { stream, shift: 0 };
    Ok(Entry { frame, chain })
}

// A chain behind a frame whose shift is above 0, with the end of their array.
fn later_entry(tokens: &mut Tokens<'_>, stream: usize, shift: u64) -> Result<Entry, Unread>
    ensures { Takes (λ entry. entry) result (option_and_then
        (λ s. (next chain_form (λ depths. over (record { frame = record { stream = stream; shift = s }; chain = depths }))).rest tokens.old)
        (when (nat_le 1 shift) (Some shift))) tokens.new }
{
    if shift == 0 {
        return Err(Unread::OtherForm);
    }
    let chain = tokens.chain()?;
    tokens.close_array()?;
    let frame = Frame { stream, shift };
    Ok(Entry { frame, chain })
}

impl Element for Entry {
    ghost use Rattle.tsn_model.specs.Certificate.{Entry};

    ghost Said = { Entry };

    ghost seen = { λ entry. entry };

    ghost form = { entry_form };

    fn take(tokens: &mut Tokens<'_>) -> Result<Entry, Unread> {
        tokens.open_array()?;
        let stream = tokens.index()?;
        entry(tokens, stream)
    }

    ghost written = { entry_value };

    fn print(&self, alloc: Global) -> Result<Value, AllocError> {
        print::entry_value(alloc, self)
    }

    ghost says = { entry_element };
}

// Entries of a leaf.
#[tactic(auto, using(crate::proofs::Elements::map_same))]
fn entries(tokens: &mut Tokens<'_>) -> Result<Entries, Unread>
    ensures { Takes (λ entries. entries) result (entries_form.taken tokens.old) tokens.new }
{
    let found = few::<Entry>(tokens, MAX_ENTRIES)?;
    Ok(Entries::of(found))
}

// ---- what stands behind the word of a node

// Two streams, a link and a lag, with the end of their array.
fn branch(tokens: &mut Tokens<'_>) -> Result<Node, Unread>
    ensures { Takes tree_node result ((becomes split_node triple_row).rest tokens.old) tokens.new }
{
    let left = tokens.index()?;
    let right = tokens.index()?;
    let link = tokens.index()?;
    let lag = tokens.lag_and_end()?;
    Ok(Node::Branch(Triple {
        left,
        right,
        link,
        lag,
    }))
}

// A stream and a chain, with the end of their array.
fn reason(tokens: &mut Tokens<'_>) -> Result<(usize, Chain), Unread>
    ensures { Takes (λ reason. reason) result (reason_row.rest tokens.old) tokens.new }
{
    let stream = tokens.index()?;
    let chain = tokens.chain()?;
    tokens.close_array()?;
    Ok((stream, chain))
}

// A chain alone, with the end of its array.
fn cycle(tokens: &mut Tokens<'_>) -> Result<Node, Unread>
    ensures { Takes tree_node result ((becomes (λ depths. leaf_node (positive_cycle depths)) cycle_row).rest tokens.old) tokens.new }
{
    let chain = tokens.chain()?;
    tokens.close_array()?;
    Ok(Node::Leaf(Leaf::Cycle(chain)))
}

// A link and entries, with the end of their array.
fn load(tokens: &mut Tokens<'_>) -> Result<(usize, Entries), Unread>
    ensures { Takes (λ load. load) result (load_row.rest tokens.old) tokens.new }
{
    let link = tokens.index()?;
    let entries = entries(tokens)?;
    tokens.close_array()?;
    Ok((link, entries))
}

// A stream, a chain and chains, with the end of their array.
fn tie(tokens: &mut Tokens<'_>) -> Result<Node, Unread>
    ensures { Takes tree_node result ((becomes (λ t. tie_node (late t.0 t.1) t.2) tie_row).rest tokens.old) tokens.new }
{
    let stream = tokens.index()?;
    let chain = tokens.chain()?;
    tie_behind(tokens, LowerBound::Late(stream, chain))
}

// A link, entries and chains, with the end of their array.
fn tie_load(tokens: &mut Tokens<'_>) -> Result<Node, Unread>
    ensures { Takes tree_node result ((becomes (λ t. tie_node (load t.0 t.1) t.2) tie_load_row).rest tokens.old) tokens.new }
{
    let link = tokens.index()?;
    let entries = entries(tokens)?;
    tie_behind(tokens, LowerBound::Load(link, entries))
}

// The chains of a tie of this bound, with the end of their array.
fn tie_behind(tokens: &mut Tokens<'_>, bound: LowerBound) -> Result<Node, Unread>
    ensures { Takes tree_node result ((next chains_form (λ chains. over (tie_node (bound_leaf bound) chains))).rest tokens.old) tokens.new }
{
    match last_chains(tokens) {
        Ok(chains) => Ok(Node::Tie(bound, chains)),
        Err(error) => {
            drop(bound);
            Err(error)
        }
    }
}

// Chains alone, with the end of their array.
fn last_chains(tokens: &mut Tokens<'_>) -> Result<Chains, Unread>
    ensures { Takes (λ chains. chains) result ((next chains_form over).rest tokens.old) tokens.new }
{
    let chains = chains(tokens)?;
    tokens.close_array()?;
    Ok(chains)
}

// ---- nodes

// What stands behind the word of a node.
fn node(tokens: &mut Tokens<'_>, word: &str) -> Result<Node, Unread>
    ensures { Takes tree_node result ((row_of node_rows word.now).rest tokens.old) tokens.new }
{
    if word == "branch" {
        branch(tokens)
    } else if word == "late" {
        let (stream, chain) = reason(tokens)?;
        Ok(Node::Leaf(Leaf::Bound(LowerBound::Late(stream, chain))))
    } else {
        chain_node(tokens, word)
    }
}

// The same of the words behind the first two.
fn chain_node(tokens: &mut Tokens<'_>, word: &str) -> Result<Node, Unread>
    ensures { Takes tree_node result ((row_of (drop 2 node_rows) word.now).rest tokens.old) tokens.new }
{
    if word == "overrun" {
        let (stream, chain) = reason(tokens)?;
        Ok(Node::Leaf(Leaf::Overrun(stream, chain)))
    } else if word == "cycle" {
        cycle(tokens)
    } else {
        later_node(tokens, word)
    }
}

// The same of the words behind the first four.
fn later_node(tokens: &mut Tokens<'_>, word: &str) -> Result<Node, Unread>
    ensures { Takes tree_node result ((row_of (drop 4 node_rows) word.now).rest tokens.old) tokens.new }
{
    if word == "load" {
        let (link, entries) = load(tokens)?;
        Ok(Node::Leaf(Leaf::Bound(LowerBound::Load(link, entries))))
    } else if word == "overload" {
        let (link, entries) = load(tokens)?;
        Ok(Node::Leaf(Leaf::Overload(link, entries)))
    } else {
        last_node(tokens, word)
    }
}

// The same of the last two words.
fn last_node(tokens: &mut Tokens<'_>, word: &str) -> Result<Node, Unread>
    ensures { Takes tree_node result ((row_of (drop 6 node_rows) word.now).rest tokens.old) tokens.new }
{
    if word == "tie" {
        tie(tokens)
    } else if word == "tieload" {
        tie_load(tokens)
    } else {
        Err(Unread::OtherForm)
    }
}

impl Element for Node {
    ghost use Rattle.tsn_model.specs.Certificate as tree;

    ghost Said = { tree.Node };

    ghost seen = { tree_node };

    ghost form = { node_form };

    fn take(tokens: &mut Tokens<'_>) -> Result<Node, Unread> {
        tokens.open_array()?;
        let word = tokens.word()?;
        node(tokens, word)
    }

    ghost written = { node_value };

    fn print(&self, alloc: Global) -> Result<Value, AllocError> {
        print::node_value(alloc, self)
    }

    ghost says = { node_element };
}

/// The nodes of a certificate.
pub(super) fn nodes(tokens: &mut Tokens<'_>) -> Result<Nodes, Unread>
    ensures { Takes (λ nodes. nodes) result (nodes_form.taken tokens.old) tokens.new }
{
    Ok(Nodes::of(list::<Node>(tokens)?))
}

// ---- the format

/// The format of that number.
pub(super) fn format_numbered(number: u64) -> Option<Format>
    ensures { result ≡ format_numbered number }
{
    if number == 1 {
        Some(Format::One)
    } else if number == 2 {
        Some(Format::Two)
    } else {
        None
    }
}

pub(super) fn format(tokens: &mut Tokens<'_>) -> Result<Format, Unread>
    ensures { Takes (λ format. format) result (format_form.taken tokens.old) tokens.new }
{
    let number = tokens.number()?;
    format_numbered(number).ok_or(Unread::OtherForm)
}
