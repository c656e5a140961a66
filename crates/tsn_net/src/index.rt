//! Where the elements of lists stand, by hash.
ghost use Rattle.std.specs.Prelude.{◌≡◌, ◌&&◌, ℕ, List, map, IfOk, OnOk};
ghost use Rattle.std.specs.List.{list_any};
ghost use Rattle.std.specs.Str.{bytes_eq};
ghost use Rattle.indexmap.specs.IndexSet.{contains_by};
ghost use Rattle.std.specs.Option.{option_copied};
ghost use Rattle.toml.specs.View.{view};
ghost use Rattle.tsn_net.specs.Schema.{holds_at, is_this_text};
ghost use Rattle.tsn_net.specs.Document.{text_at};
ghost use Rattle.tsn_net.specs.Index.{Enters, AreLinkNumbers, AreNameNumbers, AreStations, AreBridges, AreCableNumbers, below};

use crate::document::text_at;
use crate::schema::{Key, has_node_kind};
use indexmap::{IndexMap, IndexSet};
use std::alloc::{AllocError, Global};
use std::hash::Hash;
use toml::Value;
use tsn_model::Link;

// Enters the number of a key; a key that is there keeps its own.
fn enter<K: Eq + Hash + Drop>(
    numbers: &mut IndexMap<K, usize>,
    key: K,
    number: usize,
) -> Result<(), AllocError>
    ensures { OnOk result (Enters K.eq numbers.old numbers.new key number) }
{
    if !numbers.contains_key(&key) {
        numbers.insert(key, number)?;
    }
    Ok(())
}

/// Links, and the number of the first from one node to another.
#[derive(Drop)]
pub(crate) struct LinkIndex<'a> {
    pub(crate) links: &'a [Link],
    pub(crate) numbers: IndexMap<(usize, usize), usize>,
    ghost first: { AreLinkNumbers links.now numbers },
}

impl<'a> LinkIndex<'a> {
    pub(crate) fn of(alloc: Global, links: &'a [Link]) -> Result<LinkIndex<'a>, AllocError>
        ensures { IfOk result (λ index. index.links.now ≡ links.now) }
    {
        let numbers = number_links(alloc, links)?;
        Ok(LinkIndex { links, numbers })
    }
}

fn number_links(
    alloc: Global,
    links: &[Link],
) -> Result<IndexMap<(usize, usize), usize>, AllocError>
    ensures { IfOk result (λ numbers. AreLinkNumbers links.now numbers) }
{
    let mut numbers = IndexMap::new(alloc);
    for (k, link) in links.iter().enumerate() {
        enter(&mut numbers, (link.from, link.to), k)?;
    }
    Ok(numbers)
}

// The number of the first of some tables of each name.
fn number_names<'a>(
    alloc: Global,
    tables: &'a [Value],
) -> Result<IndexMap<&'a str, usize>, AllocError>
    ensures { IfOk result (λ numbers. AreNameNumbers (map view tables.now) numbers) }
{
    let mut numbers = IndexMap::new(alloc);
    for (k, table) in tables.iter().enumerate() {
        enter(&mut numbers, text_at(table, Key::Name), k)?;
    }
    Ok(numbers)
}

/// By hash, the number of the first node and of the first stream of each name, and of the first cable between two nodes.
#[derive(Drop)]
pub(crate) struct Numbers<'a> {
    pub(crate) nodes: IndexMap<&'a str, usize>,
    pub(crate) streams: IndexMap<&'a str, usize>,
    pub(crate) cables: IndexMap<(&'a str, &'a str), usize>,
}

impl<'a> Numbers<'a> {
    pub(crate) fn of(
        alloc: Global,
        nodes: &'a [Value],
        streams: &'a [Value],
        cables: &'a [Value],
    ) -> Result<Numbers<'a>, AllocError>
        ensures nodes { IfOk result (λ numbers. AreNameNumbers (map view nodes.now) numbers.nodes) }
        ensures streams { IfOk result (λ numbers. AreNameNumbers (map view streams.now) numbers.streams) }
        ensures cables { IfOk result (λ numbers. AreCableNumbers (map view cables.now) numbers.cables) }
    {
        let nodes = number_names(alloc, nodes)?;
        let streams = number_names(alloc, streams)?;
        let cables = number_cables(alloc, cables)?;
        Ok(Numbers {
            nodes,
            streams,
            cables,
        })
    }
}

/// The names of stations, and those of bridges.
#[derive(Drop)]
pub(crate) struct Kinds<'a> {
    pub(crate) stations: IndexSet<&'a str>,
    pub(crate) bridges: IndexSet<&'a str>,
}

impl<'a> Kinds<'a> {
    pub(crate) fn of(alloc: Global, nodes: &'a [Value]) -> Result<Kinds<'a>, AllocError>
        ensures stations { IfOk result (λ kinds. AreStations (map view nodes.now) kinds.stations) }
        ensures bridges { IfOk result (λ kinds. AreBridges (map view nodes.now) kinds.bridges) }
    {
        let stations = names_in(alloc, nodes, "station")?;
        let bridges = names_in(alloc, nodes, "bridge")?;
        Ok(Kinds { stations, bridges })
    }
}

// The names of the nodes of this kind.
fn names_in<'a>(
    alloc: Global,
    nodes: &'a [Value],
    kind: &str,
) -> Result<IndexSet<&'a str>, AllocError>
    ensures { IfOk result (λ names. (name : List ℕ) → contains_by (λ k. bytes_eq name k.now) names
        ≡ list_any (λ n. bytes_eq (text_at Key.Name n) name && holds_at Key.Kind (is_this_text kind.now) n) (map view nodes.now)) }
{
    let mut names = IndexSet::new(alloc);
    for node in nodes {
        if has_node_kind(node, kind) {
            names.insert(text_at(node, Key::Name))?;
        }
    }
    Ok(names)
}

// The number of the first of some cables that joins two nodes, by their names in either order.
fn number_cables<'a>(
    alloc: Global,
    cables: &'a [Value],
) -> Result<IndexMap<(&'a str, &'a str), usize>, AllocError>
    ensures { IfOk result (λ numbers. AreCableNumbers (map view cables.now) numbers) }
{
    let mut numbers = IndexMap::new(alloc);
    for (k, cable) in cables.iter().enumerate() {
        let a = text_at(cable, Key::A);
        let b = text_at(cable, Key::B);
        enter(&mut numbers, (a, b), k)?;
        enter(&mut numbers, (b, a), k)?;
    }
    Ok(numbers)
}

/// A number that is below an end.
pub(crate) fn below(number: Option<&usize>, end: usize) -> Option<usize>
    ensures { result ≡ below end (option_copied number.entry) }
{
    match number {
        Some(number) => { if *number < end { Some(*number) } else { None } }
        None => None,
    }
}
