//! Certificate files, read and printed.
ghost use Rattle.std.specs.Prelude.{◌≡◌, ◌≤◌, true, not, position, List, IfOk, IfErr, IfSome, IsTrue, Some, None, Ok, string_bytes};
ghost use Rattle.json.specs.Token.{Token};
ghost use Rattle.json.specs.Lex.{tokens};
ghost use Rattle.serde_json.specs.Data.{depth};
ghost use Rattle.serde_json.specs.Find.{get};
ghost use Rattle.serde_json.specs.Read.{max_depth};
ghost use Rattle.serde_json.specs.View.{view};
ghost use Rattle.tsn_cert.specs.Fault.{Gives};
ghost use Rattle.tsn_codec.specs.Matter.{IsTreeExcess, IsWhy, IsObject, IsOfTree, HasJust, IsNodesMisfit, IsTreeMisfit, at, tree_keys, is_of};
ghost use Rattle.std.specs.List.{position_or_len};
ghost use Rattle.tsn_cert.specs.Node.{tree_node};
ghost use Rattle.tsn_cert.specs.Told.{key_name, Finds};
ghost use Rattle.tsn_codec.specs.Written.{ArePlain, BeginsTree, EndsWithTarget, StopsNodes, IsNoCertificate};
ghost use Rattle.tsn_codec.specs.Places.{nodes_in};
ghost use Rattle.tsn_cert.specs.Cert.{are_of, format_of, cert_of, cert_fits, cert_in, cert_text};

mod limits;
mod print;
mod read;
pub mod text;

use crate::document;
use crate::file::{self, File};
use crate::list::{Unlisted, array_of, list_in, list_or_why};
use crate::tokens::{Tokens, Unread};
use json::Scratch;
use serde_json::Value;
use std::alloc::Global;
use tsn_cert::{Cert, Excess, FileFault, Format, Key, Misfit, Node, Nodes, Refused};
use tsn_model::NoMemory;

// The keys of the file of a tree.
const KEYS: &[Key] = &[Key::Format, Key::Nodes, Key::Target];

/// Reads a certificate file.
pub fn cert_from_json(alloc: Global, bytes: &[u8]) -> Result<Cert, FileFault>
    ensures { Gives (λ cert. cert) result (cert_in bytes.now) }
{
    match file::from_bytes::<Cert>(alloc, bytes) {
        Ok(cert) => Ok(cert),
        Err(refused) => Err(refused.code()),
    }
}

impl File for Cert {
    ghost use Rattle.tsn_cert.specs.declared.cert.Cert.{Cert};

    ghost Said = { Cert };

    ghost seen = { λ cert. cert };

    ghost grammar = { cert_of };

    ghost fits = { cert_fits };

    ghost exceeds = { IsTreeExcess };

    ghost misfits = { IsTreeMisfit };

    fn take(tokens: &mut Tokens<'_>) -> Result<Cert, Unread> {
        let format = begin(tokens)?;
        let nodes = read::nodes(tokens)?;
        match file::target_and_end(tokens) {
            Ok(target) => of_format(format, target, nodes),
            Err(error) => {
                drop(nodes);
                Err(error)
            }
        }
    }

    fn in_value(alloc: Global, value: &Value) -> Result<Cert, Refused> {
        cert_from(alloc, value)
    }

    fn excess(&self) -> Option<Excess> {
        limits::excess(self)
    }
}

// The certificate of these parts, where the nodes are of the format.
fn of_format(format: Format, target: u64, nodes: Nodes) -> Result<Cert, Unread>
    ensures { IfOk result (λ cert. (cert ≡ record { format = format; target = target; nodes = nodes }) × (are_of format nodes ≡ true)) }
{
    if format.has(nodes.list()) {
        Ok(Cert {
            format,
            target,
            nodes,
        })
    } else {
        drop(nodes);
        Err(Unread::OtherForm)
    }
}

// The certificate that the value is.
fn cert_from(alloc: Global, value: &Value) -> Result<Cert, Refused>
    requires { depth (view value.now) ≤ max_depth }
    ensures cert { Finds (λ cert. cert) result (cert_of (view value.now)) }
    ensures told { IfErr result (IsWhy (IsTreeMisfit (view value.now))) }
{
    if !value.is_object() {
        return Err(Refused::WrongShape(Misfit::NoObject));
    }
    let format = format_in(value)?;
    cert_behind(alloc, value, format)
}

// The format of an object.
fn format_in(value: &Value) -> Result<Format, Refused>
    requires { IsObject (view value.now) }
    ensures format { IfOk result (λ format. format_of (at Key.Format (view value.now)) ≡ Some format) }
    ensures none { IfErr result (λ _. cert_of (view value.now) ≡ None) }
    ensures told { IfErr result (IsWhy (IsTreeMisfit (view value.now))) }
{
    format_from(document::member(value, Key::Format)?)
}

// The certificate that an object of this format is.
fn cert_behind(alloc: Global, value: &Value, format: Format) -> Result<Cert, Refused>
    requires deep { depth (view value.now) ≤ max_depth }
    requires format { format_of (at Key.Format (view value.now)) ≡ Some format }
    ensures cert { Finds (λ cert. cert) result (cert_of (view value.now)) }
    ensures told { IfErr result (IsWhy (IsTreeMisfit (view value.now))) }
{
    let (nodes, target) = members(value)?;
    let target = document::whole_number_at(target, Key::Target)?;
    match nodes_from(alloc, nodes, format) {
        Ok(nodes) => Ok(Cert {
            format,
            target,
            nodes,
        }),
        Err(refused) => Err(refused),
    }
}

// The nodes and the target of an object that has the three keys alone.
fn members(value: &Value) -> Result<(&Value, &Value), Refused>
    requires { IsOfTree (view value.now) }
    ensures keys { IfOk result (λ _. HasJust tree_keys (view value.now)) }
    ensures nodes { IfOk result (λ m. get (key_name Key.Nodes) (view value.now) ≡ Some (view m.0.now)) }
    ensures target { IfOk result (λ m. get (key_name Key.Target) (view value.now) ≡ Some (view m.1.now)) }
    ensures none { IfErr result (λ _. cert_of (view value.now) ≡ None) }
    ensures told { IfErr result (IsWhy (IsTreeMisfit (view value.now))) }
{
    let nodes = document::member(value, Key::Nodes)?;
    let target = document::member(value, Key::Target)?;
    if !document::is_object_of(value, 3) {
        return Err(document::unknown_key(value, KEYS));
    }
    Ok((nodes, target))
}

// The format that the value is.
fn format_from(value: &Value) -> Result<Format, Refused>
    ensures format { Finds (λ format. format) result (format_of (view value.now)) }
    ensures told { IfErr result (λ refused. refused ≡ Refused.WrongShape Misfit.OtherFormat) }
{
    let other = Refused::WrongShape(Misfit::OtherFormat);
    match value.as_u64() {
        Some(number) => read::format_numbered(number).ok_or(other),
        None => Err(other),
    }
}

// The nodes of this format that the value is.
fn nodes_from(alloc: Global, value: &Value, format: Format) -> Result<Nodes, Refused>
    requires { depth (view value.now) ≤ max_depth }
    ensures nodes { Finds (λ nodes. nodes) result (nodes_in format (view value.now)) }
    ensures told { IfErr result (IsWhy (IsNodesMisfit format (view value.now))) }
{
    match list_in::<Node>(alloc, value) {
        Ok(nodes) => {
            if format.has(&nodes) {
                Ok(Nodes::of(nodes))
            } else {
                Err(Refused::WrongShape(no_node(&nodes, format)))
            }
        }
        Err(Unlisted::NoArray) => Err(Refused::WrongShape(Misfit::NoArray(Key::Nodes))),
        Err(Unlisted::Behind(nodes)) => Err(Refused::WrongShape(no_node(&nodes, format))),
        Err(Unlisted::Memory) => Err(Refused::Memory),
    }
}

fn is_of(node: &Node, format: Format) -> bool
    ensures { result ≡ is_of format (tree_node node.now) }
{
    match format {
        Format::One => !node.is_tie(),
        Format::Two => true,
    }
}

fn first_other(nodes: &[Node], format: Format) -> Option<usize>
    ensures { result ≡ position (λ node. not (is_of format (tree_node node))) nodes.now }
{
    for (number, node) in nodes.iter().enumerate() {
        if !is_of(node, format) {
            return Some(number);
        }
    }
    None
}

// Which node is the first that isn't of the format, as a tie isn't of the first one: one of these, or else the one behind them.
fn no_node(nodes: &[Node], format: Format) -> Misfit
    ensures { result ≡ Misfit.NoNode (position_or_len (λ node. not (is_of format (tree_node node))) nodes.now) format }
{
    match first_other(nodes, format) {
        Some(number) => Misfit::NoNode(number, format),
        None => Misfit::NoNode(nodes.len(), format),
    }
}

/// What isn't of the form of a file whose keys stand in the order in which they are written, where that is one of its nodes; None where
/// it is something else, or it isn't known.
pub(crate) fn misfit_of_written(alloc: Global, text: &str) -> Result<Option<Misfit>, NoMemory>
    requires { ArePlain (tokens text.now) }
    ensures { IfOk result (λ misfit. IfSome misfit (IsNoCertificate text.now)) }
{
    let ends = ends_with_target(alloc, text)?;
    if ends {
        misfit_of_nodes(alloc, text)
    } else {
        Ok(None)
    }
}

fn misfit_of_nodes(alloc: Global, text: &str) -> Result<Option<Misfit>, NoMemory>
    ensures { IfOk result (λ misfit. IfSome misfit (StopsNodes (tokens text.now))) }
{
    let mut scratch = Scratch::new(alloc);
    let mut tokens = Tokens::of(alloc, text, &mut scratch)?;
    misfit_in(&mut tokens)
}

// The node of another form at which the nodes of a file stop; None where they don't, or the file doesn't begin as a tree.
fn misfit_in(tokens: &mut Tokens<'_>) -> Result<Option<Misfit>, NoMemory>
    ensures { IfOk result (λ misfit. IfSome misfit (StopsNodes tokens.old)) }
{
    match begin(tokens) {
        Ok(format) => misfit_behind(tokens, format),
        Err(_) => Ok(None),
    }
}

// The same of the nodes alone, where the file is of this format.
fn misfit_behind(tokens: &mut Tokens<'_>, format: Format) -> Result<Option<Misfit>, NoMemory>
    ensures { (ts : List Token) → BeginsTree format ts tokens.old → IfOk result (λ misfit. IfSome misfit (StopsNodes ts)) }
{
    match list_or_why::<Node>(tokens) {
        Err(Unlisted::Behind(nodes)) => Ok(Some(no_node(&nodes, format))),
        Err(Unlisted::Memory) => Err(NoMemory),
        _ => Ok(None),
    }
}

fn ends_with_target(alloc: Global, text: &str) -> Result<bool, NoMemory>
    ensures { IfOk result (λ ends. ends ≡ true → (format : Format) × (ts : List Token) × BeginsTree format (tokens text.now) ts × EndsWithTarget ts) }
{
    let mut scratch = Scratch::new(alloc);
    let mut tokens = Tokens::of(alloc, text, &mut scratch)?;
    Ok(have_keys_in_order(&mut tokens))
}

fn have_keys_in_order(tokens: &mut Tokens<'_>) -> bool
    ensures { result ≡ true → (format : Format) × (ts : List Token) × BeginsTree format tokens.old ts × EndsWithTarget ts }
{
    match begin(tokens) {
        Ok(_) => file::is_list_and_target(tokens),
        Err(_) => false,
    }
}

// Passes what stands before the nodes.
fn begin(tokens: &mut Tokens<'_>) -> Result<Format, Unread>
    ensures { IfOk result (λ format. BeginsTree format tokens.old tokens.new) }
{
    tokens.open_object()?;
    tokens.key("format")?;
    let format = read::format(tokens)?;
    tokens.key("nodes")?;
    Ok(format)
}

/// The text of a certificate file.
pub fn cert_to_json(alloc: Global, cert: &Cert) -> Result<String, NoMemory>
    ensures text { IfOk result (λ s. string_bytes s ≡ cert_text cert.now) }
    // What is printed is read again, where the nodes are of its format.
    ensures reads_back { IfOk result (λ s. IsTrue (are_of cert.now.format cert.now.nodes) → IsTrue (cert_fits cert.now)
        → cert_in (string_bytes s) ≡ Ok cert.now) }
{
    let nodes = array_of::<Node>(alloc, cert.nodes.list())?;
    let value = print::cert_value(alloc, cert.format.number(), cert.target, nodes)?;
    Ok(document::file_text(alloc, value)?)
}
