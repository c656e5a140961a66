//! The text of a certificate in parts: its beginning, its nodes one after another, and its end.
ghost use Rattle.std.specs.Prelude.{◌≡◌, IfOk, OnOk, string_bytes};
ghost use Rattle.tsn_cert.specs.Node.{tree_node};
ghost use Rattle.tsn_cert.specs.Laws.{IsInGrammar};
ghost use Rattle.tsn_cert.specs.Text.{head_text, node_text, tail_text, CertTextHasParts};

use crate::cert::print::node_value;
use crate::document;
use std::alloc::Global;
use tsn_cert::{Format, Node};
use tsn_model::NoMemory;

/// A certificate's text is its beginning, its nodes' texts and its end.
pub fn cert_text_has_parts()
    ensures { CertTextHasParts }
{}

/// What a certificate's text begins with, before its nodes.
pub fn head_to_json(alloc: Global, format: Format) -> Result<String, NoMemory>
    ensures { IfOk result (λ s. string_bytes s ≡ head_text format) }
{
    let number = format.number();
    Ok(format!(in alloc; "{{\"format\":{number},\"nodes\":[")?)
}

/// The text of a node, behind a comma where it is a later one than the first.
pub fn node_to_json(alloc: Global, later: bool, node: &Node) -> Result<String, NoMemory>
    ensures text { IfOk result (λ s. string_bytes s ≡ node_text later (tree_node node.now)) }
    ensures grammar { OnOk result (IsInGrammar (tree_node node.now)) }
{
    let value = node_value(alloc, node)?;
    Ok(document::element_text(alloc, later, value)?)
}

/// What a certificate's text ends with, behind its nodes. The target is in nanoseconds.
pub fn tail_to_json(alloc: Global, target: u64) -> Result<String, NoMemory>
    ensures { IfOk result (λ s. string_bytes s ≡ tail_text target) }
{
    Ok(format!(in alloc; "],\"target\":{target}}}\n")?)
}
