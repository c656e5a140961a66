//! Writes a certificate: a tree a node at a time, an argument as one text.
ghost use Rattle.std.specs.Prelude.{◌<◌, ◌++◌, ◌-◌, ◌^◌, ◌≡◌, [], false, IsSome, OnErr, OnOk, string_bytes};
ghost use Rattle.tsn_cert.specs.Cert.{cert_text};
ghost use Rattle.tsn_cert.specs.Laws.{IsInGrammar, AreInGrammar};
ghost use Rattle.tsn_cert.specs.Node.{tree_node};
ghost use Rattle.tsn_cert.specs.Text.{head_text, node_text, nodes_text, tail_text};
ghost use Rattle.tsn_outcome.specs.Run.{taken_in, failed_in};
ghost use Rattle.tsn_cert.specs.Argument.{argument_text};
ghost use Rattle.tsn_cli.specs.RunOutput.{HasFormIfAny, written_bytes, written_in};
ghost use Rattle.tsn_cli.specs.Pieces.{IsCounted, IsPut};

use crate::run_output::Written;
use std::alloc::Global;
use tsn_book::Spelling;
use tsn_cert::{Argument, Node};
use tsn_codec::argument_to_json;
use tsn_codec::cert::text::{head_to_json, node_to_json, tail_to_json};
use tsn_device::device::{ReadFault, Sink, write_all, write_whole};

// How many bytes are written at a time, at least, but for the last ones.
const PIECE: usize = 65_536;

/// Writes a certificate, if there is one, to a sink, and says that it is whole. Where that fails, the bytes written are a beginning
/// of it.
pub(crate) fn write_wanted<C: Sink>(
    alloc: Global,
    sink: &mut Option<C>,
    cert: Option<Written>,
) -> Result<(), ReadFault>
    requires few_failures { failed_in C.failed sink.old < 2 ^ 64 - 1 }
    requires wanted { IsSome cert → IsSome sink.old }
    ensures put { IsPut (taken_in C.taken sink.old) (taken_in C.taken sink.new) (written_bytes cert) (λ _. []) result }
    ensures failures { IsCounted (failed_in C.failed sink.old) (failed_in C.failed sink.new) result }
    ensures some { OnErr result (IsSome cert) }
    ensures form { OnOk result (HasFormIfAny (written_in cert)) }
{
    let Some(cert) = cert else {
        return Ok(());
    };
    let Some(sink) = sink else {
        unreachable!();
    };
    match cert {
        Written::Spelled(cert) => write_cert(alloc, sink, cert),
        Written::Argued(argument) => write_argument(alloc, sink, argument),
    }
}

// Writes an argument, and says that it is whole. Where there is no memory for its text nothing of it is written.
fn write_argument<C: Sink>(alloc: Global, sink: &mut C, argument: Argument) -> Result<(), ReadFault>
    requires { C.failed sink.old < 2 ^ 64 - 1 }
    ensures put { IsPut (C.taken sink.old) (C.taken sink.new) (argument_text argument) (λ _. []) result }
    ensures failures { IsCounted (C.failed sink.old) (C.failed sink.new) result }
{
    let text = argument_to_json(alloc, &argument);
    drop(argument);
    write_rest(sink, text?)
}

// Writes what is left of a certificate, and says that it is whole.
fn write_rest<C: Sink>(sink: &mut C, text: String) -> Result<(), ReadFault>
    requires { C.failed sink.old < 2 ^ 64 - 1 }
    ensures put { IsPut (C.taken sink.old) (C.taken sink.new) (string_bytes text) (λ _. []) result }
    ensures failures { IsCounted (C.failed sink.old) (C.failed sink.new) result }
{
    write_whole(sink, text.as_bytes())?;
    Ok(())
}

// Writes a tree, and says that it is whole.
fn write_cert<C: Sink>(alloc: Global, sink: &mut C, cert: Spelling) -> Result<(), ReadFault>
    requires { C.failed sink.old < 2 ^ 64 - 1 }
    ensures put { IsPut (C.taken sink.old) (C.taken sink.new) (cert_text cert) (λ _. []) result }
    ensures failures { IsCounted (C.failed sink.old) (C.failed sink.new) result }
    ensures form { OnOk result (AreInGrammar cert.nodes) }
{
    let mut cert = cert;
    let target = cert.target();
    let begun = write_beginning(alloc, sink, &mut cert);
    drop(cert);
    match begun {
        Ok(text) => write_end(alloc, sink, text, target),
        Err(fault) => Err(fault),
    }
}

// Writes what stands before the end of a tree. The answer is what isn't written yet.
fn write_beginning<C: Sink>(
    alloc: Global,
    sink: &mut C,
    cert: &mut Spelling,
) -> Result<String, ReadFault>
    requires { C.failed sink.old < 2 ^ 64 - 1 }
    ensures put { IsPut (C.taken sink.old) (C.taken sink.new) (head_text cert.old.format ++ nodes_text false cert.old.nodes) string_bytes result }
    ensures failures { IsCounted (C.failed sink.old) (C.failed sink.new) result }
    ensures form { OnOk result (AreInGrammar cert.old.nodes) }
{
    let head = head_to_json(alloc, cert.format())?;
    write_nodes(alloc, sink, cert, head)
}

// Writes a text, and the end of a tree behind it.
fn write_end<C: Sink>(
    alloc: Global,
    sink: &mut C,
    text: String,
    target: u64,
) -> Result<(), ReadFault>
    requires { C.failed sink.old < 2 ^ 64 - 1 }
    ensures put { IsPut (C.taken sink.old) (C.taken sink.new) (string_bytes text ++ tail_text target) (λ _. []) result }
    ensures failures { IsCounted (C.failed sink.old) (C.failed sink.new) result }
{
    let mut text = text;
    let tail = tail_to_json(alloc, target)?;
    text.push_str(tail.as_str())?;
    write_rest(sink, text)
}

// Writes the nodes behind a text. The answer is what isn't written yet.
#[tactic(auto, using(crate::proofs::PieceLemmas::all_given))]
fn write_nodes<C: Sink>(
    alloc: Global,
    sink: &mut C,
    cert: &mut Spelling,
    head: String,
) -> Result<String, ReadFault>
    requires { C.failed sink.old < 2 ^ 64 - 1 }
    ensures put { IsPut (C.taken sink.old) (C.taken sink.new) (string_bytes head ++ nodes_text false cert.old.nodes) string_bytes result }
    ensures failures { IsCounted (C.failed sink.old) (C.failed sink.new) result }
    ensures form { OnOk result (AreInGrammar cert.old.nodes) }
    ensures target { cert.new.target ≡ cert.old.target }
{
    let mut text = head;
    let mut later = false;
    while let Some(node) = cert.next()? {
        write_node(alloc, sink, &mut text, later, node)?;
        later = true;
    }
    Ok(text)
}

// Puts a node behind a text, of which what is long enough is written.
fn write_node<C: Sink>(
    alloc: Global,
    sink: &mut C,
    text: &mut String,
    later: bool,
    node: Node,
) -> Result<(), ReadFault>
    requires { C.failed sink.old < 2 ^ 64 - 1 }
    ensures put { IsPut (C.taken sink.old) (C.taken sink.new) (string_bytes text.old ++ node_text later (tree_node node)) (λ _. string_bytes text.new) result }
    ensures failures { IsCounted (C.failed sink.old) (C.failed sink.new) result }
    ensures form { OnOk result (IsInGrammar (tree_node node)) }
{
    let more = node_to_json(alloc, later, &node);
    drop(node);
    let more = more?;
    text.push_str(more.as_str())?;
    if text.len() >= PIECE {
        write_all(sink, text.as_bytes())?;
        text.clear();
    }
    Ok(())
}
