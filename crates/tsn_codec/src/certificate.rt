//! Certificate files, read and printed.
ghost use Rattle.std.specs.Prelude.{◌≡◌, ◌≤◌, ℕ, true, List, IfOk, IfErr, IfSome, IsTrue, Some, Ok, Err, string_bytes};
ghost use Rattle.json.specs.Lex.{tokens};
ghost use Rattle.serde_json.specs.Data.{depth};
ghost use Rattle.serde_json.specs.Read.{max_depth};
ghost use Rattle.serde_json.specs.View.{view};
ghost use Rattle.tsn_cert.specs.Argument.{argument_of};
ghost use Rattle.tsn_cert.specs.Json.{value_of};
ghost use Rattle.tsn_cert.specs.Fault.{Gives, named, shaped};
ghost use Rattle.tsn_cert.specs.Cert.{cert_of};
ghost use Rattle.tsn_cert.specs.declared.refused.Excess.{Excess};
ghost use Rattle.tsn_codec.specs.Matter.{IsWhy, IsOfArgument, IsTreeExcess, IsArgumentExcess, IsTreeMisfit, IsMisfit, IsToldOfCertificate};
ghost use Rattle.std.specs.Bool.{MatchBool};
ghost use Rattle.tsn_cert.specs.Told.{Tells, Finds};
ghost use Rattle.tsn_codec.specs.Written.{ArePlain};
ghost use Rattle.tsn_cert.specs.Certificate.{certificate_fits, certificate_in, certificate_text, is_of_format};

use crate::argument::{self, argument_to_json};
use crate::cert::{self, cert_to_json};
use crate::document;
use crate::file::{self, File};
use crate::tokens::{Tokens, Unread};
use json::Scratch;
use serde_json::Value;
use std::alloc::Global;
use tsn_cert::argument::ARGUMENT_FORMAT;
use tsn_cert::{Argument, Cert, Certificate, FileFault, Misfit, Refused};
use tsn_model::NoMemory;

// What an argument that is printed begins with.
const ARGUMENT_BEGIN: &[u8] = b"{\"format\":3,";

/// Reads a certificate file.
pub fn certificate_from_json(alloc: Global, bytes: &[u8]) -> Result<Certificate, FileFault>
    ensures { Gives (λ certificate. certificate) result (certificate_in bytes.now) }
{
    match certificate_or_refuse(alloc, bytes) {
        Ok(certificate) => Ok(certificate),
        Err(refused) => Err(refused.code()),
    }
}

/// Reads a certificate file, or says what is the matter with it.
pub fn certificate_or_refuse(alloc: Global, bytes: &[u8]) -> Result<Certificate, Refused>
    ensures certificate { Tells (λ certificate. certificate) result (certificate_in bytes.now) }
    ensures told { IfErr result (IsToldOfCertificate bytes.now) }
{
    // A file in written form is read once, whatever its kind.
    if bytes.starts_with(ARGUMENT_BEGIN) {
        match file::from_written::<Argument>(alloc, bytes) {
            Ok(argument) => argument_within(argument),
            Err(Unread::OtherForm) => from_other(alloc, bytes),
            Err(Unread::Memory) => Err(Refused::Memory),
        }
    } else {
        match file::from_written::<Cert>(alloc, bytes) {
            Ok(cert) => tree_within(cert),
            Err(Unread::OtherForm) => from_other(alloc, bytes),
            Err(Unread::Memory) => Err(Refused::Memory),
        }
    }
}

// The same, of a file that is none in written form.
fn from_other(alloc: Global, bytes: &[u8]) -> Result<Certificate, Refused>
    ensures certificate { Tells (λ certificate. certificate) result (certificate_in bytes.now) }
    ensures told { IfErr result (IsToldOfCertificate bytes.now) }
{
    // Where a node or a step is of another form, no value of the whole file is made.
    match misfit_of_written(alloc, bytes)? {
        Some(misfit) => Err(Refused::WrongShape(misfit)),
        None => from_any(alloc, bytes),
    }
}

// The node or the step that isn't of the form, where the keys stand in the order in which they are written and nothing else is amiss.
fn misfit_of_written(alloc: Global, bytes: &[u8]) -> Result<Option<Misfit>, NoMemory>
    ensures { IfOk result (λ misfit. IfSome misfit (λ m. (certificate_in bytes.now ≡ Err FileFault.WrongShape)
        × IsToldOfCertificate bytes.now (Refused.WrongShape m))) }
{
    let Ok(text) = std::str::from_utf8(bytes) else {
        return Ok(None);
    };
    if !has_plain_numbers(alloc, text)? {
        return Ok(None);
    }
    if bytes.starts_with(ARGUMENT_BEGIN) {
        argument::misfit_of_written(alloc, text)
    } else {
        cert::misfit_of_written(alloc, text)
    }
}

fn has_plain_numbers(alloc: Global, text: &str) -> Result<bool, NoMemory>
    ensures { IfOk result (λ plain. plain ≡ true → ArePlain (tokens text.now)) }
{
    let mut scratch = Scratch::new(alloc);
    let mut tokens = Tokens::of(alloc, text, &mut scratch)?;
    Ok(tokens.have_plain_numbers())
}

// The tree, where each of its numbers is within its limit.
fn tree_within(cert: Cert) -> Result<Certificate, Refused>
    ensures limits { Tells (λ certificate. certificate) result (shaped certificate_fits (Some (Certificate.Tree cert))) }
    ensures told { IfErr result (λ refused. (e : Excess) × (refused ≡ Refused.NumberTooLarge e) × IsTreeExcess cert e) }
{
    match file::limited(cert) {
        Ok(cert) => Ok(Certificate::Tree(cert)),
        Err(refused) => Err(refused),
    }
}

// The argument, where each of its numbers is within its limit.
fn argument_within(argument: Argument) -> Result<Certificate, Refused>
    ensures limits { Tells (λ certificate. certificate) result (shaped certificate_fits (Some (Certificate.Argument argument))) }
    ensures told { IfErr result (λ refused. (e : Excess) × (refused ≡ Refused.NumberTooLarge e) × IsArgumentExcess argument e) }
{
    match file::limited(argument) {
        Ok(argument) => Ok(Certificate::Argument(argument)),
        Err(refused) => Err(refused),
    }
}

// The same, of a file whose keys stand in any order.
fn from_any(alloc: Global, bytes: &[u8]) -> Result<Certificate, Refused>
    ensures certificate { Tells (λ certificate. certificate) result (certificate_in bytes.now) }
    ensures told { IfErr result (IsToldOfCertificate bytes.now) }
{
    let value = document::value_from(alloc, bytes)?;
    let read = from_value(alloc, &value);
    drop(value);
    read
}

// The same, of a file of this value: a tree, or else an argument.
fn from_value(alloc: Global, value: &Value) -> Result<Certificate, Refused>
    requires { depth (view value.now) ≤ max_depth }
    ensures certificate { (bytes : List ℕ) → named FileFault.NotJson (value_of bytes) ≡ Ok (view value.now)
        → Tells (λ certificate. certificate) result (certificate_in bytes) }
    ensures told { (bytes : List ℕ) → named FileFault.NotJson (value_of bytes) ≡ Ok (view value.now) → IfErr result (IsToldOfCertificate bytes) }
{
    match Cert::in_value(alloc, value) {
        Ok(cert) => tree_within(cert),
        Err(Refused::WrongShape(misfit)) => from_other_value(alloc, value, misfit),
        Err(Refused::Memory) => Err(Refused::Memory),
        Err(_) => unreachable!(),
    }
}

// The same, where the value is no tree for this reason.
fn from_other_value(alloc: Global, value: &Value, misfit: Misfit) -> Result<Certificate, Refused>
    requires deep { depth (view value.now) ≤ max_depth }
    requires none { named FileFault.WrongShape (cert_of (view value.now)) ≡ Err FileFault.WrongShape }
    requires told { IsTreeMisfit (view value.now) misfit }
    ensures certificate { (bytes : List ℕ) → named FileFault.NotJson (value_of bytes) ≡ Ok (view value.now)
        → Tells (λ certificate. certificate) result (certificate_in bytes) }
    ensures told { (bytes : List ℕ) → named FileFault.NotJson (value_of bytes) ≡ Ok (view value.now) → IfErr result (IsToldOfCertificate bytes) }
{
    match argument_or(alloc, value, misfit) {
        Ok(argument) => argument_within(argument),
        Err(refused) => Err(refused),
    }
}

// The argument that the value is. Where it doesn't tell that it is one, what is the matter with it as a tree is said.
fn argument_or(alloc: Global, value: &Value, misfit: Misfit) -> Result<Argument, Refused>
    requires { depth (view value.now) ≤ max_depth }
    ensures argument { Finds (λ argument. argument) result (argument_of (view value.now)) }
    ensures told { IsTreeMisfit (view value.now) misfit → IfErr result (IsWhy (IsMisfit (view value.now))) }
{
    if is_argument(value) {
        drop(misfit);
        Argument::in_value(alloc, value)
    } else {
        Err(Refused::WrongShape(misfit))
    }
}

// Whether the value tells that it is an argument.
fn is_argument(value: &Value) -> bool
    ensures { MatchBool result (IsOfArgument (view value.now)) (IsOfArgument (view value.now) → ⊥) }
{
    match value.get("format") {
        Some(format) => format.as_u64() == Some(ARGUMENT_FORMAT),
        None => false,
    }
}

/// The text of a certificate file.
pub fn certificate_to_json(alloc: Global, certificate: &Certificate) -> Result<String, NoMemory>
    ensures text { IfOk result (λ s. string_bytes s ≡ certificate_text certificate.now) }
    // What is printed is read again, where the nodes of a tree are of its format.
    ensures reads_back { IfOk result (λ s. IsTrue (is_of_format certificate.now) → IsTrue (certificate_fits certificate.now)
        → certificate_in (string_bytes s) ≡ Ok certificate.now) }
{
    match certificate {
        Certificate::Tree(cert) => cert_to_json(alloc, cert),
        Certificate::Argument(argument) => argument_to_json(alloc, argument),
    }
}
