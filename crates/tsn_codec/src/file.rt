//! Whole files: read from tokens where their keys stand in the order in which they are written, and else by their value.
ghost use Rattle.std.specs.Prelude.{◌≡◌, ◌≤◌, Bool, List, Option, Some, None, IfOk, IfErr, OnOk, true, codes, option_and_then};
ghost use Rattle.json.specs.Token.{Token};
ghost use Rattle.json.specs.Json.{read_key};
ghost use Rattle.serde_json.specs.Data.{Data, depth};
ghost use Rattle.serde_json.specs.Read.{read, max_depth};
ghost use Rattle.serde_json.specs.View.{view};
ghost use Rattle.tsn_cert.specs.Json.{value_of};
ghost use Rattle.tsn_cert.specs.Form.{number};
ghost use Rattle.tsn_cert.specs.Spelled.{Spells};
ghost use Rattle.tsn_cert.specs.Fault.{shaped, answer};
ghost use Rattle.tsn_cert.specs.Told.{Tells, Finds};
ghost use Rattle.tsn_codec.specs.Matter.{FindsExcess, IsWhy};
ghost use Rattle.tsn_cert.specs.declared.refused.Misfit.{Misfit};
ghost use Rattle.tsn_cert.specs.declared.refused.Excess.{Excess};
ghost use Rattle.tsn_codec.specs.Written.{HasAs, PassesTarget, EndsWithTarget};

use crate::document;
use crate::tokens::{Tokens, Unread};
use json::Scratch;
use serde_json::Value;
use std::alloc::Global;
use tsn_cert::{Excess, Refused};

/// What a file holds.
pub trait File: Sized + Drop {
    ghost Said: { Type 0 };

    ghost seen: { Self → Said };

    ghost grammar: { Data → Option Said };

    ghost fits: { Said → Bool };

    /// Takes one whose keys stand in the order in which they are written.
    fn take(tokens: &mut Tokens<'_>) -> Result<Self, Unread>
        ensures { IfOk result (λ file. (d : Data) × Spells 127 tokens.old d tokens.new × (grammar d ≡ Some (seen file))) };

    /// The one that a value is.
    fn in_value(alloc: Global, value: &Value) -> Result<Self, Refused>
        requires { depth (view value.now) ≤ max_depth }
        ensures file { Finds seen result (grammar (view value.now)) }
        ensures told { IfErr result (IsWhy (misfits (view value.now))) };

    ghost exceeds: { Said → Excess → Type 0 };

    ghost misfits: { Data → Misfit → Type 0 };

    /// The first number above its limit; none where each is within.
    fn excess(&self) -> Option<Excess>
        ensures { FindsExcess (fits (seen self.now)) (exceeds (seen self.now)) result };
}

fn whole<F: File>(alloc: Global, text: &str) -> Result<F, Unread>
    ensures { IfOk result (λ file. option_and_then F.grammar (read text.now) ≡ Some (F.seen file)) }
{
    let mut scratch = Scratch::new(alloc);
    let mut tokens = Tokens::of(alloc, text, &mut scratch)?;
    let file = F::take(&mut tokens)?;
    if !tokens.are_over() {
        return Err(Unread::OtherForm);
    }
    Ok(file)
}

/// What a file holds whose keys stand in the order in which they are written.
pub fn from_written<F: File>(alloc: Global, bytes: &[u8]) -> Result<F, Unread>
    ensures { IfOk result (λ file. option_and_then F.grammar (value_of bytes.now) ≡ Some (F.seen file)) }
{
    let Ok(text) = std::str::from_utf8(bytes) else {
        return Err(Unread::OtherForm);
    };
    whole::<F>(alloc, text)
}

/// What a file holds whose keys stand in any order.
pub fn from_any<F: File>(alloc: Global, bytes: &[u8]) -> Result<F, Refused>
    ensures { Tells F.seen result (answer F.grammar F.fits (value_of bytes.now)) }
{
    let value = document::value_from(alloc, bytes)?;
    let file = F::in_value(alloc, &value)?;
    limited(file)
}

/// What a file holds.
pub fn from_bytes<F: File>(alloc: Global, bytes: &[u8]) -> Result<F, Refused>
    ensures { Tells F.seen result (answer F.grammar F.fits (value_of bytes.now)) }
{
    match from_written::<F>(alloc, bytes) {
        Ok(file) => limited(file),
        Err(Unread::OtherForm) => from_any::<F>(alloc, bytes),
        Err(Unread::Memory) => Err(Refused::Memory),
    }
}

/// What was read, where each of its numbers is within its limit.
pub fn limited<F: File>(file: F) -> Result<F, Refused>
    ensures limits { Tells F.seen result (shaped F.fits (Some (F.seen file))) }
    ensures told { IfErr result (λ refused. (e : Excess) × (refused ≡ Refused.NumberTooLarge e) × F.exceeds (F.seen file) e) }
{
    match file.excess() {
        None => Ok(file),
        Some(excess) => {
            drop(file);
            Err(Refused::NumberTooLarge(excess))
        }
    }
}

/// Whether a value follows, then a target, and then the end of the text.
pub fn is_list_and_target(tokens: &mut Tokens<'_>) -> bool
    ensures { result ≡ true → EndsWithTarget tokens.old }
{
    pass_list_and_target(tokens).is_ok() && tokens.are_over()
}

fn pass_list_and_target(tokens: &mut Tokens<'_>) -> Result<(), Unread>
    ensures { OnOk result (PassesTarget tokens.old tokens.new) }
{
    tokens.skip_value(126)?;
    match target_and_end(tokens) {
        Ok(_) => Ok(()),
        Err(error) => Err(error),
    }
}

/// Takes a target, and the end of the object.
pub fn target_and_end(tokens: &mut Tokens<'_>) -> Result<u64, Unread>
    ensures { IfOk result (λ target. (end : List Token) × HasAs (codes "target") number target tokens.old end × (read_key end ≡ Some (None, tokens.new))) }
{
    tokens.key("target")?;
    let target = tokens.number()?;
    tokens.close_object()?;
    Ok(target)
}
