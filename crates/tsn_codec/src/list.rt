//! Lists of a file, taken from tokens and printed one element after another.
ghost use Rattle.std.specs.Prelude.{◌≡◌, ◌≤◌, length, map, IfOk, OnOk, Some};
ghost use Rattle.serde_json.specs.Data.{Data, depth};
ghost use Rattle.serde_json.specs.Read.{max_depth};
ghost use Rattle.serde_json.specs.View.{view};
ghost use Rattle.tsn_cert.specs.Json.{array_value};
ghost use Rattle.tsn_cert.specs.Form.{Form};
ghost use Rattle.tsn_cert.specs.Form as forms;
ghost use Rattle.tsn_codec.specs.Takes.{Takes};
ghost use Rattle.tsn_codec.specs.Lists.{TakesElements, TakesList, ReadsList, unread};
ghost use Rattle.tsn_cert.specs.Says.{Says};

use crate::tokens::{Tokens, Unread};
use json::Scratch;
use serde_json::Value;
use std::alloc::{AllocError, AllocFailed, Global};

/// What a list in a file has: how tokens say one of it, and how one is printed.
pub trait Element: Sized + Drop {
    ghost Said: { Type 0 };

    ghost seen: { Self → Said };

    ghost form: { Form Said };

    ghost written: { Said → Data };

    /// Takes one.
    fn take(tokens: &mut Tokens<'_>) -> Result<Self, Unread>
        ensures { Takes seen result (form.taken tokens.old) tokens.new };

    /// The value that it is printed as.
    fn print(&self, alloc: Global) -> Result<Value, AllocError>
        ensures value { IfOk result (λ v. view v ≡ written (seen self.now)) }
        ensures reads_back { OnOk result (form.said (written (seen self.now)) ≡ Some (seen self.now)) };

    ghost says: { Says 8 form };
}

/// Why there is no list.
#[derive(Drop)]
pub enum Unlisted<T: Drop> {
    /// It is no array.
    NoArray,
    /// Behind these elements stands another form.
    Behind(Vec<T>),
    /// A growth was refused.
    Memory,
}

impl<T: Drop> Unlisted<T> {
    // Why there is no part that has the list.
    fn unread(&self) -> Unread
        ensures { result ≡ unread self.now }
    {
        match self {
            Unlisted::NoArray | Unlisted::Behind(_) => Unread::OtherForm,
            Unlisted::Memory => Unread::Memory,
        }
    }
}

impl<T: Drop> From<AllocError> for Unlisted<T> {
    ghost use Rattle.std.specs.Prelude.{◌≡◌};
    ghost use Rattle.tsn_codec.specs.declared.list.Unlisted.TheVariants.{Memory};

    ghost from_gives = { λ _ e. e ≡ Memory };

    fn from(_refused: AllocError) -> Unlisted<T> {
        Unlisted::Memory
    }
}

impl<T: Drop> From<AllocFailed<T>> for Unlisted<T> {
    ghost use Rattle.std.specs.Prelude.{◌≡◌};
    ghost use Rattle.tsn_codec.specs.declared.list.Unlisted.TheVariants.{Memory};

    ghost from_gives = { λ _ e. e ≡ Memory };

    fn from(_refused: AllocFailed<T>) -> Unlisted<T> {
        Unlisted::Memory
    }
}

// Takes those up to the end of their array.
fn elements<T: Element>(tokens: &mut Tokens<'_>) -> Result<Vec<T>, Unlisted<T>>
    ensures { TakesElements T.seen T.form.taken result tokens.old tokens.new }
{
    let mut found = Vec::new(tokens.alloc());
    'elements: while !tokens.take_end() {
        match T::take(tokens) {
            Ok(one) => found.push(one)?,
            Err(Unread::OtherForm) => return Err(Unlisted::Behind(found)),
            Err(Unread::Memory) => return Err(Unlisted::Memory),
        }
    }
    Ok(found)
}

/// Takes a list, or says why there is none.
pub fn list_or_why<T: Element>(tokens: &mut Tokens<'_>) -> Result<Vec<T>, Unlisted<T>>
    ensures { TakesList T.seen T.form result tokens.old tokens.new }
{
    match tokens.open_array() {
        Ok(()) => elements::<T>(tokens),
        Err(Unread::OtherForm) => Err(Unlisted::NoArray),
        Err(Unread::Memory) => Err(Unlisted::Memory),
    }
}

/// Takes a list.
pub fn list<T: Element>(tokens: &mut Tokens<'_>) -> Result<Vec<T>, Unread>
    ensures { Takes (λ v. map T.seen v.items) result ((forms.list T.form).taken tokens.old) tokens.new }
{
    match list_or_why::<T>(tokens) {
        Ok(found) => Ok(found),
        Err(why) => Err(why.unread()),
    }
}

/// Takes a list of at least one, and of so many at most.
pub fn few<T: Element>(tokens: &mut Tokens<'_>, most: usize) -> Result<Vec<T>, Unread>
    ensures taken { Takes (λ v. map T.seen v.items) result ((forms.few 1 most T.form).taken tokens.old) tokens.new }
    ensures count { IfOk result (λ v. (1 ≤ length v.items) × (length v.items ≤ most)) }
{
    let found = list::<T>(tokens)?;
    if found.is_empty() || found.len() > most {
        return Err(Unread::OtherForm);
    }
    Ok(found)
}

/// The array of what is printed of each.
pub fn array_of<T: Element>(alloc: Global, list: &[T]) -> Result<Value, AllocError>
    ensures value { IfOk result (λ v. view v ≡ array_value (map T.written (map T.seen list.now))) }
    ensures reads_back { OnOk result ((forms.list T.form).said (array_value (map T.written (map T.seen list.now))) ≡ Some (map T.seen list.now)) }
{
    let mut items = Vec::with_capacity(alloc, list.len())?;
    for one in list {
        items.push(one.print(alloc)?)?;
    }
    Ok(Value::Array(items))
}

/// The list that a value is, by its text, or why it is none.
pub fn list_in<T: Element>(alloc: Global, value: &Value) -> Result<Vec<T>, Unlisted<T>>
    ensures { depth (view value.now) ≤ max_depth → ReadsList T.seen T.form result (view value.now) }
{
    let text = value.to_string(alloc)?;
    let mut scratch = Scratch::new(alloc);
    let mut tokens = Tokens::of(alloc, text.as_str(), &mut scratch)?;
    list_or_why::<T>(&mut tokens)
}
