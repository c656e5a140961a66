//! The parts that the values of files are read from and made of.
ghost use Rattle.std.specs.Prelude.{◌≡◌, ◌≤◌, map, length, not, IsSome, find, option_map, IfErr, false, Some, None, IfOk, MatchResult, IsOkAnd, string_bytes, [], ◌∷◌, ◌++◌};
ghost use Rattle.serde_json.specs.Data.{depth, string, object, put};
ghost use Rattle.serde_json.specs.Find.{get};
ghost use Rattle.serde_json.specs.Read.{max_depth};
ghost use Rattle.serde_json.specs.View.{view, members_view};
ghost use Rattle.serde_json.specs.Written.{comma_if, compact_text, has_float};
ghost use Rattle.tsn_cert.specs.Json.{value_of, whole_number, is_object_of, number_value, array_value, file_text};
ghost use Rattle.tsn_cert.specs.Cert.{lag_items};
ghost use Rattle.tsn_cert.specs.Fault.{named};
ghost use Rattle.tsn_cert.specs.Told.{key_name, Tells, Finds};
ghost use Rattle.tsn_codec.specs.Matter.{IsWhy, IsUnknown, IsObject, absent_key, other_name};
ghost use Rattle.std.specs.List.{list_any, IsDistinct};
ghost use Rattle.std.specs.List.Sorted.{IsStrictlySortedBy};
ghost use Rattle.std.specs.Ordering.{nat_cmp, eq_by_cmp};
ghost use Rattle.std.specs.Cmp.Lexicographic.{slice_cmp};
ghost use Rattle.std.specs.String.{string_cmp};
ghost use Rattle.std.specs.Str.{bytes_eq};
ghost use Rattle.std.specs.BTreeMap.{keys as keys_of};

use serde_json::{Map, ToValue, Value, put};
use std::alloc::{AllocError, Global};
use tsn_cert::{FileFault, Key, Misfit, Refused};
use tsn_model::NoMemory;

/// The value of a file.
pub fn value_from(alloc: Global, bytes: &[u8]) -> Result<Value, Refused>
    ensures value { Tells view result (named FileFault.NotJson (value_of bytes.now)) }
    ensures nests { IfOk result (λ v. depth (view v) ≤ max_depth) }
{
    match Value::from_slice(alloc, bytes) {
        Ok(value) => Ok(value),
        Err(error) => Err(if error.is_memory() {
            Refused::Memory
        } else {
            Refused::NotJson(error)
        }),
    }
}

/// What stands at a key of an object.
pub fn member<'a>(value: &'a Value, key: Key) -> Result<&'a Value, Refused>
    ensures { MatchResult result (λ v. get (key_name key) (view value.now) ≡ Some (view v.now))
        (λ refused. (get (key_name key) (view value.now) ≡ None) × (refused ≡ Refused.WrongShape (Misfit.Missing key))) }
{
    match value.get(key.name()) {
        Some(found) => Ok(found),
        None => Err(Refused::WrongShape(Misfit::Missing(key))),
    }
}

/// The number that stands at a key.
pub fn whole_number_at(value: &Value, key: Key) -> Result<u64, Refused>
    ensures told { IfErr result (λ refused. refused ≡ Refused.WrongShape (Misfit.NoNumber key)) }
    ensures number { Finds (λ n. n) result (whole_number (view value.now)) }
{
    value
        .as_u64()
        .ok_or(Refused::WrongShape(Misfit::NoNumber(key)))
}

// The first of an object's keys that is none of these.
fn other_name<'a>(value: &'a Value, keys: &[Key]) -> Option<&'a String>
    ensures found { option_map (λ name. string_bytes name.now) result ≡ other_name keys.now (view value.now) }
    // There is one, where the object has all of these keys, each once, and is of another count of members.
    ensures counted { IsDistinct (eq_by_cmp (slice_cmp nat_cmp)) (map key_name keys.now)
        → absent_key keys.now (view value.now) ≡ None → IsObject (view value.now)
        → is_object_of (length keys.now) (view value.now) ≡ false → IsSome result }
{
    match value.as_object() {
        Some(members) => key_outside(members, keys),
        None => None,
    }
}

fn key_outside<'a>(members: &'a Map<String, Value>, keys: &[Key]) -> Option<&'a String>
    ensures found { option_map (λ name. name.now) result
        ≡ find (λ name. not (list_any (λ k. bytes_eq (key_name k) (string_bytes name)) keys.now)) (keys_of members.now) }
    ensures sorted { IsStrictlySortedBy string_cmp (keys_of members.now) }
{
    for name in members.keys() {
        if !is_among(name.as_str(), keys) {
            return Some(name);
        }
    }
    None
}

fn is_among(name: &str, keys: &[Key]) -> bool
    ensures { result ≡ list_any (λ k. bytes_eq (key_name k) name.now) keys.now }
{
    for key in keys {
        if key.name() == name {
            return true;
        }
    }
    false
}

/// Why an object that has all of these keys doesn't have them alone.
pub fn unknown_key(value: &Value, keys: &[Key]) -> Refused
    requires distinct { IsDistinct (eq_by_cmp (slice_cmp nat_cmp)) (map key_name keys.now) }
    requires all { absent_key keys.now (view value.now) ≡ None }
    requires object { IsObject (view value.now) }
    requires count { is_object_of (length keys.now) (view value.now) ≡ false }
    ensures { IsWhy (IsUnknown keys.now (view value.now)) result }
{
    let Some(name) = other_name(value, keys) else {
        unreachable!()
    };
    match name.clone() {
        Ok(name) => Refused::WrongShape(Misfit::Unknown(name)),
        Err(_) => Refused::Memory,
    }
}

/// Whether the value is an object of so many members.
pub fn is_object_of(value: &Value, count: usize) -> bool
    ensures { result ≡ is_object_of count (view value.now) }
{
    match value.as_object() {
        Some(members) => members.len() == count,
        None => false,
    }
}

/// A list with one more element, where both could be made.
pub fn with_item(
    items: Result<Vec<Value>, AllocError>,
    item: Result<Value, AllocError>,
) -> Result<Vec<Value>, AllocError>
    ensures { IfOk result (λ v. IsOkAnd items (λ xs. IsOkAnd item (λ x. map view v.items
        ≡ map view xs.items ++ view x ∷ []))) }
{
    let mut items = items?;
    items.push(item?)?;
    Ok(items)
}

/// A list with these numbers behind its elements, where it could be made.
pub fn with_numbers(
    items: Result<Vec<Value>, AllocError>,
    numbers: &[usize],
) -> Result<Vec<Value>, AllocError>
    ensures { IfOk result (λ v. IsOkAnd items (λ xs. map view v.items
        ≡ map view xs.items ++ map number_value numbers.now)) }
{
    let mut items = items?;
    for number in numbers {
        items.push(Value::from(*number))?;
    }
    Ok(items)
}

/// The array of these elements, where they could be made.
pub fn array(items: Result<Vec<Value>, AllocError>) -> Result<Value, AllocError>
    ensures { IfOk result (λ v. IsOkAnd items (λ xs. view v ≡ array_value (map view xs.items))) }
{
    Ok(Value::Array(items?))
}

/// The array of these elements, and of a lag where that isn't 0.
pub fn array_and_lag(items: Result<Vec<Value>, AllocError>, lag: i64) -> Result<Value, AllocError>
    ensures { IfOk result (λ v. IsOkAnd items (λ xs. view v
        ≡ array_value (map view xs.items ++ lag_items lag))) }
{
    if lag == 0 {
        array(items)
    } else {
        array(with_item(items, Ok(Value::from(lag))))
    }
}

/// An array of two elements.
pub fn pair_value(
    alloc: Global,
    first: Result<Value, AllocError>,
    second: Result<Value, AllocError>,
) -> Result<Value, AllocError>
    ensures { IfOk result (λ v. IsOkAnd first (λ a. IsOkAnd second (λ b. view v
        ≡ array_value (view a ∷ view b ∷ [])))) }
{
    let items = with_item(Ok(Vec::new(alloc)), first);
    array(with_item(items, second))
}

/// A list of a word and numbers.
pub fn first_items(alloc: Global, word: &str, numbers: &[usize]) -> Result<Vec<Value>, AllocError>
    ensures { IfOk result (λ v. map view v.items
        ≡ string word.now ∷ map number_value numbers.now) }
{
    let items = with_item(Ok(Vec::new(alloc)), word.to_value(alloc));
    with_numbers(items, numbers)
}

/// An array of a word, a number and a part, where that could be made.
pub fn one_part_value(
    alloc: Global,
    word: &str,
    number: usize,
    part: Result<Value, AllocError>,
) -> Result<Value, AllocError>
    ensures { IfOk result (λ v. IsOkAnd part (λ p. view v
        ≡ array_value (string word.now ∷ number_value number ∷ view p ∷ []))) }
{
    array(with_item(first_items(alloc, word, &[number]), part))
}

/// Members with one more, where these and its value could be made.
pub fn with_member(
    alloc: Global,
    members: Result<Map<String, Value>, AllocError>,
    key: &str,
    value: Result<Value, AllocError>,
) -> Result<Map<String, Value>, AllocError>
    ensures { IfOk result (λ m. IsOkAnd members (λ ms. IsOkAnd value (λ v. members_view m.entries
        ≡ put key.now (view v) (members_view ms.entries)))) }
{
    let mut members = members?;
    put(&mut members, alloc, key, value?)?;
    Ok(members)
}

/// The object of these members, where they could be made.
pub fn object(members: Result<Map<String, Value>, AllocError>) -> Result<Value, AllocError>
    ensures { IfOk result (λ v. IsOkAnd members (λ ms. view v ≡ object (members_view ms.entries))) }
{
    Ok(Value::Object(members?))
}

/// The text of a file that holds the value.
pub fn file_text(alloc: Global, value: Value) -> Result<String, AllocError>
    ensures text { IfOk result (λ s. has_float (view value) ≡ false
        → string_bytes s ≡ file_text (view value)) }
    ensures reads_back { IfOk result (λ s. depth (view value) ≤ max_depth
        → value_of (string_bytes s) ≡ Some (view value)) }
{
    let text = value.to_string(alloc);
    drop(value);
    let mut text = text?;
    text.push_str("\n")?;
    Ok(text)
}

/// The text of an element of a list, behind a comma where it is a later one than the first.
pub fn element_text(alloc: Global, later: bool, value: Value) -> Result<String, AllocError>
    ensures { IfOk result (λ s. has_float (view value) ≡ false → string_bytes s ≡ comma_if later ++ compact_text (view value)) }
{
    let text = value.to_string(alloc);
    drop(value);
    with_comma(alloc, later, text?)
}

// The text, behind a comma where it is that of a later element than the first.
fn with_comma(alloc: Global, later: bool, text: String) -> Result<String, AllocError>
    ensures { IfOk result (λ s. string_bytes s ≡ comma_if later ++ string_bytes text) }
{
    if later {
        format!(in alloc; ",{text}")
    } else {
        Ok(text)
    }
}
