//! Tokens of a JSON text, read one after another with no value of the text in between.
ghost use Rattle.std.specs.Prelude.{◌≡◌, ◌≢◌, ◌<◌, ◌==◌, ◌∷◌, true, false, slice_index, List, Option, length, Some, None, IfOk, OnOk, MatchOption, MatchResult, [], option_and_then};
ghost use Rattle.std.specs.Bool.{MatchBool};
ghost use Rattle.json.specs.Token.{Token as JsonToken, begin_object};
ghost use Rattle.json.specs.Lex.{tokens};
ghost use Rattle.json.specs.Json.{after_end_array, read_key, skip_value};
ghost use Rattle.json.specs.Reads.{token_of};
ghost use Rattle.serde_json.specs.Find.{as_u64};
ghost use Rattle.serde_json.specs.Read.{number_of};
ghost use Rattle.tsn_cert.specs.Json.{signed_of};
ghost use Rattle.tsn_cert.specs.Cert.{chain_row, chain_form, lag_row};
ghost use Rattle.tsn_cert.specs.Form as form;
ghost use Rattle.tsn_codec.specs.Takes.{Takes, Passes};
ghost use Rattle.tsn_codec.specs.Written.{is_plain, ArePlain};

use fast_float::Numeral;
use json::{Reader, Scratch, Token};
use std::alloc::{AllocError, AllocFailed, Global};
use std::marker::Model;
use tsn_cert::chain::{Chain, MAX_CHAIN};
use tsn_model::NoMemory;

/// Why a reading gives up.
#[derive(Clone, Copy, Drop)]
pub enum Unread {
    /// The tokens don't say it.
    OtherForm,
    /// A growth was refused.
    Memory,
}

impl From<NoMemory> for Unread {
    ghost use Rattle.std.specs.Prelude.{◌≡◌};
    ghost use Rattle.tsn_codec.specs.declared.tokens.Unread.TheVariants.{Memory};

    ghost from_gives = { λ _ e. e ≡ Memory };

    fn from(_refused: NoMemory) -> Unread {
        Unread::Memory
    }
}

impl From<AllocError> for Unread {
    ghost use Rattle.std.specs.Prelude.{◌≡◌};
    ghost use Rattle.tsn_codec.specs.declared.tokens.Unread.TheVariants.{Memory};

    ghost from_gives = { λ _ e. e ≡ Memory };

    fn from(_refused: AllocError) -> Unread {
        Unread::Memory
    }
}

impl<T: Drop> From<AllocFailed<T>> for Unread {
    ghost use Rattle.std.specs.Prelude.{◌≡◌};
    ghost use Rattle.tsn_codec.specs.declared.tokens.Unread.TheVariants.{Memory};

    ghost from_gives = { λ _ e. e ≡ Memory };

    fn from(_refused: AllocFailed<T>) -> Unread {
        Unread::Memory
    }
}

/// The tokens of a text that are still to come.
#[derive(Drop)]
pub struct Tokens<'a> {
    reader: Reader<'a>,
    alloc: Global,
    /// The numbers of one chain after another.
    numbers: Vec<usize>,
}

impl<'a> Model for Tokens<'a> {
    ghost use Rattle.std.specs.Prelude.{List};
    ghost use Rattle.json.specs.Token.{Token as SpecToken, tokens_code};

    ghost Value = { List SpecToken };

    ghost coded = { tokens_code };

    ghost view = { λ ts. ts.reader };
}

impl<'a> Tokens<'a> {
    /// The tokens of a text.
    pub fn of(
        alloc: Global,
        text: &'a str,
        scratch: &'a mut Scratch,
    ) -> Result<Tokens<'a>, AllocError>
        ensures { IfOk result (λ ts. ts ≡ tokens text.now) }
    {
        let reader = Reader::new(text, scratch)?;
        let numbers = Vec::new(alloc);
        Ok(Tokens {
            reader,
            alloc,
            numbers,
        })
    }

    /// The allocator of what is read.
    pub fn alloc(&self) -> Global {
        self.alloc
    }

    /// Whether no token is left.
    pub fn are_over(&mut self) -> bool
        ensures { MatchBool result (self.old ≡ []) (self.old ≢ []) }
    {
        self.reader.next().is_none()
    }

    /// Passes the beginning of an array.
    pub fn open_array(&mut self) -> Result<(), Unread>
        ensures { Passes result (form.after_begin_array self.old) self.new }
    {
        match self.reader.next() {
            Some(Token::BeginArray) => Ok(()),
            _ => Err(Unread::OtherForm),
        }
    }

    /// Passes the end of an array, where it is next.
    pub fn take_end(&mut self) -> bool
        ensures { MatchBool result (after_end_array self.old ≡ Some self.new)
            ((after_end_array self.old ≡ None) × (self.new ≡ self.old)) }
    {
        self.reader.take_end_array()
    }

    /// Passes the end of an array.
    pub fn close_array(&mut self) -> Result<(), Unread>
        ensures { Passes result (after_end_array self.old) self.new }
    {
        if self.reader.take_end_array() {
            Ok(())
        } else {
            Err(Unread::OtherForm)
        }
    }

    /// Passes a text, and gives it.
    pub fn word(&mut self) -> Result<&'a str, Unread>
        ensures { MatchResult result (λ word. form.text.taken self.old ≡ Some (word.now, self.new))
            (λ _. form.text.taken self.old ≡ None) }
    {
        match self.reader.next() {
            Some(Token::String(text)) => Ok(text),
            _ => Err(Unread::OtherForm),
        }
    }

    /// Passes a number that is a `u64`, and gives it.
    pub fn number(&mut self) -> Result<u64, Unread>
        ensures { Takes (λ x. x) result (form.number.taken self.old) self.new }
    {
        number(&mut self.reader)
    }

    /// The same, as an index.
    pub fn index(&mut self) -> Result<usize, Unread>
        ensures { Takes (λ x. x) result (form.number.taken self.old) self.new }
    {
        Ok(self.number()? as usize)
    }

    /// Passes a number that is an `i64` or a `u64`, and gives it; the greatest `i64` stands for all above it.
    pub fn signed(&mut self) -> Result<i64, Unread>
        ensures { Takes (λ x. x) result (form.signed.taken self.old) self.new }
    {
        match self.reader.next() {
            Some(Token::Number(text)) => signed_number(text).ok_or(Unread::OtherForm),
            _ => Err(Unread::OtherForm),
        }
    }

    /// Passes a number that is a `u64`, and gives it, or passes the beginning of an array.
    pub fn number_or_open(&mut self) -> Result<Option<u64>, Unread>
        ensures { MatchResult result
            (λ found. MatchOption found
            ((form.number.taken self.old ≡ None) × (form.after_begin_array self.old ≡ Some self.new))
            (λ n. (form.number.taken self.old ≡ Some (n, self.new)) × (form.after_begin_array self.old ≡ None)))
            (λ _. (form.number.taken self.old ≡ None) × (form.after_begin_array self.old ≡ None)) }
    {
        match self.reader.next() {
            Some(Token::BeginArray) => Ok(None),
            Some(Token::Number(text)) => Ok(Some(whole_number(text).ok_or(Unread::OtherForm)?)),
            _ => Err(Unread::OtherForm),
        }
    }

    /// Passes a chain, and gives it.
    pub fn chain(&mut self) -> Result<Chain, Unread>
        ensures { Takes (λ chain. chain) result (chain_form.taken self.old) self.new }
    {
        self.open_array()?;
        self.chain_behind()
    }

    /// The same behind the bracket that opens it.
    pub fn chain_behind(&mut self) -> Result<Chain, Unread>
        ensures { Takes (λ chain. chain) result (chain_row.rest self.old) self.new }
    {
        fill(&mut self.reader, &mut self.numbers)?;
        if self.numbers.len() > MAX_CHAIN {
            return Err(Unread::OtherForm);
        }
        Ok(Chain::of(self.alloc, &self.numbers)?)
    }

    /// Passes a lag, where the array goes on with one, and the end of the array. Gives the lag, in nanoseconds.
    pub fn lag_and_end(&mut self) -> Result<i64, Unread>
        ensures { Takes (λ lag. lag) result (lag_row.rest self.old) self.new }
    {
        if self.take_end() {
            return Ok(0);
        }
        let lag = self.signed()?;
        if lag == 0 {
            return Err(Unread::OtherForm);
        }
        self.close_array()?;
        Ok(lag)
    }

    /// Passes a value that nests no deeper than so many levels.
    pub fn skip_value(&mut self, levels: usize) -> Result<(), Unread>
        ensures passed { OnOk result (skip_value levels self.old ≡ Some self.new) }
        ensures shorter { OnOk result (length self.new < length self.old) }
    {
        match self.reader.skip_value(levels) {
            Ok(()) => Ok(()),
            Err(_) => Err(Unread::OtherForm),
        }
    }

    /// Passes all. Whether each number is an `i64` or a `u64`.
    pub fn have_plain_numbers(&mut self) -> bool
        ensures { result ≡ true → ArePlain self.old }
    {
        are_plain(&mut self.reader)
    }

    /// Passes the beginning of an object.
    pub fn open_object(&mut self) -> Result<(), Unread>
        ensures { OnOk result (self.old ≡ begin_object ∷ self.new) }
    {
        match self.reader.next() {
            Some(Token::BeginObject) => Ok(()),
            _ => Err(Unread::OtherForm),
        }
    }

    /// Passes the end of an object.
    pub fn close_object(&mut self) -> Result<(), Unread>
        ensures { OnOk result (read_key self.old ≡ Some (None, self.new)) }
    {
        match self.reader.next_key() {
            Ok(None) => Ok(()),
            _ => Err(Unread::OtherForm),
        }
    }

    /// Passes the key of this name.
    pub fn key(&mut self, name: &str) -> Result<(), Unread>
        ensures { OnOk result (read_key self.old ≡ Some (Some name.now, self.new)) }
    {
        let Ok(Some(found)) = self.reader.next_key() else {
            return Err(Unread::OtherForm);
        };
        if found == name {
            Ok(())
        } else {
            Err(Unread::OtherForm)
        }
    }
}

// ---- numbers

// Whether the token is no number, or one that is an `i64` or a `u64`.
fn is_plain(token: Token<'_>) -> bool
    ensures { result ≡ true → is_plain (token_of token.entry) ≡ true }
{
    match token {
        Token::Number(text) => signed_number(text).is_some(),
        _ => true,
    }
}

fn number(reader: &mut Reader<'_>) -> Result<u64, Unread>
    ensures { Takes (λ x. x) result (form.number.taken reader.old) reader.new }
{
    match reader.next() {
        Some(Token::Number(text)) => whole_number(text).ok_or(Unread::OtherForm),
        _ => Err(Unread::OtherForm),
    }
}

// Passes all. Whether each number is an `i64` or a `u64`.
fn are_plain(reader: &mut Reader<'_>) -> bool
    ensures { result ≡ true → ArePlain reader.old }
{
    'tokens: while let Some(token) = reader.next() {
        if !is_plain(token) {
            return false;
        }
    }
    true
}

// Passes numbers up to the end of their array. The list has them then, and nothing else.
fn fill(reader: &mut Reader<'_>, list: &mut Vec<usize>) -> Result<(), Unread>
    ensures { Takes (λ _. list.new.items) result
        (form.elements_taken form.number.taken reader.old) reader.new }
{
    list.clear();
    'numbers: while !reader.take_end_array() {
        let one = number(reader)?;
        list.push(one as usize)?;
    }
    Ok(())
}

fn has_minus(bytes: &[u8]) -> bool
    ensures { result ≡ (slice_index bytes.now 0 == 45) }
{
    !bytes.is_empty() && bytes[0] == b'-'
}

// The number that the text of a token says, where it is a `u64`.
#[tactic(auto, using(crate::proofs::Numbers::whole_minus, crate::proofs::Numbers::whole_plain))]
fn whole_number(text: &str) -> Option<u64>
    ensures { result ≡ option_and_then as_u64 (number_of text.now) }
{
    let bytes = text.as_bytes();
    if has_minus(bytes) {
        None
    } else {
        Numeral::scan(bytes).to_u64()
    }
}

// The number below 0 that these bytes say behind its sign, where it is an `i64`.
#[tactic(auto, unfolding(serde_json::specs::Read::number_of))]
fn below_zero(bytes: &[u8]) -> Option<i64>
    ensures { result ≡ option_and_then signed_of (number_of (45 ∷ bytes.now)) }
{
    match Numeral::scan(bytes).to_i64(true) {
        Some(number) if number < 0 => Some(number),
        _ => None,
    }
}

// The number that the text of a token says without a sign, and no more than the greatest `i64`.
fn at_least_zero(text: &str) -> Option<i64>
    requires { (slice_index text.now 0 == 45) ≡ false }
    ensures { result ≡ option_and_then signed_of (number_of text.now) }
{
    match whole_number(text) {
        Some(number) => Some(number.min(i64::MAX as u64) as i64),
        None => None,
    }
}

// The number that the text of a token says, where it is an `i64` or a `u64`.
fn signed_number(text: &str) -> Option<i64>
    ensures { result ≡ option_and_then signed_of (number_of text.now) }
{
    match text.as_bytes() {
        [b'-', digits @ ..] => below_zero(digits),
        _ => at_least_zero(text),
    }
}
