//! Orders and facts of an argument, read and printed.
ghost use Rattle.std.specs.Prelude.{◌≡◌, drop, IfOk, OnOk, Some, map};
ghost use Rattle.serde_json.specs.View.{view};
ghost use Rattle.tsn_cert.specs.Form.{row_of, number_row};
ghost use Rattle.tsn_cert.specs.Json.{number_value, worded_value};
ghost use Rattle.tsn_cert.specs.Order.{order_row, order_form, orders_form, order_in, order_items, order_value, orders_of, orders_value};
ghost use Rattle.tsn_cert.specs.Fact.{bound_row, facts, fact_form, fact_value};
ghost use Rattle.tsn_codec.specs.ArgumentSays.{order_element};
ghost use Rattle.tsn_codec.specs.ArgumentSays.{fact_element};
ghost use Rattle.tsn_codec.specs.Takes.{Takes};

use crate::document;
use crate::list::{Element, array_of, few};
use crate::tokens::{Tokens, Unread};
use serde_json::Value;
use std::alloc::{AllocError, Global};
use tsn_cert::order::MAX_ORDERS;
use tsn_cert::{Fact, Order, Orders};

// ---- orders

// Two streams, a link and a lag, with the end of their array.
pub(super) fn order(tokens: &mut Tokens<'_>) -> Result<Order, Unread>
    ensures { Takes (λ order. order) result (order_row.rest tokens.old) tokens.new }
{
    let first = tokens.index()?;
    let second = tokens.index()?;
    let link = tokens.index()?;
    let lag = tokens.lag_and_end()?;
    Ok(Order {
        first,
        second,
        link,
        lag,
    })
}

impl Element for Order {
    ghost use Rattle.tsn_cert.specs.declared.order.Order.{Order};

    ghost Said = { Order };

    ghost seen = { λ order. order };

    ghost form = { order_form };

    fn take(tokens: &mut Tokens<'_>) -> Result<Order, Unread> {
        tokens.open_array()?;
        order(tokens)
    }

    ghost written = { order_value };

    #[tactic(auto, using(tsn_cert::proofs::OrderLemmas::order_back))]
    fn print(&self, alloc: Global) -> Result<Value, AllocError> {
        let numbers = &[self.first, self.second, self.link];
        let items = document::with_numbers(Ok(Vec::new(alloc)), numbers);
        document::array_and_lag(items, self.lag)
    }

    ghost says = { order_element };
}

// Orders of a round.
#[tactic(auto, using(crate::proofs::Elements::map_same))]
pub(super) fn orders(tokens: &mut Tokens<'_>) -> Result<Orders, Unread>
    ensures { Takes (λ orders. orders) result (orders_form.taken tokens.old) tokens.new }
{
    let found = few::<Order>(tokens, MAX_ORDERS)?;
    Ok(Orders::of(found))
}

#[tactic(auto, using(crate::proofs::Elements::map_same))]
pub(super) fn orders_value(alloc: Global, orders: &Orders) -> Result<Value, AllocError>
    ensures value { IfOk result (λ v. view v ≡ orders_value orders.now) }
    ensures reads_back { OnOk result (orders_of (orders_value orders.now) ≡ Some orders.now) }
{
    array_of::<Order>(alloc, orders.list())
}

// An array of a word and an order.
#[tactic(auto, using(tsn_cert::proofs::OrderLemmas::order_back))]
pub(super) fn order_behind(alloc: Global, word: &str, order: Order) -> Result<Value, AllocError>
    ensures value { IfOk result (λ v. view v ≡ worded_value word.now (order_items order)) }
    ensures reads_back { OnOk result (order_in (order_value order) ≡ Some order) }
{
    let numbers = &[order.first, order.second, order.link];
    document::array_and_lag(document::first_items(alloc, word, numbers), order.lag)
}

// An array of a word and numbers.
pub(super) fn worded(alloc: Global, word: &str, numbers: &[usize]) -> Result<Value, AllocError>
    ensures { IfOk result (λ v. view v ≡ worded_value word.now (map number_value numbers.now)) }
{
    document::array(document::first_items(alloc, word, numbers))
}

// ---- facts

// A number alone, with the end of its array.
pub(super) fn last_number(tokens: &mut Tokens<'_>) -> Result<u64, Unread>
    ensures { Takes (λ n. n) result (number_row.rest tokens.old) tokens.new }
{
    let number = tokens.number()?;
    tokens.close_array()?;
    Ok(number)
}

// A stream and a time, with the end of their array.
fn bound(tokens: &mut Tokens<'_>) -> Result<(usize, u64), Unread>
    ensures { Takes (λ b. b) result (bound_row.rest tokens.old) tokens.new }
{
    let stream = tokens.index()?;
    let time = tokens.number()?;
    tokens.close_array()?;
    Ok((stream, time))
}

// What stands behind the word of a fact.
fn fact(tokens: &mut Tokens<'_>, word: &str) -> Result<Fact, Unread>
    ensures { Takes (λ fact. fact) result ((row_of facts word.now).rest tokens.old) tokens.new }
{
    if word == "from" {
        let (stream, time) = bound(tokens)?;
        Ok(Fact::From(stream, time))
    } else if word == "until" {
        let (stream, time) = bound(tokens)?;
        Ok(Fact::Until(stream, time))
    } else {
        order_fact(tokens, word)
    }
}

// The same of the words behind the first two.
fn order_fact(tokens: &mut Tokens<'_>, word: &str) -> Result<Fact, Unread>
    ensures { Takes (λ fact. fact) result ((row_of (drop 2 facts) word.now).rest tokens.old) tokens.new }
{
    if word == "order" {
        Ok(Fact::Order(order(tokens)?))
    } else {
        done_fact(tokens, word)
    }
}

// The same of the last two words.
fn done_fact(tokens: &mut Tokens<'_>, word: &str) -> Result<Fact, Unread>
    ensures { Takes (λ fact. fact) result ((row_of (drop 3 facts) word.now).rest tokens.old) tokens.new }
{
    if word == "done_from" {
        Ok(Fact::DoneFrom(last_number(tokens)?))
    } else if word == "done_until" {
        Ok(Fact::DoneUntil(last_number(tokens)?))
    } else {
        Err(Unread::OtherForm)
    }
}

impl Element for Fact {
    ghost use Rattle.tsn_cert.specs.declared.fact.Fact.{Fact};

    ghost Said = { Fact };

    ghost seen = { λ fact. fact };

    ghost form = { fact_form };

    fn take(tokens: &mut Tokens<'_>) -> Result<Fact, Unread> {
        tokens.open_array()?;
        let word = tokens.word()?;
        fact(tokens, word)
    }

    ghost written = { fact_value };

    #[tactic(auto, using(tsn_cert::proofs::FactLemmas::order_fact_back))]
    fn print(&self, alloc: Global) -> Result<Value, AllocError> {
        match self {
            Fact::From(stream, time) => worded(alloc, "from", &[*stream, *time as usize]),
            Fact::Until(stream, time) => worded(alloc, "until", &[*stream, *time as usize]),
            Fact::Order(order) => order_behind(alloc, "order", *order),
            Fact::DoneFrom(time) => worded(alloc, "done_from", &[*time as usize]),
            Fact::DoneUntil(time) => worded(alloc, "done_until", &[*time as usize]),
        }
    }

    ghost says = { fact_element };
}
