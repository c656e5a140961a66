//! Moves of an argument, and their frames, read and printed.
ghost use Rattle.std.specs.Prelude.{◌≡◌, drop, IfOk, OnOk, Some, None};
ghost use Rattle.std.specs.List.{list_any};
ghost use Rattle.serde_json.specs.View.{view};
ghost use Rattle.tsn_cert.specs.declared.motion.Move.TheVariants as form;
ghost use Rattle.tsn_cert.specs.Form.{becomes, next, number, over, over_or, row_of};
ghost use Rattle.tsn_cert.specs.Json.{worded_value};
ghost use Rattle.tsn_cert.specs.Move.{later_row, frame_form, frame_value, frames_form, frames_of, frames_value, edge_form, edge_in, edge_value, filling_row, filling_parts, filling_items, fixed_form, fixed_in, wasting_row, placing_row, placing_parts, placing_items, pack_row, round_row, follow_row, motions, move_form, move_in, move_value};
ghost use Rattle.tsn_codec.specs.ArgumentSays.{frame_element, move_element};
ghost use Rattle.tsn_codec.specs.Matter.{order_lags, move_lags};
ghost use Rattle.tsn_codec.specs.Takes.{Takes};

use crate::argument::parts::{last_number, order, order_behind, orders, orders_value, worded};
use crate::document;
use crate::list::{Element, array_of, few, list};
use crate::tokens::{Tokens, Unread};
use serde_json::{ToValue, Value};
use std::alloc::{AllocError, Global};
use tsn_cert::motion::MAX_FRAMES;
use tsn_cert::{Edge, Filling, Frames, Move, Order, Orders, Placing, Sequence, Wasting};
use tsn_model::Frame;

// ---- frames

// A stream and a shift above 0, with the end of their array.
fn later_frame(tokens: &mut Tokens<'_>) -> Result<Frame, Unread>
    ensures { Takes (λ frame. frame) result (later_row.rest tokens.old) tokens.new }
{
    let stream = tokens.index()?;
    let shift = tokens.number()?;
    if shift == 0 {
        return Err(Unread::OtherForm);
    }
    tokens.close_array()?;
    Ok(Frame { stream, shift })
}

impl Element for Frame {
    ghost use Rattle.tsn_model.specs.declared.Frame.{Frame};

    ghost Said = { Frame };

    ghost seen = { λ frame. frame };

    ghost form = { frame_form };

    fn take(tokens: &mut Tokens<'_>) -> Result<Frame, Unread> {
        match tokens.number_or_open()? {
            Some(stream) => Ok(Frame {
                stream: stream as usize,
                shift: 0,
            }),
            None => later_frame(tokens),
        }
    }

    ghost written = { frame_value };

    #[tactic(auto, using(tsn_cert::proofs::MoveLemmas::frame_back))]
    fn print(&self, alloc: Global) -> Result<Value, AllocError> {
        if self.shift == 0 {
            Ok(Value::from(self.stream))
        } else {
            let numbers = &[self.stream, self.shift as usize];
            document::array(document::with_numbers(Ok(Vec::new(alloc)), numbers))
        }
    }

    ghost says = { frame_element };
}

// Frames of a move.
#[tactic(auto, using(crate::proofs::Elements::map_same))]
fn frames(tokens: &mut Tokens<'_>) -> Result<Frames, Unread>
    ensures { Takes (λ frames. frames) result (frames_form.taken tokens.old) tokens.new }
{
    let found = few::<Frame>(tokens, MAX_FRAMES)?;
    Ok(Frames::of(found))
}

#[tactic(auto, using(crate::proofs::Elements::map_same))]
fn frames_value(alloc: Global, frames: &Frames) -> Result<Value, AllocError>
    ensures value { IfOk result (λ v. view v ≡ frames_value frames.now) }
    ensures reads_back { frames_of (frames_value frames.now) ≡ Some frames.now }
{
    array_of::<Frame>(alloc, frames.list())
}

// A frame where a room begins or ends, if there is one.
fn edge(tokens: &mut Tokens<'_>) -> Result<Edge, Unread>
    ensures { Takes (λ edge. edge) result (edge_form.taken tokens.old) tokens.new }
{
    match tokens.number_or_open()? {
        Some(stream) => Ok(Some(Frame {
            stream: stream as usize,
            shift: 0,
        })),
        None => edge_behind(tokens),
    }
}

// The same behind the bracket that opens an array.
fn edge_behind(tokens: &mut Tokens<'_>) -> Result<Edge, Unread>
    ensures { Takes (λ edge. edge) result ((over_or None (becomes Some later_row)).rest tokens.old) tokens.new }
{
    if tokens.take_end() {
        Ok(None)
    } else {
        Ok(Some(later_frame(tokens)?))
    }
}

#[tactic(auto, using(tsn_cert::proofs::MoveLemmas::edge_back))]
fn edge_value(alloc: Global, edge: Edge) -> Result<Value, AllocError>
    ensures value { IfOk result (λ v. view v ≡ edge_value edge) }
    ensures reads_back { OnOk result (edge_in (edge_value edge) ≡ Some edge) }
{
    match edge {
        Some(frame) => frame.print(alloc),
        None => document::array(Ok(Vec::new(alloc))),
    }
}

// Frames that can't move.
#[tactic(auto, using(crate::proofs::Elements::map_same))]
fn fixed(tokens: &mut Tokens<'_>) -> Result<Sequence<Frame>, Unread>
    ensures { Takes (λ frames. frames) result (fixed_form.taken tokens.old) tokens.new }
{
    let found = list::<Frame>(tokens)?;
    Ok(Sequence::of(found))
}

#[tactic(auto, using(crate::proofs::Elements::map_same))]
fn fixed_value(alloc: Global, frames: &Sequence<Frame>) -> Result<Value, AllocError>
    ensures value { IfOk result (λ v. view v ≡ frames_value frames.now) }
    ensures reads_back { OnOk result (fixed_in (frames_value frames.now) ≡ Some frames.now) }
{
    array_of::<Frame>(alloc, frames.list())
}

// ---- what stands behind the word of a move

// A link, a frame, others and some of these, with the end of their array.
fn placing(tokens: &mut Tokens<'_>) -> Result<Placing, Unread>
    ensures { Takes (λ placing. placing) result (placing_row.rest tokens.old) tokens.new }
{
    let link = tokens.index()?;
    let frame = Frame::take(tokens)?;
    let others = frames(tokens)?;
    match last_frames(tokens) {
        Ok(some) => Ok(Placing {
            link,
            frame,
            others,
            some,
        }),
        Err(error) => {
            drop(others);
            Err(error)
        }
    }
}

// Frames alone, with the end of their array.
fn last_frames(tokens: &mut Tokens<'_>) -> Result<Frames, Unread>
    ensures { Takes (λ frames. frames) result ((next frames_form over).rest tokens.old) tokens.new }
{
    let frames = frames(tokens)?;
    tokens.close_array()?;
    Ok(frames)
}

// A link and frames, with the end of their array.
fn pack(tokens: &mut Tokens<'_>) -> Result<Move, Unread>
    ensures { Takes (λ motion. motion) result ((becomes (λ p. form.Pack p.0 p.1) pack_row).rest tokens.old) tokens.new }
{
    let link = tokens.index()?;
    match last_frames(tokens) {
        Ok(frames) => Ok(Move::Pack(link, frames)),
        Err(error) => Err(error),
    }
}

// Orders alone, with the end of their array.
fn round(tokens: &mut Tokens<'_>) -> Result<Move, Unread>
    ensures { Takes (λ motion. motion) result ((becomes form.Round round_row).rest tokens.old) tokens.new }
{
    let orders = orders(tokens)?;
    tokens.close_array()?;
    Ok(Move::Round(orders))
}

// Two orders, with the end of their array.
fn follow(tokens: &mut Tokens<'_>) -> Result<Move, Unread>
    ensures { Takes (λ motion. motion) result ((becomes (λ p. form.Follow p.0 p.1) follow_row).rest tokens.old) tokens.new }
{
    let known = Order::take(tokens)?;
    let weaker = Order::take(tokens)?;
    tokens.close_array()?;
    Ok(Move::Follow(known, weaker))
}

// A link, a frame, others, where the room begins and ends, and a time, with the end of their array.
fn filling(tokens: &mut Tokens<'_>) -> Result<Filling, Unread>
    ensures { Takes (λ filling. filling) result (filling_row.rest tokens.old) tokens.new }
{
    let link = tokens.index()?;
    let frame = Frame::take(tokens)?;
    let others = frames(tokens)?;
    match room(tokens) {
        Ok((before, after, bound)) => Ok(Filling {
            link,
            frame,
            others,
            before,
            after,
            bound,
        }),
        Err(error) => {
            drop(others);
            Err(error)
        }
    }
}

// Where a room begins and ends, and a time, with the end of their array.
fn room(tokens: &mut Tokens<'_>) -> Result<(Edge, Edge, u64), Unread>
    ensures { Takes (λ room. room) result
        ((next edge_form (λ before. next edge_form (λ after. next number (λ bound. over (before, after, bound))))).rest tokens.old) tokens.new }
{
    let before = edge(tokens)?;
    let after = edge(tokens)?;
    let bound = last_number(tokens)?;
    Ok((before, after, bound))
}

// A link, frames, and those that can't move, with the end of their array.
fn wasting(tokens: &mut Tokens<'_>) -> Result<Wasting, Unread>
    ensures { Takes (λ wasting. wasting) result (wasting_row.rest tokens.old) tokens.new }
{
    let link = tokens.index()?;
    let frames = frames(tokens)?;
    match last_fixed(tokens) {
        Ok(fixed) => Ok(Wasting {
            link,
            frames,
            fixed,
        }),
        Err(error) => {
            drop(frames);
            Err(error)
        }
    }
}

// Frames that can't move, with the end of their array.
fn last_fixed(tokens: &mut Tokens<'_>) -> Result<Sequence<Frame>, Unread>
    ensures { Takes (λ frames. frames) result ((next fixed_form over).rest tokens.old) tokens.new }
{
    let frames = fixed(tokens)?;
    tokens.close_array()?;
    Ok(frames)
}

// An array of a word and a placing.
#[tactic(auto, using(tsn_cert::proofs::MoveLemmas::placing_back))]
fn placing_behind(alloc: Global, word: &str, placing: &Placing) -> Result<Value, AllocError>
    ensures value { IfOk result (λ v. view v ≡ worded_value word.now (placing_items placing.now)) }
    ensures reads_back { OnOk result (placing_parts (placing_items placing.now) ≡ Some placing.now) }
{
    let items = document::first_items(alloc, word, &[placing.link]);
    let items = document::with_item(items, placing.frame.print(alloc));
    let items = document::with_item(items, frames_value(alloc, &placing.others));
    document::array(document::with_item(items, frames_value(alloc, &placing.some)))
}

// An array of a word and a filling.
#[tactic(auto, using(tsn_cert::proofs::MoveLemmas::filling_back))]
fn filling_behind(alloc: Global, word: &str, filling: &Filling) -> Result<Value, AllocError>
    ensures value { IfOk result (λ v. view v ≡ worded_value word.now (filling_items filling.now)) }
    ensures reads_back { OnOk result (filling_parts (filling_items filling.now) ≡ Some filling.now) }
{
    let items = document::first_items(alloc, word, &[filling.link]);
    let items = document::with_item(items, filling.frame.print(alloc));
    let items = document::with_item(items, frames_value(alloc, &filling.others));
    let items = document::with_item(items, edge_value(alloc, filling.before));
    let items = document::with_item(items, edge_value(alloc, filling.after));
    document::array(document::with_numbers(items, &[filling.bound as usize]))
}

#[tactic(auto, using(tsn_cert::proofs::MoveLemmas::wasting_back, tsn_cert::proofs::MoveLemmas::waste_moved))]
fn waste_value(alloc: Global, wasting: &Wasting) -> Result<Value, AllocError>
    ensures value { IfOk result (λ v. view v ≡ move_value (form.Waste wasting.now)) }
    ensures reads_back { OnOk result (move_in (move_value (form.Waste wasting.now)) ≡ Some (form.Waste wasting.now)) }
{
    let items = document::first_items(alloc, "waste", &[wasting.link]);
    let items = document::with_item(items, frames_value(alloc, &wasting.frames));
    document::array(document::with_item(items, fixed_value(alloc, &wasting.fixed)))
}

#[tactic(auto, using(tsn_cert::proofs::MoveLemmas::pack_back))]
fn pack_value(alloc: Global, link: usize, frames: &Frames) -> Result<Value, AllocError>
    ensures value { IfOk result (λ v. view v ≡ move_value (form.Pack link frames.now)) }
    ensures reads_back { OnOk result (move_in (move_value (form.Pack link frames.now)) ≡ Some (form.Pack link frames.now)) }
{
    document::one_part_value(alloc, "pack", link, frames_value(alloc, frames))
}

#[tactic(auto, using(tsn_cert::proofs::MoveLemmas::round_back))]
fn round_value(alloc: Global, orders: &Orders) -> Result<Value, AllocError>
    ensures value { IfOk result (λ v. view v ≡ move_value (form.Round orders.now)) }
    ensures reads_back { OnOk result (move_in (move_value (form.Round orders.now)) ≡ Some (form.Round orders.now)) }
{
    document::pair_value(alloc, "round".to_value(alloc), orders_value(alloc, orders))
}

#[tactic(auto, using(tsn_cert::proofs::MoveLemmas::follow_back))]
fn follow_value(alloc: Global, known: Order, weaker: Order) -> Result<Value, AllocError>
    ensures value { IfOk result (λ v. view v ≡ move_value (form.Follow known weaker)) }
    ensures reads_back { OnOk result (move_in (move_value (form.Follow known weaker)) ≡ Some (form.Follow known weaker)) }
{
    let items = document::first_items(alloc, "follow", &[]);
    let items = document::with_item(items, known.print(alloc));
    document::array(document::with_item(items, weaker.print(alloc)))
}

// ---- moves

// What stands behind the word of a move.
fn motion(tokens: &mut Tokens<'_>, word: &str) -> Result<Move, Unread>
    ensures { Takes (λ motion. motion) result ((row_of motions word.now).rest tokens.old) tokens.new }
{
    if word == "go" {
        Ok(Move::Go(order(tokens)?))
    } else if word == "turn" {
        Ok(Move::Turn(order(tokens)?))
    } else {
        numbered_motion(tokens, word)
    }
}

// The same of the words behind the first two.
fn numbered_motion(tokens: &mut Tokens<'_>, word: &str) -> Result<Move, Unread>
    ensures { Takes (λ motion. motion) result ((row_of (drop 2 motions) word.now).rest tokens.old) tokens.new }
{
    if word == "use" {
        Ok(Move::Use(last_number(tokens)? as usize))
    } else if word == "arrive" {
        Ok(Move::Arrive(last_number(tokens)? as usize))
    } else {
        placed_motion(tokens, word)
    }
}

// The same of the words behind the first four.
fn placed_motion(tokens: &mut Tokens<'_>, word: &str) -> Result<Move, Unread>
    ensures { Takes (λ motion. motion) result ((row_of (drop 4 motions) word.now).rest tokens.old) tokens.new }
{
    if word == "last" {
        Ok(Move::Last(placing(tokens)?))
    } else if word == "first" {
        Ok(Move::First(placing(tokens)?))
    } else {
        later_motion(tokens, word)
    }
}

// The same of the words behind the first six.
fn later_motion(tokens: &mut Tokens<'_>, word: &str) -> Result<Move, Unread>
    ensures { Takes (λ motion. motion) result ((row_of (drop 6 motions) word.now).rest tokens.old) tokens.new }
{
    if word == "pack" {
        pack(tokens)
    } else if word == "round" {
        round(tokens)
    } else {
        last_motion(tokens, word)
    }
}

// The same of the words behind the first eight.
fn last_motion(tokens: &mut Tokens<'_>, word: &str) -> Result<Move, Unread>
    ensures { Takes (λ motion. motion) result ((row_of (drop 8 motions) word.now).rest tokens.old) tokens.new }
{
    if word == "follow" {
        follow(tokens)
    } else if word == "fill" {
        Ok(Move::Fill(filling(tokens)?))
    } else {
        room_motion(tokens, word)
    }
}

// The same of the last two words.
fn room_motion(tokens: &mut Tokens<'_>, word: &str) -> Result<Move, Unread>
    ensures { Takes (λ motion. motion) result ((row_of (drop 10 motions) word.now).rest tokens.old) tokens.new }
{
    if word == "fill_back" {
        Ok(Move::FillBack(filling(tokens)?))
    } else if word == "waste" {
        Ok(Move::Waste(wasting(tokens)?))
    } else {
        Err(Unread::OtherForm)
    }
}

impl Element for Move {
    ghost use Rattle.tsn_cert.specs.declared.motion.Move.{Move};

    ghost Said = { Move };

    ghost seen = { λ motion. motion };

    ghost form = { move_form };

    fn take(tokens: &mut Tokens<'_>) -> Result<Move, Unread> {
        tokens.open_array()?;
        let word = tokens.word()?;
        motion(tokens, word)
    }

    ghost written = { move_value };

    #[tactic(auto, using(tsn_cert::proofs::MoveLemmas::go_back, tsn_cert::proofs::MoveLemmas::turn_back, tsn_cert::proofs::MoveLemmas::last_back, tsn_cert::proofs::MoveLemmas::first_back, tsn_cert::proofs::MoveLemmas::fill_moved, tsn_cert::proofs::MoveLemmas::fill_back_moved))]
    fn print(&self, alloc: Global) -> Result<Value, AllocError> {
        match self {
            Move::Go(order) => order_behind(alloc, "go", *order),
            Move::Turn(order) => order_behind(alloc, "turn", *order),
            Move::Use(number) => worded(alloc, "use", &[*number]),
            Move::Arrive(stream) => worded(alloc, "arrive", &[*stream]),
            Move::Last(placing) => placing_behind(alloc, "last", placing),
            Move::First(placing) => placing_behind(alloc, "first", placing),
            Move::Pack(link, frames) => pack_value(alloc, *link, frames),
            Move::Round(orders) => round_value(alloc, orders),
            Move::Follow(known, weaker) => follow_value(alloc, *known, *weaker),
            Move::Fill(filling) => filling_behind(alloc, "fill", filling),
            Move::FillBack(filling) => filling_behind(alloc, "fill_back", filling),
            Move::Waste(wasting) => waste_value(alloc, wasting),
        }
    }

    ghost says = { move_element };
}

fn have_lag(orders: &[Order]) -> bool
    ensures { result ≡ list_any order_lags orders.now }
{
    for order in orders {
        if order.lag != 0 {
            return true;
        }
    }
    false
}

/// Whether the move has a lag other than 0.
pub(super) fn has_lag(motion: &Move) -> bool
    ensures { result ≡ move_lags motion.now }
{
    match motion {
        Move::Go(order) | Move::Turn(order) => order.lag != 0,
        Move::Round(orders) => have_lag(orders.list()),
        Move::Follow(known, weaker) => known.lag != 0 || weaker.lag != 0,
        _ => false,
    }
}
