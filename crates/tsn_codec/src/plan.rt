//! Plan files, read and printed.
ghost use Rattle.std.specs.Prelude.{◌≡◌, ◌≤◌, IfOk, IfErr, string_bytes, IsTrue, Ok, Some, position, not, nat_le, codes};
ghost use Rattle.serde_json.specs.Data.{depth, object, member, no_members};
ghost use Rattle.serde_json.specs.Read.{max_depth};
ghost use Rattle.serde_json.specs.View.{view};
ghost use Rattle.tsn_cert.specs.Fault.{Gives, shaped};
ghost use Rattle.tsn_cert.specs.declared.refused.Excess.{Excess};
ghost use Rattle.tsn_cert.specs.Told.{Tells, Finds};
ghost use Rattle.tsn_cert.specs.Json.{numbers};
ghost use Rattle.tsn_cert.specs.Plan.{plan_of, plan_of_values, plan_fits, plan_in, plan_value, plan_text, max_time};
ghost use Rattle.tsn_codec.specs.Matter.{FindsExcess, IsPlanExcess, IsWhy, IsOffsetsMisfit, IsValuesMisfit, IsPlanMisfit, IsToldOfPlan};

use crate::document;
use crate::list::{Element, Unlisted, array_of, list_in};
use crate::tokens::{Tokens, Unread};
use serde_json::{Map, Value};
use std::alloc::{AllocError, Global};
use tsn_cert::plan::MAX_TIME;
use tsn_cert::{Excess, FileFault, Key, Misfit, Offsets, Plan, Refused};
use tsn_model::NoMemory;

// The keys of a plan file.
const KEYS: &[Key] = &[Key::Flowspan, Key::Offsets];

impl Element for u64 {
    ghost use Rattle.std.specs.Prelude.{ℕ};
    ghost use Rattle.tsn_cert.specs.Form.{number};
    ghost use Rattle.tsn_cert.specs.Json.{number_value};
    ghost use Rattle.tsn_codec.specs.PlanSays.{number_element};

    ghost Said = { ℕ };

    ghost seen = { λ n. n };

    ghost form = { number };

    fn take(tokens: &mut Tokens<'_>) -> Result<u64, Unread> {
        tokens.number()
    }

    ghost written = { number_value };

    fn print(&self, alloc: Global) -> Result<Value, AllocError> {
        Ok(Value::from(*self))
    }

    ghost says = { number_element };
}

/// Reads a plan file.
pub fn plan_from_json(alloc: Global, bytes: &[u8]) -> Result<Plan, FileFault>
    ensures { Gives (λ plan. plan) result (plan_in bytes.now) }
{
    match plan_or_refuse(alloc, bytes) {
        Ok(plan) => Ok(plan),
        Err(refused) => Err(refused.code()),
    }
}

/// Reads a plan file, or says what is the matter with it.
pub fn plan_or_refuse(alloc: Global, bytes: &[u8]) -> Result<Plan, Refused>
    ensures plan { Tells (λ plan. plan) result (plan_in bytes.now) }
    ensures told { IfErr result (IsToldOfPlan bytes.now) }
{
    let value = document::value_from(alloc, bytes)?;
    let read = plan_from(alloc, &value);
    drop(value);
    match read {
        Ok(plan) => limited(plan),
        Err(refused) => Err(refused),
    }
}

// The plan, where each of its numbers is within its limit.
fn limited(plan: Plan) -> Result<Plan, Refused>
    ensures limits { Tells (λ plan. plan) result (shaped plan_fits (Some plan)) }
    ensures told { IfErr result (λ refused. (e : Excess) × (refused ≡ Refused.NumberTooLarge e) × IsPlanExcess plan e) }
{
    match excess(&plan) {
        None => Ok(plan),
        Some(excess) => {
            drop(plan);
            Err(Refused::NumberTooLarge(excess))
        }
    }
}

/// The text of a plan file.
pub fn plan_to_json(alloc: Global, plan: &Plan) -> Result<String, NoMemory>
    ensures text { IfOk result (λ s. string_bytes s ≡ plan_text plan.now) }
    // What is printed is read again.
    ensures reads_back { IfOk result (λ s. IsTrue (plan_fits plan.now)
        → plan_in (string_bytes s) ≡ Ok plan.now) }
{
    let value = value_of(alloc, plan)?;
    Ok(document::file_text(alloc, value)?)
}

// The value that a plan file holds.
#[tactic(auto, using(crate::proofs::Elements::map_same))]
fn value_of(alloc: Global, plan: &Plan) -> Result<Value, AllocError>
    ensures { IfOk result (λ v. view v ≡ plan_value plan.now) }
{
    match plan {
        Plan::Schedule { flowspan, offsets } => {
            let offsets = array_of::<u64>(alloc, offsets.list())?;
            members_value(alloc, Value::from(*flowspan), offsets)
        }
        Plan::None => members_value(alloc, Value::Null, Value::Null),
    }
}

fn members_value(alloc: Global, flowspan: Value, offsets: Value) -> Result<Value, AllocError>
    ensures { IfOk result (λ v. view v ≡ object (member (codes "flowspan") (view flowspan)
        (member (codes "offsets") (view offsets) no_members))) }
{
    let members = Ok(Map::new(alloc));
    let members = document::with_member(alloc, members, "flowspan", Ok(flowspan));
    document::object(document::with_member(alloc, members, "offsets", Ok(offsets)))
}

// The plan that the value is.
fn plan_from(alloc: Global, value: &Value) -> Result<Plan, Refused>
    requires { depth (view value.now) ≤ max_depth }
    ensures plan { Finds (λ plan. plan) result (plan_of (view value.now)) }
    ensures told { IfErr result (IsWhy (IsPlanMisfit (view value.now))) }
{
    if !value.is_object() {
        return Err(Refused::WrongShape(Misfit::NoObject));
    }
    let flowspan = document::member(value, Key::Flowspan)?;
    let offsets = document::member(value, Key::Offsets)?;
    if !document::is_object_of(value, 2) {
        return Err(document::unknown_key(value, KEYS));
    }
    plan_from_values(alloc, flowspan, offsets)
}

#[tactic(auto, using(crate::proofs::Elements::map_same))]
fn plan_from_values(alloc: Global, flowspan: &Value, offsets: &Value) -> Result<Plan, Refused>
    requires { depth (view offsets.now) ≤ max_depth }
    ensures plan { Finds (λ plan. plan) result (plan_of_values (view flowspan.now) (view offsets.now)) }
    ensures told { IfErr result (IsWhy (IsValuesMisfit (view flowspan.now) (view offsets.now))) }
{
    match (flowspan.is_null(), offsets.is_null()) {
        (true, true) => Ok(Plan::None),
        (false, false) => Ok(Plan::Schedule {
            flowspan: document::whole_number_at(flowspan, Key::Flowspan)?,
            offsets: offsets_from(alloc, offsets)?,
        }),
        _ => Err(Refused::WrongShape(Misfit::OneNull)),
    }
}

// The offsets that the value is.
#[tactic(auto, using(crate::proofs::Elements::map_same))]
fn offsets_from(alloc: Global, value: &Value) -> Result<Offsets, Refused>
    requires { depth (view value.now) ≤ max_depth }
    ensures offsets { Finds (λ offsets. offsets) result (numbers (view value.now)) }
    ensures told { IfErr result (IsWhy (IsOffsetsMisfit (view value.now))) }
{
    match list_in::<u64>(alloc, value) {
        Ok(offsets) => Ok(Offsets::of(offsets)),
        Err(Unlisted::NoArray) => Err(Refused::WrongShape(Misfit::NoArray(Key::Offsets))),
        Err(Unlisted::Behind(offsets)) => {
            Err(Refused::WrongShape(Misfit::NoOffset(offsets.len())))
        }
        Err(Unlisted::Memory) => Err(Refused::Memory),
    }
}

// The first number above its limit; none where each is within.
fn excess(plan: &Plan) -> Option<Excess>
    ensures { FindsExcess (plan_fits plan.now) (IsPlanExcess plan.now) result }
{
    match plan {
        Plan::Schedule { flowspan, offsets } => {
            if *flowspan > MAX_TIME {
                return Some(Excess::At(Key::Flowspan, *flowspan));
            }
            let offsets = offsets.list();
            match first_late(offsets) {
                Some(number) => Some(Excess::OfOffset(number, offsets[number])),
                None => None,
            }
        }
        Plan::None => None,
    }
}

// The number of the first offset above the limit.
fn first_late(offsets: &[u64]) -> Option<usize>
    ensures { result ≡ position (λ offset. not (nat_le offset max_time)) offsets.now }
{
    for (number, offset) in offsets.iter().enumerate() {
        if *offset > MAX_TIME {
            return Some(number);
        }
    }
    None
}
