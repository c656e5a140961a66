//! `gates`, `replay`, `chart` and `streams`: print the gate control lists of a plan, a replay by them, a picture, and what each
//! stream and each link gets.
ghost use Rattle.std.specs.Prelude.{◌≡◌, ◌≤◌, ◌<◌, ◌-◌, ◌^◌, ◌⊎◌, [], ◌∷◌, All, IfOk, IfErr, IsErr, Ok, length, string_bytes};
ghost use Rattle.tsn_model.specs.Schedule.{IsValid};
ghost use Rattle.tsn_check.specs.Numbers.{plan_code};
ghost use Rattle.tsn_outcome.specs.Run.{source_over};
ghost use Rattle.tsn_outcome.specs.Outcome.{ComesOver, IsOutcome};
ghost use Rattle.tsn_outcome.specs.declared.outcome.Outcome.TheVariants.{RefusedPlan};
ghost use Rattle.tsn_cli.specs.Shown.{shown_output};
ghost use Rattle.tsn_replay.specs.declared.trace.Row.{Row};
ghost use Rattle.tsn_chart.specs.declared.link.LinkShare.{LinkShare};
ghost use Rattle.tsn_chart.specs.declared.stream.StreamShare.{StreamShare};
ghost use Rattle.std.specs.Option.{ForSome};
ghost use Rattle.tsn_replay.specs.Faults.{HasReplayFault};
ghost use Rattle.tsn_replay.specs.Feeding.{background_for};
ghost use Rattle.tsn_cli.specs.Tables.{AreRowsBy, CanShow, RejectsPlan, ShowsLists, ShowsPicture, ShowsPlan, ShowsReplay, ShowsShares, ShowsTable, TableAnswers, rows_text, shares_text};

use crate::inputs::{BothRead, read_both};
use crate::options::{GatesOptions, ReplayOptions, Table};
use crate::shown::Shown;
use crate::untaken::{unborne, untaken};
use std::alloc::Global;
use tsn_cert::Plan;
use tsn_chart::{Drawing, Shares, marked_chart, plan_shares, to_csv, to_json, to_text};
use tsn_check::{PlanFault, judge_plan};
use tsn_device::device::{ReadFault, Source};
use tsn_gate::{GateList, gate_lists, lists_by, text_in};
use tsn_model::{Frame, NoMemory};
use tsn_outcome::rejection;
use tsn_reason::{Claim, line_on_plan};
use tsn_replay::{Background, ReplayFault, ReplayTable, replay_early, replay_rows};
use tsn_timing::{Problem, Valid};
use tsn_words::{ReplayFormat, StreamsFormat};

/// What is shown of a plan, before it is written: by a table that is asked for, or on what is refused.
pub fn table_shown<N: Source, P: Source>(
    alloc: Global,
    network: &mut N,
    plan: &mut P,
    table: Table,
) -> Result<Shown, ReadFault>
    requires table { CanShow table }
    requires network_reads { N.failed network.old < 2 ^ 64 - 1 }
    requires plan_reads { P.failed plan.old < 2 ^ 64 - 1 }
    ensures { ComesOver shown_output (TableAnswers table)
        (source_over N.given N.failed N.is_at_end network.old network.new
        ∷ source_over P.given P.failed P.is_at_end plan.old plan.new ∷ []) result }
{
    match read_both(alloc, network, plan) {
        Ok(BothRead::Taken(problem, stated)) => {
            Ok(answer_to(alloc, problem, stated, plan.name(), table)?)
        }
        Ok(BothRead::Refused(answer)) => Ok(Shown::Said(answer)),
        Err(fault) => Err(fault),
    }
}

// What the run answers to a network and a plan of the file of this name.
fn answer_to(
    alloc: Global,
    problem: Problem,
    plan: Plan,
    name: &str,
    table: Table,
) -> Result<Shown, NoMemory>
    requires { CanShow table }
    ensures { IfOk result (λ a. ShowsPlan table problem plan (shown_output (Ok a))
        ⊎ RejectsPlan problem.network plan (shown_output (Ok a))) }
{
    let claim = Claim {
        problem: &problem,
        name,
        plan: &plan,
    };
    let answer = plan_shown(alloc, claim, table, &[]);
    drop(problem);
    drop(plan);
    answer
}

/// What is said of a plan; in a picture of it some frames may be marked, each on a link.
pub fn plan_shown(
    alloc: Global,
    claim: Claim<'_>,
    table: Table,
    marked: &[(Frame, usize)],
) -> Result<Shown, NoMemory>
    requires { CanShow table }
    ensures { IfOk result (λ a. ShowsPlan table claim.entry.problem.now claim.entry.plan.now (shown_output (Ok a))
        ⊎ RejectsPlan claim.entry.problem.now.network claim.entry.plan.now (shown_output (Ok a))) }
{
    match judge_plan(alloc, claim.problem.timing(), claim.plan) {
        Ok(valid) => {
            let answer = table_of(alloc, claim.problem, &valid, table, marked);
            drop(valid);
            answer
        }
        Err(fault) => rejected(alloc, claim, fault),
    }
}

fn rejected(alloc: Global, claim: Claim<'_>, fault: PlanFault) -> Result<Shown, NoMemory>
    ensures said { IfOk result (λ a. IsOutcome (RefusedPlan (plan_code fault)) (shown_output (Ok a))) }
    ensures memory { fault ≡ PlanFault.Memory → IsErr result }
{
    let reason = line_on_plan(alloc, claim, fault).unwrap_or(None);
    Ok(Shown::Said(rejection(alloc, fault.code(), reason)?))
}

fn table_of(
    alloc: Global,
    problem: &Problem,
    valid: &Valid,
    table: Table,
    marked: &[(Frame, usize)],
) -> Result<Shown, NoMemory>
    requires table { CanShow table }
    requires valid { IsValid problem.now.network valid.now }
    ensures { IfOk result (λ a. ShowsTable table problem.now valid.now (shown_output (Ok a))) }
{
    match table {
        Table::Gates(options) => lists(alloc, problem, valid, options),
        Table::Replay(options) => replay_table(alloc, problem, valid, options),
        Table::Chart(drawing) => picture(alloc, problem, valid, drawing, marked),
        Table::Streams(format) => shares_table(alloc, problem, valid, format),
    }
}

// The table of a replay by a schedule's gate lists.
fn replay_table(
    alloc: Global,
    problem: &Problem,
    valid: &Valid,
    options: ReplayOptions,
) -> Result<Shown, NoMemory>
    requires some { 1 ≤ options.cycles }
    requires few { options.cycles ≤ 16 }
    requires soon { ForSome options.early (λ time. time ≤ 1000000) }
    requires valid { IsValid problem.now.network valid.now }
    ensures { IfOk result (λ a. ShowsReplay options problem.now valid.now (shown_output (Ok a))) }
{
    let lists = lists_by(alloc, problem, valid, options.merge)?;
    // The network is within its limits.
    let _limits = problem.cycle();
    let table = match replayed_by(alloc, problem, valid, &lists, options) {
        Ok(table) => table,
        Err(fault) => return Err(want_of_memory(fault)),
    };
    let text = rows_text(alloc, problem, &table, options.format)?;
    let remarks = unborne(alloc, problem, options.merge)?;
    Ok(Shown::Text(text, Some(remarks)))
}

// A replay by these lists, with frames that are ready early where that is asked for.
fn replayed_by(
    alloc: Global,
    problem: &Problem,
    valid: &Valid,
    lists: &[GateList],
    options: ReplayOptions,
) -> Result<ReplayTable, ReplayFault>
    requires some { 1 ≤ options.cycles }
    requires few { options.cycles ≤ 16 }
    requires soon { ForSome options.early (λ time. time ≤ 1000000) }
    requires valid { IsValid problem.now.network valid.now }
    ensures rows { IfOk result (λ table. AreRowsBy options problem.now valid.now lists.now table) }
    ensures named { IfOk result (λ table. All (λ (row : Row). row.stream < length problem.now.stream_names) table) }
    ensures fault { IfErr result (HasReplayFault problem.now.network lists.now options.cycles (background_for options.greedy)) }
{
    let background = Background::of(options.greedy);
    match options.early {
        None => replay_rows(alloc, problem, valid, lists, options.cycles, &background),
        Some(slack) => replay_early(
            alloc,
            problem,
            valid,
            lists,
            options.cycles,
            &background,
            slack,
        ),
    }
}

fn rows_text(
    alloc: Global,
    problem: &Problem,
    table: &ReplayTable,
    format: ReplayFormat,
) -> Result<String, NoMemory>
    requires { All (λ (row : Row). row.stream < length problem.now.stream_names) table.now }
    ensures { IfOk result (λ text. string_bytes text ≡ rows_text format problem.now table.now) }
{
    match format {
        ReplayFormat::Table => table.to_text(alloc, problem),
        ReplayFormat::Csv => table.to_csv(alloc, problem),
    }
}

// A schedule's lists are replayed unless memory is wanting.
fn want_of_memory(_fault: ReplayFault) -> NoMemory
    requires { _fault ≡ ReplayFault.Memory }
{
    NoMemory
}

// A schedule's gate lists.
fn lists(
    alloc: Global,
    problem: &Problem,
    valid: &Valid,
    options: GatesOptions,
) -> Result<Shown, NoMemory>
    requires { IsValid problem.now.network valid.now }
    ensures { IfOk result (λ a. ShowsLists options problem.now valid.now (shown_output (Ok a))) }
{
    let lists = lists_by(alloc, problem, valid, options.merge)?;
    let text = text_in(alloc, problem, &lists, options.format, options.limits)?;
    let remarks = untaken(alloc, problem, &lists, options)?;
    Ok(Shown::Text(text, Some(remarks)))
}

// The picture of a valid schedule, in which some frames may be marked.
fn picture(
    alloc: Global,
    problem: &Problem,
    valid: &Valid,
    drawing: Drawing,
    marked: &[(Frame, usize)],
) -> Result<Shown, NoMemory>
    requires valid { IsValid problem.now.network valid.now }
    ensures { IfOk result (λ a. ShowsPicture (shown_output (Ok a))) }
{
    let lists = gate_lists(alloc, problem, valid)?;
    let text = marked_chart(alloc, problem, valid, &lists, drawing, marked)?;
    Ok(Shown::Text(text, None))
}

// What each stream and each link gets by a valid schedule.
fn shares_table(
    alloc: Global,
    problem: &Problem,
    valid: &Valid,
    format: StreamsFormat,
) -> Result<Shown, NoMemory>
    requires valid { IsValid problem.now.network valid.now }
    ensures { IfOk result (λ a. ShowsShares format problem.now valid.now (shown_output (Ok a))) }
{
    let shares = plan_shares(alloc, problem, valid)?;
    let text = shares_text(alloc, problem, &shares, format);
    drop(shares);
    let text = text?;
    Ok(Shown::Text(text, None))
}

fn shares_text(
    alloc: Global,
    problem: &Problem,
    shares: &Shares,
    format: StreamsFormat,
) -> Result<String, NoMemory>
    requires named { All (λ (share : StreamShare). share.stream < length problem.now.stream_names) shares.now.streams.items }
    requires exist { All (λ (share : LinkShare). share.link < length problem.now.network.links) shares.now.links.items }
    ensures { IfOk result (λ text. string_bytes text ≡ shares_text format problem.now shares.now.streams.items shares.now.links.items shares.now.slack) }
{
    let streams = &shares.streams;
    let links = &shares.links;
    let slack = shares.slack;
    match format {
        StreamsFormat::Table => to_text(alloc, problem, streams, links, slack),
        StreamsFormat::Json => to_json(alloc, problem, streams, links, slack),
        StreamsFormat::Csv => to_csv(alloc, problem, streams, links, slack),
    }
}
