//! The shared word, by seats called in turn and by two threads. Each step stands in a function of its own, so that the proofs of the
//! tests are short.
ghost use Rattle.std.specs.Prelude.{◌≡◌, ◌∷◌, [], ℕ, ◌<◌, length, slice_index_or, All, IfOk, IfSome};
ghost use Rattle.tsn_timing.specs.Solution.{IsSolved};
ghost use Rattle.tsn_tests_search.specs.Numbers.{numbers_of};

use std::alloc::Global;
use std::process::Abort;
use std::test::*;
use std::thread;
use std::thread::Threads;
use tsn_incumbent::{Incumbent, Seat};
use tsn_networks::TWO;
use tsn_timing::{Solved, Timing};

/// A schedule, which has to be valid, with its flowspan.
fn solved(timing: &Timing, offsets: Vec<u64>) -> Result<Solved, Fail>
    ensures solved { IfOk result (IsSolved timing.now) }
{
    match timing.valid(offsets) {
        Ok(valid) => Ok(Solved::of(timing, valid)),
        Err(_) => Err(Fail::from("no valid schedule")),
    }
}

/// A word of two tellers, the seat of each, and two schedules, of which the second is later.
#[derive(Drop)]
struct Begun {
    incumbent: Incumbent,
    zero: Seat,
    one: Seat,
    best: Solved,
    later: Solved,
}

/// Where these tests begin.
fn begin(alloc: Global) -> Result<Begun, Fail>
    ensures tellers { IfOk result (λ s. s.incumbent.tellers ≡ 2) }
    ensures races { IfOk result (λ s. (s.zero.race ≡ s.incumbent) × (s.one.race ≡ s.incumbent)) }
    ensures numbers { IfOk result (λ s. (numbers_of s.zero.standings ≡ 0 ∷ []) × (numbers_of s.one.standings ≡ 1 ∷ [])) }
    ensures solved { IfOk result (λ s. IsSolved s.incumbent.network s.best × IsSolved s.incumbent.network s.later) }
{
    let timing = TWO.timing(alloc, 1_000_000).ok_or("no network")?;
    let made = begin_at(alloc, &timing);
    drop(timing);
    made
}

fn begin_at(alloc: Global, timing: &Timing) -> Result<Begun, Fail>
    ensures tellers { IfOk result (λ s. s.incumbent.tellers ≡ 2) }
    ensures races { IfOk result (λ s. (s.zero.race ≡ s.incumbent) × (s.one.race ≡ s.incumbent)) }
    ensures numbers { IfOk result (λ s. (numbers_of s.zero.standings ≡ 0 ∷ []) × (numbers_of s.one.standings ≡ 1 ∷ [])) }
    ensures solved { IfOk result (λ s. IsSolved s.incumbent.network s.best × IsSolved s.incumbent.network s.later) }
{
    let best = solved(timing, vec![in alloc; 0, 672]?)?;
    let later = solved(timing, vec![in alloc; 0, 1_344]?)?;
    let (incumbent, zero, one) = two_seats(alloc, timing)?;
    Ok(Begun {
        incumbent,
        zero,
        one,
        best,
        later,
    })
}

/// A word of two tellers, and the seat of each.
fn two_seats(alloc: Global, timing: &Timing) -> Result<(Incumbent, Seat, Seat), Fail>
    ensures incumbent { IfOk result (λ r. (r.0.network ≡ timing.now) × (r.0.tellers ≡ 2)) }
    ensures races { IfOk result (λ r. (r.1.race ≡ r.0) × (r.2.race ≡ r.0)) }
    ensures numbers { IfOk result (λ r. (numbers_of r.1.standings ≡ 0 ∷ []) × (numbers_of r.2.standings ≡ 1 ∷ [])) }
{
    let (incumbent, both) = Incumbent::new(alloc, timing, 2)?;
    let (zero, one) = incumbent.split(both, 1);
    Ok((incumbent, zero, one))
}

/// Observes, and compares the word.
fn sees(rt: &impl Abort, incumbent: &Incumbent, seat: &mut Seat, word: u64)
    requires { seat.old.race ≡ incumbent.now }
    ensures race { seat.new.race ≡ incumbent.now }
    ensures numbers { numbers_of seat.new.standings ≡ numbers_of seat.old.standings }
{
    let found = incumbent.observe(seat);
    assert_eq!(rt; found, word);
}

/// Posts, and compares the word before that.
fn posts(rt: &impl Abort, incumbent: &Incumbent, seat: &mut Seat, schedule: &Solved, word: u64)
    requires race { seat.old.race ≡ incumbent.now }
    requires solved { IsSolved incumbent.now.network schedule.now }
    ensures race { seat.new.race ≡ incumbent.now }
    ensures numbers { numbers_of seat.new.standings ≡ numbers_of seat.old.standings }
{
    let found = incumbent.post(seat, schedule);
    assert_eq!(rt; found, word);
}

/// How often a thread observes before and after it posts.
const ROUNDS: usize = 1000;

/// What one thread has: its seat, what it posts, and whether what it saw rose.
#[derive(Drop)]
struct Turn {
    seat: Seat,
    schedule: Solved,
    rose: bool,
}

/// Observes again and again. None where what it saw rose, else what it saw last.
fn watch(incumbent: &Incumbent, seat: &mut Seat) -> Option<u64>
    requires { seat.old.race ≡ incumbent.now }
    ensures race { seat.new.race ≡ incumbent.now }
    ensures numbers { numbers_of seat.new.standings ≡ numbers_of seat.old.standings }
{
    let mut seen = u64::MAX;
    for _round in 0..ROUNDS {
        let word = incumbent.observe(seat);
        if word > seen {
            return None;
        }
        seen = word;
    }
    Some(seen)
}

/// Observes, posts and observes again.
fn take_turn(incumbent: &Incumbent, turn: &mut Turn)
    requires race { turn.old.seat.race ≡ incumbent.now }
    requires solved { IsSolved incumbent.now.network turn.old.schedule }
    ensures race { turn.new.seat.race ≡ incumbent.now }
    ensures numbers { numbers_of turn.new.seat.standings ≡ numbers_of turn.old.seat.standings }
{
    let before = watch(incumbent, &mut turn.seat);
    incumbent.post(&mut turn.seat, &turn.schedule);
    let after = watch(incumbent, &mut turn.seat);
    turn.rose = match (before, after) {
        (Some(before), Some(after)) => before < after,
        _ => true,
    };
}

/// Each turn in a thread of its own.
fn run<R: Threads + Sync>(rt: &R, incumbent: &Incumbent, turns: &mut [Turn])
    requires some { 0 < length turns.old }
    requires ready { All (λ turn. (turn.seat.race ≡ incumbent.now) × IsSolved incumbent.now.network turn.schedule) turns.old }
    ensures race { All (λ turn. turn.seat.race ≡ incumbent.now) turns.new }
    ensures numbers { (k : ℕ) (d : _) → k < length turns.old → numbers_of (slice_index_or turns.new k d).seat.standings ≡ numbers_of (slice_index_or turns.old k d).seat.standings }
{
    let threads = turns.len();
    thread::for_each_mut(
        rt,
        turns,
        threads,
        &|_: usize, turn: &mut Turn|
            requires { (turn.old.seat.race ≡ incumbent.now) × IsSolved incumbent.now.network turn.old.schedule }
            ensures { (turn.new.seat.race ≡ incumbent.entry.now) × (numbers_of turn.new.seat.standings ≡ numbers_of turn.old.seat.standings) }
        { take_turn(incumbent, turn) },
    );
}

/// Both turns, each in a thread of its own.
fn take_both<R: Threads + Sync + AllocGlobal>(
    rt: &R,
    incumbent: &Incumbent,
    zero: Turn,
    one: Turn,
) -> Result<(Turn, Turn), Fail>
    requires races { (zero.seat.race ≡ incumbent.now) × (one.seat.race ≡ incumbent.now) }
    requires solved { IsSolved incumbent.now.network zero.schedule × IsSolved incumbent.now.network one.schedule }
    ensures races { IfOk result (λ r. (r.0.seat.race ≡ incumbent.now) × (r.1.seat.race ≡ incumbent.now)) }
    ensures numbers { IfOk result (λ r. (numbers_of r.0.seat.standings ≡ numbers_of zero.seat.standings) × (numbers_of r.1.seat.standings ≡ numbers_of one.seat.standings)) }
{
    let mut turns = [zero, one];
    run(rt, incumbent, &mut turns);
    match two_of(Vec::from_array(rt.alloc(), turns)?) {
        Some(both) => Ok(both),
        None => Err(Fail::from("turns are lost")),
    }
}

/// The seat after a turn, and whether what it saw rose.
fn end(turn: Turn) -> (Seat, bool)
    ensures { result.0 ≡ turn.seat }
{
    let Turn {
        seat,
        schedule: _,
        rose,
    } = turn;
    (seat, rose)
}

/// The two turns of a list.
fn two_of(turns: Vec<Turn>) -> Option<(Turn, Turn)>
    requires { length turns.items ≡ 2 }
    ensures { IfSome result (λ two. turns.items ≡ two.0 ∷ two.1 ∷ []) }
{
    let mut turns = turns;
    let Some(one) = turns.pop() else {
        return None;
    };
    let Some(zero) = turns.pop() else {
        return None;
    };
    Some((zero, one))
}

/// The word in the end.
fn close_both(incumbent: Incumbent, zero: Seat, one: Seat) -> u64
    requires tellers { incumbent.tellers ≡ 2 }
    requires races { (zero.race ≡ incumbent) × (one.race ≡ incumbent) }
    requires numbers { (numbers_of zero.standings ≡ 0 ∷ []) × (numbers_of one.standings ≡ 1 ∷ []) }
{
    let all = incumbent.join(zero, one);
    incumbent.close(all)
}

/// A load whose value is thrown away would keep what was seen at first.
#[test]
fn two_seats_post_in_turn(rt: HostRuntime) -> Result<(), Fail> {
    let Begun {
        incumbent,
        mut zero,
        mut one,
        best,
        later,
    } = begin(rt.alloc())?;
    sees(&rt, &incumbent, &mut one, 1_000_001);
    posts(&rt, &incumbent, &mut zero, &later, 1_000_001);
    sees(&rt, &incumbent, &mut one, 3_596);
    posts(&rt, &incumbent, &mut one, &best, 3_596);
    sees(&rt, &incumbent, &mut zero, 2_924);
    posts(&rt, &incumbent, &mut zero, &later, 2_924);
    sees(&rt, &incumbent, &mut one, 2_924);
    assert_eq!(rt; close_both(incumbent, zero, one), 2_924);
    Ok(())
}

#[test]
fn two_threads_post(rt: HostRuntime) -> Result<(), Fail> {
    let Begun {
        incumbent,
        zero,
        one,
        best,
        later,
    } = begin(rt.alloc())?;
    let zero = Turn {
        seat: zero,
        schedule: later,
        rose: false,
    };
    let one = Turn {
        seat: one,
        schedule: best,
        rose: false,
    };
    let (zero, one) = take_both(&rt, &incumbent, zero, one)?;
    let (zero, first) = end(zero);
    let (one, second) = end(one);
    assert!(rt; !first && !second);
    assert_eq!(rt; close_both(incumbent, zero, one), 2_924);
    Ok(())
}
