//! The shared search without threads: its tellers take atomic steps on one state.
ghost use Rattle.std.specs.Prelude.{◌≡◌, ◌≢◌, ◌<◌, ◌≤◌, ◌↔◌, [], ◌∷◌, ◌++◌, length, min, replicate, IsTrue, All, Contains, IfOk, IfErr, OnErr, MatchResult};
ghost use Rattle.tsn_model.specs.Search.{solved_bounds, settled_by, kept_of, tally_of};
ghost use Rattle.tsn_model.specs.Schedule.{target_of};
ghost use Rattle.tsn_model.specs.Core.{initial_state, observe, post, settle, teller_at, IsAboveSeen, IsSound, IsQuiet};
ghost use Rattle.tsn_conflict.specs.Outcome.{outcome_of};
ghost use Rattle.tsn_conflict.specs.Right.{HasProof};
ghost use Rattle.tsn_book.specs.Event.{event_of};
ghost use Rattle.tsn_core.specs.Shared.{step_of, IsProved, IsReply, AreReplies, IsWanting, IsCutShort, IsTreeForKept, HasPostedAll};

use std::alloc::{AllocError, Global};
use std::marker::Model;
use tsn_book::{Book, BookFault, Event, EventRefusal};
use tsn_conflict::NoMemory;
use tsn_conflict::outcome::Look;
use tsn_timing::Timing;

/// One atomic step of the teller of that number.
#[derive(Drop)]
pub enum Step {
    /// It looks at the word.
    Observe(usize),
    /// It lowers the word to a flowspan that it has solved, in nanoseconds.
    Post(usize, u64),
    /// It settles an event.
    Settle(usize, Event),
}

/// The answer to a step.
#[derive(Clone, Copy, Debug, PartialEq, Eq)]
pub enum Reply {
    /// The word before the step, in nanoseconds: to an observing and a posting.
    Found(u64),
    /// The event is settled.
    Settled,
    /// The event isn't settled, for that reason. It's never want of memory.
    Refused(BookFault),
    /// The step isn't the teller's to take: there is no such teller; it hasn't solved the flowspan that it posts; or it
    /// prunes by a bound that isn't worse than what it has seen.
    NotAllowed,
}

// The least word that a teller has seen, and the least flowspan that it has posted, in nanoseconds.
#[derive(Clone, Copy)]
struct Account {
    seen: u64,
    posted: u64,
}

impl Model for Account {
    ghost use Rattle.tsn_model.specs.Core.{Teller};

    ghost Value = { Teller };

    ghost view = { λ known. record { seen = known.seen; posted = known.posted } };

    ghost inverse = { λ teller. record { seen = teller.seen; posted = teller.posted } };
}

impl Account {
    fn seen(self) -> u64
        ensures { result ≡ self.seen }
    {
        self.seen
    }

    fn posted(self) -> u64
        ensures { result ≡ self.posted }
    {
        self.posted
    }

    fn observes(self, word: u64) -> Account
        ensures { result ≡ record { seen = min self.seen word; posted = self.posted } }
    {
        Account {
            seen: self.seen.min(word),
            posted: self.posted,
        }
    }

    fn posts(self, flowspan: u64) -> Account
        ensures { result ≡ record { seen = min self.seen flowspan; posted = min self.posted flowspan } }
    {
        Account {
            seen: self.seen.min(flowspan),
            posted: self.posted.min(flowspan),
        }
    }
}

/// The shared search: a word, what each teller has seen and posted, and the book of what they settled. The word is the least
/// flowspan posted, in nanoseconds, or one more than the cycle where none is.
#[derive(Drop)]
pub struct Core {
    book: Book,
    word: u64,
    tellers: Vec<Account>,
}

impl Model for Core {
    ghost use Rattle.tsn_core.specs.Shared.{Shared, IsShared};

    ghost Value = { Shared };

    ghost view = { λ c. record {
      network = c.book.network;
      limit = c.book.limit;
      state = record { word = c.word; tellers = c.tellers.items; history = c.book.history };
    } };

    ghost invariant = { λ c. IsShared c.book c.word c.tellers.items };
}

impl Core {
    /// A search of the problem by tellers with numbers from 0, that settles at most as many events as its limit says. Nothing
    /// is seen, posted or settled. The error says that there was no memory.
    pub fn new(
        alloc: Global,
        timing: &Timing,
        tellers: usize,
        limit: usize,
    ) -> Result<Core, NoMemory>
        ensures start { IfOk result (λ shared. shared ≡ record { network = timing.now; limit = limit; state = initial_state timing.now tellers }) }
        ensures sound { IfOk result (λ shared. IsSound shared.network shared.state) }
    {
        let past_cycle = timing.cycle() + 1;
        let known = unknowing(alloc, tellers, past_cycle)?;
        let book = Book::new(alloc, timing, tellers, limit)?;
        Ok(Core {
            book,
            word: past_cycle,
            tellers: known,
        })
    }

    /// Takes a step, or changes nothing where it isn't allowed. What isn't taken is given up with its event. The error says
    /// that there was no memory for an event that may be settled.
    ///
    /// A leaf has to be right as for a settling in the book.
    pub fn apply(&mut self, step: Step) -> Result<Reply, NoMemory>
        requires proof { IsProved self.old.network step }
        ensures reply { IfOk result (λ reply. IsReply self.old.network self.old.limit self.old.state (step_of step) reply self.new.state) }
        ensures sound { IsSound self.new.network self.new.state }
        ensures network { self.new.network ≡ self.old.network }
        ensures limit { self.new.limit ≡ self.old.limit }
        ensures refused { OnErr result (self.new ≡ self.old) }
        ensures wanting { OnErr result (IsWanting self.old.network self.old.limit self.old.state (step_of step)) }
    {
        match step {
            Step::Observe(teller) => Ok(self.observe(teller)),
            Step::Post(teller, flowspan) => Ok(self.post(teller, flowspan)),
            Step::Settle(teller, event) => self.settle(teller, event),
        }
    }

    /// Takes the steps one after another, and tells the reply to each. The error says that there was no memory for one of
    /// them: those before it were taken.
    ///
    /// Each leaf has to be right as for a settling in the book.
    pub fn run(&mut self, alloc: Global, steps: Vec<Step>) -> Result<Vec<Reply>, NoMemory>
        requires proof { All (IsProved self.old.network) steps.items }
        ensures replies { IfOk result (λ replies. AreReplies self.old.network self.old.limit self.old.state steps.items replies.items self.new.state) }
        ensures sound { IsSound self.new.network self.new.state }
        ensures network { self.new.network ≡ self.old.network }
        ensures limit { self.new.limit ≡ self.old.limit }
        ensures cut_short { OnErr result (IsCutShort self.old.network self.old.limit self.old.state steps.items self.new.state) }
    {
        let mut replies = Vec::new(alloc);
        // With no step at all nothing else would tell that the state is sound.
        let _ = &self.word;
        for step in steps {
            self.apply_next(&mut replies, step)?;
        }
        Ok(replies)
    }

    /// Whether nothing is open, and each teller has posted as little as each flowspan that it solved. The word is then the
    /// flowspan of what is kept, or one more than the cycle, and what was settled is a tree that is accepted for what is kept.
    pub fn quiet(&self) -> bool
        ensures quiet { IsTrue result ↔ IsQuiet self.now.state }
        ensures word { IsTrue result → self.now.state.word ≡ target_of self.now.network (kept_of self.now.network self.now.state.history) }
        ensures tree { IsTrue result → IsTreeForKept self.now.network self.now.state.history }
        ensures sound { IsSound self.now.network self.now.state }
    {
        self.book.open_count() == 0 && has_posted_all(&self.book, &self.tellers)
    }

    // Takes one more step, and adds its reply. Each step that was taken has its reply, so there is room for that first.
    fn apply_next(&mut self, replies: &mut Vec<Reply>, step: Step) -> Result<Reply, NoMemory>
        requires proof { IsProved self.old.network step }
        ensures reply { IfOk result (λ reply. IsReply self.old.network self.old.limit self.old.state (step_of step) reply self.new.state) }
        ensures added { IfOk result (λ reply. replies.new.items ≡ replies.old.items ++ reply ∷ []) }
        ensures sound { IsSound self.new.network self.new.state }
        ensures network { self.new.network ≡ self.old.network }
        ensures limit { self.new.limit ≡ self.old.limit }
        ensures refused { OnErr result (self.new ≡ self.old) }
    {
        // Where that growth is refused nothing else would tell that the state is sound.
        let _ = &self.word;
        if replies.try_reserve(1).is_err() {
            drop(step);
            return Err(NoMemory);
        }
        let reply = self.apply(step)?;
        replies.push_reserved(reply);
        Ok(reply)
    }

    // A teller looks at the word.
    fn observe(&mut self, teller: usize) -> Reply
        ensures reply { IsReply self.old.network self.old.limit self.old.state (observe teller) result self.new.state }
        ensures sound { IsSound self.new.network self.new.state }
        ensures network { self.new.network ≡ self.old.network }
        ensures limit { self.new.limit ≡ self.old.limit }
    {
        let word = self.word;
        if teller >= self.tellers.len() {
            return Reply::NotAllowed;
        }
        self.tellers[teller] = self.tellers[teller].observes(word);
        Reply::Found(word)
    }

    // A teller lowers the word to a flowspan that it has solved.
    fn post(&mut self, teller: usize, flowspan: u64) -> Reply
        ensures reply { IsReply self.old.network self.old.limit self.old.state (post teller flowspan) result self.new.state }
        ensures sound { IsSound self.new.network self.new.state }
        ensures network { self.new.network ≡ self.old.network }
        ensures limit { self.new.limit ≡ self.old.limit }
    {
        let word = self.word;
        if !self.may_post(teller, flowspan) {
            return Reply::NotAllowed;
        }
        self.word = word.min(flowspan);
        self.tellers[teller] = self.tellers[teller].posts(flowspan);
        Reply::Found(word)
    }

    // Whether there is such a teller, and it has solved the flowspan.
    fn may_post(&self, teller: usize, flowspan: u64) -> bool
        ensures { IsTrue result
            ↔ ((teller < length self.now.state.tellers) × Contains (solved_bounds (settled_by teller self.now.state.history)) flowspan) }
    {
        teller < self.tellers.len() && self.book.has_solved(teller, flowspan)
    }

    // Whether there is such a teller, and it prunes by no bound but one that is worse than what it has seen.
    fn may_settle(&self, teller: usize, look: &Look) -> bool
        ensures { IsTrue result
            ↔ ((teller < length self.now.state.tellers) × IsAboveSeen self.now.network (teller_at self.now.state teller).seen (outcome_of look.now)) }
    {
        teller < self.tellers.len()
            && is_above_seen(self.book.timing(), self.tellers[teller].seen(), look)
    }

    fn settle(&mut self, teller: usize, event: Event) -> Result<Reply, NoMemory>
        requires proof { HasProof self.old.network event.node (outcome_of event.look) }
        ensures reply { IfOk result (λ reply. IsReply self.old.network self.old.limit self.old.state (settle teller (event_of event)) reply self.new.state) }
        ensures sound { IsSound self.new.network self.new.state }
        ensures network { self.new.network ≡ self.old.network }
        ensures limit { self.new.limit ≡ self.old.limit }
        ensures refused { OnErr result (self.new ≡ self.old) }
        ensures wanting { OnErr result (IsWanting self.old.network self.old.limit self.old.state (settle teller (event_of event))) }
    {
        if !self.may_settle(teller, &event.look) {
            drop(event);
            return Ok(Reply::NotAllowed);
        }
        match self.book.settle(teller, event) {
            Ok(()) => Ok(Reply::Settled),
            Err(refusal) => {
                let EventRefusal { fault, event } = refusal;
                drop(event);
                refused(fault)
            }
        }
    }
}

fn unknowing(alloc: Global, tellers: usize, past_cycle: u64) -> Result<Vec<Account>, AllocError>
    ensures { IfOk result (λ known. known.items ≡ replicate tellers (record { seen = past_cycle; posted = past_cycle })) }
{
    let mut known = Vec::with_capacity(alloc, tellers)?;
    for _ in 0..tellers {
        known.push(Account {
            seen: past_cycle,
            posted: past_cycle,
        })?;
    }
    Ok(known)
}

// Whether a pruned leaf's bound is worse than what its teller has seen, as each one above the cycle is.
#[tactic(auto, unfolding(tsn_model::specs::Certificate::beyond))]
fn is_above_seen(timing: &Timing, seen: u64, look: &Look) -> bool
    ensures { IsTrue result ↔ IsAboveSeen timing.now seen (outcome_of look.now) }
{
    match look {
        Look::Pruned { bound, .. } => *bound > seen.min(timing.cycle()),
        Look::Split(_) => true,
        Look::Solved { .. } => true,
        Look::Tied { .. } => true,
        Look::Refuted(_) => true,
    }
}

// The answer to a settling that the book refused.
fn refused(fault: BookFault) -> Result<Reply, NoMemory>
    ensures { MatchResult result (λ reply. (reply ≡ Reply.Refused fault) × (fault ≢ BookFault.Memory)) (λ _. fault ≡ BookFault.Memory) }
{
    match fault {
        BookFault::Memory => Err(NoMemory),
        other => Ok(Reply::Refused(other)),
    }
}

// Whether each teller has posted as little as each flowspan that it solved.
fn has_posted_all(book: &Book, tellers: &[Account]) -> bool
    requires { length tellers.now ≤ book.now.tellers }
    ensures { IsTrue result ↔ HasPostedAll book.now.network book.now.history tellers.now }
{
    for (teller, known) in tellers.iter().enumerate() {
        let solved = book.tally(teller).solved;
        if known.posted() > solved {
            return false;
        }
    }
    true
}
