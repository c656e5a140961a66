//! Questions: whether there is a schedule in which some literals hold, the premises.
use crate::search::Search;
use std::alloc::AllocError;
use tsn_bounds::literal::Literal;
use tsn_bounds::number::push;
use tsn_bounds::reason::Why;

// How many more learned clauses are kept each time that some are forgotten.
const MORE: usize = 300;

/// What a question came to.
#[derive(Clone, Copy, PartialEq, Eq)]
pub enum Answered {
    /// There is one, which is noted.
    Yes,
    /// There is none.
    No,
    /// Not known.
    Unknown,
}

impl Search {
    /// Whether there is a schedule in which the premises hold. So many conflicts are made at most. What is learned holds without the
    /// premises. The decisions for all premises but the last one stay.
    pub fn ask(&mut self, conflicts: u64) -> Result<Answered, AllocError> {
        self.pace.begin(conflicts);
        for _ in 0..u64::MAX {
            if let Some(answered) = self.step()? {
                let level = self.premises.len().saturating_sub(1);
                self.go_back(level)?;
                return Ok(answered);
            }
        }
        Ok(Answered::Unknown)
    }

    /// One more premise.
    pub fn add_premise(&mut self, literal: Literal) -> Result<(), AllocError> {
        push(&mut self.premises, literal)
    }

    /// Without premises.
    pub fn drop_premises(&mut self) -> Result<(), AllocError> {
        self.premises.clear();
        self.go_back(0)
    }

    /// Gives a literal, which need not follow. False where there is no schedule with it.
    pub fn give(&mut self, literal: Literal) -> Result<bool, AllocError> {
        self.assert_ground(literal, Why::Decided)
    }

    fn assert_ground(&mut self, literal: Literal, why: Why) -> Result<bool, AllocError> {
        self.go_back(0)?;
        if !self.known.is_open {
            return Ok(false);
        }
        if !self.known.raise(literal, why)? || !self.propagate()? {
            self.analysis.end(&mut self.known)?;
        }
        Ok(self.known.is_open)
    }

    // Works out what follows, and then learns, begins anew, or decides: the premises first.
    fn step(&mut self) -> Result<Option<Answered>, AllocError> {
        if !self.known.is_open {
            return Ok(Some(Answered::No));
        }
        if !self.propagate()? {
            return self.learn();
        }
        if self.pace.is_over() {
            return Ok(Some(Answered::Unknown));
        }
        if self.pace.is_run_over() {
            self.begin_run()?;
        }
        if let Some(&premise) = self.premises.get(self.known.trail.level()) {
            if self.known.trail.is_false(premise) {
                return Ok(Some(Answered::No));
            }
            self.known.decide(premise)?;
            return Ok(None);
        }
        if let Some(literal) = self.choice.choose(&self.known)? {
            self.known.decide(literal)?;
            return Ok(None);
        }
        self.found.clear();
        self.known.put_least(&mut self.found)?;
        Ok(Some(Answered::Yes))
    }

    // Learns from the clash.
    fn learn(&mut self) -> Result<Option<Answered>, AllocError> {
        self.pace.count_conflict();
        let level = self.known.clash_level();
        self.go_back(level)?;
        if level == 0 {
            self.analysis.end(&mut self.known)?;
            return Ok(Some(Answered::No));
        }
        let conflicts = self.pace.conflicts;
        let lesson = self
            .analysis
            .analyze(&mut self.known, &mut self.choice, conflicts)?;
        self.go_back(lesson.level)?;
        let learned = self.analysis.learned.as_slice();
        if learned.len() > 1 {
            self.known
                .add_lesson(learned, lesson.shown, lesson.levels, conflicts)?;
        } else if let Some(&first) = learned.first() {
            let _ = self.assert_ground(first, Why::Shown(lesson.shown))?;
        }
        Ok(None)
    }

    // Begins anew, and forgets clauses where there are many.
    fn begin_run(&mut self) -> Result<(), AllocError> {
        self.pace.begin_run();
        let level = self.premises.len();
        self.go_back(level)?;
        if self.known.clauses.learned > self.most_kept {
            self.most_kept = self.most_kept.wrapping_add(MORE);
            self.known.forget_clauses(self.alloc)?;
        }
        Ok(())
    }
}
