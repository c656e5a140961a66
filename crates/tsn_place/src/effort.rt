//! How much is done for first schedules.

/// How much is done for a first schedule, by how many streams there are: a look takes longer where there are many.
#[derive(Clone, Copy)]
pub struct Effort {
    /// How often a lane is looked at for each stream.
    pub work: u64,
    // Of how many parts of the work one is for changes of the order.
    share: u64,
    /// How often streams may have no room at first, besides once for each stream.
    pub tries: u64,
}

impl Effort {
    /// The part of so much work that is for changes of the order.
    pub fn for_changes(self, work: u64) -> u64 {
        match work.checked_div(self.share) {
            Some(part) => part,
            None => work,
        }
    }
}

// How many streams are few.
const FEW_STREAMS: usize = 512;

const FEW: Effort = Effort {
    work: 40_000,
    share: 4,
    tries: 2000,
};

const MANY: Effort = Effort {
    work: 30_000,
    share: 16,
    tries: 600,
};

/// What is done for so many streams.
pub fn effort_for(streams: usize) -> Effort {
    if streams <= FEW_STREAMS { FEW } else { MANY }
}
