//! Whether the frames on each link follow one another, by those that stand side by side there.
ghost use Rattle.std.specs.Prelude.{◌≡◌, ◌+◌, ◌≤◌, ◌<◌, ◌↔◌, ◌^◌, ◌++◌, [], map, length, All, AllPairs, IfOk, OnOk, IsTrue};

use crate::timing::Timing;
use std::alloc::AllocError;

/// A frame's slot on a link: while it keeps others from it.
#[derive(Clone, Copy)]
pub struct Slot {
    pub stream: usize,
    pub begin: u64,
    pub end: u64,
}

impl Timing {
    ghost use Rattle.tsn_model.specs.Network.{stream_count, hop_count};
    ghost use Rattle.tsn_model.specs.Schedule.{AreApart};
    ghost use Rattle.tsn_timing.specs.Neighbours.{AreApartAt, AreSlots, slot_at};

    /// Whether each slot of a link ends before the next one begins. Then no frames overlap; but the answer may be no for another
    /// reason, as that there is no memory.
    pub(crate) fn frames_follow(&self, offsets: &[u64]) -> bool
        requires count { length offsets.now ≡ stream_count self.now }
        requires small { All (λ offset. offset ≤ self.now.cycle) offsets.now }
        ensures { IsTrue result → AreApart self.now offsets.now }
    {
        // The network is within its limits.
        let _limits = self.cycle();
        let mut slots = Vec::new(self.allocator());
        for link in 0..self.links() {
            if !self.frames_follow_on(link, offsets, &mut slots) {
                return false;
            }
        }
        true
    }

    // The same of one link, in the memory of a list of slots.
    fn frames_follow_on(&self, link: usize, offsets: &[u64], slots: &mut Vec<Slot>) -> bool
        requires link { link < length self.now.links }
        requires count { length offsets.now ≡ stream_count self.now }
        requires small { All (λ offset. offset ≤ self.now.cycle) offsets.now }
        ensures { IsTrue result → AreApartAt self.now offsets.now link }
    {
        slots.clear();
        let Ok(()) = self.push_slots(link, offsets, slots) else {
            return false;
        };
        slots.sort_unstable_by_key(|slot| slot.begin);
        each_before_next(slots)
    }

    // Lists the slots of all frames on a link.
    fn push_slots(
        &self,
        link: usize,
        offsets: &[u64],
        slots: &mut Vec<Slot>,
    ) -> Result<(), AllocError>
        requires link { link < length self.now.links }
        requires count { length offsets.now ≡ stream_count self.now }
        requires small { All (λ offset. offset ≤ self.now.cycle) offsets.now }
        requires empty { slots.old.items ≡ [] }
        ensures { IfOk result (λ _. AreSlots self.now offsets.now link slots.new.items) }
    {
        // The network is within its limits.
        let _limits = self.cycle();
        for &user in self.users(link) {
            let first = self.first_slot(user.stream, user.hop, offsets[user.stream]);
            push_later(slots, first, self.shifts(user.stream))?;
        }
        Ok(())
    }

    // The slot of a hop by a frame that the stream starts at its offset.
    fn first_slot(&self, stream: usize, hop: usize, offset: u64) -> Slot
        requires stream { stream < stream_count self.now }
        requires hop { hop < hop_count self.now stream }
        requires small { offset ≤ self.now.cycle }
        ensures value { result ≡ slot_at self.now offset stream hop 0 }
        ensures order { result.begin ≤ result.end }
        ensures bound { result.end ≤ 2_000_000_000 }
    {
        // The limits of the network bound the sums.
        let _limits = self.cycle();
        let begin = offset + self.start(stream, hop);
        Slot {
            stream,
            begin,
            end: begin + self.separation(stream, hop),
        }
    }
}

ghost use Rattle.tsn_timing.specs.Neighbours.{IsBefore, later};

// Adds a slot for each shift, so much later than the first.
fn push_later(slots: &mut Vec<Slot>, first: Slot, shifts: &[u64]) -> Result<(), AllocError>
    requires order { first.begin ≤ first.end }
    requires fits { All (λ shift. first.end + shift < 2 ^ 64) shifts.now }
    ensures { OnOk result (slots.new.items ≡ slots.old.items ++ map (later first) shifts.now) }
{
    for shift in shifts {
        slots.push(Slot {
            stream: first.stream,
            begin: first.begin + *shift,
            end: first.end + *shift,
        })?;
    }
    Ok(())
}

// Whether each slot is before the next one. Then it is before all that follow.
fn each_before_next(slots: &[Slot]) -> bool
    requires { All (λ slot. slot.begin ≤ slot.end) slots.now }
    ensures { IsTrue result → AllPairs IsBefore slots.now }
{
    for index in 1..slots.len() {
        if slots[index - 1].end > slots[index].begin {
            return false;
        }
    }
    true
}
