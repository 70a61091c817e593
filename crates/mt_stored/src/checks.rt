//! When a store's turns are due, and who has the slots of its checkpoints.

ghost use Rattle.std.specs.Prelude.{◌≡◌, ◌↔◌, IsTrue, Some};
ghost use Rattle.mt_stored.specs.Checks.{counted_on, doubled, restored, begun, IsReached};

use crate::turns::TurnStop;
use mt_disk::Disk;
use mt_slots::StoreSlots;

/// After how many of something a turn is due, settled answers or bytes, and how many there were since a turn was last
/// begun. With 0 none is due. After a turn that was stopped it takes twice as many as before, up to the largest number that
/// there is. After a whole turn it takes as many as at first.
#[derive(Drop)]
pub struct Interval {
    every: u64,
    limit: u64,
    since: u64,
}

impl Interval {
    fn new(every: u64) -> Interval
        ensures every { (result.every ≡ every) × (result.limit ≡ every) }
        ensures since { result.since ≡ 0 }
    {
        Interval {
            every,
            limit: every,
            since: 0,
        }
    }

    // Counts so many more.
    fn count(&mut self, more: u64)
        ensures { self.new ≡ counted_on more self.old }
    {
        self.since = self.since.saturating_add(more);
    }

    // Whether there were enough.
    fn is_reached(&self) -> bool
        ensures { IsTrue result ↔ IsReached self.now }
    {
        self.limit != 0 && self.limit <= self.since
    }

    // Begins to count anew.
    fn begin(&mut self)
        ensures { self.new ≡ begun self.old }
    {
        self.since = 0;
    }

    // After a turn that was stopped.
    fn double(&mut self)
        ensures { self.new ≡ doubled self.old }
    {
        self.limit = self.limit.saturating_mul(2);
    }

    // After a whole turn.
    fn restore(&mut self)
        ensures { self.new ≡ restored self.old }
    {
        self.limit = self.every;
    }
}

/// After how many settled answers and how many bytes of the logs a turn is due, how long the logs were when they were last
/// looked at, the greatest number that a settled answer told, and the slots. They stand here unless a turn is under way.
/// Its users share it behind a lock.
#[derive(Drop)]
pub struct Checks<D: Disk + Drop> {
    answers: Interval,
    bytes: Interval,
    seen: Option<u64>,
    settled: u64,
    slots: Option<StoreSlots<D>>,
}

/// A turn of all logs that is due: the slots for its checkpoint, and a number up to which all logs are settled.
#[derive(Drop)]
pub struct DueTurn<D: Disk + Drop> {
    pub settled: u64,
    pub slots: StoreSlots<D>,
}

impl<D: Disk + Drop> Checks<D> {
    ghost use Rattle.mt_stored.specs.Checks.{IsAtFirst, CountsSettled, SeesLength, IsDue, TakesDue, EndsTurn};

    /// For turns over these slots: one after each so many settled answers, and one each time that the logs have grown by so
    /// many bytes. Without slots, or with 0, none is due. The logs' whole length counts as grown when they are first looked
    /// at.
    pub fn new(every: u32, bytes: u64, slots: Option<StoreSlots<D>>) -> Self
        ensures first { IsAtFirst every bytes result }
        ensures slots { result.slots ≡ slots }
    {
        Checks {
            answers: Interval::new(u64::from(every)),
            bytes: Interval::new(bytes),
            seen: Some(0),
            settled: 0,
            slots,
        }
    }

    /// Counts a settled answer, which told a number: up to it all logs are settled. None is lost while a turn is due or
    /// under way.
    pub fn count_settled(&mut self, number: u64)
        ensures { CountsSettled number self.old self.new }
    {
        self.answers.count(1);
        self.settled = self.settled.max(number);
    }

    /// The logs are so long now. By as much as they have grown since they were last looked at, they count as grown. The
    /// first look after a turn was begun counts nothing.
    pub fn see_length(&mut self, length: u64)
        ensures { SeesLength length self.old self.new }
    {
        let grown = match self.seen {
            Some(seen) => length.saturating_sub(seen),
            None => 0,
        };
        self.bytes.count(grown);
        self.seen = Some(length);
    }

    /// Whether a turn is due, and nobody makes one.
    pub fn is_due(&self) -> bool
        ensures { IsTrue result ↔ IsDue self.now }
    {
        self.slots.is_some() && (self.answers.is_reached() || self.bytes.is_reached())
    }

    /// Hands out the turn that is due, if one is. Counting begins anew then, and no other turn is due before this one has
    /// ended.
    pub fn take_due(&mut self) -> Option<DueTurn<D>>
        ensures { TakesDue self.old result self.new }
    {
        if !self.is_due() {
            return None;
        }
        let slots = self.slots.take()?;
        self.answers.begin();
        self.bytes.begin();
        self.seen = None;
        Some(DueTurn {
            settled: self.settled,
            slots,
        })
    }

    /// A turn has ended, and the slots are here again. After a whole one the next one is due after as many settled answers
    /// and bytes as at first. After one that was stopped it is due after twice as many as this one was. It answers why it
    /// was stopped.
    pub fn end_turn(
        &mut self,
        told: Result<StoreSlots<D>, (TurnStop, StoreSlots<D>)>,
    ) -> Option<TurnStop>
        ensures { EndsTurn told self.old result self.new }
    {
        match told {
            Ok(slots) => {
                self.answers.restore();
                self.bytes.restore();
                self.slots = Some(slots);
                None
            }
            Err((stop, slots)) => {
                self.answers.double();
                self.bytes.double();
                self.slots = Some(slots);
                Some(stop)
            }
        }
    }

    /// The slots, if they are here.
    pub fn into_slots(self) -> Option<StoreSlots<D>>
        ensures { result ≡ self.slots }
    {
        self.slots
    }
}
