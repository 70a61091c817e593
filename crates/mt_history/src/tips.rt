//! The history whole, for whoever holds the lock.

ghost use Rattle.std.specs.Prelude.{◌≡◌, ◌+◌, [], ◌∷◌, ◌++◌, length};
ghost use mathlib.Core.List.{IsPrefix};
ghost use Rattle.mt_history.specs.{Legal.{IsLegal, MayFollow}, Rules.head_of};

use crate::marks::Mark;
use crate::rules::{Add, Follows, Law, Naming, Nothing};
use logbook::{Offer, Pens, Seen, Start, Word};
use std::marker::{Model, PhantomData};
use std::sync::Wait;
use std::sync::ledger::{Blank, Book as Total, Share};

/// A history that begins with a state, and has no name yet.
#[derive(Drop)]
pub struct Opened<S, F: Follows<S>> {
    word: Word<S, u64, Law<S, F>>,
    seen: Seen<S, u64, Law<S, F>>,
    pub ghost word_is: { word ≡ head_of seen.book },
}

impl<S, F: Follows<S>> Opened<S, F> {
    pub fn new(state: &S) -> Opened<S, F>
        ensures { result.seen.log ≡ state.now ∷ [] }
    {
        let (seen, mut pens) = Seen::open_row::<S, Add<S, F>>(state, Start::alone(), 1);
        let mut pen = pens.take();
        Opened {
            word: Word::tracked(0, &mut pen),
            seen,
        }
    }

    /// The tip of the history under its name, and all parts of its ledger.
    pub fn named<J: Naming>(self, blank: Blank) -> (Tip<S, F, J>, Share<J>)
        requires book { self.seen.book ≡ J.book }
        requires name { blank.name ≡ J.name }
        requires parts { blank.parts ≡ J.parts }
        requires one { length self.seen.log ≡ 1 }
        ensures tip { result.0 ≡ self.seen.log }
        ensures parts { result.1.parts ≡ J.parts }
        ensures amount { result.1.amount ≡ 0 }
    {
        let Opened { word, seen } = self;
        let (total, rest) = blank.open::<J>();
        (
            Tip {
                word,
                count: 0,
                seen,
                total,
                of: PhantomData,
            },
            rest,
        )
    }
}

/// The history whole, the word that counts its states, and their total. Contracts see it as its states.
#[derive(Drop)]
pub struct Tip<S, F: Follows<S>, J: Naming> {
    word: Word<S, u64, Law<S, F>>,
    count: u64,
    seen: Seen<S, u64, Law<S, F>>,
    total: Total<J>,
    of: PhantomData<J>,
}

impl<S, F: Follows<S>, J: Naming> Model for Tip<S, F, J> {
    ghost use Rattle.std.specs.Prelude.{◌≡◌, ◌+◌, List, length};
    ghost use Rattle.mt_history.specs.{Legal.IsLegal, Rules.head_of};

    ghost Value = { List S };

    ghost view = { λ t. t.seen.log };

    ghost invariant = { λ t. (t.word ≡ head_of J.book) × (t.seen.book ≡ J.book) × (length t.seen.log ≡ t.count + 1) × (t.total.total ≡ t.count) × IsLegal F.follows t.seen.log };
}

impl<S, F: Follows<S>, J: Naming> Tip<S, F, J> {
    /// What holds of every tip.
    pub fn facts(&self)
        ensures { IsLegal F.follows self.now }
    {
        let _ = self.seen.again();
    }

    /// A mark that has seen all of it, with a part of the ledger that counts what its holder adds.
    pub fn mark(&self, made: Share<J>) -> Mark<S, F, J>
        requires { made.parts ≡ 1 }
        ensures log { result.log ≡ self.now }
        ensures made { result.made ≡ made.amount }
    {
        Mark::new(self.seen.again(), made)
    }

    /// Adds a state that follows the last one. The mark has then seen all of it; what it had seen before is a
    /// beginning of what was there. A history that others had added to would be waited for for ever.
    #[inline(always)]
    pub fn add<R: Wait>(&mut self, rt: &R, mark: &mut Mark<S, F, J>, state: &S)
        requires { MayFollow F.follows self.old state.now }
        ensures adds { self.new ≡ self.old ++ state.now ∷ [] }
        ensures seen { mark.new.log ≡ self.new }
        ensures before { IsPrefix mark.old.log self.old }
        ensures made { mark.new.made ≡ mark.old.made + 1 }
    {
        let count = self.count;
        if count == u64::MAX {
            return never(rt);
        }
        let mut seen = self.seen.again();
        seen.learn(&mark.seen);
        let mut offer: Offer<S, u64, Law<S, F>, Nothing> = seen.plain::<Nothing, S, Add<S, F>>(
            state,
        );
        let mut pen = seen.no_pen();
        let found = self
            .word
            .compare_exchange::<Add<S, F>, Nothing>(
                count,
                count + 1,
                &mut seen,
                &mut offer,
                &mut pen,
            );
        if found != count {
            return never(rt);
        }
        self.count = count + 1;
        self.total.add(&mut mark.made, 1);
        mark.seen = seen.again();
        self.seen = seen;
    }

    /// All parts of the ledger count each state but the first.
    pub fn audit(&mut self, all: &mut Share<J>)
        requires { all.old.parts ≡ J.parts }
        ensures same { (self.new ≡ self.old) × (all.new.parts ≡ all.old.parts) × (all.new.amount ≡ all.old.amount) }
        ensures counted { length self.new ≡ all.new.amount + 1 }
    {
        self.total.audit(all);
    }
}

// Waits for ever.
fn never<T, R: Wait>(rt: &R) -> T
    ensures { ⊥ }
{
    for _ in rt.forever() {}
    unreachable!()
}
