//! A counter under a lock, with its history, and two threads that call it.

ghost use Rattle.std.specs.Prelude.{◌≡◌, [], ◌∷◌};
ghost use mathlib.Core.List.{IsPrefix};
ghost use Rattle.mt_history.specs.{Legal.{EndsWith, IsLegal}, Views.MarkView};
ghost use Rattle.mt_book_tests.specs.Deeds.{Adds, Stepped, Took, Calls, Leads, Counts};

use super::*;
use mt_history::{Follows, Mark, Opened, Tip};
use std::marker::Model;
use std::sync::Mutex;
use std::thread::join;

// How many steps were made, and how many answers were taken.
type Tally = (u64, u64);

// A state of the counter follows another one where a deed leads to it.
struct Ones;

impl Follows<Tally> for Ones {
    ghost use Rattle.mt_book_tests.specs.Deeds.{Leads};

    ghost follows = { λ v w. Leads v w };
}

// What lies under the lock: the counter, and the history that ends with it.
#[derive(Drop)]
struct Kept<J: Naming> {
    tally: Tally,
    tip: Tip<Tally, Ones, J>,
}

impl<J: Naming> Model for Kept<J> {
    ghost use Rattle.std.specs.Prelude.{List};
    ghost use Rattle.mt_history.specs.Legal.{EndsWith};
    ghost use Rattle.mt_book_tests.specs.Deeds.{Counts};

    ghost Value = { List Counts };

    ghost view = { λ k. k.tip };

    ghost invariant = { λ k. EndsWith k.tip k.tally };
}

impl<J: Naming> Kept<J> {
    fn new(tally: Tally, tip: Tip<Tally, Ones, J>) -> Kept<J>
        requires { EndsWith tip tally }
        ensures { result ≡ tip }
    {
        Kept { tally, tip }
    }

    fn step<R: Wait>(&mut self, rt: &R, mark: &mut Mark<Tally, Ones, J>) -> u64
        ensures { Adds (Stepped result) mark.old mark.new }
    {
        if self.tally.0 == u64::MAX {
            return never(rt);
        }
        self.tally.0 += 1;
        let number = self.tally.0;
        self.tip.add(rt, mark, &self.tally);
        number
    }

    fn take<R: Wait>(&mut self, rt: &R, mark: &mut Mark<Tally, Ones, J>) -> u64
        ensures { Adds (Took result) mark.old mark.new }
    {
        if self.tally.1 == u64::MAX {
            return never(rt);
        }
        self.tally.1 += 1;
        self.tip.add(rt, mark, &self.tally);
        self.tally.0
    }
}

// Waits for ever.
fn never<T, R: Wait>(rt: &R) -> T
    ensures { ⊥ }
{
    for _ in rt.forever() {}
    unreachable!()
}

// Makes a step and takes an answer, each in a period of its own.
fn called<J: Naming, R: Wait>(
    rt: &R,
    lock: &Mutex<Kept<J>>,
    mark: Mark<Tally, Ones, J>,
) -> (Mark<Tally, Ones, J>, u64)
    ensures { Calls result.1 mark result.0 }
{
    let mut mark = mark;
    let _ = lock.lock(rt).step(rt, &mut mark);
    let answer = lock.lock(rt).take(rt, &mut mark);
    (mark, answer)
}

// Two threads call. Both calls stand in one legal history, with the answers that they were told.
fn both<J: Naming + Send + Sync, R: Threads + Wait + Sync>(
    rt: &R,
    opened: Opened<Tally, Ones>,
    blank: Blank,
    tally: Tally,
) -> (Mark<Tally, Ones, J>, u64, u64)
    requires book { opened.seen.book ≡ J.book }
    requires name { blank.name ≡ J.name }
    requires parts { (blank.parts ≡ J.parts) × (J.parts ≡ 3) }
    requires begins { opened.seen.log ≡ tally ∷ [] }
    ensures legal { IsLegal Leads result.0.log }
    ensures one { (old : MarkView Counts) × (new : MarkView Counts) × Calls result.1 old new × IsPrefix new.log result.0.log }
    ensures other { (old : MarkView Counts) × (new : MarkView Counts) × Calls result.2 old new × IsPrefix new.log result.0.log }
{
    let (tip, mut rest) = opened.named::<J>(blank);
    let one = tip.mark(rest.split_off(1, 0));
    let two = tip.mark(rest.split_off(1, 0));
    let lock = Mutex::new(Kept::new(tally, tip));
    let ((mut one, a), (two, b)) = join(
        rt,
        || -> (Mark<Tally, Ones, J>, u64)
            ensures { (old : MarkView Counts) × Calls result.1 old result.0 }
        { called(rt, &lock, one) },
        || -> (Mark<Tally, Ones, J>, u64)
            ensures { (old : MarkView Counts) × Calls result.1 old result.0 }
        { called(rt, &lock, two) },
    );
    one.learn(&two);
    (one, a, b)
}

// What the two are told.
fn answers_of_both<J: Naming + Send + Sync, R: Threads + Wait + Sync>(
    rt: &R,
    opened: Opened<Tally, Ones>,
    blank: Blank,
    tally: Tally,
) -> (u64, u64)
    requires book { opened.seen.book ≡ J.book }
    requires name { blank.name ≡ J.name }
    requires parts { (blank.parts ≡ J.parts) × (J.parts ≡ 3) }
    requires begins { opened.seen.log ≡ tally ∷ [] }
{
    let (_, a, b) = both::<J, R>(rt, opened, blank, tally);
    (a, b)
}

#[test]
fn two_calls_stand_in_one_history(rt: HostRuntime) {
    let tally = (0, 0);
    let opened = Opened::<Tally, Ones>::new(&tally);
    let told = answers_of_both::<Brand, _>(&rt, opened, Blank::new(3), tally);
    assert!(rt; [(1, 2), (2, 1), (2, 2)].contains(&told));
}
