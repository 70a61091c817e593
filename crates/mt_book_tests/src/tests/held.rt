//! A call that a gate holds back between two of its steps, while another one is made.
//! The baton: one worker has it, another one waits for it in vain, and who waits goes first after 64 calls.

use super::threads::open_passes;
use super::*;
use mt_book::{Baton, Gate, Runner};
use mt_operation::Phase;

// How far the two calls are: the first one is held, the second one is answered.
const HELD: u64 = 1;

const ANSWERED: u64 = 2;

// Looks up to 100,000 times, a millisecond apart, whether the calls are so far.
fn wait_for<R: Clock>(rt: &R, turn: &AtomicU64, wanted: u64) {
    for _ in 0..100_000u32 {
        if turn.load(Ordering::SeqCst) >= wanted {
            return;
        }
        let _ = thread::sleep(rt, Duration::from_millis(1));
    }
}

// Holds a call at its confirm until the other one is answered.
#[derive(Clone, Copy)]
struct Holding<'a, R: Clock> {
    rt: &'a R,
    turn: &'a AtomicU64,
}

impl<R: Clock> Gate for Holding<'_, R> {
    ghost turned = { λ gate op phase. Unit {0} };

    fn turn(&self, _op: u64, phase: Phase) {
        if phase == Phase::Confirm {
            self.turn.store(HELD, Ordering::SeqCst);
            wait_for(self.rt, self.turn, ANSWERED);
        }
    }
}

// A get through a pass, with the numbers of its first and last step.
fn numbers<L: Ledger, J: Naming, R: Wait + Clock, G: Gate>(
    rt: &R,
    alloc: Global,
    book: &BookLock<L, J>,
    pass: Pass<L>,
    gate: &G,
) -> (u64, u64) {
    let mut pass = pass;
    let Some(mut clerk) = open_clerk(rt, book) else {
        return (0, 0);
    };
    let Ok(command) = command_of(alloc, 107, Ask::Get) else {
        return (0, 0);
    };
    match call(rt, alloc, &mut clerk, &mut pass, 7, command, gate) {
        Ok(answer) => (answer.first, answer.last),
        Err(_) => (0, 0),
    }
}

// One of the two gets: that of worker 0 is held, that of worker 1 begins once it is.
fn one_of_two<L: Ledger, J: Naming, R: Wait + Clock>(
    rt: &R,
    alloc: Global,
    book: &BookLock<L, J>,
    turn: &AtomicU64,
    pass: Pass<L>,
) -> (u64, u64) {
    if pass.worker() == 0 {
        return numbers(rt, alloc, book, pass, &Holding { rt, turn });
    }
    wait_for(rt, turn, HELD);
    let told = numbers(rt, alloc, book, pass, &NoGate {});
    turn.store(ANSWERED, Ordering::SeqCst);
    told
}

// The second get is made between the steps of the first one.
fn is_between(rt: &impl Abort, told: &[(u64, u64)]) {
    match told {
        [(first, last), (other_first, other_last)] => {
            assert!(rt; 0 < *first && first < other_first && other_last < last)
        }
        _ => panic!(rt; "two gets were made"),
    }
}

// Makes the two gets, each by its thread.
pub(crate) fn make_both<
    L: Ledger + Send + Sync,
    J: Naming + Send + Sync,
    R: Threads + Wait + Clock + Abort + Sync,
>(rt: &R, alloc: Global, book: &BookLock<L, J>) {
    let turn = &AtomicU64::new(0);
    let told = thread::map_vec(
        rt,
        open_passes(rt, alloc, book, &[0, 1]),
        &|pass: Pass<L>| one_of_two(rt, alloc, book, turn, pass),
    );
    is_between(rt, told.expect(rt, "memory").as_slice());
}

#[test]
fn another_call_is_made_between_two_steps(rt: HostRuntime) {
    expect(&rt, rt.alloc(), Case::Held);
}

// One has it until it gives it back. The other one goes without it meanwhile, and gives back nothing.
fn expect_one<R: Wait + Abort>(rt: &R, first: Runner<'_>, second: Runner<'_>) {
    assert_eq!(rt; (first.take(rt, 0), first.has()), (1, true));
    assert_eq!(rt; (second.take(rt, 7), second.has()), (1, false));
    second.give();
    assert!(rt; first.has());
    first.give();
    assert!(rt; !first.has());
    assert_eq!(rt;
        (second.take(rt, 64), second.has(), first.has()),
        (1, true, false)
    );
}

// It counts the calls of a turn, and goes on after the 64th of them, since nobody waits.
fn expect_turns<R: Wait + Abort>(rt: &R, alone: Runner<'_>) {
    let mut calls = 0;
    for call in 0..200u32 {
        calls = alone.take(rt, calls);
        assert_eq!(rt; (calls, alone.has()), (call % 64 + 1, true));
    }
}

// One makes calls and never gives the baton back; whether one that waits comes to have it.
fn is_handed_on<R: Threads + Wait + Sync>(rt: &R, first: Runner<'_>, second: Runner<'_>) -> bool {
    let over = &AtomicU64::new(0);
    let mut calls = first.take(rt, 0);
    let (_, had) = thread::join(
        rt,
        move || {
            for _ in rt.forever() {
                calls = first.take(rt, calls);
                if over.load(Ordering::SeqCst) > 0 {
                    break;
                }
            }
        },
        move || {
            for _ in 0..20u32 {
                let _ = second.take(rt, 0);
                if second.has() {
                    break;
                }
            }
            let had = second.has();
            second.give();
            over.store(1, Ordering::SeqCst);
            had
        },
    );
    had
}

#[test]
fn one_worker_has_the_baton_until_it_gives_it_back(rt: HostRuntime) {
    let baton = Baton::new();
    expect_one(&rt, Runner::new(&baton, 0), Runner::new(&baton, 1));
}

#[test]
fn a_worker_alone_keeps_the_baton(rt: HostRuntime) {
    let baton = Baton::new();
    expect_turns(&rt, Runner::new(&baton, 254));
}

#[test]
fn who_waits_goes_first_after_64_calls(rt: HostRuntime) {
    let baton = Baton::new();
    assert!(rt; is_handed_on(&rt, Runner::new(&baton, 0), Runner::new(&baton, 1)));
}
