//! Puts by one thread and by four; and what is done with a new book. What the tape holds once four threads have put 10,000 times.

ghost use Rattle.std.specs.Prelude.{◌≡◌};
ghost use Rattle.mt_book.specs.{Keeping.IsUnasked, Names.AreNames};

use super::{held, told, *};
use mt_book::{Clerk, Kept, Names, gather};

/// A pass and its clerk.
pub(crate) type Caller<'a, L, J> = (Pass<L>, Clerk<'a, L, J>);

/// Passes with their clerks for these workers. After the last of them there is no worker.
pub(crate) fn open_all<'a, L: Ledger, J: Naming, R: Wait + Clock + Abort>(
    rt: &R,
    alloc: Global,
    book: &'a BookLock<L, J>,
    workers: &[u8],
) -> Vec<Caller<'a, L, J>> {
    let mut callers = Vec::new(alloc);
    let mut next = 0u8;
    for worker in workers {
        let caller = open_pass(rt, book, *worker).expect(rt, "a pass");
        callers.push(caller).expect(rt, "memory");
        next = worker.saturating_add(1);
    }
    assert!(rt; open_pass(rt, book, next).is_none());
    callers
}

/// Passes for these workers, without the clerks that they were opened with.
pub(crate) fn open_passes<L: Ledger, J: Naming, R: Wait + Clock + Abort>(
    rt: &R,
    alloc: Global,
    book: &BookLock<L, J>,
    workers: &[u8],
) -> Vec<Pass<L>> {
    let mut passes = Vec::new(alloc);
    for (pass, _) in open_all(rt, alloc, book, workers) {
        passes.push(pass).expect(rt, "memory");
    }
    passes
}

/// Puts so many times through a pass. It gives the pass and its desk back, how many puts were answered, and how many steps
/// stand from the first to the last of each.
pub(crate) fn put_all<L: Ledger, D: Desk<L> + Drop, R: Wait + Clock>(
    rt: &R,
    alloc: Global,
    caller: (Pass<L>, D),
    puts: u32,
) -> ((Pass<L>, D), u32, u64) {
    let (mut pass, mut desk) = caller;
    let (mut done, mut steps) = (0u32, 0u64);
    for i in 0..puts {
        let Ok(command) = command_of(alloc, (i % 12) as u8, Ask::Put(1)) else {
            continue;
        };
        if let Ok(answer) = call(rt, alloc, &mut desk, &mut pass, 7, command, &NoGate {}) {
            done = done.saturating_add(1);
            let more = answer.last.saturating_sub(answer.first);
            steps = steps.saturating_add(more).saturating_add(1);
        }
    }
    ((pass, desk), done, steps)
}

// One pass puts 20,000 times. A put takes five steps, and one that makes its pair six. A clerk without a pass looks.
fn count_steps<L: Ledger, J: Naming, R: Wait + Clock + Abort>(
    rt: &R,
    alloc: Global,
    book: &BookLock<L, J>,
) {
    let mut clerk = open_clerk(rt, book).expect(rt, "a clerk");
    let before = Desk::look(&mut clerk, rt).steps;
    let caller = open_pass(rt, book, 0).expect(rt, "a pass");
    let (_, done, steps) = put_all(rt, alloc, caller, 20_000);
    let after = Desk::look(&mut clerk, rt).steps;
    assert_eq!(rt; (done, before, steps, after), (20_000, 0, 100_012, 100_012));
}

// All passes and clerks gather a thousand answers. If one of either is missing, all come back.
fn gather_all<L: Ledger, J: Naming, R: Wait + Clock + Abort>(
    rt: &R,
    alloc: Global,
    book: &BookLock<L, J>,
    callers: Vec<Caller<'_, L, J>>,
)
    requires { L.parts ≡ 65536 }
{
    let (mut passes, mut clerks) = (Vec::new(alloc), Vec::new(alloc));
    for (pass, clerk) in callers {
        passes.push(pass).expect(rt, "memory");
        clerks.push(clerk).expect(rt, "memory");
    }
    let held = passes.pop().expect(rt, "a pass");
    let back = gather(rt, book, passes, clerks).err();
    let (mut passes, mut clerks) = back.expect(rt, "3 passes");
    passes.push(held).expect(rt, "memory");
    let held = clerks.pop().expect(rt, "a clerk");
    let back = gather(rt, book, passes, clerks).err();
    let (passes, mut clerks) = back.expect(rt, "3 clerks");
    clerks.push(held).expect(rt, "memory");
    assert_eq!(rt; (passes.len(), clerks.len()), (4, 4));
    assert!(rt; matches!(gather(rt, book, passes, clerks), Ok(1000)));
}

/// Four threads put so many times each, and each put is answered. Their passes and desks come back.
pub(crate) fn put_by_four<
    L: Ledger + Send + Sync,
    D: Desk<L> + Drop + Send,
    R: Threads + Wait + Clock + Abort + Sync,
>(rt: &R, alloc: Global, callers: Vec<(Pass<L>, D)>, puts: u32) -> Vec<(Pass<L>, D)> {
    let done = thread::map_vec(
        rt,
        callers,
        &|caller: (Pass<L>, D)| put_all(rt, alloc, caller, puts),
    );
    let mut back = Vec::new(alloc);
    for (caller, count, _) in done.expect(rt, "memory") {
        assert_eq!(rt; count, puts);
        back.push(caller).expect(rt, "memory");
    }
    back
}

/// What is done with a new book.
#[derive(Clone, Copy)]
pub(crate) enum Case {
    Held,
    ManySteps,
    ByFour,
    Tidied,
    ToldAlone,
    ToldLocked,
}

fn play<L: Ledger + Send + Sync, J: Naming + Send + Sync, R: Threads + Wait + Clock + Abort + Sync>(
    rt: &R,
    alloc: Global,
    names: Names,
    state: State,
    case: Case,
)
    requires names { AreNames L.name L.parts J.name J.parts J.book names state }
    requires unasked { IsUnasked state }
{
    if let Case::ToldAlone = case {
        let Names { answers, .. } = names;
        return told::tell_alone(rt, alloc, Book::<L>::new(answers, state));
    }
    let book = BookLock::new(Kept::<L, J>::new(alloc, names, state));
    play_locked(rt, alloc, &book, case);
    if let Case::Tidied = case {
        expect_none_held(rt, alloc, book.into_inner().into_book());
    }
}

fn play_locked<
    L: Ledger + Send + Sync,
    J: Naming + Send + Sync,
    R: Threads + Wait + Clock + Abort + Sync,
>(rt: &R, alloc: Global, book: &BookLock<L, J>, case: Case)
    requires { L.parts ≡ 65536 }
{
    match case {
        Case::Held => held::make_both(rt, alloc, book),
        Case::ManySteps => count_steps(rt, alloc, book),
        Case::ByFour => {
            let callers = open_all(rt, alloc, book, &[0, 0, 0, 0]);
            gather_all(rt, alloc, book, put_by_four(rt, alloc, callers, 250));
        }
        Case::Tidied => put_on(rt, alloc, book),
        Case::ToldAlone | Case::ToldLocked => told::tell_locked(rt, alloc, book),
    }
}

/// This is done with a new book. It has workers' logs if there are several workers, and else none.
pub(crate) fn expect<R: Threads + Wait + Clock + Abort + Sync>(rt: &R, alloc: Global, case: Case) {
    let logs = match case {
        Case::Held => 2,
        Case::ToldAlone | Case::ToldLocked => 6,
        _ => 0,
    };
    let state = new_store(rt, alloc, logs).expect(rt, "memory");
    let names = Names::new(&state);
    play::<Brand, Brand, R>(rt, alloc, names, state, case);
}

#[test]
fn four_threads_make_a_thousand_answers(rt: HostRuntime) {
    expect(&rt, rt.alloc(), Case::ByFour);
}

#[test]
fn a_look_shows_as_many_steps_as_the_answers_tell(rt: HostRuntime) {
    expect(&rt, rt.alloc(), Case::ManySteps);
}

// How many puts each of the threads makes.
const PUTS: u32 = 2_500;

// So many puts of one thread give up at least three writes each of what four threads may have left, whoever waited.
const MORE: u32 = 3_400;

// Four threads put, then one alone.
pub(crate) fn put_on<
    L: Ledger + Send + Sync,
    J: Naming + Send + Sync,
    R: Threads + Wait + Clock + Abort + Sync,
>(rt: &R, alloc: Global, book: &BookLock<L, J>) {
    let callers = open_all(rt, alloc, book, &[0, 0, 0, 0]);
    let _ = put_by_four(rt, alloc, callers, PUTS);
    let caller = open_pass(rt, book, 0).expect(rt, "a pass");
    assert_eq!(rt; put_all(rt, alloc, caller, MORE).1, MORE);
}

// Nobody is in a call now. A tidying that may give up 64 writes gives up none, so the tape holds none.
pub(crate) fn expect_none_held<L: Ledger>(rt: &impl Abort, alloc: Global, book: Book<L>) {
    let mut book = book;
    let mut displaced = Displaced::with_room(alloc, 64).expect(rt, "memory");
    book.tidy(&mut displaced);
    assert_eq!(rt; displaced.writes.len(), 0);
}

#[test]
fn the_tape_holds_no_write_that_nobody_needs(rt: HostRuntime) {
    expect(&rt, rt.alloc(), Case::Tidied);
}
