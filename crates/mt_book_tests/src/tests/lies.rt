//! Calls over a desk that lies: it is never believed, and is asked again and again.

ghost use Rattle.std.specs.Prelude.{◌≡◌};

use super::*;
use mt_book::{Admission, Admitted, Look, Stepping, Taken, Taking, Turned};
use mt_core::{Opening, Ticket};
use mt_state::Move;
use std::sync::Arc;
use std::test::Fail;

// How a desk lies to a call.
#[derive(Clone, Copy)]
enum Lie {
    // It shows no steps, though the pass saw some.
    FewerSteps,
    // It has no such operation.
    NoSuch,
    // It answers another command.
    OtherCommand,
    // Its answer is from before what the pass saw.
    EarlyFirst,
}

// A book that is owned alone, and lies from the second call on. It counts how often it is asked.
#[derive(Drop)]
struct Liar<L: Ledger> {
    alloc: Global,
    book: Book<L>,
    lie: Option<Lie>,
    asked: Arc<AtomicU64, Global>,
}

impl<L: Ledger> Liar<L> {
    fn count(&self) {
        self.asked.fetch_add(1, Ordering::SeqCst);
    }
}

impl<L: Ledger> Desk<L> for Liar<L> {
    ghost does = { λ old p new. Unit {0} };

    fn look<R: Wait + Clock>(&mut self, rt: &R) -> Look {
        self.count();
        Desk::look(&mut self.book, rt)
    }

    fn admit<R: Wait + Clock>(&mut self, rt: &R, pass: &Pass<L>, opening: Opening) -> Admission {
        self.count();
        match self.lie {
            Some(Lie::FewerSteps) if pass.seen() > 0 => Admission {
                steps: 0,
                logs: 0,
                told: Admitted::Early(opening),
            },
            _ => Desk::admit(&mut self.book, rt, pass, opening),
        }
    }

    fn step<R: Wait + Clock>(
        &mut self,
        rt: &R,
        pass: &Pass<L>,
        turned: Turned,
        ticket: &Ticket,
    ) -> Stepping {
        self.count();
        let mut told = Desk::step(&mut self.book, rt, pass, turned, ticket);
        if let (Some(Lie::NoSuch), Some(_)) = (self.lie, &told.move_made) {
            told.move_made = Some(Move::NoSuch);
        }
        told
    }

    fn take<R: Wait + Clock>(
        &mut self,
        rt: &R,
        pass: &mut Pass<L>,
        ticket: Ticket,
        displaced: &mut Displaced,
    ) -> Taking {
        self.count();
        let Taking { steps, mut told } = Desk::take(&mut self.book, rt, pass, ticket, displaced);
        if let Taken::Answered(answer) = &mut told {
            match self.lie {
                Some(Lie::EarlyFirst) => answer.first = 0,
                Some(Lie::OtherCommand) => {
                    let key = Key::new(Vec::new(self.alloc));
                    answer.command = Command::Remove { key };
                }
                _ => {}
            }
        }
        Taking { steps, told }
    }
}

// A true call, and then one to which the desk lies; it doesn't come back.
fn call_twice<L: Ledger, R: Wait + Clock>(rt: &R, alloc: Global, liar: &mut Liar<L>, lie: Lie) {
    let Some(mut pass) = liar.book.open_pass(0) else {
        return;
    };
    for lie in [None, Some(lie)] {
        liar.lie = lie;
        if let Ok(command) = command_of(alloc, 107, Ask::Get) {
            let _ = call(rt, alloc, liar, &mut pass, 7, command, &NoGate {});
        }
    }
    liar.asked.store(0, Ordering::SeqCst);
}

// Whether a desk that lies so is asked a thousand times, in at most ten seconds. Its thread never ends.
fn is_asked_on<
    L: Ledger + Send + Sync + 'static,
    R: Threads + Wait + Clock + Abort + Copy + Send + 'static,
>(rt: R, alloc: Global, blank: Blank, lie: Lie) -> Result<bool, AllocError>
    requires name { blank.name ≡ L.name }
    requires parts { (blank.parts ≡ L.parts) × (L.parts ≡ 65536) }
{
    let asked = Arc::new(alloc, AtomicU64::new(0))?;
    let mut liar = Liar {
        alloc,
        book: Book::<L>::new(blank, new_store(&rt, alloc, 0)?),
        lie: None,
        asked: Arc::try_clone(&asked)?,
    };
    let started = thread::spawn(&rt, move || call_twice(&rt, alloc, &mut liar, lie)).is_ok();
    for _ in 0..10_000u32 {
        if asked.load(Ordering::SeqCst) >= 1_000 {
            return Ok(started);
        }
        let _ = thread::sleep(&rt, Duration::from_millis(1));
    }
    Ok(false)
}

#[test]
fn a_desk_that_lies_is_never_believed(rt: HostRuntime) -> Result<(), Fail> {
    for lie in [
        Lie::FewerSteps,
        Lie::NoSuch,
        Lie::OtherCommand,
        Lie::EarlyFirst,
    ] {
        let blank = Blank::new(65_536);
        assert!(rt; is_asked_on::<Brand, _>(rt, rt.alloc(), blank, lie)?);
    }
    Ok(())
}
