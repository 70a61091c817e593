//! A worker of the crew: it serves a stream's session with the pass that its caller holds, and with buffers of its own.

ghost use Rattle.std.specs.Prelude.{◌≡◌};

use crate::callers::DeskCaller;
use crate::connections::{linger, set_up};
use log::Log;
use mt_book::{Clerk, Pass, Runner};
use mt_crew::Worker;
use mt_disk::Disk;
use mt_history::Naming;
use mt_session::{Ended, SessionBuffers, serve_with};
use mt_stored::SharedLogs;
use mt_streams::Sink;
use std::alloc::Global;
use std::io;
use std::net::TcpStream;
use std::sync::Wait;
use std::sync::ledger::Ledger;
use std::time::Clock;

/// A worker with a caller and buffers of its own, which it lends to one session after the other. A session
/// asks the caller for nothing before its own Open was answered.
#[derive(Drop)]
pub struct SessionWorker<'a, L: Ledger, J: Naming, R: Wait + Clock, D: Disk + Drop> {
    pub rt: &'a R,
    pub caller: DeskCaller<'a, L, R, Clerk<'a, L, J>, SharedLogs<'a, L, J, R, D>, D>,
    pub buffers: SessionBuffers,
}

/// What a worker or a turner has of a book: its pass, the clerk that calls by it, and the clerk of its logs.
#[derive(Drop)]
pub struct Held<'a, L: Ledger, J: Naming> {
    pub pass: Pass<L>,
    pub clerk: Clerk<'a, L, J>,
    pub logs: Clerk<'a, L, J>,
}

impl<'a, L: Ledger, J: Naming, R: Wait + Clock, D: Disk + Drop> SessionWorker<'a, L, J, R, D> {
    /// What it has of its book.
    pub fn into_held(self) -> Held<'a, L, J>
        ensures pass { result.pass ≡ self.entry.caller.pass }
        ensures clerk { result.clerk ≡ self.entry.caller.desk }
        ensures logs { result.logs ≡ self.entry.caller.keeper.logs.book.clerk }
    {
        Held::new(self.caller.into_parts())
    }
}

impl<'a, L: Ledger, J: Naming> Held<'a, L, J> {
    /// Of these parts of a caller or a turner.
    pub fn new<R: Wait + Clock, D: Disk + Drop>(
        parts: (Pass<L>, Clerk<'a, L, J>, SharedLogs<'a, L, J, R, D>),
    ) -> Self
        ensures pass { result.pass ≡ parts.entry.0 }
        ensures clerk { result.clerk ≡ parts.entry.1 }
        ensures logs { result.logs ≡ parts.entry.2.book.clerk }
    {
        let (pass, clerk, logs) = parts;
        Held {
            pass,
            clerk,
            logs: logs.into_clerk(),
        }
    }
}

// A stream's writing half. Before it writes, its worker gives the baton back.
#[derive(Drop)]
struct Handing<'a, 'b> {
    stream: &'a TcpStream,
    runner: Runner<'b>,
}

impl Sink for Handing<'_, '_> {
    ghost use Rattle.std.specs.Prelude.{None};

    ghost contents = { λ _. None };

    ghost failures = { λ _. None };

    fn send(&mut self, text: &[u8]) -> io::Result<usize> {
        self.runner.give();
        let mut stream = self.stream;
        stream.send(text)
    }
}

impl<L: Ledger, J: Naming, R: Wait + Clock + Log, D: Disk + Drop> Worker
    for SessionWorker<'_, L, J, R, D> {
    ghost use Rattle.mt_service.specs.Sessions.{IsSession, AsksBook};

    ghost serves = { λ old right new. IsSession (AsksBook D.is_honest D.state D.failures D.was_refused) right old.caller new.caller };

    fn serve(&mut self, alloc: Global, stream: &TcpStream) -> bool {
        set_up(stream);
        let mut reader = stream;
        let runner = self.caller.runner();
        let mut writer = Handing { stream, runner };
        let served = serve_with(
            alloc,
            &mut self.buffers,
            &mut reader,
            &mut writer,
            &mut self.caller,
        );
        runner.give();
        match served {
            Ok(Ended::Closed) => true,
            Ok(Ended::Refused) => {
                // What fails here fails a connection that is given up in any case.
                let _ = linger(self.rt, stream);
                false
            }
            Ok(Ended::Cut) => false,
            Err(_) => false,
        }
    }
}
