//! How connections come to a loop: through its door, from the thread that accepts them.

ghost use Rattle.std.specs.Prelude.{◌≡◌, ◌+◌, min, OnOk, IfOk, IfErr};

use crossbeam_channel::{Receiver, Sender, TryRecvError, bounded};
use mio::Waker;
use std::alloc::{AllocError, Global};
use std::net::TcpStream;
use std::sync::atomic::{AtomicU64, Ordering};
use std::sync::{Arc, Wait};

// What a door and its loop share: how the loop is woken, and how many of its connections are gone.
#[derive(Drop)]
struct Hall {
    waker: Waker,
    gone: AtomicU64,
}

/// The door of a loop. A door that is dropped is closed: the loop ends when its connections have.
pub struct Door {
    sender: Sender<TcpStream>,
    hall: Arc<Hall, Global>,
    most: u64,
    handed: u64,
}

/// What a loop has of its door.
#[derive(Drop)]
pub struct Inbox {
    receiver: Receiver<TcpStream>,
    hall: Arc<Hall, Global>,
    taken: u64,
    pub(crate) is_closed: bool,
}

impl Drop for Door {
    fn drop(self) {
        let Door {
            sender,
            hall,
            most: _,
            handed: _,
        } = self;
        drop(sender);
        // If the wake fails, the loop sees that its door is closed when it next wakes.
        let _ = hall.waker.wake();
    }
}

/// A door for so many connections at a time, and its inbox.
pub(crate) fn open_door(
    alloc: Global,
    waker: Waker,
    most: usize,
) -> Result<(Door, Inbox), AllocError>
    ensures { IfOk result (λ made. made.0.most ≡ most) }
{
    let (sender, receiver) = bounded::<TcpStream, Global>(alloc, most)?;
    let hall = Arc::new(
        alloc,
        Hall {
            waker,
            gone: AtomicU64::new(0),
        },
    )?;
    let door = Door {
        sender,
        hall: Arc::try_clone(&hall)?,
        most: most as u64,
        handed: 0,
    };
    let inbox = Inbox {
        receiver,
        hall,
        taken: 0,
        is_closed: false,
    };
    Ok((door, inbox))
}

impl Door {
    /// Hands a connection to the loop. The stream comes back if the loop has as many as it may, or has ended.
    pub fn hand_over<R: Wait>(&mut self, rt: &R, stream: TcpStream) -> Result<(), TcpStream>
        ensures back { IfErr result (λ back. (back ≡ stream) × (self.new.handed ≡ self.old.handed)) }
        ensures handed { OnOk result (self.new.handed ≡ min (self.old.handed + 1) u64.MAX) }
    {
        let gone = self.hall.gone.load(Ordering::SeqCst);
        if self.handed.saturating_sub(gone) >= self.most {
            return Err(stream);
        }
        match self.sender.send(rt, stream) {
            Ok(()) => {
                self.handed = self.handed.saturating_add(1);
                let _ = self.hall.waker.wake();
                Ok(())
            }
            Err(error) => Err(error.into_inner()),
        }
    }
}

impl Inbox {
    // The next connection that was handed over, if one waits.
    pub(crate) fn next<R: Wait>(&mut self, rt: &R) -> Option<TcpStream> {
        match self.receiver.try_recv(rt) {
            Ok(stream) => {
                self.taken = self.taken.saturating_add(1);
                Some(stream)
            }
            Err(TryRecvError::Empty) => None,
            Err(TryRecvError::Disconnected) => {
                self.is_closed = true;
                None
            }
        }
    }

    // Tells the door that all but so many of the connections taken are gone.
    pub(crate) fn tell(&self, left: usize) {
        let gone = self.taken.saturating_sub(left as u64);
        self.hall.gone.store(gone, Ordering::SeqCst);
    }
}
