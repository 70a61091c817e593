//! Laws of connections, each the contract of a function that does nothing.

ghost use Rattle.std.specs.Prelude.{◌≡◌, [], Option, Result};
ghost use Rattle.mt_rows.specs.Rows.{Bytes};
ghost use Rattle.mt_session.specs.{declared.ended.Ended.Ended, declared.ended.ServeFault.ServeFault, Endings.Serves};
ghost use Rattle.mt_loop.specs.{declared.connection.Connection.Connection, declared.connection.State.TheVariants.{Ended as HasEnded}, Connections.{IsSession, IsFresh}};

use mt_caller::Caller;

/// A session begins with a connection that is new.
pub fn a_session_begins<C: Caller>()
    ensures { (before held : Option Bytes) (start : C) (c : Connection) → IsFresh c → IsSession C.exchanges before before held held start c start }
{}

/// A connection that has ended, and has sent all, leaves what `serve` leaves: the same text is written for the
/// same bytes.
pub fn all_sent_is_served<C: Caller>()
    ensures { (before left held holds : Option Bytes) (start new : C) (c : Connection) (result : Result Ended ServeFault)
        → c.state ≡ HasEnded result → c.unsent.bytes.items ≡ [] → IsSession C.exchanges before left held holds start c new
        → Serves C.exchanges before left held holds (Unit {0}) (Unit {0}) start new result }
{}
