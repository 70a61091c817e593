//! Laws of sessions, each the contract of a function that does nothing.

ghost use Rattle.std.specs.Prelude.{◌≡◌, ◌++◌, [], ℕ, List, Result, drop};
ghost use Rattle.mt_caller.specs.Exchanges.{Settles};
ghost use Rattle.mt_rows.specs.declared.refusal.Refusal.{Refusal};
ghost use Rattle.mt_resp.specs.{Grammar.{Bytes, IsSpelling}, Asking.meaning, Replies.told_text};
ghost use Rattle.mt_resp_commands.specs.{declared.link.Link.Link, Answers.{IsAnswer, settle_told}};
ghost use Rattle.mt_resp_session.specs.{Transcripts.{Transcript, Same}, Answering.{IsAtSettle, IsEnd}};

use mt_caller::Caller;
use mt_resp_commands::Knows;

/// Pieces join. If a session told one text for some bytes and left a rest, and then told another text for that rest with more bytes
/// after it, it told both texts, one after the other, for all of the bytes. So the text for a stream is the same however the stream is cut.
pub fn pieces_join<C: Caller + Knows>()
    ensures { (bytes more mid rest text other : Bytes) (link between next : Link) (old m new : C)
        → Transcript C.exchanges C.knows Same bytes link old mid between m text → Transcript C.exchanges C.knows Same (mid ++ more) between m rest next new other
        → Transcript C.exchanges C.knows Same (bytes ++ more) link old rest next new (text ++ other) }
{}

/// To the bytes of one command a session that leaves nothing told one answer: that to the command.
pub fn one_answer_to_one_command<C: Caller + Knows>()
    ensures { (bytes text : Bytes) (words : List Bytes) (link next : Link) (old new : C)
        → IsSpelling bytes words → Transcript C.exchanges C.knows Same bytes link old [] next new text → IsAnswer C.exchanges C.knows link old (meaning words) text next new }
{}

/// A command that asks for the end is the last: nothing after it is answered.
pub fn nothing_after_the_end<C: Caller + Knows>()
    ensures { (bytes rest left last text : Bytes) (link next : Link) (old new : C)
        → IsEnd bytes last left → Transcript C.exchanges C.knows Same bytes link old rest next new text → (text ≡ []) × (rest ≡ bytes) }
{}

/// A Settle at which a session stopped is answered by the caller's Settle, and then the session goes on.
pub fn a_settle_goes_on<C: Caller + Knows>()
    ensures { (bytes rest text : Bytes) (len : ℕ) (link next : Link) (old mid new : C) (answer : Result ℕ Refusal)
        → Transcript C.exchanges C.knows Same bytes link old rest next mid text → IsAtSettle rest len → C.exchanges mid (Settles answer) new
        → Transcript C.exchanges C.knows Same bytes link old (drop len rest) next new (text ++ told_text (settle_told answer)) }
{}
