//! One turn: the request at the front of the input, and its reply.

ghost use Rattle.std.specs.Prelude.{IfSome, IfNone, Err};
ghost use Rattle.mt_caller.specs.Exchanges.{Calls};
ghost use Rattle.mt_session.specs.{Sessions.{IsReply, IsStuck, IsCall}, Turns.IsTurn};
ghost use Rattle.mt_caller.specs.declared.caller.CallerFault.{CallerFault};
ghost use Rattle.mt_streams.specs.Buffering.{Counts};

use crate::answering::Stop;
use crate::ended::ServeFault;
use bytes::BytesMut;
use mt_caller::{Caller, CallerFault};
use mt_rows::{Command, Refusal};
use mt_streams::Sink;
use mt_wire::{Front, Request, Shown, WireReply, decode, write_reply};
use std::alloc::Global;

// The reply to a request, and whether the session is opened then; none where a command is stuck.
fn reply_to<C: Caller>(
    alloc: Global,
    caller: &mut C,
    opened: bool,
    request: Request,
) -> Option<(WireReply, bool)>
    ensures replied { IfSome result (λ a. IsReply C.exchanges opened caller.old request a.0 a.1 caller.new) }
    ensures stuck { IfNone result (IsStuck C.exchanges opened caller.old request caller.new) }
{
    match request {
        Request::Open(tenant) => {
            if opened {
                return Some((WireReply::refused(Refusal::OpenTwice), true));
            }
            match caller.open(tenant) {
                Ok(()) => Some((WireReply::Opened, true)),
                Err(refusal) => Some((WireReply::refused(refusal), false)),
            }
        }
        Request::Call(command) => {
            if !opened {
                return Some((WireReply::refused(Refusal::NotOpen), false));
            }
            call_for(alloc, caller, command, false)
        }
        Request::GetStamped { key, columns } => {
            if !opened {
                return Some((WireReply::refused(Refusal::NotOpen), false));
            }
            call_for(alloc, caller, Command::Get { key, columns }, true)
        }
        Request::Settle => {
            if !opened {
                return Some((WireReply::refused(Refusal::NotOpen), false));
            }
            match caller.settle() {
                Ok(number) => Some((WireReply::Settled(number), true)),
                Err(refusal) => Some((WireReply::refused(refusal), true)),
            }
        }
    }
}

// The reply to a command of an open session, with the stamp of the row found or without.
fn call_for<C: Caller>(
    alloc: Global,
    caller: &mut C,
    command: Command,
    stamps: bool,
) -> Option<(WireReply, bool)>
    ensures replied { IfSome result (λ a. IsCall C.exchanges caller.old command stamps a.0 a.1 caller.new) }
    ensures stuck { IfNone result (C.exchanges caller.old (Calls command (Err CallerFault.Stuck)) caller.new) }
{
    match caller.call(alloc, command) {
        Ok(reply) => Some((WireReply::Told(Shown::of(reply, stamps)), true)),
        Err(CallerFault::Refused(refusal)) => Some((WireReply::refused(refusal), true)),
        Err(CallerFault::Stuck) => None,
    }
}

/// Answers the request at the front of the input, or says why there is none to answer. It doesn't stop
/// with `Full`.
pub(crate) fn answer_front<C: Caller, W: Sink>(
    alloc: Global,
    caller: &mut C,
    opened: &mut bool,
    input: &mut BytesMut,
    output: &mut BytesMut,
    writer: &mut W,
) -> Result<Option<Stop>, ServeFault>
    ensures turn { IsTurn C.exchanges input.old.items opened.old caller.old (W.contents writer.old) output.old.items result input.new.items opened.new caller.new (W.contents writer.new) output.new.items }
    ensures counts { Counts (W.failures writer.old) (W.failures writer.new) result }
{
    match decode(alloc, input.as_slice()) {
        Err(_) => Ok(Some(Stop::Memory)),
        Ok(Front::Partial) => Ok(Some(Stop::Waits)),
        Ok(Front::Bad) => {
            match write_reply(&WireReply::refused(Refusal::BadFrame), output, writer) {
                Ok(()) => Ok(Some(Stop::Refused)),
                Err(_) => Err(ServeFault::Write),
            }
        }
        Ok(Front::Whole(request, len)) => {
            input.advance(len);
            match reply_to(alloc, caller, *opened, request) {
                None => Ok(Some(Stop::Memory)),
                Some((reply, is_open)) => {
                    *opened = is_open;
                    match write_reply(&reply, output, writer) {
                        Ok(()) => Ok(None),
                        Err(_) => Err(ServeFault::Write),
                    }
                }
            }
        }
    }
}
