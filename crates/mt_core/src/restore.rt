//! A state that begins with pairs, as a recovery leaves them.
//!
//! The pairs are put one after the other, each by an operation that runs alone, and let go. Each is stamped with the number
//! of its step. A list has for each such number the stamp that the pair came with. Then all counting begins
//! anew at the number that was asked for, with the logs, and each pair gets its stamp back. If these steps come to the
//! last number, there is no memory for so many pairs. Errors: `AllocError`; nothing else is refused.

ghost use Rattle.std.specs.{Prelude.{◌≡◌, ◌≢◌, ◌≤◌, ◌^◌, ℕ, None, Some, IfOk}, List.All};
ghost use Rattle.std.specs.FinMap as fin;
ghost use Rattle.mt_rows.specs.{Accounts.account_of, TenantPairs.{pairs_of, quota_in, IsTenantPair, AreDistinct, AreStampedUpto, HasTenants, KeepsQuotas}};
ghost use Rattle.mt_rows.specs.declared.record.TenantPair.{TenantPair as AnyPair};
ghost use Rattle.mt_state.specs.{Views.{StateView, shown, contents_of, granted}, Begins.{HaveNoPairs, Begins}};
ghost use Rattle.mt_core.specs.Restores.{put_of, IsIdle, MayPut, HasOneMore, HasPut, IsRestored};

use crate::answers::Ticket;
use crate::begins::prepare_in;
use crate::displaced::Displaced;
use crate::inner::Inner;
use mt_operation::Operation;
use mt_rows::{Command, NamedColumns, Refusal, Reply, TenantPair, Tenants};
use mt_state::Move;
use std::alloc::{AllocError, Global};
use std::boxed::Box;
use std::collections::BTreeMap;

/// What is inside a state that has made so many steps, and has these pairs with their stamps.
pub(crate) fn restored(
    alloc: Global,
    steps: u64,
    logs: u8,
    tenants: Tenants,
    pairs: Vec<TenantPair>,
) -> Result<Inner, AllocError>
    requires steps { steps ≤ 2 ^ 59 }
    requires logs { logs ≤ 64 }
    requires empty { HaveNoPairs tenants }
    requires limits { All IsTenantPair pairs.items }
    requires distinct { AreDistinct pairs.items }
    requires stamps { AreStampedUpto steps pairs.items }
    requires tenants { HasTenants (quota_in tenants) (pairs_of pairs.items) }
    requires quotas { KeepsQuotas (quota_in tenants) (pairs_of pairs.items) }
    ensures { IfOk result (λ inner. IsRestored steps logs tenants pairs.items (shown inner)) }
{
    let mut inner = Inner::new(alloc, 0, tenants)?;
    let stamps = put_all(&mut inner, pairs)?;
    inner.keep_logs(logs)?;
    inner.kept();
    inner.renumber(steps, &stamps);
    Ok(inner)
}

// A put that is over: the step that placed its pair, and the memory of its operation.
#[derive(Drop)]
struct Over {
    number: u64,
    rest: Option<Box<Operation>>,
}

// Puts the pairs one after the other, where there are none. Each is stamped with the step that put it: the list
// that comes back has the stamp that it should have.
fn put_all(inner: &mut Inner, pairs: Vec<TenantPair>) -> Result<BTreeMap<u64, u64>, AllocError>
    requires idle { IsIdle (shown inner.old) }
    requires fresh { contents_of (shown inner.old) ≡ fin.empty }
    requires limits { All IsTenantPair pairs.items }
    requires distinct { AreDistinct pairs.items }
    requires tenants { HasTenants (granted (shown inner.old)) (pairs_of pairs.items) }
    requires quotas { KeepsQuotas (granted (shown inner.old)) (pairs_of pairs.items) }
    ensures { IfOk result (λ stamps. HasPut (shown inner.old) (shown inner.new) stamps (pairs_of pairs.items)) }
{
    let mut stamps = BTreeMap::new(inner.alloc);
    let mut rest = None;
    for pair in pairs {
        let stamp = pair.row.stamp;
        let over = put_alone(inner, rest, pair)?;
        stamps.insert(over.number, stamp)?;
        rest = over.rest;
    }
    Ok(stamps)
}

// Puts a pair of a missing key, where no operation is open, in the memory of the put before it, and hands
// that on. No log is kept meanwhile, so the tape lets go of the put.
fn put_alone(
    inner: &mut Inner,
    rest: Option<Box<Operation>>,
    pair: TenantPair,
) -> Result<Over, AllocError>
    requires idle { IsIdle (shown inner.old) }
    requires pair { MayPut (shown inner.old) pair }
    ensures { IfOk result (λ over. HasOneMore (shown inner.old) (shown inner.new) pair over.number) }
{
    let ticket = begin(inner, rest, pair)?;
    let over = run(inner, ticket)?;
    inner.tidy();
    Ok(over)
}

// Begins the put of a pair whose tenant is there.
fn begin(
    inner: &mut Inner,
    rest: Option<Box<Operation>>,
    pair: TenantPair,
) -> Result<Ticket, AllocError>
    requires limits { IsTenantPair pair }
    requires tenant { account_of inner.old.accounts pair.tenant ≢ None }
    ensures { IfOk result (λ ticket. Begins (shown inner.old) (shown inner.new) ticket.id 0 pair.tenant (put_of pair)) }
{
    let TenantPair { tenant, key, row } = pair;
    let change = NamedColumns::of_row(inner.alloc, &row.row)?;
    let command = Command::Put { key, change };
    let opening = prepare_in(inner.alloc, rest, 0, tenant, command);
    match inner.admit(opening) {
        Ok(ticket) => Ok(ticket),
        Err(Refusal::Memory | Refusal::Spent) => Err(AllocError),
        Err(_) => unreachable!(),
    }
}

// Runs the put of a pair of a missing key to its end, and hands out what is left of it.
fn run(inner: &mut Inner, ticket: Ticket) -> Result<Over, AllocError>
    requires { (v : StateView) × (p : AnyPair) × IsIdle v × MayPut v p × Begins v (shown inner.old) ticket.id 0 p.tenant (put_of p) }
    ensures { (v : StateView) (p : AnyPair) → IsIdle v → MayPut v p → Begins v (shown inner.old) ticket.id 0 p.tenant (put_of p) →
        IfOk result (λ over. HasOneMore v (shown inner.new) p over.number) }
{
    inner.kept();
    match inner.run_alone(ticket.id) {
        Move::Done => {}
        Move::NoMemory | Move::Spent => return Err(AllocError),
        _ => unreachable!(),
    }
    let mut displaced = Displaced::new(inner.alloc);
    match inner.take(ticket, &mut displaced) {
        Ok(answer) => match answer.reply {
            Reply::New => Ok(Over {
                number: answer.at,
                rest: displaced.rest,
            }),
            Reply::NoMemory => Err(AllocError),
            _ => unreachable!(),
        },
        Err(_) => unreachable!(),
    }
}
