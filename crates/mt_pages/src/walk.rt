//! Where a walk stands, and how it goes on.

ghost use Rattle.std.specs.{Prelude.{◌≡◌, [], false, map, slice_get, IfOk, OnErr}, List.All};
ghost use Rattle.mt_rows.specs.Commands.{IsKey};
ghost use Rattle.mt_checkpoint.specs.Checkpoints.{IsPair};
ghost use Rattle.mt_pages.specs.Scans.{next_scan, pair_of};

use mt_rows::command::SCAN_PAIRS;
use mt_rows::{ColumnIndexes, Command, Key, PairList, StampedRow, TenantPair};
use std::alloc::{AllocError, Global};

/// A walk over the pairs of tenants, in the order in which they are given. It stands at a tenant, and at a key of it or
/// after one.
#[derive(Drop)]
pub struct PageWalk {
    tenants: Vec<u32>,
    place: usize,
    from: Key,
    after: bool,
}

impl PageWalk {
    ghost use Rattle.mt_pages.specs.Pages.{TakesAt};

    /// A walk that stands at the first key of the first tenant.
    pub fn new(alloc: Global, tenants: Vec<u32>) -> Self
        ensures tenants { result.tenants ≡ tenants }
        ensures place { result.place ≡ 0 }
        ensures from { result.from ≡ [] }
        ensures after { result.after ≡ false }
    {
        PageWalk {
            tenants,
            place: 0,
            from: Key::new(Vec::new(alloc)),
            after: false,
        }
    }

    /// The tenant and the scan of the next page: all columns of up to 64 pairs. After the last tenant there is none.
    pub fn next(&self, alloc: Global) -> Result<Option<(u32, Command)>, AllocError>
        ensures { IfOk result (λ scan. scan ≡ next_scan self.now.tenants.items self.now.place self.now.from self.now.after) }
    {
        let Some(tenant) = self.tenants.get(self.place) else {
            return Ok(None);
        };
        let mut from = Key::new(Vec::new(alloc));
        from.copy_from(&self.from)?;
        let scan = Command::Scan {
            from,
            after: self.after,
            count: SCAN_PAIRS,
            columns: ColumnIndexes::new(Vec::new(alloc)),
        };
        Ok(Some((*tenant, scan)))
    }

    /// Takes the page that the next scan showed: its pairs with their tenant. After a full page the walk goes on after
    /// its last key, else at the first key of the next tenant. The rows are shared. A walk that has ended takes nothing.
    /// An error leaves the walk where it stands.
    pub fn take(&mut self, alloc: Global, page: &PairList) -> Result<Vec<TenantPair>, AllocError>
        ensures ok { IfOk result (λ pairs. TakesAt (slice_get self.old.tenants.items self.old.place) page.now self.old self.new pairs.items) }
        ensures limits { IfOk result (λ pairs. All IsPair pairs.items) }
        ensures err { OnErr result (self.new ≡ self.old) }
    {
        let Some(tenant) = self.tenants.get(self.place) else {
            return Ok(Vec::new(alloc));
        };
        let pairs = page.as_slice();
        let taken = with_tenant(alloc, *tenant, pairs)?;
        match pairs.get(usize::from(SCAN_PAIRS) - 1) {
            Some((last, _)) => {
                let mut from = Key::new(Vec::new(alloc));
                from.copy_from(last)?;
                self.from = from;
                self.after = true;
            }
            None => {
                self.place += 1;
                self.from = Key::new(Vec::new(alloc));
                self.after = false;
            }
        }
        Ok(taken)
    }
}

// Pairs with their tenant. Their rows are shared.
fn with_tenant(
    alloc: Global,
    tenant: u32,
    pairs: &[(Key, StampedRow)],
) -> Result<Vec<TenantPair>, AllocError>
    requires { All (λ p. IsKey p.0) pairs.now }
    ensures pairs { IfOk result (λ taken. taken.items ≡ map (pair_of tenant) pairs.now) }
    ensures limits { IfOk result (λ taken. All IsPair taken.items) }
{
    let mut taken = Vec::new(alloc);
    for (key, row) in pairs {
        let mut copy = Key::new(Vec::new(alloc));
        copy.copy_from(key)?;
        // Read, so that the proof knows their ranges.
        let _columns = row.row.columns();
        let _stamp = row.stamp;
        taken.push(TenantPair {
            tenant,
            key: copy,
            row: row.share()?,
        })?;
    }
    Ok(taken)
}
