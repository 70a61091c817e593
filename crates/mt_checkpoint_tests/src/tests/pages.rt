//! Walks over plain maps of several sizes, page by page.

use super::*;
use mt_pages::PageWalk;
use mt_rows::{Command, PairList, PlainMap, Reply, Tenants};

// A map of so many keys of two bytes, which rise, each with an empty column.
fn map_of(alloc: Global, count: u16) -> Result<PlainMap, AllocError> {
    let mut map = PlainMap::new(alloc);
    for number in 0..count {
        let mut columns = Vec::new(alloc);
        columns.push(Column::new(alloc, Vec::new(alloc))?)?;
        let key = Key::new(number.to_be_bytes().to_vec(alloc)?);
        if !Row::fits(&columns) || key.as_bytes().len() > USER_KEY_BYTES {
            return Err(AllocError);
        }
        let row = Row::new(alloc, columns)?;
        map.insert(key, StampedRow { stamp: 1, row })?;
    }
    Ok(map)
}

// The page that a scan shows of its tenant's map.
fn page_of(
    alloc: Global,
    maps: &mut [(u32, PlainMap)],
    tenant: u32,
    scan: Command,
) -> Result<PairList, AllocError> {
    for (owner, map) in maps.iter_mut() {
        if *owner == tenant && scan.check().is_ok() {
            return match map.apply(alloc, 1, 2, scan)? {
                Reply::Pairs(page) => Ok(page),
                _ => Err(AllocError),
            };
        }
    }
    Err(AllocError)
}

// What a walk shows of maps, and how many scans it made; none if it doesn't end.
fn walked(
    alloc: Global,
    maps: &mut [(u32, PlainMap)],
) -> Result<Option<(Vec<TenantPair>, usize)>, AllocError> {
    let mut tenants = Tenants::new(alloc);
    for (tenant, _) in maps.iter() {
        if tenants.add(*tenant, 1).is_err() {
            return Err(AllocError);
        }
    }
    let mut walk = PageWalk::new(alloc, tenants.numbers(alloc)?);
    let mut shown = Vec::new(alloc);
    for scans in 0..50 {
        let Some((tenant, scan)) = walk.next(alloc)? else {
            return Ok(Some((shown, scans)));
        };
        let page = page_of(alloc, maps, tenant, scan)?;
        let mut pairs = walk.take(alloc, &page)?;
        shown.append(&mut pairs)?;
    }
    Ok(None)
}

// Each pair is shown once, in the order of tenants and keys, whatever order the tenants are named in. A tenant takes one
// scan more than it has full pages.
#[test]
fn a_walk_shows_each_pair_once(rt: HostRuntime) -> Result<(), Fail> {
    let alloc = rt.alloc();
    for (counts, scans) in [
        (&[][..], 0),
        (&[(7, 0)][..], 1),
        (&[(1, 1), (2, 0), (4, 2)][..], 3),
        (&[(0, 63), (9, 64), (4_294_967_295, 65)][..], 5),
        (&[(7, 128), (8, 0), (70, 0), (71, 200)][..], 9),
    ] {
        let (mut maps, mut owners) = (Vec::new(alloc), Vec::new(alloc));
        for (tenant, count) in counts {
            for number in 0..*count {
                owners.push((*tenant, number))?;
            }
            maps.push((*tenant, map_of(alloc, *count)?))?;
        }
        maps.reverse();
        let (shown, made) = walked(alloc, &mut maps)?.expect(&rt, "an end");
        assert!(rt; made == scans && shown.len() == owners.len(), "{counts:?}");
        for (pair, (tenant, number)) in shown.iter().zip(owners.iter()) {
            let is_key = pair.key.as_bytes() == &number.to_be_bytes()[..];
            assert!(rt; is_key && pair.tenant == *tenant, "{counts:?}");
        }
    }
    Ok(())
}
