mod asked;
mod failures;
mod runs;
mod stories;
mod turns;

use self::asked::{one_tenant, rows_of};
use self::runs::{AMPLE, DiskOf, Fate, Noted, fates_of, recovers, run, run_store, tells};
use mt_lives::{CrashImages, StoreEvent};
use mt_rows::Tenants;
use mt_store_logs::FileImages;
use std::alloc::Global;
use std::process::Abort;
use std::test::Fail;
