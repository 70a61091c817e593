mod asked;
mod pairs;
mod restored;
mod runs;
mod story;

use self::asked::{drained, end, get, new_store, put, remove, run};
use mt_core::State;
use mt_rows::{
    Batch, Column, ColumnIndexes, Command, Key, NamedColumns, Refusal, Reply, TenantPair, Tenants,
};
use mt_runs::Answer;
use mt_state::Move;
use std::alloc::Global;
use std::process::Abort;
