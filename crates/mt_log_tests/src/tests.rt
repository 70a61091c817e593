mod chains;
mod changes;
mod copies;
mod crashes;
mod disks;
mod failing;
mod failures;
mod files;
mod generations;
mod logs;
mod openings;
mod slots;
mod stores;
mod vectors;

use self::logs::{EMPTY, Told, disk_with, go_on, not_opened, opened, opened_on, read_again};
use self::slots::{Change, Rows, Walk, append, batch_of, new_log, put, recover_over, rows_of};
use self::stores::{Failures, NONE, Store, image_of_log, images_of, logs_with};
use mt_disk::{CachedDisk, MemDisk, MemFile, OsFile};
use mt_log::{AppendFault, FileKind, Front, LogBatch, LogFile};
use mt_recover::{LogSlot, cutoff};
use mt_rows::{Record, Refusal, Tenants};
use mt_slots::StoreSlots;
use mt_store_logs::{
    FileImages, LogRefusal, NoWatch, StoreLog, crash_logs, open_logs, recover_store,
};
use std::alloc::{AllocError, Global};
use std::io;
use std::process::Abort;
use std::test::Fail;
