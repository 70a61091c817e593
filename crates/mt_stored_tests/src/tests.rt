mod at_once;
mod checks;
mod disks;
mod images;
mod many;
mod old_formats;
mod power;
mod sessions;
mod stories;
mod turns;

use self::checks::expect_recovered;
use self::disks::{FULL, Fails, FlakyDisk, NEVER, SOUND, WANT, fails_of};
use self::images::{
    Left, disk_with, files_with, image_of, key_of, left_of, logs_left, plain_image, tenant_7,
};
use self::many::{put_all, settled};
use self::sessions::{Served, Session};
use self::stories::{bare_slots, new_store, recovered, slots_of, store_of_two};
use log::sink::Locked;
use log::{Level, Log, Logged};
use mt_book::{Names, Runner};
use mt_core::State;
use mt_crew::Worker;
use mt_disk::{MemDisk, SystemError};
use mt_history::Naming;
use mt_log_files::WorkerFiles;
use mt_recover::LogSlot;
use mt_rows::{
    Column, ColumnIndexes, Command, Key, NamedColumns, Refusal, Reply, StampedRow, TenantPair,
};
use mt_settle::next_generation;
use mt_slots::{Slot, StoreSlots};
use mt_store_logs::{FileImages, StoreLog};
use mt_stored::{Checks, Digests, DueTurn, NoDigests, Store, locked_logs, unlocked_logs};
use std::alloc::{AllocError, Global};
use std::marker::{Brand, Send, Sync};
use std::net::{Net, TcpListener, TcpStream};
use std::process::Abort;
use std::sync::ledger::Ledger;
use std::sync::{Mutex, Wait};
use std::test::Fail;
use std::thread::{self, Threads};
use std::time::{Clock, Duration};
