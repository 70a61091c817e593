mod checkpoints;
mod clients;
mod fake_folders;
mod folders;
mod servers;
mod stores;
mod verified;
mod words;
mod workers;

use self::clients::{
    GET, GET_NONE, OPEN, PUT, PUT_OTHER, SETTLE, SETTLE_6, Told, WAIT, are_told, connect,
    connected, is_told,
};
use self::folders::{SPARE, opened};
use self::stores::{LOG, NEXT_LOG, new_store, serve_beside, serve_told};
use self::words::options_of;
use log::Log;
use mt_disk::MemDisk;
use mt_rows::Refusal;
use mt_service::{OpenStore, ServerFault};
use mt_slots::Slot;
use mt_store_files::{FolderFile, StoreFault, StoreFile, StoreFolder};
use mt_store_logs::StoreLog;
use mt_stored::{NoDigests, Store};
use std::alloc::{Alloc, AllocError, Global};
use std::fs::File;
use std::io::ErrorKind;
use std::marker::Sync;
use std::net::{Net, TcpListener, TcpStream};
use std::process::Abort;
use std::rt::Files;
use std::sync::Wait;
use std::test::Fail;
use std::thread::Threads;
use std::time::Clock;
use std::{fs, io, thread};

/// What most servers in tests take of the system: threads, the clock and a log. Sockets and files are named beside it.
pub trait Host: Threads + Wait + Clock + Log + Abort + Sync {}

impl<R: Threads + Wait + Clock + Log + Abort + Sync> Host for R {}
