mod pages;
mod slots;
mod two_slots;
mod vectors;

use self::slots::{Told, VECTOR, read_as, slot_with, told_of};
use mt_checkpoint::read_valid;
use mt_disk::MemDisk;
use mt_rows::key::USER_KEY_BYTES;
use mt_rows::{Column, Key, Row, StampedRow, TenantPair};
use std::alloc::{AllocError, Global};
use std::test::Fail;
