mod order;
mod resp;
mod rows;
mod slices;
mod tape;
mod version;

use mt_rows::{Column, ColumnIndexes, Refusal, Reply, Row, StampedRow};
use std::alloc::{AllocError, Global};
use std::process::Abort;
