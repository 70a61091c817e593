//! Requests as bytes.

ghost use Rattle.std.specs.{Prelude.{◌≡◌, ◌↔◌, ◌≤◌, ◌<◌, ◌*◌, ◌^◌, ◌++◌, length, take, IsTrue, IfOk, IsOk, OnOk, OnErr, ◌∷◌}, List.All};
ghost use Rattle.mt_fields.specs.{Reading.{Gives, each_at}, Fields.string};
ghost use Rattle.mt_wire.specs.Requests.{asked_columns, named_column, named_columns, command_body, request_body, spelling, CommandFits, RequestFits, IsSpellable};
ghost use Rattle.mt_wire.specs.RequestReading.{start_at, asked_at, named_column_at, named_columns_at, open_at, get_at, put_at, remove_at, scan_at, kind_at, request_in, get_stamped_at, put_if_at};
ghost use Rattle.mt_wire.specs.Fronts.{IsFront};
ghost use Rattle.mt_rows.specs.declared.command.Command.{Command};

use crate::fault::{DecodeFault, EncodeFault};
use crate::frame::{Announced, LENGTH_BYTES, put_length, read_length};
use crate::message::{Front, Request};
use mt_fields::{
    put_string, put_u32, put_u64, slice_of, string_of, text_of, u8_at, u32_at, u64_at,
};
use mt_rows::{Column, ColumnIndexes, Command, Key, NamedColumns};
use std::alloc::{AllocError, Global};

/// The longest body of a request's frame.
pub const REQUEST_BYTES: usize = 32_768;

/// What stands at the front of these bytes. Only a refused growth is an error.
pub fn decode(alloc: Global, bytes: &[u8]) -> Result<Front, AllocError>
    ensures { IfOk result (IsFront bytes.now) }
{
    match read_length(bytes, REQUEST_BYTES) {
        Announced::Partial => Ok(Front::Partial),
        Announced::Bad => Ok(Front::Bad),
        Announced::Body(len) => {
            let (_, rest) = bytes.split_at(LENGTH_BYTES);
            let (body, _) = rest.split_at(len);
            match request_of(alloc, body) {
                Ok(request) => Ok(Front::Whole(request, LENGTH_BYTES + len)),
                Err(DecodeFault::Bad) => Ok(Front::Bad),
                Err(DecodeFault::Memory) => Err(AllocError),
            }
        }
    }
}

/// Writes a request's frame at the end. An error leaves what was written before; `Long` comes
/// exactly where the request has no spelling.
pub fn encode_request(request: &Request, out: &mut Vec<u8>) -> Result<(), EncodeFault>
    ensures ok { OnOk result (out.new.items ≡ out.old.items ++ spelling request.now) }
    ensures spellable { IsOk result → IsSpellable request.now }
    ensures err { OnErr result (out.new.items ≡ out.old.items) }
    ensures long { (result ≡ Err EncodeFault.Long) ↔ (¬ IsSpellable request.now) }
{
    if !request.is_spellable() {
        return Err(EncodeFault::Long);
    }
    let len = out.len();
    match put_request(out, request) {
        Ok(()) => Ok(()),
        Err(_) => {
            out.truncate(len);
            Err(EncodeFault::Memory)
        }
    }
}

impl Request {
    /// Whether it has a spelling: the lengths of its fields fit their bytes, and its body has at most
    /// 32,768 bytes.
    pub fn is_spellable(&self) -> bool
        ensures { IsTrue result ↔ IsSpellable self.now }
    {
        fields_fit(self) && body_len(self) <= REQUEST_BYTES
    }
}

// Where a scan starts.
fn start_of(bytes: &[u8]) -> Result<(bool, &[u8]), DecodeFault>
    ensures { Gives (λ x. (x.0, x.1.now)) result (start_at bytes.now) }
{
    match bytes {
        [] => Err(DecodeFault::Bad),
        [0, rest @ ..] => Ok((false, rest)),
        [1, rest @ ..] => Ok((true, rest)),
        [_, ..] => Err(DecodeFault::Bad),
    }
}

#[tactic(auto, unfolding(crate::specs::RequestReading::asked_at))]
fn asked_of(alloc: Global, bytes: &[u8]) -> Result<(ColumnIndexes, &[u8]), DecodeFault>
    ensures { Gives (λ x. (x.0, x.1.now)) result (asked_at bytes.now) }
{
    let (count, rest) = u8_at(bytes)?;
    let (indexes, rest) = slice_of(usize::from(count), rest)?;
    let indexes = Vec::from_slice(alloc, indexes)?;
    Ok((ColumnIndexes::new(indexes), rest))
}

#[tactic(auto, unfolding(crate::specs::RequestReading::named_column_at))]
fn named_column_of(alloc: Global, bytes: &[u8]) -> Result<((u8, Column), &[u8]), DecodeFault>
    ensures { Gives (λ x. (x.0, x.1.now)) result (named_column_at bytes.now) }
{
    let (index, rest) = u8_at(bytes)?;
    let (text, rest) = text_of(rest)?;
    Ok(((index, Column::from_slice(alloc, text)?), rest))
}

fn columns_of(
    alloc: Global,
    count: u8,
    bytes: &[u8],
) -> Result<(Vec<(u8, Column)>, &[u8]), DecodeFault>
    ensures { Gives (λ x. (x.0.items, x.1.now)) result (each_at named_column_at count bytes.now) }
{
    let mut columns = Vec::with_capacity(alloc, usize::from(count))?;
    let mut rest = bytes;
    for _ in 0..count {
        let (column, after) = named_column_of(alloc, rest)?;
        columns.push(column)?;
        rest = after;
    }
    Ok((columns, rest))
}

#[tactic(auto, unfolding(crate::specs::RequestReading::named_columns_at))]
fn named_columns_of(alloc: Global, bytes: &[u8]) -> Result<(NamedColumns, &[u8]), DecodeFault>
    ensures { Gives (λ x. (x.0, x.1.now)) result (named_columns_at bytes.now) }
{
    let (count, rest) = u8_at(bytes)?;
    let (columns, rest) = columns_of(alloc, count, rest)?;
    Ok((NamedColumns::new(columns), rest))
}

#[tactic(auto, unfolding(crate::specs::RequestReading::open_at))]
fn open_of(bytes: &[u8]) -> Result<(Request, &[u8]), DecodeFault>
    ensures { Gives (λ x. (x.0, x.1.now)) result (open_at bytes.now) }
{
    let (tenant, rest) = u32_at(bytes)?;
    Ok((Request::Open(tenant), rest))
}

#[tactic(auto, unfolding(crate::specs::RequestReading::get_at))]
fn get_of(alloc: Global, bytes: &[u8]) -> Result<(Request, &[u8]), DecodeFault>
    ensures { Gives (λ x. (x.0, x.1.now)) result (get_at bytes.now) }
{
    let (key, rest) = string_of(alloc, bytes)?;
    let key = Key::new(key);
    let (columns, rest) = asked_of(alloc, rest)?;
    Ok((Request::Call(Command::Get { key, columns }), rest))
}

#[tactic(auto, unfolding(crate::specs::RequestReading::put_at))]
fn put_of(alloc: Global, bytes: &[u8]) -> Result<(Request, &[u8]), DecodeFault>
    ensures { Gives (λ x. (x.0, x.1.now)) result (put_at bytes.now) }
{
    let (key, rest) = string_of(alloc, bytes)?;
    let key = Key::new(key);
    let (change, rest) = named_columns_of(alloc, rest)?;
    Ok((Request::Call(Command::Put { key, change }), rest))
}

#[tactic(auto, unfolding(crate::specs::RequestReading::put_if_at))]
fn put_if_of(alloc: Global, bytes: &[u8]) -> Result<(Request, &[u8]), DecodeFault>
    ensures { Gives (λ x. (x.0, x.1.now)) result (put_if_at bytes.now) }
{
    let (key, rest) = string_of(alloc, bytes)?;
    let key = Key::new(key);
    let (stamp, rest) = u64_at(rest)?;
    let (change, rest) = named_columns_of(alloc, rest)?;
    Ok((Request::Call(Command::PutIf { key, stamp, change }), rest))
}

#[tactic(auto, unfolding(crate::specs::RequestReading::get_stamped_at))]
fn get_stamped_of(alloc: Global, bytes: &[u8]) -> Result<(Request, &[u8]), DecodeFault>
    ensures { Gives (λ x. (x.0, x.1.now)) result (get_stamped_at bytes.now) }
{
    let (key, rest) = string_of(alloc, bytes)?;
    let key = Key::new(key);
    let (columns, rest) = asked_of(alloc, rest)?;
    Ok((Request::GetStamped { key, columns }, rest))
}

#[tactic(auto, unfolding(crate::specs::RequestReading::remove_at))]
fn remove_of(alloc: Global, bytes: &[u8]) -> Result<(Request, &[u8]), DecodeFault>
    ensures { Gives (λ x. (x.0, x.1.now)) result (remove_at bytes.now) }
{
    let (key, rest) = string_of(alloc, bytes)?;
    let key = Key::new(key);
    Ok((Request::Call(Command::Remove { key }), rest))
}

#[tactic(auto, unfolding(crate::specs::RequestReading::scan_at))]
fn scan_of(alloc: Global, bytes: &[u8]) -> Result<(Request, &[u8]), DecodeFault>
    ensures { Gives (λ x. (x.0, x.1.now)) result (scan_at bytes.now) }
{
    let (after, rest) = start_of(bytes)?;
    let (from, rest) = string_of(alloc, rest)?;
    let from = Key::new(from);
    let (count, rest) = u8_at(rest)?;
    let (columns, rest) = asked_of(alloc, rest)?;
    let command = Command::Scan {
        from,
        after,
        count,
        columns,
    };
    Ok((Request::Call(command), rest))
}

#[tactic(auto, unfolding(crate::specs::RequestReading::kind_at))]
fn kind_of(alloc: Global, kind: u8, rest: &[u8]) -> Result<(Request, &[u8]), DecodeFault>
    ensures { Gives (λ x. (x.0, x.1.now)) result (kind_at kind rest.now) }
{
    match kind {
        1 => open_of(rest),
        2 => get_of(alloc, rest),
        3 => put_of(alloc, rest),
        4 => remove_of(alloc, rest),
        5 => scan_of(alloc, rest),
        6 => Ok((Request::Settle, rest)),
        7 => get_stamped_of(alloc, rest),
        8 => put_if_of(alloc, rest),
        _ => Err(DecodeFault::Bad),
    }
}

#[tactic(auto, unfolding(crate::specs::RequestReading::request_in))]
fn request_of(alloc: Global, bytes: &[u8]) -> Result<Request, DecodeFault>
    ensures { Gives (λ r. r) result (request_in bytes.now) }
{
    let (kind, rest) = u8_at(bytes)?;
    let (request, rest) = kind_of(alloc, kind, rest)?;
    if !rest.is_empty() {
        return Err(DecodeFault::Bad);
    }
    Ok(request)
}

// Whether the lengths of a request's fields fit their bytes.
fn fields_fit(request: &Request) -> bool
    ensures { IsTrue result ↔ RequestFits request.now }
{
    match request {
        Request::Open(tenant) => {
            // For the proof: a tenant fits its four bytes.
            let _tenant = *tenant;
            true
        }
        Request::Call(Command::Get { key, columns }) | Request::GetStamped { key, columns } => {
            string_fits(key.as_bytes()) && columns.as_slice().len() < 256
        }
        Request::Call(Command::Put { key, change }) => {
            string_fits(key.as_bytes()) && columns_fit(change.as_slice())
        }
        Request::Call(Command::PutIf { key, stamp, change }) => {
            // Read, so that the proof knows its range.
            let _stamp = *stamp;
            string_fits(key.as_bytes()) && columns_fit(change.as_slice())
        }
        Request::Call(Command::Remove { key }) => string_fits(key.as_bytes()),
        Request::Call(Command::Scan { from, columns, .. }) => {
            string_fits(from.as_bytes()) && columns.as_slice().len() < 256
        }
        Request::Settle => true,
    }
}

fn string_fits(text: &[u8]) -> bool
    ensures { IsTrue result ↔ length text.now < 2 ^ 16 }
{
    text.len() < 65_536
}

fn columns_fit(columns: &[(u8, Column)]) -> bool
    ensures { IsTrue result ↔ ((length columns.now < 2 ^ 8) × All (λ c. length c.1 < 2 ^ 16) columns.now) }
{
    columns.len() < 256
        && columns
            .iter()
            .all(|named| named.1.as_bytes().len() < 65_536)
}

// How many bytes a request's body has.
fn body_len(request: &Request) -> usize
    requires { RequestFits request.now }
    ensures { result ≡ length (request_body request.now) }
{
    match request {
        Request::Open(_) => 5,
        Request::Call(Command::Get { key, columns }) | Request::GetStamped { key, columns } => {
            4 + key.as_bytes().len() + columns.as_slice().len()
        }
        Request::Call(Command::Put { key, change }) => {
            3 + key.as_bytes().len() + named_len(change.as_slice())
        }
        Request::Call(Command::PutIf { key, change, .. }) => {
            11 + key.as_bytes().len() + named_len(change.as_slice())
        }
        Request::Call(Command::Remove { key }) => 3 + key.as_bytes().len(),
        Request::Call(Command::Scan { from, columns, .. }) => {
            6 + from.as_bytes().len() + columns.as_slice().len()
        }
        Request::Settle => 1,
    }
}

// How many bytes columns by index are spelled with.
fn named_len(columns: &[(u8, Column)]) -> usize
    requires few { length columns.now < 2 ^ 8 }
    requires short { All (λ c. length c.1 < 2 ^ 16) columns.now }
    ensures exact { result ≡ length (named_columns columns.now) }
    ensures small { result ≤ 2 ^ 25 }
{
    let mut len = 1;
    for named in columns {
        len += 3 + named.1.as_bytes().len();
    }
    len
}

// A request's frame, or a beginning of it.
fn put_request(out: &mut Vec<u8>, request: &Request) -> Result<(), AllocError>
    requires { IsSpellable request.now }
    ensures ok { OnOk result (out.new.items ≡ out.old.items ++ spelling request.now) }
    ensures front { take (length out.old.items) out.new.items ≡ out.old.items }
{
    put_length(out, body_len(request))?;
    match request {
        Request::Open(tenant) => {
            out.push(1)?;
            put_u32(out, *tenant)
        }
        Request::Call(command) => put_command(out, command),
        Request::GetStamped { key, columns } => put_get(out, 7, key, columns),
        Request::Settle => {
            out.push(6)?;
            Ok(())
        }
    }
}

// The body of a command's frame.
fn put_command(out: &mut Vec<u8>, command: &Command) -> Result<(), AllocError>
    requires { CommandFits command.now }
    ensures ok { OnOk result (out.new.items ≡ out.old.items ++ command_body command.now) }
    ensures front { take (length out.old.items) out.new.items ≡ out.old.items }
{
    match command {
        Command::Get { key, columns } => put_get(out, 2, key, columns),
        Command::Put { key, change } => {
            out.push(3)?;
            put_string(out, key.as_bytes())?;
            put_named_columns(out, change.as_slice())
        }
        Command::PutIf { key, stamp, change } => put_put_if(out, key, *stamp, change),
        Command::Remove { key } => {
            out.push(4)?;
            put_string(out, key.as_bytes())
        }
        Command::Scan {
            from,
            after,
            count,
            columns,
        } => {
            out.extend_from_slice(&[5, u8::from(*after)])?;
            put_string(out, from.as_bytes())?;
            out.push(*count)?;
            put_indexes(out, columns.as_slice())
        }
    }
}

// The body of a get's frame, by its first byte.
fn put_get(
    out: &mut Vec<u8>,
    kind: u8,
    key: &Key,
    columns: &ColumnIndexes,
) -> Result<(), AllocError>
    requires key { length key.now < 2 ^ 16 }
    requires columns { length columns.now < 2 ^ 8 }
    ensures ok { OnOk result (out.new.items ≡ out.old.items ++ (kind ∷ (string key.now ++ asked_columns columns.now))) }
    ensures front { take (length out.old.items) out.new.items ≡ out.old.items }
{
    out.push(kind)?;
    put_string(out, key.as_bytes())?;
    put_indexes(out, columns.as_slice())
}

// The body of a put's frame that asks for a stamp.
fn put_put_if(
    out: &mut Vec<u8>,
    key: &Key,
    stamp: u64,
    change: &NamedColumns,
) -> Result<(), AllocError>
    requires { CommandFits (Command.PutIf key.now stamp change.now) }
    ensures ok { OnOk result (out.new.items ≡ out.old.items ++ command_body (Command.PutIf key.now stamp change.now)) }
    ensures front { take (length out.old.items) out.new.items ≡ out.old.items }
{
    out.push(8)?;
    put_string(out, key.as_bytes())?;
    put_u64(out, stamp)?;
    put_named_columns(out, change.as_slice())
}

// The indexes of columns that are asked for.
fn put_indexes(out: &mut Vec<u8>, indexes: &[u8]) -> Result<(), AllocError>
    requires { length indexes.now < 2 ^ 8 }
    ensures ok { OnOk result (out.new.items ≡ out.old.items ++ asked_columns indexes.now) }
    ensures front { take (length out.old.items) out.new.items ≡ out.old.items }
{
    out.push(indexes.len() as u8)?;
    out.extend_from_slice(indexes)
}

// Columns by index.
fn put_named_columns(out: &mut Vec<u8>, columns: &[(u8, Column)]) -> Result<(), AllocError>
    requires few { length columns.now < 2 ^ 8 }
    requires short { All (λ c. length c.1 < 2 ^ 16) columns.now }
    ensures ok { OnOk result (out.new.items ≡ out.old.items ++ named_columns columns.now) }
    ensures front { take (length out.old.items) out.new.items ≡ out.old.items }
{
    out.push(columns.len() as u8)?;
    for named in columns {
        put_named_column(out, named.0, named.1.as_bytes())?;
    }
    Ok(())
}

// A column by its index.
fn put_named_column(out: &mut Vec<u8>, index: u8, text: &[u8]) -> Result<(), AllocError>
    requires { length text.now < 2 ^ 16 }
    ensures ok { OnOk result (out.new.items ≡ out.old.items ++ named_column (index, text.now)) }
    ensures front { take (length out.old.items) out.new.items ≡ out.old.items }
{
    out.push(index)?;
    put_string(out, text)
}
