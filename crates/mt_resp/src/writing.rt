//! How what a client is told is written. Each function leaves what was written before, also if it fails.

ghost use Rattle.std.specs.{Prelude.{◌≡◌, ◌∷◌, ◌++◌, ◌≤◌, ◌<◌, ◌+◌, length, map, take, codes, decimal, OnOk}, List.{All}};
ghost use Rattle.mt_resp.specs.{Grammar.{bulk, line_end}, Strings.value_of};
ghost use Rattle.mt_resp.specs.{Numbers.{number_line, spelling}, Replies.{told_text, kind_text, column_text, fields_from, stamped_text, greeting, picked_text, shown_byte, shown_word}, Refused.{failure_text, fault_text, refusal_text}};

use crate::arguments::Amount;
use crate::lists::{write_range, write_scan};
use crate::stop::Fault;
use crate::strings::{value_len, write_value};
use crate::told::{Failure, Kind, Told};
use itoa::Buffer;
use mt_rows::{Column, Refusal};
use std::alloc::AllocError;

// Who serves: HELLO's list, with the version of the protocol's own server whose commands these are.
const GREETING: &str =
    "*14\r\n$6\r\nserver\r\n$8\r\nrebjauts\r\n$7\r\nversion\r\n$5\r\n7.0.0\r\n$5\r\nproto\r\n:2\r\n$2\r\nid\r\n:0\r\n$4\r\nmode\r\n$10\r\nstandalone\r\n$4\r\nrole\r\n$6\r\nmaster\r\n$7\r\nmodules\r\n*0\r\n";

impl Kind {
    /// How it is told.
    pub fn text(self) -> &'static str
        ensures { result.now ≡ kind_text self }
    {
        match self {
            Kind::Nothing => "+none\r\n",
            Kind::String => "+string\r\n",
            Kind::Hash => "+hash\r\n",
        }
    }
}

impl Failure {
    /// How it is told: a line that begins with `-`.
    pub fn text(self) -> &'static str
        ensures { result.now ≡ failure_text self }
    {
        match self {
            Failure::Syntax => "-ERR syntax error\r\n",
            Failure::NoInteger => "-ERR value is not an integer or out of range\r\n",
            Failure::Overflow => "-ERR increment or decrement would overflow\r\n",
            Failure::Busy => "-BUSY the row was changed 64 times meanwhile; try again\r\n",
            Failure::NoField => "-ERR a field is the index of a column, 0 to 15\r\n",
            Failure::NoNumber => "-ERR invalid DB index\r\n",
            Failure::LongString => "-ERR a string has at most 15359 bytes\r\n",
            Failure::NoExpiry => "-ERR nothing expires here\r\n",
            Failure::NoTransactions =>
                "-ERR no transactions here; send a pipeline without MULTI\r\n",
            Failure::NoScripts => "-ERR no scripts here; GETS and PUTIF change a row exactly\r\n",
            Failure::NoChannels => "-ERR no channels here\r\n",
            Failure::NoConfig => "-ERR the server is configured by its command line\r\n",
            Failure::NoPassword => "-ERR there are no passwords here; SELECT the tenant\r\n",
            Failure::NoProtocol => "-NOPROTO unsupported protocol version\r\n",
            Failure::Protocol(fault) => fault_line(fault),
            Failure::NoCursor => "-ERR invalid cursor\r\n",
            Failure::OverQuota => "-OOM the tenant has as many pairs as its quota\r\n",
            Failure::NoMemory => "-OOM no memory; nothing changed\r\n",
            Failure::Refused(refusal) => refusal_line(refusal),
            Failure::Strange => "-ERR the store gave another command's answer\r\n",
        }
    }
}

fn fault_line(fault: Fault) -> &'static str
    ensures { result.now ≡ fault_text fault }
{
    match fault {
        Fault::Spelling => "-ERR Protocol error\r\n",
        Fault::ManyWords => "-ERR Protocol error: a command has at most 1024 words\r\n",
        Fault::Long => "-ERR Protocol error: a command has at most 65536 bytes\r\n",
    }
}

fn refusal_line(refusal: Refusal) -> &'static str
    ensures { result.now ≡ refusal_text refusal }
{
    match refusal {
        Refusal::KeyLong => "-ERR E1 a key has at most 251 bytes\r\n",
        Refusal::Memory => "-OOM E2 no memory; nothing changed\r\n",
        Refusal::NoTenant(_) => "-ERR E4 this tenant isn't served; SELECT another\r\n",
        Refusal::Column => "-ERR E5 a field is the index of a column, each named once\r\n",
        Refusal::ColumnLong => "-ERR E6 a column has at most 1024 bytes\r\n",
        Refusal::ScanCount => "-ERR E8 a scan shows 1 to 64 keys\r\n",
        Refusal::Spent => "-ERR E9 all steps have been made\r\n",
        Refusal::Device => "-MISCONF E10 the disk failed\r\n",
        Refusal::NoStore => "-ERR E20 nothing is kept on disk\r\n",
        _ => "-ERR refused\r\n",
    }
}

/// Writes what a client is told at the end.
pub fn write_told(told: &Told, out: &mut Vec<u8>) -> Result<(), AllocError>
    ensures ok { OnOk result (out.new.items ≡ out.old.items ++ told_text told.now) }
    ensures front { take (length out.old.items) out.new.items ≡ out.old.items }
{
    match told {
        Told::Nothing => Ok(()),
        Told::Fine => out.extend_from_slice(b"+OK\r\n"),
        Told::Pong => out.extend_from_slice(b"+PONG\r\n"),
        Told::Reset => out.extend_from_slice(b"+RESET\r\n"),
        Told::Settled => out.extend_from_slice(b"*2\r\n:1\r\n:0\r\n"),
        Told::Greeting => out.extend_from_slice(GREETING.as_bytes()),
        Told::Nil => out.extend_from_slice(b"$-1\r\n"),
        Told::Empty => out.extend_from_slice(b"*0\r\n"),
        Told::Number(number) => write_number(b':', *number, out),
        Told::Signed(number) => write_signed(*number, out),
        Told::Time { seconds, micros } => write_time(*seconds, *micros, out),
        Told::Text(text) => write_bulk(text.as_bytes(), out),
        Told::Kind(kind) => out.extend_from_slice(kind.text().as_bytes()),
        Told::Value(row) => write_string(row.row.columns(), out),
        Told::Stamped(row) => write_stamped(row.row.columns(), row.stamp, out),
        Told::Column(row, index) => write_column(row.row.columns(), *index, out),
        Told::Picked(Some(row), indexes) => {
            write_picked(row.row.columns(), indexes.as_slice(), out)
        }
        Told::Picked(None, indexes) => write_picked(&[], indexes.as_slice(), out),
        Told::Fields(row) => write_fields(row.row.columns(), out),
        Told::Keys(cursor, pairs, pattern) => write_scan(*cursor, pairs, pattern, out),
        Told::Pairs(pairs, prefix, stamps) => write_range(pairs, prefix, *stamps, out),
        Told::Unknown(word) => {
            write_refused(b"-ERR unknown command '", word.as_bytes(), b"'\r\n", out)
        }
        Told::Arity(word) => write_refused(
            b"-ERR wrong number of arguments for '",
            word.as_bytes(),
            b"' command\r\n",
            out,
        ),
        Told::Failed(failure) => out.extend_from_slice(failure.text().as_bytes()),
    }
}

/// A sign, a number, and the end of the line.
pub fn write_number(sign: u8, number: u64, out: &mut Vec<u8>) -> Result<(), AllocError>
    ensures ok { OnOk result (out.new.items ≡ out.old.items ++ number_line sign number) }
    ensures front { take (length out.old.items) out.new.items ≡ out.old.items }
{
    let mut buffer = Buffer::new();
    out.push(sign)?;
    out.extend_from_slice(buffer.format(number).as_bytes())?;
    out.extend_from_slice(b"\r\n")
}

// A signed number on a line of its own.
fn write_signed(number: Amount, out: &mut Vec<u8>) -> Result<(), AllocError>
    ensures ok { OnOk result (out.new.items ≡ out.old.items ++ 58 ∷ (spelling number ++ line_end)) }
    ensures front { take (length out.old.items) out.new.items ≡ out.old.items }
{
    out.push(b':')?;
    number.write(out)?;
    out.extend_from_slice(b"\r\n")
}

// A list of the seconds and microseconds of a time.
fn write_time(seconds: u64, micros: u32, out: &mut Vec<u8>) -> Result<(), AllocError>
    ensures ok { OnOk result (out.new.items ≡ out.old.items ++ (codes "*2\r\n" ++ (bulk (decimal seconds) ++ bulk (decimal micros)))) }
    ensures front { take (length out.old.items) out.new.items ≡ out.old.items }
{
    out.extend_from_slice(b"*2\r\n")?;
    write_decimal(seconds, out)?;
    write_decimal(u64::from(micros), out)
}

/// A number as a bulk string.
pub fn write_decimal(number: u64, out: &mut Vec<u8>) -> Result<(), AllocError>
    ensures ok { OnOk result (out.new.items ≡ out.old.items ++ bulk (decimal number)) }
    ensures front { take (length out.old.items) out.new.items ≡ out.old.items }
{
    let mut buffer = Buffer::new();
    write_bulk(buffer.format(number).as_bytes(), out)
}

/// A bulk string.
pub fn write_bulk(text: &[u8], out: &mut Vec<u8>) -> Result<(), AllocError>
    ensures ok { OnOk result (out.new.items ≡ out.old.items ++ bulk text.now) }
    ensures front { take (length out.old.items) out.new.items ≡ out.old.items }
{
    write_number(b'$', text.len() as u64, out)?;
    out.extend_from_slice(text)?;
    out.extend_from_slice(b"\r\n")
}

/// The string of a row's columns.
pub fn write_string(columns: &[Column], out: &mut Vec<u8>) -> Result<(), AllocError>
    requires few { length columns.now ≤ 16 }
    requires short { All (λ column. length column ≤ 1024) columns.now }
    ensures ok { OnOk result (out.new.items ≡ out.old.items ++ bulk (value_of columns.now)) }
    ensures front { take (length out.old.items) out.new.items ≡ out.old.items }
{
    write_number(b'$', value_len(columns) as u64, out)?;
    write_value(columns, out)?;
    out.extend_from_slice(b"\r\n")
}

// A list of the string of a row's columns and the row's stamp.
fn write_stamped(columns: &[Column], stamp: u64, out: &mut Vec<u8>) -> Result<(), AllocError>
    requires few { length columns.now ≤ 16 }
    requires short { All (λ column. length column ≤ 1024) columns.now }
    ensures ok { OnOk result (out.new.items ≡ out.old.items ++ stamped_text columns.now stamp) }
    ensures front { take (length out.old.items) out.new.items ≡ out.old.items }
{
    out.extend_from_slice(b"*2\r\n")?;
    write_string(columns, out)?;
    write_number(b':', stamp, out)
}

// A column of a row, nil past its end.
fn write_column(columns: &[Column], index: u8, out: &mut Vec<u8>) -> Result<(), AllocError>
    ensures ok { OnOk result (out.new.items ≡ out.old.items ++ column_text columns.now index) }
    ensures front { take (length out.old.items) out.new.items ≡ out.old.items }
{
    match columns.get(usize::from(index)) {
        Some(column) => write_bulk(column.as_bytes(), out),
        None => out.extend_from_slice(b"$-1\r\n"),
    }
}

// A list of columns of a row.
fn write_picked(columns: &[Column], indexes: &[u8], out: &mut Vec<u8>) -> Result<(), AllocError>
    ensures ok { OnOk result (out.new.items ≡ out.old.items ++ picked_text columns.now indexes.now) }
    ensures front { take (length out.old.items) out.new.items ≡ out.old.items }
{
    write_number(b'*', indexes.len() as u64, out)?;
    for index in indexes {
        write_column(columns, *index, out)?;
    }
    Ok(())
}

// All columns of a row, each after its index.
fn write_fields(columns: &[Column], out: &mut Vec<u8>) -> Result<(), AllocError>
    requires { length columns.now ≤ 16 }
    ensures ok { OnOk result (out.new.items ≡ out.old.items ++ (number_line 42 (length columns.now + length columns.now) ++ fields_from 0 columns.now)) }
    ensures front { take (length out.old.items) out.new.items ≡ out.old.items }
{
    write_number(b'*', (columns.len() + columns.len()) as u64, out)?;
    for index in 0..columns.len() {
        write_field(index as u64, columns[index].as_bytes(), out)?;
    }
    Ok(())
}

// A column after its index.
fn write_field(index: u64, text: &[u8], out: &mut Vec<u8>) -> Result<(), AllocError>
    ensures ok { OnOk result (out.new.items ≡ out.old.items ++ (bulk (decimal index) ++ bulk text.now)) }
    ensures front { take (length out.old.items) out.new.items ≡ out.old.items }
{
    write_decimal(index, out)?;
    write_bulk(text, out)
}

// A line about a word that a client sent.
fn write_refused(
    front: &[u8],
    word: &[u8],
    back: &[u8],
    out: &mut Vec<u8>,
) -> Result<(), AllocError>
    ensures ok { OnOk result (out.new.items ≡ out.old.items ++ (front.now ++ (shown_word word.now ++ back.now))) }
    ensures front { take (length out.old.items) out.new.items ≡ out.old.items }
{
    out.extend_from_slice(front)?;
    write_shown(front_of(word), out)?;
    out.extend_from_slice(back)
}

// At most 64 bytes of a word.
fn front_of(word: &[u8]) -> &[u8]
    ensures { result.now ≡ take 64 word.now }
{
    if word.len() > 64 { &word[..64] } else { word }
}

// Bytes as they are shown in a line.
fn write_shown(bytes: &[u8], out: &mut Vec<u8>) -> Result<(), AllocError>
    ensures ok { OnOk result (out.new.items ≡ out.old.items ++ map shown_byte bytes.now) }
    ensures front { take (length out.old.items) out.new.items ≡ out.old.items }
{
    for byte in bytes {
        out.push(shown_byte(*byte))?;
    }
    Ok(())
}

// A byte as it is shown in a line: a question mark if it can't be printed.
fn shown_byte(byte: u8) -> u8
    ensures { result ≡ shown_byte byte }
{
    match byte {
        32..=126 => byte.to_ascii_lowercase(),
        _ => b'?',
    }
}
