//! What a line is answered, and how it is written.

ghost use Rattle.std.specs.Prelude.{◌≡◌, ◌++◌, OnOk, IfOk, string_bytes};
ghost use Rattle.mt_lines.specs.Text.{columns_asked, index_at, cell_text, row_text, key_text, pairs_text, found_text, reply_text, answer_text, tree_text, IsText, Adds};

use mt_core::ShapeLine;
use mt_operation::Phase;
use mt_rows::{Column, Command, Key, Refusal, Reply, StampedRow};
use mt_runs::Answer;
use std::alloc::{AllocError, Global};

/// What a line is answered.
#[derive(Drop)]
pub enum Response {
    /// The tenant is in the list.
    Taken,
    /// The core refused the line's command or tenant.
    Refused(Refusal),
    /// The operation of this name was begun.
    Begun(u32),
    /// The operation's next phase is the one asked for.
    At(Phase),
    /// The operation moved by one step.
    Moved,
    /// The node is held by the operation of this name.
    Again(u32),
    /// A growth was refused; the operation stands.
    NoMemory,
    /// All step numbers are given.
    Spent,
    /// No operation of this name is open.
    NoSuch,
    /// The operation is done. Its answer shows the stamp of a row that was found, or doesn't.
    Done(Answer, bool),
    /// The tree.
    Shape(Vec<ShapeLine>),
    /// The line is none of the language's, or may not stand here.
    BadLine,
}

/// The text of a response, with the end of its line.
pub fn text_of(alloc: Global, response: &Response) -> Result<String, AllocError>
    ensures { IfOk result (λ text. IsText response.now (string_bytes text)) }
{
    let mut text = String::new(alloc);
    push_response(alloc, &mut text, response)?;
    Ok(text)
}

/// Adds the text of a response, with the end of its line. After an error part of it may stand.
pub fn push_response(
    alloc: Global,
    text: &mut String,
    response: &Response,
) -> Result<(), AllocError>
    ensures { OnOk result (Adds (string_bytes text.old) (string_bytes text.new) (IsText response.now)) }
{
    match response {
        Response::Taken => text.push_str("ok\n"),
        Response::Refused(refusal) => write!(text, "refused {refusal}\n"),
        Response::Begun(name) => write!(text, "begun {name}\n"),
        Response::At(phase) => write!(text, "at {phase}\n"),
        Response::Moved => text.push_str("moved\n"),
        Response::Again(name) => write!(text, "again {name}\n"),
        Response::NoMemory => text.push_str("memory\n"),
        Response::Spent => text.push_str("spent\n"),
        Response::NoSuch => text.push_str("none\n"),
        Response::Done(answer, stamps) => push_answer(alloc, text, answer, *stamps),
        Response::Shape(lines) => push_tree(text, lines),
        Response::BadLine => text.push_str("bad line\n"),
    }
}

// The lines of the tree.
fn push_tree(text: &mut String, lines: &[ShapeLine]) -> Result<(), AllocError>
    ensures { OnOk result (string_bytes text.new ≡ string_bytes text.old ++ tree_text lines.now) }
{
    for line in lines {
        write!(text, "{line}\n")?;
    }
    Ok(())
}

// `done` and the reply, with the stamp of a row that was found or without.
fn push_answer(
    alloc: Global,
    text: &mut String,
    answer: &Answer,
    stamps: bool,
) -> Result<(), AllocError>
    ensures { OnOk result (string_bytes text.new ≡ string_bytes text.old ++ answer_text stamps answer.now) }
{
    text.push_str("done ")?;
    let asked = columns_asked(&answer.command);
    push_reply(alloc, text, stamps, asked, &answer.reply)?;
    text.push_str("\n")
}

// The columns that a command names.
fn columns_asked(command: &Command) -> &[u8]
    ensures { result.now ≡ columns_asked command.now }
{
    match command {
        Command::Get { columns, .. } | Command::Scan { columns, .. } => columns.as_slice(),
        Command::Put { .. } | Command::PutIf { .. } | Command::Remove { .. } => &[],
    }
}

// A reply, where these columns were asked for, with the stamp of a row that was found or without.
fn push_reply(
    alloc: Global,
    text: &mut String,
    stamps: bool,
    asked: &[u8],
    reply: &Reply,
) -> Result<(), AllocError>
    ensures { OnOk result (string_bytes text.new ≡ string_bytes text.old ++ reply_text stamps asked.now reply.now) }
{
    match reply {
        Reply::Absent => text.push_str("absent"),
        Reply::Found(found) => {
            push_found(text, stamps, found.stamp)?;
            push_row(alloc, text, asked, found.row.columns())
        }
        Reply::New => text.push_str("new"),
        Reply::Replaced => text.push_str("replaced"),
        Reply::Full => text.push_str("full"),
        Reply::Removed => text.push_str("removed"),
        Reply::Stale(stamp) => write!(text, "stale {stamp}"),
        Reply::Pairs(list) => push_pairs(alloc, text, asked, list.as_slice()),
        Reply::NoMemory => text.push_str("memory"),
    }
}

// What stands before a row that was found: its stamp too, or not.
fn push_found(text: &mut String, stamps: bool, stamp: u64) -> Result<(), AllocError>
    ensures { OnOk result (string_bytes text.new ≡ string_bytes text.old ++ found_text stamps stamp) }
{
    if stamps {
        write!(text, "found@{stamp} ")
    } else {
        text.push_str("found ")
    }
}

// The number of the pairs, and each as its key and its row.
fn push_pairs(
    alloc: Global,
    text: &mut String,
    asked: &[u8],
    pairs: &[(Key, StampedRow)],
) -> Result<(), AllocError>
    ensures { OnOk result (string_bytes text.new ≡ string_bytes text.old ++ pairs_text asked.now pairs.now) }
{
    let count = pairs.len();
    write!(text, "pairs {count}")?;
    for pair in pairs {
        text.push_str(" ")?;
        push_key(alloc, text, pair.0.as_bytes())?;
        text.push_str(":")?;
        push_row(alloc, text, asked, pair.1.row.columns())?;
    }
    Ok(())
}

// A key, in digits, or `-` for the empty one.
fn push_key(alloc: Global, text: &mut String, key: &[u8]) -> Result<(), AllocError>
    ensures { OnOk result (string_bytes text.new ≡ string_bytes text.old ++ key_text key.now) }
{
    if key.is_empty() {
        return text.push_str("-");
    }
    let digits = hex::encode(alloc, key)?;
    text.push_str(digits.as_str())
}

// The columns of a row, each with its index, with commas between them.
fn push_row(
    alloc: Global,
    text: &mut String,
    asked: &[u8],
    columns: &[Column],
) -> Result<(), AllocError>
    ensures { OnOk result (string_bytes text.new ≡ string_bytes text.old ++ row_text asked.now 0 columns.now) }
{
    for (place, column) in columns.iter().enumerate() {
        if place > 0 {
            text.push_str(",")?;
        }
        push_cell(alloc, text, index_at(asked, place), column.as_bytes())?;
    }
    Ok(())
}

// The index of the column that stands at a place: the one asked for, or the place where all are.
fn index_at(asked: &[u8], place: usize) -> usize
    ensures { result ≡ index_at asked.now place }
{
    asked.get(place).map_or(place, |index| usize::from(*index))
}

// A column with its index.
fn push_cell(
    alloc: Global,
    text: &mut String,
    index: usize,
    column: &[u8],
) -> Result<(), AllocError>
    ensures { OnOk result (string_bytes text.new ≡ string_bytes text.old ++ cell_text index column.now) }
{
    let digits = hex::encode(alloc, column)?;
    write!(text, "{index}={digits}")
}
