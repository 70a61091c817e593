//! The lines of the language, and how one is read.
//!
//! `specs/Line.antt` says which line some bytes are; `parse` answers exactly that.

ghost use Rattle.std.specs.Prelude.{◌≡◌, IfOk, codes};
ghost use Rattle.mt_lines.specs.Words.{Means, words_of, each, column_word};
ghost use Rattle.mt_lines.specs.Line.{index_word, phase_word, phase_in, tenant_line, get_words, put_words, put_if_words, remove_words, after_words, scan_words, command_words, shows_stamps, begin_line, name_alone, until_line, line_of_words, line_of};

use crate::fault::LineFault;
use crate::words;
use mt_operation::{PHASES, Phase};
use mt_rows::{Column, ColumnIndexes, Command, NamedColumns};
use std::alloc::{AllocError, Global};

/// What a line asks for. Operations are named by numbers of 1 to 999,999.
#[derive(Debug, Drop)]
pub enum Line {
    /// Adds a tenant with a quota of pairs.
    Tenant {
        tenant: u32,
        quota: u32,
    },
    /// Begins an operation of this name. Its answer shows the stamp of a row that was found, or
    /// doesn't.
    Begin {
        name: u32,
        tenant: u32,
        command: Command,
        stamps: bool,
    },
    /// One step of the operation.
    Step(u32),
    /// Steps up to the one whose next phase is this.
    Until {
        name: u32,
        phase: Phase,
    },
    /// Steps to the end, or up to where it can't go on.
    Run(u32),
    /// The live trees, as text.
    Shape,
}

/// The line that these bytes are, or none. It needs memory for a command's lists alone.
pub fn parse(alloc: Global, bytes: &[u8]) -> Result<Option<Line>, AllocError>
    ensures { IfOk result (λ line. line ≡ line_of bytes.now) }
{
    match any_line(alloc, bytes) {
        Ok(line) => Ok(Some(line)),
        Err(LineFault::BadLine) => Ok(None),
        Err(LineFault::Memory) => Err(AllocError),
    }
}

#[tactic(auto, unfolding(crate::specs::Line::line_of_words, crate::specs::Line::step_line, crate::specs::Line::run_line, crate::specs::Line::shape_line))]
fn any_line(alloc: Global, bytes: &[u8]) -> Result<Line, LineFault>
    ensures { Means (λ line. line) result (line_of_words (words_of bytes.now)) }
{
    let (verb, rest) = words::next_word(bytes)?;
    if words::is_text(verb, "tenant") {
        tenant(rest)
    } else if words::is_text(verb, "begin") {
        begin(alloc, rest)
    } else if words::is_text(verb, "step") {
        Ok(Line::Step(name_alone(rest)?))
    } else if words::is_text(verb, "until") {
        until(rest)
    } else if words::is_text(verb, "run") {
        Ok(Line::Run(name_alone(rest)?))
    } else if words::is_text(verb, "shape") {
        words::end_of_words(rest)?;
        Ok(Line::Shape)
    } else {
        Err(LineFault::BadLine)
    }
}

#[tactic(auto, unfolding(crate::specs::Line::tenant_line))]
fn tenant(rest: &[u8]) -> Result<Line, LineFault>
    ensures { Means (λ line. line) result (tenant_line (words_of rest.now)) }
{
    let (first, rest) = words::next_word(rest)?;
    let (second, rest) = words::next_word(rest)?;
    words::end_of_words(rest)?;
    let tenant = words::number(first, u32::MAX)?;
    let quota = words::number(second, u32::MAX)?;
    Ok(Line::Tenant { tenant, quota })
}

#[tactic(auto, unfolding(crate::specs::Line::begin_line))]
fn begin(alloc: Global, rest: &[u8]) -> Result<Line, LineFault>
    ensures { Means (λ line. line) result (begin_line (words_of rest.now)) }
{
    let (first, rest) = words::next_word(rest)?;
    let (second, rest) = words::next_word(rest)?;
    let name = words::name(first)?;
    let tenant = words::number(second, u32::MAX)?;
    let command = command(alloc, rest)?;
    let stamps = shows_stamps(rest);
    Ok(Line::Begin {
        name,
        tenant,
        command,
        stamps,
    })
}

// Whether a command's answer shows the stamp of a row: that of `gets` does.
fn shows_stamps(rest: &[u8]) -> bool
    ensures { result ≡ shows_stamps (words_of rest.now) }
{
    match words::next_word(rest) {
        Ok((verb, _)) => words::is_text(verb, "gets"),
        Err(_) => false,
    }
}

#[tactic(auto, unfolding(crate::specs::Line::command_words))]
fn command(alloc: Global, rest: &[u8]) -> Result<Command, LineFault>
    ensures { Means (λ command. command) result (command_words (words_of rest.now)) }
{
    let (verb, rest) = words::next_word(rest)?;
    if words::is_text(verb, "get") || words::is_text(verb, "gets") {
        get(alloc, rest)
    } else if words::is_text(verb, "put") {
        put(alloc, rest)
    } else if words::is_text(verb, "putif") {
        put_if(alloc, rest)
    } else if words::is_text(verb, "remove") {
        remove(alloc, rest)
    } else if words::is_text(verb, "scan") {
        scan(alloc, rest)
    } else {
        Err(LineFault::BadLine)
    }
}

#[tactic(auto, unfolding(crate::specs::Line::get_words))]
fn get(alloc: Global, rest: &[u8]) -> Result<Command, LineFault>
    ensures { Means (λ command. command) result (get_words (words_of rest.now)) }
{
    let (first, rest) = words::next_word(rest)?;
    let key = words::key(alloc, first)?;
    let columns = ColumnIndexes::new(indexes(alloc, rest)?);
    Ok(Command::Get { key, columns })
}

#[tactic(auto, unfolding(crate::specs::Line::put_words))]
fn put(alloc: Global, rest: &[u8]) -> Result<Command, LineFault>
    ensures { Means (λ command. command) result (put_words (words_of rest.now)) }
{
    let (first, rest) = words::next_word(rest)?;
    words::next_word(rest)?;
    let key = words::key(alloc, first)?;
    let change = NamedColumns::new(columns(alloc, rest)?);
    Ok(Command::Put { key, change })
}

#[tactic(auto, unfolding(crate::specs::Line::put_if_words))]
fn put_if(alloc: Global, rest: &[u8]) -> Result<Command, LineFault>
    ensures { Means (λ command. command) result (put_if_words (words_of rest.now)) }
{
    let (first, rest) = words::next_word(rest)?;
    let (second, behind) = words::next_word(rest)?;
    words::next_word(behind)?;
    let key = words::key(alloc, first)?;
    let stamp = words::long_number(second, u64::MAX)?;
    let change = NamedColumns::new(columns(alloc, behind)?);
    Ok(Command::PutIf { key, stamp, change })
}

#[tactic(auto, unfolding(crate::specs::Line::remove_words))]
fn remove(alloc: Global, rest: &[u8]) -> Result<Command, LineFault>
    ensures { Means (λ command. command) result (remove_words (words_of rest.now)) }
{
    let (first, rest) = words::next_word(rest)?;
    words::end_of_words(rest)?;
    let key = words::key(alloc, first)?;
    Ok(Command::Remove { key })
}

#[tactic(auto, unfolding(crate::specs::Line::scan_words))]
fn scan(alloc: Global, rest: &[u8]) -> Result<Command, LineFault>
    ensures { Means (λ command. command) result (scan_words (words_of rest.now)) }
{
    let (first, rest) = words::next_word(rest)?;
    let (second, rest) = words::next_word(rest)?;
    let after = after(rest)?;
    let count = words::number(second, 255)? as u8;
    let from = words::key(alloc, first)?;
    let columns = ColumnIndexes::new(Vec::new(alloc));
    Ok(Command::Scan {
        from,
        after,
        count,
        columns,
    })
}

// Whether a scan begins behind its key: `after`, or nothing more.
fn after(rest: &[u8]) -> Result<bool, LineFault>
    ensures { Means (λ after. after) result (after_words (words_of rest.now)) }
{
    let Ok((word, rest)) = words::next_word(rest) else {
        return Ok(false);
    };
    words::end_of_words(rest)?;
    if words::is_text(word, "after") {
        Ok(true)
    } else {
        Err(LineFault::BadLine)
    }
}

// Columns' indexes, up to the end.
fn indexes(alloc: Global, rest: &[u8]) -> Result<Vec<u8>, LineFault>
    ensures { Means (λ indexes. indexes.items) result (each index_word (words_of rest.now)) }
{
    let mut indexes = Vec::new(alloc);
    let mut left = rest;
    while let Ok((word, behind)) = words::next_word(left) {
        indexes.push(words::number(word, 255)? as u8)?;
        left = behind;
    }
    Ok(indexes)
}

// Columns with their indexes, up to the end.
fn columns(alloc: Global, rest: &[u8]) -> Result<Vec<(u8, Column)>, LineFault>
    ensures { Means (λ columns. columns.items) result (each column_word (words_of rest.now)) }
{
    let mut columns = Vec::new(alloc);
    let mut left = rest;
    while let Ok((word, behind)) = words::next_word(left) {
        columns.push(words::column(alloc, word)?)?;
        left = behind;
    }
    Ok(columns)
}

#[tactic(auto, unfolding(crate::specs::Line::name_alone))]
fn name_alone(rest: &[u8]) -> Result<u32, LineFault>
    ensures { Means (λ name. name) result (name_alone (words_of rest.now)) }
{
    let (first, rest) = words::next_word(rest)?;
    words::end_of_words(rest)?;
    words::name(first)
}

#[tactic(auto, unfolding(crate::specs::Line::until_line, crate::specs::Line::phase_word))]
fn until(rest: &[u8]) -> Result<Line, LineFault>
    ensures { Means (λ line. line) result (until_line (words_of rest.now)) }
{
    let (first, rest) = words::next_word(rest)?;
    let (second, rest) = words::next_word(rest)?;
    words::end_of_words(rest)?;
    let name = words::name(first)?;
    let phase = phase_in(&PHASES, second)?;
    Ok(Line::Until { name, phase })
}

// The first of some phases whose name this is.
fn phase_in(phases: &[Phase], word: &[u8]) -> Result<Phase, LineFault>
    ensures { Means (λ phase. phase) result (phase_in phases.now word.now) }
{
    let found = phases
        .iter()
        .find(|phase| words::is_text(word, phase.name()));
    found.copied().ok_or(LineFault::BadLine)
}
