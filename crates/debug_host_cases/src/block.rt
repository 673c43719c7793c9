//! Blocks of a list of calls: some files, and calls over them and over the files of their folder.
//!
//! | Line | What it says |
//! |---|---|
//! | `# TEXT` | nothing |
//! | `file NAME TEXT` | a file of this name, which begins with this text |
//! | `\| TEXT`, `\|*N TEXT` | the file goes on with a line of this text; with so many of them |
//! | `+ TEXT`, `+*N TEXT` | the same with no line feed behind the text |
//! | `call WORDS` | a call with these words |
//! | `status N` | its status, where that isn't 0 |
//! | `out TEXT`, `out*N TEXT` | a line of its output; so many of them |
//! | `count A B TEXT` | lines of its output with this text and a number, from A to below B |
//! | `output NAME`, `output NAME N` | what a file of the folder has stands in its output; so many first lines of it |
//! | `err TEXT` | a line of what is said of errors |
//! | `fails output N..`, `fails errors N..`, `fails reads N..` | the numbers of writes and reads that fail, from 1 |
//! | `fails port N..` | the numbers of the times that the port fails to be opened or dialled |
//! | `door`, `door N..` | a door of the port; how often it was asked when it fails |
//! | `client`, `client N..` | a client of the last door, or of the port that is dialled; the calls of its link that fail |
//! | `says TEXT`, `says*N TEXT` | the client sends a text; so many of them |
//! | `binary`, `large` | the client sends a binary message, a message above the limit |
//! | `quiet`, `goes`, `waits N`, `waits` | the client is silent once; goes; is silent until gate N is open; stays |
//! | `opens N` | the first text that the client is sent opens gate N |
//! | `sent TEXT`, `sent*N TEXT`, `closed N` | the client was sent that, and closed with that code |

use crate::clients::Entrance;
use crate::folder::{File, content};
use crate::texts::{append, bytes_of, first_lines, take_numbers, words_of};
use cdp_text::decimal::read_decimal;
use std::alloc::{AllocError, Global};

/// A call, and what must come of it.
#[derive(Drop)]
pub(crate) struct Case {
    pub(crate) words: Vec<String>,
    pub(crate) status: u64,
    pub(crate) output: Vec<u8>,
    pub(crate) errors: Vec<u8>,
    /// The numbers of the writes of output that fail, from 1.
    pub(crate) failing_output: Vec<u64>,
    /// The numbers of the writes of errors that fail, from 1.
    pub(crate) failing_errors: Vec<u64>,
    /// The numbers of the reads that fail, from 1.
    pub(crate) failing_reads: Vec<u64>,
    /// The numbers of the times that the port fails to be opened or dialled, from 1.
    pub(crate) failing_port: Vec<u64>,
    /// The port that is dialled.
    pub(crate) dialled: Entrance,
    /// The doors of the port that is opened.
    pub(crate) doors: Vec<Entrance>,
}

/// Files, and calls over them.
#[derive(Drop)]
pub(crate) struct Block {
    pub(crate) files: Vec<File>,
    pub(crate) cases: Vec<Case>,
    /// Lines that are of no form.
    pub(crate) unread: Vec<String>,
}

impl Case {
    /// A call with these words, of which nothing else is said yet.
    fn new(alloc: Global, words: Vec<String>) -> Case {
        Case {
            words,
            status: 0,
            output: Vec::new(alloc),
            errors: Vec::new(alloc),
            failing_output: Vec::new(alloc),
            failing_errors: Vec::new(alloc),
            failing_reads: Vec::new(alloc),
            failing_port: Vec::new(alloc),
            dialled: Entrance::new(alloc),
            doors: Vec::new(alloc),
        }
    }
}

/// Takes what a call is to meet, and answers whether the text says that.
fn take_fails(case: &mut Case, text: &str) -> Result<bool, AllocError> {
    match text.split_once(' ') {
        Some(("output", numbers)) => take_numbers(&mut case.failing_output, numbers),
        Some(("errors", numbers)) => take_numbers(&mut case.failing_errors, numbers),
        Some(("reads", numbers)) => take_numbers(&mut case.failing_reads, numbers),
        Some(("port", numbers)) => take_numbers(&mut case.failing_port, numbers),
        _ => Ok(false),
    }
}

/// The bytes of a file of the folder, or so many first lines of them, as `NAME` or `NAME N` says.
fn stored<'f>(folder: &'f [File], text: &str) -> Option<&'f [u8]> {
    match text.split_once(' ') {
        Some((name, count)) => Some(first_lines(content(folder, name)?, read_decimal(count)?)),
        None => content(folder, text),
    }
}

/// Takes the output that a file of the folder has, and answers whether there is one.
fn take_output(case: &mut Case, folder: &[File], text: &str) -> Result<bool, AllocError> {
    match stored(folder, text) {
        Some(bytes) => case.output.extend_from_slice(bytes).map(|()| true),
        None => Ok(false),
    }
}

/// Takes lines of output with a text and a number each, from one number to below another.
fn take_count(alloc: Global, output: &mut Vec<u8>, text: &str) -> Result<bool, AllocError> {
    let Some((first, behind)) = text.split_once(' ') else {
        return Ok(false);
    };
    let Some((end, text)) = behind.split_once(' ') else {
        return Ok(false);
    };
    let (Some(first), Some(end)) = (read_decimal(first), read_decimal(end)) else {
        return Ok(false);
    };
    for number in first..end {
        let line = format!(in alloc; "{text} {number}\n")?;
        output.extend_from_slice(line.as_bytes())?;
    }
    Ok(true)
}

/// Takes a door, by how often it was asked when it fails.
fn begin_door(alloc: Global, case: &mut Case, text: &str) -> Result<bool, AllocError> {
    let mut door = Entrance::new(alloc);
    let is_read = take_numbers(&mut door.failing, text)?;
    case.doors.push(door)?;
    Ok(is_read)
}

/// Takes a line of the port, and answers whether it is of a form.
fn take_of_port(
    alloc: Global,
    case: &mut Case,
    line: (&str, u64, &str),
) -> Result<bool, AllocError> {
    match case.doors.last_mut() {
        Some(door) => door.take(alloc, line),
        None => case.dialled.take(alloc, line),
    }
}

/// Takes a line behind a call, and answers whether it is of a form.
fn take_of_case(
    alloc: Global,
    case: &mut Case,
    folder: &[File],
    line: (&str, u64, &str),
) -> Result<bool, AllocError> {
    let (key, times, text) = line;
    match key {
        "out" => append(alloc, &mut case.output, text, b"\n", times).map(|()| true),
        "err" => append(alloc, &mut case.errors, text, b"\n", times).map(|()| true),
        "output" => take_output(case, folder, text),
        "count" => take_count(alloc, &mut case.output, text),
        "fails" => take_fails(case, text),
        "status" => {
            case.status = read_decimal(text).unwrap_or(u64::MAX);
            Ok(true)
        }
        "door" => begin_door(alloc, case, text),
        _ => take_of_port(alloc, case, line),
    }
}

/// The key of a line, how many times it counts, and its text. None where it is counted by no number.
fn parts(line: &str) -> Option<(&str, u64, &str)> {
    let (key, text) = line.split_once(' ').unwrap_or((line, ""));
    match key.split_once('*') {
        Some((key, times)) => Some((key, read_decimal(times)?, text)),
        None => Some((key, 1, text)),
    }
}

impl Block {
    /// A block of no lines.
    fn new(alloc: Global) -> Block {
        Block {
            files: Vec::new(alloc),
            cases: Vec::new(alloc),
            unread: Vec::new(alloc),
        }
    }

    /// Takes a line of a file, and answers whether there is a file.
    fn take_of_file(
        &mut self,
        alloc: Global,
        end: &[u8],
        line: (&str, u64, &str),
    ) -> Result<bool, AllocError> {
        match self.files.last_mut() {
            Some(file) => append(alloc, &mut file.1, line.2, end, line.1).map(|()| true),
            None => Ok(false),
        }
    }

    /// Takes a file, by its name and the text that it begins with.
    fn begin_file(&mut self, alloc: Global, text: &str) -> Result<bool, AllocError> {
        let (name, text) = text.split_once(' ').unwrap_or((text, ""));
        let bytes = bytes_of(alloc, text)?;
        self.files.push((String::from_str(alloc, name)?, bytes))?;
        Ok(true)
    }

    /// Takes a call, by its words.
    fn begin_case(&mut self, alloc: Global, text: &str) -> Result<bool, AllocError> {
        let words = words_of(alloc, text)?;
        self.cases.push(Case::new(alloc, words))?;
        Ok(true)
    }

    /// Takes a line, and answers whether it is of a form.
    fn take(&mut self, alloc: Global, folder: &[File], line: &str) -> Result<bool, AllocError> {
        let Some(parts) = parts(line) else {
            return Ok(false);
        };
        match parts.0 {
            "" | "#" => Ok(true),
            "file" => self.begin_file(alloc, parts.2),
            "call" => self.begin_case(alloc, parts.2),
            "|" => self.take_of_file(alloc, b"\n", parts),
            "+" => self.take_of_file(alloc, b"", parts),
            _ => match self.cases.last_mut() {
                Some(case) => take_of_case(alloc, case, folder, parts),
                None => Ok(false),
            },
        }
    }
}

/// The block of these lines, over the files of a folder.
pub(crate) fn read_block(alloc: Global, folder: &[File], text: &str) -> Result<Block, AllocError> {
    let mut block = Block::new(alloc);
    for line in text.split('\n') {
        if !block.take(alloc, folder, line)? {
            block.unread.push(String::from_str(alloc, line)?)?;
        }
    }
    Ok(block)
}
