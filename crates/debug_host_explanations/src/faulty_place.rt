//! Why a script can't go on at a place.

use crate::ends::{bad_reason, end_reason};
use crate::excerpt::push_excerpt;
use crate::files::KeptFile;
use crate::reason::Reason;
use crate::shown::Cut;
use crate::tokens::{Spelled, names_next, token_reason};
use crate::walk::Walk;
use cdp_text::position::{Pos, offset_at, pos_at};
use cdp_text::units::{Units, text_of, units_of};
use js_lexer::token::{Token, TokenKind};
use js_lexer::tokens::Tokens;
use std::alloc::{AllocError, Global};

/// The most units of a source whose positions are told.
const MOST_UNITS: usize = 1 << 31;

/// The most units of an operator.
const MOST_OPERATOR: usize = 4;

/// Why a file can't go on as a script at this position, behind these scripts, and the line of that place. Nothing where
/// the file has no such position.
///
/// # Errors
///
/// There is no memory for the lines.
pub(crate) fn place_lines(
    alloc: Global,
    file: &KeptFile,
    earlier: &[KeptFile],
    at: Pos,
) -> Result<String, AllocError> {
    let Some(source) = source_of(alloc, file)? else {
        return Ok(String::new(alloc));
    };
    let Some(offset) = offset_at(source.as_slice(), at) else {
        return Ok(String::new(alloc));
    };
    let name = Cut::none(&file.name);
    let line = at.line.saturating_add(1);
    let column = at.col.saturating_add(1);
    let mut lines = format!(in alloc; "  {name}:{line}:{column}: ")?;
    push_reason(alloc, &mut lines, source.as_slice(), earlier, offset)?;
    push_excerpt(alloc, &mut lines, source.as_slice(), offset)?;
    Ok(lines)
}

/// The units of a file, where they are a text and not too many.
fn source_of(alloc: Global, file: &KeptFile) -> Result<Option<Units>, AllocError> {
    match str::from_utf8(&file.bytes) {
        Ok(text) if text.len() < MOST_UNITS => Ok(Some(units_of(alloc, text)?)),
        _ => Ok(None),
    }
}

/// Adds why a source can't go on behind so many units, and ends the line.
fn push_reason(
    alloc: Global,
    lines: &mut String,
    source: &[u16],
    earlier: &[KeptFile],
    offset: usize,
) -> Result<(), AllocError> {
    let (walk, token) = walk_to(alloc, source, offset)?;
    match token {
        Some(token) if token.kind == TokenKind::Name && names_next(&walk) => {
            push_declared(alloc, lines, source, earlier, &walk, &token)
        }
        Some(token) => push_token(alloc, lines, source, &walk, &token),
        None if offset < source.len() => push_bad(alloc, lines, source, offset),
        None => push_end(alloc, lines, source, &walk),
    }
}

/// Walks over the tokens that begin before a place, and answers the token that begins there.
fn walk_to<'s>(
    alloc: Global,
    source: &'s [u16],
    offset: usize,
) -> Result<(Walk<'s>, Option<Token<'s>>), AllocError> {
    let mut walk = Walk::start(alloc);
    for item in Tokens::new(source) {
        match item {
            Ok(token) if token.start < offset => walk.take(token)?,
            Ok(token) => return Ok((walk, Some(token))),
            Err(_) => return Ok((walk, None)),
        }
    }
    Ok((walk, None))
}

/// Adds where a name is declared already, in its scope or at the top of an earlier script.
fn push_declared(
    alloc: Global,
    lines: &mut String,
    source: &[u16],
    earlier: &[KeptFile],
    walk: &Walk<'_>,
    token: &Token<'_>,
) -> Result<(), AllocError> {
    let name = text_of(alloc, token.text)?;
    if let Some(start) = walk.start_of(token.text) {
        let at = place_of(source, start);
        return push_line(
            lines,
            &Reason::Declared {
                name: &name,
                file: None,
                at,
            },
        );
    }
    for file in earlier {
        if let Some(at) = top_place(alloc, file, token.text)? {
            let file = Some(file.name.as_str());
            return push_line(
                lines,
                &Reason::Declared {
                    name: &name,
                    file,
                    at,
                },
            );
        }
    }
    push_line(lines, &Reason::Unexpected(&name))
}

/// Where a script declares a name at its top, where it does.
fn top_place(alloc: Global, file: &KeptFile, name: &[u16]) -> Result<Option<Pos>, AllocError> {
    let Some(source) = source_of(alloc, file)? else {
        return Ok(None);
    };
    let units = source.as_slice();
    let (mut walk, _) = walk_to(alloc, units, units.len())?;
    walk.finish();
    Ok(walk.start_of(name).map(|start| place_of(units, start)))
}

/// The position of the unit behind so many.
fn place_of(source: &[u16], offset: usize) -> Pos {
    if offset <= source.len() && source.len() < MOST_UNITS {
        pos_at(source, offset)
    } else {
        Pos { line: 0, col: 0 }
    }
}

/// Adds why a token can't stand behind those before it.
fn push_token(
    alloc: Global,
    lines: &mut String,
    source: &[u16],
    walk: &Walk<'_>,
    token: &Token<'_>,
) -> Result<(), AllocError> {
    let text = text_of(alloc, token.text)?;
    let last = last_text(alloc, walk)?;
    let ahead = text_of(alloc, some_units(source, token.start))?;
    let joined = text_of(alloc, some_units(source, joined_start(walk, token)))?;
    let spelled = Spelled {
        token: &text,
        last: &last,
        ahead: &ahead,
        joined: &joined,
    };
    push_line(lines, &token_reason(walk, token, spelled))
}

/// The text of the last token; empty where there is none.
fn last_text(alloc: Global, walk: &Walk<'_>) -> Result<String, AllocError> {
    match &walk.last {
        Some(last) => text_of(alloc, last.text),
        None => Ok(String::new(alloc)),
    }
}

/// The start of the last token, where nothing stands between it and this one, which begins this one else.
fn joined_start(walk: &Walk<'_>, token: &Token<'_>) -> usize {
    match &walk.last {
        Some(last) if last.start.saturating_add(last.text.len()) == token.start => last.start,
        _ => token.start,
    }
}

/// The next units of a source, so many that an operator is among them.
fn some_units(source: &[u16], start: usize) -> &[u16] {
    let rest = source.get(start..).unwrap_or(&[]);
    rest.get(..MOST_OPERATOR).unwrap_or(rest)
}

/// Adds why no token begins behind so many units.
fn push_bad(
    alloc: Global,
    lines: &mut String,
    source: &[u16],
    offset: usize,
) -> Result<(), AllocError> {
    let text = text_of(alloc, source.get(offset..).unwrap_or(&[]))?;
    push_line(lines, &bad_reason(&text))
}

/// Adds why a source can't end.
fn push_end(
    alloc: Global,
    lines: &mut String,
    source: &[u16],
    walk: &Walk<'_>,
) -> Result<(), AllocError> {
    let last = last_text(alloc, walk)?;
    let at = place_of(source, walk.current.start);
    push_line(lines, &end_reason(&walk.current, at, &last))
}

/// Adds a reason, and ends the line.
fn push_line(lines: &mut String, reason: &Reason<'_>) -> Result<(), AllocError> {
    let reason = *reason;
    write!(lines, "{reason}\n")
}
