//! The lines of a file of rows.
use std::alloc::{AllocError, Global};

/// What a line says, by the fields that the crate's header tells.
#[derive(Clone, Copy, PartialEq, Eq)]
pub(crate) enum Field {
    Text,
    More,
    Load,
    File,
    Front,
    ReadFails,
    Takes,
    WriteFails,
    Run,
    Status,
    Writes,
    Begins,
    Below,
    Each,
    Count,
}

const FIELDS: [(&str, Field); 15] = [
    ("text", Field::Text),
    ("more", Field::More),
    ("load", Field::Load),
    ("file", Field::File),
    ("front", Field::Front),
    ("read_fails", Field::ReadFails),
    ("takes", Field::Takes),
    ("write_fails", Field::WriteFails),
    ("run", Field::Run),
    ("status", Field::Status),
    ("writes", Field::Writes),
    ("begins", Field::Begins),
    ("below", Field::Below),
    ("each", Field::Each),
    ("count", Field::Count),
];

/// A line by its number in the file, from 1 on: its field, None where none is called so, and what follows.
#[derive(Clone, Copy)]
pub(crate) struct Line<'t> {
    pub(crate) number: usize,
    pub(crate) field: Option<Field>,
    pub(crate) rest: &'t str,
}

/// What stands before the first blank, and what after it.
pub(crate) fn cut(text: &str) -> (&str, &str) {
    match text.split_once(' ') {
        Some(parts) => parts,
        None => (text, ""),
    }
}

fn field_of(word: &str) -> Option<Field> {
    for (name, field) in FIELDS {
        if name == word {
            return Some(field);
        }
    }
    None
}

/// The lines of a block that begins at this line of its file, without its comments.
pub(crate) fn lines_of<'t>(
    alloc: Global,
    block: &'t str,
    first: usize,
) -> Result<Vec<Line<'t>>, AllocError> {
    let mut lines = Vec::new(alloc);
    let mut number = first;
    for line in block.split('\n') {
        if !line.is_empty() && !line.starts_with('#') {
            let (word, rest) = cut(line);
            let field = field_of(word);
            lines.push(Line {
                number,
                field,
                rest,
            })?;
        }
        number = number.saturating_add(1);
    }
    Ok(lines)
}
