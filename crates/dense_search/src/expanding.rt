//! Named nodes put where they are told first.
//!
//! While the search goes on, the lines of each node that may be told again are kept by themselves, and `a K` stands for node K of
//! these. In a certificate the node stands, with `m`, where it is told first, and `a N` where it is told again, where N counts the
//! nodes so named in the order in which they begin. A node that is told once has no name.
use dense_place::{KnownNode, Lines, Search, Stop};

/// How deep named nodes stand in one another at most: once in each scope.
const DEEPEST: usize = 80;

// How often nodes are told, and the names they get.
#[derive(Drop)]
struct Names {
    told: Vec<u32>,
    names: Vec<u32>,
    count: u32,
}

// Bytes of lines that are still to be gone over.
#[derive(Clone, Copy)]
struct Part {
    // None: the lines of the root
    node: Option<usize>,
    at: usize,
}

/// Puts the lines of the root, with those of named nodes in their places.
pub(crate) fn expanded(search: &Search, out: &mut Lines) -> Result<(), Stop> {
    let count = search.known.nodes.len();
    let mut names = Names {
        told: vec![in search.alloc; 0u32; count]?,
        names: vec![in search.alloc; 0u32; count]?,
        count: 0,
    };
    count_told(search, &mut names)?;
    put_all(search, &mut names, out)
}

fn bytes_of<'a>(search: &'a Search, node: Option<usize>) -> &'a [u8] {
    match node {
        None => search.lines.as_slice(),
        Some(at) => match search.known.nodes.get(at) {
            None => &[],
            Some(node) => lines_of(node),
        },
    }
}

fn lines_of(node: &KnownNode) -> &[u8] {
    node.lines.as_slice()
}

// The length of the line that begins these bytes, with its line feed.
fn line_length(bytes: &[u8]) -> usize {
    for (k, byte) in bytes.iter().enumerate() {
        if *byte == b'\n' {
            return k.saturating_add(1);
        }
    }
    bytes.len()
}

// The node that a line tells: `a K`.
fn told_in(line: &[u8]) -> Option<usize> {
    let [b'a', b' ', digits @ ..] = line else {
        return None;
    };
    let mut number = 0usize;
    for digit in digits {
        if *digit == b'\n' {
            return Some(number);
        }
        number = number
            .saturating_mul(10)
            .saturating_add(digit.saturating_sub(b'0') as usize);
    }
    Some(number)
}

fn count_told(search: &Search, names: &mut Names) -> Result<(), Stop> {
    let mut nodes = vec![in search.alloc; None]?;
    for _ in 0..names.told.len().saturating_add(1) {
        let Some(node) = nodes.pop() else {
            return Ok(());
        };
        let mut rest = bytes_of(search, node);
        for _ in 0..rest.len() {
            if rest.is_empty() {
                break;
            }
            let (line, after) = rest.split_at(line_length(rest).min(rest.len()));
            rest = after;
            let Some(told) = told_in(line) else {
                continue;
            };
            let Some(count) = names.told.get_mut(told) else {
                continue;
            };
            *count = count.saturating_add(1);
            if *count == 1 {
                nodes.push(Some(told))?;
            }
        }
    }
    Ok(())
}

fn put_all(search: &Search, names: &mut Names, out: &mut Lines) -> Result<(), Stop> {
    let mut open = vec![in search.alloc; Part { node: None, at: 0 }]?;
    for _ in 0..u64::MAX {
        let Some(part) = open.pop() else {
            return Ok(());
        };
        if open.len() > DEEPEST {
            return Err(Stop::Spent);
        }
        let bytes = bytes_of(search, part.node);
        let (_, rest) = bytes.split_at(part.at.min(bytes.len()));
        let end = put_up_to_node(rest, out)?;
        let (_, behind) = rest.split_at(end.min(rest.len()));
        if behind.is_empty() {
            continue;
        }
        let length = line_length(behind);
        let (line, _) = behind.split_at(length.min(behind.len()));
        open.push(Part {
            node: part.node,
            at: part.at.saturating_add(end).saturating_add(length),
        })?;
        if let Some(told) = told_in(line)
            && put_name(names, told, out)?
        {
            open.push(Part {
                node: Some(told),
                at: 0,
            })?;
        }
    }
    Ok(())
}

// Puts the lines up to the first that tells a node, and says how many bytes these are.
fn put_up_to_node(bytes: &[u8], out: &mut Lines) -> Result<usize, Stop> {
    let mut end = 0usize;
    for _ in 0..bytes.len() {
        let (_, rest) = bytes.split_at(end.min(bytes.len()));
        if rest.is_empty() {
            break;
        }
        let length = line_length(rest);
        let (line, _) = rest.split_at(length.min(rest.len()));
        if told_in(line).is_some() {
            break;
        }
        end = end.saturating_add(length);
    }
    let (lines, _) = bytes.split_at(end.min(bytes.len()));
    out.put(lines)?;
    Ok(end)
}

// Puts `a N` for a node that has a name. Where it is told first, puts `m` if it is told again, and says that its lines come next.
fn put_name(names: &mut Names, told: usize, out: &mut Lines) -> Result<bool, Stop> {
    let name = match names.names.get(told) {
        None => return Err(Stop::Spent),
        Some(name) => *name,
    };
    if name > 0 {
        out.put_line(b"a", &[i64::from(name)])?;
        return Ok(false);
    }
    let again = match names.told.get(told) {
        None => false,
        Some(count) => *count > 1,
    };
    if again {
        out.put(b"m\n")?;
        names.count = names.count.saturating_add(1);
        if let Some(kept) = names.names.get_mut(told) {
            *kept = names.count;
        }
    }
    Ok(true)
}
