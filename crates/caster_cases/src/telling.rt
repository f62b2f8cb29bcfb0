//! What is printed of a call.
use crate::given::Given;
use crate::parts::Case;
use cast_io::{Asked, MemStore, MemStreet, YardAsked};
use std::alloc::{AllocError, Global};

/// What came of a call.
#[derive(Drop)]
pub struct Came {
    /// The status.
    pub status: u8,
    /// What was written.
    pub text: Vec<u8>,
    /// What came back with the place for lines.
    pub lines: Vec<u8>,
    /// The files that the store was asked for, and what the street and its yard were asked for, as
    /// they are printed.
    pub asked: Vec<u8>,
    /// How often the street failed, and how many of its links did.
    pub faults: (u64, u64),
}

/// What came of a call that ended with this status, by what it was given.
pub fn came_of(alloc: Global, status: u8, given: &Given) -> Result<Came, AllocError> {
    let mut asked = Vec::new(alloc);
    push_files(&mut asked, &given.store)?;
    push_street(alloc, &mut asked, &given.street)?;
    push_yard(alloc, &mut asked, &given.street)?;
    Ok(Came {
        status,
        text: given.out.bytes().to_vec(alloc)?,
        lines: lines_of(alloc, &given.street)?,
        asked,
        faults: (given.street.faults(), given.street.link_faults()),
    })
}

/// Appends the line of the files that were asked for, where there are any.
fn push_files(lines: &mut Vec<u8>, store: &MemStore) -> Result<(), AllocError> {
    let Some(paths) = store.asked() else {
        return lines.extend_from_slice(b"files are told no longer\n");
    };
    if paths.is_empty() {
        return Ok(());
    }
    lines.extend_from_slice(b"files")?;
    for path in paths {
        lines.push(b' ')?;
        lines.extend_from_slice(path.as_slice())?;
    }
    lines.push(b'\n')?;
    Ok(())
}

/// Appends a line for each call of the street.
fn push_street(alloc: Global, lines: &mut Vec<u8>, street: &MemStreet) -> Result<(), AllocError> {
    let Some(all) = street.asked() else {
        return lines.extend_from_slice(b"street is told no longer\n");
    };
    for asked in all {
        push_asked(alloc, lines, asked)?;
    }
    Ok(())
}

/// Appends the line of this call of the street.
fn push_asked(alloc: Global, lines: &mut Vec<u8>, asked: &Asked) -> Result<(), AllocError> {
    match asked {
        Asked::Open { addr, doors } => {
            let front = format!(in alloc; "street open {doors} ")?;
            lines.extend_from_slice(front.as_bytes())?;
            lines.extend_from_slice(addr.as_slice())?;
        }
        Asked::Dial { addr } => {
            lines.extend_from_slice(b"street dial ")?;
            lines.extend_from_slice(addr.as_slice())?;
        }
    }
    lines.push(b'\n')?;
    Ok(())
}

/// Appends a line for each call of the street's yard.
fn push_yard(alloc: Global, lines: &mut Vec<u8>, street: &MemStreet) -> Result<(), AllocError> {
    let Some(all) = street.yard().asked() else {
        return lines.extend_from_slice(b"yard is told no longer\n");
    };
    for asked in all {
        push_yard_asked(alloc, lines, asked)?;
    }
    Ok(())
}

/// Appends the line of this call of the yard.
fn push_yard_asked(
    alloc: Global,
    lines: &mut Vec<u8>,
    asked: &YardAsked,
) -> Result<(), AllocError> {
    match asked {
        YardAsked::OpenGates { addr, gates, quiet } => {
            let front = format!(in alloc; "gates {gates} quiet {quiet} ")?;
            lines.extend_from_slice(front.as_bytes())?;
            lines.extend_from_slice(addr.as_slice())?;
        }
        YardAsked::Reach { addr, quiet } => {
            let front = format!(in alloc; "gate to quiet {quiet} ")?;
            lines.extend_from_slice(front.as_bytes())?;
            lines.extend_from_slice(addr.as_slice())?;
        }
        YardAsked::Notes => lines.extend_from_slice(b"place for lines")?,
    }
    lines.push(b'\n')?;
    Ok(())
}

/// What came back with the place for lines, nothing where none did.
fn lines_of(alloc: Global, street: &MemStreet) -> Result<Vec<u8>, AllocError> {
    let notes = street.yard().notes_back().unwrap_or(&[]);
    match notes.first() {
        Some(notes) => notes.bytes().to_vec(alloc),
        None => Ok(Vec::new(alloc)),
    }
}

/// Appends what is printed of the call.
pub fn push_came(
    alloc: Global,
    out: &mut Vec<u8>,
    case: &Case<'_>,
    came: &Came,
) -> Result<(), AllocError> {
    let status = came.status;
    out.extend_from_slice(format!(in alloc; "status {status}\n")?.as_bytes())?;
    if !case.keeps() {
        push_text(alloc, out, case, &came.text)?;
    }
    push_lines(alloc, out, b"> ", &came.lines)?;
    out.extend_from_slice(&came.asked)?;
    if case.setting("faults").is_some() {
        let (street, links) = came.faults;
        let line = format!(in alloc; "faults {street}, of links {links}\n")?;
        out.extend_from_slice(line.as_bytes())?;
    }
    Ok(())
}

/// Appends the text, or how it compares to what it is compared to.
fn push_text(
    alloc: Global,
    out: &mut Vec<u8>,
    case: &Case<'_>,
    text: &[u8],
) -> Result<(), AllocError> {
    let Some(wanted) = case.content(alloc, "against")? else {
        return push_lines(alloc, out, b"| ", text);
    };
    for pair in case.setting("among").unwrap_or("").split(", ") {
        let wanted = with_pair(alloc, &wanted, pair)?;
        if wanted.as_slice() == text {
            return out.extend_from_slice(b"whole\n");
        }
        if wanted.starts_with(text) {
            let size = text.len();
            return out.extend_from_slice(format!(in alloc; "first {size}\n")?.as_bytes());
        }
    }
    push_lines(alloc, out, b"| ", text)
}

/// These bytes with the pair in place of each `#`.
fn with_pair(alloc: Global, bytes: &[u8], pair: &str) -> Result<Vec<u8>, AllocError> {
    let mut out = Vec::new(alloc);
    for byte in bytes {
        match byte {
            b'#' => out.extend_from_slice(pair.as_bytes())?,
            other => out.push(*other)?,
        }
    }
    Ok(out)
}

/// Appends each line of the text behind these signs.
fn push_lines(
    alloc: Global,
    out: &mut Vec<u8>,
    front: &[u8],
    text: &[u8],
) -> Result<(), AllocError> {
    let mut begins = true;
    for byte in text {
        if begins {
            out.extend_from_slice(front)?;
        }
        push_sign(alloc, out, *byte)?;
        begins = *byte == b'\n';
    }
    if !begins {
        out.extend_from_slice(b"\\\n")?;
    }
    Ok(())
}

/// Appends this byte as a sign.
fn push_sign(alloc: Global, out: &mut Vec<u8>, byte: u8) -> Result<(), AllocError> {
    match byte {
        b'\r' => out.extend_from_slice(b"\\r"),
        b'\\' => out.extend_from_slice(b"\\\\"),
        b'\n' | b' '..=b'~' => Ok(out.push(byte)?),
        other => out.extend_from_slice(format!(in alloc; "\\x{other:02x}")?.as_bytes()),
    }
}
