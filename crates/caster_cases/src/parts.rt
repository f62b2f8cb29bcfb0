//! The parts that the cases name, and what they stand for.
use hex::FromHexError;
use std::alloc::{AllocError, Global};

/// Calls as they are written down, and what they may name.
#[derive(Drop)]
pub struct Case<'a> {
    /// Their name.
    pub name: &'a str,
    /// The lines that say what they are given.
    pub settings: &'a str,
    /// Those lines and what stands behind them.
    lines: &'a str,
    /// Everything that was read, in which the parts stand.
    all: &'a str,
    /// The text that was kept last.
    kept: &'a [u8],
}

/// The case of this block: its name, and the lines below it up to the next part.
pub fn case_of<'a>(all: &'a str, block: &'a str, kept: &'a [u8]) -> Case<'a> {
    let (block, _) = block.split_once("\n== ").unwrap_or((block, ""));
    let (name, lines) = block.split_once('\n').unwrap_or((block, ""));
    let (settings, _) = lines.split_once("\n-- ").unwrap_or((lines, ""));
    Case {
        name,
        settings,
        lines,
        all,
        kept,
    }
}

impl Case<'_> {
    /// What stands behind this word at the beginning of a line.
    pub fn setting(&self, word: &str) -> Option<&str> {
        for line in self.settings.lines() {
            let (first, rest) = line.split_once(' ').unwrap_or((line, ""));
            if first == word {
                return Some(rest);
            }
        }
        None
    }

    /// The text is kept and not printed.
    pub fn keeps(&self) -> bool {
        self.setting("keep").is_some()
    }

    /// What the parts of these names stand for, one behind the other.
    pub fn join_names(&self, alloc: Global, names: &str) -> Result<Vec<u8>, AllocError> {
        let mut bytes = Vec::new(alloc);
        for name in names.split_whitespace() {
            if name == "KEPT" {
                bytes.extend_from_slice(self.kept)?;
            } else {
                push_part(alloc, &mut bytes, part_named(self.all, name))?;
            }
        }
        Ok(bytes)
    }

    /// What the setting of this word names and the lines below the line `-- WORD` stand for; None
    /// where there is neither.
    pub fn content(&self, alloc: Global, word: &str) -> Result<Option<Vec<u8>>, AllocError> {
        if let Some(names) = self.setting(word) {
            return Ok(Some(self.join_names(alloc, names)?));
        }
        let Some(lines) = section_named(self.lines, word) else {
            return Ok(None);
        };
        let mut bytes = Vec::new(alloc);
        push_part(alloc, &mut bytes, lines)?;
        Ok(Some(bytes))
    }
}

/// The lines below the line `== NAME`, up to the next such line.
fn part_named<'a>(all: &'a str, name: &str) -> &'a str {
    for part in all.split("\n== ") {
        let (head, lines) = part.split_once('\n').unwrap_or((part, ""));
        if head == name {
            return lines;
        }
    }
    ""
}

/// The lines below the line `-- NAME`, up to the next such line.
fn section_named<'a>(lines: &'a str, name: &str) -> Option<&'a str> {
    for section in lines.split("\n-- ").skip(1) {
        let (head, lines) = section.split_once('\n').unwrap_or((section, ""));
        if head == name {
            return Some(lines);
        }
    }
    None
}

/// Appends what these lines stand for.
fn push_part(alloc: Global, out: &mut Vec<u8>, lines: &str) -> Result<(), AllocError> {
    for line in lines.lines() {
        match line.strip_prefix("raw ") {
            Some(text) => push_text(alloc, out, text)?,
            None => push_line(alloc, out, line)?,
        }
    }
    Ok(())
}

/// Appends what this line stands for, with its end.
fn push_line(alloc: Global, out: &mut Vec<u8>, line: &str) -> Result<(), AllocError> {
    let entry = line
        .strip_prefix("text ")
        .and_then(|line| line.split_once(' '));
    match (entry, line.strip_prefix("sent ")) {
        (Some((number, text)), _) => push_coded(alloc, out, ["in ", number, " "], text),
        (None, Some(text)) => push_coded(alloc, out, ["bytes ", "", ""], text),
        (None, None) => push_coded(alloc, out, [line, "", ""], ""),
    }
}

/// Appends a line of these words, with the digits of the bytes that this text stands for.
fn push_coded(
    alloc: Global,
    out: &mut Vec<u8>,
    words: [&str; 3],
    text: &str,
) -> Result<(), AllocError> {
    for word in words {
        out.extend_from_slice(word.as_bytes())?;
    }
    push_digits(alloc, out, text)?;
    out.push(b'\n')?;
    Ok(())
}

/// Appends the hexadecimal digits of the bytes that this text stands for.
fn push_digits(alloc: Global, out: &mut Vec<u8>, text: &str) -> Result<(), AllocError> {
    let mut bytes = Vec::new(alloc);
    push_text(alloc, &mut bytes, text)?;
    out.extend_from_slice(hex::encode(alloc, &bytes)?.as_bytes())
}

/// Appends the bytes that this text stands for, which may come several times.
fn push_text(alloc: Global, out: &mut Vec<u8>, text: &str) -> Result<(), AllocError> {
    let repeated = text.strip_prefix('*').and_then(|text| text.split_once(' '));
    let (count, text) = match repeated {
        Some((count, text)) => (count.parse::<u32>().unwrap_or(0), text),
        None => (1, text),
    };
    let (signs, digits) = text.split_once(" +").unwrap_or((text, ""));
    for _ in 0..count {
        push_signs(out, signs)?;
        push_bytes(alloc, out, digits)?;
    }
    Ok(())
}

/// Appends these signs, in which `|` is a line's end and `^` is LF.
fn push_signs(out: &mut Vec<u8>, signs: &str) -> Result<(), AllocError> {
    for byte in signs.bytes() {
        match byte {
            b'|' => out.extend_from_slice(b"\r\n")?,
            b'^' => out.push(b'\n')?,
            other => out.push(other)?,
        }
    }
    Ok(())
}

/// Appends the bytes of these hexadecimal digits; what is none stands for itself.
fn push_bytes(alloc: Global, out: &mut Vec<u8>, digits: &str) -> Result<(), AllocError> {
    if digits.is_empty() {
        return Ok(());
    }
    match hex::decode(alloc, digits) {
        Ok(bytes) => out.extend_from_slice(&bytes),
        Err(FromHexError::OutOfMemory) => Err(AllocError),
        Err(_) => out.extend_from_slice(digits.as_bytes()),
    }
}
