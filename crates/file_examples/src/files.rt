// A file by its lines, and the line that refuses a file.
use Line::{Noise, Parameters, Scaling, Top, Unknown, Version};
use equation_file::read_equation;
use std::alloc::{AllocError, Global};
use workbench_core::{Refusal, print_refusal};

#[derive(Clone, Copy, PartialEq, Eq)]
pub enum Line {
    Version,
    Scaling,
    Parameters,
    Noise,
    Unknown,
    Top,
}

// A file by its lines; the last one is empty.
const FILE: [(Line, &str); 6] = [
    (Version, "version = 1"),
    (Scaling, "scaling = [2, 1]"),
    (Parameters, "parameters = ['a']"),
    (Noise, "noise = [{ name = 'xi', degree = '-1' }]"),
    (
        Unknown,
        "unknown = [{ name = 'u', degree = '2', regularity = '0', right = '' }]",
    ),
    (Top, ""),
];

// What stands in a line: the first change of this line, else its text.
fn text_at<'a>(line: Line, text: &'a str, changes: &[(Line, &'a str)]) -> &'a str {
    for (changed, change) in changes {
        if *changed == line {
            return change;
        }
    }
    text
}

fn put_line(file: &mut Vec<u8>, text: &str) -> Result<(), AllocError> {
    file.extend_from_slice(text.as_bytes())?;
    file.extend_from_slice(b"\n")
}

// The file with these lines in the place of others, from its first line on or from its last.
pub fn file_with(
    alloc: Global,
    changes: &[(Line, &str)],
    backwards: bool,
) -> Result<Vec<u8>, AllocError> {
    let mut file = Vec::new(alloc);
    if backwards {
        for (line, text) in FILE.into_iter().rev() {
            put_line(&mut file, text_at(line, text, changes))?;
        }
    } else {
        for (line, text) in FILE {
            put_line(&mut file, text_at(line, text, changes))?;
        }
    }
    Ok(file)
}

// The pieces of a text, one after the other.
pub fn joined(alloc: Global, pieces: &[&str]) -> Result<Vec<u8>, AllocError> {
    let mut text = Vec::new(alloc);
    for piece in pieces {
        text.extend_from_slice(piece.as_bytes())?;
    }
    Ok(text)
}

// The line of the refusal; no bytes where the file is read.
pub fn line_of(alloc: Global, file: &[u8]) -> Result<Vec<u8>, AllocError> {
    match read_equation(alloc, file) {
        Ok(_) => Ok(Vec::new(alloc)),
        Err(refusal) => match print_refusal(alloc, &Refusal::of_file(refusal)) {
            Ok(line) => Ok(line),
            Err(_) => Err(AllocError),
        },
    }
}

// The line of a refusal by its words; no bytes for no words.
fn line_with(alloc: Global, words: &str) -> Result<Vec<u8>, AllocError> {
    if words.is_empty() {
        Ok(Vec::new(alloc))
    } else {
        joined(alloc, &["refused ", words, "\n"])
    }
}

// Whether the line that refuses the file is that of these words; no words where the file is read.
pub fn is_told(alloc: Global, file: &[u8], words: &str) -> bool {
    match (line_of(alloc, file), line_with(alloc, words)) {
        (Ok(line), Ok(wanted)) => line == wanted,
        _ => false,
    }
}
