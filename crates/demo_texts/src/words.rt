//! Lists of words behind the program's name.
use crate::telling::put_asked;
use bstr::ByteSlice;
use desk_cli::read_words;
use std::alloc::{AllocError, Global};

// The words of a line, behind the program's name. A pair of quotes stands for an empty word.
fn words_of(alloc: Global, line: &str) -> Result<Vec<String>, AllocError> {
    let mut words = Vec::new(alloc);
    words.push(String::from_str(alloc, "mapf_desk")?)?;
    for word in line.split_whitespace() {
        let word = if word == "\"\"" { "" } else { word };
        words.push(String::from_str(alloc, word)?)?;
    }
    Ok(words)
}

/// What the words of a line are read as.
pub fn put_line(alloc: Global, told: &mut String, text: &[u8]) -> Result<(), AllocError> {
    let Ok(line) = text.to_str() else {
        return told.push_str("not UTF-8");
    };
    let words = words_of(alloc, line)?;
    put_asked(told, &read_words(alloc, words.leak()))
}
