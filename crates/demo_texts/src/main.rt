//! Reads each text of data/texts.txt by the reader that the line before it names, and prints what it
//! tells. That line has a word and how many bytes the text has. The word is `tasks` for a scenario of a map of
//! 12 x 3 cells, `journal`, `log`, `words` for a line of words, or for a file of paths its form, or `any`.
#![tactic(auto)]

mod journals;
mod logs;
mod paths;
mod tasks;
mod telling;
mod values;
mod words;

use bstr::ByteSlice;
use std::alloc::{AllocError, Global};
use std::fs;

// What a text tells, read as the word says.
fn told(alloc: Global, word: &str, text: &[u8]) -> Result<String, AllocError> {
    let mut told = String::new(alloc);
    if word == "tasks" {
        tasks::put_tasks(alloc, &mut told, text)?;
    } else if word == "journal" {
        journals::put_journal(alloc, &mut told, text)?;
    } else if word == "log" {
        logs::put_log(alloc, &mut told, text)?;
    } else if word == "words" {
        words::put_line(alloc, &mut told, text)?;
    } else {
        paths::put_paths(alloc, &mut told, text, paths::form_of(word))?;
    }
    Ok(told)
}

fn number(digits: &[u8]) -> Option<u32> {
    match digits.to_str() {
        Ok(digits) => digits.parse().ok(),
        Err(_) => None,
    }
}

// The word before a text, the text, and what stands behind it.
fn first_text(rest: &[u8]) -> Option<(&[u8], &[u8], &[u8])> {
    let (head, behind) = rest.split_once_str(b"\n")?;
    let (word, digits) = head.split_once_str(b" ")?;
    let size = number(digits)? as usize;
    Some((word, behind.get(..size)?, behind.get(size..)?))
}

fn tell_all<R: AllocGlobal + Print>(rt: &R, texts: &[u8]) -> anyhow::Result<()> {
    let mut rest = texts;
    for _ in 0..texts.len() {
        let Some((word, text, behind)) = first_text(rest) else {
            break;
        };
        let told = told(rt.alloc(), word.to_str()?, text)?;
        println!(rt; "{told}")?;
        rest = behind;
    }
    Ok(())
}

fn main(rt: HostRuntime) -> anyhow::Result<()> {
    let texts = fs::read(&rt, "texts.txt")?;
    tell_all(&rt, texts.as_slice())
}
