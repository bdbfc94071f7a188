//! The checks of a log.
ghost use Rattle.std.specs.Prelude.{◌≡◌, ◌++◌, length, IfOk};
ghost use Rattle.commit_log.specs.Text.{check_of, commit_words, commit_line};

use hex::encode_to_slice;
use itoa::Buffer;
use sha2::{Digest, Sha256};
use std::alloc::{AllocError, Global};

/// The check of a commit line: 16 hex digits.
pub type Check = [u8; 16];

/// The check of a text behind a check, or behind nothing: the first 16 hex digits of SHA-256.
pub fn check_of(before: &[u8], text: &[u8]) -> Check
    ensures { result ≡ check_of before.now text.now }
{
    let mut hasher = Sha256::new();
    hasher.update(before);
    hasher.update(text);
    let digest = hasher.finalize();
    let mut check = [0u8; 16];
    match encode_to_slice(&digest[..8], &mut check) {
        Ok(()) => check,
        Err(_) => unreachable!(),
    }
}

/// Puts the commit line of that number and check behind a text, but for its line feed.
///
/// # Errors
///
/// Want of memory: a front of the line may stand there.
pub(crate) fn push_commit_words(
    text: &mut Vec<u8>,
    number: u64,
    check: &Check,
) -> Result<(), AllocError>
    ensures { IfOk result (λ _. text.new.items ≡ text.old.items ++ commit_words number check.now) }
{
    let mut digits = Buffer::new();
    text.extend_from_slice(b"commit ")?;
    text.extend_from_slice(digits.format(number).as_bytes())?;
    text.extend_from_slice(b" ")?;
    text.extend_from_slice(check)
}

/// Puts the commit line of that number and check behind a text.
///
/// # Errors
///
/// Want of memory: a front of the line may stand there.
pub(crate) fn push_commit_line(
    text: &mut Vec<u8>,
    number: u64,
    check: &Check,
) -> Result<(), AllocError>
    ensures { IfOk result (λ _. text.new.items ≡ text.old.items ++ commit_line number check.now) }
{
    push_commit_words(text, number, check)?;
    text.extend_from_slice(b"\n")
}

/// The commit line of that number and check.
pub fn commit_line(alloc: Global, number: u64, check: &Check) -> Result<Vec<u8>, AllocError>
    ensures { IfOk result (λ line. line.items ≡ commit_line number check.now) }
{
    let mut line = Vec::new(alloc);
    push_commit_line(&mut line, number, check)?;
    Ok(line)
}
