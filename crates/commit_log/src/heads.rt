//! The head of a log: the mode, and the digest of the scene.
ghost use Rattle.std.specs.Prelude.{◌≡◌, ◌≢◌, ◌++◌, List, ℕ, true, false, take, drop, IfOk, MatchOption};
ghost use Rattle.std.specs.List.{list_all};
ghost use Rattle.plan_table.specs.declared.tracks.Mode.{Mode};
ghost use Rattle.commit_log.specs.Text.{mode_line, head_text, scene_digest, is_lower_hex_digit, is_digest};
ghost use Rattle.commit_log.specs.Reads.{BeginsHead, BeginsNoHead};

use crate::checks::{Check, check_of};
use hex::encode_to_slice;
use itoa::Buffer;
use plan_table::Mode;
use sha2::{Digest, Sha256};
use std::alloc::{AllocError, Global};

/// The digest of a scene: 64 hex digits.
pub type SceneDigest = [u8; 64];

/// The digest of the scene of a map, the first agents of a scenario (nothing, where there is none).
pub fn scene_digest(map: &[u8], scen: &[u8], agents: u32) -> SceneDigest
    ensures { result ≡ scene_digest map.now scen.now agents }
{
    let mut digits = Buffer::new();
    let mut hasher = Sha256::new();
    hasher.update(map);
    hasher.update(b"\n".as_slice());
    hasher.update(scen);
    hasher.update(b"\n".as_slice());
    hasher.update(digits.format(agents).as_bytes());
    let digest = hasher.finalize();
    let mut text = [0u8; 64];
    match encode_to_slice(digest.as_slice(), &mut text) {
        Ok(()) => text,
        Err(_) => unreachable!(),
    }
}

fn mode_line(mode: Mode) -> &'static [u8]
    ensures { result.now ≡ mode_line mode }
{
    match mode {
        Mode::Stay => b"mode stay\n",
        Mode::Disappear => b"mode disappear\n",
    }
}

/// The head of a log of a scene in that mode.
pub fn head_text(alloc: Global, mode: Mode, scene: &SceneDigest) -> Result<Vec<u8>, AllocError>
    ensures { IfOk result (λ text. text.items ≡ head_text mode scene.now) }
{
    let mut text = Vec::from_slice(alloc, b"log 1\n")?;
    text.extend_from_slice(mode_line(mode))?;
    text.extend_from_slice(b"scene ")?;
    text.extend_from_slice(scene)?;
    text.extend_from_slice(b"\n")?;
    Ok(text)
}

/// What a log begins with, and what stands behind that.
#[derive(Drop)]
pub struct Head<'t> {
    pub mode: Mode,
    pub scene: SceneDigest,
    /// The check of the head.
    pub check: Check,
    pub rest: &'t [u8],
}

// What stands behind that prefix.
fn behind<'t>(text: &'t [u8], prefix: &[u8]) -> Option<&'t [u8]>
    ensures { MatchOption result ((rest : List ℕ) → text.now ≢ prefix.now ++ rest) (λ rest. text.now ≡ prefix.now ++ rest.now) }
{
    text.strip_prefix(prefix)
}

// Whether the byte is a hex digit, and no upper case letter.
fn is_lower_hex_digit(byte: u8) -> bool
    ensures { result ≡ is_lower_hex_digit byte }
{
    matches!(byte, b'0'..=b'9' | b'a'..=b'f')
}

fn is_lower_hex(text: &[u8]) -> bool
    ensures { result ≡ list_all is_lower_hex_digit text.now }
{
    text.iter().all(|byte| is_lower_hex_digit(*byte))
}

fn is_digest(text: &[u8]) -> bool
    ensures { result ≡ is_digest text.now }
{
    text.len() == 64 && is_lower_hex(text)
}

// The digest that begins at that byte of a text, if there is one.
fn digest_at(text: &[u8], at: usize) -> Option<SceneDigest>
    ensures { MatchOption result (is_digest (take 64 (drop at text.now)) ≡ false)
        (λ scene. (is_digest scene ≡ true) × (scene ≡ take 64 (drop at text.now))) }
{
    if at > text.len() || text.len() - at < 64 {
        return None;
    }
    let digits = &text[at..at + 64];
    if !is_digest(digits) {
        return None;
    }
    let mut scene = [0u8; 64];
    scene.copy_from_slice(digits);
    Some(scene)
}

// The head of that mode that a text begins with, if it begins with one.
fn head_of_mode<'t>(
    alloc: Global,
    text: &'t [u8],
    mode: Mode,
) -> Result<Option<Head<'t>>, AllocError>
    ensures { IfOk result (λ found. MatchOption found (BeginsNoHead text.now mode)
        (λ head. (head.mode ≡ mode) × BeginsHead text.now head.mode head.scene head.check head.rest.now)) }
{
    // behind `log 1`, the mode's line and `scene `
    let Some(scene) = digest_at(text, mode_line(mode).len() + 12) else {
        return Ok(None);
    };
    let head = head_text(alloc, mode, &scene)?;
    let Some(rest) = behind(text, head.as_slice()) else {
        return Ok(None);
    };
    let check = check_of(b"", head.as_slice());
    Ok(Some(Head {
        mode,
        scene,
        check,
        rest,
    }))
}

/// The head that a text begins with. None if it begins with none, of either mode.
///
/// # Errors
///
/// Want of memory.
pub fn read_head(alloc: Global, text: &[u8]) -> Result<Option<Head<'_>>, AllocError>
    ensures { IfOk result (λ found. MatchOption found ((mode : Mode) → BeginsNoHead text.now mode)
        (λ head. BeginsHead text.now head.mode head.scene head.check head.rest.now)) }
{
    match head_of_mode(alloc, text, Mode::Stay)? {
        Some(head) => Ok(Some(head)),
        None => head_of_mode(alloc, text, Mode::Disappear),
    }
}
