//! How much memory a drought leaves.
use super::build::drought;
use std::alloc::Global;
use std::process::Abort;
use test_support::Drought;

// Takes a thousand blocks of 24 bytes, or as many as can be had.
fn take(alloc: Global, blocks: &mut Vec<Vec<u8>>) {
    for _ in 0..1_000 {
        let Ok(block) = Vec::with_capacity(alloc, 24) else {
            return;
        };
        if blocks.push(block).is_err() {
            return;
        }
    }
}

// How many blocks of 24 bytes can be had from so many bytes, after a thousand were freed.
fn small_blocks(rt: &impl Abort, alloc: Global, drought: &mut Drought, bytes: usize) -> usize {
    drought.relieve();
    let mut blocks: Vec<Vec<u8>> = Vec::with_capacity(alloc, 1_000).expect(rt, "memory");
    take(alloc, &mut blocks);
    blocks.clear();
    drought.leave(bytes).expect(rt, "memory");
    take(alloc, &mut blocks);
    let count = blocks.len();
    drop(blocks);
    count
}

fn has(alloc: Global, bytes: usize) -> bool {
    let block: Result<Vec<u8>, _> = Vec::with_capacity(alloc, bytes);
    block.is_ok()
}

// That many blocks can be had from their bytes, and one more at most from 16 bytes more.
fn are_had(rt: &impl Abort, alloc: Global, drought: &mut Drought, blocks: usize) {
    let even = small_blocks(rt, alloc, drought, blocks.saturating_mul(32));
    let odd = small_blocks(
        rt,
        alloc,
        drought,
        blocks.saturating_mul(32).saturating_add(16),
    );
    assert!(rt; even == blocks && (odd == blocks || odd == blocks.saturating_add(1)));
}

fn pieces(rt: &impl Abort, alloc: Global) {
    let mut drought = drought(rt, alloc);
    for blocks in 0..300 {
        are_had(rt, alloc, &mut drought, blocks);
    }
    drought.leave(4_096).expect(rt, "memory");
    assert!(rt; !has(alloc, 4_096));
    drought.relieve();
    assert!(rt; has(alloc, 1_000_000) && !has(alloc, 100_000_000));
    drop(drought);
    assert!(rt; has(alloc, 100_000_000));
}

// Each of the blocks costs 32 bytes, and there may be 16 bytes more than were said. What is relieved
// is enough for blocks of a million bytes, and what is dropped for more.
#[test]
fn pieces_by_their_bytes(rt: HostRuntime) {
    pieces(&rt, rt.alloc());
}
