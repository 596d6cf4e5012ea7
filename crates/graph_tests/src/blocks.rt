//! Sets of small numbers.
use bit_sets::Block;
use msc_base::Limits;
use std::alloc::Global;
use std::test::Fail;

/// A block of some instances and events.
fn sample(alloc: Global) -> Result<Block, Fail> {
    let mut block = Block::empty(alloc);
    for at in [64, 0, 1_023, 63, 64] {
        if (at as u64) < Limits::INSTANCES {
            block.add_instance(at)?;
        }
    }
    for number in [5, 4_294_967_295, 0, 5, 3] {
        block.add_event(number)?;
    }
    Ok(block)
}

/// How many of the instances the block has.
fn instances_in(block: &Block, numbers: &[u32]) -> u32 {
    let mut count: u32 = 0;
    for number in numbers {
        if block.has_instance(*number) {
            count = count.saturating_add(1);
        }
    }
    count
}

/// How many of the events the block has.
fn events_in(block: &Block, numbers: &[u32]) -> u32 {
    let mut count: u32 = 0;
    for number in numbers {
        if block.has_event(*number) {
            count = count.saturating_add(1);
        }
    }
    count
}

/// How many of the sample's instances and events the block has, and how many of some others.
fn counts(block: &Block) -> (u32, u32, u32, u32) {
    (
        instances_in(block, &[0, 63, 64, 1_023]),
        events_in(block, &[0, 3, 5, 4_294_967_295]),
        instances_in(block, &[1, 62, 65, 127, 128, 1_022, 1_024, 4_294_967_295]),
        events_in(block, &[1, 2, 4, 6, 64, 4_294_967_294]),
    )
}

/// What a block and its copy have.
#[test]
fn members_of_blocks(rt: HostRuntime) -> Result<(), Fail> {
    let alloc = rt.alloc();
    let block = sample(alloc)?;
    assert!(rt; counts(&block) == (4, 4, 0, 0));
    assert!(rt; counts(&block.copy(alloc)?) == (4, 4, 0, 0));
    assert!(rt; counts(&Block::empty(alloc)) == (0, 0, 0, 0));
    Ok(())
}
