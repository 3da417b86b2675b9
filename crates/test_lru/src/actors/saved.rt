//! A manager whose threads run is saved to a file and loaded from it.

use crate::actors::made::generators;
use crate::actors::managers;
use cache_entries::entry::CacheEntryKey;
use cache_evict::EvictFault;
use lru_async_manager::Manager;
use lru_files::persistence::{MemFolder, TestFolder};
use std::alloc::Global;
use std::sync::Wait;
use std::thread::Threads;

#[derive(Clone, Copy)]
enum Step {
    /// A call on the entry of a key.
    Call(u8, managers::Step),
    Save,
    /// A save to a folder where each rename fails is the fault of a file.
    Unsaved,
    Load,
    /// The file loses its last byte.
    Cut,
}

const NEW: managers::Step = managers::Step::InsertTail(1, true);

const THERE: managers::Step = managers::Step::Peek(true);

const ABSENT: managers::Step = managers::Step::Peek(false);

const OUT: managers::Step = managers::Step::Remove;

/// All keys are tracked after a load, and none after one of a faulty file.
const STEPS: &[Step] = &[
    Step::Call(1, NEW),
    Step::Call(2, NEW),
    Step::Call(3, NEW),
    Step::Save,
    Step::Call(1, THERE),
    Step::Call(1, OUT),
    Step::Call(2, THERE),
    Step::Call(2, OUT),
    Step::Call(3, THERE),
    Step::Call(3, OUT),
    Step::Load,
    Step::Call(1, THERE),
    Step::Call(1, OUT),
    Step::Call(2, THERE),
    Step::Call(2, OUT),
    Step::Call(3, THERE),
    Step::Call(3, OUT),
    Step::Cut,
    Step::Load,
    Step::Call(1, ABSENT),
    Step::Call(1, OUT),
    Step::Call(2, ABSENT),
    Step::Call(2, OUT),
    Step::Call(3, ABSENT),
    Step::Call(3, OUT),
    Step::Unsaved,
];

/// Takes the last byte off the file.
fn cut(alloc: Global, folder: &mut MemFolder) -> Option<()> {
    let text = folder.bytes("dir/lru.data.0")?.to_vec(alloc).ok()?;
    let (_last, left) = text.as_slice().split_last()?;
    folder.put("dir/lru.data.0", left).ok()
}

/// Whether a save is refused for want of a file.
fn is_unsaved<R: Wait>(rt: &R, alloc: Global, manager: &Manager<1>) -> bool {
    let mut folder = TestFolder::renames_fail(MemFolder::new(alloc));
    match manager.save(rt, alloc, &mut folder, "dir", &[8]) {
        Err(EvictFault::File(gone)) => gone.is_empty(),
        _ => false,
    }
}

/// Whether all calls answer what they must.
fn all_do<R: Wait>(rt: &R, alloc: Global, manager: &Manager<1>, folder: &mut MemFolder) -> bool {
    for &step in STEPS {
        let is_done = match step {
            Step::Call(key, call) => managers::does(rt, alloc, manager, (key, None, call)),
            Step::Save => manager.save(rt, alloc, folder, "dir", &[7]).is_ok(),
            Step::Unsaved => is_unsaved(rt, alloc, manager),
            Step::Load => manager.load(rt, alloc, folder, "dir").is_ok(),
            Step::Cut => cut(alloc, folder).is_some(),
        };
        if !is_done {
            return false;
        }
    }
    true
}

fn saves<R: Threads + Wait + Copy + Send + 'static>(rt: &R, alloc: Global) -> Option<bool> {
    let manager = Manager::builder(100, |_: CacheEntryKey, _: usize| {})
        .num_eviction_workers(1)
        .build(rt, alloc, generators(alloc, 1)?)
        .ok()?;
    let mut folder = MemFolder::new(alloc);
    let all = all_do(rt, alloc, &manager, &mut folder);
    manager.shutdown(rt);
    Some(all)
}

#[test]
fn a_running_manager_puts_no_row_of_a_faulty_file(rt: HostRuntime) {
    assert!(rt; saves(&rt, rt.alloc()) == Some(true));
}
