// A log that gives its later entries back.
use std::test::Fail;
use undo_log::{Log, OutOfMemory};

fn push_all(log: &mut Log<u8>, entries: &[u8]) -> Result<(), OutOfMemory> {
    for entry in entries {
        log.push(*entry)?;
    }
    Ok(())
}

/// What three calls give back.
fn popped(log: &mut Log<u8>, mark: usize) -> [Option<u8>; 3] {
    let first = log.pop_above(mark);
    let second = log.pop_above(mark);
    [first, second, log.pop_above(mark)]
}

#[test]
fn later_entries_come_back_last_first(rt: HostRuntime) -> Result<(), Fail> {
    let mut log = Log::new(rt.alloc());
    push_all(&mut log, &[1])?;
    let mark = log.mark();
    push_all(&mut log, &[2, 3])?;
    assert_eq!(rt; mark, 1);
    assert_eq!(rt; popped(&mut log, mark), [Some(3), Some(2), None]);
    assert_eq!(rt; popped(&mut log, 0), [Some(1), None, None]);
    Ok(())
}

#[test]
fn the_last_entry_is_replaced(rt: HostRuntime) -> Result<(), Fail> {
    let mut log = Log::new(rt.alloc());
    push_all(&mut log, &[1])?;
    log.push(2)?;
    log.set_last(9);
    assert_eq!(rt; popped(&mut log, 0), [Some(9), Some(1), None]);
    Ok(())
}
