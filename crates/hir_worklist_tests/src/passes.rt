//! What is taken, and when.
use hir_worklist::{Watchers, Worklist};
use std::test::Fail;

/// The first of three things waits for what the second fills, and that for what the third does.
#[test]
fn a_chain_is_taken_backwards(rt: HostRuntime) -> Result<(), Fail> {
    let mut worklist = Worklist::new(rt.alloc());
    let mut watchers = Watchers::new(rt.alloc());
    worklist.push()?;
    worklist.push()?;
    worklist.push()?;
    assert!(rt; worklist.len() == 3);

    worklist.open();
    assert!(rt; worklist.take() == Some(0));
    watchers.watch(0, "second")?;
    assert!(rt; worklist.take() == Some(1));
    watchers.watch(1, "third")?;
    assert!(rt; worklist.take() == Some(2));
    watchers.wake_all(&"third", &mut worklist)?;
    assert!(rt; worklist.take() == None);
    assert!(rt; !worklist.is_settled());

    worklist.open();
    assert!(rt; worklist.take() == Some(1));
    watchers.wake_all(&"third", &mut worklist)?;
    watchers.wake_all(&"second", &mut worklist)?;
    assert!(rt; worklist.take() == None);

    worklist.open();
    assert!(rt; worklist.take() == Some(0));
    assert!(rt; worklist.take() == None);
    assert!(rt; worklist.is_settled());
    Ok(())
}

/// What is woken ahead is taken in the same pass, what is woken behind in the next.
#[test]
fn what_is_ahead_is_taken_at_once(rt: HostRuntime) -> Result<(), Fail> {
    let mut worklist = Worklist::new(rt.alloc());
    worklist.push()?;
    worklist.push()?;
    worklist.open();
    assert!(rt; worklist.take() == Some(0));
    assert!(rt; worklist.take() == Some(1));
    worklist.wake(0)?;
    assert!(rt; worklist.take() == None);

    worklist.open();
    assert!(rt; worklist.take() == Some(0));
    worklist.wake(1)?;
    worklist.wake(0)?;
    assert!(rt; worklist.take() == Some(1));
    assert!(rt; worklist.take() == None);
    assert!(rt; !worklist.is_settled());
    Ok(())
}

/// What is finished is taken in no pass.
#[test]
fn what_is_finished_is_not_taken(rt: HostRuntime) -> Result<(), Fail> {
    let mut worklist = Worklist::new(rt.alloc());
    assert!(rt; worklist.is_empty());
    worklist.push()?;
    worklist.push()?;
    assert!(rt; worklist.len() == 2);
    worklist.finish(0);
    worklist.wake(0)?;
    assert!(rt; !worklist.is_unfinished(0));
    assert!(rt; worklist.is_unfinished(1));
    worklist.finish(1);
    assert!(rt; worklist.is_settled());
    Ok(())
}

/// What is appended is taken in the next pass, what watches one of two slots in the one after, and all where all is woken.
#[test]
fn what_is_appended_or_woken_is_taken(rt: HostRuntime) -> Result<(), Fail> {
    let mut worklist = Worklist::new(rt.alloc());
    let mut watchers = Watchers::new(rt.alloc());
    worklist.append_to(3)?;
    assert!(rt; worklist.len() == 3);
    worklist.open();
    assert!(rt; worklist.take() == Some(0));
    watchers.watch(0, "first")?;
    assert!(rt; worklist.take() == Some(1));
    assert!(rt; worklist.take() == Some(2));
    watchers.watch(2, "second")?;
    assert!(rt; worklist.take() == None);

    watchers.wake_each(&["first", "second"], &mut worklist)?;
    worklist.open();
    assert!(rt; worklist.take() == Some(0));
    assert!(rt; worklist.take() == Some(2));
    assert!(rt; worklist.take() == None);

    worklist.wake_all()?;
    worklist.open();
    assert!(rt; worklist.take() == Some(0));
    assert!(rt; worklist.take() == Some(1));
    assert!(rt; worklist.take() == Some(2));
    Ok(())
}
