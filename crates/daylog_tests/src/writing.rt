// What is written, and what is left alone.
use crate::samples::{FIRST, LARGEST, MAKING, log};
use daylog::call::{call_at, making_fields};
use daylog::read::read;
use daylog::write::{rewrite, rewrites_same, write};
use std::test::Fail;
use vocabulary::fault::{Fault, LogFault};

#[test]
fn two_calls_byte_for_byte(rt: HostRuntime) -> Result<(), Fail> {
    let mut space = [99; 40];
    assert_eq!(rt; write(&MAKING, &[FIRST, LARGEST], &mut space)?, 35);
    let front = [
        2, 1, 0, 4, 2, 0, 24, 1, 2, 3, 255, 3, 1, 1, 2, 3, 4, 5, 6, 7, 8, 9, 10,
    ];
    assert!(rt; &space[0..23] == front.as_slice());
    assert!(rt; &space[23..35] == [255; 12].as_slice());
    assert!(rt;
        &space[35..40] == [99; 5].as_slice(),
        "what is behind the log stays"
    );
    let (making, calls) = read(&space[0..35])?;
    assert_eq!(rt; making_fields(making), Some(MAKING));
    assert_eq!(rt; call_at(calls, 0), Some(FIRST));
    assert_eq!(rt; call_at(calls, 1), Some(LARGEST));
    assert_eq!(rt; call_at(calls, 2), None);
    Ok(())
}

#[test]
fn too_little_space(rt: HostRuntime) {
    let mut space = [99; 35];
    let none = Err(Fault::Log(LogFault::NoRoom, 0));
    assert_eq!(rt; write(&MAKING, &[FIRST, LARGEST], &mut space[0..34]), none);
    assert_eq!(rt; write(&MAKING, &[], &mut space[0..10]), none);
    assert!(rt; space == [99; 35], "a refusal writes nothing");
    assert_eq!(rt; write(&MAKING, &[], &mut space[0..11]), Ok(11));
    assert!(rt; &space[0..11] == [2, 1, 0, 4, 2, 0, 0, 1, 2, 3, 255].as_slice());
}

#[test]
fn the_most_calls(rt: HostRuntime) -> Result<(), Fail> {
    let heap = rt.alloc();
    let calls = vec![in heap; LARGEST; 5_461]?;
    let mut space = vec![in heap; 99; 70_000]?;
    let none = Err(Fault::Log(LogFault::NoRoom, 0));
    assert_eq!(rt;
        write(&MAKING, calls.as_slice(), space.as_mut_slice()),
        none
    );
    assert!(rt; space.iter().all(|byte| *byte == 99));
    assert!(rt; calls.len() == 5_461);
    assert_eq!(rt;
        write(&MAKING, &calls.as_slice()[0..5_460], space.as_mut_slice()),
        Ok(65_531)
    );
    assert!(rt; space.len() == 70_000);
    let (_, part) = read(&space.as_slice()[0..65_531])?;
    assert_eq!(rt; part.len(), 65_520);
    assert_eq!(rt; call_at(part, 5_459), Some(LARGEST));
    Ok(())
}

#[test]
fn writing_again(rt: HostRuntime) -> Result<(), Fail> {
    let heap = rt.alloc();
    let mut space = [99; 64];
    let two = log(heap, &[(1, 4), (2, 24)], 28)?;
    assert_eq!(rt; rewrites_same(two.as_slice(), &mut space), Ok(true));
    let one = log(heap, &[(1, 4)], 4)?;
    assert_eq!(rt; rewrites_same(one.as_slice(), &mut space), Ok(false));
    let three = log(heap, &[(1, 4), (2, 12), (2, 12)], 28)?;
    assert_eq!(rt; rewrites_same(three.as_slice(), &mut space), Ok(false));
    assert_eq!(rt; rewrite(three.as_slice(), &mut space), Ok(35));
    assert!(rt; &space[0..35] == two.as_slice());
    Ok(())
}

#[test]
fn writing_again_is_refused(rt: HostRuntime) {
    let mut space = [99; 10];
    let none = Err(Fault::Log(LogFault::NoRoom, 0));
    assert_eq!(rt; rewrite(&[1, 1, 0, 4, 0, 0, 0, 0], &mut space), none);
    assert_eq!(rt;
        rewrite(&[1], &mut space),
        Err(Fault::Log(LogFault::ContentsCut, 1))
    );
    assert!(rt; space == [99; 10]);
}
