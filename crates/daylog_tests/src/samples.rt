// Logs to try.
use daylog::read::read;
use std::alloc::{AllocError, Global};
use std::iter;
use vocabulary::fields::{CallFields, MakingFields};

// A log with the given entries, each a kind and a length, and so many zero bytes behind them.
pub(crate) fn log(
    heap: Global,
    entries: &[(u8, u16)],
    bodies: usize,
) -> Result<Vec<u8>, AllocError> {
    let mut log = Vec::new(heap);
    log.push((entries.len() & 0xff) as u8)?;
    for (kind, length) in entries {
        log.push(*kind)?;
        log.extend_from_slice(&length.to_be_bytes())?;
    }
    log.extend(iter::repeat_n(0, bodies))?;
    Ok(log)
}

// A fault's number and place, where the log is refused.
pub(crate) fn fault(log: &[u8]) -> Option<(u8, usize)> {
    let fault = read(log).err()?;
    Some((fault.number(), fault.place()))
}

// The same of a log with the given entries, and so many zero bytes behind them.
pub(crate) fn fault_of(
    heap: Global,
    entries: &[(u8, u16)],
    bodies: usize,
) -> Result<Option<(u8, usize)>, AllocError> {
    Ok(fault(log(heap, entries, bodies)?.as_slice()))
}

pub(crate) const MAKING: MakingFields = MakingFields {
    track: 1,
    line: 2,
    running_time: 3,
    tray: 255,
};

pub(crate) const FIRST: CallFields = CallFields {
    call: 3,
    station: 1,
    minute: 0x0102_0304,
    number: 0x0506_0708,
    nature: 9,
    pass: 10,
};

pub(crate) const LARGEST: CallFields = CallFields {
    call: 255,
    station: 255,
    minute: 0xffff_ffff,
    number: 0xffff_ffff,
    nature: 255,
    pass: 255,
};
