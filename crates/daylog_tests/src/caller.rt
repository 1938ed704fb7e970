// A caller of the day log: what the contracts of reading alone let it know.
ghost use Rattle.std.specs.Prelude.{◌≡◌};
ghost use Rattle.daylog_tests.specs.FirstCall.{first_call_of};

use daylog::call::call_at;
use daylog::read::read;
use vocabulary::fields::CallFields;

// The first call of a log; none where the log is refused, or has no call.
pub fn first_call(log: &[u8]) -> Option<CallFields>
    ensures { result ≡ first_call_of log.now }
{
    match read(log) {
        Ok((_, calls)) => call_at(calls, 0),
        Err(_) => None,
    }
}

#[cfg(test)]
mod tests {
    use super::first_call;
    use crate::samples::{FIRST, LARGEST, MAKING};
    use daylog::write::write;
    use std::test::Fail;

    #[test]
    fn the_first_call(rt: HostRuntime) -> Result<(), Fail> {
        let mut space = [0; 35];
        let _ = write(&MAKING, &[FIRST, LARGEST], &mut space)?;
        assert_eq!(rt; first_call(&space), Some(FIRST));
        let _ = write(&MAKING, &[], &mut space[0..11])?;
        assert_eq!(rt; first_call(&space[0..11]), None);
        assert_eq!(rt; first_call(&[1]), None);
        Ok(())
    }
}
