// A caller of a day: what the contract of the replay alone lets it know.
ghost use Rattle.day_tests.specs.Turns.{Counted};

use day::{DayError, run_day};
use std::alloc::Global;

// How many turns a day has: as many as its log has calls.
#[tactic(auto, using(crate::proofs::Lengths::turns_of_day))]
pub fn turn_count(heap: Global, log: &[u8]) -> Result<usize, DayError>
    ensures { Counted result log.now }
{
    let day = run_day(heap, log)?;
    Ok(day.turns.as_slice().len())
}

#[cfg(test)]
mod tests {
    use super::turn_count;
    use day::DayError;
    use std::test::Fail;
    use vocabulary::fault::{Fault, LogFault};

    // A making alone, then the same with two calls: a drop and a mend.
    #[test]
    fn a_turn_for_each_call(rt: HostRuntime) -> Result<(), Fail> {
        let alone = [1, 1, 0, 4, 0, 0, 12, 4];
        assert_eq!(rt; turn_count(rt.alloc(), &alone), Ok(0));
        let mut log = Vec::new(rt.alloc());
        log.extend_from_slice(&[2, 1, 0, 4, 2, 0, 24, 0, 0, 12, 4])?;
        log.extend_from_slice(&[13, 0, 0, 0, 0, 0, 0, 0, 0, 0, 0, 0])?;
        log.extend_from_slice(&[14, 0, 0, 0, 0, 0, 0, 0, 0, 0, 0, 0])?;
        assert_eq!(rt; turn_count(rt.alloc(), log.as_slice()), Ok(2));
        match turn_count(rt.alloc(), &[]) {
            Err(DayError::Refused(fault)) => {
                assert_eq!(rt; fault, Fault::Log(LogFault::Start, 0))
            }
            _ => return Err(Fail::new("an empty log was not refused")),
        }
        Ok(())
    }
}
