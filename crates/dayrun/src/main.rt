// Runs the day whose log is on standard input, and prints its report. It ends with status 0, whatever the log is.
#![tactic(auto)]

use anyhow::anyhow;
use day::{DayError, DayReport, run_day};
use daylog::read::LONGEST_LOG;
use listing::refused_line;
use report::lines::{call_line, end_line, made_line};
use std::io::Read;

fn main(rt: HostRuntime) {
    if let Err(error) = run(&rt) {
        let _ = eprintln!(rt; "dayrun: {error}");
    }
}

// Reads one byte more than the longest log has, so that a longer one is refused for its length. loglist reads in the same way, and says why.
fn run(rt: &HostRuntime) -> anyhow::Result<()> {
    let mut log = Vec::new(rt.alloc());
    rt.stdin()
        .take(LONGEST_LOG as u64 + 1)
        .read_to_end(&mut log)?;
    match run_day(rt.alloc(), log.as_slice()) {
        Ok(report) => print_report(rt, &report)?,
        Err(DayError::Refused(fault)) => rt.println(refused_line(rt.alloc(), &fault)?)?,
        Err(DayError::Memory) => return Err(anyhow!("out of memory")),
    }
    Ok(())
}

// How the section was made, each call in its order, and the end.
fn print_report(rt: &HostRuntime, report: &DayReport) -> anyhow::Result<()> {
    rt.println(made_line(rt.alloc(), &report.made)?)?;
    for turn in report.turns.iter() {
        rt.println(call_line(rt.alloc(), turn)?)?;
    }
    rt.println(end_line(rt.alloc(), &report.end)?)?;
    Ok(())
}
