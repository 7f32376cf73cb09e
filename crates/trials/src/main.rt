// Random trials of the library beside plain code, from fixed seeds: tables of bytes and of names in UTF-8, keys, comparisons,
// lists and questions, and input that is not as it should be. Writes how many of each kind were tried, and what differed.
#![tactic(auto)]

mod alphabet;
mod dice;
mod drawn;
mod joined;
mod lists;
mod named;
mod plain;
mod reading;
mod report;
mod spread;
mod trial;

use report::Report;
use std::io;
use std::process::ExitCode;

// Each is one table and all that is tried under it: first tables of bytes, then tables of names in UTF-8.
const TRIALS: u64 = 400;

const WIDE_TRIALS: u64 = 200;

fn main(rt: HostRuntime) -> io::Result<ExitCode> {
    let mut report = Report::new(rt.alloc());
    for number in 0..TRIALS {
        report.trial = number;
        trial::run(rt.alloc(), number, &mut report)?;
    }
    report.utf8 = true;
    for number in TRIALS..TRIALS + WIDE_TRIALS {
        report.trial = number;
        trial::run_in_utf8(rt.alloc(), number, &mut report)?;
    }
    rt.println(&report)?;
    Ok(if report.is_clean() {
        ExitCode::SUCCESS
    } else {
        ExitCode::FAILURE
    })
}
