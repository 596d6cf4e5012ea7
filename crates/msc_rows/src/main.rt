//! Rows: whole commands over shelves and sinks in memory, and whether what they print and answer is what the table says.
//!
//! README.md says how the table is written.
#![tactic(auto)]

mod escapes;
mod named;
mod setting;
mod table;
mod unread;

use std::io::{self, BufRead, BufReader};
use std::process::ExitCode;
use table::Table;

/// Reads the table and runs its rows. It says whether each line was read, and each row gave what it should.
fn run(rt: &(impl Print + Input + AllocGlobal)) -> io::Result<bool> {
    let alloc = rt.alloc();
    let Ok(mut table) = Table::new(alloc) else {
        return Err(io::Error::from(io::ErrorKind::OutOfMemory));
    };
    let mut unread = 0_u64;
    let mut number = 0_u64;
    for line in BufReader::new(alloc, rt.reader())?.lines(alloc) {
        let line = line?;
        number = number.saturating_add(1);
        match table.read(line.as_str()) {
            Ok(Some(told)) => println!(rt; "{told}")?,
            Ok(None) => {}
            Err(error) => {
                unread = unread.saturating_add(1);
                println!(rt; "line {number} can't be read: {error}")?;
            }
        }
    }
    let rows = table.rows();
    let differ = table.differ();
    println!(rt; "{rows} rows, {differ} differ, {unread} lines can't be read")?;
    Ok(differ == 0 && unread == 0)
}

fn main(rt: HostRuntime) -> io::Result<ExitCode> {
    let held = run(&rt)?;
    Ok(if held {
        ExitCode::SUCCESS
    } else {
        ExitCode::FAILURE
    })
}
