//! The program `bench`: it runs a session script on real sensors and prints what they answered.
#![tactic(auto)]

mod help;
mod printed;
mod run;
mod script;
mod session;
mod timeline;

use anyhow::anyhow;
use bench_sensor::BenchSensor;
use help::HELP;
use kinds::{Float32T, IntegerT16, IntegerT32};
use run::{Bench, Tally};
use session::{Section, Session, Show, Trouble};
use std::io::Read;
use std::{env, io};
use words::KindName;

// What the program is asked for.
#[derive(Clone, Copy)]
enum Task {
    Help,
    Run { changes: bool },
}

fn read_task(rt: &HostRuntime) -> anyhow::Result<Task> {
    let mut changes = false;
    for argument in env::args(rt)?.skip(1) {
        match argument.as_str() {
            "--help" => return Ok(Task::Help),
            "--changes" => changes = true,
            other => return Err(anyhow!("unknown argument {other}: expected --changes or --help")),
        }
    }
    Ok(Task::Run { changes })
}

// A blank sensor is made where its kind, and with it its size, is known: in generic code it was tried, and that a
// sensor of any kind fits into memory stayed open.
fn run_section(bench: &mut Bench, section: &Section, shows: &[Show]) -> io::Result<()> {
    let calls = section.calls.as_slice();
    match section.kind {
        KindName::Int16 => bench.run(BenchSensor::<IntegerT16>::blank(), calls, shows),
        KindName::Int32 => bench.run(BenchSensor::<IntegerT32>::blank(), calls, shows),
        KindName::Float32 => bench.run(BenchSensor::<Float32T>::blank(), calls, shows),
    }
}

// Each section with the shows that stand in it.
fn run_sections(bench: &mut Bench, session: &Session) -> io::Result<()> {
    let mut left = session.shows.as_slice();
    for (number, section) in (1usize..).zip(&session.sections) {
        let here = left
            .iter()
            .take_while(|show| show.section == number)
            .count();
        let (shows, later) = left.split_at_checked(here).unwrap_or((left, &[]));
        run_section(bench, section, shows)?;
        left = later;
    }
    Ok(())
}

// Reads the script into a session. The text is let go before the calls are made.
fn read_session(rt: &HostRuntime, session: &mut Session) -> anyhow::Result<Result<(), Trouble>> {
    let heap = rt.alloc();
    let mut octets = Vec::new(heap);
    rt.stdin().read_to_end(&mut octets)?;
    Ok(session.read(heap, octets.as_slice()))
}

fn run_session(rt: &HostRuntime, changes: bool) -> anyhow::Result<()> {
    let mut session = Session::new(rt.alloc());
    let read = read_session(rt, &mut session)?;
    let mut bench = Bench {
        rt,
        changes,
        tally: Tally::default(),
    };
    run_sections(&mut bench, &session)?;
    if let Err(trouble) = read {
        // The line is told on standard error, with what was expected there.
        eprintln!(rt; "{trouble}")?;
        return Err(anyhow!("the script was not read to its end"));
    }
    println!(rt; "{}", bench.tally)?;
    Ok(())
}

fn main(rt: HostRuntime) -> anyhow::Result<()> {
    match read_task(&rt)? {
        Task::Help => Ok(print!(rt; "{HELP}")?),
        Task::Run { changes } => run_session(&rt, changes),
    }
}
