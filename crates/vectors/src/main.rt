//! The program `vectors`: it replays frames from standard input through `isdu`, and requests through a sensor, and
//! compares what they do with what each line says.
//!
//! docs/RULES.md, "Vectors", has the format of the lines and of what is printed.
#![tactic(auto)]

mod answers;
mod lines;
mod replays;
mod sensors;
mod tally;

use anyhow::anyhow;
use lines::{Line, Requests, Vector, read_line};
use replays::replay;
use sensor::Setup;
use sensors::AnySensor;
use std::io;
use std::io::{BufRead, BufReader};
use tally::Tally;
use words::KindName;

// A run over the lines. Requests go to the sensor of the last line that sets one up; before the first it is blank.
#[derive(Drop)]
struct Run<'a> {
    rt: &'a HostRuntime,
    sensor: AnySensor,
    tally: Tally,
}

impl Run<'_> {
    fn replay(&mut self, number: u64, line: &str, vector: &Vector) -> io::Result<()> {
        let seen = replay(vector);
        if let Err(mismatch) = &seen {
            println!(self.rt; "line {number}: {mismatch}: {line}")?;
        }
        self.tally.count(seen);
        Ok(())
    }

    fn set_up(
        &mut self,
        number: u64,
        line: &str,
        kind: KindName,
        setup: &Setup<Vec<u8>>,
    ) -> io::Result<()> {
        self.sensor = AnySensor::blank(kind);
        if let Err(fault) = self.sensor.set_up(setup) {
            println!(self.rt; "line {number}: denied {}: {line}", fault.denial.number())?;
            self.tally.count_mismatch();
        }
        Ok(())
    }

    fn request(&mut self, number: u64, requests: &Requests) -> io::Result<()> {
        for (place, frame) in (1u64..).zip(&requests.frames) {
            let seen = self.sensor.ask(frame.as_slice(), &requests.answer);
            if let Err(mismatch) = &seen {
                println!(self.rt; "line {number}: {mismatch}: frame {place}")?;
            }
            self.tally.count_request(seen);
        }
        Ok(())
    }

    fn take(&mut self, number: u64, text: &str, line: &Line) -> io::Result<()> {
        match line {
            Line::Frame(vector) => self.replay(number, text, vector),
            Line::Sensor(kind, setup) => self.set_up(number, text, *kind, setup),
            Line::Requests(requests) => self.request(number, requests),
        }
    }
}

fn main(rt: HostRuntime) -> anyhow::Result<()> {
    let heap = rt.alloc();
    let mut run = Run {
        rt: &rt,
        sensor: AnySensor::blank(KindName::Int16),
        tally: Tally::default(),
    };
    for (number, text) in (1u64..).zip(BufReader::new(heap, rt.stdin())?.lines(heap)) {
        let text = text?;
        let line = match read_line(heap, text.as_str()) {
            Ok(line) => line,
            Err(unreadable) => {
                println!(rt; "line {number} {unreadable}")?;
                return Err(anyhow!("unreadable vectors"));
            }
        };
        run.take(number, text.as_str(), &line)?;
    }
    println!(rt; "{}", run.tally)?;
    Ok(())
}
