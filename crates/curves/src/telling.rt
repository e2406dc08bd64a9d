// The sentences that this program prints.
use limits::{Stair, Table};
use records::{Stroke, audit};
use rules::Rule;
use std::{fmt, io};

// "1 stroke", "3 strokes".
#[derive(Clone, Copy, Debug, PartialEq, Eq)]
struct Strokes(u64);

impl fmt::Display for Strokes {
    fn fmt<W: fmt::Write>(&self, f: &mut fmt::Formatter<W>) -> fmt::Result {
        match self.0 {
            1 => write!(f, "1 stroke"),
            n => write!(f, "{n} strokes"),
        }
    }
}

pub(super) fn tell_stair(rt: &impl Print, stair: Stair) -> io::Result<()> {
    println!(rt;
        "  at most {}, and one more for every {} ms of its length;",
        Strokes(stair.burst()),
        stair.period()
    )
}

pub(super) fn tell_table(rt: &impl Print, table: &Table) -> io::Result<()> {
    for (between, distance) in table.distances().iter().enumerate() {
        match between {
            0 => println!(rt; "  at least {distance} ms from a stroke to the next;")?,
            _ => println!(rt;
                "  at least {distance} ms from a stroke to one with {} between;",
                Strokes(between as u64)
            )?,
        }
    }
    Ok(())
}

// "0, 10, 30".
#[derive(Clone, Copy, Debug)]
struct Ticks<'a>(&'a [u64]);

impl fmt::Display for Ticks<'_> {
    fn fmt<W: fmt::Write>(&self, f: &mut fmt::Formatter<W>) -> fmt::Result {
        if let Some((first, others)) = self.0.split_first() {
            write!(f, "{first}")?;
            for tick in others {
                write!(f, ", {tick}")?;
            }
        }
        Ok(())
    }
}

pub(super) fn tell_dues(rt: &impl Print, due: &[u64]) -> io::Result<()> {
    println!(rt;
        "{} asked for at 0 ms, each as early as that allows, are due at {} ms.",
        Strokes(due.len() as u64),
        Ticks(due)
    )
}

// What the audit of one bell's strokes finds.
pub(super) fn tell_audit(
    rt: &impl Print,
    bell: u64,
    trace: &[Stroke],
    rule: &mut impl Rule,
) -> io::Result<()> {
    print!(rt; "A recorder wrote down bell {bell} at")?;
    for stroke in trace.iter().filter(|stroke| stroke.bell == bell) {
        print!(rt; " {}", stroke.due)?;
    }
    match audit(trace, bell, rule) {
        None => println!(rt; " ms: no stroke too many.")?,
        Some(place) => println!(rt; " ms: stroke {place} is one too many, and came too soon.")?,
    }
    println!(rt; "")
}
