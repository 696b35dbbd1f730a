//! Tests of limits and cases: a line for each group, and for each case that goes wrong.
#![tactic(auto)]

mod answer;
mod builder;
mod changes;
mod code;
mod counts;
mod drafts;
mod extremes;
mod lengths;
mod refusals;
mod sample;
mod sections;
mod tally;
mod truncations;
mod vectors;
mod verdicts;

use anyhow::ensure;
use counts::{Count, around};
use std::io;
use tally::Tally;

// One call for each group: a call through a table of these functions gets no proof.

/// Files with known answers.
fn known_files(all: &mut Tally<'_>) -> io::Result<()> {
    all.group("vectors accepted", vectors::accepted)?;
    all.group("vectors damaged", vectors::damaged)?;
    all.group("verdicts", verdicts::verdicts)?;
    all.group("buffers", verdicts::buffers)
}

/// Books at each limit and past it.
fn limits(all: &mut Tally<'_>) -> io::Result<()> {
    all.group("depth", lengths::depth)?;
    all.group("length", lengths::length)?;
    all.group("devices", |tally| around(tally, Count::Devices))?;
    all.group("resources", |tally| around(tally, Count::Resources))?;
    all.group("rules", |tally| around(tally, Count::Rules))?;
    all.group("clauses", |tally| around(tally, Count::Clauses))?;
    all.group("slots", counts::slots)?;
    all.group("extremes", extremes::extremes)
}

/// What is refused, and what a draft then holds.
fn refused_files(all: &mut Tally<'_>) -> io::Result<()> {
    all.group("truncations", truncations::truncations)?;
    all.group("refusals", refusals::refusals)?;
    all.group("first of two", refusals::first_of_two)?;
    all.group("draft filled", drafts::filled)?;
    all.group("draft kept", drafts::kept)
}

fn main(rt: HostRuntime) -> anyhow::Result<()> {
    let mut all = Tally::new(&rt, "all");
    known_files(&mut all)?;
    limits(&mut all)?;
    refused_files(&mut all)?;
    println!(rt; "{all}")?;
    ensure!(all.is_right(), "a case went wrong");
    Ok(())
}
