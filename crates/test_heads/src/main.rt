//! Compares directives, filters and metas with tables of cases, whose outcomes come from other programs.
//! A line of a table is a case, ` => ` and its outcome; lines that differ are shown.
#![tactic(auto)]

mod directives;
mod fields;
mod heads;
mod metas;
mod words;

use std::alloc::{AllocError, Global};
use std::{fs, io};

// What a case is of.
#[derive(Clone, Copy)]
enum Kind {
    Directives,
    Head,
    Meta,
}

// What the crates make of a case.
fn outcome(alloc: Global, kind: Kind, case: &str) -> Result<String, AllocError> {
    match kind {
        Kind::Directives => directives::outcome(alloc, case),
        Kind::Head => heads::outcome(alloc, case),
        Kind::Meta => metas::outcome(alloc, case),
    }
}

// Compares each line of a table, and says how many agree.
fn compare(rt: &HostRuntime, title: &str, path: &str, kind: Kind) -> io::Result<()> {
    let text = fs::read_to_string(rt, path)?;
    let mut agree: u64 = 0;
    let mut differ: u64 = 0;
    for line in text.as_str().lines() {
        let Some((case, expected)) = line.split_once(" => ") else {
            continue;
        };
        let found = outcome(rt.alloc(), kind, case)?;
        if found.as_str() == expected {
            agree = agree.saturating_add(1);
        } else {
            differ = differ.saturating_add(1);
            println!(rt; "{line}\n    {found}")?;
        }
    }
    println!(rt; "{title}: {agree} agree, {differ} differ")
}

fn main(rt: HostRuntime) -> io::Result<()> {
    compare(&rt, "directives", "directives.txt", Kind::Directives)?;
    compare(&rt, "heads", "heads.txt", Kind::Head)?;
    compare(
        &rt,
        "directive examples",
        "directive_examples.txt",
        Kind::Directives,
    )?;
    compare(&rt, "head examples", "head_examples.txt", Kind::Head)?;
    compare(&rt, "metas", "metas.txt", Kind::Meta)
}
