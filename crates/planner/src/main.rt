// Reports on a plan file: what is in it, or why it is turned down.
#![tactic(auto)]

ghost use Rattle.std.specs.Prelude.{◌≡◌, ◌++◌, IfOk, string_bytes, codes};
ghost use Rattle.refusal.specs.Shown.{refusal_text};

use anyhow::anyhow;
use plan::{Master, Plan};
use refusal::Refusal;
use std::alloc::{AllocError, Global};
use std::io::ErrorKind;
use std::process::ExitCode;
use std::{env, fmt, fs, io};

#[cfg(test)]
mod tests;

fn main(rt: HostRuntime) -> ExitCode {
    if let Err(e) = run(&rt) {
        let _ = eprintln!(rt; "planner: {e}");
        return ExitCode::FAILURE;
    }
    ExitCode::SUCCESS
}

fn run(rt: &HostRuntime) -> anyhow::Result<()> {
    let name = file_name(rt)?;
    let file = contents(rt, name.as_str()).map_err(|e| anyhow!("{name}: {e}"))?;
    let report = report(rt.alloc(), name.as_str(), file.as_slice())?;
    print!(rt; "{report}")?;
    Ok(())
}

// The file that is asked for, plan.bin where none is.
fn file_name(rt: &HostRuntime) -> anyhow::Result<String> {
    let mut args = env::args(rt)?;
    let _program = args.next();
    let Some(name) = args.next() else {
        return Ok(String::from_str(rt.alloc(), "plan.bin")?);
    };
    if args.next().is_some() {
        return Err(anyhow!("usage: planner [FILE]"));
    }
    Ok(name)
}

// What the file holds; a missing one is as an empty one.
fn contents(rt: &HostRuntime, name: &str) -> io::Result<Vec<u8>> {
    match fs::read(rt, name) {
        Err(e) if e.kind() == ErrorKind::NotFound => Ok(Vec::new(rt.alloc())),
        read => read,
    }
}

// What is told of a plan, behind the name of its file. (A plan has no text of its own, since its masters
// and streams are numbered in it.)
#[derive(Clone, Copy)]
struct PlanLines<'a>(&'a Plan);

impl fmt::Display for PlanLines<'_> {
    fn fmt<W: fmt::Write>(&self, f: &mut fmt::Formatter<W>) -> fmt::Result {
        let plan = self.0;
        let masters = plan.masters();
        let count = masters.len();
        let plural = if count == 1 { "" } else { "s" };
        let walk = plan.walk();
        let target = plan.target();
        let unset = if target == 0 { " (not set)" } else { "" };
        writeln!(
            f,
            "{count} master{plural}, walk {walk}, target {target}{unset}"
        )?;
        for (i, master) in masters.iter().enumerate() {
            show_master(f, i + 1, master)?;
        }
        Ok(())
    }
}

fn show_master<W: fmt::Write>(
    f: &mut fmt::Formatter<W>,
    number: usize,
    master: &Master,
) -> fmt::Result {
    let hop = master.hop();
    writeln!(f, "master {number}: hop {hop}")?;
    show_streams(f, "high", master.highs())?;
    show_streams(f, "low", master.lows())
}

// A line for each stream, numbered from 1.
fn show_streams<W: fmt::Write, S: fmt::Display>(
    f: &mut fmt::Formatter<W>,
    kind: &str,
    streams: &[S],
) -> fmt::Result {
    for (i, stream) in streams.iter().enumerate() {
        let number = i + 1;
        writeln!(f, "  {kind} {number}: {stream}")?;
    }
    Ok(())
}

// The lines that tell what is in a file, or the one that tells why it is turned down.
fn report(heap: Global, name: &str, file: &[u8]) -> Result<String, AllocError> {
    match planfile::read(file) {
        Ok(plan) => {
            let lines = PlanLines(&plan);
            format!(in heap; "{name}: {lines}")
        }
        Err(refusal) => refusal_line(heap, name, refusal),
    }
}

fn refusal_line(heap: Global, name: &str, refusal: Refusal) -> Result<String, AllocError>
    ensures { IfOk result (λ s. string_bytes s ≡ name.now ++ (codes ": " ++ (refusal_text refusal ++ codes "\n"))) }
{
    format!(in heap; "{name}: {refusal}\n")
}
