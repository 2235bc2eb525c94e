//! `cuts PROGRAM NETWORK --rounds T`: where values were cut.

use crate::cuts_request::{CutsFormat, CutsRequest};
use app_commands::{asked_by, labels_at, read_run_once, source_at};
use app_files::{Ending, path_in, print_out, program_name};
use app_jobs::{ServeFault, program_of};
use app_why::place_at;
use rounds_plan::RoundFault;
use rounds_walk::PlanRef;
use run_cuts::{Cut, Site, Telling, cuts, operator_places, put_json, put_text};
use run_watch::Format;
use std::alloc::{AllocError, Global};
use std::thread::Threads;

/// The site that is at this place of a program's text.
fn site_at(program: &[u8], at: usize) -> Site {
    let place = place_at(program, at);
    Site {
        line: place.line,
        column: place.column,
    }
}

/// The sites that are at these places of a program's text.
fn sites_at(alloc: Global, program: &[u8], places: &[usize]) -> Result<Vec<Site>, AllocError> {
    let mut sites = Vec::new(alloc);
    for at in places {
        sites.push(site_at(program, *at))?;
    }
    Ok(sites)
}

/// Where the operators of a program's text stand.
fn sites_of(alloc: Global, program: &[u8]) -> Result<Vec<Site>, AllocError> {
    let places = operator_places(alloc, program)?;
    sites_at(alloc, program, &places)
}

/// The form of what stands for nodes.
fn labels_form(format: CutsFormat) -> Format {
    match format {
        CutsFormat::Text => Format::Report,
        CutsFormat::Json => Format::Json,
    }
}

/// The ending where a round is refused.
fn no_round(fault: RoundFault) -> Ending {
    match fault {
        RoundFault::Memory => Ending::Memory,
        fault => Ending::Served(ServeFault::Round(fault)),
    }
}

/// What was cut in the rounds of a plan of a program with this text.
fn cuts_in(
    alloc: Global,
    program: &[u8],
    plan: &PlanRef<'_>,
    asked: &CutsRequest,
) -> Result<Vec<Cut>, Ending> {
    match program_of(alloc, program) {
        Ok((source, _program)) => {
            cuts(alloc, &source, plan, asked.rounds, asked.below).map_err(no_round)
        }
        Err(fault) => Err(Ending::Served(fault)),
    }
}

/// Cuts as they are told.
fn told_of(
    alloc: Global,
    format: CutsFormat,
    telling: &Telling<'_>,
    found: &[Cut],
) -> Result<Vec<u8>, AllocError> {
    let mut text = String::new(alloc);
    match format {
        CutsFormat::Text => put_text(&mut text, telling, found)?,
        CutsFormat::Json => put_json(&mut text, telling, found)?,
    }
    Ok(text.into_bytes())
}

/// What is told of the cuts of a plan of the program with this text.
fn cuts_text(
    alloc: Global,
    program: &[u8],
    plan: &PlanRef<'_>,
    asked: &CutsRequest,
    telling: &Telling<'_>,
) -> Result<Vec<u8>, Ending> {
    let found = cuts_in(alloc, program, plan, asked)?;
    told_of(alloc, asked.format, telling, &found).map_err(Ending::from)
}

/// What is told of a plan of the program with this text, by these operators' sites and these labels of nodes.
fn text_by(
    alloc: Global,
    program: &[u8],
    plan: &PlanRef<'_>,
    asked: &CutsRequest,
    sites: &[Site],
    labels: &[String],
) -> Result<Vec<u8>, Ending> {
    let name = program_name(alloc, asked.texts.plan.program.as_str())?;
    let telling = Telling {
        name: name.as_str(),
        sites,
        labels,
        rounds: asked.rounds,
        below: asked.below,
    };
    cuts_text(alloc, program, plan, asked, &telling)
}

/// What is told of a plan of the program with this text, by these labels of nodes.
fn labelled(
    alloc: Global,
    program: &[u8],
    plan: &PlanRef<'_>,
    asked: &CutsRequest,
    labels: &[String],
) -> Result<Vec<u8>, Ending> {
    let sites = sites_of(alloc, program)?;
    text_by(alloc, program, plan, asked, &sites, labels)
}

/// What is told of a plan of the program with this text.
fn text_on(
    rt: &HostRuntime,
    program: &[u8],
    plan: &PlanRef<'_>,
    asked: &CutsRequest,
) -> Result<Vec<u8>, Ending> {
    let nodes = plan.nodes();
    let labels = labels_at(rt, labels_form(asked.format), &asked.names, nodes)?;
    labelled(rt.alloc(), program, plan, asked, &labels)
}

/// What is told of the texts that are named.
fn text_for(
    rt: &HostRuntime,
    threads: &impl Threads,
    asked: &CutsRequest,
) -> Result<Vec<u8>, Ending> {
    let source = source_at(rt, threads, &asked.texts)?;
    let ground = source.ground(rt, &asked.texts)?;
    let plan = ground.lent(rt.alloc())?;
    text_on(rt, &source.program.text, &plan, asked)
}

/// Prints what is told of the texts that are named. The status with which the program ends.
fn put_told(rt: &HostRuntime, threads: &impl Threads, asked: &CutsRequest) -> Result<u8, Ending> {
    read_run_once(rt.alloc(), &asked.texts, path_in(&asked.names))?;
    let text = text_for(rt, threads, asked)?;
    print_out(rt, &text)
}

/// Tells where values were cut. The status with which the program ends.
pub fn tell_cuts(rt: &HostRuntime, threads: &impl Threads, words: &[String]) -> Result<u8, Ending> {
    let asked = asked_by(CutsRequest::parse(rt.alloc(), words))?;
    put_told(rt, threads, &asked)
}
