//! Reports that are read.
ghost use Rattle.std.specs.Prelude.{◌≡◌, ◌≤◌, ◌<◌, ◌^◌, ℕ, List, length, map, take, IfOk, IfErr, MatchResult, Err};
ghost use Rattle.std.specs.Option.{option_map};
ghost use Rattle.rule_check.specs.Value.{names_of};
ghost use Rattle.rounds_plan.specs.Configs.{Configuration, most_rounds};
ghost use Rattle.report_text.specs.Front.{IsFront, Ends, Anything};
ghost use Rattle.report_text.specs.Report.{field_text, fields_text, node_line, node_lines, round_line};
ghost use Rattle.report_text.specs.ReadReport.{IsStateOf, IsReportOf, IsFirstBadLine, IsRefusedReport, plan_on, within_limit};
ghost use Rattle.rounds_plan.specs.Answer.{IsAnswer};
ghost use Rattle.report_text.specs.NodeLines.{HasNodeLines, IsStopped};
ghost use Rattle.report_text.specs.declared.fault.ReportFault.TheVariants.{BadLine, TooManyRounds, Memory};

use crate::fault::ReportFault;
use crate::fields_reader::read_state;
use crate::number::{behind, read_number};
use rounds_plan::{Config, MOST_ROUNDS, Plan, RoundStates};
use rule_check::{Program, State};
use std::alloc::Global;

/// The names of a program's fields in order of declaration; after them, nothing.
pub fn field_names(program: &Program) -> [&str; 8]
    ensures names { map (λ name. name.now) (take (length program.now.fields) result) ≡ names_of program.now }
{
    let mut names = [""; 8];
    for place in 0..program.field_count() {
        names[place as usize] = program.field_name(place).unwrap_or("");
    }
    names
}

/// The state that the line of a node gives, and what stands after the line.
fn read_node<'a>(fields: &[&str], node: u32, bytes: &'a [u8]) -> Option<(State, &'a [u8])>
    requires few { length fields.now ≤ 8 }
    ensures { IsFront (node_line (map (λ f. f.now) fields.now) node) (IsStateOf (length fields.now)) Anything bytes.now (option_map (λ x. (x.0, x.1.now)) result) }
{
    let (number, values) = read_number(bytes)?;
    if number != node {
        return None;
    }
    read_state(fields, values)
}

/// The round that the line of the round gives, and what stands after the line.
pub fn read_round(bytes: &[u8]) -> Option<(u32, &[u8])>
    ensures { IsFront round_line (λ t. t < 2 ^ 32) Anything bytes.now (option_map (λ x. (x.0, x.1.now)) result) }
{
    let number = behind(b"round ", bytes)?;
    let (rounds, end) = read_number(number)?;
    let more = behind(b"\n", end)?;
    Some((rounds, more))
}

/// The states that the lines of so many nodes give, which stand after the line of the round.
fn read_lines(
    alloc: Global,
    fields: &[&str],
    nodes: u32,
    lines: &[u8],
) -> Result<Vec<State>, ReportFault>
    requires few { length fields.now ≤ 8 }
    ensures ok { IfOk result (λ v. HasNodeLines (map (λ f. f.now) fields.now) (length fields.now) nodes lines.now v.items) }
    ensures bad { IfErr result (λ fault. IsStopped (map (λ f. f.now) fields.now) (length fields.now) nodes lines.now fault) }
{
    let mut states = Vec::new(alloc);
    let mut rest = lines;
    for node in 0..nodes {
        let Some((state, more)) = read_node(fields, node, rest) else {
            return Err(ReportFault::BadLine {
                line: node as u64 + 2,
            });
        };
        states.push(state)?;
        rest = more;
    }
    if !rest.is_empty() {
        return Err(ReportFault::BadLine {
            line: nodes as u64 + 2,
        });
    }
    Ok(states)
}

/// The states that the lines of so many nodes of a program give, which stand after the line of the round.
fn program_states(
    alloc: Global,
    program: &Program,
    nodes: u32,
    lines: &[u8],
) -> Result<Vec<State>, ReportFault>
    ensures ok { IfOk result (λ v. HasNodeLines (names_of program.now) (length program.now.fields) nodes lines.now v.items) }
    ensures bad { IfErr result (λ fault. IsStopped (names_of program.now) (length program.now.fields) nodes lines.now fault) }
{
    let names = field_names(program);
    let fields = &names[..program.field_count() as usize];
    read_lines(alloc, fields, nodes, lines)
}

/// The round and the states whose report the text is, for a program on so many nodes. A round with its states has one
/// report alone, as `report_states` writes it: no leading zeros, single spaces, the fields in order of declaration, and
/// LF at each line's end.
///
/// `BadLine` comes where the text is no report with the program's fields and so many nodes, and names the first line
/// that cannot stand at its place, or the first that is missing; where that is line 1, no memory is taken. Else
/// `TooManyRounds` comes where the round is above 1,000,000,000.
pub fn read_states(
    alloc: Global,
    program: &Program,
    nodes: u32,
    text: &[u8],
) -> Result<RoundStates, ReportFault>
    ensures report { IfOk result (λ read. IsReportOf (plan_on program.now nodes) text.now read × (read.rounds ≤ most_rounds)) }
    ensures every_report { (c : Configuration) → IsReportOf (plan_on program.now nodes) text.now c → IsAnswer ReportFault.Memory (within_limit c) result }
    ensures refused { IfErr result (IsRefusedReport (plan_on program.now nodes) text.now) }
    ensures at_once { IsFirstBadLine (plan_on program.now nodes) text.now 1 → result ≡ Err (BadLine 1) }
{
    // For the proof: what holds of the names of every program's fields.
    let _names = program.field_count();
    let Some((rounds, lines)) = read_round(text) else {
        return Err(ReportFault::BadLine { line: 1 });
    };
    let states = program_states(alloc, program, nodes, lines)?;
    if rounds > MOST_ROUNDS {
        return Err(ReportFault::TooManyRounds);
    }
    Ok(RoundStates::of(program, rounds, states))
}

/// The configuration whose report the text is. A configuration has one report alone: no leading zeros, single
/// spaces, the fields in order of declaration, and LF at each line's end.
///
/// `BadLine` comes where the text is no report of a configuration with the plan's nodes and fields, and names the
/// first line that cannot stand at its place, or the first that is missing; where that is line 1, no memory is taken.
/// Else `TooManyRounds` comes where the round is above 1,000,000,000.
pub fn read_report(alloc: Global, plan: &Plan, text: &[u8]) -> Result<Config, ReportFault>
    ensures report { IfOk result (λ config. IsReportOf plan.now text.now config × (config.rounds ≤ most_rounds)) }
    ensures every_report { (c : Configuration) → IsReportOf plan.now text.now c → IsAnswer ReportFault.Memory (within_limit c) result }
    ensures refused { IfErr result (IsRefusedReport plan.now text.now) }
    ensures at_once { IsFirstBadLine plan.now text.now 1 → result ≡ Err (BadLine 1) }
{
    let read = read_states(alloc, plan.program(), plan.network().nodes(), text)?;
    let rounds = read.rounds();
    Ok(Config::of(plan, rounds, read.into_states()))
}
