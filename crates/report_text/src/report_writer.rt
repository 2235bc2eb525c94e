//! Reports that are written.
ghost use Rattle.std.specs.Prelude.{◌≡◌, ◌++◌, ◌<◌, [], OnOk, IfOk, string_bytes, length, slice_index_or};
ghost use Rattle.rule_check.specs.Value.{names_of};
ghost use Rattle.report_text.specs.Report.{field_text, fields_text, node_line, report_text};

use rounds_plan::{Config, Plan};
use rule_check::{Program, State};
use std::alloc::{AllocError, Global};

/// Writes a value of the field at a place after what stands in the text: one space, the field's name, `=` and the value in
/// decimal digits.
///
/// Where memory runs out some of it may stand there.
pub fn put_field(
    out: &mut String,
    program: &Program,
    place: u32,
    value: u32,
) -> Result<(), AllocError>
    requires place { place < length program.now.fields }
    ensures text { OnOk result (string_bytes out.new ≡ string_bytes out.old ++ field_text (slice_index_or (names_of program.now) place []) value) }
{
    let name = program.field_name(place).unwrap_or("");
    write!(out, " {name}={value}")
}

/// Writes a state's fields after what stands in the text: for each field, in order of declaration, one space, its
/// name, `=` and its value in decimal digits, as in ` dist=3`. Words after the fields are not written.
///
/// Where memory runs out some of it may stand there.
pub fn put_fields(out: &mut String, program: &Program, state: &State) -> Result<(), AllocError>
    ensures text { OnOk result (string_bytes out.new ≡ string_bytes out.old ++ fields_text (names_of program.now) state.now.words) }
{
    for place in 0..program.field_count() {
        put_field(out, program, place, state.words[place as usize])?;
    }
    Ok(())
}

/// Writes the line of a node after what stands in the text.
fn put_node(
    out: &mut String,
    program: &Program,
    node: usize,
    state: &State,
) -> Result<(), AllocError>
    ensures { OnOk result (string_bytes out.new ≡ string_bytes out.old ++ node_line (names_of program.now) node state.now) }
{
    write!(out, "{node}")?;
    put_fields(out, program, state)?;
    out.push_str("\n")
}

/// The report of states at a round: the round, and for each node by rising number its fields with their values. It is
/// the text that `report` gives of a configuration with these states.
pub fn report_states(
    alloc: Global,
    program: &Program,
    rounds: u32,
    states: &[State],
) -> Result<Vec<u8>, AllocError>
    ensures text { IfOk result (λ v. v.items ≡ report_text (names_of program.now) (record { rounds = rounds; fields = length program.now.fields; states = states.now })) }
{
    let mut out = String::new(alloc);
    write!(out, "round {rounds}\n")?;
    for (node, state) in states.iter().enumerate() {
        put_node(&mut out, program, node, state)?;
    }
    Ok(out.into_bytes())
}

/// The report of a configuration: its round, and for each node by rising number its fields with their values.
pub fn report(alloc: Global, plan: &Plan, config: &Config) -> Result<Vec<u8>, AllocError>
    requires nodes { length config.now.states ≡ length plan.now.network }
    requires fields { config.now.fields ≡ length plan.now.program.fields }
    ensures text { IfOk result (λ v. v.items ≡ report_text (names_of plan.now.program) config.now) }
{
    let rounds = config.rounds();
    report_states(alloc, plan.program(), rounds, config.states())
}
