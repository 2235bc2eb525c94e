//! What stands before the lines of a run, or of some runs: what varies, and its values.
ghost use Rattle.std.specs.Prelude.{◌≡◌, ◌++◌, IfOk, OnOk, codes, string_bytes};
ghost use Rattle.std.specs.List.{flat_map};
ghost use Rattle.run_counts.specs.Settings.{head_text, json_value, names_text, setting_cell, value_text};

use crate::asked::CountFormat;
use crate::ensemble::{Setting, SettingValue};
use std::alloc::{AllocError, Global};

/// A value, in CSV.
fn put_value(out: &mut String, value: &SettingValue) -> Result<(), AllocError>
    ensures text { OnOk result (string_bytes out.new ≡ string_bytes out.old ++ value_text value.now) }
{
    match value {
        SettingValue::Number(number) => write!(out, "{number}"),
        SettingValue::Decimal(text) | SettingValue::Name(text) => out.push_str(text.as_str()),
    }
}

/// A name between quotes.
fn put_quoted(out: &mut String, name: &str) -> Result<(), AllocError>
    ensures text { OnOk result (string_bytes out.new ≡ string_bytes out.old ++ (codes "\"" ++ (name.now ++ codes "\""))) }
{
    out.push_str("\"")?;
    out.push_str(name)?;
    out.push_str("\"")
}

/// A value, in JSON: names stand between quotes.
fn put_json_value(out: &mut String, value: &SettingValue) -> Result<(), AllocError>
    ensures text { OnOk result (string_bytes out.new ≡ string_bytes out.old ++ json_value value.now) }
{
    match value {
        SettingValue::Name(name) => put_quoted(out, name.as_str()),
        value => put_value(out, value),
    }
}

/// A value under what it is of.
fn put_setting(out: &mut String, format: CountFormat, setting: &Setting) -> Result<(), AllocError>
    ensures text { OnOk result (string_bytes out.new ≡ string_bytes out.old ++ setting_cell format setting.now) }
{
    if format == CountFormat::Csv {
        put_value(out, &setting.value)?;
        return out.push_str(",");
    }
    put_quoted(out, setting.name.as_str())?;
    out.push_str(":")?;
    put_json_value(out, &setting.value)?;
    out.push_str(",")
}

/// Values, each under what it is of.
fn put_settings(
    out: &mut String,
    format: CountFormat,
    settings: &[Setting],
) -> Result<(), AllocError>
    ensures text { OnOk result (string_bytes out.new ≡ string_bytes out.old ++ head_text format settings.now) }
{
    for setting in settings {
        put_setting(out, format, setting)?;
    }
    Ok(())
}

/// What stands before the round in a line.
pub(crate) fn head_of(
    alloc: Global,
    format: CountFormat,
    settings: &[Setting],
) -> Result<String, AllocError>
    ensures text { IfOk result (λ head. string_bytes head ≡ head_text format settings.now) }
{
    let mut head = String::new(alloc);
    put_settings(&mut head, format, settings)?;
    Ok(head)
}

/// What stands before `round` in the line of headings.
pub(crate) fn put_names(out: &mut String, settings: &[Setting]) -> Result<(), AllocError>
    ensures text { OnOk result (string_bytes out.new ≡ string_bytes out.old ++ names_text settings.now) }
{
    for setting in settings {
        out.push_str(setting.name.as_str())?;
        out.push_str(",")?;
    }
    Ok(())
}
