//! Ends of rows and cells, as three kinds of text write them.
ghost use Rattle.std.specs.Prelude.{◌≡◌, ◌≤◌, ◌<◌, ◌++◌, [], OnOk, string_bytes, replicate, nat_lt, if◌then◌else◌};
ghost use Rattle.std.specs.Fmt.{decimal};
ghost use Rattle.net_patterns.specs.OnGrids.{opening_of, spelling_of};
ghost use Rattle.net_patterns.specs.Written.{run_text, state_tag};

use std::alloc::AllocError;

/// How a pattern is written.
#[derive(Clone, Copy, Debug, PartialEq, Eq)]
pub enum PatternFormat {
    /// Runs after a header: of two states where no value is above 1, else of many.
    Runs,
    /// Rows of `.` and `O` after a comment.
    Rows,
}

/// A kind of text.
#[derive(Clone, Copy)]
pub(crate) enum Kind {
    /// Runs of two states.
    TwoStates,
    /// Runs of many states.
    ManyStates,
    /// Rows of `.` and `O`.
    Plain,
}

/// Writes a sign so many times.
fn put_repeated(out: &mut String, sign: char, count: u32) -> Result<(), AllocError>
    requires ascii { sign < 128 }
    ensures text { OnOk result (string_bytes out.new ≡ string_bytes out.old ++ replicate count sign) }
{
    for _ in 0..count {
        out.push(sign)?;
    }
    Ok(())
}

/// Writes the count of a run, which is left out where it is 1.
fn put_count(out: &mut String, count: u32) -> Result<(), AllocError>
    ensures text { OnOk result (string_bytes out.new ≡ string_bytes out.old ++ (if nat_lt 1 count then decimal count else [])) }
{
    if count > 1 {
        write!(out, "{count}")
    } else {
        Ok(())
    }
}

/// Writes a run of a tag; nothing where the count is 0.
fn put_run(out: &mut String, tag: &str, count: u32) -> Result<(), AllocError>
    ensures text { OnOk result (string_bytes out.new ≡ string_bytes out.old ++ run_text tag.now count) }
{
    if count == 0 {
        return Ok(());
    }
    put_count(out, count)?;
    out.push_str(tag)
}

/// Writes the letters of a state.
fn put_state(out: &mut String, state: u8) -> Result<(), AllocError>
    requires state { 1 ≤ state }
    ensures text { OnOk result (string_bytes out.new ≡ string_bytes out.old ++ state_tag state) }
{
    if state <= 24 {
        return out.push(char::from(b'@' + state));
    }
    out.push(char::from(b'o' + (state - 1) / 24))?;
    out.push(char::from(b'A' + (state - 1) % 24))
}

/// Writes a run of a state; nothing where the count is 0.
fn put_state_run(out: &mut String, state: u8, count: u32) -> Result<(), AllocError>
    requires state { 1 ≤ state }
    ensures text { OnOk result (string_bytes out.new ≡ string_bytes out.old ++ run_text (state_tag state) count) }
{
    if count == 0 {
        return Ok(());
    }
    put_count(out, count)?;
    put_state(out, state)
}

/// Writes so many ends of rows.
pub(crate) fn put_row_ends(out: &mut String, kind: Kind, count: u32) -> Result<(), AllocError>
    ensures text { OnOk result (string_bytes out.new ≡ string_bytes out.old ++ (spelling_of kind).row_ends count) }
{
    match kind {
        Kind::TwoStates | Kind::ManyStates => put_run(out, "$\n", count),
        Kind::Plain => put_repeated(out, '\n', count),
    }
}

/// Writes so many dead cells.
pub(crate) fn put_dead(out: &mut String, kind: Kind, count: u32) -> Result<(), AllocError>
    ensures text { OnOk result (string_bytes out.new ≡ string_bytes out.old ++ (spelling_of kind).dead count) }
{
    match kind {
        Kind::TwoStates => put_run(out, "b", count),
        Kind::ManyStates => put_run(out, ".", count),
        Kind::Plain => put_repeated(out, '.', count),
    }
}

/// Writes so many live cells of a state.
pub(crate) fn put_alive(
    out: &mut String,
    kind: Kind,
    state: u8,
    count: u32,
) -> Result<(), AllocError>
    requires state { 1 ≤ state }
    ensures text { OnOk result (string_bytes out.new ≡ string_bytes out.old ++ (spelling_of kind).alive state count) }
{
    match kind {
        Kind::TwoStates => put_run(out, "o", count),
        Kind::ManyStates => put_state_run(out, state, count),
        Kind::Plain => put_repeated(out, 'O', count),
    }
}

/// Writes the end of a text.
pub(crate) fn put_ending(out: &mut String, kind: Kind) -> Result<(), AllocError>
    ensures text { OnOk result (string_bytes out.new ≡ string_bytes out.old ++ (spelling_of kind).ending) }
{
    match kind {
        Kind::TwoStates | Kind::ManyStates => out.push_str("!\n"),
        Kind::Plain => out.push_str("\n"),
    }
}

/// Writes what stands before the cells of so many columns and rows.
pub(crate) fn put_opening(
    out: &mut String,
    kind: Kind,
    width: u32,
    height: u32,
) -> Result<(), AllocError>
    ensures text { OnOk result (string_bytes out.new ≡ string_bytes out.old ++ opening_of kind width height) }
{
    match kind {
        Kind::TwoStates | Kind::ManyStates => write!(out, "x = {width}, y = {height}\n"),
        Kind::Plain => write!(out, "!{width} columns, {height} rows\n"),
    }
}
