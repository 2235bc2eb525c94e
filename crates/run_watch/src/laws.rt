//! Laws of watching.
ghost use Rattle.run_watch.specs.Objects.{JsonLabelsAreTexts, JsonNodesAreNumbers, JsonRowsAreObjects};
ghost use Rattle.run_watch.specs.Records.{CsvHeadingsAreRecords, CsvRowsAreRecords, CsvRowsTell};
ghost use Rattle.run_watch.specs.Reports.{WholePartsAreReports};

/// A configuration that is shown as a report, with all fields in order, all nodes and their numbers, is its report.
pub fn whole_parts_are_reports()
    ensures report { WholePartsAreReports }
{}

/// A line of CSV, cut at its commas, is the round, what stands for the node, and the values of the shown fields in
/// order, by their names where they have some. The line of the headings is `round`, `node` and the names of the shown
/// fields, as many as each line has. Two lines that are equal say the same round, the same node and the same values.
/// Labels are to have no comma and no LF, and names of values are to be words, each once in its field.
pub fn csv_is_read_back()
    ensures rows { CsvRowsAreRecords }
    ensures headings { CsvHeadingsAreRecords }
    ensures tell { CsvRowsTell }
{}

/// A line of JSON is read as an object of `round`, `node` and the shown fields by their names, in this order, each with
/// its number, or with the text that names the value; names of values are to be words. What stands for a node is its
/// number, or its label, which is to be the text of a JSON value that is no array and no object: a label in quotes, as
/// JSON spells a text, is read as that text.
pub fn json_is_read_back()
    ensures rows { JsonRowsAreObjects }
    ensures nodes { JsonNodesAreNumbers }
    ensures labels { JsonLabelsAreTexts }
{}
