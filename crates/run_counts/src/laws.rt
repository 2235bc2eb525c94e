//! Laws of counting.
ghost use Rattle.run_counts.specs.Counts.{CellsAreCounts};
ghost use Rattle.run_counts.specs.Records.{HeadingsAreRecords, LongLinesAreRecords, ValuesAreTold, WideLinesAreRecords};
ghost use Rattle.run_counts.specs.Spread.{DeviationsAreNearest, MeansAreNearest};

/// The number that stands under a value in the line of a round is the number of nodes that have this value after it: 0
/// where none has it, which then may have it after another round.
pub fn cells_are_counts()
    ensures cells { CellsAreCounts }
{}

/// A line of CSV, cut at its commas, is the decimals of its numbers: of the round, of the number of nodes for each value
/// that has a column, or of the number of nodes that have the value of the line, and of the further numbers. They are to
/// fit 64 bits. The value of a line stands after the round, by its name where it has one. Where each value has a column,
/// the line of the headings is `round`, what the values are called and what the further numbers are called. Names of
/// values are to be words, each once; then two values that are called the same are one.
pub fn csv_is_read_back()
    ensures rounds { WideLinesAreRecords }
    ensures values { LongLinesAreRecords }
    ensures headings { HeadingsAreRecords }
    ensures told { ValuesAreTold }
{}

/// A mean is the number of ten-thousandths that is nearest to the sum divided by how many numbers there are, and of two
/// that are as near the greater. A deviation is the one nearest to the root of the sample's variance: of the sum of the
/// squares of the numbers' distances from their mean, divided by one less than how many there are.
pub fn means_are_nearest()
    ensures means { MeansAreNearest }
    ensures deviations { DeviationsAreNearest }
{}
