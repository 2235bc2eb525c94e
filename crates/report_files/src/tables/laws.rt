//! Laws of tables.
ghost use Rattle.report_files.specs.tables.Reports.{ReportsAreTables};

/// The text of the table of a configuration is its report.
pub fn reports_are_tables()
    ensures report { ReportsAreTables }
{}
