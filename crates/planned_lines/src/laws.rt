//! How long the outputs of a plan are, and what the totals are.
ghost use Rattle.planned_lines.specs.KeptRows.{TotalsAreOfKeptRows};
ghost use Rattle.planned_lines.specs.LineYields.{PlannedOutputsAreShort, PlannedLinesEndWithTotals, PlannedLinesAreAlone};

/// An output is no longer than the record limit and a delimiter, so that the counts of a reply fit 128 bits.
pub fn planned_outputs_are_short()
    ensures { PlannedOutputsAreShort }
{}

/// With aggregates the record behind the last line is that of the totals with the rows of all lines, one after the other.
pub fn planned_lines_end_with_totals()
    ensures { PlannedLinesEndWithTotals }
{}

/// Where no record has a code, these totals are those of the rows that the condition keeps, each added to all aggregates. So the laws of
/// `sql_totals` tell what COUNT, SUM, AVG, MIN and MAX are of them.
pub fn totals_are_of_kept_rows()
    ensures { TotalsAreOfKeptRows }
{}

/// Without aggregates each line yields what it would alone, and nothing stands behind the last one.
pub fn planned_lines_are_alone()
    ensures { PlannedLinesAreAlone }
{}
