// At which lines of a report its parts are.

ghost use Rattle.std.specs.Prelude.{◌^◌};
ghost use Rattle.report_text.specs.Reports.{parts_of};
ghost use Rattle.plan_check.specs.Numbering.{size_number, clocks_number, bits_number};
ghost use Rattle.plan_check.specs.Stages.{HasFewLines, IsCount};

use report_text::Report;

// The number of the line of the frame's size.
pub(crate) fn size_line(report: &Report) -> u64
    ensures { IsCount 4 (size_number (parts_of report.now)) result }
{
    if report.version == 1 { 1 } else { 4 }
}

// The number of the line of the clocks.
pub(crate) fn clocks_line(report: &Report) -> u64
    requires { HasFewLines (parts_of report.now) }
    ensures { IsCount (2 ^ 10) (clocks_number (parts_of report.now)) result }
{
    size_line(report) + report.images.len() as u64 + report.latencies.len() as u64 + 1
}

// The number of the line of the bits.
pub(crate) fn bits_line(report: &Report) -> u64
    requires { HasFewLines (parts_of report.now) }
    ensures { IsCount (2 ^ 11) (bits_number (parts_of report.now)) result }
{
    clocks_line(report) + 1
}
