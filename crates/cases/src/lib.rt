// A list of cases, each a table, a file of steps and the text that is expected of them, and the line that says how
// many differ.
#![tactic(auto)]

mod compare;
mod count;
mod report;

ghost use Rattle.std.specs.Prelude.{◌≡◌};
ghost use Rattle.ascii.specs.Buffer.{written, written_to};
ghost use Rattle.cases.specs.Cases.{tally_of};
ghost use Rattle.cases.specs.Report.{report_text};

// Runs the cases of a file and writes the line at the front of the buffer. The rest of the buffer stays as it was,
// and where there is no room for the line, all of it does.
pub fn report_cases(file: &[u8], out: &mut [u8]) -> Option<usize>
    ensures to { result ≡ written_to out.old 0 (report_text (tally_of file.now)) }
    ensures buffer { out.new ≡ written out.old 0 (report_text (tally_of file.now)) }
{
    report::report_line(count::run_cases(file)).put_to(out, 0)
}
