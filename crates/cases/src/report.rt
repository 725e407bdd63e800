// The line that is printed.
ghost use Rattle.std.specs.Prelude.{◌≡◌, ◌+◌, ◌++◌, ◌≤◌, ◌<◌, ◌^◌, length};
ghost use Rattle.listing.specs.Writer.{room};
ghost use Rattle.cases.specs.Report.{counts_text, differ_text, cut_text, report_text};

use crate::count::Tally;
use listing::writer::Writer;

#[tactic(auto, unfolding(ascii::specs::Text::bytes, crate::specs::Report::counts_text))]
fn put_counts(line: &mut Writer, tally: Tally)
    requires { length line.old + 48 ≤ room }
    ensures text { line.new ≡ line.old ++ counts_text tally }
    ensures len { length line.new ≤ length line.old + 48 }
{
    line.put_number(tally.cases);
    line.put(b" cases, ");
    line.put_number(tally.differ);
}

#[tactic(auto, unfolding(ascii::specs::Text::bytes, crate::specs::Report::differ_text))]
fn put_differ(line: &mut Writer, tally: Tally)
    requires { length line.old + 40 ≤ room }
    ensures text { line.new ≡ line.old ++ differ_text tally }
    ensures len { length line.new ≤ length line.old + 40 }
{
    match tally.first {
        None => line.put(b" differ"),
        Some(first) if tally.differ == 1 => {
            line.put(b" differs: case ");
            line.put_number(first);
        }
        Some(first) => {
            line.put(b" differ: case ");
            line.put_number(first);
            line.put(b" first");
        }
    }
}

#[tactic(auto, unfolding(ascii::specs::Text::bytes, crate::specs::Report::cut_text))]
fn put_cut(line: &mut Writer, tally: Tally)
    requires { (length line.old + 40 ≤ room) × (tally.cases + 1 < 2 ^ 64) }
    ensures text { line.new ≡ line.old ++ cut_text tally }
    ensures len { length line.new ≤ length line.old + 40 }
{
    if tally.cut {
        line.put(b"; case ");
        line.put_number(tally.cases + 1);
        line.put(b" is cut");
    }
}

#[tactic(auto, unfolding(crate::specs::Report::report_text))]
pub fn report_line(tally: Tally) -> Writer
    requires { tally.cases + 1 < 2 ^ 64 }
    ensures { result ≡ report_text tally }
{
    let mut line = Writer::new();
    put_counts(&mut line, tally);
    put_differ(&mut line, tally);
    put_cut(&mut line, tally);
    line.put(b"\n");
    line
}
