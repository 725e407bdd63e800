// The lines before the first step, and the opening with what they set.
ghost use Rattle.std.specs.Prelude.{◌≡◌, ℕ, List};
ghost use Rattle.walk.specs.Step.{open_with, opening_of};
ghost use Rattle.steps.specs.Split.{lines_of};
ghost use Rattle.output.specs.State.{left};
ghost use Rattle.output.specs.Replay.{setting_lines, defaults};
ghost use Rattle.output.specs.Settings.{columns_in, next_settings, Read};

use crate::State;
use layout::{BinTable, TFIELDS_LIMIT};
use refusal::Refusal;
use steps::Command;
use walk::TableData;

// What is set so far, and the place after the lines that were read. The columns are those of the `choose` line that
// begins at a place of the steps, all where there is none.
#[derive(Clone, Copy)]
pub struct Settings {
    pub choose: Option<usize>,
    pub heap: bool,
    pub at: usize,
}

// The settings after the next line; none where the lines before the first step are over: at the end of the steps, and
// where the line is a step or no command.
fn next_settings(steps: &[u8], settings: Settings) -> Option<Settings>
    ensures { result ≡ next_settings steps.now settings }
{
    if steps.len() <= settings.at {
        return None;
    }
    let line = steps::line_at(steps, settings.at);
    let (choose, heap) = match steps::parse_command(line)? {
        Command::ChooseAll => (None, settings.heap),
        Command::Choose => (Some(settings.at), settings.heap),
        Command::Heap(on) => (settings.choose, on),
        Command::Cell(_) | Command::Row { .. } | Command::Seek(_) => return None,
    };
    Some(Settings {
        choose,
        heap,
        at: settings.at + line.len() + 1,
    })
}

// Reads the lines before the first step.
#[tactic(auto, using(crate::proofs::Before::place_next, crate::proofs::Before::reading_next, crate::proofs::Before::reading_over), unfolding(steps::specs::Split::line_feeds))]
fn read_settings(steps: &[u8]) -> Settings
    ensures { Read steps.now result }
{
    let mut settings = Settings {
        choose: None,
        heap: true,
        at: 0,
    };
    while let Some(next) = next_settings(steps, settings) {
        settings = next;
    }
    settings
}

// The opening with what the lines set.
#[tactic(auto, using(crate::proofs::Columns::columns_placed))]
fn open(
    layout: BinTable,
    area: &[u8],
    steps: &[u8],
    choose: Option<usize>,
    heap: bool,
) -> Result<TableData, Refusal>
    ensures { opening_of result ≡ open_with layout area.now (columns_in steps.now choose) heap }
{
    match choose {
        None => table::open(layout, area, heap),
        Some(at) => {
            // Place c holds c if the line chooses column c, and else a number that is no column's. A line may list any
            // number of indexes, and there is no heap for a list of them.
            let mut columns = [TFIELDS_LIMIT; TFIELDS_LIMIT];
            steps::place_indexes(steps::line_at(steps, at), &mut columns);
            table::select_fields(layout, area, &columns, heap)
        }
    }
}

// The state in which the first step is next, or the refusal of the opening.
pub fn first_step(layout: BinTable, area: &[u8], steps: &[u8]) -> State
    ensures { (h : List ℕ) → left h layout area.now steps.now result
        ≡ setting_lines layout area.now defaults 1 (lines_of steps.now) }
{
    let Settings { choose, heap, at } = read_settings(steps);
    match open(layout, area, steps, choose, heap) {
        Ok(cursor) => State::Step { at, cursor },
        Err(refusal) => State::Refused(refusal),
    }
}
