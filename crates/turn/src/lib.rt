// The bytes of a table by their place in a row: byte p of row r goes to p * NAXIS2 + r, and back.
#![tactic(auto)]

mod blocks;

ghost use Rattle.std.specs.Prelude.{◌≡◌};
ghost use Rattle.refusal.specs.Refusal.{outcome_of};
ghost use Rattle.turn.specs.Turn.{turn_outcome, turn_left, turn_back_left};

use layout::BinTable;
use refusal::Refusal;

// Whether the layout keeps every limit and sum, the buffers are of one length and the table's bytes lie within it.
#[tactic(auto, unfolding(crate::specs::Turn::turn_outcome))]
fn check(layout: BinTable, from: &[u8], to: &[u8]) -> Result<(), Refusal>
    ensures { outcome_of result ≡ turn_outcome layout from.now to.now }
{
    if !layout::layout_ok(layout) {
        return Err(Refusal::Mismatch);
    }
    let size = layout.naxis1 * layout.naxis2 + layout.pcount;
    if from.len() != to.len() || (from.len() as u64) < size {
        return Err(Refusal::BufferMismatch);
    }
    Ok(())
}

// Writes a data area turned to another buffer, which is as it was where the call refuses.
pub fn turn(layout: BinTable, from: &[u8], to: &mut [u8]) -> Result<(), Refusal>
    ensures outcome { outcome_of result ≡ turn_outcome layout from.now to.old }
    ensures buffer { to.new ≡ turn_left layout from.now to.old }
{
    check(layout, from, to)?;
    blocks::copy_turned(layout.naxis2 as usize, layout.naxis1 as usize, from, to);
    Ok(())
}

// Writes a turned data area back as it was.
pub fn turn_back(layout: BinTable, from: &[u8], to: &mut [u8]) -> Result<(), Refusal>
    ensures outcome { outcome_of result ≡ turn_outcome layout from.now to.old }
    ensures buffer { to.new ≡ turn_back_left layout from.now to.old }
{
    check(layout, from, to)?;
    blocks::copy_turned(layout.naxis1 as usize, layout.naxis2 as usize, from, to);
    Ok(())
}
