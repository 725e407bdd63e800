// Big-endian numbers of the data area. A byte past the area counts as 0. Area and place are no struct: each call has
// another place, and the area goes through as it came.
ghost use Rattle.std.specs.Prelude.{◌≡◌, ◌+◌, ◌/◌, ◌^◌, bit_and, get_or};
ghost use Rattle.std.specs.Int.{w16, w32, w64};
ghost use Rattle.std.proofs.Common.{to_z};
ghost use Rattle.cell.specs.Item.{word};

// The byte at place at + i, a sum that could wrap.
pub fn byte(area: &[u8], at: u64, i: u64) -> u8
    ensures { result ≡ get_or area.now (at + i) 0 }
{
    match at.checked_add(i) {
        Some(place) => area.get(place as usize).copied().unwrap_or(0),
        None => 0,
    }
}

// Eight bytes of which some may be past the area, one by one. It stands apart, so that the read of bytes inside stays
// small.
#[cold]
#[tactic(auto, using(crate::proofs::Numbers::word_of_8))]
fn eight_past(area: &[u8], at: u64, from: u8) -> u64
    ensures { result ≡ word area.now (at + from) 8 }
{
    let mut bytes = [0; 8];
    for i in 0..8 {
        bytes[i] = byte(area, at, from as u64 + i as u64);
    }
    u64::from_be_bytes(bytes)
}

// The number of eight bytes at place at + from: inside the area one load and one swap. By `get` in place of the two
// comparisons the cell read of arrays takes 3 % more instructions.
pub fn u64_at(area: &[u8], at: u64, from: u8) -> u64
    ensures { result ≡ word area.now (at + from) 8 }
{
    let end = from as usize + 8;
    if end <= area.len() && at <= (area.len() - end) as u64 {
        let start = at as usize + from as usize;
        return u64::from_be_bytes(area[start..start + 8].try_into().unwrap());
    }
    eight_past(area, at, from)
}

// The same. The first four, two and one of the bytes and the last four are numbers too, which is proved once, of what
// `u64_at` gives.
pub(crate) fn eight_at(area: &[u8], at: u64, from: u8) -> u64
    ensures eight { result ≡ word area.now (at + from) 8 }
    ensures four { result / 2 ^ 32 ≡ word area.now (at + from) 4 }
    ensures two { result / 2 ^ 48 ≡ word area.now (at + from) 2 }
    ensures one { result / 2 ^ 56 ≡ word area.now (at + from) 1 }
    ensures last_four { bit_and result 0xffff_ffff ≡ word area.now (at + from + 4) 4 }
{
    u64_at(area, at, from)
}

// The numbers of four and of two bytes are the upper ones of eight. One function over the length of an array of bytes
// for all three is no slower for arrays, but the row read of fields of one item takes 4 % longer with it.
pub fn u32_at(area: &[u8], at: u64, from: u8) -> u32
    ensures { result ≡ word area.now (at + from) 4 }
{
    (eight_at(area, at, from) >> 32) as u32
}

pub fn u16_at(area: &[u8], at: u64, from: u8) -> u16
    ensures { result ≡ word area.now (at + from) 2 }
{
    (eight_at(area, at, from) >> 48) as u16
}

// Two's complement: the library's `cast_signed`, under the names that callers have it by.
pub fn signed16(n: u16) -> i16
    ensures { result ≡ to_z w16 n }
{
    u16::cast_signed(n)
}

pub fn signed32(n: u32) -> i32
    ensures { result ≡ to_z w32 n }
{
    u32::cast_signed(n)
}

pub fn signed64(n: u64) -> i64
    ensures { result ≡ to_z w64 n }
{
    u64::cast_signed(n)
}
