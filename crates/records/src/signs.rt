// Numbers in two's complement.
ghost use Rattle.std.specs.Prelude.{◌≡◌, ◌+◌, ◌*◌};
ghost use Rattle.wire.specs.Number.{signed};
ghost use Rattle.records.specs.Signs.{plain_item};

use item::Given;

// An item of a plain run; none where the weight takes more than sixteen bits.
pub fn item(reading: u32, weight: u32) -> Option<Given>
    ensures { result ≡ plain_item reading weight }
{
    let weight = u16::try_from(weight).ok()?;
    Some(Given::Reading(wire::words::signed_word(reading), weight))
}

pub fn signed64(low: u32, high: u32) -> i64
    ensures { result ≡ signed 8 (high * 4294967296 + low) }
{
    let bits = (high as u64) * 4294967296 + (low as u64);
    bits.cast_signed()
}
