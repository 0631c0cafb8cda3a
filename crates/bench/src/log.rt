// The log of both programs: small readings of either sign, every weight.

// Fills in as many items as there is room for.
pub(crate) fn make(block: &mut [u8], items: u32) {
    for (at, place) in block.iter_mut().enumerate().take(4 * (items as usize)) {
        *place = byte_at(at);
    }
}

fn byte_at(at: usize) -> u8 {
    let i = (at / 4 % 65536) as u32;
    let reading = (i * 7919 % 401 + 65336) % 65536;
    let weight = (i * 37 + 5) % 1441;
    match at % 4 {
        0 => (reading % 256) as u8,
        1 => (reading / 256) as u8,
        2 => (weight % 256) as u8,
        _ => (weight / 256) as u8,
    }
}

// The first byte is the turn's.
pub(crate) fn mark(block: &mut [u8], turn: u32) {
    if let Some(first) = block.first_mut() {
        *first = (turn % 256) as u8;
    }
}

pub(crate) fn challenge(k: u32) -> u32 {
    (k % 16) * 7919 + 12345
}

pub(crate) const POINT: u32 = 987654321;
