// Logs of both versions.
use super::changed;
use lines::Refused;
use std::io;
use std::io::Write;
use wire::log::{Head, Item, log_item, read_log};

// Readings -180, -175, 40, weights 10, 20, 5.
const TRIP: [u8; 19] = [
    82, 86, 76, 1, 0, 3, 0, 76, 255, 10, 0, 81, 255, 20, 0, 40, 0, 5, 0,
];

// The same trip in thousandths of a degree, version 2.
const FINE: [u8; 25] = [
    82, 86, 76, 2, 0, 3, 0, 176, 185, 255, 255, 10, 0, 164, 187, 255, 255, 20, 0, 160, 15, 0, 0, 5,
    0,
];

// The mark and the greatest reading, -32,768 and 32,767, with weights 1,440 and 0.
const EDGE: [u8; 15] = [82, 86, 76, 1, 0, 2, 0, 0, 128, 160, 5, 255, 127, 0, 0];

fn log<W: Write>(out: &mut W, label: &str, file: &[u8]) -> io::Result<()> {
    match read_log(file) {
        Ok(Head { count, version }) => writeln!(out, "{label}: {count} {version}"),
        Err(refusal) => writeln!(out, "{label}: {}", Refused(refusal)),
    }
}

fn item<W: Write>(out: &mut W, file: &[u8], i: u32) -> io::Result<()> {
    match log_item(file, i) {
        Some(Item { reading, weight }) => writeln!(out, "log item {i}: {reading} {weight}"),
        None => writeln!(out, "log item {i}: nothing"),
    }
}

pub(crate) fn coarse<W: Write>(out: &mut W) -> io::Result<()> {
    log(out, "log", &TRIP)?;
    item(out, &TRIP, 0)?;
    item(out, &TRIP, 2)?;
    item(out, &TRIP, 3)?;
    log(out, "log edge", &EDGE)?;
    item(out, &EDGE, 0)?;
    item(out, &EDGE, 1)?;
    log(out, "log empty", &TRIP[..0])?;
    log(out, "log 6 bytes", &TRIP[..6])?;
    log(out, "log RVP", &changed(TRIP, 2, b'P'))?;
    log(out, "log as version 2", &changed(TRIP, 3, 2))?;
    log(out, "log version 257", &changed(TRIP, 4, 1))?;
    log(out, "log count 0", &changed(TRIP, 5, 0))?;
    log(out, "log count 32771", &changed(TRIP, 6, 128))?;
    log(out, "log count 4", &changed(TRIP, 5, 4))?;
    log(out, "log 18 bytes", &TRIP[..18])?;
    log(out, "log weight 1441", &changed(EDGE, 9, 161))?;
    log(out, "log weight 1556", &changed(EDGE, 14, 6))
}

pub(crate) fn fine<W: Write>(out: &mut W) -> io::Result<()> {
    log(out, "fine log", &FINE)?;
    item(out, &FINE, 0)?;
    item(out, &FINE, 2)?;
    item(out, &FINE, 3)?;
    log(out, "fine log as version 1", &changed(FINE, 3, 1))?;
    log(out, "fine log version 3", &changed(FINE, 3, 3))?;
    log(out, "fine log version 258", &changed(FINE, 4, 1))?;
    log(out, "fine log 24 bytes", &FINE[..24])?;
    log(out, "fine log reading 1052576", &changed(FINE, 21, 16))?;
    log(out, "fine log reading -1066076", &changed(FINE, 15, 239))?;
    log(out, "fine log weight 1556", &changed(FINE, 18, 6))
}
