//! Windows of symbols from standard input, each read as a block. tests/test_soft.py compares them with a plain search.

use anyhow::Result;
use rds_code::{BlockNumber, Wanted};
use rds_soft::{Margin, Search, SoftReading, mask_of};
use std::io::Read;

/// The bytes of a window: its block's number, the offsets wanted, the margin, and 27 symbols.
const WINDOW: usize = 30;

/// Prints of each window the offset by which it is read, or `lost`, the information word and the error mask.
pub fn show(rt: &HostRuntime) -> Result<()> {
    let mut search = Search::new(rt.alloc())?;
    let mut bytes = Vec::new(rt.alloc());
    rt.stdin().read_to_end(&mut bytes)?;
    for window in bytes.chunks_exact(WINDOW) {
        let (offset, info, mask) = told(read(&mut search, window));
        println!(rt; "{offset} {info} {mask}")?;
    }
    Ok(())
}

fn told(reading: Option<SoftReading>) -> (&'static str, u16, u32) {
    match reading {
        None => ("none", 0, 0),
        Some(SoftReading::Lost) => ("lost", 0, 0),
        Some(SoftReading::Valid { offset, info }) => (offset.name(), info, 0),
        Some(
            SoftReading::Corrected {
                offset,
                info,
                flips,
            },
        ) => (offset.name(), info, mask_of(flips)),
    }
}

/// A window, read as a block; none if its number or its margin is out of range.
fn read(search: &mut Search, window: &[u8]) -> Option<SoftReading> {
    let (head, rest) = window.split_first_chunk::<3>()?;
    let [number, wanted, margin] = *head;
    let wanted = match wanted {
        1 => Wanted::OnlyC,
        2 => Wanted::OnlyCx,
        _ => Wanted::Either,
    };
    let mut symbols = [0i8; 27];
    for (symbol, byte) in symbols.iter_mut().zip(rest) {
        *symbol = byte.cast_signed();
    }
    Some(search.read(
        &symbols,
        BlockNumber::new(number)?,
        wanted,
        Margin::new(margin)?,
    ))
}
