//! The files that whole runs write, byte for byte, or their lines about something.

use crate::running::{ran_over, spelled};
use cg_base::Memory;
use std::alloc::Global;
use std::thread::Threads;

/// The lines of a text that have this piece, which is not empty.
fn lines_with(alloc: Global, text: &str, piece: &str) -> Result<String, Memory> {
    let mut lines = String::new(alloc);
    for line in text.lines() {
        if !line.contains(piece) {
            continue;
        }
        if !lines.is_empty() {
            lines.push('\n')?;
        }
        lines.push_str(line)?;
    }
    Ok(lines)
}

/// A row gives in its first line the flag and a file's name, as `-D out/uart_regs.h`, and behind them, where it asks for some lines
/// alone, what these have; and then a description.
pub fn answer<R: Threads + Sync>(rt: &R, alloc: Global, given: &str) -> Result<String, Memory> {
    let (asked, description) = given.split_once('\n').unwrap_or((given, ""));
    let (flag, asked) = asked.split_once(' ').unwrap_or((asked, ""));
    let (name, piece) = asked.split_once(' ').unwrap_or((asked, ""));
    let words = format!(in alloc; "regtool {flag} -t out b.hjson")?;
    let ran = ran_over(rt, alloc, &words, "b.hjson", description.as_bytes())?;
    let Some(bytes) = ran.store.file(name) else {
        return spelled(alloc, &ran);
    };
    let text = String::from_utf8_lossy(alloc, bytes)?;
    if piece.is_empty() {
        return Ok(text);
    }
    lines_with(alloc, text.as_str(), piece)
}

/// A row gives in its first line a file's name, as `out/xbar_main.sv`, and then the description of a crossbar.
pub fn of_crossbar<R: Threads + Sync>(
    rt: &R,
    alloc: Global,
    given: &str,
) -> Result<String, Memory> {
    let (name, description) = given.split_once('\n').unwrap_or((given, ""));
    let words = "tlgen -t x.hjson -o out";
    let ran = ran_over(rt, alloc, words, "x.hjson", description.as_bytes())?;
    match ran.store.file(name) {
        Some(bytes) => Ok(String::from_utf8_lossy(alloc, bytes)?),
        None => spelled(alloc, &ran),
    }
}
