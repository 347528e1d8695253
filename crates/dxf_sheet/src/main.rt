// Reads one drawing in DXF from standard input and writes the job sheet of its outline, without views, to standard output. For a
// drawing that is refused, and where a read or a write fails, it writes no sheet and says so on standard error.
#![tactic(auto)]

mod input;
mod output;

use console::say;
use input::{DRAWING_BYTES, read_drawing};
use output::write_drawing;
use std::alloc::AllocError;

fn answer(rt: &HostRuntime, text: &[u8]) {
    if text.len() > DRAWING_BYTES {
        say(rt, "dxf_sheet: the drawing is longer than 4194304 bytes\n");
        return;
    }
    if write_drawing(&mut rt.stdout(), &mut rt.stderr(), text).is_err() {
        say(rt, "dxf_sheet: the output could not be written\n");
    }
}

fn main(rt: HostRuntime) -> Result<(), AllocError> {
    let mut buffer = vec![in rt.alloc(); 0u8; DRAWING_BYTES + 1]?;
    match read_drawing(&mut rt.stdin(), &mut buffer) {
        Err(_) => say(&rt, "dxf_sheet: the input could not be read\n"),
        Ok(text) => answer(&rt, text),
    }
    Ok(())
}
