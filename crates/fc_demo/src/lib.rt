//! The script of a demo (docs/FORMAT.md, "Demo"): commands over eight directories and 128 files, drawn by a generator, so that
//! the same number gives the same script anywhere.
#![tactic(auto)]

mod draws;
mod lines;
mod words;

ghost use Rattle.std.specs.Prelude.{◌≡◌, ◌<◌, ◌^◌, IfOk};
ghost use Rattle.fc_runs.specs.Demo.{demo_script};

use crate::lines::{push_directories, push_draws};
use crate::words::append;
use fc_device::NoMemory;
use std::alloc::Global;

/// The script of the demo of a number: it makes eight directories, then gives as many commands as the number says, with a
/// `compact` after each 64th, and ends with `check` and `free`.
pub fn demo_script(alloc: Global, n: u32) -> Result<Vec<u8>, NoMemory>
    requires { n < 2 ^ 31 }
    ensures { IfOk result (λ script. script.items ≡ demo_script n) }
{
    let mut script = Vec::new(alloc);
    push_directories(&mut script)?;
    push_draws(n, &mut script)?;
    append(&mut script, b"check\nfree\n")?;
    Ok(script)
}
