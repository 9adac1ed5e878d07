//! Makes a script.

ghost use Rattle.std.specs.Prelude.{◌≡◌, ◌^◌, ◌<◌, IfOk};
ghost use Rattle.hsm_make.specs.Numbers.{next_x};
ghost use Rattle.hsm_make.specs.Messages.{made_text};

use crate::messages::{Buffers, sealed_key};
use crate::module::{made_module, test_set};
use std::alloc::{AllocError, Global};

// The number that follows x.
fn next_x(x: u32) -> u32
    ensures { result ≡ next_x x }
{
    ((u64::from(x) * 1103515245 + 12345) % 0x8000_0000) as u32
}

/// The script of so many messages that a seed makes, for the module of [`made_module`].
pub fn made_script(alloc: Global, count: u32, seed: u32) -> Result<Vec<u8>, AllocError>
    ensures { IfOk result (λ script. script.items ≡ made_text count seed) }
{
    let settings = made_module();
    let key = sealed_key(test_set(&settings));
    let mut buffers = Buffers::new();
    let mut script = Vec::new(alloc);
    let mut x = seed % 0x8000_0000;
    'messages: for _ in 0..count {
        x = next_x(x);
        buffers.make_lines(&key, x);
        script.extend_from_slice(buffers.lines.bytes())?;
    }
    Ok(script)
}
