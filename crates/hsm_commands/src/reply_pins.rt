//! PINs as they are written.
ghost use Rattle.std.specs.Prelude.{◌≡◌, ◌+◌, ◌^◌, ◌<◌, ◌≤◌, ◌++◌, IsTrue, length};
ghost use Rattle.std.specs.List.{list_all};
ghost use Rattle.hsm_types.specs.Pins.{is_decimal};
ghost use Rattle.hsm_pinblock.specs.Blocks.{sealed_pin};
ghost use Rattle.hsm_answers.specs.Pins.{block_text, fill_length};
ghost use Rattle.hsm_answers.specs.Values.{filled_to_twelve};
ghost use Rattle.hsm_commands.specs.Values.{block_drawn};

use hsm_answers::{characters, draw_fill, put_block};
use hsm_lmk::LmkSet;
use hsm_pinblock::{Format, build, seal_pin};
use hsm_rows::Module;
use hsm_text::Reply;
use hsm_types::Pin;

// The nibbles of fill that a block of the format with the PIN takes.
pub(crate) fn fill_length(format: Format, pin: &Pin) -> usize
    ensures length { result ≡ fill_length format pin.now }
    ensures most { result ≤ 10 }
{
    match format {
        Format::F05 | Format::F47 => 14 - pin.digits().len(),
        Format::F01 | Format::F03 => 0,
    }
}

// What a block of a PIN is made for: its format, its account, and the place from which its fill is drawn.
#[derive(Clone, Copy)]
pub(crate) struct BlockAsked {
    pub(crate) format: Format,
    pub(crate) account: [u8; 12],
    pub(crate) place: u64,
}

// The block of the PIN.
pub(crate) fn block_drawn(module: &Module, asked: &BlockAsked, pin: &Pin) -> u64
    requires account { IsTrue (list_all is_decimal asked.now.account) }
    requires place { asked.now.place < 2 ^ 63 }
    ensures { result ≡ block_drawn «module».now asked.now.format pin.now asked.now.account asked.now.place }
{
    let format = asked.format;
    let fill = draw_fill(module, format, asked.place, fill_length(format, pin));
    build(format, pin, &asked.account, &fill)
}

// The PIN's digits, then F to twelve characters.
pub(crate) fn filled_to_twelve(pin: &Pin) -> [u8; 12]
    ensures { result ≡ filled_to_twelve pin.now }
{
    let digits = pin.digits();
    let mut values = [15; 12];
    values[..digits.len()].copy_from_slice(digits);
    characters(&values)
}

// Appends the text of a PIN sealed under the LMK.
pub(crate) fn put_sealed(set: &LmkSet, pin: &Pin, account: &[u8; 12], reply: &mut Reply)
    requires account { IsTrue (list_all is_decimal account.now) }
    requires room { length reply.old ≤ 65000 }
    ensures text { reply.new ≡ reply.old ++ block_text (sealed_pin set.now pin.now account.now) }
    ensures grown { length reply.new ≡ length reply.old + 16 }
{
    put_block(reply, seal_pin(set, pin, account));
}
