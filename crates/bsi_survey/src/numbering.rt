//! Puts a number behind a text: `rain_2` (`number_title`).

ghost use Rattle.std.specs.Prelude.{◌≡◌, IfOk};
ghost use Rattle.bsi_logical.specs.HeaderTitles.{numbered};

use crate::NoMemory;
use itoa::Buffer;
use std::alloc::Global;

/// Makes a text with `_` and a number behind it. With the number 1 it is the text alone.
pub(crate) fn number_title(alloc: Global, text: &[u8], number: usize) -> Result<Vec<u8>, NoMemory>
    ensures { IfOk result (λ made. made.items ≡ numbered text.now number) }
{
    let mut made = Vec::from_slice(alloc, text)?;
    if number == 1 {
        return Ok(made);
    }
    let mut digits = Buffer::new();
    made.push(b'_')?;
    made.extend_from_slice(digits.format(number).as_bytes())?;
    Ok(made)
}
