// The two conversions.
ghost use Rattle.std.specs.Prelude.{length};
ghost use Rattle.lines.specs.Answer.{Gives};
ghost use Rattle.outputs.specs.Printed.{utf8_answer, utf16_answer};

use lines::{Made, settle};

pub fn make_utf8(units: &[u8], text: &mut [u8]) -> Made
    ensures { Gives (length text.old) result text.new (utf8_answer (length text.old) units.now) }
{
    let written = utf16::to_utf8(units, text);
    settle(text, b"", written)
}

pub fn make_utf16(bytes: &[u8], text: &mut [u8]) -> Made
    ensures { Gives (length text.old) result text.new (utf16_answer (length text.old) bytes.now) }
{
    let written = utf16::to_utf16(bytes, text);
    settle(text, b"", written)
}
