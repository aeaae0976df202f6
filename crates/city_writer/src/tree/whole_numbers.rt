//! Writes whole numbers. Inlined: most of a text is numbers.
ghost use Rattle.std.specs.Prelude.{decimal};
ghost use Rattle.std.specs.Fmt.{signed_decimal};
ghost use Rattle.json.specs.Token.{number};
ghost use Rattle.json.specs.Written.{Writes};

use city_model::OutOfMemory;
use itoa::Buffer;
use json::Writer;

#[inline(always)]
pub fn write_u64(n: u64, out: &mut Writer) -> Result<(), OutOfMemory>
    ensures { Writes result out.old out.new (number (decimal n)) }
{
    let mut buffer = Buffer::new();
    out.number(buffer.format(n))
}

#[inline(always)]
pub fn write_i64(n: i64, out: &mut Writer) -> Result<(), OutOfMemory>
    ensures { Writes result out.old out.new (number (signed_decimal n)) }
{
    let mut buffer = Buffer::new();
    out.number(buffer.format(n))
}
