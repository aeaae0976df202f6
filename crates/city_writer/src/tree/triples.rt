//! Writes three whole numbers.
ghost use Rattle.std.specs.Prelude.{◌≡◌, ◌++◌, ◌∷◌, [], OnOk, true};
ghost use Rattle.city_writer.specs.tree.Lists.{integer_data, triple_data};
ghost use Rattle.city_writer.specs.tree.Ranges.{is_i64, is_i64_triple};
ghost use Rattle.city_writer.specs.tree.Tokens.{tokens_of};
ghost use Rattle.city_writer.specs.internal.tree.ReadsBack.{ReadsBack};

use crate::tree::whole_numbers::write_i64;
use city_model::OutOfMemory;
use json::Writer;

#[inline(always)]
fn write_integer(n: i64, out: &mut Writer) -> Result<(), OutOfMemory>
    ensures before { OnOk result (out.new.before ≡ out.old.before) }
    ensures tokens { OnOk result (out.new.tokens ≡ out.old.tokens ++ tokens_of (integer_data n)) }
    ensures reads { OnOk result (ReadsBack (integer_data n)) }
    ensures in_range { OnOk result (is_i64 n ≡ true) }
{
    write_i64(n, out)
}

/// Writes an array of three whole numbers.
pub fn write_three(x: i64, y: i64, z: i64, out: &mut Writer) -> Result<(), OutOfMemory>
    ensures before { OnOk result (out.new.before ≡ out.old.before) }
    ensures tokens { OnOk result (out.new.tokens
        ≡ out.old.tokens ++ tokens_of (triple_data (x ∷ y ∷ z ∷ []))) }
    ensures reads { OnOk result (ReadsBack (triple_data (x ∷ y ∷ z ∷ []))) }
    ensures in_range { OnOk result (is_i64_triple (x ∷ y ∷ z ∷ []) ≡ true) }
{
    out.begin_array()?;
    write_integer(x, out)?;
    write_integer(y, out)?;
    write_integer(z, out)?;
    out.end_array()
}

/// The same, from an array of numbers.
pub fn write_triple(triple: &[i64; 3], out: &mut Writer) -> Result<(), OutOfMemory>
    ensures before { OnOk result (out.new.before ≡ out.old.before) }
    ensures tokens { OnOk result (out.new.tokens
        ≡ out.old.tokens ++ tokens_of (triple_data triple.now)) }
    ensures reads { OnOk result (ReadsBack (triple_data triple.now)) }
    ensures in_range { OnOk result (is_i64_triple triple.now ≡ true) }
{
    let [x, y, z] = *triple;
    write_three(x, y, z, out)
}
