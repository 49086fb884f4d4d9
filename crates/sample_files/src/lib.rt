//! Sample files: large equation files that are made from a number. A sample is a text, which is
//! read as every file is, so it needs nothing of equations.
#![tactic(auto)]

ghost use Rattle.std.specs.Prelude.{◌≡◌, ◌≤◌, ◌++◌, codes, decimal, IfOk, OnOk};
ghost use Rattle.sample_files.specs.Sample.{size_of, coefficient, joined_to, noise_text, slope_text, product_text, right_text, unknown_head, unknown_text, sample_text};

use itoa::Buffer;
use std::alloc::{AllocError, Global};

/// The greatest number that a sample file is made from, where a user gives it.
pub const LARGEST_SAMPLE: u32 = 1_000_000;

/// The sample file of a number: one to four coupled equations of KPZ type. Refused only for want of
/// memory.
pub fn sample_text(alloc: Global, number: u32) -> Result<Vec<u8>, AllocError>
    ensures { IfOk result (λ v. v.items ≡ sample_text number) }
{
    let mut text = Vec::from_slice(alloc, b"version = 1\nscaling = [2, 1]\n")?;
    put_noises(number, &mut text)?;
    put_unknowns(number, &mut text)?;
    Ok(text)
}

// How many unknowns and how many noises the file of this number has.
fn size_of(number: u32) -> u32
    ensures size { result ≡ size_of number }
    ensures most { result ≤ 4 }
{
    1 + number % 4
}

// The coefficient of the product of these two slopes in the equation of the unknown `row`.
fn coefficient(number: u32, row: u32, column: u32) -> u32
    requires row { row ≤ 4 }
    requires column { column ≤ 4 }
    ensures { result ≡ coefficient number row column }
{
    1 + (number / 4 + 3 * row + 5 * column) % 7
}

fn put_noises(number: u32, text: &mut Vec<u8>) -> Result<(), AllocError>
    ensures { OnOk result (text.new.items ≡ text.old.items
        ++ joined_to (size_of number) noise_text) }
{
    for before in 0..size_of(number) {
        put_noise(before + 1, text)?;
    }
    Ok(())
}

fn put_unknowns(number: u32, text: &mut Vec<u8>) -> Result<(), AllocError>
    ensures { OnOk result (text.new.items ≡ text.old.items
        ++ joined_to (size_of number) (unknown_text number)) }
{
    for before in 0..size_of(number) {
        put_unknown(number, before + 1, text)?;
    }
    Ok(())
}

fn put_noise(index: u32, text: &mut Vec<u8>) -> Result<(), AllocError>
    ensures { OnOk result (text.new.items ≡ text.old.items ++ noise_text index) }
{
    put_indexed(b"\n[[noise]]\nname = \"x", index, text)?;
    text.extend_from_slice(b"\"\ndegree = \"-3/2-k\"\n")
}

fn put_unknown(number: u32, index: u32, text: &mut Vec<u8>) -> Result<(), AllocError>
    requires { index ≤ 4 }
    ensures { OnOk result (text.new.items ≡ text.old.items ++ unknown_text number index) }
{
    put_unknown_head(index, text)?;
    put_right(number, index, text)?;
    text.extend_from_slice(b"\"\n")
}

fn put_unknown_head(index: u32, text: &mut Vec<u8>) -> Result<(), AllocError>
    ensures { OnOk result (text.new.items ≡ text.old.items ++ unknown_head index) }
{
    put_indexed(b"\n[[unknown]]\nname = \"u", index, text)?;
    text.extend_from_slice(b"\"\ndegree = \"2\"\nregularity = \"1/4\"\nright = \"")
}

fn put_right(number: u32, index: u32, text: &mut Vec<u8>) -> Result<(), AllocError>
    requires { index ≤ 4 }
    ensures { OnOk result (text.new.items ≡ text.old.items ++ right_text number index) }
{
    put_products(number, index, text)?;
    put_indexed(b"x", index, text)
}

fn put_products(number: u32, index: u32, text: &mut Vec<u8>) -> Result<(), AllocError>
    requires { index ≤ 4 }
    ensures { OnOk result (text.new.items ≡ text.old.items
        ++ joined_to (size_of number) (λ j. product_text number index j ++ codes "+")) }
{
    for before in 0..size_of(number) {
        put_product(number, index, before + 1, text)?;
    }
    Ok(())
}

// The product of two slopes with its coefficient, and the sign that joins it to what follows.
fn put_product(number: u32, row: u32, column: u32, text: &mut Vec<u8>) -> Result<(), AllocError>
    requires row { row ≤ 4 }
    requires column { column ≤ 4 }
    ensures { OnOk result (text.new.items ≡ text.old.items
        ++ (product_text number row column ++ codes "+")) }
{
    put_indexed(b"", coefficient(number, row, column), text)?;
    text.extend_from_slice(b"*")?;
    put_slope(row, text)?;
    text.extend_from_slice(b"*")?;
    put_slope(column, text)?;
    text.extend_from_slice(b"+")
}

fn put_slope(index: u32, text: &mut Vec<u8>) -> Result<(), AllocError>
    ensures { OnOk result (text.new.items ≡ text.old.items ++ slope_text index) }
{
    put_indexed(b"u", index, text)?;
    text.extend_from_slice(b"'(0,1)")
}

// These bytes, and a number in decimal.
fn put_indexed(bytes: &[u8], index: u32, text: &mut Vec<u8>) -> Result<(), AllocError>
    ensures { OnOk result (text.new.items ≡ text.old.items ++ (bytes.now ++ decimal index)) }
{
    text.extend_from_slice(bytes)?;
    text.extend_from_slice(Buffer::new().format(index).as_bytes())
}

#[cfg(test)]
mod tests {
    use super::*;
    use std::test::Fail;

    const FIFTH: &str =
        "version = 1\nscaling = [2, 1]\n\n[[noise]]\nname = \"x1\"\ndegree = \"-3/2-k\"\n\n[[noise]]\nname = \"x2\"\ndegree = \"-3/2-k\"\n\n[[unknown]]\nname = \"u1\"\ndegree = \"2\"\nregularity = \"1/4\"\nright = \"3*u1'(0,1)*u1'(0,1)+1*u1'(0,1)*u2'(0,1)+x1\"\n\n[[unknown]]\nname = \"u2\"\ndegree = \"2\"\nregularity = \"1/4\"\nright = \"6*u2'(0,1)*u1'(0,1)+4*u2'(0,1)*u2'(0,1)+x2\"\n";

    #[test]
    fn a_sample_file(rt: HostRuntime) -> Result<(), Fail> {
        let text = sample_text(rt.alloc(), 5)?;
        assert_eq!(rt; text.as_slice(), FIFTH.as_bytes());
        Ok(())
    }
}
