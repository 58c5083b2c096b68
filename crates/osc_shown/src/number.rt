//! Numbers, as a person reads them.
ghost use Rattle.std.specs.Prelude.{◌≡◌, ◌+◌, ◌%◌, ◌∷◌, ◌++◌, OnOk, IfOk};
ghost use Rattle.std.specs.Fmt.{decimal, signed_decimal};
ghost use Rattle.osc_shown.specs.Numbers.{two, three, comma_before, grouped, thousands};

use crate::bytes::{add, add_byte};
use itoa::Buffer;
use std::alloc::{AllocError, Global};

/// Adds the number in decimal.
pub(crate) fn add_decimal(out: &mut Vec<u8>, number: u64) -> Result<(), AllocError>
    ensures { OnOk result (out.new.items ≡ out.old.items ++ decimal number) }
{
    add(out, Buffer::new().format(number).as_bytes())
}

pub(crate) fn add_signed(out: &mut Vec<u8>, number: i64) -> Result<(), AllocError>
    ensures { OnOk result (out.new.items ≡ out.old.items ++ signed_decimal number) }
{
    add(out, Buffer::new().format(number).as_bytes())
}

/// Adds the last two digits.
#[tactic(auto, unfolding(crate::specs::Numbers::two))]
pub(crate) fn add_two(out: &mut Vec<u8>, number: u64) -> Result<(), AllocError>
    ensures { OnOk result (out.new.items ≡ out.old.items ++ two number) }
{
    add(out, &[digit(number / 10), digit(number)])
}

/// Adds the last three digits.
#[tactic(auto, unfolding(crate::specs::Numbers::three))]
pub(crate) fn add_three(out: &mut Vec<u8>, number: u64) -> Result<(), AllocError>
    ensures { OnOk result (out.new.items ≡ out.old.items ++ three number) }
{
    add(
        out,
        &[digit(number / 100), digit(number / 10), digit(number)],
    )
}

/// The last digit.
fn digit(number: u64) -> u8
    ensures { result ≡ 48 + number % 10 }
{
    b'0' + (number % 10) as u8
}

/// Adds the number in groups of three digits, with commas between them.
pub(crate) fn add_thousands(out: &mut Vec<u8>, number: u64) -> Result<(), AllocError>
    ensures { OnOk result (out.new.items ≡ out.old.items ++ thousands number) }
{
    add_grouped(out, Buffer::new().format(number).as_bytes())
}

fn add_grouped(out: &mut Vec<u8>, digits: &[u8]) -> Result<(), AllocError>
    ensures { OnOk result (out.new.items ≡ out.old.items ++ grouped digits.now) }
{
    let mut rest = digits;
    while let Some((first, others)) = rest.split_first() {
        add_first(out, *first, others.len())?;
        rest = others;
    }
    Ok(())
}

/// Adds a digit, and a comma where so many are left that they begin a group.
fn add_first(out: &mut Vec<u8>, digit: u8, left: usize) -> Result<(), AllocError>
    ensures { OnOk result (out.new.items ≡ out.old.items ++ (digit ∷ comma_before left)) }
{
    add_byte(out, digit)?;
    if left > 0 && left % 3 == 0 {
        return add_byte(out, b',');
    }
    Ok(())
}

/// The number in groups of three digits, with commas between them. An `Err` means out of memory.
pub fn number_words(alloc: Global, number: u64) -> Result<Vec<u8>, AllocError>
    ensures { IfOk result (λ words. words.items ≡ thousands number) }
{
    let mut words = Vec::new(alloc);
    add_thousands(&mut words, number)?;
    Ok(words)
}
