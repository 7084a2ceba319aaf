//! Numbers, lists and ranges.
ghost use Rattle.std.specs.Prelude.{◌≡◌, ◌++◌, OnOk, codes, flat_map, map};
ghost use Rattle.std.specs.Fmt.{signed_decimal};
ghost use Rattle.qc_model.specs.Canonical.{braces, range_text, domain_text, set_text, truth_text};

use itoa::Buffer;
use qc_model::{Domain, Set};
use std::alloc::AllocError;

pub(crate) fn put_number(out: &mut Vec<u8>, number: i64) -> Result<(), AllocError>
    ensures { OnOk result (out.new.items ≡ out.old.items ++ signed_decimal number) }
{
    let mut buffer = Buffer::new();
    out.extend_from_slice(buffer.format(number).as_bytes())
}

pub(crate) fn put_truth(out: &mut Vec<u8>, number: i64) -> Result<(), AllocError>
    ensures { OnOk result (out.new.items ≡ out.old.items ++ truth_text number) }
{
    if number == 1 {
        out.extend_from_slice(b"true")
    } else {
        out.extend_from_slice(b"false")
    }
}

pub(crate) fn put_range(out: &mut Vec<u8>, low: i64, high: i64) -> Result<(), AllocError>
    ensures { OnOk result (out.new.items ≡ out.old.items ++ range_text low high) }
{
    put_number(out, low)?;
    out.extend_from_slice(b"..")?;
    put_number(out, high)?;
    Ok(())
}

pub(crate) fn put_braces(out: &mut Vec<u8>, numbers: &[i64]) -> Result<(), AllocError>
    ensures { OnOk result (out.new.items ≡ out.old.items ++ braces numbers.now) }
{
    out.extend_from_slice(b"{")?;
    if let [first, others @ ..] = numbers {
        put_number(out, *first)?;
        put_others(out, others)?;
    }
    out.extend_from_slice(b"}")?;
    Ok(())
}

// Each number after a comma.
fn put_others(out: &mut Vec<u8>, numbers: &[i64]) -> Result<(), AllocError>
    ensures { OnOk result (out.new.items ≡ out.old.items ++ flat_map (λ u. codes "," ++ u) (map signed_decimal numbers.now)) }
{
    for number in numbers {
        out.push(b',')?;
        put_number(out, *number)?;
    }
    Ok(())
}

pub(crate) fn put_domain(out: &mut Vec<u8>, domain: &Domain) -> Result<(), AllocError>
    ensures { OnOk result (out.new.items ≡ out.old.items ++ domain_text domain.now) }
{
    match domain {
        Domain::Bits => out.extend_from_slice(b"bool"),
        Domain::Range(low, high) => put_range(out, *low, *high),
        Domain::Listed(numbers) => put_braces(out, numbers.items()),
    }
}

pub(crate) fn put_set(out: &mut Vec<u8>, set: &Set) -> Result<(), AllocError>
    ensures { OnOk result (out.new.items ≡ out.old.items ++ set_text set.now) }
{
    match set {
        Set::Range(low, high) => put_range(out, *low, *high),
        Set::Listed(numbers) => put_braces(out, numbers.items()),
    }
}
