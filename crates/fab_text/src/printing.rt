//! Appends numbers, as text, to a line.

ghost use Rattle.std.specs.Prelude.{◌≡◌, ◌++◌, decimal, OnOk, OnErr};
ghost use Rattle.fab_text.specs.Fixed.{fixed3, fixed4};

use itoa::Buffer;
use std::alloc::AllocError;

/// Appends the decimal digits of `n`, without leading zeros. If memory runs out, nothing changes.
pub fn push_number(out: &mut Vec<u8>, n: u64) -> Result<(), AllocError>
    ensures ok { OnOk result (out.new.items ≡ out.old.items ++ decimal n) }
    ensures err { OnErr result (out.new.items ≡ out.old.items) }
{
    let mut buffer = Buffer::new();
    out.extend_from_slice(buffer.format(n).as_bytes())
}

/// Appends the digits of `whole`, and then `rest`. If memory runs out, nothing changes.
fn push_parts(out: &mut Vec<u8>, whole: u64, rest: &[u8]) -> Result<(), AllocError>
    ensures ok { OnOk result (out.new.items ≡ out.old.items ++ (decimal whole ++ rest.now)) }
    ensures err { OnErr result (out.new.items ≡ out.old.items) }
{
    let before = out.len();
    push_number(out, whole)?;
    if let Err(failed) = out.extend_from_slice(rest) {
        out.truncate(before);
        return Err(failed);
    }
    Ok(())
}

/// Appends `n` ten-thousandths: the whole part, a point and four digits, such as `6.4968` for 64968. If memory runs out, nothing changes.
pub fn push_fixed4(out: &mut Vec<u8>, n: u64) -> Result<(), AllocError>
    ensures ok { OnOk result (out.new.items ≡ out.old.items ++ fixed4 n) }
    ensures err { OnErr result (out.new.items ≡ out.old.items) }
{
    let rest = [
        b'.',
        b'0' + (n / 1000 % 10) as u8,
        b'0' + (n / 100 % 10) as u8,
        b'0' + (n / 10 % 10) as u8,
        b'0' + (n % 10) as u8,
    ];
    push_parts(out, n / 10_000, &rest)
}

/// Appends `n` thousandths: the whole part, a point and three digits, such as `1.680` for 1680. If memory runs out, nothing changes.
pub fn push_fixed3(out: &mut Vec<u8>, n: u64) -> Result<(), AllocError>
    ensures ok { OnOk result (out.new.items ≡ out.old.items ++ fixed3 n) }
    ensures err { OnErr result (out.new.items ≡ out.old.items) }
{
    let rest = [
        b'.',
        b'0' + (n / 100 % 10) as u8,
        b'0' + (n / 10 % 10) as u8,
        b'0' + (n % 10) as u8,
    ];
    push_parts(out, n / 1000, &rest)
}
