//! Numbers in hexadecimal.

ghost use Rattle.std.specs.Prelude.{◌≡◌, ◌<◌};
ghost use Rattle.pd_symbols.specs.Hex.{hex_digit, hex_digits};

/// The low `K` digits of a number, the highest first and the letters in upper case.
pub fn hex_digits<const K: usize>(number: u32) -> [u8; K]
    ensures { result ≡ hex_digits K number }
{
    let mut digits = [b'0'; K];
    let mut rest = number;
    for done in 0..K {
        digits[K - 1 - done] = hex_digit((rest % 16) as u8);
        rest /= 16;
    }
    digits
}

fn hex_digit(value: u8) -> u8
    requires { value < 16 }
    ensures { result ≡ hex_digit value }
{
    if value < 10 {
        b'0' + value
    } else {
        b'A' + (value - 10)
    }
}
