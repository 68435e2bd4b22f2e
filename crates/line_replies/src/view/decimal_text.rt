//! The decimal of a number, as a text that takes no memory.

ghost use Rattle.std.specs.Prelude.{◌≡◌, ◌+◌, ◌<◌, ◌≤◌, [], ◌∷◌, ◌++◌, length};
ghost use Rattle.std.specs.Fmt.{decimal};
ghost use Rattle.arrayvec.specs.ArrayString.{array_string_len};
ghost use Rattle.byte_text.specs.Bytes.{digit_zero};

use arrayvec::ArrayString;

/// The decimal of a number.
pub(crate) fn decimal_text(n: usize) -> ArrayString<20>
    ensures { result.bytes ≡ decimal n }
{
    let mut text = ArrayString::new();
    push_decimal(&mut text, n);
    text
}

fn push_decimal(text: &mut ArrayString<20>, n: usize)
    requires { array_string_len text.old + length (decimal n) ≤ 20 }
    ensures { text.new.bytes ≡ text.old.bytes ++ decimal n }
{
    if n >= 10 {
        push_decimal(text, n / 10);
    }
    push_digit(text, (n % 10) as u8);
}

fn push_digit(text: &mut ArrayString<20>, digit: u8)
    requires digit { digit < 10 }
    requires room { array_string_len text.old < 20 }
    ensures { text.new.bytes ≡ text.old.bytes ++ (digit_zero + digit) ∷ [] }
{
    text.push(char::from(b'0' + digit));
}
