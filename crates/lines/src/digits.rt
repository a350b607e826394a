// Decimal and hexadecimal digits: the value of a byte and the byte of a value, one function each way, by comparison and plain arithmetic (document 02,
// request f). No table of digits is kept; machine/specs/Digits says which bytes are digits, with what value, and each value's digit.
ghost use Rattle.std.specs.Prelude.{◌≡◌, ◌<◌, ltb, unwrap_or, IfSome};
ghost use Rattle.machine.specs.Fields.{digit_of};
ghost use Rattle.machine.specs.Text.{digit_text};

// Whether a byte is a digit.
fn is_digit(c: u8) -> bool
    ensures { result ≡ ltb (digit_of c) 16 }
{
    ((b'0' <= c) & (c <= b'9')) | ((b'a' <= c) & (c <= b'f'))
}

// The digit of a byte; the definition gives 16 for a byte that is none.
// (One way through for all digits, and no `match`: which of two a hash's digits take cannot be foretold. A letter has its place in the alphabet in its low bits.)
pub fn value(c: u8) -> Option<u64>
    ensures digit { unwrap_or result 16 ≡ digit_of c }
    ensures below { IfSome result (λ d. d < 16) }
{
    if !is_digit(c) {
        return None;
    }
    Some((c % 16 + c / 64 * 9) as u64)
}

// The byte of a digit below 16.
pub fn text(d: u64) -> u8
    requires { d < 16 }
    ensures { result ≡ digit_text d }
{
    if d < 10 {
        return b'0' + d as u8;
    }
    b'a' - 10 + d as u8
}
