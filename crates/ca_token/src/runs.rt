//! Which bytes may be where, and how many of a kind a text begins with.
ghost use Rattle.std.specs.Prelude.{◌≡◌, ◌≤◌, length};
ghost use Rattle.std.specs.List.{list_all};
ghost use Rattle.ca_token.specs.Bytes.{is_white, is_text, is_plain, is_letter, is_digit, begins_name};
ghost use Rattle.ca_token.specs.Bytes.{is_name_byte, is_constant_byte, is_sign, begins_with, name_len};
ghost use Rattle.ca_token.specs.Bytes.{digits_len, text_len, constant_len};

pub(crate) fn is_white(byte: u8) -> bool
    ensures { result ≡ is_white byte }
{
    byte == b' ' || byte == b'\t' || byte == b'\r' || byte == b'\n'
}

pub(crate) fn is_text(byte: u8) -> bool
    ensures { result ≡ is_text byte }
{
    33 <= byte && byte <= 126
}

pub(crate) fn is_plain(byte: u8) -> bool
    ensures { result ≡ is_plain byte }
{
    is_text(byte) || is_white(byte)
}

pub(crate) fn all_plain(bytes: &[u8]) -> bool
    ensures { result ≡ list_all is_plain bytes.now }
{
    bytes.iter().all(|byte| is_plain(*byte))
}

pub(crate) fn is_letter(byte: u8) -> bool
    ensures { result ≡ is_letter byte }
{
    (b'A' <= byte && byte <= b'Z') || (b'a' <= byte && byte <= b'z')
}

pub(crate) fn is_digit(byte: u8) -> bool
    ensures { result ≡ is_digit byte }
{
    b'0' <= byte && byte <= b'9'
}

pub(crate) fn begins_name(byte: u8) -> bool
    ensures { result ≡ begins_name byte }
{
    is_letter(byte) || byte == b'_'
}

fn is_name_byte(byte: u8) -> bool
    ensures { result ≡ is_name_byte byte }
{
    begins_name(byte) || is_digit(byte) || byte == b'$'
}

fn is_constant_byte(byte: u8) -> bool
    ensures { result ≡ is_constant_byte byte }
{
    begins_name(byte) || is_digit(byte) || byte == b'?'
}

pub(crate) fn is_sign(byte: u8) -> bool
    ensures { result ≡ is_sign byte }
{
    byte == b'('
        || byte == b')'
        || byte == b','
        || byte == b'.'
        || byte == b':'
        || byte == b';'
        || byte == b'='
        || byte == b'['
        || byte == b']'
}

pub(crate) fn begins_with(byte: u8, text: &[u8]) -> bool
    ensures { result ≡ begins_with byte text.now }
{
    match text {
        [] => false,
        [first, ..] => *first == byte,
    }
}

pub(crate) fn name_len(text: &[u8]) -> usize
    ensures len { result ≡ name_len text.now }
    ensures within { result ≤ length text.now }
{
    let mut len = 0;
    let mut rest = text;
    'bytes: while let [byte, more @ ..] = rest {
        if !is_name_byte(*byte) {
            return len;
        }
        len += 1;
        rest = more;
    }
    len
}

pub(crate) fn digits_len(text: &[u8]) -> usize
    ensures len { result ≡ digits_len text.now }
    ensures within { result ≤ length text.now }
{
    let mut len = 0;
    let mut rest = text;
    'bytes: while let [byte, more @ ..] = rest {
        if !is_digit(*byte) {
            return len;
        }
        len += 1;
        rest = more;
    }
    len
}

pub(crate) fn text_len(text: &[u8]) -> usize
    ensures len { result ≡ text_len text.now }
    ensures within { result ≤ length text.now }
{
    let mut len = 0;
    let mut rest = text;
    'bytes: while let [byte, more @ ..] = rest {
        if !is_text(*byte) {
            return len;
        }
        len += 1;
        rest = more;
    }
    len
}

pub(crate) fn constant_len(text: &[u8]) -> usize
    ensures len { result ≡ constant_len text.now }
    ensures within { result ≤ length text.now }
{
    let mut len = 0;
    let mut rest = text;
    'bytes: while let [byte, more @ ..] = rest {
        if !is_constant_byte(*byte) {
            return len;
        }
        len += 1;
        rest = more;
    }
    len
}
