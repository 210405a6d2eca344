//! Names in double quotes.
ghost use Rattle.std.specs.Prelude.{◌≡◌, ◌++◌, ◌∷◌, [], map, option_map};
ghost use Rattle.std.specs.List.{list_all};
ghost use Rattle.std.specs.Str.{bytes_eq};
ghost use Rattle.ca_stil_form.specs.Frame.{is_name_byte, is_name, quoted};
ghost use Rattle.ca_stil_form.specs.Grammar.{spelled_value};
ghost use Rattle.ca_stil_form.specs.Whole.{name_in};

fn is_name_byte(byte: u8) -> bool
    ensures { result ≡ is_name_byte byte }
{
    33 <= byte && byte <= 126 && byte != b'"'
}

fn all_name_bytes(text: &[u8]) -> bool
    ensures { result ≡ list_all is_name_byte text.now }
{
    let mut rest = text;
    'bytes: while let [byte, more @ ..] = rest {
        if !is_name_byte(*byte) {
            return false;
        }
        rest = more;
    }
    true
}

pub(crate) fn is_name(name: &[u8]) -> bool
    ensures { result ≡ is_name name.now }
{
    !name.is_empty() && all_name_bytes(name)
}

// Whether a text is the name and a closing quote.
fn closes(name: &[u8], text: &[u8]) -> bool
    ensures { result ≡ bytes_eq (name.now ++ 34 ∷ []) text.now }
{
    let mut left = name;
    let mut rest = text;
    'bytes: while let [byte, more @ ..] = left {
        let [other, after @ ..] = rest else {
            return false;
        };
        if *byte != *other {
            return false;
        }
        left = more;
        rest = after;
    }
    match rest {
        [byte] => *byte == b'"',
        _ => false,
    }
}

fn is_quoted(name: &[u8], text: &[u8]) -> bool
    ensures { result ≡ bytes_eq (quoted name.now) text.now }
{
    match text {
        [first, rest @ ..] => *first == b'"' && closes(name, rest),
        [] => false,
    }
}

// What stands between the first and the last byte.
fn inner(token: &[u8]) -> &[u8]
    ensures { result.now ≡ name_in token.now }
{
    if token.len() < 2 {
        return &[];
    }
    &token[1..token.len() - 1]
}

/// The name that a token is in double quotes.
pub(crate) fn name_of(token: &[u8]) -> Option<&[u8]>
    ensures { option_map (λ name. name.now) result ≡ spelled_value is_name quoted name_in token.now }
{
    let name = inner(token);
    if is_name(name) && is_quoted(name, token) {
        return Some(name);
    }
    None
}
