//! The tokens of texts, and the faults of texts that are no lists of tokens.

use TokenKind::{Constant, Escaped, Name, Number, Sign};
use ca_lex::TokenKind;
use ca_token::{Flaw, LexFault, LexKind, Next, line_at, next_token, verilog_tokens};

/// A text whose tokens are these, given by what they are.
const TEXT: &[u8] =
    b"`resetall x\nmodule \\a[0]\t(* k = \"(\" *)(b$1); // c\n wire[12:007]_; assign b=1'b0,1'B1; /* d\n*/ .\\e*\n";

const TOKENS: [(TokenKind, &[u8]); 23] = [
    (Name, b"module"),
    (Escaped, b"\\a[0]"),
    (Sign, b"("),
    (Name, b"b$1"),
    (Sign, b")"),
    (Sign, b";"),
    (Name, b"wire"),
    (Sign, b"["),
    (Number, b"12"),
    (Sign, b":"),
    (Number, b"007"),
    (Sign, b"]"),
    (Name, b"_"),
    (Sign, b";"),
    (Name, b"assign"),
    (Name, b"b"),
    (Sign, b"="),
    (Constant, b"1'b0"),
    (Sign, b","),
    (Constant, b"1'B1"),
    (Sign, b";"),
    (Sign, b"."),
    (Escaped, b"\\e*"),
];

#[test]
fn tokens_of_a_text(rt: HostRuntime) {
    match verilog_tokens(rt.alloc(), TEXT) {
        Ok(tokens) => {
            let tokens = tokens.as_slice();
            assert_eq!(rt; tokens.len(), 23);
            for place in 0..23 {
                let (kind, text) = TOKENS[place];
                assert_eq!(rt; tokens[place].kind, kind, "{place}");
                assert!(rt;
                    TEXT.get(tokens[place].start..tokens[place].end) == Some(text),
                    "{place}"
                );
            }
        }
        Err(fault) => assert!(rt; false, "{fault:?}"),
    }
}

/// Each text with where its faulty token begins, the line that is reported, and the kind.
const FAULTS: [(&[u8], usize, usize, LexKind); 16] = [
    (b"a\n \x80", 3, 2, LexKind::NotText),
    (b"a /* b\n\nc", 2, 3, LexKind::Syntax),
    (b"a (* b\n\x80 *)", 2, 2, LexKind::NotText),
    (b"(*", 0, 1, LexKind::Syntax),
    (b"(*)", 1, 1, LexKind::Syntax),
    (b"a\n\\", 2, 2, LexKind::Syntax),
    (b"\\ ", 0, 1, LexKind::Syntax),
    (b"\\a\"\n", 0, 1, LexKind::Unsupported),
    (b"\\a\"\x80", 0, 1, LexKind::NotText),
    (b"a `timescale", 2, 1, LexKind::Unsupported),
    (b" `timescale \x01\n", 1, 1, LexKind::NotText),
    (b"1'b01", 0, 1, LexKind::Unsupported),
    (b"1'", 0, 1, LexKind::Unsupported),
    (b"'b0", 0, 1, LexKind::Unsupported),
    (b"a{", 1, 1, LexKind::Unsupported),
    (b"a/b", 1, 1, LexKind::Syntax),
];

#[test]
fn first_faults(rt: HostRuntime) {
    for (text, at, line, kind) in FAULTS {
        match verilog_tokens(rt.alloc(), text) {
            Err(fault) => assert_eq!(rt; fault, LexFault::At { at, line, kind }, "{text:?}"),
            Ok(_) => assert!(rt; false, "read: {text:?}"),
        }
    }
    assert_eq!(rt; line_at(b"\n\na", 2), 3);
    match next_token(b"/* */ \x80", 0) {
        Next::Flaw(flaw) => {
            let expected = Flaw {
                at: 6,
                place: 6,
                kind: LexKind::NotText,
            };
            assert_eq!(rt; flaw, expected);
        }
        _ => assert!(rt; false, "no flaw"),
    }
}
