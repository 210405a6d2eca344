//! What the definitions imply.
ghost use Rattle.std.specs.Prelude.{◌≡◌, ℕ, List, take, Ok, Err};
ghost use Rattle.ca_token.specs.declared.fault.LexFault.TheVariants.{At};
ghost use Rattle.ca_token.specs.declared.fault.LexKind.{LexKind};
ghost use Rattle.ca_token.specs.LexFault.{tokens_of};
ghost use Rattle.ca_token.specs.Names.{NamesArePlain};
ghost use Rattle.ca_token.specs.Scan.{scan_of};

/// The bytes before the first fault of a text are a list of tokens, and these are the tokens before the
/// fault.
pub fn bytes_before_a_fault()
    ensures { (text : List ℕ) (at : ℕ) (line : ℕ) (kind : LexKind) → tokens_of text ≡ Err (At at line kind)
        → tokens_of (take at text) ≡ Ok (scan_of text).tokens }
{}

/// Each identifier of a text has a name of bytes from 33 to 126 without a double quote.
pub fn names_are_plain()
    ensures { NamesArePlain }
{}
