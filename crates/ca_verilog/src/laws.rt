//! What the definitions imply.
ghost use Rattle.std.specs.Prelude.{◌≡◌, ℕ, nat_lt, if◌then◌else◌, List, Ok, Err};
ghost use Rattle.ca_lex.specs.Length.{number_of};
ghost use Rattle.ca_verilog.specs.declared.lexeme.TheConstants.{MOST};
ghost use Rattle.ca_verilog.specs.declared.lexeme.Lexeme.TheVariants.{Number, Large};
ghost use Rattle.ca_verilog.specs.Lexeme.{number_from};
ghost use Rattle.ca_verilog.specs.declared.lexeme.Lexeme.{Lexeme};
ghost use Rattle.ca_verilog.specs.declared.table.Place.TheVariants.{Start, End};
ghost use Rattle.ca_verilog.specs.Grammar.{IsModule};
ghost use Rattle.ca_verilog.specs.Path.{places_from};
ghost use Rattle.ca_verilog.specs.Module.{HasModule};
ghost use Rattle.ca_verilog.specs.declared.raw.RawNetlist.{RawNetlist};
ghost use Rattle.ca_verilog.specs.declared.fault.VerilogKind.{VerilogKind};
ghost use Rattle.ca_verilog.specs.declared.fault.VerilogFault.TheVariants.{At};
ghost use Rattle.ca_verilog.specs.Text.{netlist_of};
ghost use Rattle.ca_verilog.specs.Laws.{IsFirstFaulty, IsOfNames};

/// A text has a fault on a line exactly where that is its first: a token that can't follow those before it,
/// which were read, a fault that no token begins with, or an end that comes too early.
pub fn first_faulty_token()
    ensures found { (text : List ℕ) (line : ℕ) (kind : VerilogKind) → netlist_of text ≡ Err (At line kind)
        → IsFirstFaulty text line kind }
    ensures only { (text : List ℕ) (line : ℕ) (kind : VerilogKind) → IsFirstFaulty text line kind
        → netlist_of text ≡ Err (At line kind) }
{}

/// Tokens lead through the table from its start to its end exactly where they are a module of the grammar.
pub fn grammar_of_the_table()
    ensures found { (lexemes : List Lexeme) → places_from Start lexemes ≡ Ok End → IsModule lexemes }
    ensures only { (lexemes : List Lexeme) → IsModule lexemes → places_from Start lexemes ≡ Ok End }
{}

/// A text that reads as a netlist is tokens alone, and these are a module of the grammar.
pub fn read_text_is_a_module()
    ensures { (text : List ℕ) (netlist : RawNetlist) → netlist_of text ≡ Ok netlist → HasModule text }
{}

/// The number of a token is the decimal number of its digits, unless that is larger than the greatest one.
pub fn number_of_digits()
    ensures { (digits : List ℕ) → number_from 0 digits
        ≡ (if nat_lt MOST (number_of digits) then Large else Number (number_of digits)) }
{}

/// A text whose tokens are a module of the grammar has a netlist, or it has too many bits, or its first fault
/// is one of names and ranges.
pub fn module_is_refused_for_names_alone()
    ensures { (text : List ℕ) (line : ℕ) (kind : VerilogKind) → HasModule text
        → netlist_of text ≡ Err (At line kind) → IsOfNames kind }
{}
