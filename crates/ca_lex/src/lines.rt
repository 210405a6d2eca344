//! The logical lines of a cell netlist.
ghost use Rattle.std.specs.Prelude.{◌≡◌, ◌∷◌, IfOk, OnOk, None};
ghost use Rattle.ca_lex.specs.Lines.{spice_lines};
ghost use Rattle.ca_lex.specs.code.Joining.{physical, with_last, TakesOver};

use crate::Text;
use crate::physical::{Piece, first_line, piece_of};
use ca_base::NoMemory;
use std::alloc::Global;
use std::marker::Model;

/// A logical line, with the number of its first physical line, counted from 1. A text that begins with `+` is
/// a continuation that had no card before it.
#[derive(Drop)]
pub struct Line {
    pub line: usize,
    pub text: Text,
}

/// Logical lines in order. Contracts see them as a list.
#[derive(Drop)]
pub struct Lines {
    lines: Vec<Line>,
}

impl Model for Lines {
    ghost use Rattle.ca_lex.specs.declared.lines.Line.{Line};
    ghost use Rattle.std.specs.Prelude.{List};

    ghost Value = { List Line };

    ghost view = { λ lines. lines.lines.items };
}

impl Lines {
    /// The lines as a slice.
    pub fn as_slice(&self) -> &[Line]
        ensures { result.now ≡ self.now }
    {
        &self.lines
    }
}

/// A continuation that continues nothing keeps its `+`.
fn stray(alloc: Global, text: &[u8]) -> Result<Text, NoMemory>
    ensures ok { IfOk result (λ stray. stray ≡ 43 ∷ text.now) }
{
    let mut stray = Text::new(alloc);
    stray.push(b'+')?;
    stray.append(text)?;
    Ok(stray)
}

/// The logical lines so far, and after them the card that can be continued.
#[derive(Drop)]
struct Joiner {
    lines: Vec<Line>,
    last: Option<Line>,
}

impl Joiner {
    /// No further line continues the last card.
    fn close(&mut self) -> Result<(), NoMemory>
        ensures none { OnOk result (self.new.last ≡ None) }
        ensures lines { OnOk result (self.new.lines.items ≡ with_last self.old.lines.items self.old.last) }
    {
        if let Some(card) = self.last.take() {
            self.lines.push(card)?;
        }
        Ok(())
    }

    /// Adds the next physical line, which has this number.
    fn add(&mut self, alloc: Global, line: usize, piece: Piece<'_>) -> Result<(), NoMemory>
        ensures ok { OnOk result (TakesOver self.old.lines.items self.old.last line (physical piece.entry)
            self.new.lines.items self.new.last) }
    {
        match piece {
            Piece::Nothing => {}
            Piece::Continuation(text) => match &mut self.last {
                Some(card) => {
                    // A blank parts the words of the card from those of its continuation.
                    card.text.push(b' ')?;
                    card.text.append(text)?;
                }
                None => {
                    let text = stray(alloc, text)?;
                    self.lines.push(Line { line, text })?;
                }
            },
            Piece::PinInfo(text) => {
                self.close()?;
                let text = Text::from_bytes(alloc, text)?;
                self.lines.push(Line { line, text })?;
            }
            Piece::Card(text) => {
                self.close()?;
                let text = Text::from_bytes(alloc, text)?;
                self.last = Some(Line { line, text });
            }
        }
        Ok(())
    }
}

/// The logical lines of a cell netlist, without comments. The parts of a continued card are joined by single
/// blanks.
pub fn spice_lines(alloc: Global, bytes: &[u8]) -> Result<Lines, NoMemory>
    ensures ok { IfOk result (λ lines. lines ≡ spice_lines bytes.now) }
{
    let mut joiner = Joiner {
        lines: Vec::new(alloc),
        last: None,
    };
    let mut rest = bytes;
    let mut number = 1;
    'lines: while !rest.is_empty() {
        let (line, more) = first_line(rest);
        joiner.add(alloc, number, piece_of(line))?;
        rest = more;
        number += 1;
    }
    joiner.close()?;
    Ok(Lines {
        lines: joiner.lines,
    })
}
