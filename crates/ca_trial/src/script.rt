//! A case file, line by line.

use crate::commands::{play, words_of};
use crate::lines::{add_text, set};
use crate::setup::{CaseFile, Setup};
use crate::stop::Stop;
use crate::texts::push_number;
use crate::trial::Commands;
use ca_lex::Text;

/// A case file that is played: what comes before the next command, the words of the last one, and the answers
/// so far.
#[derive(Drop)]
pub(crate) struct Script {
    rt: HostRuntime,
    setup: Setup,
    words: Vec<String>,
    // whether a line of a text may come
    in_text: bool,
    // how many cases there are, how many lines with commands, and how many of these in this case
    cases: usize,
    commands: usize,
    of_case: usize,
    pub(crate) answers: Text,
}

impl Script {
    /// Nothing was read.
    pub(crate) fn new(rt: HostRuntime) -> Self {
        let alloc = rt.alloc();
        Script {
            rt,
            setup: Setup::new(alloc),
            words: Vec::new(alloc),
            in_text: false,
            cases: 0,
            commands: 0,
            of_case: 0,
            answers: Text::new(alloc),
        }
    }

    /// Takes one line.
    pub(crate) fn take<C: Commands>(&mut self, commands: &mut C, line: &str) -> Result<(), Stop> {
        if line.is_empty() || line.starts_with('#') {
            return Ok(());
        }
        let (word, rest) = line.split_once(' ').unwrap_or((line, ""));
        match word {
            "|" | "from" | "repeat" | "fill" if self.in_text => {
                add_text(self.rt, &mut self.setup, word, rest)
            }
            "file" => self.begin_file(rest),
            "case" => self.begin_case(rest),
            "run" | "again" | "alter" | "cut" | "each" => self.play(commands, word, rest, line),
            _ => {
                self.in_text = false;
                set(self.rt.alloc(), &mut self.setup, word, rest)
            }
        }
    }

    /// After the last line: the last case has a command. The numbers of cases and of lines with commands are
    /// reported.
    pub(crate) fn end(&mut self) -> Result<(), Stop> {
        self.end_case()?;
        self.answers.push(b'\n')?;
        push_number(&mut self.answers, self.cases)?;
        self.answers.append(b" cases, ")?;
        push_number(&mut self.answers, self.commands)?;
        Ok(self.answers.append(b" commands\n")?)
    }

    // There is a case, and it has a command.
    fn end_case(&self) -> Result<(), Stop> {
        if self.of_case == 0 {
            return Err(Stop::Form);
        }
        Ok(())
    }

    fn begin_file(&mut self, name: &str) -> Result<(), Stop> {
        let alloc = self.rt.alloc();
        let name = String::from_str(alloc, name)?;
        let text = Text::new(alloc);
        self.setup.files.push(CaseFile { name, text })?;
        self.in_text = true;
        Ok(())
    }

    fn begin_case(&mut self, name: &str) -> Result<(), Stop> {
        if self.cases == 0 {
            self.setup.end_head();
        } else {
            self.end_case()?;
        }
        if name.is_empty() {
            return Err(Stop::Form);
        }
        self.in_text = false;
        self.cases = self.cases.saturating_add(1);
        self.of_case = 0;
        self.words.clear();
        self.setup.begin_case();
        self.answers.append(b"\n== ")?;
        self.answers.append(name.as_bytes())?;
        Ok(self.answers.push(b'\n')?)
    }

    // Plays a line that runs commands, and reports what they leave.
    fn play<C: Commands>(
        &mut self,
        commands: &mut C,
        word: &str,
        rest: &str,
        line: &str,
    ) -> Result<(), Stop> {
        let alloc = self.rt.alloc();
        if self.cases == 0 {
            return Err(Stop::Form);
        }
        self.in_text = false;
        self.commands = self.commands.saturating_add(1);
        self.of_case = self.of_case.saturating_add(1);
        self.answers.append(b"$ ")?;
        self.answers.append(line.as_bytes())?;
        self.answers.push(b'\n')?;
        if word == "run" {
            self.words = words_of(alloc, rest)?;
        }
        if self.words.is_empty() {
            return Err(Stop::Form);
        }
        play(
            alloc,
            commands,
            &mut self.answers,
            &self.setup,
            &self.words,
            word,
            rest,
        )
    }
}
