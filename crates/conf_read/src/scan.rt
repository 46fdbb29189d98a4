// How a text is read, character by character: the pieces of its tree of directives.
ghost use Rattle.std.specs.Prelude.{◌≡◌, ◌+◌, ◌<◌, ◌≤◌, ◌^◌, List, [], length, ℕ, OnOk};
ghost use Rattle.conf_read.specs.declared.scan.Mode.TheVariants as mode;
ghost use Rattle.conf_read.specs.Characters.{last_line, line_after};
ghost use Rattle.conf_read.specs.Tree.{Lexeme, Ending, token};
ghost use Rattle.conf_read.specs.Scan.{Reads, ReadsBetween, Takes, IsSmall, Grows, Gives, pieces_of, scanned, formed, ended};

use crate::ConfFault;
use crate::characters::{is_blank, is_part, last_line};
use crate::directive::Piece;
use crate::form::Form;
use crate::words::text_of;
use njs_text::List;
use std::alloc::Global;

/// Where in a text a character stands.
#[derive(Clone, Copy, Debug, PartialEq, Eq)]
pub enum Mode {
    Between,
    Comment,
    Word,
    Quoted(char),
    Escaped(char),
}

/// What was read of a text. A word that has begun has the line where it began and its characters so far.
#[derive(Drop)]
pub struct Scanner {
    pub mode: Mode,
    pub start: u32,
    pub word: List<char>,
    pub line: u32,
    pub form: Form,
}

impl Scanner {
    fn new(alloc: Global) -> Scanner
        ensures given { (rest : List ℕ) → scanned result rest ≡ pieces_of rest }
        ensures small { IsSmall result 0 }
    {
        Scanner {
            mode: Mode::Between,
            start: 1,
            word: List::new(alloc),
            line: 1,
            form: Form::new(alloc),
        }
    }

    fn pass(&mut self, c: char)
        requires { self.old.line + 1 < 2 ^ 32 }
        ensures { self.new ≡ record self.old { line = line_after c self.old.line } }
    {
        if c == '\n' {
            self.line += 1;
        }
    }

    fn end_word(&mut self, alloc: Global) -> Result<(), ConfFault>
        requires { length self.old.word ≤ 1048576 }
        ensures takes { Takes self.old.form (token self.old.start (Lexeme.word self.old.word)) result self.new.form }
        ensures others { OnOk result (self.new ≡ record self.old { word = []; form = self.new.form }) }
        ensures depth { self.new.form.depth ≡ self.old.form.depth }
    {
        let text = text_of(alloc, self.word.as_slice())?;
        self.form.word(alloc, self.start, text)?;
        self.word = List::new(alloc);
        Ok(())
    }

    // A character that no word holds yet.
    fn between(&mut self, alloc: Global, c: char) -> Result<(), ConfFault>
        requires line { self.old.line + 1 < 2 ^ 32 }
        requires depth { self.old.form.depth + 1 < 2 ^ 32 }
        ensures reads { ReadsBetween self.old c result self.new }
        ensures grows { OnOk result (Grows self.old self.new) }
    {
        self.mode = Mode::Between;
        if is_blank(c) {
            self.pass(c);
            return Ok(());
        }
        match c {
            '#' => {
                self.mode = Mode::Comment;
                Ok(())
            }
            '"' | '\'' => {
                self.mode = Mode::Quoted(c);
                self.start = self.line;
                self.word = List::new(alloc);
                Ok(())
            }
            ';' => self.form.semicolon(self.line),
            '{' => self.form.open(self.line),
            '}' => self.form.close(self.line),
            _ => {
                self.mode = Mode::Word;
                self.start = self.line;
                self.word = List::new(alloc);
                self.word.push(c)?;
                Ok(())
            }
        }
    }

    fn in_word(&mut self, alloc: Global, c: char) -> Result<(), ConfFault>
        requires mode { self.old.mode ≡ mode.Word }
        requires line { self.old.line + 1 < 2 ^ 32 }
        requires depth { self.old.form.depth + 1 < 2 ^ 32 }
        requires word { length self.old.word ≤ 1048576 }
        ensures reads { Reads self.old c result self.new }
        ensures grows { OnOk result (Grows self.old self.new) }
    {
        if is_part(c) {
            self.word.push(c)?;
            return Ok(());
        }
        self.end_word(alloc)?;
        self.between(alloc, c)
    }

    fn in_quotes(&mut self, alloc: Global, quote: char, c: char) -> Result<(), ConfFault>
        requires mode { self.old.mode ≡ mode.Quoted quote }
        requires line { self.old.line + 1 < 2 ^ 32 }
        requires word { length self.old.word ≤ 1048576 }
        ensures reads { Reads self.old c result self.new }
        ensures grows { OnOk result (Grows self.old self.new) }
    {
        if c == quote {
            self.end_word(alloc)?;
            self.mode = Mode::Between;
            return Ok(());
        }
        if c == '\\' {
            self.mode = Mode::Escaped(quote);
            return Ok(());
        }
        self.word.push(c)?;
        self.pass(c);
        Ok(())
    }

    fn step(&mut self, alloc: Global, c: char) -> Result<(), ConfFault>
        requires line { self.old.line + 1 < 2 ^ 32 }
        requires depth { self.old.form.depth + 1 < 2 ^ 32 }
        requires word { length self.old.word ≤ 1048576 }
        ensures reads { Reads self.old c result self.new }
        ensures grows { OnOk result (Grows self.old self.new) }
    {
        match self.mode {
            Mode::Between => self.between(alloc, c),
            Mode::Comment => {
                if c == '\n' {
                    self.mode = Mode::Between;
                    self.line += 1;
                }
                Ok(())
            }
            Mode::Word => self.in_word(alloc, c),
            Mode::Quoted(quote) => self.in_quotes(alloc, quote, c),
            Mode::Escaped(quote) => {
                self.mode = Mode::Quoted(quote);
                self.word.push(c)?;
                self.pass(c);
                Ok(())
            }
        }
    }

    // The end of all tokens.
    fn into_pieces(self, last: u32) -> Result<List<Piece>, ConfFault>
        ensures { Gives (formed self.form (ended Ending.whole)) last result }
    {
        let Scanner { form, .. } = self;
        form.finish(last)
    }

    // The end of the text, whose last line is given.
    fn finish(mut self, alloc: Global, last: u32) -> Result<List<Piece>, ConfFault>
        requires { length self.word ≤ 1048576 }
        ensures { Gives (scanned self []) last result }
    {
        match self.mode {
            Mode::Between | Mode::Comment => self.into_pieces(last),
            Mode::Word => {
                self.end_word(alloc)?;
                self.into_pieces(last)
            }
            Mode::Quoted(_) => Err(ConfFault::Syntax(last)),
            Mode::Escaped(_) => Err(ConfFault::Syntax(last)),
        }
    }
}

/// The pieces of the tree of directives that a text spells.
pub fn pieces(alloc: Global, text: &[char]) -> Result<List<Piece>, ConfFault>
    requires { length text.now ≤ 1048576 }
    ensures { Gives (pieces_of text.now) (last_line text.now) result }
{
    let mut scanner = Scanner::new(alloc);
    for c in text {
        scanner.step(alloc, *c)?;
    }
    scanner.finish(alloc, last_line(text) as u32)
}
