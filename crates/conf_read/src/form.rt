// How tokens make up directives.
ghost use Rattle.std.specs.Prelude.{◌≡◌, ◌+◌, ◌<◌, ◌≤◌, ◌^◌, [], IfOk};
ghost use Rattle.conf_read.specs.Tree.{Lexeme, Ending, token};
ghost use Rattle.conf_read.specs.Scan.{Takes, Gives, worded, with_pieces, over};

use crate::ConfFault;
use crate::directive::{Directive, Piece};
use njs_text::{List, NoMemory, Text};
use std::alloc::Global;

/// The pieces so far, the directive whose end hasn't come yet, and how many blocks are open.
#[derive(Drop)]
pub struct Form {
    pub pieces: List<Piece>,
    pub current: Option<Directive>,
    pub depth: u32,
}

fn worded(
    alloc: Global,
    current: Option<Directive>,
    line: u32,
    text: Text,
) -> Result<Directive, NoMemory>
    ensures { IfOk result (λ directive. directive ≡ worded current line text) }
{
    match current {
        None => Ok(Directive {
            line,
            name: text,
            words: List::new(alloc),
        }),
        Some(mut directive) => {
            directive.words.push(text)?;
            Ok(directive)
        }
    }
}

impl Form {
    pub fn new(alloc: Global) -> Form
        ensures pieces { result.pieces ≡ [] }
        ensures current { result.current ≡ None }
        ensures depth { result.depth ≡ 0 }
    {
        Form {
            pieces: List::new(alloc),
            current: None,
            depth: 0,
        }
    }

    /// Takes a word that begins on a line.
    pub fn word(&mut self, alloc: Global, line: u32, text: Text) -> Result<(), ConfFault>
        ensures takes { Takes self.old (token line (Lexeme.word text)) result self.new }
        ensures depth { self.new.depth ≡ self.old.depth }
    {
        let directive = worded(alloc, self.current.take(), line, text)?;
        self.current = Some(directive);
        Ok(())
    }

    /// Takes a `;` on a line.
    #[tactic(auto, using(crate::proofs::Pieces::pieces_push, crate::proofs::Pieces::pieces_misfit))]
    pub fn semicolon(&mut self, line: u32) -> Result<(), ConfFault>
        ensures takes { Takes self.old (token line Lexeme.semicolon) result self.new }
        ensures depth { self.new.depth ≡ self.old.depth }
    {
        match self.current.take() {
            None => Err(ConfFault::Syntax(line)),
            Some(directive) => {
                self.pieces.push(Piece::Plain(directive))?;
                Ok(())
            }
        }
    }

    /// Takes a `{` on a line.
    #[tactic(auto, using(crate::proofs::Pieces::pieces_push, crate::proofs::Pieces::pieces_misfit))]
    pub fn open(&mut self, line: u32) -> Result<(), ConfFault>
        requires { self.old.depth + 1 < 2 ^ 32 }
        ensures takes { Takes self.old (token line Lexeme.opening) result self.new }
        ensures depth { self.new.depth ≤ self.old.depth + 1 }
    {
        match self.current.take() {
            None => Err(ConfFault::Syntax(line)),
            Some(directive) => {
                self.pieces.push(Piece::Open(directive))?;
                self.depth += 1;
                Ok(())
            }
        }
    }

    /// Takes a `}` on a line.
    #[tactic(auto, using(crate::proofs::Pieces::pieces_push, crate::proofs::Pieces::pieces_misfit))]
    pub fn close(&mut self, line: u32) -> Result<(), ConfFault>
        ensures takes { Takes self.old (token line Lexeme.closing) result self.new }
        ensures depth { self.new.depth ≤ self.old.depth }
    {
        if self.current.is_some() || self.depth == 0 {
            return Err(ConfFault::Syntax(line));
        }
        self.pieces.push(Piece::Close)?;
        self.depth -= 1;
        Ok(())
    }

    #[tactic(auto, using(crate::proofs::Pieces::pieces_complete, crate::proofs::Pieces::pieces_cut))]
    /// The pieces, at the end of all tokens; the last line of the text is given.
    pub fn finish(self, last: u32) -> Result<List<Piece>, ConfFault>
        ensures { Gives (with_pieces self.pieces (over Ending.whole self.current self.depth)) last result }
    {
        let Form {
            pieces,
            current,
            depth,
        } = self;
        if depth > 0 {
            return Err(ConfFault::Syntax(last));
        }
        match current {
            None => Ok(pieces),
            Some(_) => Err(ConfFault::Syntax(last)),
        }
    }
}
