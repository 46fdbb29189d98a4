//! A place among the tokens of a text, seen as the symbols from there on.
ghost use Rattle.std.specs.Prelude.{◌≡◌, ◌<◌, ◌≤◌, ◌^◌, length, IfOk};
ghost use Rattle.std.specs.Str.{chars};
ghost use Rattle.njs_tree.specs.Symbols.{line_of, breaks};
ghost use Rattle.njs_tree.specs.Lexical.{max_number};
ghost use Rattle.njs_tree.specs.TokenList.{symbols_of};
ghost use Rattle.njs_expr.specs.Readers as spec;
ghost use Rattle.njs_expr.specs.Reads.{Reads};
ghost use Rattle.njs_expr.specs.Cuts.{AreOf};

use crate::literals::{number_value, string_text};
use crate::tables::{may_miss, sees, sees_word};
use crate::words::{decimal, number_of, string_of, terminal, text_of, word_of};
use crate::{ParseStop, Terminal};
use njs_text::Text;
use njs_tree::{Keyword, Mark, Token};
use std::alloc::Global;
use std::marker::Model;

#[derive(Drop)]
pub struct Cursor<'a> {
    text: &'a str,
    tokens: &'a [Token],
    next: Terminal,
}

impl<'a> Model for Cursor<'a> {
    ghost use Rattle.std.specs.Prelude.{◌≡◌, List};
    ghost use Rattle.std.specs.Str.{chars};
    ghost use Rattle.njs_tree.specs.Lexemes.{Symbol};
    ghost use Rattle.njs_tree.specs.TokenList.{symbols_of};
    ghost use Rattle.njs_expr.specs.Readers.{next_of};
    ghost use Rattle.njs_expr.specs.Cuts.{AreOf};

    ghost Value = { List Symbol };

    ghost view = { λ c. symbols_of (chars c.text.now) c.tokens.now };

    ghost invariant = { λ c. AreOf (chars c.text.now) c.tokens.now × (c.next ≡ next_of (symbols_of (chars c.text.now) c.tokens.now)) };
}

impl<'a> Cursor<'a> {
    pub fn new(text: &'a str, tokens: &'a [Token]) -> Cursor<'a>
        requires { AreOf (chars text.now) tokens.now }
        ensures { result ≡ symbols_of (chars text.now) tokens.now }
    {
        Cursor {
            text,
            tokens,
            next: terminal(text, tokens),
        }
    }

    pub fn next(&self) -> Terminal
        ensures { result ≡ spec.next_of self.now }
    {
        self.next
    }

    pub fn second(&self) -> Terminal
        ensures { result ≡ spec.second_of self.now }
    {
        match self.tokens {
            [] => Terminal::End,
            [_, rest @ ..] => terminal(self.text, rest),
        }
    }

    pub fn line(&self) -> u32
        ensures { result ≡ line_of self.now }
    {
        match self.tokens {
            [] => 1,
            [token, ..] => token.line,
        }
    }

    /// Whether a line end stands before the next token.
    pub fn breaks(&self) -> bool
        ensures { result ≡ breaks self.now }
    {
        match self.tokens {
            [] => false,
            [token, ..] => token.after_break,
        }
    }

    /// How many tokens are left.
    pub fn left(&self) -> usize
        ensures left { result ≡ length self.now }
        ensures few { result < 2 ^ 63 }
    {
        self.tokens.len()
    }

    pub fn take(&mut self)
        ensures { self.new ≡ spec.tail self.old }
    {
        if let [_, rest @ ..] = self.tokens {
            self.tokens = rest;
            self.next = terminal(self.text, rest);
        }
    }

    pub fn refuse(&self) -> ParseStop
        ensures { result ≡ ParseStop.Refused (line_of self.now) }
    {
        ParseStop::Refused(self.line())
    }

    pub fn sees(&self, mark: Mark) -> bool
        ensures { result ≡ spec.sees mark (spec.next_of self.now) }
    {
        sees(mark, self.next())
    }

    pub fn sees_word(&self, word: Keyword) -> bool
        ensures { result ≡ spec.sees_word word (spec.next_of self.now) }
    {
        sees_word(word, self.next())
    }

    #[tactic(auto, unfolding(crate::specs::Readers::after))]
    pub fn eat(&mut self, mark: Mark) -> bool
        ensures found { result ≡ spec.sees mark (spec.next_of self.old) }
        ensures after { self.new ≡ spec.after mark self.old }
    {
        let found = self.sees(mark);
        if found {
            self.take();
        }
        found
    }

    #[tactic(auto, unfolding(crate::specs::Readers::after_word))]
    pub fn eat_word(&mut self, word: Keyword) -> bool
        ensures found { result ≡ spec.sees_word word (spec.next_of self.old) }
        ensures after { self.new ≡ spec.after_word word self.old }
    {
        let found = self.sees_word(word);
        if found {
            self.take();
        }
        found
    }

    #[tactic(auto, unfolding(crate::specs::Readers::expect))]
    pub fn expect(&mut self, mark: Mark) -> Result<(), ParseStop>
        ensures { Reads (spec.expect mark self.old) result self.new }
    {
        if self.sees(mark) {
            self.take();
            Ok(())
        } else {
            Err(self.refuse())
        }
    }

    #[tactic(auto, unfolding(crate::specs::Readers::expect_word))]
    pub fn expect_word(&mut self, word: Keyword) -> Result<(), ParseStop>
        ensures { Reads (spec.expect_word word self.old) result self.new }
    {
        if self.sees_word(word) {
            self.take();
            Ok(())
        } else {
            Err(self.refuse())
        }
    }

    /// After one of several: a comma, or else the closing mark, which stays.
    #[tactic(auto, unfolding(crate::specs::Readers::separate))]
    pub fn separate(&mut self, close: Mark) -> Result<(), ParseStop>
        ensures { Reads (spec.separate close self.old) result self.new }
    {
        if self.sees(Mark::Comma) {
            self.take();
            return Ok(());
        }
        if self.sees(close) {
            return Ok(());
        }
        Err(self.refuse())
    }

    /// The end of a statement (ECMA-262 5.1 §7.9).
    #[tactic(auto, unfolding(crate::specs::Readers::semicolon))]
    pub fn semicolon(&mut self) -> Result<(), ParseStop>
        ensures { Reads (spec.semicolon self.old) result self.new }
    {
        if self.sees(Mark::Semicolon) {
            self.take();
            return Ok(());
        }
        if may_miss(self.next(), self.breaks()) {
            return Ok(());
        }
        Err(self.refuse())
    }

    /// A name that comes next.
    #[tactic(auto, using(crate::proofs::Takes::name_is_word, crate::proofs::Takes::no_name))]
    pub fn name(&mut self, alloc: Global) -> Result<Text, ParseStop>
        ensures { Reads (spec.take_name self.old) result self.new }
    {
        match self.next() {
            Terminal::Name => self.word(alloc),
            _ => Err(self.refuse()),
        }
    }

    /// A name or a reserved word that comes next.
    #[tactic(auto, unfolding(crate::specs::Readers::take_word))]
    pub fn word(&mut self, alloc: Global) -> Result<Text, ParseStop>
        ensures { Reads (spec.take_word self.old) result self.new }
    {
        match word_of(self.text, self.tokens) {
            Some(word) => {
                let text = text_of(alloc, word)?;
                self.take();
                Ok(text)
            }
            None => Err(self.refuse()),
        }
    }

    /// A number that comes next.
    #[tactic(auto, unfolding(crate::specs::Readers::take_number))]
    pub fn number(&mut self) -> Result<u64, ParseStop>
        ensures number { Reads (spec.take_number self.old) result self.new }
        ensures small { IfOk result (λ n. n ≤ max_number) }
    {
        match number_of(self.text, self.tokens) {
            Some(digits) => match number_value(digits) {
                Some(value) => {
                    self.take();
                    Ok(value)
                }
                None => Err(ParseStop::NoMemory),
            },
            None => Err(self.refuse()),
        }
    }

    /// A string that comes next, by what it stands for.
    #[tactic(auto, unfolding(crate::specs::Readers::take_string))]
    pub fn string(&mut self, alloc: Global) -> Result<Text, ParseStop>
        ensures { Reads (spec.take_string self.old) result self.new }
    {
        match string_of(self.text, self.tokens) {
            Some(string) => {
                let text = string_text(alloc, string)?;
                self.take();
                Ok(text)
            }
            None => Err(self.refuse()),
        }
    }

    /// The key of a property that comes next.
    #[tactic(auto, using(crate::proofs::Takes::string_key, crate::proofs::Takes::word_key))]
    pub fn key(&mut self, alloc: Global) -> Result<Text, ParseStop>
        ensures { Reads (spec.take_key self.old) result self.new }
    {
        match self.next() {
            Terminal::Number => self.number_key(alloc),
            Terminal::Str => self.string(alloc),
            _ => self.word(alloc),
        }
    }

    fn number_key(&mut self, alloc: Global) -> Result<Text, ParseStop>
        requires { spec.next_of self.old ≡ Terminal.Number }
        ensures { Reads (spec.take_key self.old) result self.new }
    {
        match self.number() {
            Ok(number) => decimal(alloc, number),
            Err(stop) => Err(stop),
        }
    }
}
