// The reserved words, and how they are spelled.
ghost use Rattle.std.specs.Prelude.{◌≡◌, bytes_eq};
ghost use Rattle.std.specs.List.{find};
ghost use Rattle.std.specs.Str.{chars};
ghost use Rattle.njs_tree.specs.Lexemes.{keyword_text, keyword_of};

use crate::Keyword;

const KEYWORDS: &[Keyword] = &[
    Keyword::Break,
    Keyword::Case,
    Keyword::Catch,
    Keyword::Class,
    Keyword::Const,
    Keyword::Continue,
    Keyword::Debugger,
    Keyword::Default,
    Keyword::Delete,
    Keyword::Do,
    Keyword::Else,
    Keyword::Enum,
    Keyword::Export,
    Keyword::Extends,
    Keyword::Finally,
    Keyword::For,
    Keyword::Function,
    Keyword::If,
    Keyword::Implements,
    Keyword::Import,
    Keyword::In,
    Keyword::InstanceOf,
    Keyword::Interface,
    Keyword::Let,
    Keyword::New,
    Keyword::Package,
    Keyword::Private,
    Keyword::Protected,
    Keyword::Public,
    Keyword::Return,
    Keyword::Static,
    Keyword::Super,
    Keyword::Switch,
    Keyword::This,
    Keyword::Throw,
    Keyword::Try,
    Keyword::TypeOf,
    Keyword::Var,
    Keyword::Void,
    Keyword::While,
    Keyword::With,
    Keyword::Yield,
    Keyword::Null,
    Keyword::True,
    Keyword::False,
];

fn spelling(keyword: Keyword) -> &'static str
    ensures { result.now ≡ keyword_text keyword }
{
    match keyword {
        Keyword::Break => "break",
        Keyword::Case => "case",
        Keyword::Catch => "catch",
        Keyword::Class => "class",
        Keyword::Const => "const",
        Keyword::Continue => "continue",
        Keyword::Debugger => "debugger",
        Keyword::Default => "default",
        Keyword::Delete => "delete",
        Keyword::Do => "do",
        Keyword::Else => "else",
        Keyword::Enum => "enum",
        Keyword::Export => "export",
        Keyword::Extends => "extends",
        Keyword::Finally => "finally",
        Keyword::For => "for",
        Keyword::Function => "function",
        Keyword::If => "if",
        Keyword::Implements => "implements",
        Keyword::Import => "import",
        Keyword::In => "in",
        Keyword::InstanceOf => "instanceof",
        Keyword::Interface => "interface",
        Keyword::Let => "let",
        Keyword::New => "new",
        Keyword::Package => "package",
        Keyword::Private => "private",
        Keyword::Protected => "protected",
        Keyword::Public => "public",
        Keyword::Return => "return",
        Keyword::Static => "static",
        Keyword::Super => "super",
        Keyword::Switch => "switch",
        Keyword::This => "this",
        Keyword::Throw => "throw",
        Keyword::Try => "try",
        Keyword::TypeOf => "typeof",
        Keyword::Var => "var",
        Keyword::Void => "void",
        Keyword::While => "while",
        Keyword::With => "with",
        Keyword::Yield => "yield",
        Keyword::Null => "null",
        Keyword::True => "true",
        Keyword::False => "false",
    }
}

fn is_spelled(keyword: Keyword, word: &str) -> bool
    ensures { result ≡ bytes_eq (chars word.now) (keyword_text keyword) }
{
    word == spelling(keyword)
}

fn first_of(keywords: &[Keyword], word: &str) -> Option<Keyword>
    ensures { result ≡ find (λ k. bytes_eq (chars word.now) (keyword_text k)) keywords.now }
{
    for keyword in keywords {
        if is_spelled(*keyword, word) {
            return Some(*keyword);
        }
    }
    None
}

/// The reserved word that is spelled so (ECMA-262 5.1 §7.6.1, §7.8.1 and §7.8.2, those of strict mode among them).
#[tactic(auto, unfolding(crate::specs::Lexemes::keyword_of, crate::specs::Lexemes::keywords))]
pub fn keyword_of(word: &str) -> Option<Keyword>
    ensures { result ≡ keyword_of (chars word.now) }
{
    first_of(KEYWORDS, word)
}
