//! Words: names and reserved words.

ghost use Rattle.std.specs.Prelude.{◌≡◌};
ghost use Rattle.js_lexer.specs.Words.{reserved_words};
ghost use Rattle.js_lexer.specs.Spellings.{kind_in};

use crate::spelling;
use crate::token::TokenKind;

/// The reserved words (ECMA-262, 12.7.2), with those that strict code and modules reserve.
const RESERVED_WORDS: [(TokenKind, &str); 48] = [
    (TokenKind::Break, "break"),
    (TokenKind::Case, "case"),
    (TokenKind::Catch, "catch"),
    (TokenKind::Class, "class"),
    (TokenKind::Const, "const"),
    (TokenKind::Continue, "continue"),
    (TokenKind::Debugger, "debugger"),
    (TokenKind::Default, "default"),
    (TokenKind::Delete, "delete"),
    (TokenKind::Do, "do"),
    (TokenKind::Else, "else"),
    (TokenKind::Enum, "enum"),
    (TokenKind::Export, "export"),
    (TokenKind::Extends, "extends"),
    (TokenKind::False, "false"),
    (TokenKind::Finally, "finally"),
    (TokenKind::For, "for"),
    (TokenKind::Function, "function"),
    (TokenKind::If, "if"),
    (TokenKind::Import, "import"),
    (TokenKind::In, "in"),
    (TokenKind::Instanceof, "instanceof"),
    (TokenKind::New, "new"),
    (TokenKind::Null, "null"),
    (TokenKind::Return, "return"),
    (TokenKind::Super, "super"),
    (TokenKind::Switch, "switch"),
    (TokenKind::This, "this"),
    (TokenKind::Throw, "throw"),
    (TokenKind::True, "true"),
    (TokenKind::Try, "try"),
    (TokenKind::Typeof, "typeof"),
    (TokenKind::Var, "var"),
    (TokenKind::Void, "void"),
    (TokenKind::While, "while"),
    (TokenKind::With, "with"),
    (TokenKind::Let, "let"),
    (TokenKind::Static, "static"),
    (TokenKind::Implements, "implements"),
    (TokenKind::Interface, "interface"),
    (TokenKind::Package, "package"),
    (TokenKind::Private, "private"),
    (TokenKind::Protected, "protected"),
    (TokenKind::Public, "public"),
    (TokenKind::Yield, "yield"),
    (TokenKind::Await, "await"),
    (TokenKind::Eval, "eval"),
    (TokenKind::Arguments, "arguments"),
];

/// The kind of a word.
pub fn word_kind(text: &[u16]) -> TokenKind
    ensures { result ≡ kind_in reserved_words text.now }
{
    spelling::kind_in(&RESERVED_WORDS, text)
}
