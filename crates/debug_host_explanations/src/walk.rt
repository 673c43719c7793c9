//! A walk over the first tokens of a source, which begin a script: which brackets are open, and which names the scopes
//! in them declare so far.

use crate::bracket::{Bracket, Head, Hold, List};
use crate::kinds::{begins_behind, ends_expression, is_word};
use js_lexer::token::{Token, TokenKind};
use std::alloc::{AllocError, Global};

/// A name that a scope declares.
#[derive(Clone, Copy)]
pub(crate) struct Declared<'s> {
    /// The name.
    pub(crate) text: &'s [u16],
    /// How many units of the source stand before it.
    pub(crate) start: usize,
}

/// What was walked over.
#[derive(Drop)]
pub(crate) struct Walk<'s> {
    /// The innermost open bracket, or the script.
    pub(crate) current: Bracket,
    /// Those around it, the innermost last.
    pub(crate) outer: Vec<Bracket>,
    /// The names of the open scopes, those of the innermost last.
    pub(crate) names: Vec<Declared<'s>>,
    /// The last token.
    pub(crate) last: Option<Token<'s>>,
    /// The kind of the last token: a name where it is a key or stands behind a dot.
    pub(crate) kind: Option<TokenKind>,
    /// The kind of the token before it.
    pub(crate) before: Option<TokenKind>,
    /// What stood before the parentheses that were closed last.
    pub(crate) closed: Head,
    /// Where the names begin that may be parameters of the function or the catch that comes next.
    parameters: Option<usize>,
    /// Whether the last `function` begins a declaration.
    declares: bool,
}

impl<'s> Walk<'s> {
    /// Before the first token.
    pub(crate) fn start(alloc: Global) -> Walk<'s> {
        Walk {
            current: Bracket::script(),
            outer: Vec::new(alloc),
            names: Vec::new(alloc),
            last: None,
            kind: None,
            before: None,
            closed: Head::Other,
            parameters: None,
            declares: false,
        }
    }

    /// Walks over the next token.
    ///
    /// # Errors
    ///
    /// There is no memory.
    pub(crate) fn take(&mut self, token: Token<'s>) -> Result<(), AllocError> {
        let kind = self.kind_of(&token);
        let begins = self.begins_statement(kind);
        if begins {
            self.current.list = List::None;
            self.current.loops = false;
        }
        self.settle(kind)?;
        if kind == TokenKind::Name && self.is_declaring() {
            let text = token.text;
            let start = token.start;
            self.names.push(Declared { text, start })?;
        }
        self.note(kind, begins);
        self.nest(kind, &token)?;
        self.before = self.kind;
        self.kind = Some(kind);
        self.last = Some(token);
        Ok(())
    }

    /// Ends the walk behind the last token.
    pub(crate) fn finish(&mut self) {
        self.forget();
    }

    /// Where the innermost scope declares a name.
    pub(crate) fn start_of(&self, name: &[u16]) -> Option<usize> {
        let names = self.names.as_slice();
        for declared in names.get(self.current.names_from..).unwrap_or(&[]) {
            if declared.text == name {
                return Some(declared.start);
            }
        }
        None
    }

    /// What a token is: a name where it is a word that is a key or stands behind a dot.
    pub(crate) fn kind_of(&self, token: &Token<'s>) -> TokenKind {
        if is_word(token.text) && (self.kind == Some(TokenKind::Dot) || self.is_key_next()) {
            TokenKind::Name
        } else {
            token.kind
        }
    }

    /// Whether a key of an object literal comes next.
    fn is_key_next(&self) -> bool {
        self.current.hold == Hold::Object
            && matches!(
                self.kind,
                Some(TokenKind::LeftBrace) | Some(TokenKind::Comma)
            )
    }

    /// Whether a token of this kind begins a statement behind another one.
    pub(crate) fn begins_statement(&self, kind: TokenKind) -> bool {
        if !self.current.has_statements() {
            return false;
        }
        match self.kind {
            Some(TokenKind::Semicolon) => { !matches!(kind, TokenKind::Else | TokenKind::While) }
            Some(TokenKind::RightBrace) => begins_behind(kind),
            Some(TokenKind::RightParenthesis) => {
                self.closed == Head::Other && begins_behind(kind)
            }
            Some(last) => ends_expression(last) && begins_behind(kind),
            None => false,
        }
    }

    /// Whether a name that comes next is declared by it.
    pub(crate) fn is_declaring(&self) -> bool {
        match self.kind {
            Some(TokenKind::Let) | Some(TokenKind::Const) => true,
            Some(TokenKind::Function) => self.declares,
            Some(TokenKind::LeftParenthesis) => self.may_be_parameters(),
            Some(TokenKind::Comma) => {
                self.current.list != List::None || self.may_be_parameters()
            }
            _ => false,
        }
    }

    /// Whether the names in the innermost bracket may be those of parameters.
    fn may_be_parameters(&self) -> bool {
        self.current.has_parameters() || self.current.hold == Hold::Parentheses(Head::Other)
    }

    /// Lets the names in the last parentheses go, unless this token shows that they may be parameters.
    fn settle(&mut self, kind: TokenKind) -> Result<(), AllocError> {
        if kind == TokenKind::Arrow && self.kind == Some(TokenKind::Name) {
            return self.take_parameter();
        }
        if matches!(kind, TokenKind::Arrow | TokenKind::LeftBrace) {
            return Ok(());
        }
        self.forget();
        Ok(())
    }

    /// Takes the name before an arrow as its function's parameter.
    fn take_parameter(&mut self) -> Result<(), AllocError> {
        self.parameters = Some(self.names.len());
        if let Some(name) = self.last {
            let text = name.text;
            let start = name.start;
            self.names.push(Declared { text, start })?;
        }
        Ok(())
    }

    /// Lets the names in the last parentheses go.
    fn forget(&mut self) {
        if let Some(from) = self.parameters {
            self.names.truncate(from);
        }
        self.parameters = None;
    }

    /// Notes which declaration or loop begins or ends with a token of this kind.
    fn note(&mut self, kind: TokenKind, begins: bool) {
        match kind {
            TokenKind::Let => self.current.list = List::Let,
            TokenKind::Const => self.current.list = List::Const,
            TokenKind::Semicolon => self.current.list = List::None,
            TokenKind::While | TokenKind::For | TokenKind::Do => self.current.loops = true,
            TokenKind::Function => self.declares = begins || self.is_first_statement(),
            _ => {}
        }
    }

    /// Whether no token of the innermost list of statements was read.
    fn is_first_statement(&self) -> bool {
        self.current.has_statements() && matches!(self.kind, None | Some(TokenKind::LeftBrace))
    }

    /// Opens or closes a bracket, where the token is one.
    fn nest(&mut self, kind: TokenKind, token: &Token<'s>) -> Result<(), AllocError> {
        match kind {
            TokenKind::LeftParenthesis => {
                let head = self.head();
                self.open(Hold::Parentheses(head), token.start)
            }
            TokenKind::LeftBracket => self.open(Hold::Elements, token.start),
            TokenKind::LeftBrace => {
                let hold = self.brace_hold(token.newline_before);
                self.open_brace(hold, token.start)
            }
            TokenKind::RightParenthesis | TokenKind::RightBracket | TokenKind::RightBrace => {
                self.close();
                Ok(())
            }
            _ => Ok(()),
        }
    }

    /// What stands before parentheses that open now.
    fn head(&self) -> Head {
        match self.kind {
            Some(TokenKind::If) | Some(TokenKind::While) => Head::Test,
            Some(TokenKind::For) => Head::For,
            Some(TokenKind::Catch) => Head::Catch,
            Some(TokenKind::Function) => Head::Function,
            Some(TokenKind::Name) if self.before == Some(TokenKind::Function) => Head::Function,
            Some(TokenKind::Name) | Some(TokenKind::String) | Some(TokenKind::Number)
                if self.is_behind_key() => { Head::Function }
            _ => Head::Other,
        }
    }

    /// Whether the last token stands where a key of an object literal does.
    pub(crate) fn is_behind_key(&self) -> bool {
        self.current.hold == Hold::Object
            && matches!(
                self.before,
                Some(TokenKind::LeftBrace) | Some(TokenKind::Comma)
            )
    }

    /// What a brace holds that opens now.
    fn brace_hold(&self, newline_before: bool) -> Hold {
        match self.kind {
            Some(TokenKind::Arrow) => Hold::Function,
            Some(TokenKind::RightParenthesis) => self.hold_behind_parentheses(),
            Some(TokenKind::Else)
            | Some(TokenKind::Do)
            | Some(TokenKind::Try)
            | Some(TokenKind::Finally)
            | Some(TokenKind::Catch) => Hold::Block,
            Some(TokenKind::Return) if newline_before => Hold::Block,
            None
            | Some(TokenKind::Semicolon)
            | Some(TokenKind::LeftBrace)
            | Some(TokenKind::RightBrace)
                if self.current.has_statements() => { Hold::Block }
            Some(last) if self.current.has_statements() && ends_expression(last) => Hold::Block,
            _ => Hold::Object,
        }
    }

    /// What a brace holds that opens behind parentheses.
    fn hold_behind_parentheses(&self) -> Hold {
        match self.closed {
            Head::Function => Hold::Function,
            Head::Test | Head::For | Head::Catch => Hold::Block,
            Head::Other if self.current.hold == Hold::Object => Hold::Function,
            Head::Other => Hold::Block,
        }
    }

    /// Opens a brace, in which the parameters before it are declared where it is a function's or a catch's.
    fn open_brace(&mut self, hold: Hold, start: usize) -> Result<(), AllocError> {
        let is_catch = self.kind == Some(TokenKind::RightParenthesis) && self.closed == Head::Catch;
        if hold != Hold::Function && !is_catch {
            self.forget();
        }
        let names_from = self.parameters.unwrap_or(self.names.len());
        self.parameters = None;
        self.outer.push(self.current)?;
        self.current = self.current.inner(hold, start, names_from);
        Ok(())
    }

    /// Opens a bracket.
    fn open(&mut self, hold: Hold, start: usize) -> Result<(), AllocError> {
        let names_from = self.names.len();
        self.outer.push(self.current)?;
        self.current = self.current.inner(hold, start, names_from);
        Ok(())
    }

    /// Closes the innermost bracket.
    fn close(&mut self) {
        let Some(outer) = self.outer.pop() else {
            return;
        };
        let inner = self.current;
        self.current = outer;
        self.parameters = Some(inner.names_from);
        self.closed = Head::Other;
        if let Hold::Parentheses(head) = inner.hold {
            self.closed = head;
        }
    }
}
