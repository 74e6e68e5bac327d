//! Trees of tokens.
ghost use Rattle.std.specs.Prelude.{◌≡◌};
ghost use Rattle.litrs_token.specs.Mismatch.{actual_kind, tree_mismatch};
ghost use Rattle.litrs_token.specs.Place.{call_site};
ghost use Rattle.litrs_token.specs.Tree.{group_delimiter, group_stream, group_span, shape_of, tree_span, AreAlike};

use crate::err::InvalidToken;
use crate::ident::Ident;
use crate::kind::TokenKind;
use crate::literal::Literal;
use crate::punct::Punct;
use crate::span::Span;

/// The delimiter of a group.
#[derive(Clone, Copy, Debug, PartialEq, Eq)]
pub enum Delimiter {
    /// `(` and `)`.
    Parenthesis,
    /// `{` and `}`.
    Brace,
    /// `[` and `]`.
    Bracket,
    /// No delimiter.
    None,
}

/// A sequence of trees between two delimiters.
#[cycle(tree)]
#[derive(Drop)]
pub struct Group {
    delimiter: Delimiter,
    stream: Vec<TokenTree>,
    span: Span,
}

/// A token, or a group of them.
#[cycle(tree)]
#[derive(Drop)]
pub enum TokenTree {
    /// A group, for example `(a, b)`.
    Group(Group),
    /// An identifier, for example `x`.
    Ident(Ident),
    /// Punctuation, for example `+`.
    Punct(Punct),
    /// A literal that is not a bool, for example `27`.
    Literal(Literal),
}

impl Group {
    /// Creates a group of the trees in `stream`, with the call-site span.
    ///
    /// ```
    /// use litrs_token::{Delimiter, Group, Ident, Span, TokenTree};
    ///
    /// let name = Ident::new(rt.alloc(), "a", Span::new(1, 2))?;
    /// let mut stream = Vec::new(rt.alloc());
    /// stream.push(TokenTree::from(name))?;
    /// let group = Group::new(Delimiter::Parenthesis, stream);
    /// assert_eq!(rt; group.delimiter(), Delimiter::Parenthesis);
    /// assert_eq!(rt; group.stream().len(), 1);
    /// ```
    pub fn new(delimiter: Delimiter, stream: Vec<TokenTree>) -> Group
        ensures delimiter { group_delimiter result ≡ delimiter }
        ensures stream { group_stream result ≡ stream.items }
        ensures span { group_span result ≡ call_site }
    {
        Group {
            delimiter,
            stream,
            span: Span::call_site(),
        }
    }

    /// Returns the delimiter of this group: for `(a)` that is `Parenthesis`.
    pub fn delimiter(&self) -> Delimiter
        ensures { result ≡ group_delimiter self.now }
    {
        self.delimiter
    }

    /// Returns the trees between the delimiters: for `(a)` that is the identifier `a`.
    pub fn stream(&self) -> &[TokenTree]
        ensures { result.now ≡ group_stream self.now }
    {
        self.stream.as_slice()
    }

    /// Returns the span of this group and its delimiters: for `(a)` at the start of a source that
    /// is 0..3.
    pub fn span(&self) -> Span
        ensures { result ≡ group_span self.now }
    {
        self.span
    }

    /// Sets the span of this group. The spans of the trees inside are unchanged.
    ///
    /// ```
    /// use litrs_token::{Delimiter, Group, Ident, Span, TokenTree};
    ///
    /// let name = Ident::new(rt.alloc(), "a", Span::new(1, 2))?;
    /// let mut stream = Vec::new(rt.alloc());
    /// stream.push(TokenTree::from(name))?;
    /// let mut group = Group::new(Delimiter::Parenthesis, stream);
    /// group.set_span(Span::new(0, 3));
    /// assert_eq!(rt; group.span(), Span::new(0, 3));
    /// assert_eq!(rt; group.stream()[0].span(), Span::new(1, 2));
    /// ```
    pub fn set_span(&mut self, span: Span)
        ensures span { group_span self.new ≡ span }
        ensures delimiter { group_delimiter self.new ≡ group_delimiter self.old }
        ensures stream { group_stream self.new ≡ group_stream self.old }
    {
        self.span = span;
    }
}

impl TokenTree {
    /// Returns the span of the group, the identifier, the punctuation or the literal.
    pub fn span(&self) -> Span
        ensures { result ≡ tree_span self.now }
    {
        match self {
            TokenTree::Group(group) => group.span(),
            TokenTree::Ident(ident) => ident.span(),
            TokenTree::Punct(punct) => punct.span(),
            TokenTree::Literal(literal) => literal.span(),
        }
    }

    /// Sets the span of this tree. The spans of the trees inside a group are unchanged.
    ///
    /// ```
    /// use litrs_token::{Punct, Spacing, Span, TokenTree};
    ///
    /// let mut tree = TokenTree::from(Punct::new('+', Spacing::Alone));
    /// tree.set_span(Span::new(2, 3));
    /// assert_eq!(rt; tree.span(), Span::new(2, 3));
    /// ```
    pub fn set_span(&mut self, span: Span)
        ensures span { tree_span self.new ≡ span }
        ensures alike { AreAlike (shape_of self.old) (shape_of self.new) }
    {
        match self {
            TokenTree::Group(group) => group.set_span(span),
            TokenTree::Ident(ident) => ident.set_span(span),
            TokenTree::Punct(punct) => punct.set_span(span),
            TokenTree::Literal(literal) => literal.set_span(span),
        }
    }
}

impl TokenTree {
    /// Returns the kind of this token: for the tree `27` that is `IntegerLit`.
    pub(crate) fn kind(&self) -> TokenKind
        ensures { result ≡ actual_kind (shape_of self.now) }
    {
        match self {
            TokenTree::Group(_) => TokenKind::Group,
            TokenTree::Ident(_) => TokenKind::Ident,
            TokenTree::Punct(_) => TokenKind::Punct,
            TokenTree::Literal(literal) => literal.kind(),
        }
    }

    /// Returns the error of this token if `expected` was expected, with its kind and its span.
    pub(crate) fn mismatch(&self, expected: TokenKind) -> InvalidToken
        ensures { result ≡ tree_mismatch expected self.now }
    {
        InvalidToken::new(expected, self.kind(), self.span())
    }
}

impl From<Group> for TokenTree {
    ghost use Rattle.std.specs.Prelude.{◌≡◌};
    ghost use Rattle.litrs_token.specs.declared.tree.TokenTree.TheVariants.{Group};

    ghost from_gives = { λ group tree. tree ≡ Group group };

    fn from(group: Group) -> TokenTree {
        TokenTree::Group(group)
    }
}

impl From<Ident> for TokenTree {
    ghost use Rattle.std.specs.Prelude.{◌≡◌};
    ghost use Rattle.litrs_token.specs.declared.tree.TokenTree.TheVariants.{Ident};

    ghost from_gives = { λ ident tree. tree ≡ Ident ident };

    fn from(ident: Ident) -> TokenTree {
        TokenTree::Ident(ident)
    }
}

impl From<Punct> for TokenTree {
    ghost use Rattle.std.specs.Prelude.{◌≡◌};
    ghost use Rattle.litrs_token.specs.declared.tree.TokenTree.TheVariants.{Punct};

    ghost from_gives = { λ punct tree. tree ≡ Punct punct };

    fn from(punct: Punct) -> TokenTree {
        TokenTree::Punct(punct)
    }
}

impl From<Literal> for TokenTree {
    ghost use Rattle.std.specs.Prelude.{◌≡◌};
    ghost use Rattle.litrs_token.specs.declared.tree.TokenTree.TheVariants.{Literal};

    ghost from_gives = { λ literal tree. tree ≡ Literal literal };

    fn from(literal: Literal) -> TokenTree {
        TokenTree::Literal(literal)
    }
}
