// The tokens of a piece, cut one at a time.
ghost use Rattle.std.specs.Prelude.{◌≡◌, ◌≢◌, ◌≤◌, ◌<◌, [], ◌∷◌, Err, IfOk, MatchOption, drop, length};
ghost use Rattle.blink_base.specs.declared.limits.TheConstants.{LONGEST_INPUT};
ghost use Rattle.star_lex.specs.declared.token.LexFault.TheVariants.{Memory};
ghost use Rattle.star_lex.specs.Kinds.{begins_with, first_mark, is_word, kinds_of, kinds_or_fault};
ghost use Rattle.star_lex.specs.Lex.{lexed};

use crate::listed_token::{copied, is_word, mark_of};
use crate::text_token::{behind_first, from_first, is_word_in_front, kind_in_front, mark_in_front};
use crate::token_count::count;
use crate::{LexFault, Mark, Token, TokenKind};
use std::alloc::{AllocError, Global};
use std::marker::Model;

// What tokens are taken from: a list of them, or a text that begins with the first.
#[derive(Clone, Copy)]
enum Source<'a> {
    Listed(&'a [Token]),
    Written(&'a [u8]),
}

/// Tokens of a piece, seen as the list of their kinds: those of a list, or those of a text from a place on, which are
/// cut whenever they are asked for, so that no list of them stands in memory.
/// Source: ISO/IEC 9075 (lexical elements), in this project's own profile.
#[derive(Drop)]
pub struct Tokens<'a> {
    source: Source<'a>,
    left: usize,
}

impl<'a> Model for Tokens<'a> {
    ghost use Rattle.std.specs.Prelude.{List};
    ghost use Rattle.star_lex.specs.declared.token.TokenKind.{TokenKind};

    ghost Value = { List TokenKind };

    ghost use Rattle.star_lex.specs.TokensRepr.{kinds_left, AreLeft};

    ghost view = { λ t. kinds_left t.source };

    ghost invariant = { λ t. AreLeft t.source t.left };
}

impl<'a> Tokens<'a> {
    /// These tokens. It takes no memory.
    pub fn of_list(tokens: &'a [Token]) -> Tokens<'a>
        ensures { result ≡ kinds_of tokens.now }
    {
        Tokens {
            source: Source::Listed(tokens),
            left: tokens.len(),
        }
    }

    /// The tokens of a piece of at most 67,108,864 bytes, or its first fault, as [`tokens`](crate::tokens) gives both.
    pub fn of_piece(alloc: Global, text: &'a [u8]) -> Result<Tokens<'a>, LexFault>
        requires { length text.now ≤ LONGEST_INPUT }
        ensures lexed { result ≢ Err Memory → result ≡ kinds_or_fault (lexed text.now) }
        ensures few { IfOk result (λ tokens. length tokens ≤ length text.now) }
    {
        let left = count(alloc, text)?;
        Ok(Tokens {
            source: Source::Written(from_first(text)),
            left,
        })
    }

    /// The same tokens. It takes no memory.
    pub fn copy(&self) -> Tokens<'a>
        ensures { result ≡ self.now }
    {
        Tokens {
            source: self.source,
            left: self.left,
        }
    }

    /// How many tokens there are.
    pub fn len(&self) -> usize
        ensures { result ≡ length self.now }
    {
        self.left
    }

    /// The mark that stands first, where one does.
    pub fn mark(&self) -> Option<Mark>
        ensures { result ≡ first_mark self.now }
    {
        if self.left == 0 {
            return None;
        }
        match self.source {
            Source::Listed(tokens) => mark_of(&tokens[0].kind),
            Source::Written(text) => mark_in_front(text),
        }
    }

    /// Whether a name that is this word stands first. A name is in lower case.
    pub fn is_word(&self, word: &str) -> bool
        ensures { result ≡ begins_with (is_word word.now) self.now }
    {
        if self.left == 0 {
            return false;
        }
        match self.source {
            Source::Listed(tokens) => is_word(word, &tokens[0].kind),
            Source::Written(text) => is_word_in_front(text, word),
        }
    }

    /// The tokens behind the first.
    pub fn behind(&self) -> Tokens<'a>
        ensures { result ≡ drop 1 self.now }
    {
        if self.left == 0 {
            return self.copy();
        }
        let left = self.left - 1;
        match self.source {
            Source::Listed(tokens) => Tokens {
                source: Source::Listed(&tokens[1..]),
                left,
            },
            Source::Written(text) => Tokens {
                source: Source::Written(behind_first(text)),
                left,
            },
        }
    }

    // What the first token says.
    fn first(&self, alloc: Global) -> Result<TokenKind, AllocError>
        requires { 0 < length self.now }
        ensures { IfOk result (λ kind. self.now ≡ kind ∷ drop 1 self.now) }
    {
        match self.source {
            Source::Listed(tokens) => copied(alloc, &tokens[0].kind),
            Source::Written(text) => kind_in_front(alloc, text),
        }
    }

    /// What the first token says, and the tokens behind it; None where there is none.
    pub fn next(&self, alloc: Global) -> Result<Option<(TokenKind, Tokens<'a>)>, AllocError>
        ensures { IfOk result (λ next. MatchOption next (self.now ≡ []) (λ x. self.now ≡ x.0 ∷ x.1)) }
    {
        if self.left == 0 {
            return Ok(None);
        }
        let first = self.first(alloc)?;
        Ok(Some((first, self.behind())))
    }
}
