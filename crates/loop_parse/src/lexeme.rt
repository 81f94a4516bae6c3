ghost use Rattle.std.specs.Prelude.{◌≡◌, IfOk};
ghost use Rattle.loop_grammar.specs.Lexemes.{reserved_lexeme, bracket_lexeme, comparison_lexeme, sign_lexeme, lexeme_at};
ghost use Rattle.loop_lex.specs.Tokens.{IsTokenOf};

use loop_grammar::{Choice, CompareSign, DeclWord, Lexeme};
use loop_lex::{Token, TokenKind, number, text};
use plain_data::Items;
use std::alloc::{AllocError, Global};

#[tactic(auto, unfolding(loop_grammar::specs::Lexemes::reserved_lexeme))]
fn reserved(text: &[u8]) -> Lexeme
    ensures { result ≡ reserved_lexeme text.now }
{
    if text == b"param".as_slice() {
        Lexeme::Declare(DeclWord::Param)
    } else if text == b"in".as_slice() {
        Lexeme::Declare(DeclWord::Input)
    } else if text == b"out".as_slice() {
        Lexeme::Declare(DeclWord::Output)
    } else if text == b"inout".as_slice() {
        Lexeme::Declare(DeclWord::Both)
    } else if text == b"var".as_slice() {
        Lexeme::Declare(DeclWord::Var)
    } else if text == b"int".as_slice() {
        Lexeme::Int
    } else if text == b"for".as_slice() {
        Lexeme::For
    } else if text == b"if".as_slice() {
        Lexeme::If
    } else if text == b"else".as_slice() {
        Lexeme::Else
    } else if text == b"min".as_slice() {
        Lexeme::Choice(Choice::Min)
    } else if text == b"max".as_slice() {
        Lexeme::Choice(Choice::Max)
    } else {
        Lexeme::Other
    }
}

#[tactic(auto, unfolding(loop_grammar::specs::Lexemes::bracket_lexeme))]
fn bracket(text: &[u8]) -> Lexeme
    ensures { result ≡ bracket_lexeme text.now }
{
    if text == b"(".as_slice() {
        Lexeme::Open
    } else if text == b")".as_slice() {
        Lexeme::Close
    } else if text == b"[".as_slice() {
        Lexeme::OpenSquare
    } else if text == b"]".as_slice() {
        Lexeme::CloseSquare
    } else if text == b"{".as_slice() {
        Lexeme::OpenCurly
    } else if text == b"}".as_slice() {
        Lexeme::CloseCurly
    } else {
        Lexeme::Other
    }
}

#[tactic(auto, unfolding(loop_grammar::specs::Lexemes::comparison_lexeme))]
fn comparison(text: &[u8]) -> Lexeme
    ensures { result ≡ comparison_lexeme text.now }
{
    if text == b"<".as_slice() {
        Lexeme::Compare(CompareSign::Less)
    } else if text == b"<=".as_slice() {
        Lexeme::Compare(CompareSign::LessEq)
    } else if text == b">".as_slice() {
        Lexeme::Compare(CompareSign::Greater)
    } else if text == b">=".as_slice() {
        Lexeme::Compare(CompareSign::GreaterEq)
    } else if text == b"==".as_slice() {
        Lexeme::Compare(CompareSign::Equal)
    } else {
        bracket(text)
    }
}

#[tactic(auto, unfolding(loop_grammar::specs::Lexemes::sign_lexeme))]
fn sign(text: &[u8]) -> Lexeme
    ensures { result ≡ sign_lexeme text.now }
{
    if text == b";".as_slice() {
        Lexeme::Semi
    } else if text == b",".as_slice() {
        Lexeme::Comma
    } else if text == b"=".as_slice() {
        Lexeme::Assign
    } else if text == b"+".as_slice() {
        Lexeme::Plus
    } else if text == b"-".as_slice() {
        Lexeme::Minus
    } else if text == b"*".as_slice() {
        Lexeme::Times
    } else if text == b"++".as_slice() {
        Lexeme::Increment
    } else if text == b"+=".as_slice() {
        Lexeme::AddAssign
    } else if text == b"&&".as_slice() {
        Lexeme::And
    } else {
        comparison(text)
    }
}

/// What a token of these bytes is to the grammar.
#[tactic(auto, unfolding(loop_grammar::specs::Lexemes::lexeme_at))]
pub(crate) fn read_lexeme(alloc: Global, bytes: &[u8], token: Token) -> Result<Lexeme, AllocError>
    requires { IsTokenOf bytes.now token }
    ensures { IfOk result (λ word. word ≡ lexeme_at bytes.now token) }
{
    Ok(match token.kind {
        TokenKind::Name => Lexeme::Name(Items::from_slice(alloc, text(bytes, token))?),
        TokenKind::Number => Lexeme::Number(number(bytes, token)),
        TokenKind::Reserved => reserved(text(bytes, token)),
        TokenKind::Sign => sign(text(bytes, token)),
    })
}
