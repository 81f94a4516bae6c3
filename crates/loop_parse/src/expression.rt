ghost use Rattle.std.specs.Prelude.{◌≡◌, ℕ, ◌∷◌, [], ◌++◌, IfOk, option_map, reverse, Some};
ghost use Rattle.loop_grammar.specs.Grammar.{chosen};
ghost use Rattle.loop_parse.specs.ExpressionMachine.{level_with, fresh, negated, multiplied, summed, factor_value, factor_read, start, state_of, feed_factor, feed_term, feed_access, feed_arguments, feed, finish, close_bracket, closed, close_subscript, subscripted, next_argument, separated};
ghost use Rattle.loop_grammar.specs.declared.tree.Operand as operand;

use loop_grammar::{BinarySign, Choice, Lexeme, Name, Operand};
use plain_data::{Boxed, Items};
use std::alloc::{AllocError, Global};

/// A sum's left side and its sign, which wait for a term.
#[derive(Drop)]
pub(crate) struct Sum {
    pub(crate) left: Operand,
    pub(crate) sign: BinarySign,
    pub(crate) token: u32,
}

/// A product's left side and its sign, which wait for a factor.
#[derive(Drop)]
pub(crate) struct Product {
    pub(crate) left: Operand,
    pub(crate) token: u32,
}

/// All that stands before a factor inside its brackets.
#[derive(Drop)]
pub(crate) struct Level {
    pub(crate) sum: Option<Sum>,
    pub(crate) product: Option<Product>,
    pub(crate) negations: Items<u32>,
}

/// A bracket that is open, with what was read of its construct before the expression in it.
#[derive(Drop)]
pub(crate) enum Bracket {
    Parentheses,
    Subscript {
        name: Name,
        subscripts: Items<Operand>,
    },
    Arguments {
        choice: Choice,
        token: u32,
        list: Items<Operand>,
    },
}

/// An open bracket and what stands before it.
#[derive(Drop)]
pub(crate) struct Frame {
    pub(crate) level: Level,
    pub(crate) bracket: Bracket,
}

/// How far the reading inside the innermost brackets has come.
#[derive(Drop)]
pub(crate) enum Reading {
    /// A factor comes next.
    Factor(Level),
    /// The `(` of a `min` or `max` comes next.
    Arguments {
        level: Level,
        choice: Choice,
        token: u32,
    },
    /// A name with these subscripts has come; more of them may follow.
    Access {
        level: Level,
        name: Name,
        subscripts: Items<Operand>,
    },
    /// A term has come.
    Term {
        sum: Option<Sum>,
        value: Operand,
    },
}

/// An expression that is being read: its open brackets, the innermost last, and the reading inside them.
#[derive(Drop)]
pub(crate) struct Expression {
    pub(crate) outer: Items<Frame>,
    pub(crate) reading: Reading,
}

fn binary(
    alloc: Global,
    sign: BinarySign,
    token: u32,
    left: Operand,
    right: Operand,
) -> Result<Operand, AllocError>
    ensures { IfOk result (λ tree. tree ≡ operand.Binary sign token left right) }
{
    match Boxed::new(alloc, left) {
        Ok(left) => Ok(Operand::Binary {
            sign,
            token,
            left,
            right: Boxed::new(alloc, right)?,
        }),
        Err(error) => {
            drop(right);
            Err(error)
        }
    }
}

/// The factor under the signs that stand before it.
#[tactic(auto, using(crate::proofs::Negations::negated_append))]
fn negate(alloc: Global, negations: Items<u32>, factor: Operand) -> Result<Operand, AllocError>
    ensures { IfOk result (λ tree. tree ≡ negated negations factor) }
{
    let mut signs = negations;
    let mut value = factor;
    while let Some(token) = signs.pop() {
        value = Operand::Neg {
            token,
            inner: Boxed::new(alloc, value)?,
        };
    }
    Ok(value)
}

fn multiply(alloc: Global, product: Option<Product>, factor: Operand) -> Result<Operand, AllocError>
    ensures { IfOk result (λ tree. tree ≡ multiplied product factor) }
{
    match product {
        None => Ok(factor),
        Some(Product { left, token }) => binary(alloc, BinarySign::Mul, token, left, factor),
    }
}

fn add(alloc: Global, sum: Option<Sum>, term: Operand) -> Result<Operand, AllocError>
    ensures { IfOk result (λ tree. tree ≡ summed sum term) }
{
    match sum {
        None => Ok(term),
        Some(Sum { left, sign, token }) => binary(alloc, sign, token, left, term),
    }
}

/// The term that ends with the factor, of a product's left side and the signs between.
fn end_term(
    alloc: Global,
    product: Option<Product>,
    negations: Items<u32>,
    factor: Operand,
) -> Result<Operand, AllocError>
    ensures { IfOk result (λ term. term ≡ multiplied product (negated negations factor)) }
{
    match negate(alloc, negations, factor) {
        Ok(signed) => multiply(alloc, product, signed),
        Err(error) => {
            drop(product);
            Err(error)
        }
    }
}

/// The sum that a factor is a part of, and the term that ends with the factor.
fn read_factor(
    alloc: Global,
    level: Level,
    factor: Operand,
) -> Result<(Option<Sum>, Operand), AllocError>
    ensures { IfOk result (λ term. (term.0 ≡ level.sum) × (term.1 ≡ factor_value level factor)) }
{
    let Level {
        sum,
        product,
        negations,
    } = level;
    match end_term(alloc, product, negations, factor) {
        Ok(term) => Ok((sum, term)),
        Err(error) => {
            drop(sum);
            Err(error)
        }
    }
}

/// The expression after a factor that can't take more.
fn after_factor(
    alloc: Global,
    outer: Items<Frame>,
    level: Level,
    factor: Operand,
) -> Result<Expression, AllocError>
    ensures { IfOk result (λ e. state_of e ≡ (reverse outer, factor_read level factor)) }
{
    let (sum, value) = read_factor(alloc, level, factor)?;
    Ok(Expression {
        outer,
        reading: Reading::Term { sum, value },
    })
}

/// The tree of a `min` or `max`: of one argument it is that argument.
fn choose(choice: Choice, token: u32, list: Items<Operand>) -> Operand
    ensures { result ≡ chosen choice token list }
{
    let mut list = list;
    if list.len() == 1 {
        if let Some(only) = list.pop() {
            return only;
        }
    }
    match choice {
        Choice::Min => Operand::Min { token, list },
        Choice::Max => Operand::Max { token, list },
    }
}

/// The level at the front of brackets.
fn first_level(alloc: Global) -> Level
    ensures { result ≡ fresh }
{
    Level {
        sum: None,
        product: None,
        negations: Items::new(alloc),
    }
}

fn with_item<T: Drop>(mut list: Items<T>, item: T) -> Result<Items<T>, AllocError>
    ensures { IfOk result (λ longer. longer ≡ list ++ item ∷ []) }
{
    list.push(item)?;
    Ok(list)
}

/// A factor is wanted in brackets that were just opened.
fn open(
    alloc: Global,
    outer: Items<Frame>,
    level: Level,
    bracket: Bracket,
) -> Result<Expression, AllocError>
    ensures { IfOk result
        (λ e. state_of e
        ≡ (record { level = level; bracket = bracket } ∷ reverse outer, Reading.Factor fresh)) }
{
    Ok(Expression {
        outer: with_item(outer, Frame { level, bracket })?,
        reading: Reading::Factor(first_level(alloc)),
    })
}

fn negated_level(level: Level, token: u32) -> Result<Level, AllocError>
    ensures { IfOk result
        (λ longer. longer ≡ record level { negations = level.negations ++ token ∷ [] }) }
{
    let Level {
        sum,
        product,
        negations,
    } = level;
    match with_item(negations, token) {
        Ok(negations) => Ok(Level {
            sum,
            product,
            negations,
        }),
        Err(error) => {
            drop(sum);
            drop(product);
            Err(error)
        }
    }
}

/// Goes on by one token where a factor comes next, or answers `None` where none begins with it.
fn feed_factor(
    alloc: Global,
    outer: Items<Frame>,
    level: Level,
    word: Lexeme,
    token: u32,
) -> Result<Option<Expression>, AllocError>
    ensures { IfOk result
        (λ after. feed_factor (reverse outer) level (word, token) ≡ option_map state_of after) }
{
    let reading = match word {
        Lexeme::Number(value) => {
            let number = Operand::Number { value, token };
            return Ok(Some(after_factor(alloc, outer, level, number)?));
        }
        Lexeme::Minus => Reading::Factor(negated_level(level, token)?),
        Lexeme::Name(text) => Reading::Access {
            level,
            name: Name { text, token },
            subscripts: Items::new(alloc),
        },
        Lexeme::Choice(choice) => Reading::Arguments {
            level,
            choice,
            token,
        },
        Lexeme::Open => return Ok(Some(open(alloc, outer, level, Bracket::Parentheses)?)),
        _ => {
            drop(word);
            drop(level);
            return Ok(None);
        }
    };
    Ok(Some(Expression { outer, reading }))
}

/// A `)` after an expression that stands in this bracket.
fn close_in(
    alloc: Global,
    outer: Items<Frame>,
    frame: Frame,
    value: Operand,
) -> Result<Option<Expression>, AllocError>
    ensures { IfOk result
        (λ after. close_bracket (reverse outer) frame.level frame.bracket value
        ≡ option_map state_of after) }
{
    let Frame { level, bracket } = frame;
    match bracket {
        Bracket::Parentheses => Ok(Some(after_factor(alloc, outer, level, value)?)),
        Bracket::Arguments {
            choice,
            token,
            list,
        } => match with_item(list, value) {
            Ok(list) => {
                let chosen = choose(choice, token, list);
                Ok(Some(after_factor(alloc, outer, level, chosen)?))
            }
            Err(error) => {
                drop(level);
                Err(error)
            }
        },
        _ => {
            drop(bracket);
            drop(level);
            drop(value);
            Ok(None)
        }
    }
}

/// A `)` after an expression.
fn close(
    alloc: Global,
    outer: Items<Frame>,
    value: Operand,
) -> Result<Option<Expression>, AllocError>
    ensures { IfOk result (λ after. closed (reverse outer) value ≡ option_map state_of after) }
{
    let mut outer = outer;
    match outer.pop() {
        Some(frame) => close_in(alloc, outer, frame, value),
        None => {
            drop(value);
            Ok(None)
        }
    }
}

/// A `]` after an expression that stands in this bracket.
fn close_subscript_in(
    outer: Items<Frame>,
    frame: Frame,
    value: Operand,
) -> Result<Option<Expression>, AllocError>
    ensures { IfOk result
        (λ after. close_subscript (reverse outer) frame.level frame.bracket value
        ≡ option_map state_of after) }
{
    let Frame { level, bracket } = frame;
    match bracket {
        Bracket::Subscript { name, subscripts } => match with_item(subscripts, value) {
            Ok(subscripts) => {
                let reading = Reading::Access {
                    level,
                    name,
                    subscripts,
                };
                Ok(Some(Expression { outer, reading }))
            }
            Err(error) => {
                drop(level);
                drop(name);
                Err(error)
            }
        },
        _ => {
            drop(bracket);
            drop(level);
            drop(value);
            Ok(None)
        }
    }
}

/// A `]` after an expression.
fn close_subscript(outer: Items<Frame>, value: Operand) -> Result<Option<Expression>, AllocError>
    ensures { IfOk result (λ after. subscripted (reverse outer) value ≡ option_map state_of after) }
{
    let mut outer = outer;
    match outer.pop() {
        Some(frame) => close_subscript_in(outer, frame, value),
        None => {
            drop(value);
            Ok(None)
        }
    }
}

/// A `,` after an expression that stands in this bracket.
fn separate_in(
    alloc: Global,
    outer: Items<Frame>,
    frame: Frame,
    value: Operand,
) -> Result<Option<Expression>, AllocError>
    ensures { IfOk result
        (λ after. next_argument (reverse outer) frame.level frame.bracket value
        ≡ option_map state_of after) }
{
    let Frame { level, bracket } = frame;
    match bracket {
        Bracket::Arguments {
            choice,
            token,
            list,
        } => match with_item(list, value) {
            Ok(list) => {
                let bracket = Bracket::Arguments {
                    choice,
                    token,
                    list,
                };
                Ok(Some(open(alloc, outer, level, bracket)?))
            }
            Err(error) => {
                drop(level);
                Err(error)
            }
        },
        _ => {
            drop(bracket);
            drop(level);
            drop(value);
            Ok(None)
        }
    }
}

/// A `,` after an expression.
fn separate(
    alloc: Global,
    outer: Items<Frame>,
    value: Operand,
) -> Result<Option<Expression>, AllocError>
    ensures { IfOk result (λ after. separated (reverse outer) value ≡ option_map state_of after) }
{
    let mut outer = outer;
    match outer.pop() {
        Some(frame) => separate_in(alloc, outer, frame, value),
        None => {
            drop(value);
            Ok(None)
        }
    }
}

/// The level after a product's sign.
fn product_level(alloc: Global, sum: Option<Sum>, left: Operand, token: u32) -> Level
    ensures { result ≡ level_with sum (Some (record { left = left; token = token })) }
{
    Level {
        sum,
        product: Some(Product { left, token }),
        negations: Items::new(alloc),
    }
}

/// The level after a sum's sign.
fn sum_level(
    alloc: Global,
    sum: Option<Sum>,
    value: Operand,
    sign: BinarySign,
    token: u32,
) -> Result<Level, AllocError>
    ensures { IfOk result
        (λ level. level
        ≡ level_with (Some (record { left = summed sum value; sign = sign; token = token })) None) }
{
    let left = add(alloc, sum, value)?;
    Ok(Level {
        sum: Some(Sum { left, sign, token }),
        product: None,
        negations: Items::new(alloc),
    })
}

/// Goes on by one token after a term, or answers `None` where nothing goes on with it.
fn feed_term(
    alloc: Global,
    outer: Items<Frame>,
    sum: Option<Sum>,
    value: Operand,
    word: Lexeme,
    token: u32,
) -> Result<Option<Expression>, AllocError>
    ensures { IfOk result
        (λ after. feed_term (reverse outer) sum value (word, token) ≡ option_map state_of after) }
{
    let level = match word {
        Lexeme::Times => product_level(alloc, sum, value, token),
        Lexeme::Plus => sum_level(alloc, sum, value, BinarySign::Add, token)?,
        Lexeme::Minus => sum_level(alloc, sum, value, BinarySign::Sub, token)?,
        Lexeme::Close => {
            let value = add(alloc, sum, value)?;
            return close(alloc, outer, value);
        }
        Lexeme::CloseSquare => {
            let value = add(alloc, sum, value)?;
            return close_subscript(outer, value);
        }
        Lexeme::Comma => {
            let value = add(alloc, sum, value)?;
            return separate(alloc, outer, value);
        }
        _ => {
            drop(word);
            drop(sum);
            drop(value);
            return Ok(None);
        }
    };
    Ok(Some(Expression {
        outer,
        reading: Reading::Factor(level),
    }))
}

/// Goes on by one token after a name with subscripts.
fn feed_access(
    alloc: Global,
    outer: Items<Frame>,
    level: Level,
    name: Name,
    subscripts: Items<Operand>,
    word: Lexeme,
    token: u32,
) -> Result<Option<Expression>, AllocError>
    ensures { IfOk result
        (λ after. feed_access (reverse outer) level name subscripts (word, token)
        ≡ option_map state_of after) }
{
    match word {
        Lexeme::OpenSquare => {
            let bracket = Bracket::Subscript { name, subscripts };
            Ok(Some(open(alloc, outer, level, bracket)?))
        }
        word => {
            let access = Operand::Access { name, subscripts };
            match read_factor(alloc, level, access) {
                Ok((sum, value)) => feed_term(alloc, outer, sum, value, word, token),
                Err(error) => {
                    drop(word);
                    Err(error)
                }
            }
        }
    }
}

/// Goes on by one token after `min` or `max`.
fn feed_arguments(
    alloc: Global,
    outer: Items<Frame>,
    level: Level,
    choice: Choice,
    token: u32,
    word: Lexeme,
) -> Result<Option<Expression>, AllocError>
    ensures { IfOk result
        (λ after. (p : ℕ)
        → feed_arguments (reverse outer) level choice token (word, p) ≡ option_map state_of after) }
{
    match word {
        Lexeme::Open => {
            let list = Items::new(alloc);
            let bracket = Bracket::Arguments {
                choice,
                token,
                list,
            };
            Ok(Some(open(alloc, outer, level, bracket)?))
        }
        _ => {
            drop(word);
            drop(level);
            Ok(None)
        }
    }
}

/// Goes on by one token, or answers `None` where no expression goes on with it.
pub(crate) fn feed(
    alloc: Global,
    expression: Expression,
    word: Lexeme,
    token: u32,
) -> Result<Option<Expression>, AllocError>
    ensures { IfOk result
        (λ after. feed (state_of expression) (word, token) ≡ option_map state_of after) }
{
    let Expression { outer, reading } = expression;
    match reading {
        Reading::Factor(level) => feed_factor(alloc, outer, level, word, token),
        Reading::Arguments {
            level,
            choice,
            token: at,
        } => feed_arguments(alloc, outer, level, choice, at, word),
        Reading::Access {
            level,
            name,
            subscripts,
        } => feed_access(alloc, outer, level, name, subscripts, word, token),
        Reading::Term { sum, value } => feed_term(alloc, outer, sum, value, word, token),
    }
}

impl Expression {
    ghost use Rattle.loop_parse.specs.ExpressionMachine.{state_of, has_no_bracket};

    /// Whether it is read outside all of its brackets.
    pub(crate) fn has_no_bracket(&self) -> bool
        ensures { result ≡ has_no_bracket (state_of self.now) }
    {
        self.outer.is_empty()
    }
}

/// The tree of an expression that may end here, or `None`, outside all brackets.
fn finish_reading(alloc: Global, reading: Reading) -> Result<Option<Operand>, AllocError>
    ensures { IfOk result (λ tree. finish ([], reading) ≡ tree) }
{
    match reading {
        Reading::Access {
            level,
            name,
            subscripts,
        } => {
            let access = Operand::Access { name, subscripts };
            let (sum, value) = read_factor(alloc, level, access)?;
            Ok(Some(add(alloc, sum, value)?))
        }
        Reading::Term { sum, value } => Ok(Some(add(alloc, sum, value)?)),
        _ => {
            drop(reading);
            Ok(None)
        }
    }
}

/// The tree of an expression that may end here, or `None`.
pub(crate) fn finish(alloc: Global, expression: Expression) -> Result<Option<Operand>, AllocError>
    ensures { IfOk result (λ tree. finish (state_of expression) ≡ tree) }
{
    let Expression { outer, reading } = expression;
    if outer.is_empty() {
        finish_reading(alloc, reading)
    } else {
        drop(reading);
        Ok(None)
    }
}

/// An expression of which nothing was read.
pub(crate) fn start(alloc: Global) -> Expression
    ensures { state_of result ≡ start }
{
    Expression {
        outer: Items::new(alloc),
        reading: Reading::Factor(first_level(alloc)),
    }
}
