ghost use Rattle.std.specs.Prelude.{◌≡◌, ◌∷◌, [], ◌++◌, OnOk, IfOk};
ghost use Rattle.std.specs.List.{flat_map};
ghost use Rattle.loop_grammar.specs.Grammar.{bound_sign as sign_of_bound};
ghost use Rattle.loop_grammar.specs.declared.lexeme.Lexeme.TheVariants as word;
ghost use Rattle.loop_print.specs.Printing.{Writes, written, needs_parentheses, phrase_at, phrase_of, joined, in_parentheses, mark_word, binary_word, binary_rank, right_rank, expr_words, subscript_words, access_words, comparison_words, step_words, header_words, guard_words, in_braces, assign_words, part_words, other_words, parts_words, named_words, declaration_words, tree_words};

use itoa::Buffer;
use loop_grammar::{
    BinarySign, CompareSign, Comparison, DeclWord, Declaration, Name, Named, Operand, Other, Part,
    Step, Tree,
};
use std::alloc::{AllocError, Global};

/// How an operand binds, or what a place asks of it.
#[derive(Clone, Copy)]
pub(crate) enum Rank {
    Sum,
    Product,
    Factor,
}

/// A word or a sign that stands for itself.
#[derive(Clone, Copy)]
pub(crate) enum Mark {
    For,
    If,
    Else,
    Min,
    Max,
    Open,
    Close,
    OpenSquare,
    CloseSquare,
    OpenCurly,
    CloseCurly,
    Semi,
    Comma,
    Assign,
    Increment,
    AddAssign,
    And,
}

/// Writes a text and a space.
fn put_text(out: &mut Vec<u8>, text: &[u8]) -> Result<(), AllocError>
    ensures { OnOk result (out.new.items ≡ out.old.items ++ (text.now ++ 32 ∷ [])) }
{
    out.extend_from_slice(text)?;
    out.push(b' ')?;
    Ok(())
}

#[tactic(auto, unfolding(crate::specs::Printing::lexeme_text, crate::specs::Printing::written))]
fn put_number(out: &mut Vec<u8>, value: i64) -> Result<(), AllocError>
    ensures { OnOk result (Writes out.old.items out.new.items (word.Number value ∷ [])) }
{
    let mut buffer = Buffer::new();
    put_text(out, buffer.format(value).as_bytes())
}

#[tactic(auto, unfolding(crate::specs::Printing::lexeme_text, crate::specs::Printing::written))]
fn put_name(out: &mut Vec<u8>, name: &Name) -> Result<(), AllocError>
    ensures { OnOk result (Writes out.old.items out.new.items (word.Name name.now.text ∷ [])) }
{
    put_text(out, name.text.as_slice())
}

#[tactic(auto, unfolding(crate::specs::Printing::lexeme_text, crate::specs::Printing::written))]
fn put_declare(out: &mut Vec<u8>, declared: DeclWord) -> Result<(), AllocError>
    ensures { OnOk result (Writes out.old.items out.new.items (word.Declare declared ∷ [])) }
{
    match declared {
        DeclWord::Param => put_text(out, b"param"),
        DeclWord::Input => put_text(out, b"in"),
        DeclWord::Output => put_text(out, b"out"),
        DeclWord::Both => put_text(out, b"inout"),
        DeclWord::Var => put_text(out, b"var"),
    }
}

#[tactic(auto, unfolding(crate::specs::Printing::lexeme_text, crate::specs::Printing::written))]
fn put_compare(out: &mut Vec<u8>, sign: CompareSign) -> Result<(), AllocError>
    ensures { OnOk result (Writes out.old.items out.new.items (word.Compare sign ∷ [])) }
{
    match sign {
        CompareSign::Less => put_text(out, b"<"),
        CompareSign::LessEq => put_text(out, b"<="),
        CompareSign::Greater => put_text(out, b">"),
        CompareSign::GreaterEq => put_text(out, b">="),
        CompareSign::Equal => put_text(out, b"=="),
    }
}

#[tactic(auto, unfolding(crate::specs::Printing::lexeme_text, crate::specs::Printing::written))]
fn put_binary(out: &mut Vec<u8>, sign: BinarySign) -> Result<(), AllocError>
    ensures { OnOk result (Writes out.old.items out.new.items (binary_word sign ∷ [])) }
{
    match sign {
        BinarySign::Add => put_text(out, b"+"),
        BinarySign::Sub => put_text(out, b"-"),
        BinarySign::Mul => put_text(out, b"*"),
    }
}

#[tactic(auto, unfolding(crate::specs::Printing::lexeme_text, crate::specs::Printing::written))]
fn put(out: &mut Vec<u8>, mark: Mark) -> Result<(), AllocError>
    ensures { OnOk result (Writes out.old.items out.new.items (mark_word mark ∷ [])) }
{
    match mark {
        Mark::For => put_text(out, b"for"),
        Mark::If => put_text(out, b"if"),
        Mark::Else => put_text(out, b"else"),
        Mark::Min => put_text(out, b"min"),
        Mark::Max => put_text(out, b"max"),
        Mark::Open => put_text(out, b"("),
        Mark::Close => put_text(out, b")"),
        Mark::OpenSquare => put_text(out, b"["),
        Mark::CloseSquare => put_text(out, b"]"),
        Mark::OpenCurly => put_text(out, b"{"),
        Mark::CloseCurly => put_text(out, b"}"),
        Mark::Semi => put_text(out, b";"),
        Mark::Comma => put_text(out, b","),
        Mark::Assign => put_text(out, b"="),
        Mark::Increment => put_text(out, b"++"),
        Mark::AddAssign => put_text(out, b"+="),
        Mark::And => put_text(out, b"&&"),
    }
}

fn rank_of_sign(sign: BinarySign) -> Rank
    ensures { result ≡ binary_rank sign }
{
    match sign {
        BinarySign::Add | BinarySign::Sub => Rank::Sum,
        BinarySign::Mul => Rank::Product,
    }
}

fn rank_to_the_right(sign: BinarySign) -> Rank
    ensures { result ≡ right_rank sign }
{
    match sign {
        BinarySign::Add | BinarySign::Sub => Rank::Product,
        BinarySign::Mul => Rank::Factor,
    }
}

#[tactic(auto, using(crate::proofs::Phrases::phrase_number, crate::proofs::Phrases::phrase_access, crate::proofs::Phrases::phrase_binary, crate::proofs::Phrases::phrase_neg, crate::proofs::Phrases::phrase_min, crate::proofs::Phrases::phrase_max))]
fn rank_of(operand: &Operand) -> Rank
    ensures { result ≡ (phrase_of operand.now).rank }
{
    match operand {
        Operand::Binary { sign, .. } => rank_of_sign(*sign),
        Operand::Number { .. } => Rank::Factor,
        Operand::Access { .. } => Rank::Factor,
        Operand::Neg { .. } => Rank::Factor,
        Operand::Min { .. } => Rank::Factor,
        Operand::Max { .. } => Rank::Factor,
    }
}

fn asks_for_parentheses(place: Rank, own: Rank) -> bool
    ensures { result ≡ needs_parentheses place own }
{
    match place {
        Rank::Sum => false,
        Rank::Product => match own {
            Rank::Sum => true,
            _ => false,
        },
        Rank::Factor => match own {
            Rank::Factor => false,
            _ => true,
        },
    }
}

/// Writes an operand, in parentheses where its place asks for them.
#[cycle(print_operand)]
fn print_at(out: &mut Vec<u8>, place: Rank, operand: &Operand) -> Result<(), AllocError>
    ensures { OnOk result
        (Writes out.old.items out.new.items (phrase_at place (phrase_of operand.now))) }
{
    if asks_for_parentheses(place, rank_of(operand)) {
        put(out, Mark::Open)?;
        print_operand(out, operand)?;
        put(out, Mark::Close)?;
    } else {
        print_operand(out, operand)?;
    }
    Ok(())
}

/// Writes an operand.
#[cycle(print_operand)]
fn print_operand(out: &mut Vec<u8>, operand: &Operand) -> Result<(), AllocError>
    ensures { OnOk result (Writes out.old.items out.new.items (expr_words operand.now)) }
{
    match operand {
        Operand::Number { value, .. } => put_number(out, *value)?,
        Operand::Access { name, subscripts } => print_access(out, name, subscripts.as_slice())?,
        Operand::Binary {
            sign,
            left,
            right,
            ..
        } => {
            print_at(out, rank_of_sign(*sign), left.get())?;
            put_binary(out, *sign)?;
            print_at(out, rank_to_the_right(*sign), right.get())?;
        }
        Operand::Neg { inner, .. } => {
            put_binary(out, BinarySign::Sub)?;
            print_at(out, Rank::Factor, inner.get())?;
        }
        Operand::Min { list, .. } => print_choice(out, Mark::Min, list.as_slice())?,
        Operand::Max { list, .. } => print_choice(out, Mark::Max, list.as_slice())?,
    }
    Ok(())
}

/// Writes a name with its subscripts.
#[cycle(print_operand)]
fn print_access(out: &mut Vec<u8>, name: &Name, subscripts: &[Operand]) -> Result<(), AllocError>
    ensures { OnOk result
        (Writes out.old.items out.new.items (access_words name.now subscripts.now)) }
{
    put_name(out, name)?;
    print_subscripts(out, subscripts)?;
    Ok(())
}

/// Writes subscripts, each in its brackets.
#[cycle(print_operand)]
fn print_subscripts(out: &mut Vec<u8>, subscripts: &[Operand]) -> Result<(), AllocError>
    ensures { OnOk result
        (Writes out.old.items out.new.items (flat_map subscript_words subscripts.now)) }
{
    for subscript in subscripts {
        put(out, Mark::OpenSquare)?;
        print_operand(out, subscript)?;
        put(out, Mark::CloseSquare)?;
    }
    Ok(())
}

/// Writes `min` or `max` of these arguments.
#[cycle(print_operand)]
fn print_choice(out: &mut Vec<u8>, mark: Mark, list: &[Operand]) -> Result<(), AllocError>
    ensures { OnOk result
        (Writes out.old.items out.new.items
        (mark_word mark ∷ in_parentheses (joined word.Comma expr_words list.now))) }
{
    put(out, mark)?;
    put(out, Mark::Open)?;
    print_arguments(out, list)?;
    put(out, Mark::Close)?;
    Ok(())
}

/// Writes arguments, with a comma between them.
#[cycle(print_operand)]
fn print_arguments(out: &mut Vec<u8>, list: &[Operand]) -> Result<(), AllocError>
    ensures { OnOk result
        (Writes out.old.items out.new.items (joined word.Comma expr_words list.now)) }
{
    if let Some((first, others)) = list.split_first() {
        print_operand(out, first)?;
        for operand in others {
            put(out, Mark::Comma)?;
            print_operand(out, operand)?;
        }
    }
    Ok(())
}

fn print_comparison(out: &mut Vec<u8>, comparison: &Comparison) -> Result<(), AllocError>
    ensures { OnOk result (Writes out.old.items out.new.items (comparison_words comparison.now)) }
{
    print_operand(out, &comparison.left)?;
    put_compare(out, comparison.sign)?;
    print_operand(out, &comparison.right)?;
    Ok(())
}

/// Writes comparisons, with `&&` between them.
fn print_comparisons(out: &mut Vec<u8>, cond: &[Comparison]) -> Result<(), AllocError>
    ensures { OnOk result
        (Writes out.old.items out.new.items (joined word.And comparison_words cond.now)) }
{
    if let Some((first, others)) = cond.split_first() {
        print_comparison(out, first)?;
        for comparison in others {
            put(out, Mark::And)?;
            print_comparison(out, comparison)?;
        }
    }
    Ok(())
}

/// Writes an `if` up to its `)`.
fn print_guard(out: &mut Vec<u8>, cond: &[Comparison]) -> Result<(), AllocError>
    ensures { OnOk result (Writes out.old.items out.new.items (guard_words cond.now)) }
{
    put(out, Mark::If)?;
    put(out, Mark::Open)?;
    print_comparisons(out, cond)?;
    put(out, Mark::Close)?;
    Ok(())
}

fn bound_sign(inclusive: bool) -> CompareSign
    ensures { result ≡ sign_of_bound inclusive }
{
    if inclusive {
        CompareSign::LessEq
    } else {
        CompareSign::Less
    }
}

/// Writes what a `for` does to its variable after each turn.
fn print_step(out: &mut Vec<u8>, third: &Name, step: &Step) -> Result<(), AllocError>
    ensures { OnOk result (Writes out.old.items out.new.items (step_words third.now step.now)) }
{
    put_name(out, third)?;
    match step {
        Step::One => put(out, Mark::Increment)?,
        Step::By { value, .. } => {
            put(out, Mark::AddAssign)?;
            print_operand(out, value)?;
        }
    }
    Ok(())
}

/// Writes a `for` up to its `)`.
fn print_header(
    out: &mut Vec<u8>,
    name: &Name,
    first: &Operand,
    second: &Name,
    inclusive: bool,
    bound: &Operand,
    third: &Name,
    step: &Step,
) -> Result<(), AllocError>
    ensures { OnOk result
        (Writes out.old.items out.new.items
        (header_words name.now first.now second.now inclusive bound.now third.now step.now)) }
{
    put(out, Mark::For)?;
    put(out, Mark::Open)?;
    put_name(out, name)?;
    put(out, Mark::Assign)?;
    print_operand(out, first)?;
    put(out, Mark::Semi)?;
    put_name(out, second)?;
    put_compare(out, bound_sign(inclusive))?;
    print_operand(out, bound)?;
    put(out, Mark::Semi)?;
    print_step(out, third, step)?;
    put(out, Mark::Close)?;
    Ok(())
}

fn print_assign(
    out: &mut Vec<u8>,
    target: &Name,
    subscripts: &[Operand],
    value: &Operand,
) -> Result<(), AllocError>
    ensures { OnOk result
        (Writes out.old.items out.new.items (assign_words target.now subscripts.now value.now)) }
{
    print_access(out, target, subscripts)?;
    put(out, Mark::Assign)?;
    print_operand(out, value)?;
    put(out, Mark::Semi)?;
    Ok(())
}

/// Writes a statement.
#[cycle(print_part)]
fn print_part(out: &mut Vec<u8>, part: &Part) -> Result<(), AllocError>
    ensures { OnOk result (Writes out.old.items out.new.items (part_words part.now)) }
{
    match part {
        Part::For {
            name,
            first,
            second,
            inclusive,
            bound,
            third,
            step,
            body,
        } => {
            print_header(out, name, first, second, *inclusive, bound, third, step)?;
            print_part(out, body.get())?;
        }
        Part::If { cond, body, other } => {
            print_guard(out, cond.as_slice())?;
            print_part(out, body.get())?;
            print_other(out, other)?;
        }
        Part::Assign {
            target,
            subscripts,
            value,
        } => print_assign(out, target, subscripts.as_slice(), value)?,
        Part::Block(parts) => {
            put(out, Mark::OpenCurly)?;
            print_parts(out, parts.as_slice())?;
            put(out, Mark::CloseCurly)?;
        }
    }
    Ok(())
}

/// Writes an `else`, where there is one.
#[cycle(print_part)]
fn print_other(out: &mut Vec<u8>, other: &Option<Other>) -> Result<(), AllocError>
    ensures { OnOk result (Writes out.old.items out.new.items (other_words other.now)) }
{
    match other {
        Some(other) => {
            put(out, Mark::Else)?;
            print_part(out, other.body.get())?;
        }
        None => {}
    }
    Ok(())
}

/// Writes statements, one behind the other.
#[cycle(print_part)]
fn print_parts(out: &mut Vec<u8>, parts: &[Part]) -> Result<(), AllocError>
    ensures { OnOk result (Writes out.old.items out.new.items (parts_words parts.now)) }
{
    for part in parts {
        print_part(out, part)?;
    }
    Ok(())
}

fn print_named(out: &mut Vec<u8>, named: &Named) -> Result<(), AllocError>
    ensures { OnOk result (Writes out.old.items out.new.items (named_words named.now)) }
{
    print_access(out, &named.name, named.extents.as_slice())?;
    Ok(())
}

/// Writes what is declared, with a comma between.
fn print_names(out: &mut Vec<u8>, names: &[Named]) -> Result<(), AllocError>
    ensures { OnOk result
        (Writes out.old.items out.new.items (joined word.Comma named_words names.now)) }
{
    if let Some((first, others)) = names.split_first() {
        print_named(out, first)?;
        for named in others {
            put(out, Mark::Comma)?;
            print_named(out, named)?;
        }
    }
    Ok(())
}

fn print_declaration(out: &mut Vec<u8>, declaration: &Declaration) -> Result<(), AllocError>
    ensures { OnOk result (Writes out.old.items out.new.items (declaration_words declaration.now)) }
{
    put_declare(out, declaration.word)?;
    print_names(out, declaration.names.as_slice())?;
    put(out, Mark::Semi)?;
    Ok(())
}

fn print_declarations(out: &mut Vec<u8>, declarations: &[Declaration]) -> Result<(), AllocError>
    ensures { OnOk result
        (Writes out.old.items out.new.items (flat_map declaration_words declarations.now)) }
{
    for declaration in declarations {
        print_declaration(out, declaration)?;
    }
    Ok(())
}

/// The words of a tree, each with a space behind it. Parentheses stand only where an operand binds less than its place asks.
pub(crate) fn text_of(alloc: Global, tree: &Tree) -> Result<Vec<u8>, AllocError>
    ensures { IfOk result (λ text. text.items ≡ written (tree_words tree.now)) }
{
    let mut out = Vec::new(alloc);
    print_declarations(&mut out, tree.declarations.as_slice())?;
    print_parts(&mut out, tree.parts.as_slice())?;
    Ok(out)
}
