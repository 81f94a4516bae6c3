ghost use Rattle.std.specs.Prelude.{◌≡◌, ◌≤◌, IfOk, Ok};
ghost use Rattle.loop_lex.specs.Tokens.{tokens};
ghost use Rattle.loop_grammar.specs.Lexemes.{IsTree};
ghost use Rattle.matrix_load.specs.Product.{IsMatrixNest, matrix_product, size_given};

use loop_class::{BindError, Params, bind};
use loop_grammar::Tree;
use loop_lex::{LexError, Token, lex};
use loop_parse::{ParseError, parse};
use sanlp::Nest;
use std::alloc::{AllocError, Global};

fn source() -> &'static [u8]
    ensures { result.now ≡ matrix_product }
{
    b"param N; in A[N][N], B[N][N]; out C[N][N]; for (i = 0; i < N; i++) for (j = 0; j < N; j++) { C[i][j] = 0; for (k = 0; k < N; k++) C[i][j] = C[i][j] + A[i][k] * B[k][j]; }"
}

fn tokens_of_product(alloc: Global) -> Result<Vec<Token>, AllocError>
    ensures { IfOk result (λ found. tokens matrix_product ≡ Ok found.items) }
{
    match lex(alloc, source()) {
        Ok(found) => Ok(found),
        Err(error) => {
            prove!(matches!(&error, LexError::Memory));
            Err(AllocError)
        }
    }
}

fn tree_of_product(alloc: Global, found: &[Token]) -> Result<Tree, AllocError>
    requires { tokens matrix_product ≡ Ok found.now }
    ensures { IfOk result (λ tree. IsTree matrix_product found.now tree) }
{
    match parse(alloc, source(), found) {
        Ok(tree) => Ok(tree),
        Err(error) => {
            prove!(matches!(&error, ParseError::Memory));
            Err(AllocError)
        }
    }
}

/// The parameter of the source with its value.
fn size_param(alloc: Global, count: u32) -> Result<Params, AllocError>
    ensures { IfOk result (λ params. params ≡ size_given count) }
{
    let mut params = Params::empty(alloc);
    params.add(b"N", i64::from(count))?;
    Ok(params)
}

/// The nest of the matrix product, where each matrix has so many rows and so many columns. Nothing is refused but want
/// of memory.
///
/// The source declares the inputs A and B and the output C. It sets each cell of C to 0 and then adds the products of the
/// row of A and the column of B to it, one after the other.
pub fn matrix_nest(alloc: Global, count: u32) -> Result<Nest, AllocError>
    requires { count ≤ 2147483647 }
    ensures { IfOk result (λ nest. IsMatrixNest count nest) }
{
    let tokens = tokens_of_product(alloc)?;
    let found = tokens.as_slice();
    let tree = tree_of_product(alloc, found)?;
    let params = size_param(alloc, count)?;
    match bind(alloc, source(), found, &tree, &params) {
        Ok(nest) => Ok(nest),
        Err(error) => {
            prove!(matches!(&error, BindError::Memory));
            Err(AllocError)
        }
    }
}
